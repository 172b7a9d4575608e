//! Which conditions and nested SELECTs are well typed, the variables that FROM brings into scope,
//! and their trees.
ghost use Rattle.std.specs.Prelude.{◌≡◌, ◌&&◌, map, IfOk};
ghost use Rattle.jpa_model.specs.WellFormed.{if_some};
ghost use Rattle.jpql_trees.specs.declared.tree.Condition.TheOpen as test;
ghost use Rattle.jpql_types.specs.Gives.{Gives, IsJudged};
ghost use Rattle.jpql_types.specs.Typing as typing;
ghost use Rattle.jpql_types.specs.Trees as trees;
ghost use Rattle.jpql_types.specs.Within.{IsScope};

use crate::context::Context;
use crate::error::TypingError;
use crate::scope::{Clause, Variable};
use crate::sort::Sort;
use crate::values::typed_value;
use crate::{from, nodes, simple};
use jpa_value::{Boxed, Seq};
use jpql_trees::tree::{Against, Block, Comparison, Condition, Join, Source, Value};
use jpql_trees::typed::{TypedBlock, TypedCondition, TypedJoin, TypedSource};
use std::alloc::Global;

fn allows_exists(clause: Clause) -> bool
    ensures { result ≡ typing.allows_exists clause }
{
    !matches!(clause, Clause::Having)
}

/// A condition, where it is well typed in a clause.
#[cycle(typed_condition)]
pub(crate) fn typed_condition(
    alloc: Global,
    context: &Context<'_>,
    scope: &[Variable],
    clause: Clause,
    condition: &Condition,
) -> Result<TypedCondition, TypingError>
    requires { IsScope context.now.metamodel.now scope.now }
    ensures typed { IsJudged result (typing.is_condition_typed context.now.metamodel.now
        context.now.parameters.now context.now.groups.now scope.now clause condition.now) }
    ensures tree { IfOk result (λ found. found ≡ trees.typed_condition context.now.metamodel.now
        context.now.parameters.now condition.now scope.now) }
{
    match condition {
        Condition::Or(left, right) => {
            let left = boxed_condition(alloc, context, scope, clause, left.get())?;
            let (left, right) = with_right(alloc, context, scope, clause, right.get(), left)?;
            Ok(TypedCondition::Or(left, right))
        }
        Condition::And(left, right) => {
            let left = boxed_condition(alloc, context, scope, clause, left.get())?;
            let (left, right) = with_right(alloc, context, scope, clause, right.get(), left)?;
            Ok(TypedCondition::And(left, right))
        }
        Condition::Not(inner) => typed_not(alloc, context, scope, clause, inner.get()),
        Condition::Compare(comparison, left, right) => {
            simple::compare(alloc, context, scope, clause, *comparison, left, right)
        }
        Condition::Between(value, low, high) => {
            simple::between(alloc, context, scope, clause, value, low, high)
        }
        Condition::In(value, all) => {
            simple::among(alloc, context, scope, clause, value, all.as_slice())
        }
        Condition::Like(value, pattern, escape) => {
            simple::like(alloc, context, scope, clause, value, pattern, escape)
        }
        Condition::IsNull(value) => simple::is_null(alloc, context, scope, clause, value),
        Condition::IsEmpty(path) => simple::is_empty(alloc, context, scope, clause, path),
        Condition::Member(value, path) => {
            simple::member(alloc, context, scope, clause, value, path)
        }
        Condition::Exists(block) => typed_exists(alloc, context, scope, clause, block.get()),
        Condition::Rows(against, comparison, value, block) => {
            let kind = (*against, *comparison);
            typed_rows(alloc, context, scope, clause, kind, block.get(), value)
        }
        Condition::Type(variable, names) => {
            simple::type_of(alloc, context, scope, clause, variable, names.as_slice())
        }
    }
}

/// A condition on the heap, where it is well typed in a clause.
#[cycle(typed_condition)]
fn boxed_condition(
    alloc: Global,
    context: &Context<'_>,
    scope: &[Variable],
    clause: Clause,
    condition: &Condition,
) -> Result<Boxed<TypedCondition>, TypingError>
    requires { IsScope context.now.metamodel.now scope.now }
    ensures typed { IsJudged result (typing.is_condition_typed context.now.metamodel.now
        context.now.parameters.now context.now.groups.now scope.now clause condition.now) }
    ensures tree { IfOk result (λ found. found ≡ trees.typed_condition context.now.metamodel.now
        context.now.parameters.now condition.now scope.now) }
{
    let condition = typed_condition(alloc, context, scope, clause, condition)?;
    Ok(Boxed::new(alloc, condition)?)
}

/// A condition beside the one to its right, where that is well typed in a clause.
#[cycle(typed_condition)]
fn with_right(
    alloc: Global,
    context: &Context<'_>,
    scope: &[Variable],
    clause: Clause,
    right: &Condition,
    left: Boxed<TypedCondition>,
) -> Result<(Boxed<TypedCondition>, Boxed<TypedCondition>), TypingError>
    requires { IsScope context.now.metamodel.now scope.now }
    ensures typed { IsJudged result (typing.is_condition_typed context.now.metamodel.now
        context.now.parameters.now context.now.groups.now scope.now clause right.now) }
    ensures left { IfOk result (λ found. found.0 ≡ left) }
    ensures right { IfOk result (λ found. found.1
        ≡ trees.typed_condition context.now.metamodel.now context.now.parameters.now right.now
        scope.now) }
{
    let right = boxed_condition(alloc, context, scope, clause, right)?;
    Ok((left, right))
}

/// NOT (chapter 4.6.5).
#[cycle(typed_condition)]
fn typed_not(
    alloc: Global,
    context: &Context<'_>,
    scope: &[Variable],
    clause: Clause,
    inner: &Condition,
) -> Result<TypedCondition, TypingError>
    requires { IsScope context.now.metamodel.now scope.now }
    ensures typed { IsJudged result (typing.is_condition_typed context.now.metamodel.now
        context.now.parameters.now context.now.groups.now scope.now clause inner.now) }
    ensures tree { IfOk result (λ found. found ≡ TypedCondition.Not
        (trees.typed_condition context.now.metamodel.now context.now.parameters.now inner.now
        scope.now)) }
{
    let inner = boxed_condition(alloc, context, scope, clause, inner)?;
    Ok(TypedCondition::Not(inner))
}

/// EXISTS (chapter 4.6.16).
#[cycle(typed_condition)]
fn typed_exists(
    alloc: Global,
    context: &Context<'_>,
    scope: &[Variable],
    clause: Clause,
    block: &Block,
) -> Result<TypedCondition, TypingError>
    requires { IsScope context.now.metamodel.now scope.now }
    ensures typed { IsJudged result (typing.allows_exists clause
        && typing.is_block_typed context.now.metamodel.now context.now.parameters.now
        context.now.groups.now block.now scope.now) }
    ensures tree { IfOk result (λ found. found ≡ TypedCondition.Exists
        (trees.typed_block context.now.metamodel.now context.now.parameters.now block.now
        scope.now)) }
{
    if !allows_exists(clause) {
        return Err(TypingError::Typing);
    }
    let (block, _) = boxed_block(alloc, context, scope, block)?;
    Ok(TypedCondition::Exists(block))
}

/// A value beside the rows of a nested SELECT, with what of those it is compared with, and how
/// (chapters 4.6.9, 4.6.15 and 4.9.5).
#[cycle(typed_condition)]
fn typed_rows(
    alloc: Global,
    context: &Context<'_>,
    scope: &[Variable],
    clause: Clause,
    kind: (Against, Comparison),
    block: &Block,
    value: &Value,
) -> Result<TypedCondition, TypingError>
    requires { IsScope context.now.metamodel.now scope.now }
    ensures typed { IsJudged result (typing.condition_step context.now.metamodel.now
        context.now.parameters.now context.now.groups.now (test.Rows kind.0 kind.1 value.now
        (typing.block_sort context.now.metamodel.now context.now.parameters.now
        context.now.groups.now block.now)) scope.now clause) }
    ensures tree { IfOk result (λ found. found ≡ trees.test_step context.now.metamodel.now
        context.now.parameters.now (test.Rows kind.0 kind.1 value.now
        (trees.typed_block context.now.metamodel.now context.now.parameters.now block.now))
        scope.now) }
{
    if !allows_exists(clause) {
        return Err(TypingError::Typing);
    }
    let rows = boxed_block(alloc, context, scope, block)?;
    simple::beside_rows(alloc, context, scope, clause, kind, value, rows)
}

/// A condition, where there is one and it is well typed in a clause.
#[cycle(typed_condition)]
pub(crate) fn typed_filter(
    alloc: Global,
    context: &Context<'_>,
    scope: &[Variable],
    clause: Clause,
    filter: &Option<Boxed<Condition>>,
) -> Result<Option<Boxed<TypedCondition>>, TypingError>
    requires { IsScope context.now.metamodel.now scope.now }
    ensures typed { IsJudged result
        (if_some (typing.is_condition_typed context.now.metamodel.now context.now.parameters.now
        context.now.groups.now scope.now clause) filter.now) }
    ensures tree { IfOk result (λ found. found ≡ trees.typed_filter context.now.metamodel.now
        context.now.parameters.now scope.now filter.now) }
{
    match filter {
        None => Ok(None),
        Some(filter) => Ok(Some(boxed_condition(alloc, context, scope, clause, filter.get())?)),
    }
}

/// A nested SELECT on the heap, and what its item is of, where it is well typed in the scope around
/// it.
#[cycle(typed_condition)]
fn boxed_block(
    alloc: Global,
    context: &Context<'_>,
    outer: &[Variable],
    block: &Block,
) -> Result<(Boxed<TypedBlock>, Sort), TypingError>
    requires { IsScope context.now.metamodel.now outer.now }
    ensures sort { Gives (λ found. found.1) result
        (typing.block_sort context.now.metamodel.now context.now.parameters.now
        context.now.groups.now block.now outer.now) }
    ensures tree { IfOk result (λ found. found.0 ≡ trees.typed_block context.now.metamodel.now
        context.now.parameters.now block.now outer.now) }
{
    let block = typed_block(alloc, context, outer, block)?;
    nodes::on_heap(alloc, block)
}

/// A nested SELECT, and what its item is of, where it is well typed in the scope around it.
#[cycle(typed_condition)]
fn typed_block(
    alloc: Global,
    context: &Context<'_>,
    outer: &[Variable],
    block: &Block,
) -> Result<(TypedBlock, Sort), TypingError>
    requires { IsScope context.now.metamodel.now outer.now }
    ensures sort { Gives (λ found. found.1) result
        (typing.block_sort context.now.metamodel.now context.now.parameters.now
        context.now.groups.now block.now outer.now) }
    ensures tree { IfOk result (λ found. found.0 ≡ trees.typed_block context.now.metamodel.now
        context.now.parameters.now block.now outer.now) }
{
    let scope = from::copied(alloc, outer)?;
    let (scope, sources) = typed_sources(alloc, context, scope, block.sources.as_slice())?;
    let scope = scope.as_slice();
    let filter = typed_filter(alloc, context, scope, Clause::Where, &block.filter)?;
    let (item, sort) = typed_value(alloc, context, scope, Clause::Where, &block.item.value)?;
    let block = TypedBlock {
        item,
        sources,
        filter,
    };
    Ok((block, sort))
}

/// The scope with the variable of a join, and its tree, where it is well typed after what is in
/// scope.
#[cycle(typed_condition)]
fn typed_join(
    alloc: Global,
    context: &Context<'_>,
    scope: Seq<Variable>,
    join: &Join,
) -> Result<(Seq<Variable>, TypedJoin), TypingError>
    requires { IsScope context.now.metamodel.now scope }
    ensures scope { Gives (λ found. found.0) result
        (typing.join_scope context.now.metamodel.now context.now.parameters.now
        context.now.groups.now join.now scope) }
    ensures tree { IfOk result (λ found. found.1
        ≡ (trees.typed_join context.now.metamodel.now context.now.parameters.now join.now
        scope).0) }
    ensures after { IfOk result (λ found. found.0
        ≡ (trees.typed_join context.now.metamodel.now context.now.parameters.now join.now
        scope).1) }
    ensures within { IfOk result (λ found. IsScope context.now.metamodel.now found.0) }
{
    let (scope, (of, step)) = from::with_join(
        alloc,
        context,
        scope,
        &join.of,
        &join.relation,
        &join.variable,
    )?;
    let on = typed_filter(alloc, context, scope.as_slice(), Clause::On, &join.on)?;
    let is_left = join.is_left;
    Ok((
        scope,
        TypedJoin {
            is_left,
            of,
            step,
            on,
        },
    ))
}

/// The same for joins, each after those before it.
#[cycle(typed_condition)]
fn typed_joins(
    alloc: Global,
    context: &Context<'_>,
    scope: Seq<Variable>,
    joins: &[Join],
) -> Result<(Seq<Variable>, Seq<TypedJoin>), TypingError>
    requires { IsScope context.now.metamodel.now scope }
    ensures scope { Gives (λ found. found.0) result
        (typing.in_turn
        (map (typing.join_scope context.now.metamodel.now context.now.parameters.now
        context.now.groups.now) joins.now) scope) }
    ensures trees { IfOk result (λ found. found.1
        ≡ (trees.in_scope
        (map (trees.typed_join context.now.metamodel.now context.now.parameters.now) joins.now)
        scope).0) }
    ensures after { IfOk result (λ found. found.0
        ≡ (trees.in_scope
        (map (trees.typed_join context.now.metamodel.now context.now.parameters.now) joins.now)
        scope).1) }
    ensures within { IfOk result (λ found. IsScope context.now.metamodel.now found.0) }
{
    let mut scope = scope;
    let mut found = Seq::new(alloc);
    for join in joins {
        let (wider, join) = typed_join(alloc, context, scope, join)?;
        found.push(join)?;
        scope = wider;
    }
    Ok((scope, found))
}

/// The scope with the variables of a source, and its tree, where it is well typed after what is in
/// scope.
#[cycle(typed_condition)]
pub(crate) fn typed_source(
    alloc: Global,
    context: &Context<'_>,
    scope: Seq<Variable>,
    source: &Source,
) -> Result<(Seq<Variable>, TypedSource), TypingError>
    requires { IsScope context.now.metamodel.now scope }
    ensures scope { Gives (λ found. found.0) result
        (typing.source_scope context.now.metamodel.now context.now.parameters.now
        context.now.groups.now source.now scope) }
    ensures tree { IfOk result (λ found. found.1
        ≡ (trees.typed_source context.now.metamodel.now context.now.parameters.now source.now
        scope).0) }
    ensures after { IfOk result (λ found. found.0
        ≡ (trees.typed_source context.now.metamodel.now context.now.parameters.now source.now
        scope).1) }
    ensures within { IfOk result (λ found. IsScope context.now.metamodel.now found.0) }
{
    let (scope, origin) = from::with_source(
        alloc,
        context,
        scope,
        &source.origin,
        &source.variable,
    )?;
    let (scope, joins) = typed_joins(alloc, context, scope, source.joins.as_slice())?;
    Ok((scope, TypedSource { origin, joins }))
}

/// The same for sources, each after those before it.
#[cycle(typed_condition)]
pub(crate) fn typed_sources(
    alloc: Global,
    context: &Context<'_>,
    scope: Seq<Variable>,
    sources: &[Source],
) -> Result<(Seq<Variable>, Seq<TypedSource>), TypingError>
    requires { IsScope context.now.metamodel.now scope }
    ensures scope { Gives (λ found. found.0) result
        (typing.in_turn
        (map (typing.source_scope context.now.metamodel.now context.now.parameters.now
        context.now.groups.now) sources.now) scope) }
    ensures trees { IfOk result (λ found. found.1
        ≡ (trees.in_scope
        (map (trees.typed_source context.now.metamodel.now context.now.parameters.now) sources.now)
        scope).0) }
    ensures after { IfOk result (λ found. found.0
        ≡ (trees.in_scope
        (map (trees.typed_source context.now.metamodel.now context.now.parameters.now) sources.now)
        scope).1) }
    ensures within { IfOk result (λ found. IsScope context.now.metamodel.now found.0) }
{
    let mut scope = scope;
    let mut found = Seq::new(alloc);
    for source in sources {
        let (wider, source) = typed_source(alloc, context, scope, source)?;
        found.push(source)?;
        scope = wider;
    }
    Ok((scope, found))
}
