//! SELECT statements (chapters 4.2.1 and 4.8 to 4.10).
ghost use Rattle.std.specs.Prelude.{◌≡◌, map, is_some, Some, IfOk};
ghost use Rattle.std.specs.List.{list_all};
ghost use Rattle.jpql_types.specs.Gives.{Gives, IsJudged};
ghost use Rattle.jpql_types.specs.Typing as typing;
ghost use Rattle.jpql_types.specs.Statements as spec;
ghost use Rattle.jpql_types.specs.Trees as trees;
ghost use Rattle.jpql_types.specs.Within.{IsScope};

use crate::conditions::{typed_filter, typed_sources};
use crate::context::{Context, Groups, Parameters};
use crate::error::TypingError;
use crate::groups::select_clause;
use crate::order::typed_keys;
use crate::scope::{Clause, Variable};
use crate::sort::Sort;
use crate::values::{typed_path, typed_value};
use jpa_model::Metamodel;
use jpa_value::Seq;
use jpql_trees::tree::{Item, Select};
use jpql_trees::typed::{TypedPath, TypedSelect, TypedSource, TypedValue};
use std::alloc::Global;

/// An item, and what it is of.
fn typed_item(
    alloc: Global,
    context: &Context<'_>,
    scope: &[Variable],
    clause: Clause,
    select: &Select,
    item: &Item,
) -> Result<(TypedValue, Sort), TypingError>
    requires scope { IsScope context.now.metamodel.now scope.now }
    requires groups { context.now.groups.now ≡ select.now.groups }
    requires clause { clause ≡ spec.select_clause select.now }
    ensures sort { Gives (λ found. found.1) result
        (spec.item_sort context.now.metamodel.now context.now.parameters.now select.now scope.now
        item.now) }
    ensures tree { IfOk result (λ found. found.0
        ≡ trees.typed_value context.now.metamodel.now context.now.parameters.now scope.now
        item.now.value) }
{
    typed_value(alloc, context, scope, clause, &item.value)
}

/// Items, and what they are of.
fn typed_items(
    alloc: Global,
    context: &Context<'_>,
    scope: &[Variable],
    clause: Clause,
    select: &Select,
) -> Result<(Seq<TypedValue>, Seq<Sort>), TypingError>
    requires scope { IsScope context.now.metamodel.now scope.now }
    requires groups { context.now.groups.now ≡ select.now.groups }
    requires clause { clause ≡ spec.select_clause select.now }
    ensures typed { IsJudged result (list_all (λ i.
        is_some (spec.item_sort context.now.metamodel.now context.now.parameters.now select.now
        scope.now i)) select.now.items) }
    ensures sorts { IfOk result (λ found. typing.all_some
        (map (spec.item_sort context.now.metamodel.now context.now.parameters.now select.now
        scope.now) select.now.items) ≡ Some found.1) }
    ensures trees { IfOk result (λ found. found.0
        ≡ map (λ i. trees.typed_value context.now.metamodel.now context.now.parameters.now
        scope.now i.value) select.now.items) }
{
    let mut found = Seq::new(alloc);
    let mut sorts = Seq::new(alloc);
    for item in select.items.as_slice() {
        let (value, sort) = typed_item(alloc, context, scope, clause, select, item)?;
        found.push(value)?;
        sorts.push(sort)?;
    }
    Ok((found, sorts))
}

/// The grouping paths.
fn typed_groups(
    alloc: Global,
    context: &Context<'_>,
    scope: &[Variable],
    select: &Select,
) -> Result<Seq<TypedPath>, TypingError>
    requires scope { IsScope context.now.metamodel.now scope.now }
    requires groups { context.now.groups.now ≡ select.now.groups }
    ensures typed { IsJudged result
        (list_all (spec.is_group_typed context.now.metamodel.now context.now.parameters.now
        select.now scope.now) select.now.groups) }
    ensures trees { IfOk result (λ found. found ≡ map
        (trees.typed_path context.now.metamodel.now context.now.parameters.now scope.now)
        select.now.groups) }
{
    let mut found = Seq::new(alloc);
    for group in select.groups.as_slice() {
        let (path, _) = typed_path(alloc, context, scope, Clause::Where, group)?;
        found.push(path)?;
    }
    Ok(found)
}

/// A SELECT in the scope that its FROM makes.
fn typed_select_in(
    alloc: Global,
    context: &Context<'_>,
    scope: &[Variable],
    sources: Seq<TypedSource>,
    select: &Select,
) -> Result<TypedSelect, TypingError>
    requires scope { IsScope context.now.metamodel.now scope.now }
    requires groups { context.now.groups.now ≡ select.now.groups }
    ensures typed { IsJudged result (spec.is_select_typed_in context.now.metamodel.now
        context.now.parameters.now select.now scope.now) }
    ensures tree { IfOk result (λ found. found ≡ trees.typed_select_in context.now.metamodel.now
        context.now.parameters.now select.now scope.now sources) }
{
    let clause = select_clause(select);
    let (items, sorts) = typed_items(alloc, context, scope, clause, select)?;
    let filter = typed_filter(alloc, context, scope, Clause::Where, &select.filter)?;
    let groups = typed_groups(alloc, context, scope, select)?;
    let having = typed_filter(alloc, context, scope, Clause::Having, &select.having)?;
    let order = typed_keys(alloc, context, scope, clause, select, sorts.as_slice())?;
    Ok(TypedSelect {
        is_distinct: select.is_distinct,
        items,
        sources,
        filter,
        groups,
        having,
        order,
    })
}

/// A SELECT, where it is well typed.
pub(crate) fn typed_select(
    alloc: Global,
    metamodel: &Metamodel,
    parameters: &Parameters<'_>,
    select: &Select,
) -> Result<TypedSelect, TypingError>
    ensures typed { IsJudged result (spec.is_select_typed metamodel.now parameters.now select.now) }
    ensures tree { IfOk result (λ found. found ≡ trees.typed_select metamodel.now parameters.now
        select.now) }
{
    let groups = Groups::of(alloc, select.groups.as_slice())?;
    let context = Context {
        metamodel,
        parameters,
        groups: &groups,
    };
    let (scope, sources) = typed_sources(
        alloc,
        &context,
        Seq::new(alloc),
        select.sources.as_slice(),
    )?;
    typed_select_in(alloc, &context, scope.as_slice(), sources, select)
}
