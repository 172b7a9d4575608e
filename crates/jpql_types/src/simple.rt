//! Which conditions over values and names are well typed, and their trees.
ghost use Rattle.std.specs.Prelude.{◌≡◌, true, not, length, filter, is_some, map, IfSome, IfOk};
ghost use Rattle.std.specs.List.{list_all};
ghost use Rattle.jpa_model.specs.WellFormed.{if_some, is_some_that};
ghost use Rattle.jpql_trees.specs.declared.tree.Condition.TheOpen as test;
ghost use Rattle.jpql_types.specs.Gives.{Gives, IsJudged};
ghost use Rattle.jpql_types.specs.Scope as scopes;
ghost use Rattle.jpql_types.specs.Sorts as sorts;
ghost use Rattle.jpql_types.specs.Typing as typing;
ghost use Rattle.jpql_types.specs.Trees as trees;
ghost use Rattle.jpql_types.specs.Within.{IsClass, IsScope};

use crate::context::Context;
use crate::error::TypingError;
use crate::nodes::judged;
use crate::paths::resolved;
use crate::scope::{Clause, Variable};
use crate::sort::{
    Sort, TEXT, all_go_with, are_comparable, joined_basic, joined_with, sort_against,
};
use crate::values::{typed_collection, typed_value, typed_values, with_value};
use jpa_value::{Boxed, Seq, Text};
use jpql_trees::tree::{Against, Comparison, Path, Value};
use jpql_trees::typed::{TypedBlock, TypedCondition, TypedPath};
use std::alloc::Global;

/// A comparison (chapter 4.6.7).
pub(crate) fn compare(
    alloc: Global,
    context: &Context<'_>,
    scope: &[Variable],
    clause: Clause,
    comparison: Comparison,
    left: &Value,
    right: &Value,
) -> Result<TypedCondition, TypingError>
    requires { IsScope context.now.metamodel.now scope.now }
    ensures typed { IsJudged result (typing.condition_step context.now.metamodel.now
        context.now.parameters.now context.now.groups.now
        (test.Compare comparison left.now right.now) scope.now clause) }
    ensures tree { IfOk result (λ found. found ≡ trees.test_step context.now.metamodel.now
        context.now.parameters.now (test.Compare comparison left.now right.now) scope.now) }
{
    let (left, left_sort) = typed_value(alloc, context, scope, clause, left)?;
    let (left, (right, right_sort)) = with_value(alloc, context, scope, clause, right, left)?;
    let is_typed = are_comparable(comparison, left_sort, right_sort);
    let (left, right) = judged(is_typed, (left, right))?;
    Ok(TypedCondition::Compare(comparison, left, right))
}

/// BETWEEN (chapter 4.6.8).
pub(crate) fn between(
    alloc: Global,
    context: &Context<'_>,
    scope: &[Variable],
    clause: Clause,
    value: &Value,
    low: &Value,
    high: &Value,
) -> Result<TypedCondition, TypingError>
    requires { IsScope context.now.metamodel.now scope.now }
    ensures typed { IsJudged result (typing.condition_step context.now.metamodel.now
        context.now.parameters.now context.now.groups.now (test.Between value.now low.now high.now)
        scope.now clause) }
    ensures tree { IfOk result (λ found. found ≡ trees.test_step context.now.metamodel.now
        context.now.parameters.now (test.Between value.now low.now high.now) scope.now) }
{
    let (value, sort) = typed_value(alloc, context, scope, clause, value)?;
    let (value, (low, low_sort)) = with_value(alloc, context, scope, clause, low, value)?;
    let values = (value, low);
    let (values, (high, high_sort)) = with_value(alloc, context, scope, clause, high, values)?;
    let joined = joined_basic(&[sort, low_sort, high_sort]);
    let ((value, low), high) = judged(joined.is_some(), (values, high))?;
    Ok(TypedCondition::Between(value, low, high))
}

/// IN (chapter 4.6.9).
pub(crate) fn among(
    alloc: Global,
    context: &Context<'_>,
    scope: &[Variable],
    clause: Clause,
    value: &Value,
    all: &[Value],
) -> Result<TypedCondition, TypingError>
    requires { IsScope context.now.metamodel.now scope.now }
    ensures typed { IsJudged result (typing.condition_step context.now.metamodel.now
        context.now.parameters.now context.now.groups.now (test.In value.now all.now) scope.now
        clause) }
    ensures tree { IfOk result (λ found. found ≡ trees.test_step context.now.metamodel.now
        context.now.parameters.now (test.In value.now all.now) scope.now) }
{
    let (all, others) = typed_values(alloc, context, scope, clause, all)?;
    let (all, (value, sort)) = with_value(alloc, context, scope, clause, value, all)?;
    let joined = joined_with(sort, others.as_slice());
    let (value, all) = judged(joined.is_some(), (value, all))?;
    Ok(TypedCondition::In(value, all))
}

/// Whether a value of a sort may be compared so with what is taken of rows of another.
fn is_comparable_with(kind: (Against, Comparison), value: Sort, row: Sort) -> bool
    ensures { result ≡ is_some_that (sorts.are_comparable kind.1 value)
        (sorts.sort_against kind.0 row) }
{
    match sort_against(kind.0, row) {
        None => false,
        Some(sort) => are_comparable(kind.1, value, sort),
    }
}

/// A value beside rows and their sort (chapters 4.6.9, 4.6.15 and 4.9.5).
pub(crate) fn beside_rows(
    alloc: Global,
    context: &Context<'_>,
    scope: &[Variable],
    clause: Clause,
    kind: (Against, Comparison),
    value: &Value,
    rows: (Boxed<TypedBlock>, Sort),
) -> Result<TypedCondition, TypingError>
    requires { IsScope context.now.metamodel.now scope.now }
    ensures typed { IsJudged result (typing.pass_both (sorts.are_comparable kind.1)
        (typing.value_sort context.now.metamodel.now context.now.parameters.now
        context.now.groups.now scope.now clause value.now) (sorts.sort_against kind.0 rows.1)) }
    ensures tree { IfOk result (λ found. found ≡ TypedCondition.Rows kind.0 kind.1
        (trees.typed_value context.now.metamodel.now context.now.parameters.now scope.now value.now)
        rows.0) }
{
    let (block, row) = rows;
    let (block, (value, sort)) = with_value(alloc, context, scope, clause, value, block)?;
    let is_typed = is_comparable_with(kind, sort, row);
    let (value, block) = judged(is_typed, (value, block))?;
    Ok(TypedCondition::Rows(kind.0, kind.1, value, block))
}

/// Whether a byte of a text goes on with a character that began before it.
fn continues(byte: u8) -> bool
    ensures { result ≡ typing.continues byte }
{
    (128..192).contains(&byte)
}

fn count_characters(bytes: &[u8]) -> usize
    ensures { result ≡ length (filter (λ b. not (typing.continues b)) bytes.now) }
{
    bytes.iter().filter(|byte| !continues(**byte)).count()
}

/// Whether a text is one character, as the one that follows ESCAPE (chapter 4.6.10).
fn is_one_character(text: &Text) -> bool
    ensures { result ≡ typing.is_one_character text.now }
{
    count_characters(text.as_bytes()) == 1
}

fn allows_escape(escape: &Option<Text>) -> bool
    ensures { result ≡ if_some typing.is_one_character escape.now }
{
    match escape {
        None => true,
        Some(text) => is_one_character(text),
    }
}

fn copied(alloc: Global, text: &Option<Text>) -> Result<Option<Text>, TypingError>
    ensures typed { IsJudged result true }
    ensures copy { IfOk result (λ found. found ≡ text.now) }
{
    match text {
        None => Ok(None),
        Some(text) => Ok(Some(Text::of(alloc, text.as_str())?)),
    }
}

/// LIKE (chapter 4.6.10).
pub(crate) fn like(
    alloc: Global,
    context: &Context<'_>,
    scope: &[Variable],
    clause: Clause,
    value: &Value,
    pattern: &Value,
    escape: &Option<Text>,
) -> Result<TypedCondition, TypingError>
    requires { IsScope context.now.metamodel.now scope.now }
    ensures typed { IsJudged result (typing.condition_step context.now.metamodel.now
        context.now.parameters.now context.now.groups.now
        (test.Like value.now pattern.now escape.now) scope.now clause) }
    ensures tree { IfOk result (λ found. found ≡ trees.test_step context.now.metamodel.now
        context.now.parameters.now (test.Like value.now pattern.now escape.now) scope.now) }
{
    let copy = copied(alloc, escape)?;
    let (copy, (value, sort)) = with_value(alloc, context, scope, clause, value, copy)?;
    let values = (copy, value);
    let (values, (pattern, pattern_sort)) = with_value(
        alloc, context, scope, clause, pattern, values,
    )?;
    let is_typed = all_go_with(TEXT, &[sort, pattern_sort]) && allows_escape(escape);
    let ((copy, value), pattern) = judged(is_typed, (values, pattern))?;
    Ok(TypedCondition::Like(value, pattern, copy))
}

/// IS NULL (chapter 4.6.11).
pub(crate) fn is_null(
    alloc: Global,
    context: &Context<'_>,
    scope: &[Variable],
    clause: Clause,
    value: &Value,
) -> Result<TypedCondition, TypingError>
    requires { IsScope context.now.metamodel.now scope.now }
    ensures typed { IsJudged result (typing.condition_step context.now.metamodel.now
        context.now.parameters.now context.now.groups.now (test.IsNull value.now) scope.now
        clause) }
    ensures tree { IfOk result (λ found. found ≡ trees.test_step context.now.metamodel.now
        context.now.parameters.now (test.IsNull value.now) scope.now) }
{
    let (value, _) = typed_value(alloc, context, scope, clause, value)?;
    Ok(TypedCondition::IsNull(value))
}

/// IS EMPTY (chapter 4.6.12).
pub(crate) fn is_empty(
    alloc: Global,
    context: &Context<'_>,
    scope: &[Variable],
    clause: Clause,
    path: &Path,
) -> Result<TypedCondition, TypingError>
    requires { IsScope context.now.metamodel.now scope.now }
    ensures typed { IsJudged result (typing.condition_step context.now.metamodel.now
        context.now.parameters.now context.now.groups.now (test.IsEmpty path.now) scope.now
        clause) }
    ensures tree { IfOk result (λ found. found ≡ trees.test_step context.now.metamodel.now
        context.now.parameters.now (test.IsEmpty path.now) scope.now) }
{
    let (path, _) = typed_collection(alloc, context, scope, clause, path)?;
    Ok(TypedCondition::IsEmpty(path))
}

/// MEMBER OF (chapter 4.6.13).
pub(crate) fn member(
    alloc: Global,
    context: &Context<'_>,
    scope: &[Variable],
    clause: Clause,
    value: &Value,
    path: &Path,
) -> Result<TypedCondition, TypingError>
    requires { IsScope context.now.metamodel.now scope.now }
    ensures typed { IsJudged result (typing.condition_step context.now.metamodel.now
        context.now.parameters.now context.now.groups.now (test.Member value.now path.now) scope.now
        clause) }
    ensures tree { IfOk result (λ found. found ≡ trees.test_step context.now.metamodel.now
        context.now.parameters.now (test.Member value.now path.now) scope.now) }
{
    let (path, class) = typed_collection(alloc, context, scope, clause, path)?;
    let (path, (value, sort)) = with_value(alloc, context, scope, clause, value, path)?;
    let root = context.metamodel.root_class(class);
    let is_typed = Sort::Entity(root).goes_with(sort);
    let (value, path) = judged(is_typed, (value, path))?;
    Ok(TypedCondition::Member(value, path))
}

/// The class of this name in the hierarchy of another.
fn class_of_hierarchy(context: &Context<'_>, class: usize, name: &Text) -> Option<usize>
    requires { IsClass context.now.metamodel.now class }
    ensures typed { is_some result ≡ typing.is_of_hierarchy context.now.metamodel.now class
        name.now }
    ensures class { IfSome result (λ found. found
        ≡ trees.class_named context.now.metamodel.now context.now.parameters.now name.now) }
{
    let found = context.metamodel.class_of(name.as_str())?;
    if context.metamodel.root_class(found) == context.metamodel.root_class(class) {
        Some(found)
    } else {
        None
    }
}

/// The classes of these names, all in the hierarchy of another.
fn classes_of_hierarchy(
    alloc: Global,
    context: &Context<'_>,
    class: usize,
    names: &[Text],
) -> Result<Seq<usize>, TypingError>
    requires { IsClass context.now.metamodel.now class }
    ensures typed { IsJudged result
        (list_all (typing.is_of_hierarchy context.now.metamodel.now class) names.now) }
    ensures classes { IfOk result (λ found. found ≡ map
        (trees.class_named context.now.metamodel.now context.now.parameters.now) names.now) }
{
    let mut classes = Seq::new(alloc);
    for name in names {
        let found = class_of_hierarchy(context, class, name).ok_or(TypingError::Typing)?;
        classes.push(found)?;
    }
    Ok(classes)
}

/// What a variable means where the clause allows it.
fn resolved_variable(
    alloc: Global,
    context: &Context<'_>,
    scope: &[Variable],
    clause: Clause,
    variable: &Text,
) -> Result<TypedPath, TypingError>
    requires { IsScope context.now.metamodel.now scope.now }
    ensures path { Gives (λ found. found) result
        (scopes.resolved context.now.metamodel.now context.now.groups.now scope.now clause
        (typing.variable_path variable.now)) }
    ensures place { IfOk result (λ p. p.variable
        ≡ trees.place (scopes.place_of scope.now variable.now)) }
    ensures within { IfOk result (λ p. IsClass context.now.metamodel.now p.class) }
{
    let path = Path {
        variable: Text::of(alloc, variable.as_str())?,
        names: Seq::new(alloc),
    };
    resolved(alloc, context, scope, clause, &path)
}

/// TYPE (chapter 4.7.5).
pub(crate) fn type_of(
    alloc: Global,
    context: &Context<'_>,
    scope: &[Variable],
    clause: Clause,
    variable: &Text,
    names: &[Text],
) -> Result<TypedCondition, TypingError>
    requires { IsScope context.now.metamodel.now scope.now }
    ensures typed { IsJudged result (typing.condition_step context.now.metamodel.now
        context.now.parameters.now context.now.groups.now (test.«Type» variable.now names.now)
        scope.now clause) }
    ensures tree { IfOk result (λ found. found ≡ trees.test_step context.now.metamodel.now
        context.now.parameters.now (test.«Type» variable.now names.now) scope.now) }
{
    let path = resolved_variable(alloc, context, scope, clause, variable)?;
    let classes = classes_of_hierarchy(alloc, context, path.class, names)?;
    Ok(TypedCondition::Type(path.variable, classes))
}
