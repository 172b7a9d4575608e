//! Which values are well typed, what they are of, and their trees.
ghost use Rattle.std.specs.Prelude.{◌≡◌, map, Some, true, IfOk};
ghost use Rattle.jpql_trees.specs.declared.tree.Value.TheOpen as part;
ghost use Rattle.jpql_types.specs.Gives.{Gives, IsJudged};
ghost use Rattle.jpql_types.specs.Scope.{path_of};
ghost use Rattle.jpql_types.specs.Sorts as sorts;
ghost use Rattle.jpql_types.specs.Typing as typing;
ghost use Rattle.jpql_types.specs.Trees as trees;
ghost use Rattle.jpql_types.specs.Within.{IsClass, IsScope};

use crate::context::{Context, Parameters};
use crate::ends::{collection_class, path_sort};
use crate::error::TypingError;
use crate::nodes;
use crate::paths::resolved;
use crate::scope::{Clause, Variable};
use crate::sort::{INTEGER, Sort, TEXT};
use jpa_value::{Seq, Text};
use jpql_trees::tree::{Aggregate, Arithmetic, Function, Path, Sign, Value};
use jpql_trees::typed::{TypedPath, TypedValue};
use std::alloc::Global;

fn parameter_sort(parameters: &Parameters<'_>, name: &Text) -> Sort
    ensures { result ≡ typing.parameter_sort parameters.now name.now }
{
    match parameters.first(name) {
        None => Sort::Null,
        Some((_, sort)) => *sort,
    }
}

fn allows_aggregates(clause: Clause) -> bool
    ensures { result ≡ typing.allows_aggregates clause }
{
    !matches!(clause, Clause::On | Clause::Where)
}

/// What a path means, and what it leads to.
pub(crate) fn typed_path(
    alloc: Global,
    context: &Context<'_>,
    scope: &[Variable],
    clause: Clause,
    path: &Path,
) -> Result<(TypedPath, Sort), TypingError>
    requires { IsScope context.now.metamodel.now scope.now }
    ensures sort { Gives (λ found. found.1) result
        (typing.sort_of_path context.now.metamodel.now context.now.groups.now scope.now clause
        path.now) }
    ensures tree { IfOk result (λ found. found.0
        ≡ trees.typed_path context.now.metamodel.now context.now.parameters.now scope.now
        path.now) }
    ensures meaning { IfOk result (λ found. path_of context.now.metamodel.now scope.now path.now
        ≡ Some found.0) }
{
    let path = resolved(alloc, context, scope, clause, path)?;
    let sort = path_sort(context.metamodel, &path);
    nodes::beside(path, sort)
}

/// What a path means, and the class of the collection that it leads to.
pub(crate) fn typed_collection(
    alloc: Global,
    context: &Context<'_>,
    scope: &[Variable],
    clause: Clause,
    path: &Path,
) -> Result<(TypedPath, usize), TypingError>
    requires { IsScope context.now.metamodel.now scope.now }
    ensures class { Gives (λ found. found.1) result
        (typing.collection context.now.metamodel.now context.now.groups.now scope.now clause
        path.now) }
    ensures tree { IfOk result (λ found. found.0
        ≡ trees.typed_path context.now.metamodel.now context.now.parameters.now scope.now
        path.now) }
    ensures within { IfOk result (λ found. IsClass context.now.metamodel.now found.1) }
{
    let path = resolved(alloc, context, scope, clause, path)?;
    let class = collection_class(context.metamodel, &path);
    nodes::beside(path, class)
}

fn place_of_parameter(parameters: &Parameters<'_>, name: &Text) -> usize
    ensures { result ≡ trees.place_of_parameter parameters.now name.now }
{
    parameters.place(name).unwrap_or(0)
}

fn typed_parameter(context: &Context<'_>, name: &Text) -> (TypedValue, Sort)
    ensures sort { result.1 ≡ typing.parameter_sort context.now.parameters.now name.now }
    ensures tree { result.0 ≡ TypedValue.Parameter
        (trees.place_of_parameter context.now.parameters.now name.now) }
{
    let place = place_of_parameter(context.parameters, name);
    (
        TypedValue::Parameter(place),
        parameter_sort(context.parameters, name),
    )
}

#[inline(never)]
fn typed_text(alloc: Global, text: &Text) -> Result<(TypedValue, Sort), TypingError>
    ensures memory { IsJudged result true }
    ensures value { IfOk result (λ found. found ≡ (TypedValue.Text text.now, sorts.text)) }
{
    Ok((TypedValue::Text(Text::of(alloc, text.as_str())?), TEXT))
}

#[inline(never)]
fn path_value(
    alloc: Global,
    context: &Context<'_>,
    scope: &[Variable],
    clause: Clause,
    path: &Path,
) -> Result<(TypedValue, Sort), TypingError>
    requires { IsScope context.now.metamodel.now scope.now }
    ensures sort { Gives (λ found. found.1) result
        (typing.sort_of_path context.now.metamodel.now context.now.groups.now scope.now clause
        path.now) }
    ensures tree { IfOk result (λ found. found.0
        ≡ TypedValue.Path (trees.typed_path context.now.metamodel.now context.now.parameters.now
        scope.now path.now)) }
{
    let (path, sort) = typed_path(alloc, context, scope, clause, path)?;
    Ok((TypedValue::Path(path), sort))
}

#[inline(never)]
fn size_value(
    alloc: Global,
    context: &Context<'_>,
    scope: &[Variable],
    clause: Clause,
    path: &Path,
) -> Result<(TypedValue, Sort), TypingError>
    requires { IsScope context.now.metamodel.now scope.now }
    ensures sort { Gives (λ found. found.1) result
        (typing.sort_step context.now.metamodel.now context.now.parameters.now
        context.now.groups.now scope.now (part.Size path.now) clause) }
    ensures tree { IfOk result (λ found. found.0
        ≡ TypedValue.Size (trees.typed_path context.now.metamodel.now context.now.parameters.now
        scope.now path.now)) }
{
    let (path, _) = typed_collection(alloc, context, scope, clause, path)?;
    Ok((TypedValue::Size(path), INTEGER))
}

// A chain of `+` may be as long as a text, and the stack then holds this function once for each
// operand. So its frame is kept small: what other values need stands in functions of their own.
/// A value, and what it is of, where it is well typed in a clause.
#[cycle(typed_value)]
pub(crate) fn typed_value(
    alloc: Global,
    context: &Context<'_>,
    scope: &[Variable],
    clause: Clause,
    value: &Value,
) -> Result<(TypedValue, Sort), TypingError>
    requires { IsScope context.now.metamodel.now scope.now }
    ensures sort { Gives (λ found. found.1) result
        (typing.value_sort context.now.metamodel.now context.now.parameters.now
        context.now.groups.now scope.now clause value.now) }
    ensures tree { IfOk result (λ found. found.0
        ≡ trees.typed_value context.now.metamodel.now context.now.parameters.now scope.now
        value.now) }
{
    match value {
        Value::Integer(number) => Ok((TypedValue::Integer(*number), INTEGER)),
        Value::Text(text) => typed_text(alloc, text),
        Value::Parameter(name) => Ok(typed_parameter(context, name)),
        Value::Path(path) => path_value(alloc, context, scope, clause, path),
        Value::Signed(sign, operand) => {
            typed_sign(alloc, context, scope, clause, *sign, operand.get())
        }
        Value::Arithmetic(operation, left, right) => {
            let left = typed_value(alloc, context, scope, clause, left.get())?;
            typed_right(alloc, context, scope, clause, *operation, left, right.get())
        }
        Value::Call(function, arguments) => {
            typed_call(
                alloc,
                context,
                scope,
                clause,
                *function,
                arguments.as_slice(),
            )
        }
        Value::Size(path) => size_value(alloc, context, scope, clause, path),
        Value::Aggregate(aggregate, is_distinct, operand) => typed_aggregate(
            alloc,
            context,
            scope,
            clause,
            *aggregate,
            *is_distinct,
            operand.get(),
        ),
    }
}

#[cycle(typed_value)]
#[inline(never)]
fn typed_sign(
    alloc: Global,
    context: &Context<'_>,
    scope: &[Variable],
    clause: Clause,
    sign: Sign,
    operand: &Value,
) -> Result<(TypedValue, Sort), TypingError>
    requires { IsScope context.now.metamodel.now scope.now }
    ensures sort { Gives (λ found. found.1) result
        (typing.value_sort context.now.metamodel.now context.now.parameters.now
        context.now.groups.now scope.now clause (Value.Signed sign operand.now)) }
    ensures tree { IfOk result (λ found. found.0
        ≡ trees.typed_value context.now.metamodel.now context.now.parameters.now scope.now
        (Value.Signed sign operand.now)) }
{
    let operand = typed_value(alloc, context, scope, clause, operand)?;
    nodes::signed(alloc, sign, operand)
}

/// What arithmetic gives of an operand that is typed, and the one to its right.
#[cycle(typed_value)]
#[inline(never)]
fn typed_right(
    alloc: Global,
    context: &Context<'_>,
    scope: &[Variable],
    clause: Clause,
    operation: Arithmetic,
    left: (TypedValue, Sort),
    right: &Value,
) -> Result<(TypedValue, Sort), TypingError>
    requires { IsScope context.now.metamodel.now scope.now }
    ensures sort { Gives (λ found. found.1) result
        (typing.sort_step context.now.metamodel.now context.now.parameters.now
        context.now.groups.now scope.now (part.Arithmetic operation (λ _. Some left.1)
        (λ c. typing.value_sort context.now.metamodel.now context.now.parameters.now
        context.now.groups.now scope.now c right.now)) clause) }
    ensures tree { IfOk result (λ found. found.0
        ≡ TypedValue.Arithmetic operation left.0
        (trees.typed_value context.now.metamodel.now context.now.parameters.now scope.now
        right.now)) }
{
    let right = typed_value(alloc, context, scope, clause, right)?;
    nodes::arithmetic(alloc, operation, left, right)
}

#[cycle(typed_value)]
#[inline(never)]
fn typed_call(
    alloc: Global,
    context: &Context<'_>,
    scope: &[Variable],
    clause: Clause,
    function: Function,
    arguments: &[Value],
) -> Result<(TypedValue, Sort), TypingError>
    requires { IsScope context.now.metamodel.now scope.now }
    ensures sort { Gives (λ found. found.1) result
        (typing.value_sort context.now.metamodel.now context.now.parameters.now
        context.now.groups.now scope.now clause (Value.Call function arguments.now)) }
    ensures tree { IfOk result (λ found. found.0
        ≡ trees.typed_value context.now.metamodel.now context.now.parameters.now scope.now
        (Value.Call function arguments.now)) }
{
    let (arguments, sorts) = typed_values(alloc, context, scope, clause, arguments)?;
    nodes::call(function, arguments, sorts)
}

#[cycle(typed_value)]
#[inline(never)]
fn typed_aggregate(
    alloc: Global,
    context: &Context<'_>,
    scope: &[Variable],
    clause: Clause,
    aggregate: Aggregate,
    is_distinct: bool,
    operand: &Value,
) -> Result<(TypedValue, Sort), TypingError>
    requires { IsScope context.now.metamodel.now scope.now }
    ensures sort { Gives (λ found. found.1) result
        (typing.value_sort context.now.metamodel.now context.now.parameters.now
        context.now.groups.now scope.now clause
        (Value.Aggregate aggregate is_distinct operand.now)) }
    ensures tree { IfOk result (λ found. found.0
        ≡ trees.typed_value context.now.metamodel.now context.now.parameters.now scope.now
        (Value.Aggregate aggregate is_distinct operand.now)) }
{
    if !allows_aggregates(clause) {
        return Err(TypingError::Typing);
    }
    let operand = typed_value(alloc, context, scope, Clause::Where, operand)?;
    nodes::aggregate(alloc, aggregate, is_distinct, operand)
}

/// Values, and what they are of, where all are well typed in a clause.
#[cycle(typed_value)]
pub(crate) fn typed_values(
    alloc: Global,
    context: &Context<'_>,
    scope: &[Variable],
    clause: Clause,
    values: &[Value],
) -> Result<(Seq<TypedValue>, Seq<Sort>), TypingError>
    requires { IsScope context.now.metamodel.now scope.now }
    ensures sorts { Gives (λ found. found.1) result
        (typing.sorts_of context.now.metamodel.now context.now.parameters.now context.now.groups.now
        scope.now clause values.now) }
    ensures trees { IfOk result (λ found. found.0
        ≡ map (trees.typed_value context.now.metamodel.now context.now.parameters.now scope.now)
        values.now) }
{
    let mut found = Seq::new(alloc);
    let mut sorts = Seq::new(alloc);
    for value in values {
        let (value, sort) = typed_value(alloc, context, scope, clause, value)?;
        found.push(value)?;
        sorts.push(sort)?;
    }
    Ok((found, sorts))
}

// It holds for any tree, so that the check need not look into the one that is let go.
/// A tree beside a value, and what that is of, where the value is well typed in a clause.
pub(crate) fn with_value<T: Drop>(
    alloc: Global,
    context: &Context<'_>,
    scope: &[Variable],
    clause: Clause,
    value: &Value,
    tree: T,
) -> Result<(T, (TypedValue, Sort)), TypingError>
    requires { IsScope context.now.metamodel.now scope.now }
    ensures sort { Gives (λ found. found.1.1) result
        (typing.value_sort context.now.metamodel.now context.now.parameters.now
        context.now.groups.now scope.now clause value.now) }
    ensures beside { IfOk result (λ found. found.0 ≡ tree) }
    ensures tree { IfOk result (λ found. found.1.0
        ≡ trees.typed_value context.now.metamodel.now context.now.parameters.now scope.now
        value.now) }
{
    let found = typed_value(alloc, context, scope, clause, value)?;
    Ok((tree, found))
}
