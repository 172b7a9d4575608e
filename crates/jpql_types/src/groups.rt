//! What stands in values, and whether a SELECT has groups.
ghost use Rattle.std.specs.Prelude.{◌≡◌};
ghost use Rattle.std.specs.List.{list_any};
ghost use Rattle.jpql_types.specs.Statements as spec;

use crate::scope::Clause;
use jpql_trees::tree::{Item, Path, Select, SortKey, Sorted, Value};

#[cycle(has_aggregate)]
fn has_aggregate(value: &Value) -> bool
    ensures { result ≡ spec.has_aggregate value.now }
{
    match value {
        Value::Aggregate(_, _, _) => true,
        Value::Signed(_, operand) => has_aggregate(operand.get()),
        Value::Arithmetic(_, left, right) => {
            has_aggregate(left.get()) || has_aggregate(right.get())
        }
        Value::Call(_, arguments) => have_aggregate(arguments.as_slice()),
        Value::Integer(_)
        | Value::Text(_)
        | Value::Parameter(_)
        | Value::Path(_)
        | Value::Size(_) => false,
    }
}

#[cycle(has_aggregate)]
fn have_aggregate(values: &[Value]) -> bool
    ensures { result ≡ list_any spec.has_aggregate values.now }
{
    for value in values {
        if has_aggregate(value) {
            return true;
        }
    }
    false
}

/// Whether a value names a variable; one that doesn't is the same for each row.
#[cycle(names_variable)]
pub(crate) fn names_variable(value: &Value) -> bool
    ensures { result ≡ spec.names_variable value.now }
{
    match value {
        Value::Path(_) | Value::Size(_) => true,
        Value::Signed(_, operand) | Value::Aggregate(_, _, operand) => {
            names_variable(operand.get())
        }
        Value::Arithmetic(_, left, right) => {
            names_variable(left.get()) || names_variable(right.get())
        }
        Value::Call(_, arguments) => name_variable(arguments.as_slice()),
        Value::Integer(_) | Value::Text(_) | Value::Parameter(_) => false,
    }
}

#[cycle(names_variable)]
fn name_variable(values: &[Value]) -> bool
    ensures { result ≡ list_any spec.names_variable values.now }
{
    for value in values {
        if names_variable(value) {
            return true;
        }
    }
    false
}

fn have_items_aggregate(items: &[Item]) -> bool
    ensures { result ≡ list_any (λ i. spec.has_aggregate i.value) items.now }
{
    items.iter().any(|item| has_aggregate(&item.value))
}

fn sorts_by_aggregate(by: &Sorted) -> bool
    ensures { result ≡ spec.sorts_by_aggregate by.now }
{
    match by {
        Sorted::Value(value) => has_aggregate(value),
        Sorted::Name(_) | Sorted::Path(_) => false,
    }
}

fn have_keys_aggregate(keys: &[SortKey]) -> bool
    ensures { result ≡ list_any (λ key. spec.sorts_by_aggregate key.by) keys.now }
{
    keys.iter().any(|key| sorts_by_aggregate(&key.by))
}

fn is_any(groups: &[Path]) -> bool
    ensures { result ≡ spec.is_any groups.now }
{
    !matches!(groups, [])
}

fn is_grouping(select: &Select) -> bool
    ensures { result ≡ spec.is_grouping select.now }
{
    is_any(select.groups.as_slice())
        || select.having.is_some()
        || have_items_aggregate(select.items.as_slice())
        || have_keys_aggregate(select.order.as_slice())
}

/// The clause of the items, and of ORDER BY (chapters 4.9 and 4.10).
pub(crate) fn select_clause(select: &Select) -> Clause
    ensures { result ≡ spec.select_clause select.now }
{
    if is_grouping(select) {
        Clause::Grouped
    } else {
        Clause::Select
    }
}
