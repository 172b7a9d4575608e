//! What can't overflow: no `+`, `-`, `*`, ABS, MOD or aggregate stands in it, nor in its nested
//! blocks, no sign but that of an integer, and no value beside the SUM of rows. Then an object that
//! a condition refuses decides nothing (chapter 4.6).
ghost use Rattle.std.specs.Prelude.{◌≡◌, option_map};
ghost use Rattle.std.specs.List.{list_all};
ghost use Rattle.jpql_run.specs.Calm as calm;

use jpa_value::Boxed;
use jpql_trees::tree::{Against, Aggregate, Function};
use jpql_trees::typed::{TypedBlock, TypedCondition, TypedJoin, TypedSource, TypedValue};

fn is_calm_function(function: Function) -> bool
    ensures { result ≡ calm.is_calm_function function }
{
    !matches!(function, Function::Abs | Function::Mod)
}

/// Whether a number is one of 64 bits with either sign.
fn is_small(number: i64) -> bool
    ensures { result ≡ calm.is_small number }
{
    number.checked_neg().is_some()
}

/// Whether a value is an integer that can't overflow with a sign.
fn is_small_integer(value: &TypedValue) -> bool
    ensures { result ≡ (calm.calmness value.now).small }
{
    match value {
        TypedValue::Integer(number) => is_small(*number),
        TypedValue::Text(_)
        | TypedValue::Parameter(_)
        | TypedValue::Path(_)
        | TypedValue::Size(_)
        | TypedValue::Call(_, _)
        | TypedValue::Signed(_, _)
        | TypedValue::Arithmetic(_, _, _)
        | TypedValue::Aggregate(_, _, _) => false,
    }
}

/// Whether a value can't overflow.
#[cycle(is_calm_value)]
pub(crate) fn is_calm_value(value: &TypedValue) -> bool
    ensures { result ≡ calm.is_calm_value value.now }
{
    match value {
        TypedValue::Integer(_)
        | TypedValue::Text(_)
        | TypedValue::Parameter(_)
        | TypedValue::Path(_)
        | TypedValue::Size(_) => true,
        TypedValue::Call(function, all) => {
            is_calm_function(*function) && are_calm_values(all.as_slice())
        }
        TypedValue::Signed(_, operand) => is_small_integer(operand.get()),
        TypedValue::Arithmetic(_, _, _) | TypedValue::Aggregate(_, _, _) => false,
    }
}

#[cycle(is_calm_value)]
fn are_calm_values(values: &[TypedValue]) -> bool
    ensures { result ≡ list_all calm.is_calm_value values.now }
{
    for value in values {
        if !is_calm_value(value) {
            return false;
        }
    }
    true
}

/// Whether what a value is compared with can't overflow, where the rows don't: all but their SUM.
fn is_calm_against(against: Against) -> bool
    ensures { result ≡ calm.is_calm_against against }
{
    !matches!(against, Against::One(Aggregate::Sum, _))
}

/// Whether a condition can't overflow.
#[cycle(is_calm)]
pub(crate) fn is_calm(condition: &TypedCondition) -> bool
    ensures { result ≡ calm.is_calm condition.now }
{
    match condition {
        TypedCondition::Or(left, right) => is_calm(left.get()) && is_calm(right.get()),
        TypedCondition::And(left, right) => is_calm(left.get()) && is_calm(right.get()),
        TypedCondition::Not(inner) => is_calm(inner.get()),
        TypedCondition::Compare(_, left, right) => is_calm_value(left) && is_calm_value(right),
        TypedCondition::Between(middle, low, high) => {
            is_calm_value(middle) && (is_calm_value(low) && is_calm_value(high))
        }
        TypedCondition::In(one, all) => is_calm_value(one) && are_calm_values(all.as_slice()),
        TypedCondition::Like(text, pattern, _) => is_calm_value(text) && is_calm_value(pattern),
        TypedCondition::IsNull(one) => is_calm_value(one),
        TypedCondition::Member(one, _) => is_calm_value(one),
        TypedCondition::IsEmpty(_) | TypedCondition::Type(_, _) => true,
        TypedCondition::Exists(block) => is_calm_block(block.get()),
        TypedCondition::Rows(against, _, one, block) => {
            is_calm_against(*against) && (is_calm_value(one) && is_calm_block(block.get()))
        }
    }
}

/// Whether a condition can't, where there is one.
#[cycle(is_calm)]
pub(crate) fn is_any_calm(condition: &Option<Boxed<TypedCondition>>) -> bool
    ensures { result ≡ calm.is_any_calm (option_map calm.is_calm condition.now) }
{
    match condition {
        None => true,
        Some(condition) => is_calm(condition.get()),
    }
}

/// Whether a nested block can't, its item included.
#[cycle(is_calm)]
pub(crate) fn is_calm_block(block: &TypedBlock) -> bool
    ensures { result ≡ calm.is_calm_block block.now }
{
    is_calm_value(&block.item)
        && (are_calm_sources(block.sources.as_slice()) && is_any_calm(&block.filter))
}

#[cycle(is_calm)]
fn is_calm_source(source: &TypedSource) -> bool
    ensures { result ≡ calm.is_calm_source source.now }
{
    for join in source.joins.as_slice() {
        if !is_any_calm(&join.on) {
            return false;
        }
    }
    true
}

/// Whether elements of FROM can't.
#[cycle(is_calm)]
pub(crate) fn are_calm_sources(sources: &[TypedSource]) -> bool
    ensures { result ≡ list_all calm.is_calm_source sources.now }
{
    for source in sources {
        if !is_calm_source(source) {
            return false;
        }
    }
    true
}
