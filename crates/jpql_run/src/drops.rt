//! Whether a tuple has a null step in a path, outside nested blocks: such a tuple is dropped
//! (chapter 4.4.4).
ghost use Rattle.std.specs.Prelude.{◌≡◌};
ghost use Rattle.std.specs.List.{list_any};
ghost use Rattle.jpql_meaning.specs.plan.Meaning as meaning;
ghost use Rattle.jpql_run.specs.Runs as runs;

use crate::paths::is_broken;
use crate::run::Run;
use crate::tuple::Tuple;
use jpa_value::Boxed;
use jpql_trees::typed::{TypedCondition, TypedValue};

/// Whether it has one in a value.
#[cycle(value_drops)]
pub fn value_drops<'a>(run: &Run<'a>, tuple: &Tuple<'a>, value: &TypedValue) -> bool
    ensures { result ≡ runs.value_drops run.now value.now tuple.now }
{
    match value {
        TypedValue::Integer(_) | TypedValue::Text(_) | TypedValue::Parameter(_) => false,
        TypedValue::Path(path) => is_broken(run, tuple, path),
        TypedValue::Size(path) => is_broken(run, tuple, path),
        TypedValue::Signed(_, one) => value_drops(run, tuple, one.get()),
        TypedValue::Arithmetic(_, left, right) => {
            value_drops(run, tuple, left.get()) || value_drops(run, tuple, right.get())
        }
        TypedValue::Call(_, all) => any_drops(run, tuple, all.as_slice()),
        TypedValue::Aggregate(_, _, one) => value_drops(run, tuple, one.get()),
    }
}

/// Whether it has one in some of these values.
#[cycle(value_drops)]
pub fn any_drops<'a>(run: &Run<'a>, tuple: &Tuple<'a>, all: &[TypedValue]) -> bool
    ensures { result ≡ list_any (λ v. runs.value_drops run.now v tuple.now) all.now }
{
    for one in all {
        if value_drops(run, tuple, one) {
            return true;
        }
    }
    false
}

/// Whether it has one in a condition.
fn condition_drops<'a>(run: &Run<'a>, tuple: &Tuple<'a>, condition: &TypedCondition) -> bool
    ensures { result ≡ (runs.condition run.now condition.now).drops tuple.now }
{
    match condition {
        TypedCondition::Or(left, right) => {
            condition_drops(run, tuple, left.get()) || condition_drops(run, tuple, right.get())
        }
        TypedCondition::And(left, right) => {
            condition_drops(run, tuple, left.get()) || condition_drops(run, tuple, right.get())
        }
        TypedCondition::Not(inner) => condition_drops(run, tuple, inner.get()),
        TypedCondition::Compare(_, left, right) => {
            value_drops(run, tuple, left) || value_drops(run, tuple, right)
        }
        TypedCondition::Between(middle, low, high) => {
            value_drops(run, tuple, middle)
                || value_drops(run, tuple, low)
                || value_drops(run, tuple, high)
        }
        TypedCondition::In(one, all) => {
            value_drops(run, tuple, one) || any_drops(run, tuple, all.as_slice())
        }
        TypedCondition::Like(text, pattern, _) => {
            value_drops(run, tuple, text) || value_drops(run, tuple, pattern)
        }
        TypedCondition::IsNull(one) => value_drops(run, tuple, one),
        TypedCondition::IsEmpty(path) => is_broken(run, tuple, path),
        TypedCondition::Member(one, path) => {
            value_drops(run, tuple, one) || is_broken(run, tuple, path)
        }
        TypedCondition::Rows(_, _, one, _) => value_drops(run, tuple, one),
        TypedCondition::Exists(_) | TypedCondition::Type(_, _) => false,
    }
}

/// Whether it has one in a condition, where there is one.
pub fn filter_drops<'a>(
    run: &Run<'a>,
    tuple: &Tuple<'a>,
    filter: &Option<Boxed<TypedCondition>>,
) -> bool
    ensures { result ≡ meaning.drops_any (runs.any_condition run.now filter.now) tuple.now }
{
    match filter {
        None => false,
        Some(condition) => condition_drops(run, tuple, condition.get()),
    }
}
