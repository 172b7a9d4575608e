//! Whether a statement's paths don't leave the row of its one object.
ghost use Rattle.std.specs.Prelude.{◌≡◌};
ghost use Rattle.std.specs.List.{list_all};
ghost use Rattle.jpa_questions.specs.by_key.Own as own;

use crate::by_key::held::is_single;
use jpa_model::{Member, Metamodel};
use jpa_value::Boxed;
use jpql_trees::typed::{
    Step, TypedCondition, TypedKey, TypedPath, TypedSelect, TypedSorted, TypedValue,
};

/// Whether an object's row tells what a step leads to.
fn is_own_step(metamodel: &Metamodel, step: &Step) -> bool
    ensures { result ≡ own.is_own_member metamodel.now step.now.class step.now.member }
{
    match step.member {
        Member::KeyPart(_) | Member::Version | Member::Attribute(_) => true,
        Member::Relation(relation) => is_single(metamodel, step.class, relation),
    }
}

/// Whether a path is a variable, or one such step from it.
fn is_own_path(metamodel: &Metamodel, path: &TypedPath) -> bool
    ensures { result ≡ own.is_own_path metamodel.now path.now }
{
    match path.steps.as_slice() {
        [] => true,
        [step] => is_own_step(metamodel, step),
        _ => false,
    }
}

fn are_own_paths(metamodel: &Metamodel, paths: &[TypedPath]) -> bool
    ensures { result ≡ list_all (own.is_own_path metamodel.now) paths.now }
{
    paths.iter().all(|path| is_own_path(metamodel, path))
}

/// Whether all paths of a value are such.
#[cycle(is_own_value)]
fn is_own_value(metamodel: &Metamodel, value: &TypedValue) -> bool
    ensures { result ≡ own.is_own_value metamodel.now value.now }
{
    match value {
        TypedValue::Integer(_) | TypedValue::Text(_) | TypedValue::Parameter(_) => true,
        TypedValue::Path(path) => is_own_path(metamodel, path),
        TypedValue::Signed(_, one) => is_own_value(metamodel, one.get()),
        TypedValue::Arithmetic(_, left, right) => {
            is_own_value(metamodel, left.get()) && is_own_value(metamodel, right.get())
        }
        TypedValue::Call(_, all) => are_own_values(metamodel, all.as_slice()),
        TypedValue::Size(_) => false,
        TypedValue::Aggregate(_, _, one) => is_own_value(metamodel, one.get()),
    }
}

#[cycle(is_own_value)]
fn are_own_values(metamodel: &Metamodel, values: &[TypedValue]) -> bool
    ensures { result ≡ list_all (own.is_own_value metamodel.now) values.now }
{
    for value in values {
        if !is_own_value(metamodel, value) {
            return false;
        }
    }
    true
}

/// Whether all paths of a condition are such, and no block is nested in it.
fn is_own_condition(metamodel: &Metamodel, condition: &TypedCondition) -> bool
    ensures { result ≡ own.is_own_condition metamodel.now condition.now }
{
    match condition {
        TypedCondition::Or(left, right) | TypedCondition::And(left, right) => {
            is_own_condition(metamodel, left.get()) && is_own_condition(metamodel, right.get())
        }
        TypedCondition::Not(inner) => is_own_condition(metamodel, inner.get()),
        TypedCondition::Compare(_, left, right) => is_own_value(metamodel, left)
            && is_own_value(metamodel, right),
        TypedCondition::Between(middle, low, high) => is_own_value(metamodel, middle)
            && (is_own_value(metamodel, low) && is_own_value(metamodel, high)),
        TypedCondition::In(one, all) => is_own_value(metamodel, one)
            && are_own_values(metamodel, all.as_slice()),
        TypedCondition::Like(text, pattern, _) => is_own_value(metamodel, text)
            && is_own_value(metamodel, pattern),
        TypedCondition::IsNull(one) => is_own_value(metamodel, one),
        TypedCondition::IsEmpty(_)
        | TypedCondition::Member(_, _)
        | TypedCondition::Exists(_)
        | TypedCondition::Rows(_, _, _, _) => false,
        TypedCondition::Type(_, _) => true,
    }
}

/// The same of a condition where there is one.
fn is_any_own(metamodel: &Metamodel, condition: &Option<Boxed<TypedCondition>>) -> bool
    ensures { result ≡ own.is_any_own metamodel.now condition.now }
{
    match condition {
        None => true,
        Some(condition) => is_own_condition(metamodel, condition.get()),
    }
}

fn is_own_key(metamodel: &Metamodel, key: &TypedKey) -> bool
    ensures { result ≡ own.is_own_key metamodel.now key.now }
{
    match &key.by {
        TypedSorted::Item(_) => true,
        TypedSorted::Path(path) => is_own_path(metamodel, path),
        TypedSorted::Value(value) => is_own_value(metamodel, value),
    }
}

fn are_own_keys(metamodel: &Metamodel, keys: &[TypedKey]) -> bool
    ensures { result ≡ list_all (own.is_own_key metamodel.now) keys.now }
{
    keys.iter().all(|key| is_own_key(metamodel, key))
}

/// Whether all paths of a statement are such, FROM aside.
pub(super) fn is_own_select(metamodel: &Metamodel, select: &TypedSelect) -> bool
    ensures { result ≡ own.is_own_select metamodel.now select.now }
{
    are_own_values(metamodel, select.items.as_slice())
        && (is_any_own(metamodel, &select.filter)
            && (are_own_paths(metamodel, select.groups.as_slice())
                && (is_any_own(metamodel, &select.having)
                    && are_own_keys(metamodel, select.order.as_slice()))))
}
