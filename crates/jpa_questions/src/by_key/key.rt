//! The key that a statement asks.
ghost use Rattle.std.specs.Prelude.{◌≡◌, ◌<◌, length, IfOk};
ghost use Rattle.jpa_model.specs.Chains as chains;
ghost use Rattle.jpa_questions.specs.by_key.ByKey as by_key;

use crate::by_key::own::is_own_select;
use jpa_model::{Member, Metamodel};
use jpa_value::{Boxed, Identity, Key, TryCopy, Value};
use jpql_meaning::eval::Datum;
use jpql_run::copied;
use jpql_trees::tree::Comparison;
use jpql_trees::typed::{
    Step, TypedCondition, TypedOrigin, TypedPath, TypedSelect, TypedSource, TypedValue,
};
use std::alloc::{AllocError, Global};

/// The class of a FROM of one variable without joins.
fn ranged(sources: &[TypedSource]) -> Option<usize>
    ensures { result ≡ by_key.ranged sources.now }
{
    match sources {
        [source] => match (&source.origin, source.joins.as_slice()) {
            (TypedOrigin::Entity(class), []) => Some(*class),
            _ => None,
        },
        _ => None,
    }
}

/// Whether steps are the one to the first part of a key.
fn is_key(steps: &[Step]) -> bool
    ensures { result ≡ by_key.is_key steps.now }
{
    match steps {
        [step] => matches!(step.member, Member::KeyPart(0)),
        _ => false,
    }
}

fn is_key_path(path: &TypedPath) -> bool
    ensures { result ≡ by_key.is_key_path path.now }
{
    path.variable == 0 && is_key(path.steps.as_slice())
}

/// Whether a value is the first part of the first variable's key.
fn names_key(value: &TypedValue) -> bool
    ensures { result ≡ by_key.names_key value.now }
{
    match value {
        TypedValue::Path(path) => is_key_path(path),
        _ => false,
    }
}

/// What the parameter at a place is, unless it is an entity; null where none is given.
fn plain(parameters: &[Datum], place: usize) -> Result<Option<Value>, AllocError>
    ensures { IfOk result (λ found. found ≡ by_key.parameter_at parameters.now place) }
{
    match parameters.get(place) {
        None => Ok(Some(Value::Null)),
        Some(Datum::Plain(value)) => Ok(Some(copied(value)?)),
        Some(Datum::Entity(_)) => Ok(None),
    }
}

/// What a literal or a parameter gives.
fn given(parameters: &[Datum], value: &TypedValue) -> Result<Option<Value>, AllocError>
    ensures { IfOk result (λ found. found ≡ by_key.given parameters.now value.now) }
{
    match value {
        TypedValue::Integer(number) => Ok(Some(Value::Int(*number))),
        TypedValue::Text(text) => Ok(Some(Value::Text(copied(text)?))),
        TypedValue::Parameter(place) => plain(parameters, *place),
        _ => Ok(None),
    }
}

/// What the key is equated with, on either side.
fn equated(
    parameters: &[Datum],
    left: &TypedValue,
    right: &TypedValue,
) -> Result<Option<Value>, AllocError>
    ensures { IfOk result (λ found. found ≡ by_key.equated parameters.now left.now right.now) }
{
    if names_key(left) {
        given(parameters, right)
    } else if names_key(right) {
        given(parameters, left)
    } else {
        Ok(None)
    }
}

/// What a condition asks the key to be.
fn asked(parameters: &[Datum], condition: &TypedCondition) -> Result<Option<Value>, AllocError>
    ensures { IfOk result (λ found. found ≡ by_key.asked parameters.now condition.now) }
{
    match condition {
        TypedCondition::Compare(Comparison::Equal, left, right) => equated(parameters, left, right),
        _ => Ok(None),
    }
}

/// What WHERE asks it to be.
fn asked_if_any(
    parameters: &[Datum],
    condition: &Option<Boxed<TypedCondition>>,
) -> Result<Option<Value>, AllocError>
    ensures { IfOk result (λ found. found ≡ by_key.asked_if_any parameters.now condition.now) }
{
    match condition {
        None => Ok(None),
        Some(condition) => asked(parameters, condition.get()),
    }
}

/// Whether a class is of the table, with a key of one part, where it is below this one.
fn is_keyed(metamodel: &Metamodel, class: usize, table: u64, kind: usize) -> bool
    requires class { class < length metamodel.now.entities }
    requires kind { kind < length metamodel.now.entities }
    ensures { result ≡ by_key.is_keyed metamodel.now class table kind }
{
    let root = metamodel.root_of(kind);
    !metamodel.is_kind_of(kind, class) || (root.table == table && root.key.len() == 1)
}

/// The table that has the rows of a class, where its keys have one part.
fn keyed_table(metamodel: &Metamodel, class: usize) -> Option<u64>
    ensures { result ≡ by_key.keyed_table metamodel.now class }
{
    let kinds = metamodel.entities().len();
    if class >= kinds {
        return None;
    }
    let table = metamodel.root_of(class).table;
    for kind in 0..kinds {
        if !is_keyed(metamodel, class, table, kind) {
            return None;
        }
    }
    Some(table)
}

/// The identity with a key of one part.
fn identity_with(alloc: Global, table: u64, part: Value) -> Result<Identity, AllocError>
    ensures { IfOk result (λ id. id ≡ by_key.identity_with table part) }
{
    let mut key = Key::new(alloc);
    key.push(part)?;
    Ok(Identity { table, key })
}

/// The identity of the only object that decides what a statement gives, with what stands for its
/// parameters, where it asks one by its key: `key_laws` carries that law.
///
/// It fails for want of memory alone.
pub fn key_of(
    alloc: Global,
    metamodel: &Metamodel,
    parameters: &[Datum],
    select: &TypedSelect,
) -> Result<Option<Identity>, AllocError>
    ensures { IfOk result (λ found. found
        ≡ by_key.key_of metamodel.now parameters.now select.now) }
{
    if !is_own_select(metamodel, select) {
        return Ok(None);
    }
    let Some(class) = ranged(select.sources.as_slice()) else {
        return Ok(None);
    };
    let Some(table) = keyed_table(metamodel, class) else {
        return Ok(None);
    };
    match asked_if_any(parameters, &select.filter)? {
        None => Ok(None),
        Some(part) => Ok(Some(identity_with(alloc, table, part)?)),
    }
}
