//! What a call hands in, as the machine takes it.
ghost use Rattle.std.specs.Prelude.{◌≡◌, ◌<◌, ◌⊎◌, length, true, IfOk, IfErr, IfSome};
ghost use Rattle.std.specs.List.{list_all};
ghost use Rattle.jpa_value.specs.declared.refusal.Cause.{Cause};
ghost use Rattle.jpa_work.specs.heap.Objects.{place_of};
ghost use Rattle.jpa_work.specs.heap.Shape.{IsInHeap};
ghost use Rattle.jpa_work.specs.context.Steps.{Meets};
ghost use Rattle.jpa_work.specs.context.Work.{Work};
ghost use Rattle.jpa_machine.specs.machine.Calls as calls;
ghost use Rattle.jpa_machine.specs.machine.Invariant as invariant;

use jpa_model::Part;
use jpa_protocol::{Call, Given, Parameter, ParameterValue};
use jpa_rows::rows::{is_short, value_is_representable};
use jpa_value::{Cause, Key, TryCopy, Value, fits};
use jpa_work::heap::Handed;
use std::alloc::Global;

/// The place of what goes by a number, from 1, among so many.
pub(crate) fn place_of(count: usize, number: i64) -> Option<usize>
    ensures place { result ≡ place_of count number }
    ensures within { IfSome result (λ place. place < count) }
{
    if number < 1 {
        return None;
    }
    let place = (number - 1) as usize;
    if place < count { Some(place) } else { None }
}

/// Whether a value that is handed in is short enough.
pub(crate) fn is_short_given(given: &Given) -> bool
    ensures { result ≡ calls.is_short_given given.now }
{
    match given {
        Given::Plain(value) => is_short(value),
        Given::Object(_) => true,
    }
}

/// Whether all parts of a key, or values of a collection, that are handed in are short enough.
pub(crate) fn are_short(given: &[Given]) -> bool
    ensures { result ≡ list_all calls.is_short_given given.now }
{
    for part in given {
        if !is_short_given(part) {
            return false;
        }
    }
    true
}

/// What is handed in as a value, in a heap of so many objects: `Limit` for a value that is too
/// long, `NoSuchObject` for a number that names none.
pub(crate) fn handed(count: usize, given: Given) -> Result<Handed, Cause>
    ensures meets { (w : Work) → length w.objects ≡ count →
        Meets result w (calls.handed given w) }
    ensures within { IfOk result
        (λ h. (w : Work) → length w.objects ≡ count → IsInHeap w.objects h) }
    ensures refused { IfErr result (λ cause. (cause ≡ Cause.Limit)
        ⊎ (cause ≡ Cause.NoSuchObject)) }
{
    match given {
        Given::Plain(value) => {
            if is_short(&value) {
                Ok(Handed::Plain(value))
            } else {
                Err(Cause::Limit)
            }
        }
        Given::Object(number) => match place_of(count, number) {
            Some(place) => Ok(Handed::Object(place)),
            None => Err(Cause::NoSuchObject),
        },
    }
}

/// The value for a part of a key: of its kind and not null; else none. Fails for want of memory
/// alone, with `OutOfMemory`.
fn part_given(part: &Part, given: &Given) -> Result<Option<Value>, Cause>
    ensures ok { IfOk result (λ value. value ≡ calls.part_given part.now given.now) }
    ensures err { IfErr result (λ cause. cause ≡ Cause.OutOfMemory) }
{
    match given {
        Given::Plain(value) => {
            if fits(part.kind, value) && !matches!(value, Value::Null) {
                Ok(Some(value.try_copy()?))
            } else {
                Ok(None)
            }
        }
        Given::Object(_) => Ok(None),
    }
}

/// A key of these parts from what is handed in: a value for each, of its kind and not null; else
/// none. Fails for want of memory alone, with `OutOfMemory`.
pub(crate) fn whole_key(
    alloc: Global,
    parts: &[Part],
    given: &[Given],
) -> Result<Option<Key>, Cause>
    ensures ok { IfOk result (λ key. key ≡ calls.whole_key parts.now given.now) }
    ensures err { IfErr result (λ cause. cause ≡ Cause.OutOfMemory) }
{
    if parts.len() != given.len() {
        return Ok(None);
    }
    let mut key = Key::new(alloc);
    for (place, part) in parts.iter().enumerate() {
        match part_given(part, &given[place])? {
            Some(value) => key.push(value)?,
            None => return Ok(None),
        }
    }
    Ok(Some(key))
}

/// What is handed in as a value is one of the program.
pub(crate) fn given_representable(given: &Given)
    ensures { invariant.given_representable given.now ≡ true }
{
    match given {
        Given::Plain(value) => value_is_representable(value),
        Given::Object(_) => {}
    }
}

/// What is handed in as a key, or as a collection, are values of the program.
fn each_representable(given: &[Given])
    ensures { list_all invariant.given_representable given.now ≡ true }
{
    for part in given {
        given_representable(part);
    }
}

/// What is handed in for a parameter are values of the program.
fn value_representable(value: &ParameterValue)
    ensures { invariant.value_representable value.now ≡ true }
{
    match value {
        ParameterValue::Single(given) => given_representable(given),
        ParameterValue::Collection(values) => each_representable(values.as_slice()),
    }
}

/// What is bound to parameters are values of the program.
fn parameters_representable(parameters: &[Parameter])
    ensures { list_all (λ p. invariant.value_representable p.value) parameters.now ≡ true }
{
    for parameter in parameters {
        value_representable(&parameter.value);
    }
}

/// What a call hands in are values of the program: integers of 64 bits, texts in UTF-8 and bytes.
pub(crate) fn hands_representable(call: &Call)
    ensures { invariant.hands_representable call.now ≡ true }
{
    match call {
        Call::SetValue { value, .. } => given_representable(value),
        Call::Find { key, .. } => each_representable(key.as_slice()),
        Call::GetReference { key, .. } => each_representable(key.as_slice()),
        Call::Query { parameters, .. } => parameters_representable(parameters.as_slice()),
        Call::QuerySingle { parameters, .. } => parameters_representable(parameters.as_slice()),
        Call::ExecuteUpdate { parameters, .. } => parameters_representable(parameters.as_slice()),
        _ => {}
    }
}
