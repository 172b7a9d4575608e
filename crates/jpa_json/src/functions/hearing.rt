//! What the listeners answer.
ghost use Rattle.std.specs.Prelude.{◌≡◌, IfOk, IfErr};
ghost use Rattle.std.specs.Option.{option_copied};
ghost use Rattle.jpa_value.specs.declared.refusal.Cause.{Cause};
ghost use Rattle.jpa_value.specs.declared.value.Value.TheVariants.{Text as TextValue};
ghost use Rattle.jpa_model.specs.Chains.{same_name};
ghost use Rattle.jpa_json.specs.functions.Functions as spec;

use crate::functions::make::Listener;
use jpa_behaviour::{Heard, Image, Named};
use jpa_value::{Cause, Seq, Text, TryCopy, Value};
use std::alloc::Global;

#[tactic(auto, using(crate::proofs::functions::Names::same_names))]
fn has_name(named: &Named, name: &str) -> bool
    ensures { result ≡ same_name named.now.name name.now }
{
    named.name.as_str() == name
}

fn named_so<'v>(values: &'v [Named], name: &str) -> Option<&'v Named>
    ensures { option_copied result ≡ spec.named_so values.now name.now }
{
    values.iter().find(|named| has_name(named, name))
}

/// The value that an image has under a name.
fn value_of<'v>(image: &'v Image, name: &str) -> Option<&'v Value>
    ensures { option_copied result ≡ spec.value_of image.now name.now }
{
    match named_so(image.values.as_slice(), name) {
        Some(named) => Some(&named.value),
        None => None,
    }
}

/// Gives an attribute a value.
fn assign(alloc: Global, name: &Text, value: Value) -> Result<Heard, Cause>
    ensures heard { IfOk result (λ heard. heard ≡ spec.assign name.now value) }
    ensures err { IfErr result (λ cause. cause ≡ Cause.OutOfMemory) }
{
    let mut assigned = Seq::new(alloc);
    assigned.push(Named {
        name: name.try_copy()?,
        value,
    })?;
    Ok(Heard::Assign(assigned))
}

/// Gives an attribute a text.
fn set_text(alloc: Global, attribute: &Text, text: &Text) -> Result<Heard, Cause>
    ensures heard { IfOk result (λ heard. heard
        ≡ spec.assign attribute.now (TextValue text.now)) }
    ensures err { IfErr result (λ cause. cause ≡ Cause.OutOfMemory) }
{
    assign(alloc, attribute, Value::Text(text.try_copy()?))
}

/// Gives an attribute the value of another name, null where there is none.
fn copy(alloc: Global, image: &Image, from: &Text, to: &Text) -> Result<Heard, Cause>
    ensures heard { IfOk result (λ heard. heard ≡ spec.assign to.now
        (spec.value_or_null (spec.value_of image.now from.now))) }
    ensures err { IfErr result (λ cause. cause ≡ Cause.OutOfMemory) }
{
    match value_of(image, from.as_str()) {
        Some(value) => assign(alloc, to, value.try_copy()?),
        None => assign(alloc, to, Value::Null),
    }
}

/// One more than an integer.
fn count_up(alloc: Global, attribute: &Text, number: i64) -> Result<Heard, Cause>
    ensures heard { IfOk result (λ heard. heard ≡ spec.counted_up attribute.now number) }
    ensures err { IfErr result (λ cause. cause ≡ Cause.OutOfMemory) }
{
    if number < i64::MAX {
        assign(alloc, attribute, Value::Int(number + 1))
    } else {
        Ok(Heard::Throw(Text::of(alloc, "count")?))
    }
}

/// Adds 1 to an attribute, from 0 where it is null.
fn count(alloc: Global, image: &Image, attribute: &Text) -> Result<Heard, Cause>
    ensures heard { IfOk result (λ heard. heard ≡ spec.counted attribute.now
        (spec.value_of image.now attribute.now)) }
    ensures err { IfErr result (λ cause. cause ≡ Cause.OutOfMemory) }
{
    match value_of(image, attribute.as_str()) {
        Some(Value::Null) => assign(alloc, attribute, Value::Int(1)),
        Some(Value::Int(number)) => count_up(alloc, attribute, *number),
        _ => Ok(Heard::Throw(Text::of(alloc, "count")?)),
    }
}

/// Throws where an attribute has no value.
fn require(alloc: Global, image: &Image, attribute: &Text) -> Result<Heard, Cause>
    ensures heard { IfOk result (λ heard. heard ≡ spec.required attribute.now
        (spec.value_of image.now attribute.now)) }
    ensures err { IfErr result (λ cause. cause ≡ Cause.OutOfMemory) }
{
    match value_of(image, attribute.as_str()) {
        None | Some(Value::Null) => {
            let name = attribute.as_str();
            Ok(Heard::Throw(Text::from_string(format!(in alloc; "require {name}")?)?))
        }
        Some(_) => Ok(Heard::Assign(Seq::new(alloc))),
    }
}

/// What a listener answers to an image; `OutOfMemory` where a growth was refused.
pub(super) fn hear(alloc: Global, listener: &Listener, image: &Image) -> Result<Heard, Cause>
    ensures heard { IfOk result (λ heard. heard ≡ spec.heard_by listener.now image.now) }
    ensures err { IfErr result (λ cause. cause ≡ Cause.OutOfMemory) }
{
    match listener {
        Listener::SetText(given) => set_text(alloc, &given.attribute, &given.value),
        Listener::Copy { from, to } => copy(alloc, image, from, to),
        Listener::Count { attribute } => count(alloc, image, attribute),
        Listener::Require { attribute } => require(alloc, image, attribute),
        Listener::Note => Ok(Heard::Assign(Seq::new(alloc))),
    }
}
