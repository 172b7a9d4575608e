//! Places in the order of a member's values, and spans between them.
ghost use Rattle.std.specs.Prelude.{◌≡◌, unwrap_or, IfOk, IfErr};
ghost use Rattle.std.specs.Option.{option_copied};
ghost use Rattle.jpa_value.specs.declared.refusal.Cause.{Cause};
ghost use Rattle.jpa_value.specs.declared.value.Value.{Value};
ghost use Rattle.jpa_stored.specs.ordered.Values as places;

use crate::objects::Stored;
use jpa_model::Member;
use jpa_value::{Cause, Identity, Key, TryCopy, Value, order_identities, order_values};
use std::alloc::Global;
use std::cmp::Ordering;

/// A place in the order of a member's values: that of an object with this value and this identity.
/// With `behind` it is no object's, but follows all objects of the value.
#[derive(Drop)]
pub struct Cut {
    pub value: Value,
    pub behind: bool,
    pub owner: Identity,
}

/// All places from one on and before another. Without the first it begins before all objects, and
/// without the second it ends behind them all.
#[derive(Drop)]
pub struct Span {
    pub from: Option<Cut>,
    pub to: Option<Cut>,
}

impl TryCopy for Cut {
    fn try_copy(&self) -> Result<Cut, Cause> {
        Ok(Cut {
            value: self.value.try_copy()?,
            behind: self.behind,
            owner: self.owner.try_copy()?,
        })
    }
}

/// The place before all objects. Takes no memory.
pub(super) fn least(alloc: Global) -> Cut
    ensures { result ≡ places.least }
{
    Cut {
        value: Value::Null,
        behind: false,
        owner: Identity {
            table: 0,
            key: Key::new(alloc),
        },
    }
}

/// What an object has as a part of its key or an attribute (chapters 2.2 and 2.4).
fn own_value(member: Member, entry: &(Identity, Stored)) -> Option<&Value>
    ensures { unwrap_or (option_copied result) Value.Null ≡ places.own_value member entry.now }
{
    match member {
        Member::KeyPart(place) => entry.0.key.as_slice().get(place),
        Member::Attribute(place) => entry.1.values.as_slice().get(place),
        Member::Version | Member::Relation(_) => None,
    }
}

/// Where an object stands among the values of a member, which is a part of the key or an attribute.
/// A text is shared. `OutOfMemory` is the only refusal.
pub fn at_object(member: Member, entry: &(Identity, Stored)) -> Result<Cut, Cause>
    ensures ok { IfOk result (λ at. at ≡ places.at_object member entry.now) }
    ensures err { IfErr result (λ cause. cause ≡ Cause.OutOfMemory) }
{
    let value = match own_value(member, entry) {
        None => Value::Null,
        Some(value) => value.try_copy()?,
    };
    Ok(Cut {
        value,
        behind: false,
        owner: entry.0.try_copy()?,
    })
}

/// The order of a place and that of an object. Takes no memory.
fn order_object(at: &Cut, member: Member, entry: &(Identity, Stored)) -> Ordering
    ensures { result ≡ places.cut_cmp at.now (places.at_object member entry.now) }
{
    let values = match own_value(member, entry) {
        None => order_values(&at.value, &Value::Null),
        Some(value) => order_values(&at.value, value),
    };
    values
        .then(at.behind.cmp(&false))
        .then(order_identities(&at.owner, &entry.0))
}

/// Whether an object lies in a span of a member's values.
fn lies_in(member: Member, span: &Span, entry: &(Identity, Stored)) -> bool
    ensures { result ≡ places.lies_in member span.now entry.now }
{
    let has_begun = match &span.from {
        None => true,
        Some(from) => order_object(from, member, entry).is_le(),
    };
    let goes_on = match &span.to {
        None => true,
        Some(to) => order_object(to, member, entry).is_gt(),
    };
    has_begun && goes_on
}

/// Whether an object lies in one of these spans of a member's values. Takes no memory.
pub fn lies_in_any(member: Member, spans: &[Span], entry: &(Identity, Stored)) -> bool
    ensures { result ≡ places.lies_in_any member spans.now entry.now }
{
    for span in spans {
        if lies_in(member, span, entry) {
            return true;
        }
    }
    false
}
