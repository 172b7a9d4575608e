//! One assignment.
ghost use Rattle.std.specs.Prelude.{◌≡◌, Ok, slice_set};
ghost use Rattle.jpa_model.specs.Chains as chains;
ghost use Rattle.jpql_bulk.specs.bulk.Assigns.{Assigns, same, plain, link_of};
ghost use Rattle.jpql_bulk.specs.bulk.Throwing.{throws_in};
ghost use Rattle.jpql_meaning.specs.eval.Seen.{seen};
ghost use Rattle.jpql_meaning.specs.plan.Bulk as bulk;

use crate::bulk::converters::{is_too_long, throws};
use crate::bulk::refused::Refused;
use jpa_behaviour::{Behaviour, ServedUnit};
use jpa_model::{Attribute, Member};
use jpa_stored::objects::{Stored, attributes_of};
use jpa_value::{Identity, Seq, TryCopy, Value};
use jpql_meaning::eval::Seen;
use std::alloc::Global;

/// A copy; fails for want of memory alone.
pub(super) fn copied<T: TryCopy>(of: &T) -> Result<T, Refused>
    ensures { Assigns same result (Ok of.now) }
{
    match of.try_copy() {
        Ok(copy) => Ok(copy),
        Err(_) => Err(Refused::Memory),
    }
}

/// The value that a datum is, where it is no entity.
fn value_of<'a>(datum: &Seen<'a>) -> Result<Option<Value>, Refused>
    ensures { Assigns same result (Ok (plain (seen datum.now))) }
{
    match datum {
        Seen::Null => Ok(Some(Value::Null)),
        Seen::Int(number) => Ok(Some(Value::Int(*number))),
        Seen::Text(text) => Ok(Some(Value::Text(copied(*text)?))),
        Seen::Made(text) => Ok(Some(Value::Text(copied(text)?))),
        Seen::Bytes(bytes) => Ok(Some(Value::Bytes(copied(*bytes)?))),
        Seen::Entity(_) => Ok(None),
    }
}

/// A list with another item at a place, where there is one.
fn with_item<T: Drop>(items: Seq<T>, place: usize, item: T) -> Seq<T>
    ensures { result ≡ slice_set items place item }
{
    let mut items = items;
    if place < items.len() {
        items.set(place, item);
    }
    items
}

/// An attribute set.
fn with_attribute<'a, B: Behaviour>(
    unit: &ServedUnit<B>,
    object: Stored,
    place: usize,
    datum: &Seen<'a>,
) -> Result<Stored, Refused>
    ensures { Assigns same result
        (bulk.with_attribute unit.now.metamodel (throws_in B.meaning unit.now.registry) object place
        (seen datum.now)) }
{
    let Some(value) = value_of(datum)? else {
        return Ok(object);
    };
    if is_too_long(&value) {
        return Err(Refused::Limit);
    }
    let attribute = attributes_of(&unit.metamodel, object.class).get(place);
    if throws(&unit.registry, attribute, &value)? {
        return Err(Refused::Converter);
    }
    Ok(Stored {
        class: object.class,
        version: object.version,
        values: with_item(object.values, place, value),
        owned: object.owned,
    })
}

/// A version set.
fn with_version<'a>(object: Stored, datum: &Seen<'a>) -> Result<Stored, Refused>
    ensures { Assigns same result (bulk.with_version object (seen datum.now)) }
{
    match datum {
        Seen::Int(number) => Ok(Stored {
            class: object.class,
            version: Some(*number),
            values: object.values,
            owned: object.owned,
        }),
        Seen::Null | Seen::Text(_) | Seen::Made(_) | Seen::Bytes(_) | Seen::Entity(_) => {
            Err(Refused::Null)
        }
    }
}

/// The identities of a link to an entity, or to nothing.
fn link_to<'a>(alloc: Global, datum: &Seen<'a>) -> Result<Seq<Identity>, Refused>
    ensures { Assigns same result (Ok (link_of (seen datum.now))) }
{
    let mut ids = Seq::new(alloc);
    if let Seen::Entity(id) = datum {
        ids.push(copied(*id)?)?;
    }
    Ok(ids)
}

/// A link set.
fn with_link<'a>(
    alloc: Global,
    object: Stored,
    place: usize,
    datum: &Seen<'a>,
) -> Result<Stored, Refused>
    ensures { Assigns same result (Ok (bulk.with_link object place (seen datum.now))) }
{
    let ids = link_to(alloc, datum)?;
    Ok(Stored {
        class: object.class,
        version: object.version,
        values: object.values,
        owned: with_item(object.owned, place, ids),
    })
}

/// A member set to what a value gave.
pub(super) fn assigned<'a, B: Behaviour>(
    alloc: Global,
    unit: &ServedUnit<B>,
    object: Stored,
    member: Member,
    datum: &Seen<'a>,
) -> Result<Stored, Refused>
    ensures { Assigns same result (bulk.assigned unit.now.metamodel
        (throws_in B.meaning unit.now.registry) object member (seen datum.now)) }
{
    match member {
        Member::KeyPart(_) => Ok(object),
        Member::Version => with_version(object, datum),
        Member::Attribute(place) => with_attribute(unit, object, place, datum),
        Member::Relation(place) => with_link(alloc, object, place, datum),
    }
}
