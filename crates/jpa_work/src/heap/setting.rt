//! What `set` makes of an object.
ghost use Rattle.std.specs.Prelude.{◌≡◌, ◌<◌, All, List, Some, length, option_copied};
ghost use Rattle.jpa_model.specs.Chains.{attributes_of, relations_of, root_of};
ghost use Rattle.jpa_model.specs.Described.{IsUnlessMemory};
ghost use Rattle.jpa_model.specs.declared.unit.Member.{Member};
ghost use Rattle.jpa_work.specs.heap.Assign as spec;
ghost use Rattle.jpa_work.specs.heap.Objects.{is_new};
ghost use Rattle.jpa_model.specs.declared.unit.PersistenceUnit.{PersistenceUnit};
ghost use Rattle.jpa_work.specs.declared.heap.LiveObject.{LiveObject};
ghost use Rattle.jpa_work.specs.heap.Shape.{HasShape, IsInHeap, IsPlaced};

use crate::heap::{Handed, Held, Life, Link, LiveObject};
use jpa_model::{Attribute, Member, Metamodel, Part};
use jpa_value::{Argument, Cause, TryCopy, Value, fits};

/// Whether a part of a key takes what was handed in.
fn fits_part(part: Option<&Part>, handed: &Handed) -> bool
    ensures { result ≡ spec.fits_part (option_copied part.entry) handed.now }
{
    match (part, handed) {
        (Some(part), Handed::Plain(value)) => fits(part.kind, value),
        _ => false,
    }
}

/// Whether a version takes it.
fn fits_version(handed: &Handed) -> bool
    ensures { result ≡ spec.fits_version handed.now }
{
    matches!(
        handed,
        Handed::Plain(Value::Null) | Handed::Plain(Value::Int(_))
    )
}

/// Whether an attribute takes it.
fn fits_attribute(attribute: Option<&Attribute>, handed: &Handed) -> bool
    ensures { result ≡ spec.fits_plain (option_copied attribute.entry) handed.now }
{
    match (attribute, handed) {
        (Some(attribute), Handed::Plain(value)) => fits(attribute.kind, value),
        _ => false,
    }
}

/// Whether a to-one relation to this target takes it.
fn fits_link(metamodel: &Metamodel, objects: &[LiveObject], target: usize, handed: &Handed) -> bool
    requires target { target < length metamodel.now.entities }
    requires shaped { All (HasShape metamodel.now) objects.now }
    requires handed { IsInHeap objects.now handed.now }
    ensures { result ≡ spec.fits_link metamodel.now objects.now target handed.now }
{
    match handed {
        Handed::Plain(value) => matches!(value, Value::Null),
        Handed::Object(place) => metamodel.is_kind_of(objects[*place].class, target),
    }
}

/// Whether an object is new.
fn is_new(object: &LiveObject) -> bool
    ensures { result ≡ is_new object.now.life }
{
    matches!(object.life, Life::New)
}

/// The value that was handed in.
fn plain(handed: Handed) -> Value
    ensures { result ≡ spec.plain handed }
{
    match handed {
        Handed::Plain(value) => value,
        Handed::Object(_) => Value::Null,
    }
}

/// What a to-one relation holds then.
fn link_to(handed: &Handed) -> Link
    ensures { result ≡ spec.link_to handed.now }
{
    match handed {
        Handed::Plain(_) => Link::None,
        Handed::Object(place) => Link::Object(*place),
    }
}

/// A part of the key, of a new object alone.
fn set_part(
    metamodel: &Metamodel,
    object: &LiveObject,
    part: usize,
    handed: Handed,
) -> Result<LiveObject, Cause>
    requires { HasShape metamodel.now object.now }
    ensures { IsUnlessMemory result (spec.set_part (root_of metamodel.now object.now.class).key
        object.now handed part) }
{
    let parts = metamodel.root_of(object.class).key.as_slice();
    if !fits_part(parts.get(part), &handed) {
        return Err(Cause::IllegalArgument(Argument::Type));
    }
    if !is_new(object) {
        return Err(Cause::IllegalArgument(Argument::Key));
    }
    let mut set = object.try_copy()?;
    set.key.set(part, plain(handed))?;
    Ok(set)
}

/// The version, of a new object alone.
fn set_version(object: &LiveObject, handed: Handed) -> Result<LiveObject, Cause>
    ensures { IsUnlessMemory result (spec.set_version object.now handed) }
{
    if !fits_version(&handed) {
        return Err(Cause::IllegalArgument(Argument::Type));
    }
    if !is_new(object) {
        return Err(Cause::IllegalArgument(Argument::Version));
    }
    let mut set = object.try_copy()?;
    set.version = match handed {
        Handed::Plain(Value::Int(number)) => Some(number),
        _ => None,
    };
    Ok(set)
}

/// An attribute.
fn set_attribute(
    metamodel: &Metamodel,
    object: &LiveObject,
    attribute: usize,
    handed: Handed,
) -> Result<LiveObject, Cause>
    requires { HasShape metamodel.now object.now }
    ensures { IsUnlessMemory result (spec.set_attribute
        (attributes_of metamodel.now object.now.class) object.now handed attribute) }
{
    let attributes = metamodel.attributes_of(object.class);
    if !fits_attribute(attributes.get(attribute), &handed) {
        return Err(Cause::IllegalArgument(Argument::Type));
    }
    let mut set = object.try_copy()?;
    set.values.set(attribute, plain(handed));
    Ok(set)
}

/// A to-one relation; a collection isn't set.
fn set_relation(
    metamodel: &Metamodel,
    objects: &[LiveObject],
    object: &LiveObject,
    relation: usize,
    handed: Handed,
) -> Result<LiveObject, Cause>
    requires place { relation < length (relations_of metamodel.now object.now.class) }
    requires shape { HasShape metamodel.now object.now }
    requires shaped { All (HasShape metamodel.now) objects.now }
    requires handed { IsInHeap objects.now handed }
    ensures { IsUnlessMemory result (spec.set_member metamodel.now objects.now object.now handed
        (Some (Member.Relation relation))) }
{
    let along = &metamodel.relations_of(object.class)[relation];
    if !along.side.is_to_one() {
        return Err(Cause::IllegalArgument(Argument::Name));
    }
    if !fits_link(metamodel, objects, along.target, &handed) {
        return Err(Cause::IllegalArgument(Argument::Type));
    }
    let mut set = object.try_copy()?;
    set.relations.set(relation, Held::One(link_to(&handed)));
    Ok(set)
}

/// The object after this member took what was handed in.
fn set_member(
    metamodel: &Metamodel,
    objects: &[LiveObject],
    object: &LiveObject,
    member: Option<Member>,
    handed: Handed,
) -> Result<LiveObject, Cause>
    requires placed { IsPlaced metamodel.now object.now.class member }
    requires shape { HasShape metamodel.now object.now }
    requires shaped { All (HasShape metamodel.now) objects.now }
    requires handed { IsInHeap objects.now handed }
    ensures { IsUnlessMemory result (spec.set_member metamodel.now objects.now object.now handed
        member) }
{
    match member {
        None => Err(Cause::IllegalArgument(Argument::Name)),
        Some(Member::KeyPart(part)) => set_part(metamodel, object, part, handed),
        Some(Member::Version) => set_version(object, handed),
        Some(Member::Attribute(attribute)) => set_attribute(metamodel, object, attribute, handed),
        Some(Member::Relation(relation)) => {
            set_relation(metamodel, objects, object, relation, handed)
        }
    }
}

/// An object after one of its members, by its name, took what was handed in (Jakarta Persistence
/// 3.1, chapters 2.2 and 3.2). The object stands at this place of the heap.
///
/// Refused are, as `IllegalArgument`: a name that is no member's or a collection's (`Name`); what
/// the member doesn't take (`Type`); and a part of the key (`Key`) or the version (`Version`) of an
/// object that isn't new. `OutOfMemory` where a growth was refused.
#[tactic(auto, using(crate::proofs::heap::Placed::placed, crate::proofs::heap::Placed::by_name))]
pub fn assign(
    metamodel: &Metamodel,
    objects: &[LiveObject],
    at: usize,
    name: &str,
    handed: Handed,
) -> Result<LiveObject, Cause>
    requires place { at < length objects.now }
    requires shaped { All (HasShape metamodel.now) objects.now }
    requires handed { IsInHeap objects.now handed }
    ensures { IsUnlessMemory result (spec.set_in metamodel.now objects.now at name.now handed) }
{
    let object = &objects[at];
    let member = metamodel.member_of(object.class, name);
    set_member(metamodel, objects, object, member, handed)
}
