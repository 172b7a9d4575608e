//! New objects, and what names an object.
ghost use Rattle.std.specs.Prelude.{◌≡◌, ◌<◌, length, map, IfOk, IfErr};
ghost use Rattle.jpa_value.specs.declared.refusal.Cause.{Cause};
ghost use Rattle.jpa_value.specs.declared.value.Value.{Value};
ghost use Rattle.jpa_model.specs.Chains.{is_to_one, root_of};
ghost use Rattle.jpa_work.specs.heap.Objects as objects;

use crate::heap::{Collection, Held, Life, Link, LiveObject};
use jpa_model::{Attribute, Metamodel, Part, Relation};
use jpa_value::{Cause, Identity, Key, Seq, TryCopy, Value};
use std::alloc::Global;

/// A null for each part of a key.
fn unset_key(alloc: Global, parts: &[Part]) -> Result<Key, Cause>
    ensures ok { IfOk result (λ key. key ≡ map (λ part. Value.Null) parts.now) }
    ensures err { IfErr result (λ cause. cause ≡ Cause.OutOfMemory) }
{
    let mut key = Key::new(alloc);
    for _part in parts {
        key.push(Value::Null)?;
    }
    Ok(key)
}

/// A null for each attribute.
fn unset_values(alloc: Global, attributes: &[Attribute]) -> Result<Seq<Value>, Cause>
    ensures ok { IfOk result (λ values. values ≡ map (λ a. Value.Null) attributes.now) }
    ensures err { IfErr result (λ cause. cause ≡ Cause.OutOfMemory) }
{
    let mut values = Seq::new(alloc);
    for _attribute in attributes {
        values.push(Value::Null)?;
    }
    Ok(values)
}

/// What a new object holds in a relation: no object.
fn empty_held(alloc: Global, to_one: bool) -> Held
    ensures { result ≡ objects.empty_held to_one }
{
    if to_one {
        Held::One(Link::None)
    } else {
        Held::Many(Collection::Fetched(Seq::new(alloc)))
    }
}

/// No object for each relation.
fn empty_relations(alloc: Global, relations: &[Relation]) -> Result<Seq<Held>, Cause>
    ensures ok { IfOk result (λ held. held ≡ map (λ r. objects.empty_held (is_to_one r.side))
        relations.now) }
    ensures err { IfErr result (λ cause. cause ≡ Cause.OutOfMemory) }
{
    let mut held = Seq::new(alloc);
    for relation in relations {
        held.push(empty_held(alloc, relation.side.is_to_one()))?;
    }
    Ok(held)
}

/// A new object of an entity, which no manager knows: its values are null, and it holds no object
/// (Jakarta Persistence 3.1, chapter 3.2.1). Fails for want of memory alone, with `OutOfMemory`.
pub fn new_object(alloc: Global, metamodel: &Metamodel, class: usize) -> Result<LiveObject, Cause>
    requires { class < length metamodel.now.entities }
    ensures ok { IfOk result (λ object. object ≡ objects.new_object metamodel.now class) }
    ensures err { IfErr result (λ cause. cause ≡ Cause.OutOfMemory) }
{
    Ok(LiveObject {
        class,
        key: unset_key(alloc, metamodel.root_of(class).key.as_slice())?,
        version: None,
        values: unset_values(alloc, metamodel.attributes_of(class))?,
        relations: empty_relations(alloc, metamodel.relations_of(class))?,
        life: Life::New,
    })
}

/// Whether each part of a key is there. Takes no memory.
pub fn is_whole(key: &[Value]) -> bool
    ensures { result ≡ objects.is_whole key.now }
{
    for part in key {
        if matches!(part, Value::Null) {
            return false;
        }
    }
    true
}

/// The identity of an object: none while its key isn't whole (chapter 2.4). Fails for want of
/// memory alone, with `OutOfMemory`.
pub fn identity_of(metamodel: &Metamodel, object: &LiveObject) -> Result<Option<Identity>, Cause>
    requires { object.now.class < length metamodel.now.entities }
    ensures ok { IfOk result (λ id. id ≡ objects.identity_of metamodel.now object.now) }
    ensures err { IfErr result (λ cause. cause ≡ Cause.OutOfMemory) }
{
    if !is_whole(object.key.as_slice()) {
        return Ok(None);
    }
    Ok(Some(Identity {
        table: metamodel.root_of(object.class).table,
        key: object.key.try_copy()?,
    }))
}
