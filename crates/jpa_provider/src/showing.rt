//! The call values: what objects hold, without reading anything.
ghost use Rattle.std.specs.Prelude.{◌≡◌, ◌<◌, ◌++◌, All, false, length, map, IfOk, IfErr};
ghost use Rattle.jpa_value.specs.declared.refusal.Cause.{Cause};
ghost use Rattle.jpa_behaviour.specs.Served.{world_of_unit};
ghost use Rattle.jpa_cascade.specs.There.{HoldsWithin};
ghost use Rattle.jpa_work.specs.heap.Objects as objects;
ghost use Rattle.jpa_protocol.specs.declared.call.Call.{Call};
ghost use Rattle.jpa_machine.specs.machine.Faults.{tells_fault};
ghost use Rattle.jpa_machine.specs.machine.Showing as showing;
ghost use Rattle.jpa_provider.specs.Serving.{IsServing, Serves};
ghost use Rattle.jpa_provider.specs.Stages.{CanBeShown};

use crate::handing::place_of;
use crate::operating::numbers_of;
use crate::replies::{accepted, because};
use crate::session::Session;
use jpa_behaviour::{Behaviour, ServedUnit};
use jpa_model::Metamodel;
use jpa_protocol::{Answer, Reached, Reply, Shown};
use jpa_value::{Cause, Seq, Text, TryCopy, Value};
use jpa_work::heap::{Collection, Held, Link, LiveObject};
use std::alloc::Global;

/// What a relation holds, as it is told, in a heap of so many objects. Fails for want of memory
/// alone, with `OutOfMemory`.
fn reached(alloc: Global, count: usize, held: &Held) -> Result<Reached, Cause>
    requires within { HoldsWithin count held.now }
    ensures ok { IfOk result (λ told. told ≡ showing.reached held.now) }
    ensures err { IfErr result (λ cause. cause ≡ Cause.OutOfMemory) }
{
    match held {
        Held::One(Link::None) => Ok(Reached::Nothing),
        Held::One(Link::Object(place)) => Ok(Reached::Object(*place as u64 + 1)),
        Held::One(Link::Key(id)) => Ok(Reached::Key(id.key.try_copy()?)),
        Held::Many(Collection::Unfetched) => Ok(Reached::Unread),
        Held::Many(Collection::Fetched(places)) => {
            Ok(Reached::Objects(numbers_of(alloc, count, places.as_slice())?))
        }
    }
}

/// What relations hold, in their order. Fails for want of memory alone, with `OutOfMemory`.
fn all_reached(alloc: Global, count: usize, relations: &[Held]) -> Result<Seq<Reached>, Cause>
    requires within { All (HoldsWithin count) relations.now }
    ensures ok { IfOk result (λ told. told ≡ map showing.reached relations.now) }
    ensures err { IfErr result (λ cause. cause ≡ Cause.OutOfMemory) }
{
    let mut list = Seq::new(alloc);
    for held in relations {
        list.push(reached(alloc, count, held)?)?;
    }
    Ok(list)
}

/// A version as a value, or null.
fn version_value(version: Option<i64>) -> Value
    ensures { result ≡ objects.version_value version }
{
    match version {
        None => Value::Null,
        Some(number) => Value::Int(number),
    }
}

/// The list has copies of these values behind its own. Fails for want of memory alone, with
/// `OutOfMemory`.
fn add_copies(list: &mut Seq<Value>, values: &[Value]) -> Result<(), Cause>
    ensures ok { IfOk result (λ done. list.new ≡ list.old ++ values.now) }
    ensures err { IfErr result (λ cause. cause ≡ Cause.OutOfMemory) }
{
    for value in values {
        list.push(value.try_copy()?)?;
    }
    Ok(())
}

/// An object's key, its version where its hierarchy has one, and its attributes. Fails for want of
/// memory alone, with `OutOfMemory`.
fn values_shown(
    alloc: Global,
    metamodel: &Metamodel,
    object: &LiveObject,
) -> Result<Seq<Value>, Cause>
    requires { object.now.class < length metamodel.now.entities }
    ensures ok { IfOk result (λ values. values ≡ object.now.key
        ++ showing.version_shown metamodel.now object.now ++ object.now.values) }
    ensures err { IfErr result (λ cause. cause ≡ Cause.OutOfMemory) }
{
    let mut list = Seq::new(alloc);
    add_copies(&mut list, object.key.as_slice())?;
    if metamodel.is_versioned(object.class) {
        list.push(version_value(object.version))?;
    }
    add_copies(&mut list, object.values.as_slice())?;
    Ok(list)
}

/// What an object holds, in a heap of so many. Fails for want of memory alone, with `OutOfMemory`.
fn shown(
    alloc: Global,
    metamodel: &Metamodel,
    count: usize,
    object: &LiveObject,
) -> Result<Shown, Cause>
    requires { CanBeShown metamodel.now count object.now }
    ensures ok { IfOk result (λ told. told ≡ showing.shown metamodel.now object.now) }
    ensures err { IfErr result (λ cause. cause ≡ Cause.OutOfMemory) }
{
    let entity = metamodel.entity(object.class).name.try_copy()?;
    let relations = all_reached(alloc, count, object.relations.as_slice())?;
    let values = values_shown(alloc, metamodel, object)?;
    Ok(Shown {
        entity,
        relations,
        values,
    })
}

/// What the objects of these numbers hold, or none where a number names no object. Fails for want
/// of memory alone, with `OutOfMemory`.
fn all_shown(
    alloc: Global,
    metamodel: &Metamodel,
    objects: &[LiveObject],
    numbers: &[i64],
) -> Result<Option<Seq<Shown>>, Cause>
    requires { All (CanBeShown metamodel.now (length objects.now)) objects.now }
    ensures ok { IfOk result (λ told. told ≡ showing.all_shown metamodel.now objects.now
        numbers.now) }
    ensures err { IfErr result (λ cause. cause ≡ Cause.OutOfMemory) }
{
    let mut list = Seq::new(alloc);
    for number in numbers {
        let Some(place) = place_of(objects.len(), *number) else {
            return Ok(None);
        };
        list.push(shown(alloc, metamodel, objects.len(), &objects[place])?)?;
    }
    Ok(Some(list))
}

/// The call values. `NoSuchObject` where a number names no object.
#[tactic(auto, using(crate::proofs::Own::values_known, crate::proofs::Own::values_unknown, crate::proofs::Own::values_gave_up))]
pub(crate) fn values_call<B: Behaviour>(
    alloc: Global,
    unit: &ServedUnit<B>,
    session: &Session,
    objects: &[i64],
) -> Reply
    requires { IsServing (world_of_unit B.meaning unit.now) session.now }
    ensures step { Serves (world_of_unit B.meaning unit.now) session.now
        (Call.Values objects.now) result session.now }
    ensures untold { tells_fault result ≡ false }
{
    match all_shown(
        alloc,
        &unit.metamodel,
        session.work.objects.as_slice(),
        objects,
    ) {
        Ok(Some(shown)) => accepted(alloc, Answer::Shown(shown)),
        Ok(None) => because(alloc, Cause::NoSuchObject),
        Err(cause) => because(alloc, cause),
    }
}
