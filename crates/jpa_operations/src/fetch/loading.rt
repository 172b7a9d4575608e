//! Loading an object.
ghost use Rattle.std.specs.Prelude.{◌≡◌, ◌<◌, length, map, IfOk, IfErr, OnOk, Some};
ghost use Rattle.jpa_value.specs.declared.refusal.Cause.{Cause};
ghost use Rattle.jpa_model.specs.Chains.{is_to_one, relation_at, relations_of};
ghost use Rattle.jpa_behaviour.specs.Served.{world_of_unit};
ghost use Rattle.jpa_stored.specs.objects.Sets as sets;
ghost use Rattle.jpa_open.specs.Opened as opened;
ghost use Rattle.jpa_work.specs.context.Carries.{Carries};
ghost use Rattle.jpa_work.specs.context.Undo.{now, IsPlaced};
ghost use Rattle.jpa_work.specs.context.Work as works;
ghost use Rattle.jpa_operations.specs.fetch.Grown.{HasGrown};
ghost use Rattle.jpa_operations.specs.fetch.Load as spec;

use jpa_behaviour::{Behaviour, ServedUnit};
use jpa_cascade::members;
use jpa_lifecycle::callback;
use jpa_model::Metamodel;
use jpa_open::OpenSet;
use jpa_stored::objects::Stored;
use jpa_value::{Cause, Identity, LifecycleEvent, MOST_OBJECTS, Seq, TryCopy};
use jpa_work::context::{Base, Entry, Lock, UnitOfWork};
use jpa_work::heap::{Collection, Held, Life, Link, LiveObject};
use std::alloc::Global;

/// What a base knows of a relation at a load: a to-one's identity, or that there is none; nothing
/// of a collection.
fn known(
    metamodel: &Metamodel,
    view: &OpenSet,
    id: &Identity,
    row: &Stored,
    relation: usize,
) -> Result<Option<Seq<Identity>>, Cause>
    requires class { row.now.class < length metamodel.now.entities }
    requires relation { relation < length (relations_of metamodel.now row.now.class) }
    ensures ok { IfOk result (λ known. known
        ≡ spec.known (is_to_one (relation_at metamodel.now row.now.class relation).side)
        (sets.members metamodel.now (opened.now view.now) id.now row.now relation)) }
    ensures err { IfErr result (λ cause. cause ≡ Cause.OutOfMemory) }
{
    if !metamodel.relation_at(row.class, relation).side.is_to_one() {
        return Ok(None);
    }
    Ok(Some(members(metamodel, view, id, row, relation)?))
}

/// What a base knows of each relation at a load.
fn members_loaded(
    alloc: Global,
    metamodel: &Metamodel,
    view: &OpenSet,
    id: &Identity,
    row: &Stored,
) -> Result<Seq<Option<Seq<Identity>>>, Cause>
    requires class { row.now.class < length metamodel.now.entities }
    ensures ok { IfOk result (λ members. members
        ≡ spec.members_loaded metamodel.now (opened.now view.now) id.now row.now) }
    ensures err { IfErr result (λ cause. cause ≡ Cause.OutOfMemory) }
{
    let mut members = Seq::new(alloc);
    let relations = metamodel.relations_of(row.class);
    for relation in 0..relations.len() {
        members.push(known(metamodel, view, id, row, relation)?)?;
    }
    Ok(members)
}

/// What an object holds in a relation of which its base knows this: every relation is lazy.
fn held_from(known: &Option<Seq<Identity>>) -> Result<Held, Cause>
    ensures ok { IfOk result (λ held. held ≡ spec.held_from known.now) }
    ensures err { IfErr result (λ cause. cause ≡ Cause.OutOfMemory) }
{
    let Some(ids) = known else {
        return Ok(Held::Many(Collection::Unfetched));
    };
    match ids.as_slice().first() {
        None => Ok(Held::One(Link::None)),
        Some(id) => Ok(Held::One(Link::Key(id.try_copy()?))),
    }
}

/// What an object holds in each relation of which its base knows this.
fn held_loaded(alloc: Global, members: &[Option<Seq<Identity>>]) -> Result<Seq<Held>, Cause>
    ensures ok { IfOk result (λ held. held ≡ map spec.held_from members.now) }
    ensures err { IfErr result (λ cause. cause ≡ Cause.OutOfMemory) }
{
    let mut held = Seq::new(alloc);
    for known in members {
        held.push(held_from(known)?)?;
    }
    Ok(held)
}

/// A row as an object of a manager, and as the base of its entry: of a to-one relation it has the
/// identity, of a collection nothing. Fails for want of memory alone, with `OutOfMemory`.
pub fn object_of_row(
    alloc: Global,
    metamodel: &Metamodel,
    manager: usize,
    view: &OpenSet,
    id: &Identity,
    row: Stored,
) -> Result<(LiveObject, Base), Cause>
    requires class { row.class < length metamodel.now.entities }
    ensures object { IfOk result (λ made. made.0
        ≡ spec.object_loaded metamodel.now manager (opened.now view.now) id.now row) }
    ensures base { IfOk result (λ made. made.1
        ≡ spec.base_loaded metamodel.now (opened.now view.now) id.now row) }
    ensures err { IfErr result (λ cause. cause ≡ Cause.OutOfMemory) }
{
    let members = members_loaded(alloc, metamodel, view, id, &row)?;
    let object = LiveObject {
        class: row.class,
        key: id.key.try_copy()?,
        version: row.version,
        values: row.values.try_copy()?,
        relations: held_loaded(alloc, members.as_slice())?,
        life: Life::Managed(manager),
    };
    let base = Base {
        stored: row,
        members,
    };
    Ok((object, base))
}

/// A row becomes an object of the context, and PostLoad happens to it (chapter 3.5.2); its place.
/// `Limit` where there are 1,000,000 live objects already, what a listener or callback refuses, and
/// `OutOfMemory`.
pub fn load<B: Behaviour>(
    alloc: Global,
    unit: &ServedUnit<B>,
    work: &mut UnitOfWork,
    id: &Identity,
    row: Stored,
) -> Result<usize, Cause>
    requires placed { IsPlaced unit.now.metamodel (now work.old) }
    requires row { works.row (now work.old) id.now ≡ Some row }
    ensures carries { let world = world_of_unit B.meaning unit.now in
        Carries (spec.load world id.now row) result work.old work.new }
    ensures within { IfOk result (λ n. n < length (now work.new).objects) }
    ensures placed { OnOk result (IsPlaced unit.now.metamodel (now work.new)) }
    ensures grown { OnOk result (HasGrown (now work.old) (now work.new)) }
{
    let place = work.objects.len();
    if place >= MOST_OBJECTS {
        return Err(Cause::Limit);
    }
    let key = id.key.try_copy()?;
    let (object, base) = object_of_row(alloc, &unit.metamodel, work.manager, &work.view, id, row)?;
    work.objects.push(object)?;
    work.context.push(Entry {
        object: place,
        key,
        lock: Lock::Unlocked,
        base: Some(base),
    })?;
    let event = LifecycleEvent::PostLoad;
    callback(alloc, unit, work, event, place)?;
    Ok(place)
}
