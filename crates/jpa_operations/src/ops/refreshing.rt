//! Loading an object again.
ghost use Rattle.std.specs.Prelude.{◌≡◌, ◌<◌, length, IfOk, IfErr, OnOk, Some};
ghost use Rattle.jpa_value.specs.declared.refusal.Cause.{Cause};
ghost use Rattle.jpa_behaviour.specs.Behaviour.{World};
ghost use Rattle.jpa_behaviour.specs.Served.{world_of_unit};
ghost use Rattle.jpa_work.specs.context.Carries.{Carries};
ghost use Rattle.jpa_work.specs.context.Steps.{IsRefusedAs};
ghost use Rattle.jpa_work.specs.context.Undo.{now, since, IsPlaced};
ghost use Rattle.jpa_work.specs.context.Work as works;
ghost use Rattle.jpa_work.specs.declared.context.EntityState.{EntityState};
ghost use Rattle.jpa_cascade.specs.There.{IsThere};
ghost use Rattle.jpa_operations.specs.fetch.Grown.{AreDistinct, GoesOn, IsReady};
ghost use Rattle.jpa_operations.specs.ops.Standing.{StaysPut};
ghost use Rattle.jpa_operations.specs.ops.States as states;

use crate::fetch::object_of_row;
use jpa_behaviour::{Behaviour, ServedUnit};
use jpa_cascade::{Node, Operation, state_of, waves};
use jpa_lifecycle::callback;
use jpa_model::Metamodel;
use jpa_stored::objects::Stored;
use jpa_value::{Argument, Cause, Identity, LifecycleEvent, TryCopy};
use jpa_work::context::{Base, EntityState, Entry, UnitOfWork};
use jpa_work::heap::identity_of;
use std::alloc::Global;

/// An object's entry has a new base. Fails for want of memory alone, with `OutOfMemory`.
fn set_base(work: &mut UnitOfWork, object: usize, base: Base) -> Result<(), Cause>
    requires distinct { AreDistinct work.old.context.now }
    ensures ok { OnOk result (now work.new ≡ works.with_base object (Some base) (now work.old)) }
    ensures err { IfErr result (λ cause. cause ≡ Cause.OutOfMemory) }
    ensures others { work.new ≡ record work.old { context = work.new.context } }
    ensures since { since work.new ≡ since work.old }
{
    let Some(place) = work.context.place_of(object) else {
        return Ok(());
    };
    let entry = &work.context.as_slice()[place];
    let based = Entry {
        object: entry.object,
        key: entry.key.try_copy()?,
        lock: entry.lock,
        base: Some(base),
    };
    work.context.set(place, based)?;
    Ok(())
}

/// An object takes what its row has, with what it leads to unread; the row is its new base. Fails
/// for want of memory alone, with `OutOfMemory`.
fn reload(
    alloc: Global,
    metamodel: &Metamodel,
    work: &mut UnitOfWork,
    object: usize,
    id: &Identity,
    row: Stored,
) -> Result<(), Cause>
    requires class { row.class < length metamodel.now.entities }
    requires object { object < length work.old.objects.now }
    requires distinct { AreDistinct work.old.context.now }
    ensures ok { let w = now work.old in (world : World) → OnOk result (now work.new
        ≡ states.reloaded (record world { model = metamodel.now }) object id.now row w) }
    ensures err { IfErr result (λ cause. cause ≡ Cause.OutOfMemory) }
    ensures stays { StaysPut work.old work.new }
{
    let (live, base) = object_of_row(alloc, metamodel, work.manager, &work.view, id, row)?;
    work.objects.set(object, live)?;
    set_base(work, object, base)
}

/// A copy of the row under an object's identity. `EntityNotFound` where there is none, or one of
/// another class; and `OutOfMemory`.
fn row_of(work: &UnitOfWork, object: usize, id: &Identity) -> Result<Stored, Cause>
    requires { object < length work.now.objects.now }
    ensures row { IfOk result (λ row. works.row (now work.now) id.now ≡ Some row) }
    ensures class { IfOk result (λ row. (works.object (now work.now) object).class ≡ row.class) }
    ensures err { let w = now work.now in
        (world : World) → IfErr result (λ cause. IsRefusedAs cause w.events
        (states.refresh_row world object (Some id.now) (works.row w id.now) w)) }
{
    let Some(row) = work.view.get(id) else {
        return Err(Cause::EntityNotFound);
    };
    if work.objects.as_slice()[object].class != row.class {
        return Err(Cause::EntityNotFound);
    }
    row.try_copy()
}

/// A managed object is loaded again, and PostLoad happens to it (chapter 3.5.2). Refused as
/// `refresh` is.
fn refresh_managed<B: Behaviour>(
    alloc: Global,
    unit: &ServedUnit<B>,
    work: &mut UnitOfWork,
    object: usize,
) -> Result<(), Cause>
    requires placed { IsPlaced unit.now.metamodel (now work.old) }
    requires object { object < length work.old.objects.now }
    requires distinct { AreDistinct work.old.context.now }
    ensures { let world = world_of_unit B.meaning unit.now in
        Carries (states.refresh_managed world object) result work.old work.new }
{
    let Some(id) = identity_of(&unit.metamodel, &work.objects.as_slice()[object])? else {
        return Err(Cause::EntityNotFound);
    };
    let row = row_of(work, object, &id)?;
    reload(alloc, &unit.metamodel, work, object, &id, row)?;
    callback(alloc, unit, work, LifecycleEvent::PostLoad, object)
}

/// An object that stands so for its manager is loaded again. Refused as `refresh` is.
fn refresh_one<B: Behaviour>(
    alloc: Global,
    unit: &ServedUnit<B>,
    work: &mut UnitOfWork,
    object: usize,
    state: EntityState,
) -> Result<(), Cause>
    requires placed { IsPlaced unit.now.metamodel (now work.old) }
    requires object { object < length work.old.objects.now }
    requires distinct { AreDistinct work.old.context.now }
    ensures { let world = world_of_unit B.meaning unit.now in
        Carries (states.refresh_one world object state) result work.old work.new }
{
    match state {
        EntityState::New => Err(Cause::IllegalArgument(Argument::State)),
        EntityState::Managed => refresh_managed(alloc, unit, work, object),
        EntityState::Removed => Err(Cause::IllegalArgument(Argument::State)),
        EntityState::Detached => Err(Cause::IllegalArgument(Argument::State)),
    }
}

/// A node of the cascade is refreshed: an object; a row without an instance is as it is. Refused as
/// `refresh` is.
fn refresh_node<B: Behaviour>(
    alloc: Global,
    unit: &ServedUnit<B>,
    work: &mut UnitOfWork,
    node: &Node,
) -> Result<(), Cause>
    requires placed { IsPlaced unit.now.metamodel (now work.old) }
    requires distinct { AreDistinct work.old.context.now }
    requires there { IsThere (now work.old) node.now }
    ensures { let world = world_of_unit B.meaning unit.now in
        Carries (states.refresh_node world node.now) result work.old work.new }
{
    match node {
        Node::Live(object) => {
            let state = state_of(work, *object);
            refresh_one(alloc, unit, work, *object, state)
        }
        Node::Bare(_) => Ok(()),
    }
}

/// Loads a managed object again, and those that it leads to along relations that cascade it: each
/// takes the values and the version of its row, which is what it is compared with at the next
/// flush, with what it leads to unread, and PostLoad happens to it (Jakarta Persistence 3.1,
/// chapters 3.2.5 and 3.5.2). What was changed of it and not written is lost. The objects are those
/// of the waves of the cascade as it begins, in their order.
///
/// `IllegalArgument(state)` for an object that is not managed; `EntityNotFound` where the manager
/// sees no row under its identity, or one of another class; `Listener` with its text where a
/// listener or callback throws, and `Persistence(callback)` where one assigns what is not allowed;
/// `OutOfMemory` where a growth was refused. What a refused call changed is undone by
/// `UnitOfWork::undo`.
pub fn refresh<B: Behaviour>(
    alloc: Global,
    unit: &ServedUnit<B>,
    work: &mut UnitOfWork,
    object: usize,
) -> Result<(), Cause>
    requires ready { IsReady unit.now.metamodel (now work.old) }
    requires object { object < length work.old.objects.now }
    ensures carries { let world = world_of_unit B.meaning unit.now in
        Carries (states.refresh world object) result work.old work.new }
    ensures goes { OnOk result (GoesOn unit.now.metamodel (now work.old) (now work.new)) }
{
    let nodes = waves(alloc, &unit.metamodel, work, Operation::Refresh, object)?;
    for node in nodes.as_slice() {
        refresh_node(alloc, unit, work, node)?;
    }
    Ok(())
}
