//! Removing an object.
ghost use Rattle.std.specs.Prelude.{◌≡◌, ◌<◌, length, OnOk};
ghost use Rattle.jpa_behaviour.specs.Served.{world_of_unit};
ghost use Rattle.jpa_work.specs.context.Carries.{Carries};
ghost use Rattle.jpa_work.specs.context.Undo.{now, IsPlaced};
ghost use Rattle.jpa_work.specs.context.Work as works;
ghost use Rattle.jpa_work.specs.declared.context.EntityState.{EntityState};
ghost use Rattle.jpa_cascade.specs.There.{IsThere};
ghost use Rattle.jpa_operations.specs.fetch.Grown.{GoesOn, IsReady};
ghost use Rattle.jpa_operations.specs.ops.States as states;

use crate::fetch::load;
use crate::ops::context::set_life;
use jpa_behaviour::{Behaviour, ServedUnit};
use jpa_cascade::{Node, Operation, instance, state_of, waves};
use jpa_lifecycle::callback;
use jpa_value::{Argument, Cause, Identity, LifecycleEvent, TryCopy};
use jpa_work::context::{EntityState, UnitOfWork};
use jpa_work::heap::Life;
use std::alloc::Global;

/// A managed object is removed, and PreRemove happens to it (chapter 3.5.2). Refused as a listener
/// or callback refuses, and with `OutOfMemory`.
fn remove_managed<B: Behaviour>(
    alloc: Global,
    unit: &ServedUnit<B>,
    work: &mut UnitOfWork,
    object: usize,
) -> Result<(), Cause>
    requires placed { IsPlaced unit.now.metamodel (now work.old) }
    requires object { object < length work.old.objects.now }
    ensures { let world = world_of_unit B.meaning unit.now in
        Carries (states.remove_one world object EntityState.Managed) result work.old work.new }
{
    set_life(work, object, Life::Removed(work.manager))?;
    callback(alloc, unit, work, LifecycleEvent::PreRemove, object)
}

/// An object that stands so for its manager is removed. Refused as `remove` is.
fn remove_one<B: Behaviour>(
    alloc: Global,
    unit: &ServedUnit<B>,
    work: &mut UnitOfWork,
    object: usize,
    state: EntityState,
) -> Result<(), Cause>
    requires placed { IsPlaced unit.now.metamodel (now work.old) }
    requires object { object < length work.old.objects.now }
    ensures { let world = world_of_unit B.meaning unit.now in
        Carries (states.remove_one world object state) result work.old work.new }
{
    match state {
        EntityState::New => Ok(()),
        EntityState::Managed => remove_managed(alloc, unit, work, object),
        EntityState::Removed => Ok(()),
        EntityState::Detached => Err(Cause::IllegalArgument(Argument::State)),
    }
}

/// An object is removed, as it stands by then. Refused as `remove` is.
fn remove_live<B: Behaviour>(
    alloc: Global,
    unit: &ServedUnit<B>,
    work: &mut UnitOfWork,
    object: usize,
) -> Result<(), Cause>
    requires ready { IsReady unit.now.metamodel (now work.old) }
    requires object { object < length work.old.objects.now }
    ensures carries { let world = world_of_unit B.meaning unit.now in
        Carries (states.remove_live world object) result work.old work.new }
    ensures goes { OnOk result (GoesOn unit.now.metamodel (now work.old) (now work.new)) }
{
    let state = state_of(work, object);
    remove_one(alloc, unit, work, object, state)
}

/// What an identity means by then is removed: its instance; without one its row, which is loaded
/// first. Refused as `remove` is.
fn remove_under<B: Behaviour>(
    alloc: Global,
    unit: &ServedUnit<B>,
    work: &mut UnitOfWork,
    id: &Identity,
) -> Result<(), Cause>
    requires ready { IsReady unit.now.metamodel (now work.old) }
    ensures carries { let world = world_of_unit B.meaning unit.now in
        let w = now work.old in
        Carries (states.remove_under world id.now
        (works.instance unit.now.metamodel w id.now) (works.row w id.now))
        result work.old work.new }
    ensures goes { OnOk result (GoesOn unit.now.metamodel (now work.old) (now work.new)) }
{
    if let Some(object) = instance(&unit.metamodel, work, id) {
        return remove_live(alloc, unit, work, object);
    }
    let Some(row) = work.view.get(id) else {
        return Ok(());
    };
    let row = row.try_copy()?;
    let object = load(alloc, unit, work, id, row)?;
    remove_live(alloc, unit, work, object)
}

/// A node of the cascade is removed. Refused as `remove` is.
fn remove_node<B: Behaviour>(
    alloc: Global,
    unit: &ServedUnit<B>,
    work: &mut UnitOfWork,
    node: &Node,
) -> Result<(), Cause>
    requires ready { IsReady unit.now.metamodel (now work.old) }
    requires there { IsThere (now work.old) node.now }
    ensures carries { let world = world_of_unit B.meaning unit.now in
        Carries (states.remove_node world node.now) result work.old work.new }
    ensures goes { OnOk result (GoesOn unit.now.metamodel (now work.old) (now work.new)) }
{
    match node {
        Node::Live(object) => remove_live(alloc, unit, work, *object),
        Node::Bare(id) => remove_under(alloc, unit, work, id),
    }
}

/// Removes an object, and those that it leads to along relations that cascade it, unread ones too:
/// a managed one is removed, and PreRemove happens to it; its row is dropped at the next flush, if
/// it has one. A new one stays new, a removed one stays removed; what has a row and no instance is
/// loaded first (Jakarta Persistence 3.1, chapters 3.2.3 and 3.5.2). The objects and rows are those
/// of the waves of the cascade as it begins, in their order.
///
/// `IllegalArgument(state)` for a detached object; what loading refuses; `Listener` with its text
/// where a listener or callback throws, and `Persistence(callback)` where one assigns what is not
/// allowed; `OutOfMemory` where a growth was refused. What a refused call changed is undone by
/// `UnitOfWork::undo`.
pub fn remove<B: Behaviour>(
    alloc: Global,
    unit: &ServedUnit<B>,
    work: &mut UnitOfWork,
    object: usize,
) -> Result<(), Cause>
    requires ready { IsReady unit.now.metamodel (now work.old) }
    requires object { object < length work.old.objects.now }
    ensures carries { let world = world_of_unit B.meaning unit.now in
        Carries (states.remove world object) result work.old work.new }
    ensures goes { OnOk result (GoesOn unit.now.metamodel (now work.old) (now work.new)) }
{
    let nodes = waves(alloc, &unit.metamodel, work, Operation::Remove, object)?;
    for node in nodes.as_slice() {
        remove_node(alloc, unit, work, node)?;
    }
    Ok(())
}
