//! The ends of transactions but for commit (Jakarta Persistence 3.1, chapter 7.5).
ghost use Rattle.std.specs.Prelude.{◌≡◌, ◌==◌, ◌<◌, All, false, filter, not, true, length};
ghost use Rattle.jpa_behaviour.specs.Served.{world_of_unit};
ghost use Rattle.jpa_operations.specs.ops.States.{detach_each};
ghost use Rattle.jpa_protocol.specs.declared.call.Call.{Call};
ghost use Rattle.jpa_machine.specs.machine.Faults.{tells_fault};
ghost use Rattle.jpa_behaviour.specs.Behaviour.{World};
ghost use Rattle.jpa_machine.specs.machine.Invariant.{IsMachine};
ghost use Rattle.jpa_machine.specs.machine.Machine.{closed, rolled_back};
ghost use Rattle.jpa_provider.specs.Stages.{HasManager, IsCleared};
ghost use Rattle.jpa_provider.specs.Serving.{machine_of, manager_in, detached_all, detached_at, is_begun_status, AreAllMarked, IsAtRest, IsServing, IsSettled, Serves};

use crate::at_work::{manager_named, mark};
use crate::replies::{accepted, because};
use crate::session::{
    Session, Status, context_of, end_transaction, exchange, set_status, status_of,
};
use jpa_behaviour::{Behaviour, ServedUnit};
use jpa_flush::marking::other_laws;
use jpa_protocol::{Answer, Reply};
use jpa_value::{Cause, Key, Seq, State};
use jpa_work::context::{Entry, PersistenceContext};
use jpa_work::heap::{Life, LiveObject};
use jpa_work::undo::UndoList;
use std::alloc::Global;

/// An object that holds the place of another while that changes.
fn no_object(alloc: Global) -> LiveObject {
    LiveObject {
        class: 0,
        key: Key::new(alloc),
        version: None,
        values: Seq::new(alloc),
        relations: Seq::new(alloc),
        life: Life::New,
    }
}

/// An object is detached, with its state as it is. Takes no memory.
fn detach_one(alloc: Global, objects: &mut UndoList<LiveObject>, place: usize)
    requires { place < length objects.old.now }
    ensures now { objects.new.now ≡ detached_at place objects.old.now }
    ensures since { objects.new.since ≡ objects.new.now }
{
    let mut object = objects.put(place, no_object(alloc));
    object.life = Life::Detached;
    objects.put(place, object);
}

/// The objects of these entries are detached, with their state as it is (Jakarta Persistence 3.1,
/// chapter 3.2.7). Takes no memory.
fn detach_each(alloc: Global, objects: &mut UndoList<LiveObject>, context: &[Entry])
    requires { All (λ e. e.object < length objects.old.now) context.now }
    ensures now { objects.new.now ≡ detach_each context.now objects.old.now }
    ensures kept { objects.old.since ≡ objects.old.now → objects.new.since ≡ objects.new.now }
{
    for entry in context {
        detach_one(alloc, objects, entry.object);
    }
}

/// These objects are detached, with their state as it is. Takes no memory.
pub(crate) fn detach_objects(alloc: Global, objects: &mut UndoList<LiveObject>, gone: &[usize])
    requires { All (λ n. n < length objects.old.now) gone.now }
    ensures now { objects.new.now ≡ detached_all gone.now objects.old.now }
{
    for place in gone {
        detach_one(alloc, objects, *place);
    }
}

/// The manager's objects are detached as they are, and leave its context. Takes no memory.
fn clear(alloc: Global, session: &mut Session, manager: usize)
    requires { HasManager session.old manager }
    ensures cleared { IsCleared manager session.old session.new }
    ensures settled { IsSettled session.old → IsSettled session.new }
    ensures marked { (world : World) → IsMachine world (machine_of session.old)
        → AreAllMarked world.model session.old → AreAllMarked world.model session.new }
{
    other_laws();
    detach_each(
        alloc,
        &mut session.work.objects,
        context_of(&session.managers, manager),
    );
    let mut empty = PersistenceContext::new(alloc);
    exchange(&mut session.managers, manager, &mut empty);
}

/// The call clear (chapter 3.2.7). Takes no memory.
#[tactic(auto, using(crate::proofs::Asked::clear_alone, crate::proofs::Asked::clear_clears))]
pub(crate) fn clear_call<B: Behaviour>(
    alloc: Global,
    _unit: &ServedUnit<B>,
    session: &mut Session,
    em: i64,
) -> Reply
    requires { IsServing (world_of_unit B.meaning _unit.now) session.old }
    ensures step { let world = world_of_unit B.meaning _unit.now in
        Serves world session.old (Call.Clear em) result session.new }
    ensures untold { tells_fault result ≡ false }
    ensures rest { IsAtRest _unit.now.metamodel session.new }
{
    let Some(manager) = manager_named(session, em) else {
        return because(alloc, Cause::NoSuchManager);
    };
    clear(alloc, session, manager);
    accepted(alloc, Answer::Null)
}

/// The call close: the manager's objects are detached as they are, and its number names none from
/// now on (chapter 7.2). `IllegalState(active)` where its transaction is open. Takes no memory.
#[tactic(auto, using(crate::proofs::Closing::close_alone, crate::proofs::Closing::close_active, crate::proofs::Closing::close_closes))]
pub(crate) fn close_call<B: Behaviour>(
    alloc: Global,
    _unit: &ServedUnit<B>,
    session: &mut Session,
    em: i64,
) -> Reply
    requires { IsServing (world_of_unit B.meaning _unit.now) session.old }
    ensures step { Serves (world_of_unit B.meaning _unit.now) session.old
        (Call.Close em) result session.new }
    ensures untold { tells_fault result ≡ false }
    ensures rest { IsAtRest _unit.now.metamodel session.new }
{
    let Some(manager) = manager_named(session, em) else {
        return because(alloc, Cause::NoSuchManager);
    };
    if status_of(&session.managers, manager).is_begun() {
        return because(alloc, Cause::IllegalState(State::Active));
    }
    shut(alloc, session, manager);
    accepted(alloc, Answer::Null)
}

/// A place goes from a list of them. Takes no memory.
fn leave(places: &mut Vec<usize>, place: usize)
    ensures { places.new.items ≡ filter (λ n. not (n == place)) places.old.items }
{
    places.retain(|other| *other != place);
}

/// Closes a manager that has no open transaction. Takes no memory.
fn shut(alloc: Global, session: &mut Session, manager: usize)
    requires manager { HasManager session.old manager }
    requires settled { IsSettled session.old }
    requires idle { is_begun_status (manager_in session.old.managers.items manager).status
        ≡ false }
    ensures closed { machine_of session.new ≡ closed (machine_of session.old) manager }
    ensures settled { IsSettled session.new }
    ensures marked { (world : World) → IsMachine world (machine_of session.old)
        → AreAllMarked world.model session.old → AreAllMarked world.model session.new }
{
    clear(alloc, session, manager);
    set_status(&mut session.managers, manager, Status::Closed);
    leave(&mut session.open_places, manager);
}

/// Ends the manager's open transaction: its objects are detached as they are, and what it wrote
/// goes with its layers. Takes no memory.
pub(crate) fn release(alloc: Global, session: &mut Session, manager: usize)
    requires { HasManager session.old manager }
    ensures released { IsSettled session.old
        → is_begun_status (manager_in session.old.managers.items manager).status ≡ true
        → machine_of session.new ≡ rolled_back (machine_of session.old) manager }
    ensures settled { IsSettled session.old
        → is_begun_status (manager_in session.old.managers.items manager).status ≡ true
        → IsSettled session.new }
    ensures marked { (world : World) → IsMachine world (machine_of session.old)
        → AreAllMarked world.model session.old → AreAllMarked world.model session.new }
{
    clear(alloc, session, manager);
    end_transaction(alloc, &mut session.managers, manager);
}

/// The call rollback. Takes no memory.
#[tactic(auto, using(crate::proofs::Opened::rollback_alone, crate::proofs::Opened::rollback_inactive, crate::proofs::Opened::rollback_rolls))]
pub(crate) fn rollback_call<B: Behaviour>(
    alloc: Global,
    _unit: &ServedUnit<B>,
    session: &mut Session,
    em: i64,
) -> Reply
    requires { IsServing (world_of_unit B.meaning _unit.now) session.old }
    ensures step { let world = world_of_unit B.meaning _unit.now in
        Serves world session.old (Call.Rollback em) result session.new }
    ensures untold { tells_fault result ≡ false }
    ensures rest { IsAtRest _unit.now.metamodel session.new }
{
    let Some(manager) = manager_named(session, em) else {
        return because(alloc, Cause::NoSuchManager);
    };
    if !status_of(&session.managers, manager).is_begun() {
        return because(alloc, Cause::IllegalState(State::Inactive));
    }
    release(alloc, session, manager);
    accepted(alloc, Answer::Null)
}

/// The call setRollbackOnly. Takes no memory.
#[tactic(auto, using(crate::proofs::Opened::mark_alone, crate::proofs::Opened::mark_inactive, crate::proofs::Opened::mark_marks))]
pub(crate) fn set_rollback_only_call<B: Behaviour>(
    alloc: Global,
    _unit: &ServedUnit<B>,
    session: &mut Session,
    em: i64,
) -> Reply
    requires { IsServing (world_of_unit B.meaning _unit.now) session.old }
    ensures step { let world = world_of_unit B.meaning _unit.now in
        Serves world session.old (Call.SetRollbackOnly em) result session.new }
    ensures untold { tells_fault result ≡ false }
    ensures rest { IsAtRest _unit.now.metamodel session.new }
{
    let Some(manager) = manager_named(session, em) else {
        return because(alloc, Cause::NoSuchManager);
    };
    if !status_of(&session.managers, manager).is_begun() {
        return because(alloc, Cause::IllegalState(State::Inactive));
    }
    mark(session, manager);
    accepted(alloc, Answer::Null)
}
