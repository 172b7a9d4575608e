//! A manager at work: while a call of it is served, its context stands in the session's unit of
//! work, and so do the layers of its open transaction.
ghost use Rattle.std.specs.Prelude.{◌≡◌, ◌≢◌, ◌<◌, ℕ, [], false, true, length, IfErr, IfSome, OnErr, OnOk};
ghost use Rattle.jpa_work.specs.context.Marks.{all_marked};
ghost use Rattle.jpa_work.specs.context.Undo.{now, IsKept};
ghost use Rattle.jpa_operations.specs.fetch.Grown.{IsReady};
ghost use Rattle.jpa_flush.specs.flush.Marked.{AreMarkedBefore};
ghost use Rattle.jpa_machine.specs.machine.Faults.{is_store_fault, tells_fault};
ghost use Rattle.jpa_machine.specs.machine.Machine.{Machine, kept, marked, work_of};
ghost use Rattle.jpa_model.specs.declared.unit.PersistenceUnit.{PersistenceUnit};
ghost use Rattle.jpa_provider.specs.Operations.{Concludes};
ghost use Rattle.jpa_provider.specs.Stages.{IsUndoneTo};
ghost use Rattle.jpa_provider.specs.Serving as serving;
ghost use Rattle.jpa_provider.specs.Serving.{machine_of, marks_in, named, AreAllMarked, AreMarkedAway, AreMarkedNow, IsAtRest, IsAway, IsSettled, IsWorking, StaysAtRest};

use crate::handing::place_of;
use crate::replies::{Rule, is_marked_by, told_of};
use crate::session::{
    Session, Status, exchange, exchange_if_begun, set_marks, set_status, status_of,
};
use jpa_flush::marking::{keep_others, mark_anew};
use jpa_model::Metamodel;
use jpa_protocol::{Answer, Reply};
use jpa_value::{Cause, Refusal, Seq};
use jpa_work::context::Marks;
use std::alloc::Global;
use std::mem;

/// The place of the manager that a number names, if it is open. Takes no memory.
pub(crate) fn manager_named(session: &Session, em: i64) -> Option<usize>
    ensures named { result ≡ named session.now em }
    ensures within { IfSome result (λ manager. manager < length session.now.managers.items) }
{
    let place = place_of(session.managers.len(), em)?;
    if status_of(&session.managers, place).is_open() {
        Some(place)
    } else {
        None
    }
}

/// The manager goes to work on its context, and sees what its transaction sees. Takes no memory.
pub(crate) fn take_work(session: &mut Session, manager: usize)
    requires within { manager < length session.old.managers.items }
    requires settled { IsSettled session.old }
    ensures working { IsWorking (machine_of session.old) manager session.new }
    ensures work { now session.new.work ≡ work_of (machine_of session.old) manager }
    ensures kept { IsKept session.new.work }
    ensures marked { (u : PersistenceUnit) → AreAllMarked u session.old
        → AreMarkedAway u (machine_of session.old) manager session.new }
{
    exchange_if_begun(&mut session.managers, manager, &mut session.work.view);
    exchange(&mut session.managers, manager, &mut session.work.context);
    session.work.context.keep();
    session.work.manager = manager;
}

/// The manager's context and layers go back to it, and what its work changed is kept. Takes no
/// memory.
fn keep_work(session: &mut Session, manager: usize)
    requires within { manager < length session.old.managers.items }
    ensures kept { (M : Machine) → IsAway M manager session.old
        → machine_of session.new ≡ kept M manager (now session.old.work) }
    ensures settled { (M : Machine) → IsAway M manager session.old
        → session.old.work.events ≡ [] → IsSettled session.new }
    ensures marked { (u : PersistenceUnit) (M : Machine) → IsAway M manager session.old
        → AreMarkedNow u M manager session.old → AreAllMarked u session.new }
{
    let is_begun = status_of(&session.managers, manager).is_begun();
    session.work.keep(is_begun);
    exchange_if_begun(&mut session.managers, manager, &mut session.work.view);
    exchange(&mut session.managers, manager, &mut session.work.context);
    session.work.context.keep();
}

/// The manager's context and layers go back to it, and what its work changed is undone. Takes no
/// memory.
pub(crate) fn restore(alloc: Global, session: &mut Session, manager: usize)
    requires within { manager < length session.old.managers.items }
    ensures back { (M : Machine) → IsWorking M manager session.old → machine_of session.new
        ≡ M }
    ensures undone { IsUndoneTo manager session.old session.new }
    ensures settled { (M : Machine) → IsWorking M manager session.old → IsSettled session.new }
    ensures marked { (u : PersistenceUnit) (M : Machine) → IsWorking M manager session.old
        → AreMarkedAway u M manager session.old → AreAllMarked u session.new }
{
    session.work.undo(alloc);
    exchange_if_begun(&mut session.managers, manager, &mut session.work.view);
    exchange(&mut session.managers, manager, &mut session.work.context);
    session.work.context.keep();
}

/// A transaction that is open can only roll back.
fn marked(status: Status) -> Status
    ensures { result ≡ serving.marked_status status }
{
    match status {
        Status::Active => Status::RollbackOnly,
        other => other,
    }
}

/// The manager's transaction, where one is open, can only roll back. Takes no memory.
pub(crate) fn mark(session: &mut Session, manager: usize)
    requires within { manager < length session.old.managers.items }
    ensures marked { machine_of session.new ≡ marked (machine_of session.old) manager }
    ensures rest { StaysAtRest session.old session.new }
{
    let status = marked(status_of(&session.managers, manager));
    set_status(&mut session.managers, manager, status);
}

/// The manager looks at each object of its context when it flushes next. Takes no memory.
fn mark_whole(alloc: Global, session: &mut Session, manager: usize)
    requires within { manager < length session.old.managers.items }
    ensures machine { machine_of session.new ≡ machine_of session.old }
    ensures settled { IsSettled session.old → IsSettled session.new }
    ensures count { length session.new.managers.items ≡ length session.old.managers.items }
    ensures own { marks_in session.new manager ≡ all_marked }
    ensures others { (k : ℕ) → k ≢ manager
        → marks_in session.new k ≡ marks_in session.old k }
{
    set_marks(&mut session.managers, manager, Marks::all(alloc));
}

/// And so does each manager. Takes no memory.
fn mark_all(alloc: Global, session: &mut Session)
    ensures machine { machine_of session.new ≡ machine_of session.old }
    ensures settled { IsSettled session.old → IsSettled session.new }
    ensures marked { (u : PersistenceUnit) → AreAllMarked u session.new }
{
    for manager in 0..session.managers.len() {
        mark_whole(alloc, session, manager);
    }
}

/// All is marked, unless marks say still what they said, which they always do. Takes no memory.
pub(crate) fn mark_unless(alloc: Global, session: &mut Session, stay: bool)
    ensures machine { machine_of session.new ≡ machine_of session.old }
    ensures settled { IsSettled session.old → IsSettled session.new }
    ensures marked { (u : PersistenceUnit) → (stay ≡ true → AreAllMarked u session.old)
        → AreAllMarked u session.new }
{
    if !stay {
        mark_all(alloc, session);
    }
}

/// What the manager's work changed is kept, and what it touched is marked. Takes no memory that a
/// caller would see refused.
fn keep_marked(alloc: Global, metamodel: &Metamodel, session: &mut Session, manager: usize)
    requires within { manager < length session.old.managers.items }
    requires ready { IsReady metamodel.now (now session.old.work) }
    requires before { AreMarkedBefore metamodel.now session.old.work }
    ensures kept { (M : Machine) → IsAway M manager session.old
        → machine_of session.new ≡ kept M manager (now session.old.work) }
    ensures settled { (M : Machine) → IsAway M manager session.old
        → session.old.work.events ≡ [] → IsSettled session.new }
    ensures marked { (M : Machine) → IsAway M manager session.old
        → AreMarkedAway metamodel.now M manager session.old
        → AreAllMarked metamodel.now session.new }
{
    mark_anew(alloc, metamodel, &mut session.work);
    let stay = keep_others(&session.work);
    keep_work(session, manager);
    mark_unless(alloc, session, stay);
}

/// Ends an operation of the manager: what it changed is kept, or undone where it was refused. Takes
/// no memory that a caller would see refused.
pub(crate) fn conclude(
    alloc: Global,
    metamodel: &Metamodel,
    session: &mut Session,
    manager: usize,
    answered: Result<Answer, Cause>,
    rule: Rule,
) -> Reply
    requires within { manager < length session.old.managers.items }
    requires ready { OnOk answered (IsReady metamodel.now (now session.old.work)) }
    requires before { AreMarkedBefore metamodel.now session.old.work }
    ensures concludes { (M : Machine) → IsAway M manager session.old →
        OnErr answered (IsWorking M manager session.old) →
        Concludes rule M manager (now session.old.work) answered result (machine_of session.new) }
    ensures rest { (M : Machine) → IsAway M manager session.old →
        OnErr answered (IsWorking M manager session.old) →
        AreMarkedAway metamodel.now M manager session.old → IsAtRest metamodel.now session.new }
    ensures untold { IfErr answered (λ cause. is_store_fault cause ≡ false)
        → tells_fault result ≡ false }
{
    let events = mem::replace(&mut session.work.events, Seq::new(alloc));
    match answered {
        Ok(answer) => {
            keep_marked(alloc, metamodel, session, manager);
            Reply {
                events,
                answer: Ok(answer),
            }
        }
        Err(cause) => {
            restore(alloc, session, manager);
            if is_marked_by(rule, &cause) {
                mark(session, manager);
            }
            Reply {
                events: told_of(alloc, &cause, events),
                answer: Err(Refusal::Because(cause)),
            }
        }
    }
}
