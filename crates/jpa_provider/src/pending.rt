//! The call pending: which callbacks a flush would run before it writes.
ghost use Rattle.std.specs.Prelude.{◌≡◌, false, filter, map, IfOk, IfErr};
ghost use Rattle.jpa_value.specs.declared.refusal.Cause.{Cause};
ghost use Rattle.jpa_behaviour.specs.Served.{world_of_unit};
ghost use Rattle.jpa_work.specs.context.Undo.{now, since};
ghost use Rattle.jpa_flush.specs.flush.Flush as flushes;
ghost use Rattle.jpa_protocol.specs.declared.call.Call.{Call};
ghost use Rattle.jpa_machine.specs.machine.Faults.{tells_fault};
ghost use Rattle.jpa_machine.specs.machine.Pending as pending;
ghost use Rattle.jpa_provider.specs.Stages.{CanFlush};
ghost use Rattle.jpa_provider.specs.Serving.{IsAtRest, IsServing, Serves};

use crate::at_work::{manager_named, restore, take_work};
use crate::replies::{accepted, because};
use crate::session::{Session, status_of};
use jpa_behaviour::{Behaviour, ServedUnit};
use jpa_flush::flush::flush;
use jpa_protocol::{Answer, Due, Reply, Told};
use jpa_value::{Cause, LifecycleEvent, Seq};
use jpa_work::context::UnitOfWork;
use std::alloc::Global;

/// Whether an event comes before its write.
fn is_before(event: LifecycleEvent) -> bool
    ensures { result ≡ pending.is_before event }
{
    match event {
        LifecycleEvent::PrePersist | LifecycleEvent::PreRemove | LifecycleEvent::PreUpdate => true,
        _ => false,
    }
}

/// Whether an event is told, of which so many objects stood before.
fn is_due(told: &Told, count: usize) -> bool
    ensures { result ≡ pending.is_due count told.now }
{
    is_before(told.event) && told.object <= count as u64
}

/// The events that are told. Fails for want of memory alone, with `OutOfMemory`.
fn due_of(alloc: Global, events: &[Told], count: usize) -> Result<Seq<Due>, Cause>
    ensures ok { IfOk result (λ due. due ≡ map pending.due
        (filter (pending.is_due count) events.now)) }
    ensures err { IfErr result (λ cause. cause ≡ Cause.OutOfMemory) }
{
    let mut list = Seq::new(alloc);
    for told in events {
        if is_due(told, count) {
            list.push(Due {
                event: told.event,
                object: told.object,
            })?;
        }
    }
    Ok(list)
}

/// What a flush of a manager at work tells before its writes. Fails for want of memory alone, with
/// `OutOfMemory`.
fn flushed_due<B: Behaviour>(
    alloc: Global,
    unit: &ServedUnit<B>,
    work: &mut UnitOfWork,
    count: usize,
) -> Result<Seq<Due>, Cause>
    requires { CanFlush unit.now.metamodel work.old }
    ensures ok { IfOk result (λ due. due ≡ map pending.due (filter (pending.is_due count)
        (pending.events_of (flushes.flush (world_of_unit B.meaning unit.now) (now work.old))))) }
    ensures err { IfErr result (λ cause. cause ≡ Cause.OutOfMemory) }
    ensures since { since work.new ≡ since work.old }
{
    if let Err(Cause::OutOfMemory) = flush(alloc, unit, work) {
        return Err(Cause::OutOfMemory);
    }
    due_of(alloc, work.events.as_slice(), count)
}

/// The call pending. What the flush did is undone. `TransactionRequired` where none is open.
#[tactic(auto, using(crate::proofs::Own::pending_alone))]
pub(crate) fn pending_call<B: Behaviour>(
    alloc: Global,
    unit: &ServedUnit<B>,
    session: &mut Session,
    em: i64,
) -> Reply
    requires serving { IsServing (world_of_unit B.meaning unit.now) session.old }
    ensures step { Serves (world_of_unit B.meaning unit.now) session.old
        (Call.Pending em) result session.new }
    ensures untold { tells_fault result ≡ false }
    ensures rest { IsAtRest unit.now.metamodel session.new }
{
    let Some(manager) = manager_named(session, em) else {
        return because(alloc, Cause::NoSuchManager);
    };
    if !status_of(&session.managers, manager).is_begun() {
        return because(alloc, Cause::TransactionRequired);
    }
    let count = session.work.objects.len();
    take_work(session, manager);
    let due = flushed_due(alloc, unit, &mut session.work, count);
    restore(alloc, session, manager);
    match due {
        Ok(due) => accepted(alloc, Answer::Due(due)),
        Err(cause) => because(alloc, cause),
    }
}
