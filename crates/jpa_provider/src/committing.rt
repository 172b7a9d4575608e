//! The call commit (Jakarta Persistence 3.1, chapters 7.5 and 3.4).
ghost use Rattle.std.specs.Prelude.{◌≡◌, ◌<◌, [], All, ℤ, false, true, length, map, not, IfOk, IsErr, Some};
ghost use Rattle.std.specs.List.{filter};
ghost use Rattle.jpa_behaviour.specs.Behaviour.{World};
ghost use Rattle.jpa_behaviour.specs.Served.{world_of_unit};
ghost use Rattle.jpa_work.specs.context.Undo.{now, since};
ghost use Rattle.jpa_work.specs.context.Work.{is_managed, is_removed, state_from, state_of, unlocked};
ghost use Rattle.jpa_work.specs.declared.context.Lock.{Lock};
ghost use Rattle.jpa_flush.specs.flush.Marked.{AreLooked};
ghost use Rattle.jpa_protocol.specs.declared.call.Call.{Call};
ghost use Rattle.jpa_machine.specs.machine.Faults.{is_store_fault, tells_fault, faults_after_reply};
ghost use Rattle.jpa_machine.specs.machine.Invariant.{IsMachine};
ghost use Rattle.jpa_machine.specs.machine.Machine.{Machine, committed_after, is_gone};
ghost use Rattle.jpa_rows.specs.rows.Commits.{Commits};
ghost use Rattle.jpa_machine.specs.machine.Step.{IsGivenUp};
ghost use Rattle.jpa_provider.specs.declared.session.Status.{Status};
ghost use Rattle.jpa_provider.specs.Stages.{CanEnd, CanStore, StoresWork};
ghost use Rattle.jpa_provider.specs.Serving as serving;
ghost use Rattle.jpa_provider.specs.Serving.{machine_of, manager_in, named, rows_before, rows_seen, AreAllMarked, AreMarkedAway, IsAtRest, IsCommitting, IsServingOver, IsSettled, Serves, StoresServing};

use crate::at_work::{manager_named, mark_unless, restore, take_work};
use crate::beside::make_room;
use crate::commit_work::commit_work;
use crate::ending::{detach_objects, release};
use crate::replies::because;
use crate::session::{Session, Status, end_transaction, exchange, status_of};
use jpa_behaviour::{Behaviour, ServedUnit};
use jpa_flush::flush::Looked;
use jpa_flush::marking::{keep_others, mark_committed, other_laws};
use jpa_model::Metamodel;
use jpa_object_rows::store::write;
use jpa_protocol::{Answer, Reply};
use jpa_rows::rows::RowSource;
use jpa_value::{Cause, Identity, Refusal, Seq, State};
use jpa_work::context::{Entry, PersistenceContext, UnitOfWork};
use jpa_work::heap::Life;
use std::alloc::{AllocError, Global};
use std::mem;

/// Whether code gave up, for want of memory or a fault of the store.
fn gave_up(cause: &Cause) -> bool
    ensures { result ≡ serving.gave_up cause.now }
{
    matches!(cause, Cause::OutOfMemory | Cause::StoreFault)
}

/// Ends a commit that was refused before it stored: what it changed is undone, and the transaction
/// rolls back, unless code gave up.
fn refuse_commit(alloc: Global, session: &mut Session, manager: usize, cause: Cause) -> Reply
    requires within { manager < length session.old.managers.items }
    requires entries { All (λ e. e.object < length (since session.old.work).objects)
        (since session.old.work).context }
    ensures refuses { (M : Machine) → IsCommitting M manager session.old →
        serving.Refuses M manager session.old.work.events cause result (machine_of session.new) }
    ensures settled { (M : Machine) → IsCommitting M manager session.old →
        IsSettled session.new }
    ensures marked { (world : World) (M : Machine) → IsMachine world M
        → IsCommitting M manager session.old → AreMarkedAway world.model M manager session.old
        → AreAllMarked world.model session.new }
    ensures untold { is_store_fault cause ≡ false → tells_fault result ≡ false }
{
    let events = mem::replace(&mut session.work.events, Seq::new(alloc));
    restore(alloc, session, manager);
    if gave_up(&cause) {
        return because(alloc, cause);
    }
    release(alloc, session, manager);
    Reply {
        events,
        answer: Err(Refusal::Rollback(cause)),
    }
}

/// The objects of a context that are removed, in its order; those of the entries at other places
/// than these are managed.
fn removed_of(alloc: Global, work: &UnitOfWork, places: &[usize]) -> Result<Seq<usize>, AllocError>
    requires entries { All (λ e. e.object < length work.now.objects.now) work.now.context.now }
    requires looked { AreLooked (λ e. is_managed (state_of (now work.now) e.object) ≡ true)
        work.now.context.now places.now }
    ensures { IfOk result (λ gone. gone ≡ serving.gone_objects (now work.now)) }
{
    let mut gone = Seq::new(alloc);
    for place in places {
        let entry = &work.context.as_slice()[*place];
        if leaves(work, entry) {
            gone.push(entry.object)?;
        }
    }
    Ok(gone)
}

/// Whether an entry leaves with the commit: whether its object is removed.
fn leaves(work: &UnitOfWork, entry: &Entry) -> bool
    requires { entry.now.object < length work.now.objects.now }
    ensures { result ≡ is_gone (now work.now) entry.now }
{
    let life = work.objects.as_slice()[entry.object].life;
    is_removed_by(life, work.manager)
}

/// Whether an object in this state is removed for the manager.
fn is_removed_by(life: Life, manager: usize) -> bool
    ensures { result ≡ is_removed (state_from manager life) }
{
    match life {
        Life::Removed(holder) => holder == manager,
        _ => false,
    }
}

/// A copy of the next numbers.
fn copied(alloc: Global, numbers: &[u64]) -> Result<Seq<u64>, AllocError>
    ensures { IfOk result (λ copy. copy ≡ numbers.now) }
{
    let mut copy = Seq::new(alloc);
    for number in numbers {
        copy.push(*number)?;
    }
    Ok(copy)
}

/// The locks of a context end; at other places than these there is none. Takes no memory.
fn end_locks(alloc: Global, context: &mut PersistenceContext, places: &[usize])
    requires { AreLooked (λ e. e.lock ≡ Lock.Unlocked) context.old.now places.now }
    ensures now { context.new.now ≡ map unlocked context.old.now }
    ensures marks { context.new.marks ≡ context.old.marks }
{
    for place in places {
        context.unlock_at(alloc, *place);
    }
}

/// The context as a commit leaves it: its locks end, and the entries of the removed objects, which
/// are these, leave. At other places than these there is no lock. Takes no memory, and looks at
/// other entries only where an object is removed.
fn end_context(alloc: Global, work: &mut UnitOfWork, places: &[usize], gone: &[usize])
    requires looked { AreLooked (λ e. e.lock ≡ Lock.Unlocked)
        work.old.context.now places.now }
    requires gone { gone.now ≡ serving.gone_objects (now work.old) }
    ensures now { work.new.context.now ≡ map unlocked
        (filter (λ e. not (is_gone (now work.old) e)) work.old.context.now) }
    ensures marks { work.new.context.marks ≡ work.old.context.marks }
    ensures others { work.new ≡ record work.old { context = work.new.context } }
{
    end_locks(alloc, &mut work.context, places);
    if gone.is_empty() {
        return;
    }
    work.context
        .leave_removed(work.objects.as_slice(), work.manager);
}

/// Ends a commit that was stored: what the manager's work changed is kept, the removed objects are
/// detached, its locks end, and its transaction is over. The transactions of others see what they
/// saw. Takes no memory that could be refused.
fn end_commit(
    alloc: Global,
    metamodel: &Metamodel,
    session: &mut Session,
    manager: usize,
    next: Seq<u64>,
    gone: &[usize],
    looked: &Looked,
)
    requires { CanEnd metamodel.now manager session.old next gone.now looked.now }
    ensures ended { (M : Machine) → IsCommitting M manager session.old
        → machine_of session.new ≡ committed_after M manager (now session.old.work) }
    ensures settled { (M : Machine) → IsCommitting M manager session.old
        → session.old.work.events ≡ [] → IsSettled session.new }
    ensures marked { (M : Machine) → IsCommitting M manager session.old
        → AreMarkedAway metamodel.now M manager session.old
        → AreAllMarked metamodel.now session.new }
{
    other_laws();
    mark_committed(alloc, metamodel, &mut session.work, looked);
    let stay = keep_others(&session.work);
    end_context(alloc, &mut session.work, looked.places.as_slice(), gone);
    detach_objects(alloc, &mut session.work.objects, gone);
    session.work.view.commit();
    session.work.keep(true);
    exchange(&mut session.managers, manager, &mut session.work.context);
    session.work.context.keep();
    end_transaction(alloc, &mut session.managers, manager);
    session.stored = next;
    mark_unless(alloc, session, stay);
}

/// Stores what the transaction changed, which stands under these identities alone, and the next
/// numbers; the transaction is committed then. What it changed is kept back for others before, so
/// that nothing is refused once it is stored.
#[tactic(auto, using(crate::proofs::Told::as_told))]
fn store_commit<R: RowSource, B: Behaviour>(
    alloc: Global,
    unit: &ServedUnit<B>,
    session: &mut Session,
    rows: &mut R,
    manager: usize,
    ids: &[Identity],
    looked: &Looked,
) -> Reply
    requires { CanStore (world_of_unit B.meaning unit.now) R.RowSource manager
        session.old rows.old ids.now looked.now }
    ensures ends { (M : Machine) → IsCommitting M manager session.old
        → StoresWork (world_of_unit B.meaning unit.now) R.RowSource M manager
        session.old result session.new rows.old rows.new }
    ensures commits { let world = world_of_unit B.meaning unit.now in
        Commits R.RowSource (faults_after_reply result) result.answer
        (rows_before world session.old) (rows_seen world session.old) rows.old rows.new }
    ensures refused { IsErr result.answer → IsGivenUp result }
{
    let (next, gone) = match at_hand(alloc, &session.work, looked) {
        Ok(both) => both,
        Err(_) => {
            restore(alloc, session, manager);
            return because(alloc, Cause::OutOfMemory);
        }
    };
    let room = make_room(
        &mut session.managers,
        session.open_places.as_slice(),
        manager,
        &mut session.work.view,
        ids,
    );
    if let Err(cause) = room {
        restore(alloc, session, manager);
        return because(alloc, cause);
    }
    let stored = write(
        alloc,
        &unit.metamodel,
        &unit.registry,
        rows,
        &session.work.view,
        ids,
        session.stored.as_slice(),
        next.as_slice(),
    );
    if let Err(cause) = stored {
        restore(alloc, session, manager);
        return because(alloc, cause);
    }
    let events = mem::replace(&mut session.work.events, Seq::new(alloc));
    let gone = gone.as_slice();
    end_commit(alloc, &unit.metamodel, session, manager, next, gone, looked);
    Reply {
        events,
        answer: Ok(Answer::Null),
    }
}

/// What the end of a commit needs, so that it takes no memory: the next numbers, and the objects
/// that are removed; those of the entries at other places than these are managed.
fn at_hand(
    alloc: Global,
    work: &UnitOfWork,
    looked: &Looked,
) -> Result<(Seq<u64>, Seq<usize>), AllocError>
    requires entries { All (λ e. e.object < length work.now.objects.now) work.now.context.now }
    requires looked { AreLooked (λ e. is_managed (state_of (now work.now) e.object) ≡ true)
        work.now.context.now looked.now.places }
    ensures next { IfOk result (λ both. both.0 ≡ work.now.numbers.now) }
    ensures gone { IfOk result (λ both. both.1 ≡ serving.gone_objects (now work.now)) }
{
    let next = copied(alloc, work.numbers.as_slice())?;
    let gone = removed_of(alloc, work, looked.places.as_slice())?;
    Ok((next, gone))
}

/// Commits the open transaction of the manager.
fn commit_active<R: RowSource, B: Behaviour>(
    alloc: Global,
    unit: &ServedUnit<B>,
    session: &mut Session,
    rows: &mut R,
    manager: usize,
) -> Reply
    requires within { manager < length session.old.managers.items }
    requires active { (manager_in session.old.managers.items manager).status ≡ Status.Active }
    requires over { IsServingOver (world_of_unit B.meaning unit.now) R.RowSource
        session.old rows.old }
    ensures step { (em : ℤ) → named session.old em ≡ Some manager → Serves
        (world_of_unit B.meaning unit.now) session.old (Call.Commit em) result session.new }
    ensures rest { IsAtRest unit.now.metamodel session.new }
    ensures stores { let world = world_of_unit B.meaning unit.now in
        (em : ℤ) → named session.old em ≡ Some manager → StoresServing world R.RowSource
        session.old (Call.Commit em) result session.new rows.old rows.new }
{
    take_work(session, manager);
    match commit_work(alloc, unit, &mut session.work) {
        Err(cause) => refuse_commit(alloc, session, manager, cause),
        Ok(found) => {
            let ids = found.ids.as_slice();
            store_commit(alloc, unit, session, rows, manager, ids, &found.looked)
        }
    }
}

/// The call commit.
pub(crate) fn commit_call<R: RowSource, B: Behaviour>(
    alloc: Global,
    unit: &ServedUnit<B>,
    session: &mut Session,
    rows: &mut R,
    em: i64,
) -> Reply
    requires { IsServingOver (world_of_unit B.meaning unit.now) R.RowSource session.old rows.old }
    ensures step { let world = world_of_unit B.meaning unit.now in
        Serves world session.old (Call.Commit em) result session.new }
    ensures rest { IsAtRest unit.now.metamodel session.new }
    ensures stores { StoresServing (world_of_unit B.meaning unit.now) R.RowSource session.old
        (Call.Commit em) result session.new rows.old rows.new }
{
    let Some(manager) = manager_named(session, em) else {
        return because(alloc, Cause::NoSuchManager);
    };
    match status_of(&session.managers, manager) {
        Status::Active => commit_active(alloc, unit, session, rows, manager),
        Status::RollbackOnly => {
            release(alloc, session, manager);
            Reply {
                events: Seq::new(alloc),
                answer: Err(Refusal::RollbackMarked),
            }
        }
        Status::Inactive | Status::Closed => because(alloc, Cause::IllegalState(State::Inactive)),
    }
}
