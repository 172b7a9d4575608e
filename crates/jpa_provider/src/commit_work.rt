//! What a commit does before it stores (Jakarta Persistence 3.1, chapters 3.4 and 7.5).
ghost use Rattle.std.specs.Prelude.{◌≡◌, ◌<◌, ◌&&◌, ◌++◌, length, map, true, IfErr, IfOk, OnOk};
ghost use Rattle.jpa_behaviour.specs.Served.{world_of_unit};
ghost use Rattle.jpa_work.specs.context.Steps.{after, change, Ends, Meets};
ghost use Rattle.jpa_work.specs.context.Undo.{now, since};
ghost use Rattle.jpa_work.specs.context.Work.{is_managed, state_from, state_of};
ghost use Rattle.jpa_operations.specs.fetch.Grown.{IsReady};
ghost use Rattle.jpa_flush.specs.flush.Changes.{place_of};
ghost use Rattle.jpa_flush.specs.flush.Flush as flushes;
ghost use Rattle.jpa_flush.specs.flush.Marked.{is_calm, AreLooked};
ghost use Rattle.jpa_open.specs.Differences.{differing, merged};
ghost use Rattle.jpa_constraints.specs.Changed.{class_at};
ghost use Rattle.jpa_machine.specs.machine.Transactions as transactions;
ghost use Rattle.jpa_open.specs.Opened.{AreAllChanged};
ghost use Rattle.jpa_provider.specs.Stages.{CanCommit, CanMerge, IsFound};
ghost use Rattle.jpa_stored.specs.objects.Sets.{fault_of};
ghost use Rattle.jpa_updates.specs.Updates.{with_view};
ghost use Rattle.jpa_value.specs.declared.refusal.Cause.{Cause};

use jpa_behaviour::{Behaviour, ServedUnit};
use jpa_constraints::{Change, judge};
use jpa_flush::flush::{Looked, calm_laws, flush, looked, reads_hold};
use jpa_model::Metamodel;
use jpa_open::OpenSet;
use jpa_value::{Cause, Identity, Seq};
use jpa_work::context::{Entry, Lock, UnitOfWork};
use jpa_work::heap::{Life, identity_of};
use std::alloc::Global;

/// Whether an object in this state is managed by the manager.
fn is_managed_by(life: Life, manager: usize) -> bool
    ensures { result ≡ is_managed (state_from manager life) }
{
    match life {
        Life::Managed(holder) => holder == manager,
        _ => false,
    }
}

/// Whether an entry's object is managed and locked to be read.
fn is_read(work: &UnitOfWork, entry: &Entry) -> bool
    requires { entry.now.object < length work.now.objects.now }
    ensures { result ≡ (flushes.is_read_lock entry.now.lock
        && is_managed (state_of (now work.now) entry.now.object)) }
{
    let life = work.objects.as_slice()[entry.object].life;
    matches!(entry.lock, Lock::Read) && is_managed_by(life, work.manager)
}

/// Adds the identity of an entry's object, where that is managed and locked to be read.
fn push_locked(
    metamodel: &Metamodel,
    work: &UnitOfWork,
    entry: &Entry,
    locked: &mut Seq<Identity>,
) -> Result<(), Cause>
    requires ready { IsReady metamodel.now (now work.now) }
    requires object { entry.now.object < length work.now.objects.now }
    ensures ok { OnOk result (locked.new
        ≡ locked.old ++ transactions.read_along metamodel.now (now work.now) entry.now) }
    ensures err { IfErr result (λ cause. cause ≡ Cause.OutOfMemory) }
{
    if !is_read(work, entry) {
        return Ok(());
    }
    if let Some(id) = identity_of(metamodel, &work.objects.as_slice()[entry.object])? {
        locked.push(id)?;
    }
    Ok(())
}

/// The identities of the managed objects that are locked to be read; of the entries at other places
/// than these none is.
fn locked_ids(
    alloc: Global,
    metamodel: &Metamodel,
    work: &UnitOfWork,
    places: &[usize],
) -> Result<Seq<Identity>, Cause>
    requires ready { IsReady metamodel.now (now work.now) }
    requires looked { AreLooked (λ e. is_calm metamodel.now (now work.now) e ≡ true)
        work.now.context.now places.now }
    ensures ok { IfOk result (λ ids. ids ≡ transactions.locked_ids metamodel.now (now work.now)) }
    ensures err { IfErr result (λ cause. cause ≡ Cause.OutOfMemory) }
{
    let mut locked = Seq::new(alloc);
    for place in places {
        let entry = &work.context.as_slice()[*place];
        push_locked(metamodel, work, entry, &mut locked)?;
    }
    Ok(locked)
}

/// Whether no other transaction committed, since this one's begin, what it changed, which is under
/// these identities, or holds locked to be read (the first committer wins), and what it read under
/// a lock has the version that it had then. It looks at the entries at these places alone.
fn is_current(
    alloc: Global,
    metamodel: &Metamodel,
    work: &UnitOfWork,
    ids: &[Identity],
    places: &[usize],
) -> Result<bool, Cause>
    requires ready { IsReady metamodel.now (now work.now) }
    requires looked { AreLooked (λ e. is_calm metamodel.now (now work.now) e ≡ true)
        work.now.context.now places.now }
    requires ids { ids.now ≡ differing work.now.view.begun (now work.now).view }
    ensures ok { IfOk result (λ current. current ≡ (transactions.is_current metamodel.now
        work.now.view.committed work.now.view.begun (now work.now)
        && flushes.reads_hold metamodel.now (now work.now))) }
    ensures err { IfErr result (λ cause. cause ≡ Cause.OutOfMemory) }
{
    if !work.view.all_stand(ids) {
        return Ok(false);
    }
    let locked = locked_ids(alloc, metamodel, work, places)?;
    if !work.view.all_stand(locked.as_slice()) {
        return Ok(false);
    }
    reads_hold(metamodel, work, places)
}

/// The class of what is committed under an identity, if anything is.
fn committed_class(view: &OpenSet, id: &Identity) -> Option<usize>
    ensures { result ≡ class_at view.now.committed id.now }
{
    match view.committed(id) {
        None => None,
        Some(stored) => Some(stored.class),
    }
}

/// The changes of what is committed under these identities.
fn changes_of<'a>(
    alloc: Global,
    view: &OpenSet,
    ids: &'a [Identity],
) -> Result<Vec<Change<'a>>, Cause>
    ensures ok { IfOk result (λ changes. map place_of changes.items
        ≡ map (λ id. (id, class_at view.now.committed id)) ids.now) }
    ensures err { IfErr result (λ cause. cause ≡ Cause.OutOfMemory) }
{
    let mut changes = Vec::new(alloc);
    for id in ids {
        changes.push(Change {
            id,
            class_before: committed_class(view, id),
        })?;
    }
    Ok(changes)
}

/// What others committed since the begin is seen too, but where the transaction changed something,
/// which is under these identities; else `Persistence` with `Null`, `Reference` or `Unique` where
/// that set isn't sound. With c changes and r references of these it is judged in O((c + r) log n)
/// steps, and what was kept back for the transaction is walked once.
fn merge(
    alloc: Global,
    metamodel: &Metamodel,
    work: &mut UnitOfWork,
    ids: &[Identity],
) -> Result<(), Cause>
    requires { CanMerge metamodel.now work.old ids.now }
    ensures meets { let view = work.old.view in
        let set = merged view.committed view.begun view.seen in
        Meets result (now work.new) (after (flushes.sound_or (fault_of metamodel.now set)
        (now work.old)) (λ _. change (with_view set))) }
    ensures since { since work.new ≡ since work.old }
    ensures others { work.new ≡ record work.old { view = work.new.view } }
    ensures elsewhere { OnOk result (AreAllChanged work.new.view ids.now) }
{
    work.view.rebase()?;
    let changes = changes_of(alloc, &work.view, ids)?;
    judge(metamodel, &work.view, changes.as_slice())
}

/// What a commit found before it stores: the identities under which the set that it sees differs
/// from what is committed, rising, and the places of the entries that its end looks at.
#[derive(Drop)]
pub(crate) struct Found {
    pub ids: Seq<Identity>,
    pub looked: Looked,
}

/// What a commit does before it stores: the flush; then what the transaction changed, and what it
/// holds locked to be read, is to be committed as it was at its begin, else `OptimisticLock`
/// (chapter 3.4.4.1); then it sees what others committed since, too, and that set is to be sound,
/// else `Persistence` with `Null`, `Reference` or `Unique`. Refused as the flush is, too.
///
/// Entries at other places than those that it answers are untouched.
pub(crate) fn commit_work<B: Behaviour>(
    alloc: Global,
    unit: &ServedUnit<B>,
    work: &mut UnitOfWork,
) -> Result<Found, Cause>
    requires { CanCommit (world_of_unit B.meaning unit.now) work.old }
    ensures meets { Ends result (now work.new)
        (transactions.commit_work (world_of_unit B.meaning unit.now) work.old.view.committed
        work.old.view.begun (now work.old)) }
    ensures since { since work.new ≡ since work.old }
    ensures found { IfOk result (λ found. IsFound unit.now.metamodel work.new found) }
{
    flush(alloc, unit, work)?;
    calm_laws();
    let looked = looked(alloc, &unit.metamodel, work)?;
    let ids = work.view.differing()?;
    let places = looked.places.as_slice();
    if !is_current(alloc, &unit.metamodel, work, ids.as_slice(), places)? {
        return Err(Cause::OptimisticLock);
    }
    merge(alloc, &unit.metamodel, work, ids.as_slice())?;
    Ok(Found { ids, looked })
}
