//! The objects and what stands in their bases after a write.
ghost use Rattle.std.specs.Prelude.{◌≡◌, ◌<◌, ◌==◌, true, Some, None, All, length, map, slice_get, IfOk, IfErr, OnOk};
ghost use Rattle.jpa_work.specs.context.Undo.{now, since};
ghost use Rattle.jpa_work.specs.context.Work as works;
ghost use Rattle.jpa_operations.specs.fetch.Grown.{IsReady};
ghost use Rattle.jpa_stored.specs.objects.Sets.{all_distinct};
ghost use Rattle.jpa_value.specs.declared.refusal.Cause.{Cause};
ghost use Rattle.jpa_flush.specs.flush.Flush as flushes;
ghost use Rattle.jpa_flush.specs.flush.Entered.{are_entered};
ghost use Rattle.jpa_flush.specs.flush.Plan as plans;

use crate::flush::held::members_held;
use crate::flush::planning::Planned;
use jpa_model::Metamodel;
use jpa_stored::objects::Stored;
use jpa_value::{Cause, Identity, Seq, TryCopy};
use jpa_work::context::{Base, Entry, Lock, UnitOfWork};
use std::alloc::Global;

/// The lock after a write: one that raises the version does so once.
fn lowered(lock: Lock) -> Lock
    ensures { result ≡ flushes.lowered lock }
{
    match lock {
        Lock::Write | Lock::Read => Lock::Read,
        Lock::Unlocked => Lock::Unlocked,
    }
}

/// The entry of an object that was taken out: it has no base.
fn without_base(entry: &Entry) -> Result<Entry, Cause>
    ensures ok { IfOk result (λ settled. settled ≡ record entry.now { base = None }) }
    ensures err { IfErr result (λ cause. cause ≡ Cause.OutOfMemory) }
{
    Ok(Entry {
        object: entry.object,
        key: entry.key.try_copy()?,
        lock: entry.lock,
        base: None,
    })
}

/// The entry of an object that was written, and whose relations hold these members.
fn settled_entry(
    entry: &Entry,
    stored: &Stored,
    members: Seq<Option<Seq<Identity>>>,
) -> Result<Entry, Cause>
    ensures ok { IfOk result
        (λ settled. settled ≡ plans.learned_entry members stored.now entry.now) }
    ensures err { IfErr result (λ cause. cause ≡ Cause.OutOfMemory) }
{
    Ok(Entry {
        object: entry.object,
        key: entry.key.try_copy()?,
        lock: lowered(entry.lock),
        base: Some(Base {
            stored: stored.try_copy()?,
            members,
        }),
    })
}

/// An object takes the version that was written. Where neither has one, it stays as it is.
fn settle_version(work: &mut UnitOfWork, object: usize, version: Option<i64>) -> Result<(), Cause>
    requires { object < length work.old.objects.now }
    ensures ok { let settled = record (works.object (now work.old) object) { version = version } in
        OnOk result (now work.new ≡ works.with_object object settled (now work.old)) }
    ensures err { IfErr result (λ cause. cause ≡ Cause.OutOfMemory) }
    ensures since { since work.new ≡ since work.old }
{
    let live = &work.objects.as_slice()[object];
    if let (None, None) = (live.version, version) {
        return Ok(());
    }
    let mut settled = live.try_copy()?;
    settled.version = version;
    work.objects.set(object, settled)?;
    Ok(())
}

/// An object that was written takes the version, and the entry at its place in the context what was
/// written as its base, with what its relations hold.
fn settle_written(
    alloc: Global,
    metamodel: &Metamodel,
    work: &mut UnitOfWork,
    place: usize,
    object: usize,
    stored: &Stored,
) -> Result<(), Cause>
    requires ready { IsReady metamodel.now (now work.old) }
    requires object { object < length work.old.objects.now }
    requires place { slice_get (map (λ e. e.object) work.old.context.now) place ≡ Some object }
    ensures ok { OnOk result (now work.new
        ≡ plans.learned metamodel.now object (Some stored.now) (now work.old)) }
    ensures err { IfErr result (λ cause. cause ≡ Cause.OutOfMemory) }
    ensures since { since work.new ≡ since work.old }
{
    let members = members_held(alloc, metamodel, work, object)?;
    settle_version(work, object, stored.version)?;
    let settled = settled_entry(&work.context.as_slice()[place], stored, members)?;
    work.context.set(place, settled)?;
    Ok(())
}

/// The entry at the place in the context of an object that was taken out has no base.
fn settle_taken(work: &mut UnitOfWork, place: usize, _object: usize) -> Result<(), Cause>
    requires place { slice_get (map (λ e. e.object) work.old.context.now) place ≡ Some _object }
    requires distinct { all_distinct (λ a b. a.object == b.object) work.old.context.now ≡ true }
    ensures ok { OnOk result (now work.new ≡ flushes.settled _object None (now work.old)) }
    ensures err { IfErr result (λ cause. cause ≡ Cause.OutOfMemory) }
    ensures since { since work.new ≡ since work.old }
{
    let settled = without_base(&work.context.as_slice()[place])?;
    work.context.set(place, settled)?;
    Ok(())
}

/// What becomes of an object of a plan and of the entry at its place in the context.
fn settle_at(
    alloc: Global,
    metamodel: &Metamodel,
    work: &mut UnitOfWork,
    place: usize,
    planned: &Planned,
) -> Result<(), Cause>
    requires ready { IsReady metamodel.now (now work.old) }
    requires object { planned.now.object < length work.old.objects.now }
    requires place { slice_get (map (λ e. e.object) work.old.context.now) place
        ≡ Some planned.now.object }
    ensures ok { OnOk result (now work.new
        ≡ plans.learned metamodel.now planned.now.object planned.now.stored (now work.old)) }
    ensures err { IfErr result (λ cause. cause ≡ Cause.OutOfMemory) }
    ensures since { since work.new ≡ since work.old }
{
    match &planned.stored {
        None => settle_taken(work, place, planned.object),
        Some(stored) => settle_written(alloc, metamodel, work, place, planned.object, stored),
    }
}

/// Each object of a plan takes the version that was written, and its base is what was written, with
/// what its relations hold; one that was taken out has no base. It looks at the entries of these
/// objects alone.
pub(super) fn settle(
    alloc: Global,
    metamodel: &Metamodel,
    work: &mut UnitOfWork,
    plan: &[Planned],
) -> Result<(), Cause>
    requires ready { IsReady metamodel.now (now work.old) }
    requires objects { All (λ p. p.object < length work.old.objects.now) plan.now }
    requires entered { are_entered plan.now work.old.context.now ≡ true }
    ensures ok { OnOk result
        (now work.new ≡ plans.learned_by metamodel.now plan.now (now work.old)) }
    ensures err { IfErr result (λ cause. cause ≡ Cause.OutOfMemory) }
    ensures since { since work.new ≡ since work.old }
{
    for planned in plan {
        let place = work.context.place_of(planned.object).unwrap();
        settle_at(alloc, metamodel, work, place, planned)?;
    }
    Ok(())
}
