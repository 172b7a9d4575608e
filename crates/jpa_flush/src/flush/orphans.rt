//! Orphans: what a relation that removes orphans held when it was last read or written, and holds
//! no more.
ghost use Rattle.std.specs.Prelude.{◌≡◌, ◌<◌, ◌++◌, true, Some, length, option_copied, IfOk, IfErr, OnOk};
ghost use Rattle.std.specs.List.{list_any};
ghost use Rattle.jpa_value.specs.declared.refusal.Cause.{Cause};
ghost use Rattle.jpa_value.specs.Value.{same_identity};
ghost use Rattle.jpa_stored.specs.objects.Sets.{is_rising};
ghost use Rattle.jpa_behaviour.specs.Served.{world_of_unit};
ghost use Rattle.jpa_work.specs.heap.Objects.{held_at};
ghost use Rattle.jpa_work.specs.context.Carries.{Carries};
ghost use Rattle.jpa_work.specs.context.Steps.{each};
ghost use Rattle.jpa_work.specs.context.Undo.{now};
ghost use Rattle.jpa_work.specs.context.Work as works;
ghost use Rattle.jpa_operations.specs.fetch.Grown.{IsReady};
ghost use Rattle.jpa_flush.specs.flush.Flush as flushes;
ghost use Rattle.jpa_flush.specs.flush.Passes.{Passes};

use crate::flush::differing::known;
use crate::flush::held::held_now;
use jpa_behaviour::{Behaviour, ServedUnit};
use jpa_cascade::{instance, state_of};
use jpa_model::Metamodel;
use jpa_operations::fetch::load;
use jpa_operations::ops::{entry_of, remove};
use jpa_value::{Cause, Identity, Seq, TryCopy, order_identities};
use jpa_work::context::{Base, EntityState, UnitOfWork};
use std::alloc::Global;

/// The base of an object, if it has an entry with one. Takes no memory.
fn base_of(work: &UnitOfWork, object: usize) -> Option<&Base>
    ensures { option_copied result ≡ works.base_of (now work.now) object }
{
    match entry_of(work, object) {
        Some(entry) => entry.base.as_ref(),
        None => None,
    }
}

/// What the base of an object knows of a relation, if there is one and the relation was read. Takes
/// no memory.
fn known_before(work: &UnitOfWork, object: usize, relation: usize) -> Option<&Seq<Identity>>
    ensures { option_copied result
        ≡ flushes.in_base (works.base_of (now work.now) object) relation }
{
    match base_of(work, object) {
        Some(base) => known(base, relation),
        None => None,
    }
}

/// Whether an identity is one of these, which stand in rising order.
fn is_among(ids: &[Identity], id: &Identity) -> bool
    requires rising { is_rising ids.now ≡ true }
    ensures { result ≡ list_any (same_identity id.now) ids.now }
{
    ids.binary_search_by(|other| order_identities(other, id))
        .is_ok()
}

/// Adds the identities that stood in a relation and are not among those that stand there now, in
/// rising order. With n before and k now it compares identities O(n log k) times.
fn push_gone(
    before: &[Identity],
    held: &[Identity],
    orphans: &mut Seq<Identity>,
) -> Result<(), Cause>
    requires rising { is_rising held.now ≡ true }
    ensures gone { OnOk result (orphans.new
        ≡ orphans.old ++ flushes.gone_from (Some before.now) (Some held.now)) }
    ensures err { IfErr result (λ cause. cause ≡ Cause.OutOfMemory) }
{
    for id in before {
        if !is_among(held, id) {
            orphans.push(id.try_copy()?)?;
        }
    }
    Ok(())
}

/// Adds the orphans along a relation that removes them, which stands at this place.
fn push_orphans_along(
    metamodel: &Metamodel,
    work: &UnitOfWork,
    object: usize,
    relation: usize,
    orphans: &mut Seq<Identity>,
) -> Result<(), Cause>
    requires ready { IsReady metamodel.now (now work.now) }
    requires object { object < length work.now.objects.now }
    requires relation { relation < length (works.object (now work.now) object).relations }
    ensures gone { let w = now work.now in OnOk result (orphans.new ≡ orphans.old
        ++ flushes.gone_from (flushes.in_base (works.base_of w object) relation)
        (flushes.held_now metamodel.now w (held_at (works.object w object) relation))) }
    ensures err { IfErr result (λ cause. cause ≡ Cause.OutOfMemory) }
{
    let Some(before) = known_before(work, object, relation) else {
        return Ok(());
    };
    let held = &work.objects.as_slice()[object].relations.as_slice()[relation];
    match held_now(metamodel, work, held)? {
        Some(held) => push_gone(before.as_slice(), held.as_slice(), orphans),
        None => Ok(()),
    }
}

/// The orphans of an object, if it is managed: relation by relation, in the order in which its base
/// has them. Fails for want of memory alone, with `OutOfMemory`; takes none where no relation of
/// its class removes orphans.
pub(super) fn orphans_of(
    alloc: Global,
    metamodel: &Metamodel,
    work: &UnitOfWork,
    object: usize,
) -> Result<Seq<Identity>, Cause>
    requires ready { IsReady metamodel.now (now work.now) }
    requires object { object < length work.now.objects.now }
    ensures ok { let w = now work.now in
        IfOk result (λ ids. ids
        ≡ flushes.orphans_of metamodel.now w object (works.state_of w object)) }
    ensures err { IfErr result (λ cause. cause ≡ Cause.OutOfMemory) }
{
    let mut orphans = Seq::new(alloc);
    if !matches!(state_of(work, object), EntityState::Managed) {
        return Ok(orphans);
    }
    let relations = metamodel.relations_of(work.objects.as_slice()[object].class);
    for relation in 0..relations.len() {
        if relations[relation].orphan_removal {
            push_orphans_along(metamodel, work, object, relation, &mut orphans)?;
        }
    }
    Ok(orphans)
}

/// Removes the instance of an orphan, if it is managed. Refused as `remove` is.
fn remove_instance<B: Behaviour>(
    alloc: Global,
    unit: &ServedUnit<B>,
    work: &mut UnitOfWork,
    object: usize,
) -> Result<(), Cause>
    requires ready { IsReady unit.now.metamodel (now work.old) }
    requires object { object < length work.old.objects.now }
    ensures { let world = world_of_unit B.meaning unit.now in
        Carries (flushes.remove_instance world object (works.state_of (now work.old) object))
        result work.old work.new }
{
    match state_of(work, object) {
        EntityState::Managed => remove(alloc, unit, work, object),
        EntityState::New | EntityState::Removed | EntityState::Detached => Ok(()),
    }
}

/// Removes an orphan: its instance in the context, if that is managed; without one its row, which
/// is loaded first. Refused as `load` and `remove` are.
fn remove_orphan<B: Behaviour>(
    alloc: Global,
    unit: &ServedUnit<B>,
    work: &mut UnitOfWork,
    id: &Identity,
) -> Result<(), Cause>
    requires ready { IsReady unit.now.metamodel (now work.old) }
    ensures { let world = world_of_unit B.meaning unit.now in
        Carries (flushes.remove_orphan world id.now) result work.old work.new }
{
    if let Some(object) = instance(&unit.metamodel, work, id) {
        return remove_instance(alloc, unit, work, object);
    }
    let Some(row) = work.view.get(id) else {
        return Ok(());
    };
    let row = row.try_copy()?;
    let object = load(alloc, unit, work, id, row)?;
    remove(alloc, unit, work, object)
}

/// Removes the orphans of an object. Refused as `remove_orphan` is.
fn remove_orphans_of<B: Behaviour>(
    alloc: Global,
    unit: &ServedUnit<B>,
    work: &mut UnitOfWork,
    object: usize,
) -> Result<(), Cause>
    requires ready { IsReady unit.now.metamodel (now work.old) }
    requires object { object < length work.old.objects.now }
    ensures { let w = now work.old in
        let world = world_of_unit B.meaning unit.now in
        Carries (each (flushes.remove_orphan world)
        (flushes.orphans_of unit.now.metamodel w object (works.state_of w object)))
        result work.old work.new }
{
    let orphans = orphans_of(alloc, &unit.metamodel, work, object)?;
    for id in orphans.as_slice() {
        remove_orphan(alloc, unit, work, id)?;
    }
    Ok(())
}

/// Removes the orphans of a context's managed objects: what stood in a relation that removes
/// orphans when it was last read or written, and doesn't stand there now (Jakarta Persistence 3.1,
/// chapters 2.9 and 3.2.4). An orphan without an instance is loaded, and PostLoad and PreRemove
/// happen to it; one that is new, removed or detached stays as it is. What enters the context
/// meanwhile is not looked at.
///
/// Refused as loading and `remove` are; what a refused call changed is undone by
/// `UnitOfWork::undo`. Where no relation removes orphans, it looks at each entry once and takes no
/// memory.
pub(super) fn remove_orphans<B: Behaviour>(
    alloc: Global,
    unit: &ServedUnit<B>,
    work: &mut UnitOfWork,
) -> Result<(), Cause>
    requires ready { IsReady unit.now.metamodel (now work.old) }
    ensures { let world = world_of_unit B.meaning unit.now in
        Passes unit.now.metamodel (flushes.remove_orphans world) result work.old work.new }
{
    // the entries of the start stay at their places
    for i in 0..work.context.len() {
        let object = work.context.as_slice()[i].object;
        remove_orphans_of(alloc, unit, work, object)?;
    }
    Ok(())
}
