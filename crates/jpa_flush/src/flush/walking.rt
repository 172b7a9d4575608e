//! Walks over the entries that a flush looks at, in the place of walks over all.
ghost use Rattle.std.specs.Prelude.{◌≡◌, ◌<◌, ◌==◌, All, length, true, IfOk, IfErr, OnOk};
ghost use Rattle.std.specs.List.{list_any};
ghost use Rattle.jpa_value.specs.declared.refusal.Cause.{Cause};
ghost use Rattle.jpa_behaviour.specs.Behaviour.{World};
ghost use Rattle.jpa_behaviour.specs.Served.{world_of_unit};
ghost use Rattle.jpa_work.specs.context.Steps.{Ends, Meets};
ghost use Rattle.jpa_work.specs.context.Undo.{now, since};
ghost use Rattle.jpa_operations.specs.fetch.Grown.{IsReady};
ghost use Rattle.jpa_operations.specs.fetch.Orderly.{IsOrderly};
ghost use Rattle.jpa_flush.specs.flush.Flush as flushes;
ghost use Rattle.jpa_flush.specs.flush.Plan as plans;
ghost use Rattle.jpa_flush.specs.flush.Marked as marked;
ghost use Rattle.jpa_flush.specs.flush.Passes.{Passes};

use crate::flush::leading::is_linked;
use crate::flush::links::links_stored;
use crate::flush::orphans::{orphans_of, remove_orphans};
use crate::flush::planning::{Planned, plan_one};
use crate::flush::reaching::persist_reachable;
use crate::flush::remembering::outdated;
use crate::flush::steps::step_of;
use crate::flush::telling::tell_update;
use jpa_behaviour::{Behaviour, ServedUnit};
use jpa_cascade::state_of;
use jpa_model::Metamodel;
use jpa_value::{Cause, Seq, State};
use jpa_work::context::{EntityState, UnitOfWork};
use std::alloc::Global;

/// Whether an object is linked, if it is managed.
fn is_linked_if_managed(metamodel: &Metamodel, work: &UnitOfWork, object: usize) -> bool
    requires ready { IsReady metamodel.now (now work.now) }
    requires object { object < length work.now.objects.now }
    ensures { result ≡ marked.is_linked_if_managed metamodel.now (now work.now) object }
{
    if !matches!(state_of(work, object), EntityState::Managed) {
        return true;
    }
    is_linked(metamodel, work, object)
}

/// Whether each managed object of a context is linked; of the entries at other places it is known.
/// Takes no memory.
fn are_linked(metamodel: &Metamodel, work: &UnitOfWork, places: &[usize]) -> bool
    requires ready { IsReady metamodel.now (now work.now) }
    requires looked { marked.AreLooked (λ e. marked.is_linked_if_managed metamodel.now
        (now work.now) e.object ≡ true) work.now.context.now places.now }
    ensures { result ≡ marked.are_linked metamodel.now (now work.now) }
{
    for place in places {
        let object = work.context.as_slice()[*place].object;
        if !is_linked_if_managed(metamodel, work, object) {
            return false;
        }
    }
    true
}

/// Persists what the managed objects of a context lead to along relations that cascade persist, as
/// `persist_reachable`. Where each managed object among these leads to managed ones alone, as all
/// others do, it looks at no other, and nothing is to be done.
pub(super) fn persist_from_looked<B: Behaviour>(
    alloc: Global,
    unit: &ServedUnit<B>,
    work: &mut UnitOfWork,
    places: &[usize],
) -> Result<(), Cause>
    requires orderly { IsOrderly unit.now.metamodel }
    requires ready { IsReady unit.now.metamodel (now work.old) }
    requires entered { marked.AreEntered (now work.old) }
    requires looked { marked.AreLooked (λ e. marked.is_linked_if_managed unit.now.metamodel
        (now work.old) e.object ≡ true) work.old.context.now places.now }
    ensures { let world = world_of_unit B.meaning unit.now in
        Passes unit.now.metamodel (flushes.persist_reachable world) result work.old work.new }
{
    if are_linked(&unit.metamodel, work, places) {
        return Ok(());
    }
    persist_reachable(alloc, unit, work)
}

/// `check_links`, where the entries at other places are known to lead to nothing that is refused.
/// Takes no memory.
pub(super) fn check_links_at(
    metamodel: &Metamodel,
    work: &UnitOfWork,
    places: &[usize],
) -> Result<(), Cause>
    requires ready { IsReady metamodel.now (now work.now) }
    requires looked { marked.AreLooked (λ e. flushes.links_stored metamodel.now (now work.now) e
        ≡ true) work.now.context.now places.now }
    ensures meets { (world : World) → Meets result (now work.now)
        (flushes.check_links (record world { model = metamodel.now }) (now work.now)) }
{
    for place in places {
        let entry = &work.context.as_slice()[*place];
        if !links_stored(metamodel, work, entry) {
            return Err(Cause::IllegalState(State::Reference));
        }
    }
    Ok(())
}

/// What the flush writes, in the order of the context, each object checked against the set; of the
/// entries at other places nothing is written.
pub(super) fn plan_at<B: Behaviour>(
    alloc: Global,
    unit: &ServedUnit<B>,
    work: &UnitOfWork,
    places: &[usize],
) -> Result<Seq<Planned>, Cause>
    requires ready { IsReady unit.now.metamodel (now work.now) }
    requires looked { marked.AreLooked (λ e. marked.is_calm unit.now.metamodel (now work.now) e
        ≡ true) work.now.context.now places.now }
    ensures planned { IfOk result (λ plan. plan ≡ plans.plan_of unit.now.metamodel
        (now work.now)) }
    ensures objects { IfOk result (λ plan. All (λ p. p.object < length work.now.objects.now)
        plan) }
    ensures ends { let world = world_of_unit B.meaning unit.now in
        Ends result (now work.now) (flushes.check_actions world (now work.now)) }
{
    let mut plan = Seq::new(alloc);
    for place in places {
        let entry = &work.context.as_slice()[*place];
        let step = step_of(&unit.metamodel, work, entry)?;
        if let Some(planned) = plan_one(alloc, unit, work, entry.object, step)? {
            plan.push(planned)?;
        }
    }
    Ok(plan)
}

/// PreUpdate happens to each object that replaces its row (chapter 3.5.2); what it assigns is what
/// the flush finds then. To the objects of the entries at other places it doesn't. Refused as the
/// first listener or callback that refuses; `OutOfMemory` where a growth was refused.
pub(super) fn tell_updates_at<B: Behaviour>(
    alloc: Global,
    unit: &ServedUnit<B>,
    work: &mut UnitOfWork,
    places: &[usize],
) -> Result<(), Cause>
    requires ready { IsReady unit.now.metamodel (now work.old) }
    requires looked { marked.AreLooked (λ e. marked.is_calm unit.now.metamodel (now work.old) e
        ≡ true) work.old.context.now places.now }
    ensures meets { let world = world_of_unit B.meaning unit.now in
        Meets result (now work.new) (flushes.pre_update world (now work.old)) }
    ensures still { OnOk result (marked.AreLooked
        (λ e. marked.is_calm unit.now.metamodel (now work.new) e ≡ true)
        work.new.context.now places.now) }
    ensures since { since work.new ≡ since work.old }
{
    for place in places {
        let entry = &work.context.as_slice()[*place];
        let object = entry.object;
        let step = step_of(&unit.metamodel, work, entry)?;
        tell_update(alloc, unit, work, object, step)?;
    }
    Ok(())
}

/// Whether an object has no orphan. Fails for want of memory alone, with `OutOfMemory`.
fn has_no_orphan(
    alloc: Global,
    metamodel: &Metamodel,
    work: &UnitOfWork,
    object: usize,
) -> Result<bool, Cause>
    requires ready { IsReady metamodel.now (now work.now) }
    requires object { object < length work.now.objects.now }
    ensures ok { IfOk result (λ none. none
        ≡ marked.has_no_orphan metamodel.now (now work.now) object) }
    ensures err { IfErr result (λ cause. cause ≡ Cause.OutOfMemory) }
{
    let orphans = orphans_of(alloc, metamodel, work, object)?;
    Ok(orphans.len() == 0)
}

/// Whether no object of a context has an orphan; of the entries at other places it is known. Fails
/// for want of memory alone, with `OutOfMemory`.
fn are_without_orphans(
    alloc: Global,
    metamodel: &Metamodel,
    work: &UnitOfWork,
    places: &[usize],
) -> Result<bool, Cause>
    requires ready { IsReady metamodel.now (now work.now) }
    requires looked { marked.AreLooked (λ e. marked.has_no_orphan metamodel.now (now work.now)
        e.object ≡ true) work.now.context.now places.now }
    ensures ok { IfOk result (λ none. none
        ≡ marked.are_without_orphans metamodel.now (now work.now)) }
    ensures err { IfErr result (λ cause. cause ≡ Cause.OutOfMemory) }
{
    for place in places {
        let object = work.context.as_slice()[*place].object;
        if !has_no_orphan(alloc, metamodel, work, object)? {
            return Ok(false);
        }
    }
    Ok(true)
}

/// `remove_orphans`, where the entries at other places have none. Where these have none either,
/// nothing is to be done.
pub(super) fn remove_orphans_at<B: Behaviour>(
    alloc: Global,
    unit: &ServedUnit<B>,
    work: &mut UnitOfWork,
    places: &[usize],
) -> Result<(), Cause>
    requires ready { IsReady unit.now.metamodel (now work.old) }
    requires looked { marked.AreLooked (λ e. marked.has_no_orphan unit.now.metamodel
        (now work.old) e.object ≡ true) work.old.context.now places.now }
    ensures { let world = world_of_unit B.meaning unit.now in
        Passes unit.now.metamodel (flushes.remove_orphans world) result work.old work.new }
{
    if are_without_orphans(alloc, &unit.metamodel, work, places)? {
        return Ok(());
    }
    remove_orphans(alloc, unit, work)
}

/// Whether an object is the one at a place of a plan.
fn is_planned_at(plan: &[Planned], at: usize, object: usize) -> bool
    ensures { result ≡ true → at < length plan.now
        × list_any (λ p. p.object == object) plan.now ≡ true }
{
    match plan.get(at) {
        None => false,
        Some(planned) => planned.object == object,
    }
}

/// The base of each managed object takes the members that its relations have now (chapter 3.2.4),
/// as far as they were read; those of the entries at other places have them, and so have those of
/// a plan that settled. An entry changes only where these are others, so that a context that
/// nothing was done to takes no memory for good. `OutOfMemory` is the only refusal.
///
/// What was planned is passed over, where it comes in the order of the places.
pub(super) fn remember_at(
    alloc: Global,
    metamodel: &Metamodel,
    work: &mut UnitOfWork,
    places: &[usize],
    plan: &[Planned],
) -> Result<(), Cause>
    requires ready { IsReady metamodel.now (now work.old) }
    requires looked { marked.AreLooked (λ e. flushes.remembered metamodel.now (now work.old) e ≡ e)
        work.old.context.now places.now }
    requires settled { All (λ e. plans.is_planned plan.now e ≡ true
        → flushes.remembered metamodel.now (now work.old) e ≡ e) work.old.context.now }
    ensures ok { OnOk result
        (now work.new ≡ flushes.all_remembered metamodel.now (now work.old)) }
    ensures err { IfErr result (λ cause. cause ≡ Cause.OutOfMemory) }
    ensures since { since work.new ≡ since work.old }
{
    let mut next = 0;
    for place in places {
        let entry = &work.context.as_slice()[*place];
        if is_planned_at(plan, next, entry.object) {
            next += 1;
        } else if let Some(current) = outdated(alloc, metamodel, work, entry)? {
            work.context.set(*place, current)?;
        }
    }
    Ok(())
}
