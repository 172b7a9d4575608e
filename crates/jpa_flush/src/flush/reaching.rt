//! Persist along cascades, as a flush begins.
ghost use Rattle.std.specs.Prelude.{◌<◌, All, length};
ghost use Rattle.jpa_behaviour.specs.Served.{world_of_unit};
ghost use Rattle.jpa_work.specs.context.Steps.{each};
ghost use Rattle.jpa_work.specs.context.Undo.{now};
ghost use Rattle.jpa_work.specs.context.Work.{state_of};
ghost use Rattle.jpa_operations.specs.fetch.Grown.{IsReady};
ghost use Rattle.jpa_operations.specs.fetch.Orderly.{IsOrderly};
ghost use Rattle.jpa_operations.specs.ops.States as states;
ghost use Rattle.jpa_flush.specs.flush.Flush as flushes;
ghost use Rattle.jpa_flush.specs.flush.Passes.{Passes};

use jpa_behaviour::{Behaviour, ServedUnit};
use jpa_cascade::{Operation, live_targets, state_of};
use jpa_operations::ops::persist;
use jpa_value::Cause;
use jpa_work::context::{EntityState, UnitOfWork};
use std::alloc::Global;

/// Persists each of these objects, in order. Refused as the first `persist` that is.
fn persist_each<B: Behaviour>(
    alloc: Global,
    unit: &ServedUnit<B>,
    work: &mut UnitOfWork,
    objects: &[usize],
) -> Result<(), Cause>
    requires orderly { IsOrderly unit.now.metamodel }
    requires ready { IsReady unit.now.metamodel (now work.old) }
    requires within { All (λ k. k < length work.old.objects.now) objects.now }
    ensures { let world = world_of_unit B.meaning unit.now in
        Passes unit.now.metamodel (each (states.persist world) objects.now)
        result work.old work.new }
{
    for object in objects {
        persist(alloc, unit, work, *object)?;
    }
    Ok(())
}

/// Persists the objects that a managed one leads to, along relations that cascade persist. Refused
/// as `persist_each`.
fn persist_targets<B: Behaviour>(
    alloc: Global,
    unit: &ServedUnit<B>,
    work: &mut UnitOfWork,
    object: usize,
) -> Result<(), Cause>
    requires orderly { IsOrderly unit.now.metamodel }
    requires ready { IsReady unit.now.metamodel (now work.old) }
    requires object { object < length work.old.objects.now }
    ensures { let world = world_of_unit B.meaning unit.now in
        Passes unit.now.metamodel
        (flushes.persist_targets world object (state_of (now work.old) object))
        result work.old work.new }
{
    match state_of(work, object) {
        EntityState::Managed => {
            let targets = live_targets(alloc, &unit.metamodel, work, Operation::Persist, object)?;
            persist_each(alloc, unit, work, targets.as_slice())
        }
        EntityState::New | EntityState::Removed | EntityState::Detached => Ok(()),
    }
}

/// Persists what the managed objects of a context lead to along relations that cascade persist, and
/// what those lead to that enter meanwhile (Jakarta Persistence 3.1, chapter 3.2.4). Refused as
/// `persist`; what a refused call changed is undone by `UnitOfWork::undo`.
///
/// It looks at each entry once, and walks the whole cascade of each object that a managed one leads
/// to.
pub(super) fn persist_reachable<B: Behaviour>(
    alloc: Global,
    unit: &ServedUnit<B>,
    work: &mut UnitOfWork,
) -> Result<(), Cause>
    requires orderly { IsOrderly unit.now.metamodel }
    requires ready { IsReady unit.now.metamodel (now work.old) }
    ensures { let world = world_of_unit B.meaning unit.now in
        Passes unit.now.metamodel (flushes.persist_reachable world) result work.old work.new }
{
    // only live objects enter, so their number bounds the places
    for i in 0..work.objects.len() {
        if i >= work.context.len() {
            return Ok(());
        }
        let object = work.context.as_slice()[i].object;
        persist_targets(alloc, unit, work, object)?;
    }
    Ok(())
}
