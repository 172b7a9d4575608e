//! The events of a flush.
ghost use Rattle.std.specs.Prelude.{◌<◌, All, length};
ghost use Rattle.jpa_behaviour.specs.Served.{world_of_unit};
ghost use Rattle.jpa_work.specs.context.Undo.{now};
ghost use Rattle.jpa_work.specs.context.Work as works;
ghost use Rattle.jpa_work.specs.heap.Shape.{HasShape};
ghost use Rattle.jpa_flush.specs.flush.Passes.{Performs};
ghost use Rattle.jpa_flush.specs.flush.Plan as plans;

use crate::flush::steps::FlushAction;
use crate::flush::writing::Written;
use jpa_behaviour::{Behaviour, ServedUnit};
use jpa_lifecycle::callback;
use jpa_value::{Cause, LifecycleEvent};
use jpa_work::context::UnitOfWork;
use std::alloc::Global;

/// PreUpdate, where the object replaces its row.
pub(super) fn tell_update<B: Behaviour>(
    alloc: Global,
    unit: &ServedUnit<B>,
    work: &mut UnitOfWork,
    object: usize,
    step: FlushAction,
) -> Result<(), Cause>
    requires object { object < length work.old.objects.now }
    requires shape { HasShape unit.now.metamodel (works.object (now work.old) object) }
    ensures { let world = world_of_unit B.meaning unit.now in
        Performs (plans.update world object step) result work.old work.new }
{
    match step {
        FlushAction::Keep | FlushAction::Insert | FlushAction::Drop(_) => Ok(()),
        FlushAction::Replace(_) => {
            let event = LifecycleEvent::PreUpdate;
            callback(alloc, unit, work, event, object)
        }
    }
}

/// The event of each object that was written happens, in their order. Refused as the
/// first listener or callback that refuses; `OutOfMemory` where a growth was refused.
pub fn tell_written<B: Behaviour>(
    alloc: Global,
    unit: &ServedUnit<B>,
    work: &mut UnitOfWork,
    written: &[Written],
) -> Result<(), Cause>
    requires shaped { All (HasShape unit.now.metamodel) work.old.objects.now }
    requires objects { All (λ x. x.object < length work.old.objects.now) written.now }
    ensures { let world = world_of_unit B.meaning unit.now in
        Performs (plans.told_by world written.now) result work.old work.new }
{
    for told in written {
        let event = told.event;
        callback(alloc, unit, work, event, told.object)?;
    }
    Ok(())
}
