//! What the flush writes.
ghost use Rattle.std.specs.Prelude.{◌≡◌, ◌<◌, length, IfOk};
ghost use Rattle.jpa_behaviour.specs.Served.{world_of_unit};
ghost use Rattle.jpa_work.specs.context.Steps.{Ends};
ghost use Rattle.jpa_work.specs.context.Undo.{now};
ghost use Rattle.jpa_operations.specs.fetch.Grown.{IsReady};
ghost use Rattle.jpa_flush.specs.flush.Plan as plans;

use crate::flush::checking::{all_convert, can_rise, class_there, is_current, is_stored, raised};
use crate::flush::steps::{FlushAction, step_of};
use crate::flush::storing::stored_of;
use jpa_behaviour::{Behaviour, ServedUnit};
use jpa_model::Metamodel;
use jpa_stored::objects::Stored;
use jpa_value::{Cause, Identity, LifecycleEvent, PersistenceFault};
use jpa_work::context::UnitOfWork;
use jpa_work::heap::identity_of;
use std::alloc::Global;

/// An object that is to be written, with the event that is told of it then.
#[derive(Drop)]
pub struct Planned {
    pub object: usize,
    pub id: Option<Identity>,
    pub event: LifecycleEvent,
    /// The class of what stands under its identity before.
    pub class_before: Option<usize>,
    /// What stands there afterwards; nothing where the object was removed.
    pub stored: Option<Stored>,
}

/// An object that the set has not.
fn insertion<B: Behaviour>(
    alloc: Global,
    unit: &ServedUnit<B>,
    work: &UnitOfWork,
    object: usize,
) -> Result<Planned, Cause>
    requires ready { IsReady unit.now.metamodel (now work.now) }
    requires object { object < length work.now.objects.now }
    ensures planned { IfOk result
        (λ planned. planned ≡ plans.insertion unit.now.metamodel (now work.now) object) }
    ensures ends { let world = world_of_unit B.meaning unit.now in
        Ends result (now work.now) (plans.check_insertion world object (now work.now)) }
{
    let live = &work.objects.as_slice()[object];
    let id = identity_of(&unit.metamodel, live)?;
    if is_stored(work, &id) {
        return Err(Cause::EntityExists);
    }
    if !all_convert(unit, live)? {
        return Err(Cause::Persistence(PersistenceFault::Converter));
    }
    let version = if unit.metamodel.is_versioned(live.class) {
        Some(0)
    } else {
        None
    };
    let class_before = class_there(work, &id);
    let stored = stored_of(alloc, &unit.metamodel, work, object, version)?;
    Ok(Planned {
        object,
        id,
        event: LifecycleEvent::PostPersist,
        class_before,
        stored: Some(stored),
    })
}

/// An object that replaces its row, which has this version.
fn replacement<B: Behaviour>(
    alloc: Global,
    unit: &ServedUnit<B>,
    work: &UnitOfWork,
    object: usize,
    version: Option<i64>,
) -> Result<Planned, Cause>
    requires ready { IsReady unit.now.metamodel (now work.now) }
    requires object { object < length work.now.objects.now }
    ensures planned { IfOk result (λ planned. planned
        ≡ plans.replacement unit.now.metamodel (now work.now) object version) }
    ensures ends { let world = world_of_unit B.meaning unit.now in
        Ends result (now work.now) (plans.check_replacement world object version (now work.now)) }
{
    let live = &work.objects.as_slice()[object];
    let id = identity_of(&unit.metamodel, live)?;
    if !is_current(work, &id, version) {
        return Err(Cause::OptimisticLock);
    }
    if !can_rise(version) {
        return Err(Cause::Persistence(PersistenceFault::Version));
    }
    if !all_convert(unit, live)? {
        return Err(Cause::Persistence(PersistenceFault::Converter));
    }
    let class_before = class_there(work, &id);
    let stored = stored_of(alloc, &unit.metamodel, work, object, raised(version))?;
    Ok(Planned {
        object,
        id,
        event: LifecycleEvent::PostUpdate,
        class_before,
        stored: Some(stored),
    })
}

/// A removed object, which was loaded with this version.
fn removal(
    metamodel: &Metamodel,
    work: &UnitOfWork,
    object: usize,
    loaded: Option<i64>,
) -> Result<Planned, Cause>
    requires ready { IsReady metamodel.now (now work.now) }
    requires object { object < length work.now.objects.now }
    ensures planned { IfOk result
        (λ planned. planned ≡ plans.removal metamodel.now (now work.now) object) }
    ensures ends { Ends result (now work.now)
        (plans.check_removal metamodel.now object loaded (now work.now)) }
{
    let id = identity_of(metamodel, &work.objects.as_slice()[object])?;
    if !is_current(work, &id, loaded) {
        return Err(Cause::OptimisticLock);
    }
    let class_before = class_there(work, &id);
    Ok(Planned {
        object,
        id,
        event: LifecycleEvent::PostRemove,
        class_before,
        stored: None,
    })
}

/// What is written of an object in this step, if anything.
pub(super) fn plan_one<B: Behaviour>(
    alloc: Global,
    unit: &ServedUnit<B>,
    work: &UnitOfWork,
    object: usize,
    step: FlushAction,
) -> Result<Option<Planned>, Cause>
    requires ready { IsReady unit.now.metamodel (now work.now) }
    requires object { object < length work.now.objects.now }
    ensures planned { IfOk result
        (λ planned. planned ≡ plans.planned unit.now.metamodel (now work.now) object step) }
    ensures ends { let world = world_of_unit B.meaning unit.now in
        Ends result (now work.now) (plans.check world object step (now work.now)) }
{
    match step {
        FlushAction::Keep => Ok(None),
        FlushAction::Insert => Ok(Some(insertion(alloc, unit, work, object)?)),
        FlushAction::Replace(version) => {
            Ok(Some(replacement(alloc, unit, work, object, version)?))
        }
        FlushAction::Drop(version) => Ok(Some(removal(&unit.metamodel, work, object, version)?)),
    }
}
