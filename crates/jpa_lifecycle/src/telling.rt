//! Events that are told.
ghost use Rattle.std.specs.Prelude.{◌≡◌, ◌<◌, suc, length, IfErr, OnOk};
ghost use Rattle.jpa_behaviour.specs.Served.{world_of_unit};
ghost use Rattle.jpa_work.specs.context.Steps.{Meets};
ghost use Rattle.jpa_work.specs.context.Undo.{now, since};
ghost use Rattle.jpa_work.specs.context.Work as works;
ghost use Rattle.jpa_work.specs.heap.Shape.{HasShape};
ghost use Rattle.jpa_lifecycle.specs.Callbacks as callbacks;
ghost use Rattle.jpa_value.specs.declared.refusal.Cause.{Cause};

use crate::firing::{Fired, fire};
use crate::hearing::order;
use jpa_behaviour::{Behaviour, ServedUnit};
use jpa_protocol::Told;
use jpa_value::{Cause, LifecycleEvent, Seq, Text, TryCopy};
use jpa_work::context::UnitOfWork;
use std::alloc::Global;

/// An event is told of an object, with the names that ran.
fn tell(
    work: &mut UnitOfWork,
    event: LifecycleEvent,
    object: usize,
    ran: Seq<Text>,
) -> Result<(), Cause>
    requires { object < length work.old.objects.now }
    ensures told { OnOk result (now work.new ≡ works.told
        (record { event = event; object = suc object; ran = ran }) (now work.old)) }
    ensures others { work.new ≡ record work.old { events = work.new.events } }
    ensures err { IfErr result (λ cause. cause ≡ Cause.OutOfMemory) }
{
    // An object's number, one more than its place, is at most the count.
    let _count = work.objects.len();
    work.events.push(Told {
        event,
        object: object as u64 + 1,
        ran,
    })?;
    Ok(())
}

/// What became of an object stands in its place, and the event is told; refused as the last that
/// ran refused.
fn conclude(
    work: &mut UnitOfWork,
    event: LifecycleEvent,
    object: usize,
    fired: Fired,
) -> Result<(), Cause>
    requires object { object < length work.old.objects.now }
    requires refusal { callbacks.IsCallbackRefusal fired.refusal }
    ensures meets { Meets result (now work.new) (callbacks.ended fired.refusal
        (callbacks.told_fired event object fired (now work.old))) }
    ensures others { work.new
        ≡ record work.old { objects = work.new.objects; events = work.new.events } }
    ensures since { since work.new ≡ since work.old }
{
    let Fired {
        names,
        object: live,
        refusal,
    } = fired;
    work.objects.set(object, live)?;
    tell(work, event, object, names)?;
    match refusal {
        None => Ok(()),
        Some(cause) => Err(cause),
    }
}

/// The event happens to an object: the listeners and callbacks that hear it run in their order, on
/// the object as it is by then, and it is told, whether or not one runs (Jakarta Persistence 3.1,
/// chapters 3.5.2 to 3.5.6). Where nobody hears, nothing is copied.
///
/// `Listener` with its text where one throws, `Persistence(callback)` where one assigns what is not
/// allowed: the event is told then too. `OutOfMemory` where a growth was refused. What a refused
/// call changed is undone by `UnitOfWork::undo`.
pub fn callback<B: Behaviour>(
    alloc: Global,
    unit: &ServedUnit<B>,
    work: &mut UnitOfWork,
    event: LifecycleEvent,
    object: usize,
) -> Result<(), Cause>
    requires object { object < length work.old.objects.now }
    requires shape { HasShape unit.now.metamodel (works.object (now work.old) object) }
    ensures meets { Meets result (now work.new) (callbacks.callback
        (world_of_unit B.meaning unit.now) event object (now work.old)) }
    ensures others { work.new
        ≡ record work.old { objects = work.new.objects; events = work.new.events } }
    ensures since { since work.new ≡ since work.old }
{
    let live = &work.objects.as_slice()[object];
    let names = order(alloc, &unit.metamodel, live.class, event)?;
    if names.is_empty() {
        return tell(work, event, object, names);
    }
    let live = live.try_copy()?;
    let fired = fire(alloc, unit, event, names, live)?;
    conclude(work, event, object, fired)
}
