//! Listeners and callbacks that run one after another.
ghost use Rattle.std.specs.Prelude.{◌≡◌, IfOk, IfErr, OnOk};
ghost use Rattle.jpa_behaviour.specs.Registered.{heard_in};
ghost use Rattle.jpa_behaviour.specs.Served.{world_of_unit};
ghost use Rattle.jpa_work.specs.heap.Shape.{HasShape};
ghost use Rattle.jpa_work.specs.declared.heap.LiveObject.{LiveObject};
ghost use Rattle.jpa_value.specs.declared.refusal.Cause.{Cause};
ghost use Rattle.jpa_lifecycle.specs.Callbacks as callbacks;
ghost use Rattle.jpa_lifecycle.specs.declared.firing.Fired.{Fired};

use crate::assigning::assigned;
use crate::seeing::image_of;
use jpa_behaviour::{Behaviour, Heard, Image, Registry, ServedUnit};
use jpa_value::{Cause, LifecycleEvent, PersistenceFault, Seq, Text};
use jpa_work::heap::LiveObject;
use std::alloc::Global;

/// What became of an object to which an event happened: the names of the listeners and callbacks
/// that ran, in their order, the object then, and the refusal of the last, if it refused.
#[derive(Drop)]
pub struct Fired {
    pub names: Seq<Text>,
    pub object: LiveObject,
    pub refusal: Option<Cause>,
}

/// What the listener or callback of this name answers to an image; under a name that is not
/// registered nobody is heard, and nothing is assigned.
fn answer<B: Behaviour>(
    alloc: Global,
    registry: &Registry<B>,
    name: &str,
    image: &Image,
) -> Result<Heard, Cause>
    ensures ok { IfOk result (λ heard. heard ≡ heard_in B.meaning registry.now name.now
        image.now) }
    ensures err { IfErr result (λ cause. cause ≡ Cause.OutOfMemory) }
{
    if !registry.has_listener(name) {
        return Ok(Heard::Assign(Seq::new(alloc)));
    }
    registry.hear(name, image)
}

/// A listener or callback runs: it sees the object as it is and assigns what it answers. Answers
/// why it refused, if it did: the object is then as it was.
fn run_one<B: Behaviour>(
    alloc: Global,
    unit: &ServedUnit<B>,
    event: LifecycleEvent,
    name: &str,
    object: &mut LiveObject,
) -> Result<Option<Cause>, Cause>
    requires { HasShape unit.now.metamodel object.old }
    ensures turn { IfOk result (λ refusal. (next : LiveObject → Fired) →
        callbacks.after_answer next unit.now.metamodel name.now object.old
        (heard_in B.meaning unit.now.registry name.now
        (callbacks.image_of unit.now.metamodel event object.old))
        ≡ callbacks.after_turn next name.now object.new refusal) }
    ensures shape { OnOk result (HasShape unit.now.metamodel object.new) }
    ensures err { IfErr result (λ cause. cause ≡ Cause.OutOfMemory) }
{
    let image = image_of(alloc, &unit.metamodel, event, object)?;
    let assignments = match answer(alloc, &unit.registry, name, &image)? {
        Heard::Throw(text) => return Ok(Some(Cause::Listener(text))),
        Heard::Assign(assignments) => assignments,
    };
    if assignments.is_empty() {
        return Ok(None);
    }
    match assigned(&unit.metamodel, object, assignments.as_slice())? {
        None => Ok(Some(Cause::Persistence(PersistenceFault::Callback))),
        Some(made) => {
            *object = made;
            Ok(None)
        }
    }
}

/// The listeners and callbacks of these names run one after another: each sees the object as it is
/// by then, and assigns attributes or throws; after a throw, or an assignment that is not allowed,
/// none runs (Jakarta Persistence 3.1, chapter 3.5). A throw is `Listener` with its text, such an
/// assignment `Persistence(callback)`. Fails for want of memory alone, with `OutOfMemory`.
pub fn fire<B: Behaviour>(
    alloc: Global,
    unit: &ServedUnit<B>,
    event: LifecycleEvent,
    names: Seq<Text>,
    object: LiveObject,
) -> Result<Fired, Cause>
    requires { HasShape unit.now.metamodel object }
    ensures fired { IfOk result (λ fired. fired ≡ callbacks.fired_by
        (world_of_unit B.meaning unit.now) event names object) }
    ensures err { IfErr result (λ cause. cause ≡ Cause.OutOfMemory) }
{
    let mut object = object;
    let mut ran = names.into_vec();
    for i in 0..ran.len() {
        let refusal = run_one(alloc, unit, event, ran[i].as_str(), &mut object)?;
        if refusal.is_some() {
            ran.truncate(i + 1);
            return Ok(Fired {
                names: Seq::of(ran),
                object,
                refusal,
            });
        }
    }
    Ok(Fired {
        names: Seq::of(ran),
        object,
        refusal: None,
    })
}
