//! Which listeners and callbacks hear an event.
ghost use Rattle.std.specs.Prelude.{◌≡◌, ◌<◌, [], ◌++◌, All, length, IfOk, IfErr, OnOk};
ghost use Rattle.std.specs.List.{flat_map, list_any};
ghost use Rattle.jpa_model.specs.Chains.{entity_at};
ghost use Rattle.jpa_value.specs.declared.refusal.Cause.{Cause};
ghost use Rattle.jpa_lifecycle.specs.Callbacks as callbacks;

use jpa_model::{Listener, Metamodel};
use jpa_value::{Cause, LifecycleEvent, Seq, Text, TryCopy};
use std::alloc::Global;

fn is_same_event(a: LifecycleEvent, b: LifecycleEvent) -> bool
    ensures { result ≡ callbacks.same_event a b }
{
    match (a, b) {
        (LifecycleEvent::PrePersist, LifecycleEvent::PrePersist) => true,
        (LifecycleEvent::PostPersist, LifecycleEvent::PostPersist) => true,
        (LifecycleEvent::PreRemove, LifecycleEvent::PreRemove) => true,
        (LifecycleEvent::PostRemove, LifecycleEvent::PostRemove) => true,
        (LifecycleEvent::PreUpdate, LifecycleEvent::PreUpdate) => true,
        (LifecycleEvent::PostUpdate, LifecycleEvent::PostUpdate) => true,
        (LifecycleEvent::PostLoad, LifecycleEvent::PostLoad) => true,
        _ => false,
    }
}

fn hears(listener: &Listener, event: LifecycleEvent) -> bool
    ensures { result ≡ callbacks.hears event listener.now }
{
    for heard in listener.events.as_slice() {
        if is_same_event(event, *heard) {
            return true;
        }
    }
    false
}

/// Adds the names of those among these that hear an event.
fn push_hearing(
    names: &mut Seq<Text>,
    listeners: &[Listener],
    event: LifecycleEvent,
) -> Result<(), Cause>
    ensures ok { OnOk result (names.new ≡ names.old ++ callbacks.hearing event listeners.now) }
    ensures err { IfErr result (λ cause. cause ≡ Cause.OutOfMemory) }
{
    for listener in listeners {
        if hears(listener, event) {
            names.push(listener.name.try_copy()?)?;
        }
    }
    Ok(())
}

/// Whether one of these classes leaves the default listeners out.
fn excludes_default(metamodel: &Metamodel, classes: &[usize]) -> bool
    requires { All (λ c. c < length metamodel.now.entities) classes.now }
    ensures { result ≡ list_any (λ c. (entity_at metamodel.now c).exclude_default) classes.now }
{
    for class in classes {
        if metamodel.entity(*class).exclude_default {
            return true;
        }
    }
    false
}

/// Adds the names of the default listeners, unless one of these classes leaves them out.
fn push_default(
    names: &mut Seq<Text>,
    metamodel: &Metamodel,
    classes: &[usize],
    event: LifecycleEvent,
) -> Result<(), Cause>
    requires { All (λ c. c < length metamodel.now.entities) classes.now }
    ensures ok { OnOk result (names.new ≡ names.old
        ++ callbacks.hearing event (callbacks.default_listeners metamodel.now classes.now)) }
    ensures err { IfErr result (λ cause. cause ≡ Cause.OutOfMemory) }
{
    if excludes_default(metamodel, classes) {
        return Ok(());
    }
    push_hearing(names, metamodel.listeners(), event)
}

/// The classes of a chain whose listeners hear: from the lowest on that leaves those of its
/// superclasses out.
fn heard_from<'a>(metamodel: &Metamodel, chain: &'a [usize]) -> &'a [usize]
    requires { All (λ c. c < length metamodel.now.entities) chain.now }
    ensures heard { result.now ≡ callbacks.heard_from [] metamodel.now chain.now }
    ensures within { All (λ c. c < length metamodel.now.entities) result.now }
{
    let mut first = 0;
    for (i, class) in chain.iter().enumerate() {
        if metamodel.entity(*class).exclude_super {
            first = i;
        }
    }
    &chain[first..]
}

/// Adds the names of the listeners of these classes.
fn push_listeners(
    names: &mut Seq<Text>,
    metamodel: &Metamodel,
    classes: &[usize],
    event: LifecycleEvent,
) -> Result<(), Cause>
    requires { All (λ c. c < length metamodel.now.entities) classes.now }
    ensures ok { OnOk result (names.new ≡ names.old
        ++ callbacks.hearing event (flat_map (λ c. (entity_at metamodel.now c).listeners)
        classes.now)) }
    ensures err { IfErr result (λ cause. cause ≡ Cause.OutOfMemory) }
{
    for class in classes {
        push_hearing(names, metamodel.entity(*class).listeners.as_slice(), event)?;
    }
    Ok(())
}

/// Adds the names of the callbacks of these classes.
fn push_callbacks(
    names: &mut Seq<Text>,
    metamodel: &Metamodel,
    classes: &[usize],
    event: LifecycleEvent,
) -> Result<(), Cause>
    requires { All (λ c. c < length metamodel.now.entities) classes.now }
    ensures ok { OnOk result (names.new ≡ names.old
        ++ callbacks.hearing event (flat_map (λ c. (entity_at metamodel.now c).callbacks)
        classes.now)) }
    ensures err { IfErr result (λ cause. cause ≡ Cause.OutOfMemory) }
{
    for class in classes {
        push_hearing(names, metamodel.entity(*class).callbacks.as_slice(), event)?;
    }
    Ok(())
}

/// The names of those that hear an event of an object of this class, in the order in which they
/// run: default listeners, listeners of the class and its superclasses, the superclass's first,
/// then their callbacks (Jakarta Persistence 3.1, chapters 3.5.5 and 3.5.6). Takes no memory where
/// nobody hears; fails for want of memory alone, with `OutOfMemory`.
pub fn order(
    alloc: Global,
    metamodel: &Metamodel,
    class: usize,
    event: LifecycleEvent,
) -> Result<Seq<Text>, Cause>
    requires { class < length metamodel.now.entities }
    ensures ok { IfOk result (λ names. names ≡ callbacks.order metamodel.now class event) }
    ensures err { IfErr result (λ cause. cause ≡ Cause.OutOfMemory) }
{
    let chain = metamodel.chain(class);
    let mut names = Seq::new(alloc);
    push_default(&mut names, metamodel, chain, event)?;
    push_listeners(&mut names, metamodel, heard_from(metamodel, chain), event)?;
    push_callbacks(&mut names, metamodel, chain, event)?;
    Ok(names)
}
