//! The events that listeners and callbacks hear.
ghost use Rattle.std.specs.Prelude.{◌≡◌, map, IfOk, IfErr};
ghost use Rattle.std.specs.List.{list_all, flat_map};
ghost use Rattle.jpa_model.specs.Chains.{same_name};
ghost use Rattle.jpa_model.specs.Drafted as drafted;
ghost use Rattle.jpa_model.specs.WellFormed as well;
ghost use Rattle.jpa_value.specs.declared.refusal.Cause.{Cause};

use crate::description::names::{are_distinct_names, push_names};
use jpa_model::{Draft, DraftEntity, DraftListener};
use jpa_value::{Cause, LifecycleEvent, Text};
use std::alloc::Global;

#[tactic(auto, using(crate::proofs::description::SameName::same_names))]
fn is_word(text: &Text, word: &str) -> bool
    ensures { result ≡ same_name text.now word.now }
{
    text.as_str() == word
}

/// The event of this name.
pub(super) fn event_of(name: &Text) -> Option<LifecycleEvent>
    ensures { result ≡ drafted.event_of name.now }
{
    if is_word(name, "PrePersist") {
        Some(LifecycleEvent::PrePersist)
    } else if is_word(name, "PostPersist") {
        Some(LifecycleEvent::PostPersist)
    } else if is_word(name, "PreRemove") {
        Some(LifecycleEvent::PreRemove)
    } else if is_word(name, "PostRemove") {
        Some(LifecycleEvent::PostRemove)
    } else if is_word(name, "PreUpdate") {
        Some(LifecycleEvent::PreUpdate)
    } else if is_word(name, "PostUpdate") {
        Some(LifecycleEvent::PostUpdate)
    } else if is_word(name, "PostLoad") {
        Some(LifecycleEvent::PostLoad)
    } else {
        None
    }
}

fn are_events(names: &[Text]) -> bool
    ensures { result ≡ list_all well.is_event names.now }
{
    names.iter().all(|name| event_of(name).is_some())
}

fn hears(listener: &DraftListener) -> bool
    ensures { result ≡ well.hears listener.now }
{
    are_events(listener.events.as_slice()) && are_distinct_names(listener.events.as_slice())
}

fn all_hear(listeners: &[DraftListener]) -> bool
    ensures { result ≡ list_all well.hears listeners.now }
{
    listeners.iter().all(|listener| hears(listener))
}

#[tactic(auto, using(crate::proofs::description::SameName::same_texts))]
fn events_of(alloc: Global, listeners: &[DraftListener]) -> Result<Vec<&Text>, Cause>
    ensures heard { IfOk result (λ names. drafted.names_in names.items
        ≡ flat_map (λ l. l.events) listeners.now) }
    ensures err { IfErr result (λ cause. cause ≡ Cause.OutOfMemory) }
{
    let mut names = Vec::new(alloc);
    for listener in listeners {
        push_names(&mut names, listener.events.as_slice())?;
    }
    Ok(names)
}

#[tactic(auto, using(crate::proofs::description::SameName::distinct_names))]
fn entity_hears(alloc: Global, entity: &DraftEntity) -> Result<bool, Cause>
    ensures judged { IfOk result (λ b. b ≡ well.has_events_of entity.now) }
    ensures err { IfErr result (λ cause. cause ≡ Cause.OutOfMemory) }
{
    let callbacks = entity.callbacks.as_slice();
    if !all_hear(entity.listeners.as_slice()) || !all_hear(callbacks) {
        return Ok(false);
    }
    let names = events_of(alloc, callbacks)?;
    Ok(are_distinct_names(names.as_slice()))
}

/// Whether listeners and callbacks hear events of the seven names, and each callback's events are
/// its own.
pub(super) fn has_events(alloc: Global, draft: &Draft) -> Result<bool, Cause>
    ensures judged { IfOk result (λ b. b ≡ well.has_events draft.now) }
    ensures err { IfErr result (λ cause. cause ≡ Cause.OutOfMemory) }
{
    if !all_hear(draft.listeners.as_slice()) {
        return Ok(false);
    }
    for entity in draft.entities.as_slice() {
        if !entity_hears(alloc, entity)? {
            return Ok(false);
        }
    }
    Ok(true)
}
