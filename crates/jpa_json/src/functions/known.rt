//! Whether a registry has the functions that a unit names.
ghost use Rattle.std.specs.Prelude.{◌≡◌};
ghost use Rattle.std.specs.List.{list_all};
ghost use Rattle.jpa_json.specs.functions.Known as known;

use jpa_behaviour::{Behaviour, Registry};
use jpa_model::{Attribute, Entity, Listener, Metamodel};

fn listener_is_known<B: Behaviour>(registry: &Registry<B>, listener: &Listener) -> bool
    ensures { result ≡ known.listener_is_known registry.now listener.now }
{
    registry.has_listener(listener.name.as_str())
}

fn listeners_are_known<B: Behaviour>(registry: &Registry<B>, listeners: &[Listener]) -> bool
    ensures { result ≡ list_all (known.listener_is_known registry.now) listeners.now }
{
    listeners
        .iter()
        .all(|listener| listener_is_known(registry, listener))
}

fn attribute_is_known<B: Behaviour>(registry: &Registry<B>, attribute: &Attribute) -> bool
    ensures { result ≡ known.attribute_is_known registry.now attribute.now }
{
    match &attribute.converter {
        None => true,
        Some(converter) => registry.has_converter(converter.as_str()),
    }
}

fn attributes_are_known<B: Behaviour>(registry: &Registry<B>, attributes: &[Attribute]) -> bool
    ensures { result ≡ list_all (known.attribute_is_known registry.now) attributes.now }
{
    attributes
        .iter()
        .all(|attribute| attribute_is_known(registry, attribute))
}

fn entity_is_known<B: Behaviour>(registry: &Registry<B>, entity: &Entity) -> bool
    ensures { result ≡ known.entity_is_known registry.now entity.now }
{
    listeners_are_known(registry, entity.listeners.as_slice())
        && listeners_are_known(registry, entity.callbacks.as_slice())
        && attributes_are_known(registry, entity.attributes.as_slice())
}

fn entities_are_known<B: Behaviour>(registry: &Registry<B>, entities: &[Entity]) -> bool
    ensures { result ≡ list_all (known.entity_is_known registry.now) entities.now }
{
    entities
        .iter()
        .all(|entity| entity_is_known(registry, entity))
}

/// Whether each listener, callback and converter that a unit names is registered in its sort
/// (Jakarta Persistence 3.1, chapters 3.5 and 3.8). Takes no memory.
pub fn names_are_known<B: Behaviour>(metamodel: &Metamodel, registry: &Registry<B>) -> bool
    ensures { result ≡ known.names_are_known registry.now metamodel.now }
{
    listeners_are_known(registry, metamodel.listeners())
        && entities_are_known(registry, metamodel.entities())
}
