//! The conditions on a description that each declaration meets or fails alone, but for the names of
//! entities.
ghost use Rattle.std.specs.Prelude.{◌≡◌, ◌<◌, length, IfSome};
ghost use Rattle.std.specs.List.{list_all};
ghost use Rattle.jpa_model.specs.Drafted.{place_of, discriminator};
ghost use Rattle.jpa_model.specs.WellFormed as well;

use crate::description::names::{
    are_distinct_names, are_named, has_form_of_name, has_name, is_same_name, may_stand_as_name,
    place_by_name,
};
use jpa_model::{
    Draft, DraftAttribute, DraftEntity, DraftListener, DraftOrigin, DraftRelation, DraftRoot,
    DraftSide, Part, RelationKind,
};
use jpa_value::{Kind, MOST_BYTES, Text};

/// The place of the entity of this name.
pub(super) fn place_of_entity(draft: &Draft, name: &Text) -> Option<usize>
    ensures place { result ≡ place_of draft.now name.now }
    ensures within { IfSome result (λ i. i < length draft.now.entities) }
{
    place_by_name(draft.entities.as_slice(), name)
}

fn attribute_is_named(attribute: &DraftAttribute) -> bool
    ensures { result ≡ well.is_attribute_named attribute.now }
{
    has_form_of_name(&attribute.name) && may_stand_as_name(&attribute.converter)
}

fn attributes_are_named(attributes: &[DraftAttribute]) -> bool
    ensures { result ≡ list_all well.is_attribute_named attributes.now }
{
    attributes
        .iter()
        .all(|attribute| attribute_is_named(attribute))
}

fn root_is_named(origin: &DraftOrigin) -> bool
    ensures { result ≡ well.is_root_named origin.now }
{
    match origin {
        DraftOrigin::Extends(_) => true,
        DraftOrigin::Root(root) => {
            are_named(root.key.as_slice())
                && may_stand_as_name(&root.embedded)
                && match &root.version {
                    None => true,
                    Some(version) => has_form_of_name(&version.name),
                }
        }
    }
}

fn entity_is_named(entity: &DraftEntity) -> bool
    ensures { result ≡ well.is_entity_named entity.now }
{
    has_form_of_name(&entity.name)
        && root_is_named(&entity.origin)
        && attributes_are_named(entity.attributes.as_slice())
        && are_named(entity.relations.as_slice())
        && are_named(entity.listeners.as_slice())
        && are_named(entity.callbacks.as_slice())
}

fn entities_are_named(entities: &[DraftEntity]) -> bool
    ensures { result ≡ list_all well.is_entity_named entities.now }
{
    entities.iter().all(|entity| entity_is_named(entity))
}

/// Whether there are 1 to 64 entities of distinct names, and each name has the form of one.
pub(super) fn has_entities(draft: &Draft) -> bool
    ensures { result ≡ well.has_entities draft.now }
{
    let entities = draft.entities.as_slice();
    1 <= entities.len()
        && entities.len() <= 64
        && are_named(draft.listeners.as_slice())
        && entities_are_named(entities)
        && are_distinct_names(entities)
}

fn is_one_integer(key: &[Part]) -> bool
    ensures { result ≡ well.is_one_integer key.now }
{
    match key {
        [part] => matches!(part.kind, Kind::Int),
        _ => false,
    }
}

fn has_key(root: &DraftRoot) -> bool
    ensures { result ≡ well.has_key root.now }
{
    let key = root.key.as_slice();
    1 <= key.len()
        && key.len() <= 4
        && are_distinct_names(key)
        && (key.len() <= 1 || root.embedded.is_some())
        && (!root.generated || is_one_integer(key))
}

fn has_key_if_root(entity: &DraftEntity) -> bool
    ensures { result ≡ well.has_key_if_root entity.now }
{
    match &entity.origin {
        DraftOrigin::Root(root) => has_key(root),
        DraftOrigin::Extends(_) => true,
    }
}

/// Whether each root has a key of 1 to 4 parts.
pub(super) fn have_keys(entities: &[DraftEntity]) -> bool
    ensures { result ≡ list_all well.has_key_if_root entities.now }
{
    entities.iter().all(|entity| has_key_if_root(entity))
}

fn superclass_is_named(draft: &Draft, entity: &DraftEntity) -> bool
    ensures { result ≡ well.is_superclass_named draft.now entity.now }
{
    match &entity.origin {
        DraftOrigin::Root(_) => true,
        DraftOrigin::Extends(name) => place_of_entity(draft, name).is_some(),
    }
}

/// Whether each superclass is an entity.
pub(super) fn superclasses_are_named(draft: &Draft) -> bool
    ensures { result ≡ list_all (well.is_superclass_named draft.now) draft.now.entities }
{
    draft
        .entities
        .as_slice()
        .iter()
        .all(|entity| superclass_is_named(draft, entity))
}

fn discriminator_is_short(entity: &DraftEntity) -> bool
    ensures { result ≡ well.is_discriminator_short entity.now }
{
    match &entity.discriminator {
        Some(text) => text.as_bytes().len() <= MOST_BYTES,
        None => entity.name.as_bytes().len() <= MOST_BYTES,
    }
}

/// Whether each discriminator has at most 65,535 bytes.
pub(super) fn discriminators_are_short(entities: &[DraftEntity]) -> bool
    ensures { result ≡ list_all well.is_discriminator_short entities.now }
{
    entities.iter().all(|entity| discriminator_is_short(entity))
}

/// Whether a relation of this kind can be kept there.
pub(super) fn kind_goes_with(kind: RelationKind, side: &DraftSide) -> bool
    ensures { result ≡ well.goes_with kind side.now }
{
    match (kind, side) {
        (RelationKind::ManyToOne, DraftSide::Column(_)) => true,
        (RelationKind::OneToMany, DraftSide::MappedBy(_)) => true,
        (RelationKind::OneToOne, DraftSide::Column(_) | DraftSide::MappedBy(_)) => true,
        (RelationKind::ManyToMany, DraftSide::JoinTable(_) | DraftSide::MappedBy(_)) => true,
        _ => false,
    }
}

fn may_remove_orphans(relation: &DraftRelation) -> bool
    ensures { result ≡ well.may_remove_orphans relation.now }
{
    !relation.orphan_removal
        || matches!(
            relation.kind,
            RelationKind::OneToMany | RelationKind::OneToOne
        )
}

fn all_may_remove_orphans(relations: &[DraftRelation]) -> bool
    ensures { result ≡ list_all well.may_remove_orphans relations.now }
{
    relations
        .iter()
        .all(|relation| may_remove_orphans(relation))
}

/// Whether orphans are removed along relations of one object to others alone.
pub(super) fn has_orphans(draft: &Draft) -> bool
    ensures { result ≡ well.has_orphans draft.now }
{
    draft.entities.as_slice().iter().all(|entity| all_may_remove_orphans(
        entity.relations.as_slice(),
    ))
}
