//! The persistence unit that a description describes.
ghost use Rattle.std.specs.Prelude.{◌≡◌, ◌<◌, length, map, filter_map, option_map, unwrap_or, IfOk, IfErr};
ghost use Rattle.std.specs.List.{list_any, position_from};
ghost use Rattle.std.specs.Option.{ForSome};
ghost use Rattle.jpa_model.specs.Chains.{same_name};
ghost use Rattle.jpa_model.specs.Drafted as drafted;
ghost use Rattle.jpa_model.specs.Described as described;
ghost use Rattle.jpa_value.specs.declared.refusal.Cause.{Cause};

use crate::description::alone::place_of_entity;
use crate::description::along::discriminator_of;
use crate::description::chains::chain_at;
use crate::description::events::event_of;
use crate::description::names::{place_by_name, push_names};
use jpa_model::{
    Attribute, Cascade, Cascades, Column, Draft, DraftAttribute, DraftColumn, DraftEntity,
    DraftListener, DraftOrigin, DraftRelation, DraftRoot, DraftSide, DraftVersion, Entity,
    Listener, Origin, PersistenceUnit, Relation, RelationKind, Root, Side, VersionColumn,
    copy_option,
};
use jpa_value::{Cause, LifecycleEvent, Seq, Text, TryCopy};
use std::alloc::Global;

fn version_of(version: &Option<DraftVersion>) -> Result<Option<VersionColumn>, Cause>
    ensures found { IfOk result (λ v. v ≡ option_map described.version_of version.now) }
    ensures err { IfErr result (λ cause. cause ≡ Cause.OutOfMemory) }
{
    match version {
        None => Ok(None),
        Some(version) => Ok(Some(VersionColumn {
            name: version.name.try_copy()?,
            column: version.column.unsigned_abs(),
        })),
    }
}

fn root_of(root: &DraftRoot) -> Result<Root, Cause>
    ensures found { IfOk result (λ r. r ≡ described.root_of root.now) }
    ensures err { IfErr result (λ cause. cause ≡ Cause.OutOfMemory) }
{
    Ok(Root {
        table: root.table.unsigned_abs(),
        key: root.key.try_copy()?,
        embedded: copy_option(&root.embedded)?,
        generated: root.generated,
        version: version_of(&root.version)?,
    })
}

fn origin_of(draft: &Draft, origin: &DraftOrigin) -> Result<Origin, Cause>
    ensures found { IfOk result (λ o. o ≡ described.origin_of draft.now origin.now) }
    ensures err { IfErr result (λ cause. cause ≡ Cause.OutOfMemory) }
{
    match origin {
        DraftOrigin::Root(root) => Ok(Origin::Root(root_of(root)?)),
        DraftOrigin::Extends(name) => Ok(Origin::Extends(place_of_entity(draft, name).unwrap_or(
            0,
        ))),
    }
}

fn attribute_of(attribute: &DraftAttribute) -> Result<Attribute, Cause>
    ensures found { IfOk result (λ a. a ≡ described.attribute_of attribute.now) }
    ensures err { IfErr result (λ cause. cause ≡ Cause.OutOfMemory) }
{
    Ok(Attribute {
        name: attribute.name.try_copy()?,
        kind: attribute.kind,
        column: attribute.column.unsigned_abs(),
        required: attribute.required,
        converter: copy_option(&attribute.converter)?,
    })
}

fn attributes_of(alloc: Global, attributes: &[DraftAttribute]) -> Result<Seq<Attribute>, Cause>
    ensures found { IfOk result (λ found. found ≡ map described.attribute_of attributes.now) }
    ensures err { IfErr result (λ cause. cause ≡ Cause.OutOfMemory) }
{
    let mut found = Seq::new(alloc);
    for attribute in attributes {
        found.push(attribute_of(attribute)?)?;
    }
    Ok(found)
}

fn column_of(column: DraftColumn) -> Column
    ensures { result ≡ described.column_of column }
{
    Column {
        column: column.column.unsigned_abs(),
        required: column.required,
    }
}

fn owning_side(kind: RelationKind, column: Column) -> Side
    ensures { result ≡ described.owning_side kind column }
{
    match kind {
        RelationKind::OneToOne => Side::OneToOne(column),
        _ => Side::ManyToOne(column),
    }
}

fn inverse_side(kind: RelationKind, owner: usize) -> Side
    ensures { result ≡ described.inverse_side kind owner }
{
    match kind {
        RelationKind::OneToOne => Side::OneToOneInverse(owner),
        RelationKind::ManyToMany => Side::ManyToManyInverse(owner),
        _ => Side::OneToMany(owner),
    }
}

fn relation_names<'a>(
    alloc: Global,
    draft: &'a Draft,
    chain: &[usize],
) -> Result<Vec<&'a Text>, Cause>
    ensures found { IfOk result (λ names. drafted.names_in names.items
        ≡ map (λ r. r.name) (drafted.declared_by (λ e. e.relations) draft.now chain.now)) }
    ensures err { IfErr result (λ cause. cause ≡ Cause.OutOfMemory) }
{
    let mut names = Vec::new(alloc);
    for class in chain {
        if let Some(entity) = draft.entities.as_slice().get(*class) {
            push_names(&mut names, entity.relations.as_slice())?;
        }
    }
    Ok(names)
}

fn place_along(alloc: Global, draft: &Draft, chain: &[usize], name: &Text) -> Result<usize, Cause>
    ensures found { IfOk result (λ place. place ≡ unwrap_or
        (position_from (λ o. same_name o.name name.now) 0
        (drafted.declared_by (λ e. e.relations) draft.now chain.now)) 0) }
    ensures err { IfErr result (λ cause. cause ≡ Cause.OutOfMemory) }
{
    let names = relation_names(alloc, draft, chain)?;
    Ok(place_by_name(names.as_slice(), name).unwrap_or(0))
}

fn owner_place(
    alloc: Global,
    draft: &Draft,
    chains: &[Seq<usize>],
    target: Option<usize>,
    name: &Text,
) -> Result<usize, Cause>
    requires chained { chains.now ≡ drafted.chains draft.now }
    requires within { ForSome target (λ i. i < length draft.now.entities) }
    ensures found { IfOk result (λ place. place
        ≡ described.owner_place draft.now target name.now) }
    ensures err { IfErr result (λ cause. cause ≡ Cause.OutOfMemory) }
{
    match target {
        None => Ok(0),
        Some(target) => place_along(alloc, draft, chain_at(draft, chains, target), name),
    }
}

fn side_of(
    alloc: Global,
    draft: &Draft,
    chains: &[Seq<usize>],
    kind: RelationKind,
    target: Option<usize>,
    side: &DraftSide,
) -> Result<Side, Cause>
    requires chained { chains.now ≡ drafted.chains draft.now }
    requires within { ForSome target (λ i. i < length draft.now.entities) }
    ensures found { IfOk result (λ s. s ≡ described.side_of draft.now kind target side.now) }
    ensures err { IfErr result (λ cause. cause ≡ Cause.OutOfMemory) }
{
    match side {
        DraftSide::Column(column) => Ok(owning_side(kind, column_of(*column))),
        DraftSide::JoinTable(table) => Ok(Side::ManyToMany(table.unsigned_abs())),
        DraftSide::MappedBy(name) => Ok(inverse_side(
            kind,
            owner_place(alloc, draft, chains, target, name)?,
        )),
    }
}

fn goes_persist(cascades: &[Cascade]) -> bool
    ensures { result ≡ list_any described.is_persist cascades.now }
{
    cascades.iter().any(|cascade| matches!(cascade, Cascade::Persist | Cascade::All))
}

fn goes_merge(cascades: &[Cascade]) -> bool
    ensures { result ≡ list_any described.is_merge cascades.now }
{
    cascades
        .iter()
        .any(|cascade| matches!(cascade, Cascade::Merge | Cascade::All))
}

fn goes_remove(cascades: &[Cascade]) -> bool
    ensures { result ≡ list_any described.is_remove cascades.now }
{
    cascades.iter().any(|cascade| matches!(cascade, Cascade::Remove | Cascade::All))
}

fn goes_refresh(cascades: &[Cascade]) -> bool
    ensures { result ≡ list_any described.is_refresh cascades.now }
{
    cascades.iter().any(|cascade| matches!(cascade, Cascade::Refresh | Cascade::All))
}

fn goes_detach(cascades: &[Cascade]) -> bool
    ensures { result ≡ list_any described.is_detach cascades.now }
{
    cascades.iter().any(|cascade| matches!(cascade, Cascade::Detach | Cascade::All))
}

fn cascades_of(cascades: &[Cascade]) -> Cascades
    ensures { result ≡ described.cascades_of cascades.now }
{
    Cascades {
        persist: goes_persist(cascades),
        merge: goes_merge(cascades),
        remove: goes_remove(cascades),
        refresh: goes_refresh(cascades),
        detach: goes_detach(cascades),
    }
}

fn relation_of(
    alloc: Global,
    draft: &Draft,
    chains: &[Seq<usize>],
    relation: &DraftRelation,
) -> Result<Relation, Cause>
    requires { chains.now ≡ drafted.chains draft.now }
    ensures found { IfOk result (λ r. r ≡ described.relation_of draft.now relation.now) }
    ensures err { IfErr result (λ cause. cause ≡ Cause.OutOfMemory) }
{
    let target = place_of_entity(draft, &relation.target);
    Ok(Relation {
        name: relation.name.try_copy()?,
        side: side_of(alloc, draft, chains, relation.kind, target, &relation.side)?,
        target: target.unwrap_or(0),
        cascade: cascades_of(relation.cascade.as_slice()),
        orphan_removal: relation.orphan_removal,
    })
}

fn relations_of(
    alloc: Global,
    draft: &Draft,
    chains: &[Seq<usize>],
    relations: &[DraftRelation],
) -> Result<Seq<Relation>, Cause>
    requires { chains.now ≡ drafted.chains draft.now }
    ensures found { IfOk result (λ found. found ≡ map (described.relation_of draft.now)
        relations.now) }
    ensures err { IfErr result (λ cause. cause ≡ Cause.OutOfMemory) }
{
    let mut found = Seq::new(alloc);
    for relation in relations {
        found.push(relation_of(alloc, draft, chains, relation)?)?;
    }
    Ok(found)
}

fn events_of(alloc: Global, names: &[Text]) -> Result<Seq<LifecycleEvent>, Cause>
    ensures found { IfOk result (λ found. found ≡ filter_map drafted.event_of names.now) }
    ensures err { IfErr result (λ cause. cause ≡ Cause.OutOfMemory) }
{
    let mut found = Seq::new(alloc);
    for name in names {
        if let Some(event) = event_of(name) {
            found.push(event)?;
        }
    }
    Ok(found)
}

fn listeners_of(alloc: Global, listeners: &[DraftListener]) -> Result<Seq<Listener>, Cause>
    ensures found { IfOk result (λ found. found ≡ map described.listener_of listeners.now) }
    ensures err { IfErr result (λ cause. cause ≡ Cause.OutOfMemory) }
{
    let mut found = Seq::new(alloc);
    for listener in listeners {
        found.push(Listener {
            name: listener.name.try_copy()?,
            events: events_of(alloc, listener.events.as_slice())?,
        })?;
    }
    Ok(found)
}

fn entity_of(
    alloc: Global,
    draft: &Draft,
    chains: &[Seq<usize>],
    entity: &DraftEntity,
) -> Result<Entity, Cause>
    requires { chains.now ≡ drafted.chains draft.now }
    ensures found { IfOk result (λ e. e ≡ described.entity_of draft.now entity.now) }
    ensures err { IfErr result (λ cause. cause ≡ Cause.OutOfMemory) }
{
    Ok(Entity {
        name: entity.name.try_copy()?,
        origin: origin_of(draft, &entity.origin)?,
        discriminator: discriminator_of(entity).try_copy()?,
        attributes: attributes_of(alloc, entity.attributes.as_slice())?,
        relations: relations_of(alloc, draft, chains, entity.relations.as_slice())?,
        listeners: listeners_of(alloc, entity.listeners.as_slice())?,
        callbacks: listeners_of(alloc, entity.callbacks.as_slice())?,
        exclude_default: entity.exclude_default,
        exclude_super: entity.exclude_super,
    })
}

fn entities_of(alloc: Global, draft: &Draft, chains: &[Seq<usize>]) -> Result<Seq<Entity>, Cause>
    requires { chains.now ≡ drafted.chains draft.now }
    ensures found { IfOk result (λ found. found ≡ map (described.entity_of draft.now)
        draft.now.entities) }
    ensures err { IfErr result (λ cause. cause ≡ Cause.OutOfMemory) }
{
    let mut found = Seq::new(alloc);
    for entity in draft.entities.as_slice() {
        found.push(entity_of(alloc, draft, chains, entity)?)?;
    }
    Ok(found)
}

/// The persistence unit that a description with these chains describes.
pub(super) fn unit_of(
    alloc: Global,
    draft: &Draft,
    chains: &[Seq<usize>],
) -> Result<PersistenceUnit, Cause>
    requires { chains.now ≡ drafted.chains draft.now }
    ensures found { IfOk result (λ unit. unit ≡ described.unit_of draft.now) }
    ensures err { IfErr result (λ cause. cause ≡ Cause.OutOfMemory) }
{
    Ok(PersistenceUnit {
        revision: draft.revision.unsigned_abs(),
        listeners: listeners_of(alloc, draft.listeners.as_slice())?,
        entities: entities_of(alloc, draft, chains)?,
    })
}
