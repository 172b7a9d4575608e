//! The columns of an object's class, in the order of its declaration, each with what the object
//! holds in it.
ghost use Rattle.std.specs.Prelude.{◌≡◌, ◌<◌, ◌^◌, ◌⊎◌, ◌++◌, ◌∷◌, [], true, false, length, Some, IfOk, IfErr, OnOk};
ghost use Rattle.std.specs.List.{list_all, zip};
ghost use Rattle.jpa_value.specs.declared.refusal.Cause.{Cause};
ghost use Rattle.jpa_value.specs.declared.refusal.PersistenceFault.{PersistenceFault};
ghost use Rattle.jpa_model.specs.Chains as chains;
ghost use Rattle.jpa_model.specs.declared.unit.PersistenceUnit.{PersistenceUnit};
ghost use Rattle.jpa_behaviour.specs.Registered.{world_of};
ghost use Rattle.jpa_rows.specs.rows.Cells.{passes};
ghost use Rattle.jpa_rows.specs.rows.Numbers.{IsNarrowVersion, IsNarrowLink};
ghost use Rattle.jpa_object_rows.specs.meaning.Objects as objects;
ghost use Rattle.jpa_object_rows.specs.mapper.Mapped.{all_pass};
ghost use Rattle.jpa_object_rows.specs.mapper.Narrow.{HaveNarrowColumns, HaveNarrowLinks};

use crate::mapper::converted::column_value;
use crate::mapper::narrow::columns_are_narrow;
use jpa_behaviour::{Behaviour, Registry};
use jpa_model::{Attribute, Entity, Metamodel, Relation, Side, VersionColumn};
use jpa_rows::rows::Content;
use jpa_stored::objects::Stored;
use jpa_value::{Cause, Identity, Seq, TryCopy, Value};
use std::alloc::Global;

/// A column, and what stands in it, if anything.
pub(super) type Place = (u32, Option<Content>);

/// What stands in a column for a value: nothing for null.
fn value_content(value: Value) -> Option<Content>
    ensures { result ≡ objects.value_content value }
{
    match value {
        Value::Null => None,
        value => Some(Content::Value(value)),
    }
}

fn version_content(version: Option<i64>) -> Option<Content>
    ensures { result ≡ objects.version_content version }
{
    match version {
        None => None,
        Some(number) => Some(Content::Value(Value::Int(number))),
    }
}

/// What stands in a column for a relation to at most one object: nothing where it leads nowhere.
fn link_content(ids: &[Identity]) -> Result<Option<Content>, Cause>
    ensures ok { IfOk result (λ content. content ≡ objects.link_content ids.now) }
    ensures err { IfErr result (λ cause. cause ≡ Cause.OutOfMemory) }
{
    match ids {
        [] => Ok(None),
        [id, ..] => Ok(Some(Content::Reference(id.key.try_copy()?))),
    }
}

fn discriminator_content(entity: &Entity) -> Result<Content, Cause>
    ensures ok { IfOk result (λ content. content ≡ objects.discriminator_content entity.now) }
    ensures err { IfErr result (λ cause. cause ≡ Cause.OutOfMemory) }
{
    Ok(Content::Value(Value::Text(entity.discriminator.try_copy()?)))
}

/// Adds the version's column, where the hierarchy has one.
fn push_version(
    places: &mut Seq<Place>,
    version_column: &Option<VersionColumn>,
    version: Option<i64>,
) -> Result<(), Cause>
    requires { IsNarrowVersion version_column.now }
    ensures ok { OnOk result (places.new ≡ places.old
        ++ objects.version_places version_column.now version) }
    ensures err { IfErr result (λ cause. cause ≡ Cause.OutOfMemory) }
{
    if let Some(version_column) = version_column {
        places.push((version_column.column as u32, version_content(version)))?;
    }
    Ok(())
}

/// Adds an attribute's column, with what its converter makes of the value.
fn push_attribute<B: Behaviour>(
    places: &mut Seq<Place>,
    registry: &Registry<B>,
    attribute: &Attribute,
    value: &Value,
) -> Result<(), Cause>
    requires { attribute.now.column < 2 ^ 32 }
    ensures ok { (m : PersistenceUnit) → OnOk result
        (places.new ≡ places.old ++ objects.attribute_places (world_of B.meaning m registry.now)
        ((attribute.now, value.now) ∷ [])) }
    ensures passed { (m : PersistenceUnit) → OnOk result
        (passes (world_of B.meaning m registry.now) attribute.now value.now ≡ true) }
    ensures err { (m : PersistenceUnit) → IfErr result
        (λ cause. (cause ≡ Cause.OutOfMemory)
        ⊎ ((cause ≡ Cause.Persistence PersistenceFault.Converter)
        × (passes (world_of B.meaning m registry.now) attribute.now value.now ≡ false))) }
{
    let held = column_value(registry, attribute, value)?;
    places.push((attribute.column as u32, value_content(held)))?;
    Ok(())
}

/// Adds the attributes' columns.
fn push_attributes<B: Behaviour>(
    places: &mut Seq<Place>,
    registry: &Registry<B>,
    attributes: &[Attribute],
    values: &[Value],
) -> Result<(), Cause>
    requires { HaveNarrowColumns attributes.now }
    ensures ok { (m : PersistenceUnit) → OnOk result
        (places.new ≡ places.old ++ objects.attribute_places (world_of B.meaning m registry.now)
        (zip attributes.now values.now)) }
    ensures passed { (m : PersistenceUnit) → OnOk result
        (list_all (λ p. passes (world_of B.meaning m registry.now) p.0 p.1)
        (zip attributes.now values.now) ≡ true) }
    ensures err { (m : PersistenceUnit) → IfErr result
        (λ cause. (cause ≡ Cause.OutOfMemory)
        ⊎ ((cause ≡ Cause.Persistence PersistenceFault.Converter)
        × (list_all (λ p. passes (world_of B.meaning m registry.now) p.0 p.1)
        (zip attributes.now values.now) ≡ false))) }
{
    for (attribute, value) in attributes.iter().zip(values.iter()) {
        push_attribute(places, registry, attribute, value)?;
    }
    Ok(())
}

/// Adds the column of an owning to-one side; the other sides have none.
fn push_link(places: &mut Seq<Place>, side: Side, ids: &[Identity]) -> Result<(), Cause>
    requires { IsNarrowLink (chains.column_of side) }
    ensures ok { OnOk result (places.new ≡ places.old ++ objects.side_places side ids.now) }
    ensures err { IfErr result (λ cause. cause ≡ Cause.OutOfMemory) }
{
    if let Some(column) = side.column() {
        places.push((column.column as u32, link_content(ids)?))?;
    }
    Ok(())
}

fn push_links(
    places: &mut Seq<Place>,
    relations: &[Relation],
    owned: &[Seq<Identity>],
) -> Result<(), Cause>
    requires { HaveNarrowLinks relations.now }
    ensures ok { OnOk result (places.new ≡ places.old
        ++ objects.relation_places (zip relations.now owned.now)) }
    ensures err { IfErr result (λ cause. cause ≡ Cause.OutOfMemory) }
{
    for (relation, ids) in relations.iter().zip(owned.iter()) {
        push_link(places, relation.side, ids.as_slice())?;
    }
    Ok(())
}

/// The columns of an object's class, each with what the object holds in it. A converter's throw is
/// `Persistence(converter)`.
pub(super) fn places_of<B: Behaviour>(
    alloc: Global,
    metamodel: &Metamodel,
    registry: &Registry<B>,
    object: &Stored,
) -> Result<Seq<Place>, Cause>
    requires { object.now.class < length metamodel.now.entities }
    ensures ok { IfOk result (λ places. places ≡ objects.places_of
        (world_of B.meaning metamodel.now registry.now) object.now) }
    ensures passed { OnOk result (all_pass (world_of B.meaning metamodel.now registry.now)
        object.now ≡ true) }
    ensures err { IfErr result (λ cause. (cause ≡ Cause.OutOfMemory)
        ⊎ ((cause ≡ Cause.Persistence PersistenceFault.Converter)
        × (all_pass (world_of B.meaning metamodel.now registry.now) object.now ≡ false))) }
{
    let class = object.class;
    columns_are_narrow(metamodel, class);
    let mut places = Seq::new(alloc);
    places.push((0, Some(discriminator_content(metamodel.entity(class))?)))?;
    let version_column = &metamodel.root_of(class).version;
    push_version(&mut places, version_column, object.version)?;
    let attributes = metamodel.attributes_of(class);
    push_attributes(&mut places, registry, attributes, object.values.as_slice())?;
    push_links(
        &mut places,
        metamodel.relations_of(class),
        object.owned.as_slice(),
    )?;
    Ok(places)
}
