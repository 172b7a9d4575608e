//! Whether an object is of the shape of its class.
ghost use Rattle.std.specs.Prelude.{◌≡◌, ◌<◌, ◌&&◌, All, length};
ghost use Rattle.std.specs.List.{list_all};
ghost use Rattle.jpa_value.specs.Value.{fits, is_representable};
ghost use Rattle.jpa_stored.specs.objects.Sets.{each_fits};
ghost use Rattle.jpa_object_rows.specs.mapper.Guess as spec;

use jpa_model::{Attribute, Metamodel, Part, Relation, Root, VersionColumn};
use jpa_rows::rows::{value_is_representable, version_is_representable};
use jpa_stored::objects::Stored;
use jpa_value::{Identity, Kind, Seq, Value, fits};

/// Whether a value is null or one of this kind, and not too long.
fn is_of_kind(kind: Kind, value: &Value) -> bool
    ensures { result ≡ fits kind value.now && is_representable value.now }
{
    value_is_representable(value);
    fits(kind, value)
}

fn is_part(part: &Part, value: &Value) -> bool
    ensures { result ≡ spec.is_part part.now value.now }
{
    !matches!(value, Value::Null) && is_of_kind(part.kind, value)
}

fn are_parts(parts: &[Part], key: &[Value]) -> bool
    ensures { result ≡ each_fits spec.is_part parts.now key.now }
{
    for (i, part) in parts.iter().enumerate() {
        if i >= key.len() {
            return false;
        }
        if !is_part(part, &key[i]) {
            return false;
        }
    }
    parts.len() == key.len()
}

/// Whether an identity is one of the hierarchy.
fn is_named_by(root: &Root, id: &Identity) -> bool
    ensures { result ≡ spec.is_named_by root.now id.now }
{
    id.table == root.table && are_parts(root.key.as_slice(), id.key.as_slice())
}

/// Whether the version is there exactly where the hierarchy has one.
fn is_version(column: &Option<VersionColumn>, version: Option<i64>) -> bool
    ensures { result ≡ spec.is_version column.now version }
{
    version_is_representable(version);
    column.is_some() == version.is_some()
}

fn are_values(attributes: &[Attribute], values: &[Value]) -> bool
    ensures { result ≡ each_fits spec.is_value attributes.now values.now }
{
    for (i, attribute) in attributes.iter().enumerate() {
        if i >= values.len() {
            return false;
        }
        if !is_of_kind(attribute.kind, &values[i]) {
            return false;
        }
    }
    attributes.len() == values.len()
}

fn are_named_by(root: &Root, ids: &[Identity]) -> bool
    ensures { result ≡ list_all (spec.is_named_by root.now) ids.now }
{
    ids.iter().all(|id| is_named_by(root, id))
}

fn lead_well(metamodel: &Metamodel, relations: &[Relation], owned: &[Seq<Identity>]) -> bool
    requires { All (λ r. r.target < length metamodel.now.entities) relations.now }
    ensures { result ≡ each_fits (spec.leads_well metamodel.now) relations.now owned.now }
{
    for (i, relation) in relations.iter().enumerate() {
        if i >= owned.len() {
            return false;
        }
        if !are_named_by(metamodel.root_of(relation.target), owned[i].as_slice()) {
            return false;
        }
    }
    relations.len() == owned.len()
}

/// Whether an object has what its class says: an identity of its hierarchy, a version exactly where
/// that has one, values of the kinds of its attributes and of at most 65,535 bytes, and links into
/// the hierarchies of its relations. Takes no memory.
pub(super) fn is_sound(metamodel: &Metamodel, id: &Identity, object: &Stored) -> bool
    requires { object.now.class < length metamodel.now.entities }
    ensures { result ≡ spec.is_sound metamodel.now id.now object.now }
{
    let root = metamodel.root_of(object.class);
    is_named_by(root, id)
        && is_version(&root.version, object.version)
        && are_values(
            metamodel.attributes_of(object.class),
            object.values.as_slice(),
        )
        && lead_well(
            metamodel,
            metamodel.relations_of(object.class),
            object.owned.as_slice(),
        )
}
