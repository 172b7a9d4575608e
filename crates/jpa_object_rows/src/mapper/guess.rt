//! The object that a main row may say: each value, version and link is what stands in its column.
ghost use Rattle.std.specs.Prelude.{◌≡◌, ◌<◌, All, Some, option_copied, length, map, IfOk, IfErr, IfSome};
ghost use Rattle.jpa_value.specs.declared.refusal.Cause.{Cause};
ghost use Rattle.jpa_model.specs.Chains as chains;
ghost use Rattle.jpa_behaviour.specs.Registered as registered;
ghost use Rattle.jpa_rows.specs.rows.Cells.{cell_value};
ghost use Rattle.jpa_object_rows.specs.meaning.View.{number_of};
ghost use Rattle.jpa_object_rows.specs.meaning.Sets.{content_at};
ghost use Rattle.jpa_object_rows.specs.mapper.Guess as spec;

use jpa_behaviour::{Behaviour, Registry};
use jpa_model::{Attribute, Metamodel, Relation, Side, VersionColumn};
use jpa_rows::rows::{Content, Field};
use jpa_stored::objects::Stored;
use jpa_value::{Cause, Identity, Seq, Text, TryCopy, Value};
use std::alloc::Global;
use std::cmp::Ordering;

fn content_at(row: &[Field], column: u64) -> Option<&Content>
    ensures { option_copied result ≡ content_at column row.now }
{
    for field in row {
        if u64::from(field.column) == column {
            return Some(&field.content);
        }
    }
    None
}

/// The text that a column holds, if it holds one.
fn text_at(row: &[Field], column: u64) -> Option<&Text>
    ensures { option_copied result ≡ spec.text_of (spec.value_in (content_at column row.now)) }
{
    match content_at(row, column) {
        Some(Content::Value(Value::Text(text))) => Some(text),
        _ => None,
    }
}

fn is_class_by(metamodel: &Metamodel, table: u64, text: &Text, class: usize) -> bool
    requires { class < length metamodel.now.entities }
    ensures { result ≡ spec.is_class_by metamodel.now table text.now class }
{
    let discriminator = metamodel.entity(class).discriminator.as_bytes();
    metamodel.root_of(class).table == table
        && matches!(discriminator.cmp(text.as_bytes()), Ordering::Equal)
}

fn class_by(metamodel: &Metamodel, table: u64, text: &Text) -> Option<usize>
    ensures class { result ≡ spec.class_by metamodel.now table (Some text.now) }
    ensures within { IfSome result (λ class. class < length metamodel.now.entities) }
{
    for class in 0..metamodel.entities().len() {
        if is_class_by(metamodel, table, text, class) {
            return Some(class);
        }
    }
    None
}

/// The class that a main row of this table says: the one of the table's hierarchy with the
/// discriminator in column 0. Takes no memory.
pub(super) fn class_in(metamodel: &Metamodel, table: u64, row: &[Field]) -> Option<usize>
    ensures class { result ≡ spec.class_in metamodel.now table row.now }
    ensures within { IfSome result (λ class. class < length metamodel.now.entities) }
{
    match text_at(row, 0) {
        None => None,
        Some(text) => class_by(metamodel, table, text),
    }
}

fn number_at(row: &[Field], column: u64) -> Option<i64>
    ensures { result ≡ number_of (spec.value_in (content_at column row.now)) }
{
    match content_at(row, column) {
        Some(Content::Value(Value::Int(number))) => Some(*number),
        _ => None,
    }
}

fn version_in(version: &Option<VersionColumn>, row: &[Field]) -> Option<i64>
    ensures { result ≡ spec.version_in version.now row.now }
{
    match version {
        None => None,
        Some(version) => number_at(row, version.column),
    }
}

fn value_at(row: &[Field], column: u64) -> Result<Value, Cause>
    ensures ok { IfOk result (λ value. value ≡ spec.value_in (content_at column row.now)) }
    ensures err { IfErr result (λ cause. cause ≡ Cause.OutOfMemory) }
{
    match content_at(row, column) {
        Some(Content::Value(value)) => value.try_copy(),
        _ => Ok(Value::Null),
    }
}

/// What the converter of this name makes of a column's value; null where it throws, or where there
/// is none.
fn converted<B: Behaviour>(
    registry: &Registry<B>,
    name: &Text,
    value: &Value,
) -> Result<Value, Cause>
    ensures ok { IfOk result (λ answer. answer ≡ cell_value
        (registered.attribute_in B.meaning registry.now name.now value.now)) }
    ensures err { IfErr result (λ cause. cause ≡ Cause.OutOfMemory) }
{
    match registry.to_attribute(name.as_str(), value) {
        Ok(answer) => Ok(answer),
        Err(Cause::OutOfMemory) => Err(Cause::OutOfMemory),
        Err(_) => Ok(Value::Null),
    }
}

/// What an attribute holds whose column holds this. Null passes no converter.
fn converted_back<B: Behaviour>(
    registry: &Registry<B>,
    converter: &Option<Text>,
    value: Value,
) -> Result<Value, Cause>
    ensures ok { IfOk result (λ answer. answer ≡ spec.converted_back
        (registered.attribute_in B.meaning registry.now) converter.now value) }
    ensures err { IfErr result (λ cause. cause ≡ Cause.OutOfMemory) }
{
    match (converter, &value) {
        (None, _) => Ok(value),
        (Some(_), Value::Null) => Ok(Value::Null),
        (Some(name), _) => converted(registry, name, &value),
    }
}

fn values_in<B: Behaviour>(
    alloc: Global,
    registry: &Registry<B>,
    attributes: &[Attribute],
    row: &[Field],
) -> Result<Seq<Value>, Cause>
    ensures ok { IfOk result (λ values. values ≡ map
        (spec.attribute_in (registered.attribute_in B.meaning registry.now) row.now)
        attributes.now) }
    ensures err { IfErr result (λ cause. cause ≡ Cause.OutOfMemory) }
{
    let mut values = Seq::new(alloc);
    for attribute in attributes {
        let value = value_at(row, attribute.column)?;
        values.push(converted_back(registry, &attribute.converter, value)?)?;
    }
    Ok(values)
}

fn link_at(alloc: Global, table: u64, row: &[Field], column: u64) -> Result<Seq<Identity>, Cause>
    ensures ok { IfOk result (λ ids. ids ≡ spec.link_in table (content_at column row.now)) }
    ensures err { IfErr result (λ cause. cause ≡ Cause.OutOfMemory) }
{
    let mut ids = Seq::new(alloc);
    if let Some(Content::Reference(key)) = content_at(row, column) {
        let key = key.try_copy()?;
        ids.push(Identity { table, key })?;
    }
    Ok(ids)
}

fn side_in(alloc: Global, table: u64, row: &[Field], side: Side) -> Result<Seq<Identity>, Cause>
    ensures ok { IfOk result (λ ids. ids ≡ spec.side_in table row.now side) }
    ensures err { IfErr result (λ cause. cause ≡ Cause.OutOfMemory) }
{
    match side {
        Side::ManyToOne(column) | Side::OneToOne(column) => {
            link_at(alloc, table, row, column.column)
        }
        _ => Ok(Seq::new(alloc)),
    }
}

fn owned_in(
    alloc: Global,
    metamodel: &Metamodel,
    relations: &[Relation],
    row: &[Field],
) -> Result<Seq<Seq<Identity>>, Cause>
    requires { All (λ r. r.target < length metamodel.now.entities) relations.now }
    ensures ok { IfOk result (λ owned. owned ≡ map (spec.links_in metamodel.now row.now)
        relations.now) }
    ensures err { IfErr result (λ cause. cause ≡ Cause.OutOfMemory) }
{
    let mut owned = Seq::new(alloc);
    for relation in relations {
        let table = metamodel.root_of(relation.target).table;
        owned.push(side_in(alloc, table, row, relation.side)?)?;
    }
    Ok(owned)
}

/// The object of this class that a main row says, if it says one: what stands in the columns of the
/// class, and no pairs. What a converter throws at, and what has no column, is null.
pub(super) fn guessed<B: Behaviour>(
    alloc: Global,
    metamodel: &Metamodel,
    registry: &Registry<B>,
    class: usize,
    row: &[Field],
) -> Result<Stored, Cause>
    requires { class < length metamodel.now.entities }
    ensures ok { IfOk result (λ x. x ≡ spec.guessed
        (registered.world_of B.meaning metamodel.now registry.now) row.now class) }
    ensures err { IfErr result (λ cause. cause ≡ Cause.OutOfMemory) }
{
    Ok(Stored {
        class,
        version: version_in(&metamodel.root_of(class).version, row),
        values: values_in(alloc, registry, metamodel.attributes_of(class), row)?,
        owned: owned_in(alloc, metamodel, metamodel.relations_of(class), row)?,
    })
}
