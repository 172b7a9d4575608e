//! Defaults as they stand in columns: through their converters (chapter 3.8).
ghost use Rattle.std.specs.Prelude.{◌≡◌, ◌<◌, length, Some, IfOk, IfErr};
ghost use Rattle.jpa_value.specs.declared.refusal.Cause.{Cause};
ghost use Rattle.jpa_model.specs.declared.unit.PersistenceUnit.{PersistenceUnit};
ghost use Rattle.jpa_behaviour.specs.Registered.{world_of, column_in};
ghost use Rattle.jpa_rows.specs.rows.Cells as cells;
ghost use Rattle.jpa_opening.specs.migration.Migration as migration;
ghost use Rattle.jpa_opening.specs.migration.Changed as changed;

use crate::migration::changed::default_at;
use jpa_behaviour::{Behaviour, Registry};
use jpa_description::history::History;
use jpa_model::{Attribute, Metamodel};
use jpa_rows::rows::{Content, spell_content};
use jpa_value::{Bytes, Cause, TryCopy, Value};
use std::alloc::Global;

/// What the converter of this name makes of a value for its column; null where it throws, and under
/// an unknown name.
fn converted<B: Behaviour>(
    registry: &Registry<B>,
    name: &str,
    value: &Value,
) -> Result<Value, Cause>
    ensures ok { IfOk result (λ held. held
        ≡ cells.cell_value (column_in B.meaning registry.now name.now value.now)) }
    ensures err { IfErr result (λ cause. cause ≡ Cause.OutOfMemory) }
{
    match registry.to_column(name, value) {
        Ok(held) => Ok(held),
        Err(Cause::OutOfMemory) => Err(Cause::OutOfMemory),
        Err(_) => Ok(Value::Null),
    }
}

/// What stands in the column of an attribute for a value; null where the converter throws.
fn column_value<B: Behaviour>(
    registry: &Registry<B>,
    attribute: &Attribute,
    value: &Value,
) -> Result<Value, Cause>
    ensures ok { (m : PersistenceUnit) → IfOk result
        (λ held. held ≡ cells.column_value (world_of B.meaning m registry.now)
        attribute.now.converter value.now) }
    ensures err { IfErr result (λ cause. cause ≡ Cause.OutOfMemory) }
{
    match (&attribute.converter, value) {
        (None, _) => value.try_copy(),
        (Some(_), Value::Null) => Ok(Value::Null),
        (Some(name), _) => converted(registry, name.as_str(), value),
    }
}

/// The bytes of a value; none for null.
fn bytes_of(alloc: Global, value: Value) -> Result<Option<Bytes>, Cause>
    ensures ok { IfOk result (λ bytes. bytes ≡ cells.value_bytes value) }
    ensures err { IfErr result (λ cause. cause ≡ Cause.OutOfMemory) }
{
    match value {
        Value::Null => Ok(None),
        value => Ok(Some(spell_content(alloc, &Content::Value(value))?)),
    }
}

/// What the cell of an attribute's default holds; none where its converter throws.
pub(super) fn default_bytes<B: Behaviour>(
    alloc: Global,
    registry: &Registry<B>,
    attribute: &Attribute,
    default: &Value,
) -> Result<Option<Bytes>, Cause>
    ensures ok { (m : PersistenceUnit) → IfOk result
        (λ bytes. bytes ≡ migration.default_bytes (world_of B.meaning m registry.now)
        attribute.now (Some default.now)) }
    ensures err { IfErr result (λ cause. cause ≡ Cause.OutOfMemory) }
{
    Ok(bytes_of(alloc, column_value(registry, attribute, default)?)?)
}

fn is_given(value: &Value) -> bool
    ensures { result ≡ cells.is_given value.now }
{
    !matches!(value, Value::Null)
}

/// Whether the default of an attribute passes its converter, where it has one.
fn passes<B: Behaviour>(
    registry: &Registry<B>,
    attribute: &Attribute,
    default: &Value,
) -> Result<bool, Cause>
    ensures ok { (m : PersistenceUnit) → IfOk result
        (λ passes. passes ≡ migration.default_passes (world_of B.meaning m registry.now)
        attribute.now (Some default.now)) }
    ensures err { IfErr result (λ cause. cause ≡ Cause.OutOfMemory) }
{
    Ok(is_given(&column_value(registry, attribute, default)?))
}

/// Whether the defaults that a class itself declares pass their converters.
fn class_passes<B: Behaviour>(
    metamodel: &Metamodel,
    registry: &Registry<B>,
    history: &History,
    class: usize,
) -> Result<bool, Cause>
    requires { class < length metamodel.now.entities }
    ensures ok { IfOk result (λ pass. pass ≡ changed.class_passes
        (world_of B.meaning metamodel.now registry.now) history.now class) }
    ensures err { IfErr result (λ cause. cause ≡ Cause.OutOfMemory) }
{
    let attributes = metamodel.entity(class).attributes.as_slice();
    for (i, attribute) in attributes.iter().enumerate() {
        if let Some(default) = default_at(history, class, i) {
            if !passes(registry, attribute, default)? {
                return Ok(false);
            }
        }
    }
    Ok(true)
}

/// Whether each default passes its converter, so that the column has a value for it.
pub fn defaults_pass<B: Behaviour>(
    metamodel: &Metamodel,
    registry: &Registry<B>,
    history: &History,
) -> Result<bool, Cause>
    ensures pass { IfOk result (λ pass. pass ≡ migration.defaults_pass
        (world_of B.meaning metamodel.now registry.now) history.now) }
    ensures err { IfErr result (λ cause. cause ≡ Cause.OutOfMemory) }
{
    for class in 0..metamodel.entities().len() {
        if !class_passes(metamodel, registry, history, class)? {
            return Ok(false);
        }
    }
    Ok(true)
}
