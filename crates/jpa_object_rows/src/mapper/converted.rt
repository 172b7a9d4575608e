//! Values as they stand in columns: through their converters (chapter 3.8).
ghost use Rattle.std.specs.Prelude.{◌≡◌, ◌⊎◌, true, false, Some, None, IfOk, IfErr, OnOk};
ghost use Rattle.jpa_value.specs.declared.refusal.Cause.{Cause};
ghost use Rattle.jpa_value.specs.declared.refusal.PersistenceFault.{PersistenceFault};
ghost use Rattle.jpa_model.specs.declared.unit.PersistenceUnit.{PersistenceUnit};
ghost use Rattle.jpa_behaviour.specs.Registered.{world_of, column_in};
ghost use Rattle.jpa_rows.specs.rows.Cells as cells;

use jpa_behaviour::{Behaviour, Registry};
use jpa_model::Attribute;
use jpa_value::{Cause, PersistenceFault, TryCopy, Value};

/// What the converter of this name makes of a value for its column; a throw, an answer that counts
/// as one and an unknown name are `Persistence(converter)`.
fn convert<B: Behaviour>(registry: &Registry<B>, name: &str, value: &Value) -> Result<Value, Cause>
    ensures ok { IfOk result (λ held. column_in B.meaning registry.now name.now value.now
        ≡ Some held) }
    ensures err { IfErr result (λ cause. (cause ≡ Cause.OutOfMemory)
        ⊎ ((cause ≡ Cause.Persistence PersistenceFault.Converter)
        × (column_in B.meaning registry.now name.now value.now ≡ None))) }
{
    match registry.to_column(name, value) {
        Ok(held) => Ok(held),
        Err(Cause::OutOfMemory) => Err(Cause::OutOfMemory),
        Err(_) => Err(Cause::Persistence(PersistenceFault::Converter)),
    }
}

/// What stands in the column of an attribute for a value: what the converter makes of it. Null
/// passes no converter.
pub(super) fn column_value<B: Behaviour>(
    registry: &Registry<B>,
    attribute: &Attribute,
    value: &Value,
) -> Result<Value, Cause>
    ensures ok { (m : PersistenceUnit) → IfOk result
        (λ held. held ≡ cells.column_value (world_of B.meaning m registry.now)
        attribute.now.converter value.now) }
    ensures passed { (m : PersistenceUnit) → OnOk result
        (cells.passes (world_of B.meaning m registry.now) attribute.now value.now ≡ true) }
    ensures err { (m : PersistenceUnit) → IfErr result
        (λ cause. (cause ≡ Cause.OutOfMemory)
        ⊎ ((cause ≡ Cause.Persistence PersistenceFault.Converter)
        × (cells.passes (world_of B.meaning m registry.now) attribute.now value.now ≡ false))) }
{
    match (&attribute.converter, value) {
        (None, _) => value.try_copy(),
        (Some(_), Value::Null) => Ok(Value::Null),
        (Some(name), _) => convert(registry, name.as_str(), value),
    }
}
