//! Converters (chapter 3.8), and how long a value is.
ghost use Rattle.std.specs.Prelude.{◌≡◌, Ok, is_none};
ghost use Rattle.std.specs.Option.{option_copied};
ghost use Rattle.jpa_behaviour.specs.Registered.{column_in};
ghost use Rattle.jpql_bulk.specs.bulk.Assigns.{Assigns, same};
ghost use Rattle.jpql_bulk.specs.bulk.Throwing.{throws_by, throws_in};
ghost use Rattle.jpql_meaning.specs.plan.Bulk as bulk;

use crate::bulk::refused::Refused;
use jpa_behaviour::{Behaviour, Registry};
use jpa_model::Attribute;
use jpa_value::{Cause, MOST_BYTES, Text, Value};

/// Whether a value is longer than a text or a byte value may be.
pub(super) fn is_too_long(value: &Value) -> bool
    ensures { result ≡ bulk.is_too_long value.now }
{
    match value {
        Value::Null | Value::Int(_) => false,
        Value::Text(text) => text.as_bytes().len() > MOST_BYTES,
        Value::Bytes(bytes) => bytes.as_slice().len() > MOST_BYTES,
    }
}

/// Whether the converter of this name throws for a value, or makes what counts as thrown.
fn is_thrown<B: Behaviour>(
    registry: &Registry<B>,
    name: &str,
    value: &Value,
) -> Result<bool, Refused>
    ensures { Assigns same result
        (Ok (is_none (column_in B.meaning registry.now name.now value.now))) }
{
    match registry.to_column(name, value) {
        Ok(_) => Ok(false),
        Err(Cause::OutOfMemory) => Err(Refused::Memory),
        Err(_) => Ok(true),
    }
}

/// Whether a converter, if there is one, throws for a value.
fn throws_for<B: Behaviour>(
    registry: &Registry<B>,
    converter: &Option<Text>,
    value: &Value,
) -> Result<bool, Refused>
    ensures { Assigns same result (Ok (throws_by B.meaning registry.now converter.now value.now)) }
{
    match converter {
        None => Ok(false),
        Some(name) => is_thrown(registry, name.as_str(), value),
    }
}

/// Whether an attribute's converter throws for a value; null passes no converter.
pub(super) fn throws<B: Behaviour>(
    registry: &Registry<B>,
    attribute: Option<&Attribute>,
    value: &Value,
) -> Result<bool, Refused>
    ensures { Assigns same result
        (Ok (bulk.throws_at (throws_in B.meaning registry.now) (option_copied attribute.entry)
        value.now)) }
{
    match (attribute, value) {
        (None, _) | (Some(_), Value::Null) => Ok(false),
        (Some(attribute), Value::Int(_)) => throws_for(registry, &attribute.converter, value),
        (Some(attribute), Value::Text(_)) => throws_for(registry, &attribute.converter, value),
        (Some(attribute), Value::Bytes(_)) => throws_for(registry, &attribute.converter, value),
    }
}
