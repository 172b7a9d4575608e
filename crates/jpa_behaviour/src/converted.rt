//! Which answers of a converter count.
ghost use Rattle.std.specs.Prelude.{◌≡◌};
ghost use Rattle.jpa_value.specs.declared.value.Value.{Value};
ghost use Rattle.jpa_behaviour.specs.Behaviour.{is_convertible};
ghost use Rattle.jpa_behaviour.specs.Registered as spec;

use jpa_value::{Cause, MOST_BYTES, PersistenceFault, Value};

// Every integer of 64 bits counts.
fn number_counts(number: i64) -> bool
    ensures { result ≡ is_convertible (Value.Int number) }
{
    let _number = number;
    true
}

fn text_counts(text: &str) -> bool
    ensures { result ≡ is_convertible (Value.Text text.now) }
{
    text.len() <= MOST_BYTES
}

fn bytes_count(bytes: &[u8]) -> bool
    ensures { result ≡ is_convertible (Value.Bytes bytes.now) }
{
    bytes.len() <= MOST_BYTES
}

/// Whether a value counts as an answer: it is not null, and at most 65,535 bytes long.
fn counts(value: &Value) -> bool
    ensures { result ≡ is_convertible value.now }
{
    match value {
        Value::Null => false,
        Value::Int(number) => number_counts(*number),
        Value::Text(text) => text_counts(text.as_str()),
        Value::Bytes(bytes) => bytes_count(bytes.as_slice()),
    }
}

/// The answer of a converter; none, and one that does not count, is `Persistence(converter)`.
pub(crate) fn or_thrown(answer: Option<Value>) -> Result<Value, Cause>
    ensures { result ≡ spec.or_thrown (spec.counted answer) }
{
    match answer {
        Some(value) if counts(&value) => Ok(value),
        _ => Err(Cause::Persistence(PersistenceFault::Converter)),
    }
}
