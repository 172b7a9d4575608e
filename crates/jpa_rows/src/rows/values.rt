//! Which values are short, and what holds of each value.
ghost use Rattle.std.specs.Prelude.{◌≡◌, true, nat_lt};
ghost use Rattle.std.specs.List.{list_all};
ghost use Rattle.std.specs.Str.{is_utf8};
ghost use Rattle.jpa_value.specs.Value.{is_representable};
ghost use Rattle.jpa_behaviour.specs.Behaviour as behaviour;

use jpa_value::{MOST_BYTES, Value};

/// Whether a value has at most 65,535 bytes, as null and each integer does. Takes no memory.
pub fn is_short(value: &Value) -> bool
    ensures { result ≡ behaviour.is_short value.now }
{
    match value {
        Value::Null | Value::Int(_) => true,
        Value::Text(text) => text.as_bytes().len() <= MOST_BYTES,
        Value::Bytes(bytes) => bytes.as_slice().len() <= MOST_BYTES,
    }
}

/// The law of texts, for contracts to cite: each is in UTF-8. It reads and does nothing.
pub fn text_is_representable(text: &str)
    ensures { is_utf8 text.now ≡ true }
{}

fn bytes_are_representable(bytes: &[u8])
    ensures { list_all (λ b. nat_lt b 256) bytes.now ≡ true }
{}

/// The law of values, for contracts to cite: each is null, an integer of 64 bits, a text in UTF-8,
/// or bytes. It reads and does nothing.
pub fn value_is_representable(value: &Value)
    ensures { is_representable value.now ≡ true }
{
    match value {
        Value::Null => {}
        Value::Int(number) => {
            let _number = *number;
        }
        Value::Text(text) => text_is_representable(text.as_str()),
        Value::Bytes(bytes) => bytes_are_representable(bytes.as_slice()),
    }
}
