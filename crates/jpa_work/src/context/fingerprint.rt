//! Fingerprints of keys.
ghost use Rattle.std.specs.Prelude.{◌≡◌, fold};
ghost use Rattle.jpa_work.specs.context.Near as near;

use jpa_value::Value;

/// One more number in a fingerprint.
fn mixed(print: u64, number: u64) -> u64
    ensures { result ≡ near.mixed print number }
{
    print.wrapping_mul(1_099_511_628_211).wrapping_add(number)
}

/// One more value.
fn with_value(print: u64, value: &Value) -> u64
    ensures { result ≡ near.with_value print value.now }
{
    match value {
        Value::Null => mixed(print, 0),
        Value::Int(number) => mixed(print, number.cast_unsigned()),
        Value::Text(text) => with_bytes(print, text.as_bytes()),
        Value::Bytes(bytes) => with_bytes(print, bytes.as_slice()),
    }
}

/// More bytes.
fn with_bytes(print: u64, bytes: &[u8]) -> u64
    ensures { result ≡ fold near.mixed print bytes.now }
{
    let mut print = print;
    for byte in bytes {
        print = mixed(print, u64::from(*byte));
    }
    print
}

/// The fingerprint of a key. Takes no memory.
#[tactic(auto, unfolding(crate::specs::context::Near::fingerprint))]
pub fn fingerprint(key: &[Value]) -> u64
    ensures { result ≡ near.fingerprint key.now }
{
    let mut print = 1;
    for value in key {
        print = with_value(print, value);
    }
    print
}
