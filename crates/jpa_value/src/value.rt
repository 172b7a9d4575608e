//! Values, kinds, keys and identities.
ghost use Rattle.std.specs.Prelude.{◌≡◌};
ghost use Rattle.jpa_value.specs.Value as values;

use crate::key::Key;
use crate::limits::MOST_BYTES;
use crate::list::{ByteString, Text};

/// What an attribute, a key part or a parameter holds (chapter 2.2, in this profile: whole numbers,
/// texts and bytes). A text or byte value of an entity has at most 65,535 bytes; `fits` tells.
#[derive(Debug, Drop)]
pub enum Value {
    /// No value.
    Null,
    /// A whole number of 64 bits.
    Int(i64),
    /// A text in UTF-8.
    Text(Text),
    /// A byte string.
    Bytes(ByteString),
}

/// What kind of value an attribute or a key part takes.
#[derive(Clone, Copy, Debug)]
pub enum Kind {
    Int,
    Text,
    Bytes,
}

/// What names a stored object: the table of the root of its hierarchy and its key (chapter 2.4).
#[derive(Drop)]
pub struct Identity {
    /// The table's number.
    pub table: u64,
    /// The primary key.
    pub key: Key,
}

/// Whether a value can stand in an attribute of this kind: null, or a value of the kind of at most
/// 65,535 bytes. Takes no memory.
pub fn fits(kind: Kind, value: &Value) -> bool
    ensures { result ≡ values.fits kind value.now }
{
    match (kind, value) {
        (_, Value::Null) => true,
        (Kind::Int, Value::Int(_)) => true,
        (Kind::Text, Value::Text(text)) => text.as_bytes().len() <= MOST_BYTES,
        (Kind::Bytes, Value::Bytes(bytes)) => bytes.as_slice().len() <= MOST_BYTES,
        _ => false,
    }
}
