//! Copies that may want memory.
ghost use Rattle.std.specs.Prelude.{◌≡◌, IfOk, IfErr};
ghost use Rattle.jpa_value.specs.declared.refusal.Cause.{Cause};

use crate::list::{ByteString, Bytes, Seq, Text};
use crate::refusal::Cause;
use crate::value::{Identity, Value};

/// A type whose values can be copied, where there is memory.
pub trait TryCopy: Drop {
    /// An equal value; `OutOfMemory` where a growth was refused. Texts and byte strings are shared.
    fn try_copy(&self) -> Result<Self, Cause>
        ensures equal { IfOk result (λ copy. copy ≡ self.now) }
        ensures err { IfErr result (λ cause. cause ≡ Cause.OutOfMemory) };
}

impl TryCopy for Text {
    fn try_copy(&self) -> Result<Text, Cause> {
        Ok(self.share()?)
    }
}

impl TryCopy for ByteString {
    fn try_copy(&self) -> Result<ByteString, Cause> {
        Ok(self.share()?)
    }
}

impl TryCopy for Bytes {
    fn try_copy(&self) -> Result<Bytes, Cause> {
        let alloc = self.allocator();
        Ok(Bytes::of(Vec::from_slice(alloc, self.as_slice())?))
    }
}

impl<T: TryCopy> TryCopy for Seq<T> {
    fn try_copy(&self) -> Result<Seq<T>, Cause> {
        let mut copies = Seq::new(self.allocator());
        for item in self.as_slice() {
            copies.push(item.try_copy()?)?;
        }
        Ok(copies)
    }
}

impl TryCopy for Value {
    fn try_copy(&self) -> Result<Value, Cause> {
        match self {
            Value::Null => Ok(Value::Null),
            Value::Int(number) => Ok(Value::Int(*number)),
            Value::Text(text) => Ok(Value::Text(text.try_copy()?)),
            Value::Bytes(bytes) => Ok(Value::Bytes(bytes.try_copy()?)),
        }
    }
}

impl TryCopy for Identity {
    fn try_copy(&self) -> Result<Identity, Cause> {
        Ok(Identity {
            table: self.table,
            key: self.key.try_copy()?,
        })
    }
}
