//! Reading values.
ghost use Rattle.serde_json.specs.View.{view};
ghost use Rattle.jpa_json.specs.readers.Outcome.{Gives, same};
ghost use Rattle.jpa_json.specs.readers.Values as values;

use crate::readers::members::{only, str_at};
use crate::readers::unread::Unread;
use hex::FromHexError;
use jpa_value::{ByteString, Text, Value};
use serde_json::Value as Json;
use std::alloc::Global;

fn bytes_said(alloc: Global, digits: &str) -> Result<Value, Unread>
    ensures { Gives same result (values.bytes_said digits.now) }
{
    match hex::decode(alloc, digits) {
        Ok(bytes) => Ok(Value::Bytes(ByteString::of(bytes)?)),
        Err(FromHexError::OutOfMemory) => Err(Unread::OutOfMemory),
        Err(_) => Err(Unread::Form),
    }
}

/// Bytes, which are written as an object of the one member `hex`.
#[tactic(auto, unfolding(crate::specs::readers::Values::bytes_of))]
fn bytes_of(alloc: Global, json: &Json) -> Result<Value, Unread>
    ensures { Gives same result (values.bytes_of (view json.now)) }
{
    only(json, 1)?;
    let digits = str_at(json, "hex")?;
    bytes_said(alloc, digits)
}

/// A value that is not null: an integer of 64 bits, a text, or bytes as `{"hex":"0aff"}`; `Form`
/// where it is none, `OutOfMemory` where a growth was refused.
pub fn value_of(alloc: Global, json: &Json) -> Result<Value, Unread>
    ensures { Gives same result (values.value_of (view json.now)) }
{
    match json {
        Json::Null | Json::Bool(_) | Json::Array(_) => Err(Unread::Form),
        Json::Number(number) => match number.as_i64() {
            Some(number) => Ok(Value::Int(number)),
            None => Err(Unread::Form),
        },
        Json::String(text) => Ok(Value::Text(Text::of(alloc, text.as_str())?)),
        Json::Object(_) => bytes_of(alloc, json),
    }
}
