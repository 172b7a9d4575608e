//! From bytes to JSON.
ghost use Rattle.serde_json.specs.View.{view};
ghost use Rattle.jpa_json.specs.readers.JsonOf.{text_data};
ghost use Rattle.jpa_json.specs.readers.Outcome.{Gives};

use crate::readers::unread::Unread;
use serde_json::Value as Json;
use std::alloc::Global;

/// What the bytes say as a text of JSON in UTF-8; `Form` where they are no UTF-8 or `serde_json`
/// does not read the text, `OutOfMemory` where a growth was refused.
pub fn json_of(alloc: Global, bytes: &[u8]) -> Result<Json, Unread>
    ensures { Gives view result (text_data bytes.now) }
{
    let Ok(text) = str::from_utf8(bytes) else {
        return Err(Unread::Form);
    };
    match Json::from_str(alloc, text) {
        Ok(json) => Ok(json),
        Err(error) => {
            if error.is_memory() {
                Err(Unread::OutOfMemory)
            } else {
                Err(Unread::Form)
            }
        }
    }
}
