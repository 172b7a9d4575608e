//! What values of JSON are read as.
ghost use Rattle.std.specs.Prelude.{Option};
ghost use Rattle.serde_json.specs.Data.{Data};
ghost use Rattle.serde_json.specs.Find.{as_str};
ghost use Rattle.serde_json.specs.View.{view, items_view};
ghost use Rattle.jpa_json.specs.readers.Members as members;
ghost use Rattle.jpa_json.specs.readers.Outcome.{Gives, same};

use crate::readers::unread::Unread;
use jpa_value::{Seq, Text};
use serde_json::Value as Json;
use std::alloc::Global;

/// What a value of JSON is read as, in the language `L`: a type of the crate that reads, so that it
/// may say how types of the crates below it are written.
pub trait Described<L>: Drop {
    /// What a value says, where it has the form.
    ghost meaning: { Data → Option Self };

    /// What the value says; `Form` where it has another form, `OutOfMemory` where a growth was
    /// refused.
    fn read(alloc: Global, json: &Json) -> Result<Self, Unread>
        ensures { Gives same result (meaning (view json.now)) };
}

impl<L> Described<L> for Text {
    ghost meaning = { as_str };

    fn read(alloc: Global, json: &Json) -> Result<Text, Unread> {
        let text = str_of(json)?;
        Ok(Text::of(alloc, text)?)
    }
}

impl<L> Described<L> for i64 {
    ghost meaning = { members.integer_of };

    fn read(_alloc: Global, json: &Json) -> Result<i64, Unread> {
        json.as_i64().ok_or(Unread::Form)
    }
}

impl<L, T: Described<L>> Described<L> for Seq<T> {
    ghost meaning = { members.list_of T.meaning };

    fn read(alloc: Global, json: &Json) -> Result<Seq<T>, Unread> {
        let items = json.as_array().ok_or(Unread::Form)?;
        each::<L, T>(alloc, items.as_slice())
    }
}

fn each<L, T: Described<L>>(alloc: Global, items: &[Json]) -> Result<Seq<T>, Unread>
    ensures { Gives same result (members.each T.meaning (items_view items.now)) }
{
    let mut list = Vec::new(alloc);
    for item in items {
        let entry = T::read(alloc, item)?;
        list.push(entry)?;
    }
    Ok(Seq::of(list))
}

/// A text where it stands; `Form` where the value is none.
pub fn str_of(json: &Json) -> Result<&str, Unread>
    ensures { Gives (λ s. s.now) result (as_str (view json.now)) }
{
    json.as_str().ok_or(Unread::Form)
}
