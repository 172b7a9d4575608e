//! Reading functions, each by its make.
ghost use Rattle.serde_json.specs.View.{view};
ghost use Rattle.jpa_json.specs.readers.Outcome.{Gives, same};
ghost use Rattle.jpa_json.specs.functions.FunctionsOf as spec;

use crate::functions::distinct::none_meets;
use crate::functions::make::{Converter, Function, Listener, Make, Pair, SetText, Table};
use crate::readers::{Described, Unread, member, only, str_at, text_at};
use jpa_value::{Seq, Text};
use serde_json::Value as Json;
use std::alloc::Global;

/// The language of a mapping's functions: what they are read as is `Described<Functions>`.
pub(super) struct Functions;

/// An attribute with the text that it is given.
#[tactic(auto, unfolding(crate::specs::functions::FunctionsOf::text_for))]
fn text_for(alloc: Global, attribute: Text, value: &str) -> Result<SetText, Unread>
    ensures { Gives same result (spec.text_for attribute value.now) }
{
    let value = Text::of(alloc, value)?;
    Ok(SetText { attribute, value })
}

#[tactic(auto, unfolding(crate::specs::functions::FunctionsOf::set_text_of))]
fn set_text_of(alloc: Global, json: &Json) -> Result<Listener, Unread>
    ensures { Gives same result (spec.set_text_of (view json.now)) }
{
    only(json, 4)?;
    let attribute = text_at(alloc, json, "attribute")?;
    let value = str_at(json, "value")?;
    let given = text_for(alloc, attribute, value)?;
    Ok(Listener::SetText(given))
}

#[tactic(auto, unfolding(crate::specs::functions::FunctionsOf::copy_of))]
fn copy_of(alloc: Global, json: &Json) -> Result<Listener, Unread>
    ensures { Gives same result (spec.copy_of (view json.now)) }
{
    only(json, 4)?;
    let from = text_at(alloc, json, "from")?;
    let to = text_at(alloc, json, "to")?;
    Ok(Listener::Copy { from, to })
}

#[tactic(auto, unfolding(crate::specs::functions::FunctionsOf::count_listener_of))]
fn count_listener_of(alloc: Global, json: &Json) -> Result<Listener, Unread>
    ensures { Gives same result (spec.count_listener_of (view json.now)) }
{
    only(json, 3)?;
    let attribute = text_at(alloc, json, "attribute")?;
    Ok(Listener::Count { attribute })
}

#[tactic(auto, unfolding(crate::specs::functions::FunctionsOf::require_of))]
fn require_of(alloc: Global, json: &Json) -> Result<Listener, Unread>
    ensures { Gives same result (spec.require_of (view json.now)) }
{
    only(json, 3)?;
    let attribute = text_at(alloc, json, "attribute")?;
    Ok(Listener::Require { attribute })
}

/// A table of these pairs, where no side stands twice.
#[tactic(auto, unfolding(crate::specs::functions::FunctionsOf::table_with))]
fn table_with(pairs: Seq<Pair>) -> Result<Table, Unread>
    ensures { Gives same result (spec.table_with pairs) }
{
    if none_meets(pairs.as_slice()) {
        Ok(Table { pairs })
    } else {
        Err(Unread::Form)
    }
}

#[tactic(auto, unfolding(crate::specs::functions::FunctionsOf::table_of))]
fn table_of(alloc: Global, json: &Json) -> Result<Converter, Unread>
    ensures { Gives same result (spec.table_of (view json.now)) }
{
    only(json, 3)?;
    let pairs = <Seq<Pair> as Described<Functions>>::read(alloc, member(json, "pairs")?)?;
    let table = table_with(pairs)?;
    Ok(Converter::Table(table))
}

/// A make that has no members of its own.
fn bare(make: Make, json: &Json) -> Result<Make, Unread>
    ensures { Gives same result (spec.bare make (view json.now)) }
{
    only(json, 2)?;
    Ok(make)
}

/// What a function of this make says.
fn made_of(alloc: Global, word: &str, json: &Json) -> Result<Make, Unread>
    ensures { Gives same result (spec.made_of word.now (view json.now)) }
{
    match word {
        "set_text" => Ok(Make::Listener(set_text_of(alloc, json)?)),
        "copy" => Ok(Make::Listener(copy_of(alloc, json)?)),
        "count" => Ok(Make::Listener(count_listener_of(alloc, json)?)),
        "require" => Ok(Make::Listener(require_of(alloc, json)?)),
        "note" => bare(Make::Listener(Listener::Note), json),
        "flip" => bare(Make::Converter(Converter::Flip), json),
        "table" => Ok(Make::Converter(table_of(alloc, json)?)),
        "hextext" => bare(Make::Converter(Converter::Hextext), json),
        _ => Err(Unread::Form),
    }
}

impl Described<Functions> for Function {
    ghost meaning = { spec.function_of };

    #[tactic(auto, unfolding(crate::specs::functions::FunctionsOf::function_of))]
    fn read(alloc: Global, json: &Json) -> Result<Function, Unread> {
        let name = text_at(alloc, json, "name")?;
        let word = str_at(json, "make")?;
        let make = made_of(alloc, word, json)?;
        Ok(Function { name, make })
    }
}
