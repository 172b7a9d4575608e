//! Reading the pairs of a table.
ghost use Rattle.serde_json.specs.View.{items_view};
ghost use Rattle.jpa_json.specs.readers.Outcome.{Gives, same};
ghost use Rattle.jpa_json.specs.functions.FunctionsOf as spec;

use crate::functions::make::Pair;
use crate::functions::makes::Functions;
use crate::readers::{Described, Unread, value_of};
use serde_json::Value as Json;
use std::alloc::Global;

impl Described<Functions> for Pair {
    ghost meaning = { spec.pair_of };

    fn read(alloc: Global, json: &Json) -> Result<Pair, Unread> {
        let items = json.as_array().ok_or(Unread::Form)?;
        pair_in(alloc, items.as_slice())
    }
}

fn pair_in(alloc: Global, items: &[Json]) -> Result<Pair, Unread>
    ensures { Gives same result (spec.pair_in (items_view items.now)) }
{
    match items {
        [attribute, column] => {
            let attribute = value_of(alloc, attribute)?;
            let column = value_of(alloc, column)?;
            Ok(Pair { attribute, column })
        }
        _ => Err(Unread::Form),
    }
}
