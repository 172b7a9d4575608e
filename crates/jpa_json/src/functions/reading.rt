//! From the bytes of a mapping to its functions.
ghost use Rattle.std.specs.Prelude.{◌≡◌, true, codes, IfOk};
ghost use Rattle.serde_json.specs.Find.{get};
ghost use Rattle.serde_json.specs.View.{view};
ghost use Rattle.jpa_model.specs.Described.{IsUnlessMemory};
ghost use Rattle.jpa_json.specs.readers.Outcome.{Gives, same};
ghost use Rattle.jpa_json.specs.functions.FunctionsIn as spec;
ghost use Rattle.jpa_json.specs.functions.FunctionsOf as said;
ghost use Rattle.jpa_json.specs.functions.Sorts.{are_named_once};

use crate::functions::distinct::none_meets;
use crate::functions::make::Function;
use crate::functions::makes::Functions;
use crate::readers::{Described, Unread, json_of, or_refuse};
use jpa_value::{Cause, MappingFault, Seq};
use serde_json::Value as Json;
use std::alloc::Global;

/// The stored functions that a mapping describes, in the order of its member `functions`; none
/// where it has no such member. The bytes are the whole mapping, a text of JSON in UTF-8.
///
/// Refuses as `Mapping(Json)` bytes that are no UTF-8 or a text that `serde_json` does not read,
/// else as `Mapping(Shape)` JSON that is no object, as whoever reads the entities of the mapping
/// does. Else refuses as `Mapping(Function)` functions of another form: no list of objects, another
/// make, a member that is missing, that the make does not have or that is of another type, a pair
/// of a table that is no list of two values (null and objects that live are none), a side of a
/// table that stands twice, a second name of one sort. `OutOfMemory` where a growth was refused.
pub fn read_functions(alloc: Global, bytes: &[u8]) -> Result<Seq<Function>, Cause>
    ensures functions { IsUnlessMemory result (spec.functions_in bytes.now) }
    ensures once { IfOk result (λ functions. are_named_once functions ≡ true) }
{
    let json = or_refuse(json_of(alloc, bytes), Cause::Mapping(MappingFault::Json))?;
    functions_at(alloc, &json)
}

/// The functions of a mapping, which is an object.
#[tactic(auto, using(crate::proofs::functions::Texts::formed))]
fn functions_at(alloc: Global, json: &Json) -> Result<Seq<Function>, Cause>
    ensures { IsUnlessMemory result (spec.functions_at (view json.now)) }
{
    match json {
        Json::Object(_) => or_refuse(
            functions_if_there(alloc, json),
            Cause::Mapping(MappingFault::Function),
        ),
        _ => Err(Cause::Mapping(MappingFault::Shape)),
    }
}

fn functions_if_there(alloc: Global, json: &Json) -> Result<Seq<Function>, Unread>
    ensures { Gives same result (said.functions_if_there
        (get (codes "functions") (view json.now))) }
{
    match json.get("functions") {
        Some(functions) => functions_of(alloc, functions),
        None => Ok(Seq::new(alloc)),
    }
}

#[tactic(auto, unfolding(crate::specs::functions::FunctionsOf::functions_of))]
fn functions_of(alloc: Global, json: &Json) -> Result<Seq<Function>, Unread>
    ensures { Gives same result (said.functions_of (view json.now)) }
{
    let functions = <Seq<Function> as Described<Functions>>::read(alloc, json)?;
    if none_meets(functions.as_slice()) {
        Ok(functions)
    } else {
        Err(Unread::Form)
    }
}
