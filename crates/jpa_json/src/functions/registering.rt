//! The registry of a mapping's functions.
ghost use Rattle.std.specs.Prelude.{◌≡◌, ◌⊎◌, true, ◌++◌, OnOk, IfErr};
ghost use Rattle.std.specs.Option.{option_to_list};
ghost use Rattle.jpa_value.specs.declared.refusal.Argument.{Argument};
ghost use Rattle.jpa_value.specs.declared.refusal.Cause.{Cause};
ghost use Rattle.jpa_model.specs.Described.{IsUnlessMemory};
ghost use Rattle.jpa_json.specs.functions.Sorts as sorts;

use crate::functions::behaviour::ProgramFunctions;
use crate::functions::make::{Function, Make};
use jpa_behaviour::Registry;
use jpa_value::{Cause, Seq};
use jpql_trees::tree::Language;
use std::alloc::Global;

/// The registry of these functions, each in its sort under its name, in the order of the list, with
/// a language of queries. A second name of a sort is `IllegalArgument(second)`; functions that `read_functions` answered
/// have none. `OutOfMemory` where a growth was refused.
pub fn registry_of(
    alloc: Global,
    language: Language,
    functions: Seq<Function>,
) -> Result<Registry<ProgramFunctions>, Cause>
    ensures { IsUnlessMemory result (sorts.registered language functions) }
{
    let mut registry = Registry::new(alloc, language);
    for function in functions.into_vec() {
        register(&mut registry, function)?;
    }
    registry.laws();
    Ok(registry)
}

/// Adds a function to its sort.
fn register(registry: &mut Registry<ProgramFunctions>, function: Function) -> Result<(), Cause>
    ensures listeners { OnOk result (registry.new.listeners ≡ registry.old.listeners
        ++ option_to_list (sorts.listener_so function.name function.make)) }
    ensures converters { OnOk result (registry.new.converters ≡ registry.old.converters
        ++ option_to_list (sorts.converter_so function.name function.make)) }
    ensures language { OnOk result (registry.new.language ≡ registry.old.language) }
    ensures refused { IfErr result (λ cause. (cause ≡ Cause.OutOfMemory)
        ⊎ ((cause ≡ Cause.IllegalArgument Argument.Second)
        × (sorts.stands registry.old function.name function.make ≡ true))) }
{
    let Function { name, make } = function;
    match make {
        Make::Listener(listener) => registry.add_listener(name.as_str(), listener),
        Make::Converter(converter) => registry.add_converter(name.as_str(), converter),
    }
}
