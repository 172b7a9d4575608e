//! The program's functions as stored functions.
ghost use Rattle.jpa_json.specs.functions.Functions as spec;
ghost use Rattle.jpa_json.specs.functions.Laws as laws;

use crate::functions::make::{Converter, Listener};
use crate::functions::{converting, hearing};
use jpa_behaviour::{Behaviour, Heard, Image};
use jpa_value::{Cause, Value};
use std::alloc::Global;

/// The stored functions of the program.
pub struct ProgramFunctions;

impl Behaviour for ProgramFunctions {
    type Listener = Listener;

    type Converter = Converter;

    ghost meaning = { spec.meaning };

    fn hear(alloc: Global, listener: &Listener, image: &Image) -> Result<Heard, Cause> {
        hearing::hear(alloc, listener, image)
    }

    fn to_column(
        alloc: Global,
        converter: &Converter,
        value: &Value,
    ) -> Result<Option<Value>, Cause> {
        converting::to_column(alloc, converter, value)
    }

    fn to_attribute(
        alloc: Global,
        converter: &Converter,
        value: &Value,
    ) -> Result<Option<Value>, Cause> {
        converting::to_attribute(alloc, converter, value)
    }

    ghost inverse = { laws.inverse };

    ghost representable = { laws.representable };
}
