//! Collections that are handed in for parameters.
ghost use Rattle.std.specs.Prelude.{◌≡◌, IfOk};
ghost use Rattle.jpql_grammar.specs.grammar.Lists as spec;

use jpa_value::Text;
use std::alloc::{AllocError, Global};

/// A parameter that a collection was handed in for (chapter 4.6.9), and how many values it has.
#[derive(Drop)]
pub struct GivenList {
    pub name: Text,
    pub count: usize,
}

/// What stands right before a token.
#[derive(Clone, Copy)]
pub enum Before {
    In,
    /// IN and a parenthesis that opens.
    InParenthesis,
    Other,
}

/// The name of the parameter that stands for one value of a collection, which is counted from 1. No
/// text has such a parameter, since none has a comma in its name. Fails for want of memory alone.
pub fn value_name(alloc: Global, name: &str, place: usize) -> Result<Text, AllocError>
    ensures { IfOk result (λ text. text ≡ spec.value_name name.now place) }
{
    Ok(Text::from_string(format!(in alloc; "{name},{place}")?)?)
}
