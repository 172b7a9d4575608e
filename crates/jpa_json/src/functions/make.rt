//! Stored functions as data.
ghost use Rattle.std.specs.Prelude.{◌≡◌, true};
ghost use Rattle.std.specs.Str.{is_utf8};
ghost use Rattle.jpa_json.specs.functions.Pairs.{are_apart};

use jpa_value::{Seq, Text, Value};

/// A stored function under its name.
#[derive(Drop)]
pub struct Function {
    pub name: Text,
    pub make: Make,
}

/// Of which sort a function is.
#[derive(Drop)]
pub enum Make {
    Listener(Listener),
    Converter(Converter),
}

/// A listener or callback (Jakarta Persistence 3.1, chapter 3.5).
#[derive(Drop)]
pub enum Listener {
    /// Gives an attribute a text.
    SetText(SetText),
    /// Gives an attribute the value of another name.
    Copy { from: Text, to: Text },
    /// Adds 1 to an attribute.
    Count { attribute: Text },
    /// Throws where an attribute has no value.
    Require { attribute: Text },
    /// Assigns nothing.
    Note,
}

/// An attribute, and the text that it is given.
#[derive(Drop)]
pub struct SetText {
    pub attribute: Text,
    pub value: Text,
    ghost is_text: { is_utf8 value ≡ true },
}

/// A converter (Jakarta Persistence 3.1, chapter 3.8).
#[derive(Drop)]
pub enum Converter {
    /// Turns an integer `i` to `-1-i`.
    Flip,
    /// Goes by the pairs of a table.
    Table(Table),
    /// Writes bytes as hexadecimal digits in lower case.
    Hextext,
}

/// A value of an attribute, and the value that stands for it in the column.
#[derive(Drop)]
pub struct Pair {
    pub attribute: Value,
    pub column: Value,
}

/// Pairs, of which no side stands twice.
#[derive(Drop)]
pub struct Table {
    pub pairs: Seq<Pair>,
    ghost apart: { are_apart pairs ≡ true },
}
