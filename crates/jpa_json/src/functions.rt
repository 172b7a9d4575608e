//! The program's own stored functions: five listeners and three converters, which a mapping
//! describes.
//!
//! A mapping's member `functions` is a list of objects. Each has a `name`, any text, a `make`, and
//! the members of that make and no others. Listeners (callbacks are among them) and converters are
//! two sorts of name; no name of a sort stands twice.
//!
//! | `make` | Members | What it does |
//! |---|---|---|
//! | `set_text` | `attribute`, `value` (a text) | a listener that gives the attribute the text |
//! | `copy` | `from`, `to` | a listener that gives `to` the value of `from`, null where there is no
//! such value |
//! | `count` | `attribute` | a listener that adds 1, from 0 where the value is null; throws `count`
//! at the greatest integer and for what is no integer |
//! | `require` | `attribute` | a listener that throws `require` and the name where the value is
//! null or isn't there |
//! | `note` | | a listener that assigns nothing |
//! | `flip` | | a converter of integers, `i` to `-1-i` |
//! | `table` | `pairs`, a list of lists of an attribute's value and its column's value | a
//! converter by these pairs, of which no side stands twice |
//! | `hextext` | | a converter of bytes to their hexadecimal digits in lower case |
//!
//! A converter throws for what it does not convert. Values in pairs are integers of 64 bits, texts
//! and `{"hex":"0aff"}`.
//!
//! The definitions that contracts cite stand in `specs/`: what JSON describes in `FunctionsOf`,
//! what a mapping's bytes say in `FunctionsIn`, what each function means in `Functions`, with the
//! tables in `Pairs`, what is registered in `Sorts`, and which names a unit uses in `Known`.

mod behaviour;
mod converting;
mod distinct;
mod hearing;
mod known;
mod make;
mod makes;
mod pairs;
mod reading;
mod registering;

pub use behaviour::ProgramFunctions;
pub use known::names_are_known;
pub use make::{Converter, Function, Listener, Make, Pair, SetText, Table};
pub use reading::read_functions;
pub use registering::registry_of;
