//! What the query language has, as tables: the shape of each function, and a text of JSON that tells
//! the words, functions and limits of a language's grammar (Jakarta Persistence 3.1, chapter 4).

mod laws;
mod text;

pub use laws::calls_are_typed_by_shape;
pub use text::grammar_text;
