//! The reader of the Jakarta Persistence Query Language (Jakarta Persistence 3.1, chapter 4).
//!
//! `read_query` takes a text of a language, seen as its bytes, to the tree of `jpql_trees::tree`.
//! `jpql_grammar` has the grammar as a relation between texts and trees (`specs/Queries`), reading as
//! functions on lists (`specs/Values`, `Conditions`, `Statements`), and the laws that these are the
//! grammar. `jpql_grammar::lexer` cuts the text into tokens, `jpql_grammar::conditions` reads values and conditions,
//! and here are collections behind IN, statements, the limits and the whole.
//!
//! Conditions and values recurse as deep as parentheses and CASEs nest: of those a text has at most
//! 32, and one more where a collection stands for its values, of these at most 64. Each recursion
//! counts down from the number of tokens, of which each step takes one at least.

mod language;
mod limits;
mod lists;
mod read;
mod rows;
mod statements;
mod variables;

pub use lists::MOST_LIST_VALUES;
pub use read::{a_profile_text_is_wide, at_most_one_tree, read_query, uses_lists};
