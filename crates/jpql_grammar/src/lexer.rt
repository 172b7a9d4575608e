//! Cuts a text of the query language into tokens (Jakarta Persistence 3.1, chapter 4.4.1:
//! identifiers, and 4.6.1: literals).
//!
//! A text is seen as its bytes. `jpql_grammar`'s `specs/Text` says which tokens a text has, as a
//! relation: each word, number and mark goes as far as its characters do. The crate stands on
//! `jpa_value`, `jpql_trees::tree` and `jpql_grammar`.

mod cut;
mod error;
mod keywords;
mod pieces;

pub use error::ReadError;
pub use pieces::{at_most_one_list, tokens};
