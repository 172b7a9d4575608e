//! The grammar of the Jakarta Persistence Query Language (Jakarta Persistence 3.1, chapter 4): its
//! tokens, and how the trees of `jpql_trees::tree` are written.
//!
//! The grammar stands in `specs/` apart from any reader. `ValueGrammar` and `Grammar` have derivations:
//! what each writes, and its tree. `Text` says which tokens a text has, `Lists` what a collection stands
//! for, `Queries` which text is which query, and `Limits` how deep parentheses nest. `Values`,
//! `Conditions`, `Statements` and `Lexing` are reading as functions on lists, and `proofs/` has the laws
//! that these are the grammar, both ways, and that a text has at most one tree. `Tested` is a test of
//! values, before it is a condition or a value of CASE. The crate stands on `jpa_value` and `jpql_trees::tree`.

mod lists;
mod tested;
mod token;

pub use lists::{Before, GivenList, value_name};
pub use tested::Tested;
pub use token::{Callee, Keyword, Mark, Token};
