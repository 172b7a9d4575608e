//! Reads what statements of the Jakarta Persistence Query Language are made of from tokens (Jakarta
//! Persistence 3.1): values (chapter 4.7), tests of values (chapters 4.6.7 to 4.6.14), conditions
//! (chapter 4.6), and what holds conditions or stands beside them: the ranges and joins of FROM
//! (chapter 4.4), items of SELECT, and the SELECTs nested in EXISTS (chapter 4.6.14) and beside values
//! (chapters 4.6.9, 4.6.15 and 4.6.16).
//!
//! `steps` has the steps over tokens that every line of the grammar takes: marks, words, names and
//! paths. `lookahead` tells whether an open parenthesis begins a condition or a value, by what follows
//! the one that closes it. `tested` has tests of values, which stand in conditions and in CASE.
//!
//! Each function answers what its function on lists in `jpql_grammar`'s `specs/Values` and
//! `specs/Conditions` gives for the tokens, and `Memory` where a growth was refused; that crate has
//! the laws that these functions are the grammar. The tokens after what was read are handed back.
//! The crate stands on `jpa_value`, `jpql_trees::tree`, `jpql_grammar` and `jpql_grammar::lexer`.

mod conditions;
mod lookahead;
mod predicates;
mod rows;
mod steps;
mod tested;
mod values;

pub use conditions::{clause, item, named, optional_name, related, sources};
pub use predicates::begins_variable;
pub use steps::{after, after_word, is_word, name, optional_word, path, sees};
pub use values::value;
