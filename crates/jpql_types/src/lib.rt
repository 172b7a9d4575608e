//! Well-typed queries of the Jakarta Persistence Query Language (Jakarta Persistence 3.1, chapter
//! 4).
//!
//! `check_query` takes a statement to its typed tree, in which places stand for names, or refuses
//! it.
//!
//! The rules stand in `specs/`: in `Scope` what paths mean from the variables in scope, in `Sorts`
//! what values are of and which go together, in `Typing` which values, conditions and nested
//! SELECTs are well typed, in `Statements` which statements are, and what a check of one answers;
//! in `Names` the names that a statement has, in `Trees` its typed tree; in `Indexes` what its
//! names and paths are found by. `Resolved` makes the same trees, and none where a name means
//! nothing; `resolved_law` carries the law that for what a check accepts both are the same. The
//! crate stands on those of values, of the metamodel, and of both kinds of trees.
#![tactic(auto)]

mod check;
mod conditions;
mod context;
mod distinct;
mod ends;
mod error;
mod from;
mod groups;
mod index;
mod laws;
mod names;
mod nodes;
mod order;
mod paths;
mod scope;
mod select;
mod setting;
mod simple;
mod sort;
mod values;

pub use check::check_query;
pub use laws::resolved_law;
pub use sort::{ParamType, Sort};
