//! Typed trees of the Jakarta Persistence Query Language (Jakarta Persistence 3.1, chapter 4): the
//! trees of jpql_trees::tree again, with places of classes and variables for names.
//!
//! `jpql_types` makes them of statements that are well typed; those that run statements stand on
//! these trees alone, and not on how they are made.

mod path;
mod typed;

pub use path::{Step, TypedPath};
pub use typed::{
    Typed, TypedAssignment, TypedBlock, TypedCondition, TypedJoin, TypedKey, TypedOrigin,
    TypedSelect, TypedSorted, TypedSource, TypedValue,
};
