//! Statements of the Jakarta Persistence Query Language as trees (chapter 4), as they are written
//! and as they are typed.
#![tactic(auto)]

pub mod tree;
pub mod typed;
