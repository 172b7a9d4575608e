//! What statements of the query language mean (chapter 4): of values, and over a set of stored
//! objects.
#![tactic(auto)]

pub mod eval;
pub mod plan;
