//! A text of the query language (chapter 4): how one is read, and what there is to write.
#![tactic(auto)]

pub mod shapes;
pub mod text;
