//! UPDATE and DELETE over a set of stored objects (chapter 4.11).
#![tactic(auto)]

pub mod bulk;
pub mod kept;
