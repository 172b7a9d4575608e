//! What a mapping says, judged: whether a description of a persistence unit is well formed, and
//! what it says has changed since revision 1 (chapter 2).
#![tactic(auto)]

pub mod description;
pub mod history;
