//! The grammar of the Jakarta Persistence Query Language (chapter 4), and the readers of what
//! statements are made of.
#![tactic(auto)]

pub mod conditions;
pub mod grammar;
pub mod lexer;
