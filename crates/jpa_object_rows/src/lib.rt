//! Objects as rows, both ways, and what a commit writes of them (chapters 2.4, 2.10 to 2.12, 3.2.4
//! and 3.8). It names no database.
#![tactic(auto)]

pub mod mapper;
pub mod meaning;
pub mod store;
