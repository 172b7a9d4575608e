//! One SELECT that is asked of a store without a provider (chapters 4.2.1 and 4.6.7): the program's
//! `--query` and `--explain`.
#![tactic(auto)]

pub mod by_key;
pub mod questions;
pub mod row_queries;
