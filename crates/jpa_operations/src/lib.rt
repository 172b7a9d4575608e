//! The operations of an entity manager on its objects, but for merge and flush (chapters 2.2, 2.9
//! and 3.2).
#![tactic(auto)]

pub mod fetch;
pub mod ops;
