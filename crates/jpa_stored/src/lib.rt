//! The database as the operations see it: stored objects, sets of them, and an index of their
//! values in order (chapters 2.2, 2.9, 2.10 and 3.2.4).
#![tactic(auto)]

pub mod objects;
pub mod ordered;
