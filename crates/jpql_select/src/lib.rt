//! SELECT run over the set that a transaction sees (chapters 3.10.3, 4.2.1 and 4.8 to 4.10).
#![tactic(auto)]

pub mod first;
pub mod select;
