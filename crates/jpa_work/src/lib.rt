//! A manager at work: live objects, its persistence context, and what it takes to undo a refused
//! call (chapters 2.2, 2.4, 3.2 and 3.3).
#![tactic(auto)]

pub mod context;
pub mod heap;
pub mod undo;
