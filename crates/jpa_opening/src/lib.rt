//! The opening of a store: what its cells stand for, where they are damaged, and what becomes of a
//! store of revision 1 that a unit of revision 2 opens.
#![tactic(auto)]

pub mod migration;
pub mod reader;
