//! What is read from JSON: values, the description of a persistence unit, and the stored functions
//! that one registers (chapters 11 and 12).
#![tactic(auto)]

pub mod functions;
pub mod mapping;
pub mod readers;
