//! The flush, and the marks that keep it short (chapters 2.9, 3.2.3, 3.2.4 and 3.4).
#![tactic(auto)]

pub mod flush;
pub mod marking;
