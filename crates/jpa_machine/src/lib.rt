//! The machine that the product is proved against: what each call replies and leaves, and that what
//! holds between calls holds after each of them (chapters 3.1.1, 3.3, 3.4 and 7).
#![tactic(auto)]

pub mod machine;
pub mod samples;
