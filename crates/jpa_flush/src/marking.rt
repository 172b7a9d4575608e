//! Marks at the end of a call: what undo lists noted is looked at, and the rest is as it was.

mod anew;
mod committed;
mod looking;
mod others;

pub use anew::mark_anew;
pub use committed::mark_committed;
pub use others::{keep_others, other_laws};
