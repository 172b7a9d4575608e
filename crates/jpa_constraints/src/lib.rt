//! Whether a set is sound after changes of a sound one (chapters 2.9, 2.10 and 3.2.4), told by what
//! was changed and by what leads there.
//!
//! `judge` answers over an `OpenSet`. `specs/Changed` says what a change is, `specs/Judged` what is
//! asked of each. The crate stands on `jpa_open`.
#![tactic(auto)]

mod change;
mod judging;
mod reference;
mod required;
mod unique;

pub use change::Change;
pub use judging::judge;
