//! What has changed of a persistence unit since revision 1 of its rows, which the opening of a
//! store alone asks.
//!
//! `DraftHistory` is what a description says of it, entity by entity and attribute by attribute;
//! `History` is the same as plain data, by the places of the unit that the description gives.
//! `check_history` makes the one from the other, where it meets the condition on them. The
//! definitions that contracts cite stand in `specs/`: in `History` what a history says of a class
//! and along its chain, in `Condition` the condition and what `check_history` answers.

mod alone;
mod apart;
mod check;
mod described;
mod draft;
mod history;

pub use check::check_history;
pub use draft::{DraftChange, DraftClassHistory, DraftHistory};
pub use history::{Change, ClassHistory, History};
