//! Rows, typed and spelled: what names one, what its columns hold, and how both are bytes of cells
//! (chapters 2.4 and 2.10 to 2.12; the form is this provider's own). It names no database.
#![tactic(auto)]

pub mod keys;
pub mod laws;
pub mod overlay;
pub mod rows;
