//! The program's parts: the unit that it serves without a mapping, the opening of a provider over
//! cells, and the run over lines.
//!
//! Here the provider, the cells of its store and the run over lines meet: `open` says of the cells
//! that it finds what set they hold, and `run` of the bytes of a run what the machine's steps are,
//! and of the cells of its store what set they hold then.
#![tactic(auto)]

mod opening;
mod running;
mod unit;

pub use opening::{open, open_rows};
pub use running::run;
pub use unit::first_unit;
