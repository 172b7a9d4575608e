//! Merging: what a detached or a new object holds becomes the state of a managed one.
//!
//! The definition stands in `specs/Merge.antt`. The crate stands on the operations of a manager.
#![tactic(auto)]

mod copying;
mod images;
mod imaging;
mod merging;
mod relations;
mod replacing;

pub use images::{Images, NodeImage};
pub use merging::merge;
