//! Whether a mapping description is well formed, and the metamodel that it describes (chapter 2).
//!
//! The definitions that contracts cite stand in `specs/` of `jpa_model`: in `WellFormed` the
//! conditions on a description, in `Described` the unit that it describes and what `check` answers.

mod alone;
mod along;
mod chains;
mod checking;
mod describe;
mod events;
mod names;
mod numbers;
mod relations;
mod well_formed;

pub use checking::check;
