//! What an UPDATE and a DELETE (Jakarta Persistence 3.1, chapter 4.11) keep of the set that they
//! change.
//!
//! `keep_laws` carries the law: a set that a store can hold is made one that a store can hold,
//! where it is sound still. `specs/Fits` says what data of a sort are, and what a member of a class
//! can be set to.

mod laws;

pub use laws::{inheritance_law, keep_laws};
