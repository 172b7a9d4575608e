//! An index of values: the stored objects in the order of what they have as a part of the key or an
//! attribute, nulls first, and those of one value by identity.
//!
//! `Cut` is a place in that order, `Span` all that lies between two. `Values` is the index: it may
//! have more entries than the objects need, and answers whose entries lie in spans.
//! `specs/Values` defines all of this. The crate stands on `jpa_value`, `jpa_model` and
//! `jpa_stored`.

mod column;
mod cut;
mod entries;
mod valued;
mod values;

pub use column::Column;
pub use cut::{Cut, Span, at_object, lies_in_any};
pub use entries::list_each;
pub use valued::Valued;
pub use values::Values;
