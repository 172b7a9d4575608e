//! Stored objects, sets of them, and whether a set is sound: the database as the operations see it
//! (chapter 3).
//!
//! A stored object has a class, a version, values and the identities that it owns in its relations;
//! `StoredSet` is a finite map from identities to stored objects, seen by contracts as its entries
//! in rising order. `members` tells what an object holds in a relation, owned or inverse;
//! `integrity` tells whether a set is sound, and which part fails first.
//!
//! `specs/Sets` defines all of this over the persistence unit. What a class says through its whole
//! chain is looked up in the `Metamodel`, which keeps it. The crate stands on `jpa_value` and
//! `jpa_model`.

mod claims;
mod classes;
mod related;
mod set;
mod sound;
mod stored;

pub use classes::{attributes_of, declarers_of, is_held_by, is_kind_of, relations_of};
pub use related::{is_among, members, owner_of};
pub use set::StoredSet;
pub use sound::{integrity, links_filled, values_filled};
pub use stored::Stored;
