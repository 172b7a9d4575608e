//! Objects as rows of the store, and back (Jakarta Persistence 3.1, chapters 2.10 relations, 2.12
//! hierarchies, 3.8 converters).
//!
//! `to_rows` makes the rows of an object: its main row, through its converters, and a row of a join
//! table for each pair that it owns; `from_rows` reads an object off its rows. `specs/Mapped.antt`
//! says what it is for an object to be read off rows, `specs/Own.antt` which rows of pairs are
//! refused, and `mapper_laws` that what is read off the rows of an object is that object. The crate
//! stands on the rows of `jpa_rows`, the registry of converters, and the laws of `jpa_object_rows`.

mod converted;
mod guess;
mod laws;
mod main_object;
mod main_row;
mod narrow;
mod own_pairs;
mod pair_rows;
mod places;
mod reading;
mod shape;
mod targets;
mod writing;

pub use laws::{discriminator_law, mapper_laws};
pub use own_pairs::{damaged, is_kept_in};
pub use reading::{from_rows, from_rows_by_id};
pub use writing::{number_row, to_rows};
