//! The judgment of a whole store: the set and the next numbers that its cells stand for, or the
//! place where they are damaged.
//!
//! `open_store` reads the tables that a metamodel names in rising order, as they are to be where
//! they are migrated, judges their rows together, and writes the migration. `specs/Sound.antt` says
//! which rows an object, a pair, a next number or the revision may have, `specs/Damage.antt` which
//! place is told where the cells stand for nothing, and `specs/Opened.antt` what an opening makes
//! of the tables. `judge_rows` judges rows that were read already (`specs/OfSet.antt`). The crate
//! stands on the rows of `jpa_cells::rowspace`, the migration of cells (`jpa_opening::migration`), objects as rows
//! (`jpa_object_rows::mapper`), and sound sets (`jpa_stored`).

mod entries;
mod judge;
mod keys;
mod meaning;
mod migration;
mod next_numbers;
mod numbers;
mod objects;
mod owners;
mod read;
mod rows;
mod store;

pub use judge::Committed;
pub use read::table_numbers;
pub use rows::judge_rows;
pub use store::open_store;
