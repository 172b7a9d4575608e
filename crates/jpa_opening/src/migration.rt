//! What becomes of the cells of a store of revision 1 that a unit of revision 2 opens.
//!
//! `is_due` tells by the rows of table 0 whether a store is to be migrated, and `migrate` makes of
//! the rows of one table those that they are to be, with the changes that make them so in the
//! store. `defaults_pass` tells whether each default passes its converter. The definitions that
//! contracts cite stand in `specs/Migration`. The crate stands on cells as plain data, on what a
//! unit's history says, and on stored functions.

mod changed;
mod copies;
mod defaults;
mod marking;
mod plan;
mod planning;
mod row;
mod table;

pub use defaults::defaults_pass;
pub use marking::is_due;
pub use table::migrate;
