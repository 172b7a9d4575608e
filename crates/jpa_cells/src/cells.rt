//! A store of cells: tables of rows, each row a finite map from column numbers to bytes, all or
//! nothing over crashes.
//!
//! `CellStore` keeps them in the one table `cell` of a SQLite database, by one statement for each
//! read, and by one transaction for a list of changes. Contracts see a table as the list of its
//! rows in rising order (`jpa_cells::meaning`, `specs/Tables` and `specs/Store`), and no word of the
//! database. The crate stands on `sqlite`, whose clauses say what a connection shows, what a
//! failure leaves and what a crash may leave, and on `jpa_cells::meaning`, which has the meaning of
//! the statements.

mod found;
mod make;
mod read;
mod sink;
mod standing;
mod store;
mod write;

pub use crate::meaning::{Cell, CellChange, CellRow};
pub use sink::CellSink;
pub use standing::{Holding, holding_of};
pub use store::CellStore;
