//! Rows of cells as plain data, and what the five statements on the table `cell` mean.
//!
//! `specs/Tables` has the model that the layers above see: each table is the list of its rows.
//! `specs/Schema` has the one table of the database and the texts, `specs/Content` how the one
//! stands for the other and what a connection over it keeps, and `proofs/` the laws that the
//! functions of `jpa_cells` cite. There is no function.

use jpa_value::{Bytes, Seq};

/// A column's number and its bytes.
#[derive(Debug, Drop)]
pub struct Cell {
    pub column: i64,
    pub value: Bytes,
}

/// The bytes that name a row within its table, and its cells, in rising columns where the store
/// answers them.
#[derive(Debug, Drop)]
pub struct CellRow {
    pub row: Bytes,
    pub cells: Seq<Cell>,
}

/// The cells that a row has from now on, in any order of their columns. Without cells the row is
/// dropped.
#[derive(Debug, Drop)]
pub struct CellChange {
    pub table: i64,
    pub row: Bytes,
    pub cells: Seq<Cell>,
}
