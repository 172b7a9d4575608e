//! Rows by id over a store of cells.
//!
//! `RowSpace` reads and changes the rows of a schema in a store of cells: each row is the cells
//! under its table and the bytes of its key. `specs/Stored` says how rows stand as cells,
//! `specs/Reading` what is read of cells, and `specs/Space` what it is for a store to hold rows.
//! The crate stands on rows and the store of cells.

mod handing;
mod laws;
mod read;
mod select;
mod space;
mod spell;

pub use laws::reading_law;
pub use space::RowSpace;
