//! Rows over one table of SQLite: a finite map of cells, all or nothing over crashes, and the rows
//! of a schema read off it.
#![tactic(auto)]

pub mod cells;
pub mod meaning;
pub mod rowspace;
