//! SELECT statements run over the set that a transaction sees (Jakarta Persistence 3.1, chapters
//! 4.2.1 and 4.8 to 4.10).
//!
//! `select` gives the table of a statement: its tuples stand alone or in groups, HAVING keeps some,
//! each gives a row, and the rows come in their order. What a row has stays borrowed from the set,
//! the statement or its parameters.
//!
//! `key`, `row`, `order`, `distinct` and `table` know of rows alone: what rows and groups go by,
//! DISTINCT and ORDER BY.

mod case;
mod distinct;
mod groups;
mod joining;
mod key;
mod order;
mod own;
mod parting;
mod row;
mod rows;
mod short;
mod statement;
mod table;
mod tallies;
mod tuples;

pub use case::{Case, is_grouping};
pub use order::by_sorting;
pub use own::rows_of;
pub use parting::left_from;
pub use row::{Row, Sorting};
pub use rows::{items_of, sorting_of};
pub use statement::select;
pub use table::{Table, table_of};
pub use tuples::{left_of, selected_tuples};
