//! The first rows of a SELECT in its order, without making all of them (Jakarta Persistence 3.1,
//! chapters 3.10.3 and 4.10).
//!
//! `select_first` gives so many rows of the table that `select` of jpql_select gives. Where any row
//! may be left out, it makes a row only for a tuple that goes among the first ones so far; and where
//! ORDER BY goes by the order of identities, it finds the tuples of the first objects alone.

mod best;
mod fit;
mod fronts;
mod statement;

pub use statement::select_first;
