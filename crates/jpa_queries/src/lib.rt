//! Queries of a manager (Jakarta Persistence 3.1, chapters 3.10 and 4).
//!
//! The definition stands in `specs/Queries.antt`: query and querySingle. The crate stands on what
//! is asked, on the flush, on loading, and on the query language.
#![tactic(auto)]

mod cut;
mod querying;
mod results;

pub use querying::{query, query_single};
