//! Operators, functions, LIKE and aggregates of queries, on values (Jakarta Persistence 3.1,
//! chapters 4.6, 4.7 and 4.9.5).
//!
//! What each gives stands in `specs/`. Values are seen where they stand: in an object, in the query
//! or among its parameters.

mod against;
mod aggregates;
mod calls;
mod cases;
mod compare;
mod datum;
mod failure;
mod numbers;
mod patterns;
mod seen;
mod texts;
mod trims;
mod truths;

pub use against::{judged, with_all, with_any};
pub use aggregates::aggregated;
pub use calls::{applied, like};
pub use compare::{between, compared, is_same, is_true, order};
pub use datum::{Datum, Truth};
pub use failure::Failure;
pub use numbers::{absolute, arithmetic, modulo, signed};
pub use patterns::Mark;
pub use seen::{Seen, seen_datum, seen_value};
pub use truths::{and3, not3, or3, truth_of};
