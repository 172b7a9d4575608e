//! executeUpdate of a manager (Jakarta Persistence 3.1, chapters 3.10.1 and 4.11).
//!
//! The definitions stand in `specs/`: `Updates` is what is judged and done, `Changing` says what
//! code finds and writes. The crate stands on `jpa_asked` for what is asked, on `jpql_bulk` for
//! what a statement changes, and on the flush and `jpa_constraints`.
#![tactic(auto)]

mod finding;
mod laws;
mod places;
mod representable;
mod settling;
mod updating;
mod writing;

pub use laws::update_laws;
pub use updating::execute_update;
