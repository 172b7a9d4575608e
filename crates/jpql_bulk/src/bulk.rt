//! What UPDATE and DELETE find in the set that a transaction sees, and what an UPDATE assigns to it
//! (Jakarta Persistence 3.1, chapter 4.11).
//!
//! `found_by_update` gives the objects that an UPDATE concerns, each with what its members are set
//! to, and `found_by_delete` those that a DELETE removes. Both read the old set alone. `assign`
//! makes new objects of what an UPDATE found, in rising order, assignment by assignment as they are
//! written, or refuses the first that can't be made.

mod changes;
mod concerned;
mod converters;
mod delete;
mod laws;
mod members;
mod refused;
mod update;

pub use changes::assign;
pub use delete::found_by_delete;
pub use laws::bulk_laws;
pub use refused::Refused;
pub use update::{Change, found_by_update};
