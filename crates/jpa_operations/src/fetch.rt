//! Loading of objects, and what they hold: a row becomes an object of the context, with what it
//! leads to unread; what was not read is read when it is asked for.
//!
//! The definitions stand in `specs/`: `Load` loads and finds, `Members` gets and changes. The crate
//! stands on cascades and on listeners.

mod changing;
mod collections;
mod finding;
mod getting;
mod loading;
mod reading;

pub use changing::{set_fetched, set_relation};
pub use collections::{add, take_out};
pub use finding::{find, reach};
pub use getting::{Got, get};
pub use loading::{load, object_of_row};
pub use reading::{held_at, is_held};
