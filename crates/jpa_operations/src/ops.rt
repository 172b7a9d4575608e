//! The operations of an entity manager on its objects.
//!
//! The definitions stand in `specs/`: `States` persists, removes, refreshes and detaches. The crate
//! stands on loading, on cascades and on listeners.

mod context;
mod detaching;
mod locking;
mod persisting;
mod refreshing;
mod removing;

pub use context::entry_of;
pub use detaching::detach;
pub use locking::lock;
pub use persisting::{become_managed, persist};
pub use refreshing::refresh;
pub use removing::remove;
