//! Listeners and callbacks: which of them hear an event, in which order, and what they change.
//!
//! The definitions stand in `specs/Callbacks.antt`: `order`, `fire` and `callback`. The code has
//! the same three, over the registry of stored functions; where nobody hears, it copies nothing.
//! The crate stands on persistence contexts and stored functions.
#![tactic(auto)]

mod assigning;
mod firing;
mod hearing;
mod seeing;
mod telling;

pub use firing::{Fired, fire};
pub use hearing::order;
pub use telling::callback;
