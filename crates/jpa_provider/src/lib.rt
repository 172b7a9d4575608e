//! The machine of a provider: live objects, the managers with their contexts and transactions, and
//! what was committed.
//!
//! Its model is the record `Machine` of `specs/Machine.antt`. `outcome` of `specs/Step.antt` gives
//! the reply to a call and the machine after it, `Step` adds what a call may answer that gave up,
//! and `Runs` is `Step` over lists of calls.
#![tactic(auto)]

mod asking;
mod at_work;
mod beside;
mod commit_work;
mod committing;
mod ending;
mod finding;
mod flushing;
mod handing;
mod indexing;
mod moding;
mod opening;
mod operating;
mod parameters;
mod pending;
mod provider;
mod querying;
mod replies;
mod restarting;
mod session;
mod showing;
mod working;

pub use provider::Provider;
