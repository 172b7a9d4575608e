//! What crosses the provider's edge: the calls that are handed in, and the replies that come back.
//!
//! Its model is plain data. Clauses see a call as its variant with the values of its members, and a
//! reply as the list of the events that were told and the answer or refusal. A provider is a
//! relation between its states, the calls and the replies. It stands on the values of jpa_value
//! alone, so that lines are read and written, and calls are served, without either knowing the
//! other.
#![tactic(auto)]

mod call;
mod event;
mod provider;
mod reply;

pub use call::{Call, FlushMode, Given, LockMode, Parameter, ParameterValue};
pub use event::Told;
pub use provider::PersistenceProvider;
pub use reply::{Answer, Due, Item, Reached, Reply, Shown};
