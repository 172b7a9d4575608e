//! Values, keys, identities and refusals: what every layer of the provider speaks of.
//!
//! Contracts see `Text`, `ByteString` and `Bytes` as lists of bytes, `Seq` as the list of its items,
//! `Key` as the list of its parts and `Boxed` as what it holds; the other types are plain data. The definitions that contracts cite stand in
//! `specs/`: values and their order in `Value`, the texts of refusals in `Refusal`, the names of
//! events in `Event`. The crate stands on `hex`.
#![tactic(auto)]

mod boxed;
mod copy;
mod event;
mod key;
mod limits;
mod list;
mod order;
mod refusal;
mod texts;
mod value;

pub use boxed::Boxed;
pub use copy::TryCopy;
pub use event::LifecycleEvent;
pub use key::Key;
pub use limits::{
    MOST_BYTES, MOST_LINE_BYTES, MOST_OBJECTS, MOST_OPEN_MANAGERS, MOST_OPEN_PARENTHESES,
    MOST_QUERY_BYTES, MOST_QUERY_VARIABLES,
};
pub use list::{ByteString, Bytes, Seq, Text};
pub use order::{
    compare, equal3, is_same_identity, order_identities, order_keys, order_laws, order_values,
};
pub use refusal::{Argument, Cause, MappingFault, PersistenceFault, Refusal, State};
pub use texts::refusal_text;
pub use value::{Identity, Kind, Value, fits};
