//! Statements that ask one object by its key (Jakarta Persistence 3.1, chapters 4.4.2 and 4.6.7).
//!
//! `key_of` answers the identity of the only object that decides what a SELECT gives, where it asks
//! one by its key: a statement of one block and one variable, whose WHERE equates the one-part key
//! with a literal or a parameter, and whose paths don't leave the object's row. `key_laws` carries
//! the law: over a set such a statement gives what it gives over that object alone, without its
//! pairs, or over none. The crate stands on the meaning of statements (`jpql_meaning::plan`) and the laws of
//! look-ups (`jpql_run`).

mod held;
mod key;
mod laws;
mod own;

pub use key::key_of;
pub use laws::key_laws;
