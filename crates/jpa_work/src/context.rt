//! Persistence contexts: which objects a manager holds, in which state, and what they were when
//! last loaded or written.
//!
//! The model of one manager at work is the record `Work` of `specs/Work.antt`: the live objects,
//! the manager's context in order of entry, the next numbers, the set of stored objects that the
//! manager sees, and the events told so far. `specs/Steps.antt` says what an operation on a work
//! is. The crate stands on live objects and stored sets.

mod copy;
mod entries;
mod fingerprint;
mod index;
mod laws;
mod leaving;
mod marks;
mod object_places;
mod unlocking;
mod work;

pub use copy::known_copied;
pub use entries::PersistenceContext;
use jpa_stored::objects::Stored;
use jpa_value::{Identity, Key, Seq};
pub use laws::{near_laws, place_laws};
pub use marks::Marks;
pub use work::UnitOfWork;

/// The optimistic lock of an entry (Jakarta Persistence 3.1, chapter 3.4).
#[derive(Clone, Copy)]
pub enum Lock {
    Unlocked,
    Read,
    Write,
}

/// What an object was when it was last loaded or written, and for each relation of the chain the
/// identities in it when it was last read off the view or written; none for a collection that was
/// not read.
#[derive(Drop)]
pub struct Base {
    pub stored: Stored,
    pub members: Seq<Option<Seq<Identity>>>,
}

/// An entry of a context: an object by its place in the heap, and the primary key under which it
/// entered. An object that was not written yet has no base.
#[derive(Drop)]
pub struct Entry {
    pub object: usize,
    pub key: Key,
    pub lock: Lock,
    pub base: Option<Base>,
}

/// Where an object stands for one manager (chapter 3.2): an object that another manager holds is
/// detached.
#[derive(Clone, Copy)]
pub enum EntityState {
    New,
    Managed,
    Removed,
    Detached,
}
