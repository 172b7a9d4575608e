//! Live objects: what an application holds of its entities.
//!
//! Their model is plain data. An object goes by its place in the heap, a list of live objects, and
//! holds its values and relations by their places in the chain of its class. `specs/Objects.antt`
//! says how a new object is and what names it, `specs/Assign.antt` what `set` makes of it. The
//! crate stands on the metamodel.

mod copy;
mod create;
mod setting;

pub use create::{identity_of, is_whole, new_object};
use jpa_value::{Identity, Key, Seq, Value};
pub use setting::assign;

/// A to-one relation of a live object (Jakarta Persistence 3.1, chapter 2.9).
#[derive(Drop)]
pub enum Link {
    None,
    /// The object at this place of the heap.
    Object(usize),
    /// An identity that was not resolved yet: every relation is lazy.
    Key(Identity),
}

/// A collection of a live object. A member may stand in it twice.
#[derive(Drop)]
pub enum Collection {
    Unfetched,
    /// The objects at these places of the heap.
    Fetched(Seq<usize>),
}

/// What a live object holds in a relation.
#[derive(Drop)]
pub enum Held {
    One(Link),
    Many(Collection),
}

/// Where a live object stands in its life cycle (chapter 3.2), with the place of the manager that
/// holds it.
#[derive(Clone, Copy)]
pub enum Life {
    New,
    Managed(usize),
    Removed(usize),
    Detached,
}

/// A live object: a value for each part of its key and for each attribute of the chain, and what it
/// holds in each relation of the chain.
#[derive(Drop)]
pub struct LiveObject {
    pub class: usize,
    pub key: Key,
    pub version: Option<i64>,
    pub values: Seq<Value>,
    pub relations: Seq<Held>,
    pub life: Life,
}

/// What `set` is handed: a value, or an object by its place in the heap.
#[derive(Drop)]
pub enum Handed {
    Plain(Value),
    Object(usize),
}
