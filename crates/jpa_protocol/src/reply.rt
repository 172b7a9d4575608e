//! The replies.

use crate::event::Told;
use jpa_value::{Key, LifecycleEvent, Refusal, Seq, Text, Value};

/// What stands in a row of a query's answer (Jakarta Persistence 3.1, chapter 4.9).
#[derive(Drop)]
pub enum Item {
    Value(Value),
    /// An object by its number, from 1.
    Object(u64),
}

/// What a relation of an object holds, as far as it was read (chapter 2.9).
#[derive(Drop)]
pub enum Reached {
    /// A link to nothing.
    Nothing,
    /// A link to an object that was read or set, by its number, from 1.
    Object(u64),
    /// A link to an object that wasn't read, by the key that it holds.
    Key(Key),
    /// The members of a collection that was read, in its order.
    Objects(Seq<u64>),
    /// A collection that wasn't read.
    Unread,
}

/// What an object holds: the name of its own class; what stands in its relations; and its key's
/// parts, its version where its hierarchy has one, and its attributes, superclass first.
#[derive(Drop)]
pub struct Shown {
    pub entity: Text,
    pub relations: Seq<Reached>,
    pub values: Seq<Value>,
}

/// A callback that a flush would run: the event, and the object of which number (from 1).
#[derive(Clone, Copy)]
pub struct Due {
    pub event: LifecycleEvent,
    pub object: u64,
}

/// What an accepted call answers. Objects and managers go by their numbers, from 1.
#[derive(Drop)]
pub enum Answer {
    /// Nothing to tell, or no object.
    Null,
    Truth(bool),
    /// The number of a manager, or how many objects a statement reached.
    Number(u64),
    /// What an attribute holds.
    Value(Value),
    Object(u64),
    /// The members of a relation, in its order, each as often as it stands there.
    Objects(Seq<u64>),
    /// The one row of a query.
    Row(Seq<Item>),
    /// The rows of a query, in their order.
    Rows(Seq<Seq<Item>>),
    /// What objects hold, in the order in which they were asked for.
    Shown(Seq<Shown>),
    /// Callbacks, in the order in which they would run.
    Due(Seq<Due>),
}

/// The reply to a call: the events in the order in which they were told, and the answer or the
/// refusal.
#[derive(Drop)]
pub struct Reply {
    pub events: Seq<Told>,
    pub answer: Result<Answer, Refusal>,
}
