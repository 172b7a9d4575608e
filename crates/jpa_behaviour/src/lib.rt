//! Stored functions: what a listener or a converter is shown, what it answers, and the registry
//! that finds it by name.
//!
//! `Behaviour` says what the functions of a program mean, and a `Registry` answers by what was
//! added under a name. Contracts see a registry as two lists of names with what stands under them
//! (`specs/Registered.antt`). With the entities it makes one record, the `World` of
//! `specs/Behaviour.antt`: what each listener answers to each image, and both directions of each
//! converter. Every definition of an operation takes a world, and every operation takes a
//! `ServedUnit`, which is both (`specs/Served.antt`). The crate stands on the metamodel, and on
//! `indexmap` for the look-ups.
#![tactic(auto)]

mod behaviour;
mod by_name;
mod converted;
mod registry;
mod served_unit;

pub use behaviour::Behaviour;
use jpa_value::{LifecycleEvent, Seq, Text, Value};
pub use registry::Registry;
pub use served_unit::ServedUnit;

/// What a listener or callback sees of an object (Jakarta Persistence 3.1, chapter 3.5): its
/// entity's name, what happens to it, and its values in the order of the chain: key parts, version,
/// attributes.
#[derive(Drop)]
pub struct Image {
    pub entity: Text,
    pub event: LifecycleEvent,
    pub values: Seq<Named>,
}

/// A value under its name.
#[derive(Drop)]
pub struct Named {
    pub name: Text,
    pub value: Value,
}

/// What a listener or callback answers.
#[derive(Drop)]
pub enum Heard {
    /// Attributes to be given these values, in this order.
    Assign(Seq<Named>),
    /// It threw, with this text.
    Throw(Text),
}
