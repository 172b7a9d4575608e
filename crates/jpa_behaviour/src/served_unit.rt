//! A persistence unit and its stored functions, as the operations of a manager take them.
use crate::behaviour::Behaviour;
use crate::registry::Registry;
use jpa_model::Metamodel;

/// A persistence unit with the functions that are stored for it (Jakarta Persistence 3.1, chapters
/// 3.5, 3.8 and 8.2). Contracts see both as they are; what they mean together is the world of
/// `specs/Served.antt`.
#[derive(Drop)]
pub struct ServedUnit<B: Behaviour> {
    pub metamodel: Metamodel,
    pub registry: Registry<B>,
}
