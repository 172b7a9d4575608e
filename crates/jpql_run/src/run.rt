//! What a statement is run over.
use jpa_model::Metamodel;
use jpa_open::OpenSet;
use jpql_meaning::eval::Datum;

/// What a statement is run over.
#[derive(Clone, Copy)]
pub struct Run<'a> {
    /// What is known of the classes.
    pub metamodel: &'a Metamodel,
    /// The objects that the manager at work sees.
    pub set: &'a OpenSet,
    /// What stands for the parameters, by place.
    pub parameters: &'a [Datum],
}
