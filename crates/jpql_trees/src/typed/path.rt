//! Paths whose names are resolved.
use jpa_model::Member;
use jpa_value::Seq;

/// A step of a path: a member of the class that it is taken from.
#[derive(Clone, Copy)]
pub struct Step {
    pub class: usize,
    pub member: Member,
}

/// A path whose names are resolved (chapter 4.4.4).
#[derive(Drop)]
pub struct TypedPath {
    /// The place of its variable among those in scope.
    pub variable: usize,
    /// The class of the variable.
    pub class: usize,
    pub steps: Seq<Step>,
}
