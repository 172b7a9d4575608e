//! Variables in scope, and clauses.
use jpa_value::Text;

/// An identification variable in scope, with its class (chapter 4.4.2).
#[derive(Drop)]
pub(crate) struct Variable {
    pub(crate) name: Text,
    pub(crate) class: usize,
}

/// The clause that an expression stands in, as far as the rules differ.
#[derive(Clone, Copy)]
pub(crate) enum Clause {
    /// It may have aggregates; ORDER BY too.
    Select,
    /// The same over groups: its paths outside aggregates are grouping paths.
    Grouped,
    /// As that, without EXISTS.
    Having,
    /// Its paths have one step at most.
    On,
    /// WHERE, an aggregate, and all others.
    Where,
}
