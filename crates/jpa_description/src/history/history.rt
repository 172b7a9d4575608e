//! What has changed of a unit, as plain data.
use jpa_value::{Seq, Value};

/// What an attribute is beside revision 1.
#[derive(Drop)]
pub enum Change {
    /// It stands in the column that it had.
    Kept,
    /// Revision 1 has no such attribute; the rows that stand get this value, where there is one.
    New(Option<Value>),
    /// It had another column, this one: from 1 to 1,000,000.
    Moved(u64),
}

/// What has changed of the class at a place of the unit.
#[derive(Drop)]
pub struct ClassHistory {
    /// The columns that revision 1 has and the unit has no more, each from 1 to 1,000,000.
    pub dropped: Seq<u64>,
    /// One change for each attribute that the class itself declares, in their order.
    pub changes: Seq<Change>,
}

/// What has changed of a persistence unit since revision 1: one item for each of its entities, in
/// their order.
#[derive(Drop)]
pub struct History {
    pub classes: Seq<ClassHistory>,
}
