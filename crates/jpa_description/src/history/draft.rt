//! What a description says of changes: members that may be absent, with numbers of any size.
use jpa_value::{Seq, Value};

/// What it says of an attribute.
#[derive(Drop)]
pub struct DraftChange {
    /// The first revision that has the attribute.
    pub since: Option<i64>,
    /// The value that rows without the attribute get.
    pub default: Option<Value>,
    /// The column that the attribute had in revision 1.
    pub was: Option<i64>,
}

/// What it says of an entity.
#[derive(Drop)]
pub struct DraftClassHistory {
    /// The columns that are there no more; an empty list is there, and says that there are none.
    pub dropped: Option<Seq<i64>>,
    /// One for each attribute of the entity, in their order.
    pub changes: Seq<DraftChange>,
}

/// What it says of all entities, in their order.
#[derive(Drop)]
pub struct DraftHistory {
    pub classes: Seq<DraftClassHistory>,
}
