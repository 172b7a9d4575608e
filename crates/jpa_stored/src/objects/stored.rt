//! A stored object.
use jpa_value::{Cause, Identity, Seq, TryCopy, Value};

/// A stored object (chapter 2): its class, its version where the entity has one, a value for each
/// attribute of the chain of the class, and for each relation of the chain the identities that it
/// owns there: none for an inverse side, at most one for an owning to-one relation, and those of an
/// owning many-to-many relation in rising order.
#[derive(Drop)]
pub struct Stored {
    /// The place of the class among the entities of the persistence unit.
    pub class: usize,
    pub version: Option<i64>,
    pub values: Seq<Value>,
    pub owned: Seq<Seq<Identity>>,
}

impl TryCopy for Stored {
    fn try_copy(&self) -> Result<Stored, Cause> {
        Ok(Stored {
            class: self.class,
            version: self.version,
            values: self.values.try_copy()?,
            owned: self.owned.try_copy()?,
        })
    }
}
