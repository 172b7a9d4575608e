//! What a walk over the entries of a context looks at.

use jpa_value::Seq;

/// Places of entries, rising, and whether what the objects of the others lead to is managed, or
/// stored where no cascade persists it.
#[derive(Drop)]
pub struct Looked {
    pub places: Seq<usize>,
    pub linked: bool,
}
