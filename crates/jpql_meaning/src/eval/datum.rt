//! What expressions and conditions give.
use jpa_value::{Identity, Value};

/// What an expression gives, kept: a value, or an entity by its identity.
#[derive(Drop)]
pub enum Datum {
    Plain(Value),
    Entity(Identity),
}

/// What a condition gives (chapter 4.12).
#[derive(Clone, Copy)]
pub enum Truth {
    Yes,
    No,
    Unknown,
}
