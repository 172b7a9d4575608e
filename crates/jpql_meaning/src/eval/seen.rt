//! What an expression gives, where it stands.
ghost use Rattle.std.specs.Prelude.{◌≡◌, IfOk};
ghost use Rattle.std.specs.Option.{option_copied};
ghost use Rattle.jpql_meaning.specs.eval.Calls as calls;
ghost use Rattle.jpql_meaning.specs.declared.eval.datum.Datum.{Datum};
ghost use Rattle.jpql_meaning.specs.eval.Data as data_;
ghost use Rattle.jpql_meaning.specs.eval.Seen.{seen};

use crate::eval::datum::Datum;
use jpa_value::{ByteString, Identity, Text, Value};
use std::alloc::{AllocError, Global};

/// What an expression gives: borrowed from an object, the query or its parameters, or a text that
/// was made.
#[derive(Drop)]
pub enum Seen<'a> {
    Null,
    Int(i64),
    Text(&'a Text),
    Bytes(&'a ByteString),
    Entity(&'a Identity),
    Made(Text),
}

/// A value where it stands.
pub fn seen_value<'a>(value: &'a Value) -> Seen<'a>
    ensures { seen result ≡ Datum.Plain value.now }
{
    match value {
        Value::Null => Seen::Null,
        Value::Int(number) => Seen::Int(*number),
        Value::Text(text) => Seen::Text(text),
        Value::Bytes(bytes) => Seen::Bytes(bytes),
    }
}

/// A datum where it stands.
pub fn seen_datum<'a>(datum: &'a Datum) -> Seen<'a>
    ensures { seen result ≡ datum.now }
{
    match datum {
        Datum::Plain(value) => seen_value(value),
        Datum::Entity(id) => Seen::Entity(id),
    }
}

impl<'a> Seen<'a> {
    /// Whether it is null.
    pub fn is_nothing(&self) -> bool
        ensures { result ≡ data_.is_nothing (seen self.now) }
    {
        matches!(self, Seen::Null)
    }

    /// The text that it is, if it is one.
    pub fn text(&self) -> Option<&Text>
        ensures { option_copied result ≡ calls.text_in (seen self.now) }
    {
        match self {
            Seen::Text(text) => Some(text),
            Seen::Made(text) => Some(text),
            _ => None,
        }
    }

    /// The number that it is, if it is one.
    pub fn number(&self) -> Option<i64>
        ensures { result ≡ calls.integer_in (seen self.now) }
    {
        match self {
            Seen::Int(number) => Some(*number),
            _ => None,
        }
    }

    /// The same; fails for want of memory alone, where a text was made.
    pub fn again(&self, alloc: Global) -> Result<Seen<'a>, AllocError>
        ensures { IfOk result (λ copy. seen copy ≡ seen self.now) }
    {
        Ok(match self {
            Seen::Null => Seen::Null,
            Seen::Int(number) => Seen::Int(*number),
            Seen::Text(text) => Seen::Text(text),
            Seen::Bytes(bytes) => Seen::Bytes(bytes),
            Seen::Entity(id) => Seen::Entity(id),
            Seen::Made(text) => Seen::Made(Text::of(alloc, text.as_str())?),
        })
    }
}
