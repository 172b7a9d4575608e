//! Whether rows are the same.
ghost use Rattle.std.specs.Prelude.{◌≡◌};
ghost use Rattle.jpa_rows.specs.rows.Same as spec;

use crate::rows::row::{Content, Field};
use jpa_value::{order_keys, order_values};
use std::cmp::Ordering;

fn is_same_content(a: &Content, b: &Content) -> bool
    ensures { result ≡ spec.same_content a.now b.now }
{
    match (a, b) {
        (Content::Value(v), Content::Value(w)) => matches!(order_values(v, w), Ordering::Equal),
        (Content::Reference(k), Content::Reference(l)) => {
            matches!(order_keys(k.as_slice(), l.as_slice()), Ordering::Equal)
        }
        _ => false,
    }
}

fn is_same_field(a: &Field, b: &Field) -> bool
    ensures { result ≡ spec.same_field a.now b.now }
{
    a.column == b.column && is_same_content(&a.content, &b.content)
}

/// Whether rows have the same columns, which hold the same. Takes no memory.
pub fn is_same_row(a: &[Field], b: &[Field]) -> bool
    ensures { result ≡ spec.same_row a.now b.now }
{
    for (i, field) in a.iter().enumerate() {
        if i >= b.len() {
            return false;
        }
        if !is_same_field(field, &b[i]) {
            return false;
        }
    }
    a.len() == b.len()
}
