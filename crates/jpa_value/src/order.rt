//! How values, keys and identities compare.
//!
//! Integers go by number, texts and byte strings by their bytes with a proper prefix first, keys
//! part by part, identities by table and then by key. None of these functions takes memory.
ghost use Rattle.std.specs.Prelude.{◌≡◌};
ghost use Rattle.std.specs.Cmp.{IsTotalOrder};
ghost use Rattle.std.specs.FinMap.{IsAntisymmetric};
ghost use Rattle.jpa_value.specs.Value as values;

use crate::value::{Identity, Value};
use std::cmp::Ordering;

/// How two values compare; unknown, which is `None`, where one of them is null (chapter 4.12: a
/// comparison with null is unknown).
pub fn compare(a: &Value, b: &Value) -> Option<Ordering>
    ensures { result ≡ values.compare a.now b.now }
{
    match (a, b) {
        (Value::Null, _) | (_, Value::Null) => None,
        _ => Some(order_values(a, b)),
    }
}

/// Whether two values are equal; unknown, which is `None`, where one of them is null (chapter
/// 4.12).
pub fn equal3(a: &Value, b: &Value) -> Option<bool>
    ensures { result ≡ values.equal3 a.now b.now }
{
    match compare(a, b) {
        None => None,
        Some(order) => Some(matches!(order, Ordering::Equal)),
    }
}

/// The place of two values in one total order: nulls first, then integers, then texts, then byte
/// strings.
#[tactic(auto, using(crate::proofs::Orders::then_equal))]
pub fn order_values(a: &Value, b: &Value) -> Ordering
    ensures { result ≡ values.value_cmp a.now b.now }
{
    match (a, b) {
        (Value::Null, Value::Null) => Ordering::Equal,
        (Value::Null, _) => Ordering::Less,
        (Value::Int(_), Value::Null) => Ordering::Greater,
        (Value::Int(m), Value::Int(n)) => m.cmp(n),
        (Value::Int(_), _) => Ordering::Less,
        (Value::Text(_), Value::Null | Value::Int(_)) => Ordering::Greater,
        (Value::Text(s), Value::Text(t)) => s.as_str().cmp(t.as_str()),
        (Value::Text(_), Value::Bytes(_)) => Ordering::Less,
        (Value::Bytes(s), Value::Bytes(t)) => s.as_slice().cmp(t.as_slice()),
        (Value::Bytes(_), _) => Ordering::Greater,
    }
}

/// The order of two keys: part by part, a proper front of the other first.
fn order_parts(a: &[Value], b: &[Value]) -> Ordering
    ensures { result ≡ values.key_cmp a.now b.now }
{
    for (i, part) in a.iter().enumerate() {
        if i >= b.len() {
            return Ordering::Greater;
        }
        let order = order_values(part, &b[i]);
        if order != Ordering::Equal {
            return order;
        }
    }
    if a.len() < b.len() {
        Ordering::Less
    } else {
        Ordering::Equal
    }
}

/// The order of two keys: part by part, a proper front of the other first. Most have one part.
#[tactic(auto, using(crate::proofs::Orders::then_equal))]
pub fn order_keys(a: &[Value], b: &[Value]) -> Ordering
    ensures { result ≡ values.key_cmp a.now b.now }
{
    match (a, b) {
        ([part], [other]) => order_values(part, other),
        _ => order_parts(a, b),
    }
}

/// The order of two identities: by table, then by key.
pub fn order_identities(a: &Identity, b: &Identity) -> Ordering
    ensures { result ≡ values.identity_cmp a.now b.now }
{
    match a.table.cmp(&b.table) {
        Ordering::Equal => order_keys(a.key.as_slice(), b.key.as_slice()),
        other => other,
    }
}

/// Whether two identities are one.
pub fn is_same_identity(a: &Identity, b: &Identity) -> bool
    ensures { result ≡ values.same_identity a.now b.now }
{
    matches!(order_identities(a, b), Ordering::Equal)
}

/// The laws of these orders, for contracts to cite; it does nothing. Each order is total, which is
/// reflexive, transitive and the same seen from both sides, and only equal values tie.
pub fn order_laws()
    ensures values { IsTotalOrder values.value_cmp }
    ensures keys { IsTotalOrder values.key_cmp }
    ensures identities { IsTotalOrder values.identity_cmp }
    ensures value_ties { IsAntisymmetric values.value_cmp }
    ensures key_ties { IsAntisymmetric values.key_cmp }
    ensures identity_ties { IsAntisymmetric values.identity_cmp }
{}
