//! Tests of values, which stand in conditions and behind WHEN.
use jpa_value::{Seq, Text};
use jpql_trees::tree::{Comparison, Value};

/// A test of values, before it is a condition or a value of CASE; the flag says whether NOT stands in
/// it (chapters 4.6.7 to 4.6.11).
#[derive(Drop)]
pub enum Tested {
    Compare(Comparison, Value, Value),
    Between(bool, Value, Value, Value),
    In(bool, Value, Seq<Value>),
    Like(bool, Value, Value, Option<Text>),
    IsNull(bool, Value),
}
