//! Rows that say a number: those of next numbers, of the revision and of pairs.
ghost use Rattle.std.specs.Prelude.{◌≡◌, ◌↔◌, pos, true, IsTrue, IfSome};
ghost use Rattle.jpa_value.specs.Value.{is_i64};
ghost use Rattle.jpa_object_rows.specs.meaning.Objects.{pair_row};
ghost use Rattle.jpa_opening.specs.reader.Numbers as numbers;
ghost use Rattle.jpa_opening.specs.reader.Sound.{IsNumberRow, IsRevisionRow};

use jpa_model::{Metamodel, Origin};
use jpa_rows::rows::{Content, Row, RowId};
use jpa_value::Value;

/// An integer that is not below 0.
fn natural(value: &Value) -> Option<u64>
    ensures number { result ≡ numbers.natural value.now }
    ensures small { IfSome result (λ n. is_i64 (pos n) ≡ true) }
{
    match value {
        Value::Int(number) if *number >= 0 => Some(*number as u64),
        _ => None,
    }
}

/// The number that a column holds, where it holds one that is not below 0.
pub(super) fn natural_in(content: &Content) -> Option<u64>
    ensures number { result ≡ numbers.natural_in content.now }
    ensures small { IfSome result (λ n. is_i64 (pos n) ≡ true) }
{
    match content {
        Content::Value(value) => natural(value),
        Content::Reference(_) => None,
    }
}

/// The number that a row says which has column 0 alone.
fn only_number(row: &Row) -> Option<u64>
    ensures number { result ≡ numbers.only_number row.now }
    ensures small { IfSome result (λ n. is_i64 (pos n) ≡ true) }
{
    match row.as_slice() {
        [field] if field.column == 0 => natural_in(&field.content),
        _ => None,
    }
}

/// The table whose next number stands under this id.
fn table_named(id: &RowId) -> Option<u64>
    ensures { result ≡ numbers.table_named id.now }
{
    match id.key.as_slice() {
        [part] if id.table == 0 => natural(part),
        _ => None,
    }
}

fn generates(origin: &Origin, table: u64) -> bool
    ensures { result ≡ numbers.generates table origin.now }
{
    match origin {
        Origin::Root(root) => root.table == table && root.generated,
        Origin::Extends(_) => false,
    }
}

/// Whether a hierarchy of this table has generated keys.
fn has_generator(metamodel: &Metamodel, table: u64) -> bool
    ensures { result ≡ numbers.has_generator metamodel.now table }
{
    metamodel
        .entities()
        .iter()
        .any(|entity| generates(&entity.origin, table))
}

/// Whether a row is that of a next number above 1 of a hierarchy with generated keys.
pub(super) fn is_number_row(metamodel: &Metamodel, id: &RowId, row: &Row) -> bool
    ensures { IsTrue result ↔ IsNumberRow metamodel.now id.now row.now }
{
    match (table_named(id), only_number(row)) {
        (Some(table), Some(next)) => next > 1 && has_generator(metamodel, table),
        _ => false,
    }
}

/// Whether a row is that of the unit's revision, which is 2.
pub(super) fn is_revision_row(metamodel: &Metamodel, id: &RowId, row: &Row) -> bool
    ensures { IsTrue result ↔ IsRevisionRow metamodel.now id.now row.now }
{
    match (table_named(id), only_number(row)) {
        (Some(0), Some(2)) => metamodel.unit().revision == 2,
        _ => false,
    }
}

/// Whether a row says that a pair stands.
pub(super) fn is_pair(row: &Row) -> bool
    ensures { IsTrue result ↔ (row.now ≡ pair_row) }
{
    match only_number(row) {
        Some(number) => number == 1,
        None => false,
    }
}
