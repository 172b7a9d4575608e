//! Whether keys and rows are those of a table.
ghost use Rattle.std.specs.Prelude.{◌≡◌, ◌&&◌, ◌==◌, ◌↔◌, IsTrue, length};
ghost use Rattle.std.specs.List.{list_all, zip};
ghost use Rattle.std.specs.Option.{option_copied};
ghost use Rattle.jpa_value.specs.Value.{is_representable};
ghost use Rattle.jpa_rows.specs.keys.Keys.{is_part_of};
ghost use Rattle.jpa_behaviour.specs.Behaviour as behaviour;
ghost use Rattle.jpa_rows.specs.rows.Cells.{is_given};
ghost use Rattle.jpa_rows.specs.rows.Rows as rows;
ghost use Rattle.jpa_rows.specs.rows.Reading as reading;

use crate::rows::row::{Content, Field, Row};
use crate::rows::schema::{ColumnRule, Holds, TableRule};
use crate::rows::values::{is_short, value_is_representable};
use jpa_value::{Key, Kind, Value, fits};

/// Whether a value may stand in a column of every kind.
fn may_stand(value: &Value) -> bool
    ensures { result
        ≡ (is_given value.now && (is_representable value.now && behaviour.is_short value.now)) }
{
    value_is_representable(value);
    !matches!(value, Value::Null) && is_short(value)
}

/// Whether a value may stand in a column of a kind, or in a key.
fn may_stand_as(kind: Kind, value: &Value) -> bool
    ensures { result ≡ (is_part_of kind value.now && behaviour.is_short value.now) }
{
    value_is_representable(value);
    !matches!(value, Value::Null) && fits(kind, value)
}

fn are_parts(kinds: &[Kind], key: &[Value]) -> bool
    ensures { result ≡ list_all (λ p. is_part_of p.0 p.1 && behaviour.is_short p.1)
        (zip kinds.now key.now) }
{
    kinds
        .iter()
        .zip(key)
        .all(|(kind, part)| may_stand_as(*kind, part))
}

/// Whether a key has one part of each of these kinds, none of them over 65,535 bytes. Takes no
/// memory.
pub fn is_key(kinds: &[Kind], key: &Key) -> bool
    ensures { result ≡ rows.is_key kinds.now key.now }
{
    kinds.len() == key.len() && are_parts(kinds, key.as_slice())
}

fn may_hold(holds: &Holds, content: &Content) -> bool
    ensures { result ≡ rows.may_hold holds.now content.now }
{
    match (holds, content) {
        (Holds::Kind(kind), Content::Value(value)) => may_stand_as(*kind, value),
        (Holds::Any, Content::Value(value)) => may_stand(value),
        (Holds::Reference(kinds), Content::Reference(key)) => is_key(kinds.as_slice(), key),
        _ => false,
    }
}

fn rule_of(table: &TableRule, column: u32) -> Option<&ColumnRule>
    ensures { option_copied result ≡ rows.rule_of table.now column }
{
    table
        .columns
        .as_slice()
        .iter()
        .find(|rule| rule.column == column)
}

fn is_field_of(table: &TableRule, field: &Field) -> bool
    ensures { result ≡ rows.is_field_by field.now.content
        (rows.rule_of table.now field.now.column) }
{
    match rule_of(table, field.column) {
        None => false,
        Some(rule) => may_hold(&rule.holds, &field.content),
    }
}

fn are_fields_of(table: &TableRule, row: &[Field]) -> bool
    ensures { result
        ≡ list_all (λ f. rows.is_field_by f.content (rows.rule_of table.now f.column)) row.now }
{
    row.iter().all(|field| is_field_of(table, field))
}

/// Whether the columns rise.
pub(super) fn is_rising(row: &[Field]) -> bool
    ensures { result ≡ reading.rises_from 0 row.now }
{
    let mut least: u64 = 0;
    for field in row {
        let column = u64::from(field.column);
        if column < least {
            return false;
        }
        least = column + 1;
    }
    true
}

/// Whether a row is one of a table's: its columns rise, and each is one of the table's that may
/// hold what it holds. Takes no memory.
pub fn is_row_of(table: &TableRule, row: &Row) -> bool
    ensures { IsTrue result ↔ rows.IsRowOf table.now row.now }
{
    is_rising(row.as_slice()) && are_fields_of(table, row.as_slice())
}
