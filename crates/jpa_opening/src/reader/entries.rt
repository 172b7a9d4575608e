//! Whether rows are those of a schema.
ghost use Rattle.std.specs.Prelude.{◌≡◌, ◌↔◌, IsTrue};
ghost use Rattle.std.specs.List.{AllByRecursion};
ghost use Rattle.jpa_rows.specs.rows.Rows.{AreRising, table_of};
ghost use Rattle.jpa_cells.specs.rowspace.Stored.{IsEntryBy, AreRowsOf};

use jpa_rows::rows::{Row, RowId, Schema, is_key, is_row_of};
use jpa_value::order_identities;
use std::cmp::Ordering;

fn are_rising(rows: &[(RowId, Row)]) -> bool
    ensures { IsTrue result ↔ AreRising rows.now }
{
    for i in 1..rows.len() {
        if order_identities(&rows[i - 1].0, &rows[i].0) != Ordering::Less {
            return false;
        }
    }
    true
}

/// Whether the id names a row of one of the schema's tables, and the row is one of that table's,
/// with a column.
fn is_entry(schema: &Schema, id: &RowId, row: &Row) -> bool
    ensures { IsTrue result ↔ IsEntryBy (table_of schema.now id.now.table) (id.now, row.now) }
{
    match schema.table(id.table) {
        Some(table) => {
            is_key(table.key.as_slice(), &id.key) && is_row_of(table, row) && !row.is_empty()
        }
        None => false,
    }
}

fn are_entries(schema: &Schema, rows: &[(RowId, Row)]) -> bool
    ensures { IsTrue result ↔ AllByRecursion (λ e. IsEntryBy (table_of schema.now (e.0).table) e)
        rows.now }
{
    for (id, row) in rows {
        if !is_entry(schema, id, row) {
            return false;
        }
    }
    true
}

/// Whether the rows rise, and each is one of the schema's tables. Takes no memory.
pub(super) fn are_rows_of(schema: &Schema, rows: &[(RowId, Row)]) -> bool
    ensures { IsTrue result ↔ AreRowsOf schema.now rows.now }
{
    are_rising(rows) && are_entries(schema, rows)
}
