//! Whether a schema is that of the one table of cells.

ghost use Rattle.std.specs.Prelude.{◌≡◌, ◌↔◌, [], ◌∷◌, IsTrue};
ghost use Rattle.sqlite_value.specs.Keys.{plain};
ghost use Rattle.jpa_cells.specs.meaning.Schema.{column_of, cell_table, cell_index, cell_schema, no_schema};
ghost use Rattle.jpa_cells.specs.cells.Holding.{IsTableOfCells};

use sqlite_items::Items;
use sqlite_schema::code::Terms;
use sqlite_schema::schema::{Column, Index, Kind, Schema, Stamps, Table};
use sqlite_value::keys::{Collation, Order};
use sqlite_value::value::{Bytes, Value};

fn is_named(bytes: &Bytes, name: &[u8]) -> bool
    ensures { IsTrue result ↔ (bytes.now ≡ name.now) }
{
    bytes.as_slice() == name
}

fn is_null(value: &Value) -> bool
    ensures { IsTrue result ↔ (value.now ≡ Value.Null) }
{
    match value {
        Value::Null => true,
        _ => false,
    }
}

fn is_binary(collation: Collation) -> bool
    ensures { IsTrue result ↔ (collation ≡ Collation.Binary) }
{
    match collation {
        Collation::Binary => true,
        _ => false,
    }
}

fn is_integer(kind: Kind) -> bool
    ensures { IsTrue result ↔ (kind ≡ Kind.Integer) }
{
    match kind {
        Kind::Integer => true,
        _ => false,
    }
}

fn is_blob(kind: Kind) -> bool
    ensures { IsTrue result ↔ (kind ≡ Kind.Blob) }
{
    match kind {
        Kind::Blob => true,
        _ => false,
    }
}

fn is_integer_column(column: &Column, name: &[u8]) -> bool
    ensures { IsTrue result ↔ (column.now ≡ column_of name.now Kind.Integer) }
{
    is_named(&column.name, name)
        && is_integer(column.kind)
        && column.is_strict
        && column.not_null
        && is_null(&column.default)
        && is_binary(column.collation)
}

fn is_blob_column(column: &Column, name: &[u8]) -> bool
    ensures { IsTrue result ↔ (column.now ≡ column_of name.now Kind.Blob) }
{
    is_named(&column.name, name)
        && is_blob(column.kind)
        && column.is_strict
        && column.not_null
        && is_null(&column.default)
        && is_binary(column.collation)
}

pub fn is_empty_schema(schema: &Schema) -> bool
    ensures { IsTrue result ↔ (schema.now ≡ no_schema) }
{
    schema.tables.is_empty() && schema.indexes.is_empty() && schema.views.is_empty()
}

fn are_key_places(places: &[usize]) -> bool
    ensures { IsTrue result ↔ (places.now ≡ 1 ∷ 2 ∷ 3 ∷ []) }
{
    match places {
        [first, second, third] => *first == 1 && *second == 2 && *third == 3,
        _ => false,
    }
}

fn are_key_lists(lists: &[Items<usize>]) -> bool
    ensures { IsTrue result ↔ (lists.now ≡ (1 ∷ 2 ∷ 3 ∷ []) ∷ []) }
{
    match lists {
        [only] => are_key_places(only.as_slice()),
        _ => false,
    }
}

fn are_plain(orders: &[Order]) -> bool
    ensures { IsTrue result ↔ (orders.now ≡ plain ∷ []) }
{
    match orders {
        [only] => only.digits == 0,
        _ => false,
    }
}

fn are_cell_columns(columns: &[Column]) -> bool
    ensures { IsTrue result ↔ (columns.now ≡ cell_table.columns) }
{
    match columns {
        [table, row, column, value] => is_integer_column(table, b"t")
            && is_blob_column(row, b"r")
            && is_integer_column(column, b"c")
            && is_blob_column(value, b"v"),
        _ => false,
    }
}

fn is_empty_list(terms: &Terms) -> bool
    ensures { IsTrue result ↔ (terms.now ≡ []) }
{
    terms.roots.is_empty()
}

fn are_no_stamps(stamps: &Stamps) -> bool
    ensures { IsTrue result ↔ (stamps.now ≡ cell_table.stamps) }
{
    stamps.places.is_empty() && is_empty_list(&stamps.terms) && stamps.formats.is_empty()
}

/// Whether it is the table of cells, in any tree.
pub fn is_table_of_cells(table: &Table) -> bool
    ensures { IsTrue result ↔ IsTableOfCells table.now }
{
    is_named(&table.name, b"cell")
        && are_cell_columns(table.columns.as_slice())
        && table.key.is_none()
        && are_key_places(table.primary.as_slice())
        && are_key_lists(table.uniques.as_slice())
        && are_plain(table.orders.as_slice())
        && is_empty_list(&table.checks)
        && table.references.is_empty()
        && table.computed.is_empty()
        && are_no_stamps(&table.stamps)
        && !table.is_counted
}

fn is_cell_table(table: &Table) -> bool
    ensures { IsTrue result ↔ (table.now ≡ cell_table) }
{
    table.tree == 0 && is_table_of_cells(table)
}

fn is_cell_index(index: &Index) -> bool
    ensures { IsTrue result ↔ (index.now ≡ cell_index) }
{
    is_named(&index.name, b"sqlite_autoindex_cell_1")
        && index.tree == 1
        && index.table == 0
        && are_key_places(index.columns.as_slice())
        && index.order.digits == 0
        && index.is_unique
}

pub fn is_cell_schema(schema: &Schema) -> bool
    ensures { IsTrue result ↔ (schema.now ≡ cell_schema) }
{
    match (schema.tables.as_slice(), schema.indexes.as_slice()) {
        ([table], [index]) => schema.views.is_empty()
            && is_cell_table(table)
            && is_cell_index(index),
        _ => false,
    }
}
