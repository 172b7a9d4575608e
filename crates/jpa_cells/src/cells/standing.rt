//! What a database holds: nothing, cells, or something else.

ghost use Rattle.std.specs.Prelude.{◌≡◌, option_copied};
ghost use Rattle.sqlite.specs.Held.{state};
ghost use Rattle.jpa_cells.specs.cells.Holding as spec;

use crate::cells::found::{is_cell_schema, is_empty_schema, is_table_of_cells};
use sqlite::{Alter, Connection};
use sqlite_schema::names::same_name;
use sqlite_schema::schema::{Schema, Table};

/// What a database holds, as far as a store of cells asks.
#[derive(Clone, Copy, Debug, PartialEq, Eq)]
pub enum Holding {
    /// No table, index or view.
    Nothing,
    /// The table of cells and nothing else.
    Cells,
    /// The table of cells, and something else beside it.
    CellsAndMore,
    /// A table that has the name `cell`, in whatever case of its letters, and another schema than
    /// the table of cells.
    OtherCell,
    /// Something, and no table that has the name.
    Others,
}

fn has_name_cell(table: &Table) -> bool
    ensures { result ≡ spec.has_name_cell table.now }
{
    same_name(table.name.as_slice(), b"cell")
}

fn find_cell(schema: &Schema) -> Option<&Table>
    ensures { option_copied result ≡ spec.table_cell schema.now }
{
    schema
        .tables
        .as_slice()
        .iter()
        .find(|table| has_name_cell(table))
}

fn holding_in(schema: &Schema) -> Holding
    ensures { spec.Holds schema.now result }
{
    if is_empty_schema(schema) {
        return Holding::Nothing;
    }
    if is_cell_schema(schema) {
        return Holding::Cells;
    }
    match find_cell(schema) {
        None => Holding::Others,
        Some(table) => {
            if is_table_of_cells(table) {
                Holding::CellsAndMore
            } else {
                Holding::OtherCell
            }
        }
    }
}

/// What the database of a connection holds. `CellStore::open` takes it where that is nothing or
/// cells, and refuses anything else with `StoreFault`. Runs no statement, and takes no memory.
pub fn holding_of<S: Alter>(conn: &Connection<S>) -> Holding
    ensures { spec.Holds (state S.Store conn.now).now.schema result }
{
    holding_in(conn.schema())
}
