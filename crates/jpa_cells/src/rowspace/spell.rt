//! From changes of rows to changes of cells.
ghost use Rattle.std.specs.Prelude.{◌≡◌, pos, map, length, IsSome, IfOk, IfErr};
ghost use Rattle.std.specs.Result.{IsOk};
ghost use Rattle.jpa_value.specs.declared.refusal.Cause.{Cause};
ghost use Rattle.jpa_rows.specs.rows.Rows.{table_of, AreChanges};
ghost use Rattle.jpa_cells.specs.rowspace.Stored as stored;
ghost use Rattle.jpa_cells.specs.rowspace.Reading as pairs;

use crate::meaning::{Cell, CellChange};
use jpa_rows::keys::encode_key;
use jpa_rows::rows::{Row, RowChange, Schema, TableRule, spell_row};
use jpa_value::{Bytes, Cause, Seq};
use std::alloc::Global;

fn cells_from(alloc: Global, spelled: Vec<(i64, Bytes)>) -> Result<Seq<Cell>, Cause>
    ensures ok { IfOk result (λ cells. cells ≡ pairs.cells_from spelled.items) }
    ensures err { IfErr result (λ cause. cause ≡ Cause.OutOfMemory) }
{
    let mut cells = Seq::new(alloc);
    'columns: for (column, value) in spelled {
        cells.push(Cell { column, value })?;
    }
    Ok(cells)
}

/// The cells of a row, in the order of its columns.
#[tactic(auto, using(crate::proofs::rowspace::Pairs::spelled_cells))]
fn cells_of(alloc: Global, row: &Row) -> Result<Seq<Cell>, Cause>
    ensures ok { IfOk result (λ cells. cells ≡ map stored.cell_of row.now) }
    ensures err { IfErr result (λ cause. cause ≡ Cause.OutOfMemory) }
{
    let spelled = spell_row(alloc, row)?;
    Ok(cells_from(alloc, spelled.into_vec())?)
}

/// The cells that a row has from now on; none where it is dropped.
fn new_cells(alloc: Global, row: &Option<Row>) -> Result<Seq<Cell>, Cause>
    ensures ok { IfOk result (λ cells. cells ≡ stored.cells_in row.now) }
    ensures err { IfErr result (λ cause. cause ≡ Cause.OutOfMemory) }
{
    match row {
        None => Ok(Seq::new(alloc)),
        Some(row) => Ok(cells_of(alloc, row)?),
    }
}

/// The number of a table as the store has it.
pub(super) fn number_of(rule: &TableRule) -> i64
    ensures { result ≡ pos rule.now.table }
{
    i64::from(rule.table)
}

#[tactic(auto, using(crate::proofs::rowspace::Ids::numbered))]
pub(super) fn known_table(schema: &Schema, table: u64) -> &TableRule
    requires { IsSome (table_of schema.now table) }
    ensures { result.now.table ≡ table }
{
    match schema.table(table) {
        Some(rule) => rule,
        None => unreachable!(),
    }
}

fn cell_change(alloc: Global, schema: &Schema, change: &RowChange) -> Result<CellChange, Cause>
    requires { IsSome (table_of schema.now (change.now.id).table) }
    ensures ok { IfOk result (λ made. made ≡ stored.cell_change change.now) }
    ensures err { IfErr result (λ cause. cause ≡ Cause.OutOfMemory) }
{
    Ok(CellChange {
        table: number_of(known_table(schema, change.id.table)),
        row: encode_key(alloc, &change.id.key)?,
        cells: new_cells(alloc, &change.row)?,
    })
}

/// The changes of cells that make these changes of rows, in their order.
pub(super) fn cell_changes(
    alloc: Global,
    schema: &Schema,
    changes: &[RowChange],
) -> Result<Seq<CellChange>, Cause>
    requires { AreChanges schema.now changes.now }
    ensures ok { IfOk result (λ made. made ≡ stored.cell_changes changes.now) }
    ensures none { length changes.now ≡ 0 → IsOk result }
    ensures err { IfErr result (λ cause. cause ≡ Cause.OutOfMemory) }
{
    let mut made = Seq::new(alloc);
    for change in changes {
        made.push(cell_change(alloc, schema, change)?)?;
    }
    Ok(made)
}
