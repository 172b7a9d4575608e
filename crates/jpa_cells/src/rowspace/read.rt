//! From cells to rows.
ghost use Rattle.std.specs.Prelude.{◌≡◌, ◌↔◌, ◌⊎◌, Some, MatchResult, IfOk, IfErr};
ghost use Rattle.jpa_value.specs.declared.refusal.Cause.{Cause};
ghost use Rattle.jpa_rows.specs.rows.Rows as rows;
ghost use Rattle.jpa_cells.specs.rowspace.Reading as reading;

use crate::meaning::{Cell, CellRow};
use jpa_rows::rows::{Row, RowId, TableRule, read_id, read_row};
use jpa_value::{Bytes, Cause, Seq};
use std::alloc::Global;

fn columns_of(alloc: Global, cells: Vec<Cell>) -> Result<Seq<(i64, Bytes)>, Cause>
    ensures ok { IfOk result (λ columns. columns ≡ reading.columns_of cells.items) }
    ensures err { IfErr result (λ cause. cause ≡ Cause.OutOfMemory) }
{
    let mut columns = Seq::new(alloc);
    'cells: for cell in cells {
        let Cell { column, value } = cell;
        columns.push((column, value))?;
    }
    Ok(columns)
}

/// The row that cells spell.
fn row_of(alloc: Global, table: &TableRule, cells: Seq<Cell>) -> Result<Option<Row>, Cause>
    ensures spelled { IfOk result (λ found. (row : rows.Row) → (found ≡ Some row)
        ↔ rows.SpellsRow table.now (reading.columns_of cells) row) }
    ensures err { IfErr result (λ cause. cause ≡ Cause.OutOfMemory) }
{
    let columns = columns_of(alloc, cells.into_vec())?;
    Ok(read_row(alloc, table, columns.as_slice())?)
}

/// The row that stands where the store has these cells under these bytes.
pub(super) fn found_row(
    alloc: Global,
    table: &TableRule,
    bytes: Bytes,
    cells: Seq<Cell>,
) -> Result<Option<Row>, Cause>
    ensures found { IfOk result (reading.IsFound table.now cells) }
    ensures err { IfErr result (λ cause. (cause ≡ Cause.OutOfMemory)
        ⊎ ((cause ≡ Cause.Damaged table.now.table bytes)
        × reading.IsIllFormed table.now cells)) }
{
    if cells.is_empty() {
        return Ok(None);
    }
    match row_of(alloc, table, cells)? {
        Some(row) => Ok(Some(row)),
        None => Err(Cause::Damaged(u64::from(table.table), bytes)),
    }
}

/// The id and the row that a row of cells spells, or its bytes where it is damaged.
pub(super) fn entry_of(
    alloc: Global,
    table: &TableRule,
    stored: CellRow,
) -> Result<Result<(RowId, Row), Bytes>, Cause>
    ensures read { IfOk result (λ read. MatchResult read (reading.IsEntry table.now stored)
        (λ bytes. reading.IsDamaged table.now stored × (stored.row ≡ bytes))) }
    ensures err { IfErr result (λ cause. cause ≡ Cause.OutOfMemory) }
{
    let CellRow { row, cells } = stored;
    let key = match read_id(alloc, table, row.as_slice())? {
        Some(key) => key,
        None => return Ok(Err(row)),
    };
    match row_of(alloc, table, cells)? {
        Some(fields) => {
            let table = u64::from(table.table);
            Ok(Ok((RowId { table, key }, fields)))
        }
        None => Ok(Err(row)),
    }
}

/// The rows of a table, up to the first that is damaged, and the bytes of that one.
pub(super) fn rows_of(
    alloc: Global,
    table: &TableRule,
    stored: Vec<CellRow>,
) -> Result<(Seq<(RowId, Row)>, Option<Bytes>), Cause>
    ensures read { IfOk result (λ read. reading.AreRead table.now stored.items read.0 read.1) }
    ensures err { IfErr result (λ cause. cause ≡ Cause.OutOfMemory) }
{
    let mut rows = Seq::new(alloc);
    'rows: for row in stored {
        match entry_of(alloc, table, row)? {
            Ok(entry) => rows.push(entry)?,
            Err(bytes) => return Ok((rows, Some(bytes))),
        }
    }
    Ok((rows, None))
}
