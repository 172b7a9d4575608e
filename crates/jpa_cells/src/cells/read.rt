//! The two SELECTs, and the readers of what they show.

ghost use Rattle.std.specs.Prelude.{◌≡◌, ◌≢◌, [], ◌∷◌, ◌++◌, false, map, option_to_list, IsTrue, IfOk, IfErr, OnOk};
ghost use Rattle.std.specs.List.{All};
ghost use Rattle.sqlite.specs.Held.{state};
ghost use Rattle.sqlite.specs.State.{HasCleanDisk, Survives};
ghost use Rattle.jpa_value.specs.declared.refusal.Cause.{Cause};
ghost use Rattle.jpa_cells.specs.meaning.Tables.{cells_at, row_of};
ghost use Rattle.jpa_cells.specs.meaning.Content.{ShowsCells, tables_of, shown_cell, shown_entry, IsShownCell, IsShownEntry, added};
ghost use Rattle.jpa_cells.specs.meaning.Store.{IsStoreCause, OnlyReads, HandsTable};
ghost use Rattle.jpa_cells.specs.cells.Calls.{IsIdle, Selects};
ghost use Rattle.jpa_cells.specs.meaning.Reads.{ShowsOn};

use crate::cells::sink::{CellSink, hand_on};
use crate::meaning::{Cell, CellRow};
use jpa_value::{Bytes, Cause, Seq};
use sqlite::{Alter, Connection, Error, ErrorCode, Row, Rows, params};
use std::alloc::{AllocError, Global};

const SELECT_ROW: &str = "SELECT c, v FROM cell WHERE t = ?1 AND r = ?2 ORDER BY c";

const SELECT_TABLE: &str = "SELECT r, c, v FROM cell WHERE t = ?1 ORDER BY r, c";

fn cell_of(row: &Row) -> Result<Cell, Error>
    ensures cell { IfOk result (λ cell. cell ≡ shown_cell row.now) }
    ensures whole { IsShownCell row.now → IfErr result
        (λ e. e ≡ Error.SqliteFailure ErrorCode.OutOfMemory) }
{
    let column: i64 = row.get(0)?;
    let value: Vec<u8> = row.get(1)?;
    Ok(Cell {
        column,
        value: Bytes::of(value),
    })
}

fn entry_of(row: &Row) -> Result<(Bytes, Cell), Error>
    ensures entry { IfOk result (λ entry. entry ≡ shown_entry row.now) }
    ensures whole { IsShownEntry row.now → IfErr result
        (λ e. e ≡ Error.SqliteFailure ErrorCode.OutOfMemory) }
{
    let key: Vec<u8> = row.get(0)?;
    let column: i64 = row.get(1)?;
    let value: Vec<u8> = row.get(2)?;
    Ok((
        Bytes::of(key),
        Cell {
            column,
            value: Bytes::of(value),
        },
    ))
}

fn cells_of(alloc: Global, rows: &[Row]) -> Result<Seq<Cell>, Error>
    ensures cells { IfOk result (λ cells. cells ≡ map shown_cell rows.now) }
    ensures whole { All IsShownCell rows.now → IfErr result
        (λ e. e ≡ Error.SqliteFailure ErrorCode.OutOfMemory) }
{
    let mut cells = Vec::new(alloc);
    'rows: for row in rows {
        let cell = cell_of(row)?;
        cells.push(cell)?;
    }
    Ok(Seq::of(cells))
}

/// Want of memory, or else a fault of the store.
fn cause_of(error: Error) -> Cause
    ensures told { IsStoreCause result }
    ensures fault { result ≡ Cause.StoreFault →
        error ≢ Error.SqliteFailure ErrorCode.OutOfMemory }
{
    match error {
        Error::SqliteFailure(ErrorCode::OutOfMemory) => Cause::OutOfMemory,
        _ => Cause::StoreFault,
    }
}

/// A row of this one cell.
fn begin_row(alloc: Global, row: Bytes, cell: Cell) -> Result<CellRow, AllocError>
    ensures { IfOk result (λ made. made ≡ row_of row (cell ∷ [])) }
{
    let mut cells = Vec::new(alloc);
    cells.push(cell)?;
    Ok(CellRow {
        row,
        cells: Seq::of(cells),
    })
}

/// The row whose cells are read so far, with one more cell; and the row before, where the cell is
/// the first of another.
fn take_entry(
    alloc: Global,
    begun: Option<CellRow>,
    row: Bytes,
    cell: Cell,
) -> Result<(Option<CellRow>, CellRow), AllocError>
    ensures { IfOk result (λ taken. added (option_to_list begun) (row, cell)
        ≡ option_to_list taken.0 ++ taken.1 ∷ []) }
{
    match begun {
        Some(mut last) if last.row.as_slice() == row.as_slice() => {
            last.cells.push(cell)?;
            Ok((None, last))
        }
        Some(last) => Ok((Some(last), begin_row(alloc, row, cell)?)),
        None => Ok((None, begin_row(alloc, row, cell)?)),
    }
}

/// The next cell of the answer, after the bytes of its row; none after the last.
fn next_entry<S: Alter>(rows: &mut Rows<'_, S>) -> Result<Option<(Bytes, Cell)>, Cause>
    ensures same_reference { rows.new.conn.ghost_name ≡ rows.old.conn.ghost_name }
    ensures shows { ShowsOn S.Store rows.old.conn.now rows.new.conn.now result }
    ensures refused { IfErr result IsStoreCause }
    ensures idle { rows.old.conn.now.in_transaction ≡ false →
        rows.new.conn.now.in_transaction ≡ false }
    ensures survives { Survives (state S.Store rows.old.conn.now) (state S.Store rows.new.conn.now)
        (λ _. ⊥) }
{
    if let Err(error) = rows.advance() {
        return Err(cause_of(error));
    }
    match rows.get() {
        Some(row) => match entry_of(row) {
            Ok(entry) => Ok(Some(entry)),
            Err(error) => Err(cause_of(error)),
        },
        None => Ok(None),
    }
}

fn select_row<S: Alter>(conn: &mut Connection<S>, table: i64, row: &[u8]) -> Result<Vec<Row>, Error>
    requires { IsIdle S.Store conn.old }
    ensures shows { HasCleanDisk (state S.Store conn.new) →
        IfOk result (λ rows. ShowsCells (state S.Store conn.old) (state S.Store conn.new) table
        row.now rows.items) }
    ensures selects { Selects S.Store conn.old conn.new result }
{
    let _idle = conn.is_autocommit();
    conn.query_all(SELECT_ROW, params![table, row])
}

/// The cells of a row, in rising columns.
pub fn read_row<S: Alter>(
    conn: &mut Connection<S>,
    alloc: Global,
    table: i64,
    row: &[u8],
) -> Result<Seq<Cell>, Error>
    requires { IsIdle S.Store conn.old }
    ensures cells { HasCleanDisk (state S.Store conn.new) →
        IfOk result (λ cells. cells ≡ cells_at row.now
        (tables_of (state S.Store conn.old).now table)) }
    ensures stays { HasCleanDisk (state S.Store conn.new) →
        OnOk result (IsTrue (state S.Store conn.old).is_open
        × IsTrue (state S.Store conn.new).is_open) }
    ensures selects { Selects S.Store conn.old conn.new result }
{
    let rows = select_row(conn, table, row)?;
    cells_of(alloc, rows.as_slice())
}

/// Hands the rows of a table on, each once its cells are read: `true` once all were taken and more
/// are wanted, `false` after the first with which no more are wanted.
pub fn hand_table<S: Alter, K: CellSink>(
    conn: &mut Connection<S>,
    alloc: Global,
    table: i64,
    sink: &mut K,
) -> Result<bool, Cause>
    requires { IsIdle S.Store conn.old }
    ensures handed { HandsTable S.Store K.takes IsStoreCause table conn.old conn.new sink.old result
        sink.new }
    ensures reads { OnlyReads S.Store conn.old conn.new result }
{
    let _idle = conn.is_autocommit();
    let mut rows = match conn.query(SELECT_TABLE, params![table]) {
        Ok(rows) => rows,
        Err(error) => return Err(cause_of(error)),
    };
    let mut begun = None;
    // Nothing bounds the rows that a disk makes up.
    'entries: for _ in 0..u64::MAX {
        let Some((row, cell)) = next_entry(&mut rows)? else {
            return hand_on(begun, sink);
        };
        let (whole, last) = take_entry(alloc, begun, row, cell)?;
        begun = Some(last);
        if !hand_on(whole, sink)? {
            return Ok(false);
        }
    }
    Err(Cause::OutOfMemory)
}
