//! The DELETE and the INSERT, and the transaction that makes a list of changes.

ghost use Rattle.std.specs.Prelude.{◌≡◌, ◌+◌, ◌<◌, ◌≤◌, ⊤, [], ◌∷◌, length, sum_by, IsTrue, IfErr, OnOk};
ghost use Rattle.sqlite.specs.Held.{state};
ghost use Rattle.sqlite.specs.State.{HasCleanDisk};
ghost use Rattle.jpa_cells.specs.meaning.Tables.{statements_of, tables_after, ColumnsDiffer, NameColumnsOnce};
ghost use Rattle.jpa_cells.specs.meaning.Store.{Counts, up_to_greatest};
ghost use Rattle.jpa_cells.specs.cells.Calls.{IsIdle, IsInside, Performs, Commits};
ghost use Rattle.jpa_cells.specs.meaning.Content.{IsExcused, Steps, Turns, Applied, TakesRowids, CanAdd, CanTake, tables_of, with_cell, with_cells, without_cells, replaced};

use crate::meaning::{Cell, CellChange};
use sqlite::{Alter, Connection, Error, Transaction, params};

const INSERT: &str = "INSERT INTO cell (t, r, c, v) VALUES (?1, ?2, ?3, ?4)";

const DELETE: &str = "DELETE FROM cell WHERE t = ?1 AND r = ?2";

/// Adds a cell within the transaction.
fn insert<S: Alter>(
    tx: &mut Transaction<'_, S>,
    table: i64,
    row: &[u8],
    cell: &Cell,
    writes: &mut u64,
) -> Result<usize, Error>
    requires { IsInside S.Store tx.old.conn.now }
    ensures same_reference { tx.new.conn.ghost_name ≡ tx.old.conn.ghost_name }
    ensures performs { Performs S.Store (λ old new. Steps old new
        (with_cell table row.now cell.now)) (CanAdd (state S.Store tx.old.conn.now) table row.now
        (cell.now ∷ [])) tx.old.conn.now tx.new.conn.now result }
    ensures counted { writes.new ≡ up_to_greatest (writes.old + 1) }
    ensures grown { writes.old ≤ writes.new }
    ensures takes { HasCleanDisk (state S.Store tx.new.conn.now) →
        OnOk result (TakesRowids (state S.Store tx.old.conn.now) (state S.Store tx.new.conn.now)
        1) }
{
    *writes = writes.saturating_add(1);
    tx.execute(
        INSERT,
        params![table, row, cell.column, cell.value.as_slice()],
    )
}

/// Drops a row within the transaction.
fn delete<S: Alter>(
    tx: &mut Transaction<'_, S>,
    table: i64,
    row: &[u8],
    writes: &mut u64,
) -> Result<usize, Error>
    requires { IsInside S.Store tx.old.conn.now }
    ensures same_reference { tx.new.conn.ghost_name ≡ tx.old.conn.ghost_name }
    ensures performs { Performs S.Store (λ old new. Steps old new (without_cells table row.now))
        ⊤ tx.old.conn.now tx.new.conn.now result }
    ensures counted { writes.new ≡ up_to_greatest (writes.old + 1) }
    ensures grown { writes.old ≤ writes.new }
    ensures takes { HasCleanDisk (state S.Store tx.new.conn.now) →
        OnOk result (TakesRowids (state S.Store tx.old.conn.now) (state S.Store tx.new.conn.now)
        0) }
{
    *writes = writes.saturating_add(1);
    tx.execute(DELETE, params![table, row])
}

/// Writes the cells of a row, within the transaction.
fn insert_all<S: Alter>(
    tx: &mut Transaction<'_, S>,
    table: i64,
    row: &[u8],
    cells: &[Cell],
    writes: &mut u64,
) -> Result<(), Error>
    requires ready { IsInside S.Store tx.old.conn.now }
    requires open { HasCleanDisk (state S.Store tx.old.conn.now) →
        IsTrue (state S.Store tx.old.conn.now).is_open }
    ensures same_reference { tx.new.conn.ghost_name ≡ tx.old.conn.ghost_name }
    ensures performs { Performs S.Store (λ old new. Steps old new
        (with_cells table row.now cells.now)) (CanAdd (state S.Store tx.old.conn.now) table row.now
        cells.now) tx.old.conn.now tx.new.conn.now result }
    ensures counted { Counts result writes.old writes.new (length cells.now) }
    ensures takes { HasCleanDisk (state S.Store tx.new.conn.now) →
        OnOk result (TakesRowids (state S.Store tx.old.conn.now) (state S.Store tx.new.conn.now)
        (length cells.now)) }
{
    let _writes = *writes;
    'cells: for cell in cells {
        insert(tx, table, row, cell, writes)?;
    }
    Ok(())
}

/// Makes one change within the transaction.
fn put<S: Alter>(
    tx: &mut Transaction<'_, S>,
    change: &CellChange,
    writes: &mut u64,
) -> Result<(), Error>
    requires { IsInside S.Store tx.old.conn.now }
    ensures same_reference { tx.new.conn.ghost_name ≡ tx.old.conn.ghost_name }
    ensures performs { Performs S.Store (λ old new. Steps old new (replaced change.now))
        (CanTake (state S.Store tx.old.conn.now).now (change.now ∷ [])) tx.old.conn.now
        tx.new.conn.now result }
    ensures counted { Counts result writes.old writes.new (statements_of change.now) }
    ensures takes { HasCleanDisk (state S.Store tx.new.conn.now) →
        OnOk result (TakesRowids (state S.Store tx.old.conn.now) (state S.Store tx.new.conn.now)
        (length change.now.cells)) }
    ensures once { HasCleanDisk (state S.Store tx.new.conn.now) →
        OnOk result (ColumnsDiffer change.now.cells) }
{
    delete(tx, change.table, change.row.as_slice(), writes)?;
    insert_all(
        tx,
        change.table,
        change.row.as_slice(),
        change.cells.as_slice(),
        writes,
    )?;
    Ok(())
}

/// Makes the changes within the transaction.
fn put_all<S: Alter>(
    tx: &mut Transaction<'_, S>,
    changes: &[CellChange],
    writes: &mut u64,
) -> Result<(), Error>
    requires some { 0 < length changes.now }
    requires ready { IsInside S.Store tx.old.conn.now }
    ensures same_reference { tx.new.conn.ghost_name ≡ tx.old.conn.ghost_name }
    ensures performs { Performs S.Store (λ old new. Turns old new changes.now)
        (CanTake (state S.Store tx.old.conn.now).now changes.now) tx.old.conn.now tx.new.conn.now
        result }
    ensures counted { Counts result writes.old writes.new (sum_by statements_of changes.now) }
    ensures once { HasCleanDisk (state S.Store tx.new.conn.now) →
        OnOk result (NameColumnsOnce changes.now) }
{
    let _writes = *writes;
    'changes: for change in changes {
        put(tx, change, writes)?;
    }
    Ok(())
}

/// Makes the changes in a transaction of their own.
pub fn apply_all<S: Alter>(
    conn: &mut Connection<S>,
    changes: &[CellChange],
    writes: &mut u64,
) -> Result<(), Error>
    requires some { 0 < length changes.now }
    requires ready { IsIdle S.Store conn.old }
    ensures commits { Commits S.Store (λ old new. Applied old new changes.now)
        (λ tables. IsTrue (state S.Store conn.old).is_open
        × (tables ≡ tables_after changes.now (tables_of (state S.Store conn.old).now)))
        conn.old conn.new result }
    ensures counted { Counts result writes.old writes.new (sum_by statements_of changes.now) }
    ensures once { HasCleanDisk (state S.Store conn.new) →
        OnOk result (NameColumnsOnce changes.now) }
    ensures cause { HasCleanDisk (state S.Store conn.new) →
        CanTake (state S.Store conn.old).now changes.now →
        IfErr result (IsExcused (state S.Store conn.old) (state S.Store conn.new)) }
{
    let _idle = conn.is_autocommit();
    let mut tx = conn.transaction();
    put_all(&mut tx, changes, writes)?;
    tx.commit()?;
    Ok(())
}
