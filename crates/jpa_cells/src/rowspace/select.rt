//! The SELECT of one row.
ghost use Rattle.std.specs.Prelude.{◌≡◌, ◌⊎◌, ◌+◌, pos, IfOk, IfErr, OnOk};
ghost use Rattle.jpa_value.specs.declared.refusal.Cause.{Cause};
ghost use Rattle.jpa_rows.specs.keys.Keys.{key_bytes};
ghost use Rattle.jpa_cells.specs.meaning.Tables.{cells_at};
ghost use Rattle.jpa_cells.specs.meaning.Store.{up_to_greatest, IsClean, IsOpen, tables_in, StaysOpen};
ghost use Rattle.jpa_cells.specs.cells.Calls.{OfRow, Looks};
ghost use Rattle.jpa_cells.specs.rowspace.Reading.{IsFound, IsIllFormed};
ghost use Rattle.jpa_cells.specs.rowspace.Space.{IsStoreCause};

use crate::cells::CellStore;
use crate::rowspace::read::found_row;
use crate::rowspace::spell::number_of;
use jpa_rows::keys::encode_key;
use jpa_rows::rows::{Row, TableRule};
use jpa_value::{Cause, Key};
use sqlite::Alter;
use std::alloc::Global;

/// The row of a table under a key.
pub(super) fn row_under<S: Alter>(
    alloc: Global,
    store: &mut CellStore<S>,
    table: &TableRule,
    key: &Key,
) -> Result<Option<Row>, Cause>
    ensures found { IsClean S.Store store.new.conn →
        IfOk result
        (IsFound table.now (cells_at (key_bytes key.now)
        (tables_in S.Store store.old.conn (pos table.now.table)))) }
    ensures refused { IfErr result (λ cause. IsStoreCause cause
        ⊎ ((cause ≡ Cause.Damaged table.now.table (key_bytes key.now))
        × (IsClean S.Store store.new.conn → IsOpen S.Store store.old.conn
        × IsOpen S.Store store.new.conn × IsIllFormed table.now
        (cells_at (key_bytes key.now) (tables_in S.Store store.old.conn (pos table.now.table)))))) }
    ensures open { StaysOpen S.Store result store.old.conn store.new.conn }
    ensures counted { OnOk result (store.new.row_selects
        ≡ up_to_greatest (store.old.row_selects + 1)) }
    ensures looks { Looks S.Store OfRow store.old store.new result }
{
    let bytes = encode_key(alloc, key)?;
    let cells = store.row(number_of(table), bytes.as_slice())?;
    found_row(alloc, table, bytes, cells)
}
