//! From rows of cells to rows, one at a time.
ghost use Rattle.std.specs.Prelude.{◌≡◌, ◌+◌, pos, OnOk};
ghost use Rattle.jpa_cells.specs.meaning.Tables.{AreRows};
ghost use Rattle.jpa_cells.specs.meaning.Store.{up_to_greatest, HandsTable, IsClean, tables_in, StaysOpen};
ghost use Rattle.jpa_cells.specs.cells.Calls.{OfTable, Looks};
ghost use Rattle.jpa_cells.specs.rowspace.Reading.{ReadsRow};
ghost use Rattle.jpa_cells.specs.rowspace.Space.{IsStoreCause};

use crate::cells::{CellSink, CellStore};
use crate::meaning::CellRow;
use crate::rowspace::read::entry_of;
use crate::rowspace::spell::number_of;
use jpa_rows::rows::{RowSink, TableRule};
use jpa_value::Cause;
use sqlite::Alter;
use std::alloc::Global;

/// Hands rows of cells on as the rows of a table that they spell.
#[derive(Drop)]
struct Reading<'l, 's, K: RowSink> {
    alloc: Global,
    table: &'l TableRule,
    sink: &'s mut K,
}

impl<K: RowSink> CellSink for Reading<'_, '_, K> {
    ghost use Rattle.std.specs.Prelude.{◌≡◌};
    ghost use Rattle.jpa_cells.specs.rowspace.Reading.{ReadsRow};

    ghost takes = { λ s stored out t. (t.sink.ghost_name ≡ s.sink.ghost_name) × (t.table.now ≡ s.table.now) × ReadsRow K.takes s.table.now s.sink.now stored out t.sink.now };

    fn row(&mut self, row: CellRow) -> Result<bool, Cause> {
        match entry_of(self.alloc, self.table, row)? {
            Ok((id, fields)) => self.sink.row(id, fields),
            Err(bytes) => Err(Cause::Damaged(u64::from(self.table.table), bytes)),
        }
    }
}

/// Hands the rows of a table on, by one SELECT.
pub(super) fn each_under<'l, 's, S: Alter, K: RowSink>(
    alloc: Global,
    store: &mut CellStore<S>,
    table: &'l TableRule,
    sink: &'s mut K,
) -> Result<bool, Cause>
    ensures handed { HandsTable S.Store (ReadsRow K.takes table.now) IsStoreCause
        (pos table.now.table) store.old.conn store.new.conn sink.old result sink.new }
    ensures rise { IsClean S.Store store.new.conn →
        OnOk result (AreRows (tables_in S.Store store.old.conn (pos table.now.table))) }
    ensures open { StaysOpen S.Store result store.old.conn store.new.conn }
    ensures counted { store.new.table_selects ≡ up_to_greatest (store.old.table_selects + 1) }
    ensures looks { Looks S.Store OfTable store.old store.new result }
{
    let mut reading = Reading { alloc, table, sink };
    let answer = store.each(number_of(table), &mut reading);
    let Reading {
        alloc: _,
        table: _,
        sink: _,
    } = reading;
    answer
}
