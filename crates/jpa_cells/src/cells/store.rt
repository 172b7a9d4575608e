//! The store of cells.

ghost use Rattle.std.specs.Prelude.{◌≡◌, ◌≢◌, ◌+◌, ◌<◌, false, length, sum_by, IfOk, IfErr, OnOk};
ghost use Rattle.std.specs.Result.{IsOk};
ghost use Rattle.sqlite.specs.Held.{state};
ghost use Rattle.jpa_cells.specs.meaning.Schema.{cell_schema, no_schema};
ghost use Rattle.jpa_cells.specs.meaning.Tables.{cells_at, statements_of, AreRows, NameColumnsOnce};
ghost use Rattle.jpa_cells.specs.meaning.Store.{up_to_greatest, Counts, Tells, TellsOf, faults_after, IsStoreCause, HandsTable, new_store, IsClean, tables_in, HoldsTable, IsOrderedIfFound, IsReady, StaysOpen};
ghost use Rattle.jpa_cells.specs.cells.Calls.{OfRow, OfTable, IsTable, IsOpened, IsRefused, Looks, Applies};

use crate::cells::found;
use crate::cells::make::create;
use crate::cells::read::{hand_table, read_row};
use crate::cells::sink::{CellSink, Kept};
use crate::cells::write::apply_all;
use crate::meaning::{Cell, CellChange, CellRow};
use jpa_value::{Cause, Seq};
use sqlite::{Alter, Connection, Error, ErrorCode};
use std::alloc::Global;
use std::marker::Model;

/// Tables of rows of cells in a database of its own, which counts the statements that it runs and
/// the refusals that it meets. Its calls refuse with `OutOfMemory` and `StoreFault` alone, and a
/// refused call leaves the tables as they were.
#[derive(Drop)]
pub struct CellStore<S: Alter> {
    conn: Connection<S>,
    alloc: Global,
    row_selects: u64,
    table_selects: u64,
    writes: u64,
    creates: u64,
    faults: u64,
}

impl<S: Alter> Model for CellStore<S> {
    ghost use Rattle.std.specs.Prelude.{◌≡◌, false};
    ghost use Rattle.jpa_cells.specs.meaning.Store.{Stored, stored_code, IsReady};

    ghost Value = { Stored S };

    ghost coded = { stored_code S.code };

    ghost view = { λ s. record {
      conn = s.conn;
      row_selects = s.row_selects;
      table_selects = s.table_selects;
      writes = s.writes;
      creates = s.creates;
      faults = s.faults;
    } };

    ghost invariant = { λ s. (s.conn.in_transaction ≡ false) × IsReady S.Store s.conn };
}

/// Counts the refusal, unless it is for want of memory.
fn refusal_of(error: Error, faults: &mut u64) -> Cause
    ensures told { TellsOf result faults.old faults.new }
    ensures cause { result ≡ Cause.StoreFault →
        error ≢ Error.SqliteFailure ErrorCode.OutOfMemory }
{
    match error {
        Error::SqliteFailure(ErrorCode::OutOfMemory) => Cause::OutOfMemory,
        _ => {
            *faults = faults.saturating_add(1);
            Cause::StoreFault
        }
    }
}

/// Counts the answer, where it is a fault of the store.
fn count_fault<T>(answer: &Result<T, Cause>, faults: &mut u64)
    ensures { faults.new ≡ faults_after answer.now faults.old }
{
    if let Err(Cause::StoreFault) = answer {
        *faults = faults.saturating_add(1);
    }
}

impl<S: Alter + Drop> CellStore<S> {
    /// Takes the table `cell` where it stands in the database, and makes it where the database is
    /// empty. Refused, it hands the connection back, in a transaction only where it was in one, and
    /// its database is as it was, unless a fault shut it or the disk returned something else than
    /// was written: `StoreFault` where the database holds anything else, of which `holding_of`
    /// tells what it is, where the connection is in a transaction, and where the store refuses the
    /// statement for another cause than memory; `OutOfMemory` only where it set out to make the
    /// table.
    pub fn open(
        alloc: Global,
        mut conn: Connection<S>,
    ) -> Result<CellStore<S>, (Cause, Connection<S>)>
        requires { IsOrderedIfFound S.Store conn }
        ensures opened { IfOk result (IsOpened S.Store conn) }
        ensures foreign { (state S.Store conn).now.schema ≢ no_schema →
            (state S.Store conn).now.schema ≢ cell_schema →
            result ≡ Err (Cause.StoreFault, conn) }
        ensures takes { conn.in_transaction ≡ false → HoldsTable S.Store conn → IsOk result }
        ensures refused { IfErr result (IsRefused S.Store conn) }
    {
        let mut faults = 0;
        if !conn.is_autocommit() {
            return Err((Cause::StoreFault, conn));
        }
        if found::is_empty_schema(conn.schema()) {
            if let Err(error) = create(&mut conn) {
                return Err((refusal_of(error, &mut faults), conn));
            }
            return Ok(CellStore::over(alloc, conn, 1));
        }
        if !found::is_cell_schema(conn.schema()) {
            return Err((Cause::StoreFault, conn));
        }
        Ok(CellStore::over(alloc, conn, 0))
    }

    fn over(alloc: Global, conn: Connection<S>, creates: u64) -> CellStore<S>
        requires idle { conn.in_transaction ≡ false }
        requires ready { IsReady S.Store conn }
        ensures { result ≡ new_store conn creates }
    {
        CellStore {
            conn,
            alloc,
            row_selects: 0,
            table_selects: 0,
            writes: 0,
            creates,
            faults: 0,
        }
    }
}

impl<S: Alter> CellStore<S> {
    /// How many SELECTs were run since the opening, up to the greatest u64. Takes no memory.
    pub fn selects(&self) -> u64
        ensures { result ≡ up_to_greatest (self.now.row_selects + self.now.table_selects) }
    {
        self.row_selects.saturating_add(self.table_selects)
    }

    /// How many DELETEs and INSERTs were run since the opening, up to the greatest u64. Takes no
    /// memory.
    pub fn writes(&self) -> u64
        ensures { result ≡ self.now.writes }
    {
        self.writes
    }

    /// How many statements were run since the opening, with the opening's CREATE, up to the
    /// greatest u64. Takes no memory.
    pub fn statements(&self) -> u64
        ensures { result
            ≡ up_to_greatest (self.now.row_selects + self.now.table_selects + self.now.writes +
            self.now.creates) }
    {
        self.row_selects
            .saturating_add(self.table_selects)
            .saturating_add(self.writes)
            .saturating_add(self.creates)
    }

    /// The connection, in no transaction, whose database is as the store left it: the table `cell`
    /// and nothing else, unless a fault shut it or the disk returned something else than was
    /// written. Takes no memory.
    pub fn into_connection(self) -> Connection<S>
        ensures same { result ≡ self.conn }
        ensures idle { result.in_transaction ≡ false }
        ensures ready { IsReady S.Store result }
        ensures again { IsOrderedIfFound S.Store result }
    {
        let CellStore {
            conn,
            alloc: _,
            row_selects: _,
            table_selects: _,
            writes: _,
            creates: _,
            faults: _,
        } = self;
        conn
    }

    /// The cells of a row, in rising order of their columns, by one SELECT; none where there is no
    /// such row.
    pub fn row(&mut self, table: i64, row: &[u8]) -> Result<Seq<Cell>, Cause>
        ensures cells { IsClean S.Store self.new.conn →
            IfOk result (λ cells. cells ≡ cells_at row.now
            (tables_in S.Store self.old.conn table)) }
        ensures open { StaysOpen S.Store result self.old.conn self.new.conn }
        ensures counted { self.new.row_selects ≡ up_to_greatest (self.old.row_selects + 1) }
        ensures told { Tells result self.old.faults self.new.faults }
        ensures looks { Looks S.Store OfRow self.old self.new result }
    {
        self.row_selects = self.row_selects.saturating_add(1);
        match read_row(&mut self.conn, self.alloc, table, row) {
            Ok(cells) => Ok(cells),
            Err(error) => Err(refusal_of(error, &mut self.faults)),
        }
    }

    /// The rows of a table, in rising order of their bytes, each with its cells in rising order of
    /// their columns, by one SELECT.
    pub fn table(&mut self, table: i64) -> Result<Seq<CellRow>, Cause>
        ensures found { IsClean S.Store self.new.conn →
            IfOk result (IsTable S.Store self.old.conn table) }
        ensures open { StaysOpen S.Store result self.old.conn self.new.conn }
        ensures counted { self.new.table_selects ≡ up_to_greatest (self.old.table_selects + 1) }
        ensures told { Tells result self.old.faults self.new.faults }
        ensures looks { Looks S.Store OfTable self.old self.new result }
    {
        let mut kept = Kept {
            rows: Vec::new(self.alloc),
        };
        self.each(table, &mut kept)?;
        Ok(Seq::of(kept.rows))
    }

    /// Hands the rows of a table on, in rising order of their bytes, each with its cells in rising
    /// order of their columns, by one SELECT: `true` once all were taken and more are wanted,
    /// `false` after the first with which no more are wanted. A refusal of the sink is the answer;
    /// at any refusal the rows before it were taken.
    pub fn each<K: CellSink>(&mut self, table: i64, sink: &mut K) -> Result<bool, Cause>
        ensures handed { HandsTable S.Store K.takes IsStoreCause table self.old.conn self.new.conn
            sink.old result sink.new }
        ensures rise { IsClean S.Store self.new.conn →
            OnOk result (AreRows (tables_in S.Store self.old.conn table)) }
        ensures open { StaysOpen S.Store result self.old.conn self.new.conn }
        ensures counted { self.new.table_selects ≡ up_to_greatest (self.old.table_selects + 1) }
        ensures looks { Looks S.Store OfTable self.old self.new result }
    {
        self.table_selects = self.table_selects.saturating_add(1);
        let answer = hand_table(&mut self.conn, self.alloc, table, sink);
        count_fault(&answer, &mut self.faults);
        answer
    }

    /// Makes the changes in turn, all in one transaction or none: a row's cells are replaced by one
    /// DELETE and by one INSERT for each new cell, and without cells the row is dropped. An empty
    /// list runs no statement. Over a disk that returns what was written, a list in which a change
    /// names a column twice is refused, and where none does, where the database takes the bytes of
    /// each cell and where rowids are left for all of them, a `StoreFault` has a fault as its
    /// cause.
    pub fn apply(&mut self, changes: &[CellChange]) -> Result<(), Cause>
        ensures applies { Applies S.Store changes.now self.old self.new result }
        ensures nothing { length changes.now ≡ 0 → (result ≡ Ok tt)
            × (self.new ≡ self.old) }
        ensures counted { 0 < length changes.now → Counts result self.old.writes self.new.writes
            (sum_by statements_of changes.now) }
        ensures once { IsClean S.Store self.new.conn → OnOk result (NameColumnsOnce changes.now) }
    {
        if changes.is_empty() {
            return Ok(());
        }
        match apply_all(&mut self.conn, changes, &mut self.writes) {
            Ok(()) => Ok(()),
            Err(error) => Err(refusal_of(error, &mut self.faults)),
        }
    }
}
