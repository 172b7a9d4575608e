//! The rows of a schema.
ghost use Rattle.std.specs.Prelude.{◌≡◌, ◌⊎◌, ◌+◌, pos, length, Ok, None, true, IsSome, IfSome, IfOk, IfErr, OnOk, sum_by};
ghost use Rattle.jpa_value.specs.declared.refusal.Cause.{Cause};
ghost use Rattle.jpa_rows.specs.keys.Keys.{key_bytes};
ghost use Rattle.jpa_rows.specs.rows.Rows.{Rows, AreRising, AreChanges, rows_after, table_of};
ghost use Rattle.jpa_rows.specs.rows.Statements.{statements_of};
ghost use Rattle.jpa_cells.specs.meaning.Tables.{AreRows, cells_at};
ghost use Rattle.jpa_cells.specs.meaning.Store.{up_to_greatest, Counts, Tells, HandsTable, IsClean, IsOpen, tables_in, StaysOpen};
ghost use Rattle.jpa_cells.specs.cells.Calls.{OfRow, OfTable, IsTable, Applies};
ghost use Rattle.jpa_cells.specs.rowspace.Stored as stored;
ghost use Rattle.jpa_cells.specs.rowspace.Reading.{IsFound, IsIllFormed, AreRead, ReadsRow};
ghost use Rattle.jpa_cells.specs.rowspace.Space.{HoldsRows, IsStoreCause, LooksIn, CommitsRows};

use crate::cells::CellStore;
use crate::meaning::CellRow;
use crate::rowspace::handing::each_under;
use crate::rowspace::read::rows_of;
use crate::rowspace::select::row_under;
use crate::rowspace::spell::{cell_changes, known_table, number_of};
use jpa_rows::rows::{Row, RowChange, RowId, RowReader, RowSink, RowSource, Schema, is_key};
use jpa_value::{Bytes, Cause, Seq};
use sqlite::Alter;
use std::alloc::Global;
use std::marker::Model;

/// The rows of a schema in a store of cells. Seen by contracts as the schema and the store.
#[derive(Drop)]
pub struct RowSpace<S: Alter> {
    /// The store of the rows' cells.
    pub store: CellStore<S>,
    schema: Schema,
    alloc: Global,
}

impl<S: Alter> Model for RowSpace<S> {
    ghost use Rattle.jpa_cells.specs.rowspace.Space.{Space, space_code};

    ghost Value = { Space S };

    ghost coded = { space_code S.code };

    ghost view = { λ s. record { schema = s.schema; store = s.store } };
}

impl<S: Alter> RowSpace<S> {
    /// The rows of this schema in this store. Takes no memory.
    pub fn new(alloc: Global, store: CellStore<S>, schema: Schema) -> RowSpace<S>
        ensures { result ≡ record { schema = schema; store = store } }
    {
        RowSpace {
            store,
            schema,
            alloc,
        }
    }

    /// The tables and columns of its rows. Takes no memory.
    pub fn schema(&self) -> &Schema
        ensures { result.now ≡ self.now.schema }
    {
        &self.schema
    }

    /// The row under an id, by one SELECT; none where there is no such row, and without a SELECT
    /// where the id names none of the schema's rows. Cells that spell no row of the table are
    /// `Damaged`.
    pub fn get(&mut self, id: &RowId) -> Result<Option<Row>, Cause>
        ensures found { IsClean S.Store self.new.store.conn →
            IfOk result (λ found. IfSome (stored.table_for self.old.schema id.now)
            (λ table.
            IsFound table (cells_at (key_bytes id.now.key)
            (tables_in S.Store self.old.store.conn (pos id.now.table))) found)) }
        ensures unknown { stored.table_for self.old.schema id.now ≡ None → (result ≡ Ok None)
            × (self.new ≡ self.old) }
        ensures refused { IfErr result (λ cause. IsStoreCause cause
            ⊎ ((cause ≡ Cause.Damaged id.now.table (key_bytes id.now.key))
            × (IsClean S.Store self.new.store.conn →
            IfSome (stored.table_for self.old.schema id.now)
            (λ table. IsOpen S.Store self.old.store.conn × IsOpen S.Store self.new.store.conn
            × IsIllFormed table (cells_at (key_bytes id.now.key)
            (tables_in S.Store self.old.store.conn (pos id.now.table))))))) }
        ensures open { IsClean S.Store self.new.store.conn →
            IsSome (stored.table_for self.old.schema id.now) →
            OnOk result (IsOpen S.Store self.old.store.conn × IsOpen S.Store self.new.store.conn) }
        ensures counted { IsSome (stored.table_for self.old.schema id.now) →
            OnOk result (self.new.store.row_selects
            ≡ up_to_greatest (self.old.store.row_selects + 1)) }
        ensures looks { LooksIn S.Store OfRow self.old self.new result }
    {
        match self.schema.table(id.table) {
            Some(table) => {
                if is_key(table.key.as_slice(), &id.key) {
                    row_under(self.alloc, &mut self.store, table, &id.key)
                } else {
                    Ok(None)
                }
            }
            None => Ok(None),
        }
    }

    /// The rows of cells of one of the schema's tables, by one SELECT.
    pub fn cells(&mut self, table: u64) -> Result<Seq<CellRow>, Cause>
        requires { IsSome (table_of self.old.schema table) }
        ensures found { IsClean S.Store self.new.store.conn →
            IfOk result (IsTable S.Store self.old.store.conn (pos table)) }
        ensures open { StaysOpen S.Store result self.old.store.conn self.new.store.conn }
        ensures counted { self.new.store.table_selects
            ≡ up_to_greatest (self.old.store.table_selects + 1) }
        ensures told { Tells result self.old.store.faults self.new.store.faults }
        ensures looks { LooksIn S.Store OfTable self.old self.new result }
    {
        let number = number_of(known_table(&self.schema, table));
        self.store.table(number)
    }

    /// The rows that cells of one of the schema's tables spell, up to the first that is damaged,
    /// and the bytes of that one. No statement is run.
    pub fn entries(
        &self,
        table: u64,
        stored: Vec<CellRow>,
    ) -> Result<(Seq<(RowId, Row)>, Option<Bytes>), Cause>
        requires { IsSome (table_of self.now.schema table) }
        ensures read { IfOk result (λ read. IfSome (table_of self.now.schema table)
            (λ rule. AreRead rule stored.items read.0 read.1)) }
        ensures rising { AreRows stored.items → IfOk result (λ read. AreRising read.0) }
        ensures err { IfErr result (λ cause. cause ≡ Cause.OutOfMemory) }
    {
        let Some(rule) = self.schema.table(table) else {
            return Ok((Seq::new(self.alloc), None));
        };
        rows_of(self.alloc, rule, stored)
    }

    /// Hands the rows of a table on, in the order of their ids, by one SELECT; none, and without a
    /// SELECT, where the table is none of the schema's: `true` once all were taken and more are
    /// wanted, `false` after the first with which no more are wanted. The lowest row that is
    /// damaged is told by its bytes, once those before it were taken. A refusal of the sink is the
    /// answer.
    pub fn each<K: RowSink>(&mut self, table: u64, sink: &mut K) -> Result<bool, Cause>
        ensures handed { IfSome (table_of self.old.schema table) (λ rule.
            HandsTable S.Store (ReadsRow K.takes rule) IsStoreCause (pos table)
            self.old.store.conn self.new.store.conn sink.old result sink.new) }
        ensures rise { IsClean S.Store self.new.store.conn →
            OnOk result (IsSome (table_of self.old.schema table) →
            AreRows (tables_in S.Store self.old.store.conn (pos table))) }
        ensures unknown { table_of self.old.schema table ≡ None → (result ≡ Ok true)
            × (self.new ≡ self.old) × (sink.new ≡ sink.old) }
        ensures open { IsClean S.Store self.new.store.conn →
            IsSome (table_of self.old.schema table) →
            OnOk result (IsOpen S.Store self.old.store.conn × IsOpen S.Store self.new.store.conn) }
        ensures counted { IsSome (table_of self.old.schema table) → self.new.store.table_selects
            ≡ up_to_greatest (self.old.store.table_selects + 1) }
        ensures looks { LooksIn S.Store OfTable self.old self.new result }
    {
        match self.schema.table(table) {
            Some(rule) => each_under(self.alloc, &mut self.store, rule, sink),
            None => Ok(true),
        }
    }

    /// Makes these changes, all in one transaction or none: one DELETE for each change, and one
    /// INSERT for each column of its new row. An empty list runs no statement.
    pub fn commit(&mut self, changes: &[RowChange]) -> Result<(), Cause>
        requires { AreChanges self.old.schema changes.now }
        ensures applies { Applies S.Store (stored.cell_changes changes.now) self.old.store
            self.new.store result }
        ensures nothing { length changes.now ≡ 0 → (result ≡ Ok tt)
            × (self.new ≡ self.old) }
        ensures counted { Counts result self.old.store.writes self.new.store.writes
            (sum_by statements_of changes.now) }
        ensures others { self.new ≡ record self.old { store = self.new.store } }
        ensures rows { (rows : Rows) →
            HoldsRows S.Store self.old.schema self.old.store.conn rows →
            CommitsRows S.Store self.old.schema self.old.store.conn self.new.store.conn
            (rows_after changes.now rows) result }
    {
        let _writes = self.store.writes();
        let made = cell_changes(self.alloc, &self.schema, changes)?;
        self.store.apply(made.as_slice())
    }
}

impl<S: Alter> RowReader for RowSpace<S> {
    ghost use Rattle.std.proofs.Common.{subst};
    ghost use Rattle.jpa_cells.specs.meaning.Store.{IsClean};
    ghost use Rattle.jpa_cells.specs.rowspace.Space.{HoldsRows};
    ghost use Rattle.jpa_cells.specs.rowspace.Enduring.{EnduresRows, survives_self, rows_then, rows_wider};

    ghost schema = { λ space. space.schema };

    ghost holds = { λ space rows. HoldsRows S.Store space.schema space.store.conn rows };

    ghost clean = { λ space. IsClean S.Store space.store.conn };

    ghost faults = { λ space. space.store.faults };

    ghost row_selects = { λ space. space.store.row_selects };

    ghost table_selects = { λ space. space.store.table_selects };

    ghost writes = { λ space. space.store.writes };

    ghost endures = { λ old new Holds. EnduresRows S.Store old.schema old.store.conn new.store.conn Holds };

    ghost wider = { λ old new P Q weaker e. rows_wider S.Store old.schema old.store.conn new.store.conn P Q weaker e };

    ghost then = { λ first second third P Q same a b. rows_then S.Store first.schema first.store.conn second.store.conn third.store.conn P Q a (subst (λ schema. EnduresRows S.Store schema second.store.conn third.store.conn Q) same b) };

    fn get(&mut self, id: &RowId) -> Result<Option<Row>, Cause> {
        RowSpace::get(self, id)
    }

    fn each<K: RowSink>(&mut self, table: u64, sink: &mut K) -> Result<bool, Cause> {
        RowSpace::each(self, table, sink)
    }

    ghost still = { λ space. survives_self _ _ };
}

impl<S: Alter> RowSource for RowSpace<S> {
    ghost use Rattle.std.specs.Prelude.{◌+◌};
    ghost use Rattle.std.proofs.Common.{subst};
    ghost use Rattle.jpa_cells.specs.meaning.Store.{up_to_greatest, IsClean};
    ghost use Rattle.jpa_cells.specs.rowspace.Space.{HoldsRows};
    ghost use Rattle.jpa_cells.specs.rowspace.Enduring.{EnduresRows, survives_self, rows_then, rows_wider};

    ghost schema = { λ space. space.schema };

    ghost holds = { λ space rows. HoldsRows S.Store space.schema space.store.conn rows };

    ghost clean = { λ space. IsClean S.Store space.store.conn };

    ghost faults = { λ space. space.store.faults };

    ghost reads = { λ space. up_to_greatest (space.store.row_selects + space.store.table_selects) };

    ghost writes = { λ space. space.store.writes };

    ghost creates = { λ space. space.store.creates };

    ghost endures = { λ old new Holds. EnduresRows S.Store old.schema old.store.conn new.store.conn Holds };

    ghost wider = { λ old new P Q weaker e. rows_wider S.Store old.schema old.store.conn new.store.conn P Q weaker e };

    ghost then = { λ first second third P Q same a b. rows_then S.Store first.schema first.store.conn second.store.conn third.store.conn P Q a (subst (λ schema. EnduresRows S.Store schema second.store.conn third.store.conn Q) same b) };

    fn commit(&mut self, changes: &[RowChange]) -> Result<(), Cause> {
        RowSpace::commit(self, changes)
    }

    fn selects(&self) -> u64 {
        self.store.selects()
    }

    fn writes(&self) -> u64 {
        self.store.writes()
    }

    fn statements(&self) -> u64 {
        self.store.statements()
    }

    ghost still = { λ space. survives_self _ _ };
}
