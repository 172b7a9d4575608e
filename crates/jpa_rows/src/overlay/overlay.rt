//! Changes over committed rows.
ghost use Rattle.std.specs.Prelude.{◌≡◌, ◌⊎◌, ◌↔◌, ◌==◌, T, ⊤, [], All, length, map, IsSome, IsTrue, OnOk, OnErr, IfOk, IfErr};
ghost use Rattle.std.specs.FinMap.{find, is_sorted};
ghost use Rattle.std.specs.FinMap.Entries.{where_key};
ghost use Rattle.jpa_value.specs.declared.refusal.Cause.{Cause};
ghost use Rattle.jpa_value.specs.Value.{identity_cmp};
ghost use Rattle.jpa_stored.specs.objects.Places.{IsAt, IsGap};
ghost use Rattle.jpa_rows.specs.laws.Handing.{Hands};
ghost use Rattle.jpa_rows.specs.rows.Faults.{IsStoreCause};
ghost use Rattle.jpa_rows.specs.rows.Looks.{LooksOnly, LooksAtOneRow, LooksAtOneTable, LooksAtRows};
ghost use Rattle.jpa_rows.specs.rows.Rows.{Rows, AreRising, table_rows, entry_of, rows_after};
ghost use Rattle.jpa_rows.specs.laws.Changes.{AreDifference};
ghost use Rattle.jpa_rows.specs.overlay.Overlay.{AreAmong, Recalls, rows_under, with_change, with_row};
ghost use Rattle.jpa_rows.specs.overlay.Same.{same_row};

use crate::overlay::change::Change;
use crate::overlay::merge::each_under;
use crate::overlay::same::is_same;
use crate::rows::{Row, RowChange, RowId, RowReader, RowSink, copy_row};
use jpa_value::{Cause, Seq, TryCopy, order_identities};
use std::alloc::Global;
use std::cmp::Ordering;
use std::marker::Model;

/// Changes over committed rows, seen by contracts as a finite map from row ids to the row that is
/// to stand there, or to none where the row is dropped: its entries in rising order of the ids.
///
/// As with the store's own reads, what `get`, `each` and `changes` answer is sure if the store is
/// clean when they return: if what it stands on has given back what was written to it so far. Then
/// it was clean before the call too.
///
/// With n changes a look-up takes O(log n) comparisons. A change takes as many, and moves at most n
/// pointers.
#[derive(Drop)]
pub struct Overlay {
    entries: Vec<Change>,
}

impl Model for Overlay {
    ghost use Rattle.std.specs.Prelude.{T};
    ghost use Rattle.std.specs.FinMap.Entries.{is_sorted};
    ghost use Rattle.jpa_value.specs.Value.{identity_cmp};
    ghost use Rattle.jpa_rows.specs.overlay.Overlay.{Changes};

    ghost Value = { Changes };

    ghost view = { λ o. o.entries.items };

    ghost invariant = { λ o. T (is_sorted identity_cmp o.entries.items) };
}

impl Overlay {
    /// No changes. Takes no memory.
    pub fn new(alloc: Global) -> Overlay
        ensures { result ≡ [] }
    {
        Overlay {
            entries: Vec::new(alloc),
        }
    }

    /// Whether there is no change.
    pub fn is_empty(&self) -> bool
        ensures { IsTrue result ↔ (self.now ≡ []) }
    {
        self.entries.is_empty()
    }

    /// The row under an id, as it is under the changes. A row that is changed here is answered
    /// without a look at the store. It refuses with `OutOfMemory`, and as the store does where it
    /// looks there.
    pub fn get<R: RowReader>(&self, source: &mut R, id: &RowId) -> Result<Option<Row>, Cause>
        ensures ok { R.clean source.new → IfOk result
            (λ row. (rows : Rows) → R.holds source.old rows → row
            ≡ find identity_cmp id.now (rows_under self.now rows)) }
        ensures err { R.clean source.new → IfErr result
            (λ cause. (rows : Rows) → R.holds source.old rows → (cause ≡ Cause.OutOfMemory)
            ⊎ (cause ≡ Cause.StoreFault)) }
        ensures changed { IsSome (find identity_cmp id.now self.now) →
            IfOk result (λ row. find identity_cmp id.now self.now ≡ Some row) }
        ensures own { IsSome (find identity_cmp id.now self.now) → (source.new ≡ source.old)
            × IfErr result (λ cause. cause ≡ Cause.OutOfMemory) }
        ensures looks { LooksOnly R.RowReader result source.old source.new }
        ensures economy { LooksAtOneRow R.RowReader source.old source.new }
    {
        match self.search(id) {
            Ok(at) => copy_row(&self.entries[at].get().1),
            Err(_) => source.get(id),
        }
    }

    /// Hands the rows of a table on as they are under the changes, in the order of their ids:
    /// `true` once all were taken and more are wanted, `false` after the first with which no more
    /// are wanted. It looks through the table's rows in the store once. A refusal of the sink is
    /// the answer; beside that it refuses with `OutOfMemory`, and as the store does.
    pub fn each<R: RowReader, K: RowSink>(
        &self,
        source: &mut R,
        table: u64,
        sink: &mut K,
    ) -> Result<bool, Cause>
        ensures handed { R.clean source.new → (rows : Rows) → AreRising rows →
            R.holds source.old rows → Hands K.takes IsStoreCause sink.old
            (table_rows table (rows_under self.now rows)) result sink.new }
        ensures any { (found : Rows) × Hands K.takes (λ _. ⊤) sink.old found result sink.new }
        ensures looks { LooksOnly R.RowReader result source.old source.new }
        ensures economy { LooksAtOneTable R.RowReader source.old source.new }
    {
        each_under(self.of_table(table), source, table, sink)
    }

    /// The difference from the store: the changes in the order of their ids, without those that
    /// leave a row as it is there. Made in the store, they give the rows that are seen here. They
    /// are in that order, and each is a change of these, whether or not the store is clean. It
    /// reads each changed row of the store once, and refuses with `OutOfMemory`, and as the store
    /// does.
    pub fn changes<R: RowReader>(&self, source: &mut R) -> Result<Seq<RowChange>, Cause>
        ensures difference { R.clean source.new → IfOk result
            (λ changes. (rows : Rows) → R.holds source.old rows →
            AreDifference identity_cmp rows (map entry_of changes)) }
        ensures seen { R.clean source.new → IfOk result
            (λ changes. (rows : Rows) → AreRising rows → R.holds source.old rows →
            rows_after changes rows ≡ rows_under self.now rows) }
        ensures among { IfOk result (AreAmong self.now) }
        ensures err { R.clean source.new → IfErr result
            (λ cause. (rows : Rows) → R.holds source.old rows → (cause ≡ Cause.OutOfMemory)
            ⊎ (cause ≡ Cause.StoreFault)) }
        ensures looks { LooksOnly R.RowReader result source.old source.new }
        ensures economy { LooksAtRows R.RowReader (length self.now) source.old source.new }
    {
        let mut changes = Seq::new(self.allocator());
        for entry in self.entries.as_slice() {
            let (id, row) = entry.get();
            let there = source.get(id)?;
            if !is_same(row, &there) {
                let change = RowChange {
                    id: id.try_copy()?,
                    row: copy_row(row)?,
                };
                changes.push(change)?;
            }
        }
        Ok(changes)
    }

    /// The difference from rows of which `stood` says what stands under each id that is changed
    /// here: the changes in the order of their ids, without those that leave a row as it stood.
    /// Made in a store of such rows, they give the rows that are seen here. It reads no store and
    /// copies no row, and refuses with `OutOfMemory` alone.
    pub fn into_difference(self, stood: &Overlay) -> Result<Seq<RowChange>, Cause>
        ensures difference { IfOk result (λ changes. (rows : Rows) →
            Recalls stood.now self rows →
            AreDifference identity_cmp rows (map entry_of changes)) }
        ensures seen { IfOk result (λ changes. (rows : Rows) → AreRising rows →
            Recalls stood.now self rows → rows_after changes rows ≡ rows_under self rows) }
        ensures rising { IfOk result
            (λ changes. T (is_sorted identity_cmp (map entry_of changes))) }
        ensures among { IfOk result (λ changes. All
            (λ change. find identity_cmp change.id self ≡ Some change.row) changes) }
        ensures err { IfErr result (λ cause. cause ≡ Cause.OutOfMemory) }
    {
        let mut changes = Seq::new(self.allocator());
        let Overlay { entries } = self;
        for entry in entries {
            let (id, row) = entry.open();
            if !stood.puts(&id, &row) {
                changes.push(RowChange { id, row })?;
            }
        }
        Ok(changes)
    }

    /// Puts a row under an id. For want of memory, which is `OutOfMemory` and the only refusal, the
    /// overlay stays as it was.
    pub fn put(&mut self, id: RowId, row: Row) -> Result<(), Cause>
        ensures ok { OnOk result (self.new ≡ with_change id (Some row) self.old) }
        ensures seen { OnOk result ((base : Rows) → AreRising base → rows_under self.new base
            ≡ with_row id (Some row) (rows_under self.old base)) }
        ensures unchanged { OnErr result (self.new ≡ self.old) }
        ensures err { IfErr result (λ cause. cause ≡ Cause.OutOfMemory) }
    {
        self.change(id, Some(row))
    }

    /// Drops the row under an id, whether or not one stands there. For want of memory, which is
    /// `OutOfMemory` and the only refusal, the overlay stays as it was.
    pub fn drop_row(&mut self, id: RowId) -> Result<(), Cause>
        ensures ok { OnOk result (self.new ≡ with_change id None self.old) }
        ensures seen { OnOk result ((base : Rows) → AreRising base → rows_under self.new base
            ≡ with_row id None (rows_under self.old base)) }
        ensures unchanged { OnErr result (self.new ≡ self.old) }
        ensures err { IfErr result (λ cause. cause ≡ Cause.OutOfMemory) }
    {
        self.change(id, None)
    }

    /// Forgets all changes: the rows are seen as they were committed. Takes no memory.
    pub fn discard(&mut self)
        ensures empty { self.new ≡ [] }
        ensures seen { (base : Rows) → rows_under self.new base ≡ base }
    {
        self.entries.clear();
    }

    /// One change more, in place of that of its row, if there is one.
    fn change(&mut self, id: RowId, row: Option<Row>) -> Result<(), Cause>
        ensures ok { OnOk result (self.new ≡ with_change id row self.old) }
        ensures unchanged { OnErr result (self.new ≡ self.old) }
        ensures err { IfErr result (λ cause. cause ≡ Cause.OutOfMemory) }
    {
        let place = self.search(&id);
        let entry = Change::new(self.allocator(), id, row)?;
        match place {
            Ok(at) => self.entries[at] = entry,
            Err(at) => self.entries.insert(at, entry)?,
        }
        Ok(())
    }

    /// Whether it puts this row, or none, under the id: whether it has the row, or no change of it
    /// where there is to be none.
    fn puts(&self, id: &RowId, row: &Option<Row>) -> bool
        ensures { result ≡ same_row row.now (find identity_cmp id.now (rows_under self.now [])) }
    {
        match self.search(id) {
            Ok(at) => is_same(row, &self.entries[at].get().1),
            Err(_) => row.is_none(),
        }
    }

    /// The allocator that it grows by.
    fn allocator(&self) -> Global {
        *self.entries.allocator()
    }

    /// The changes of the rows of a table.
    fn of_table(&self, table: u64) -> &[Change]
        ensures table { result.now ≡ where_key identity_cmp (λ id. id.table == table) self.now }
        ensures rising { T (is_sorted identity_cmp result.now) }
    {
        let all = self.entries.as_slice();
        let before = all.partition_point(|change| change.get().0.table < table);
        let from = &all[before..];
        let within = from.partition_point(|change| change.get().0.table <= table);
        &from[..within]
    }

    /// Where the change of a row stands, or where it would stand.
    fn search(&self, id: &RowId) -> Result<usize, usize>
        ensures found { IfOk result (IsAt identity_cmp self.now id.now) }
        ensures absent { IfErr result (IsGap identity_cmp self.now id.now) }
    {
        self.entries
            .as_slice()
            .binary_search_by(|entry| order_entry(entry, id))
    }
}

/// The order of the id of a change and another.
fn order_entry(entry: &Change, id: &RowId) -> Ordering
    ensures { result ≡ identity_cmp entry.now.0 id.now }
{
    order_identities(&entry.get().0, id)
}

impl TryCopy for Overlay {
    fn try_copy(&self) -> Result<Overlay, Cause> {
        let mut entries = Vec::new(self.allocator());
        for entry in self.entries.as_slice() {
            let (id, row) = entry.get();
            let copy = Change::new(self.allocator(), id.try_copy()?, copy_row(row)?)?;
            entries.push(copy)?;
        }
        Ok(Overlay { entries })
    }
}
