//! The rows of a table and the changes over them, both in rising order, in one walk.
ghost use Rattle.std.specs.Prelude.{◌≡◌, ◌≢◌, ◌≤◌, ◌++◌, T, ⊤, ℕ, true, false, length, take, drop};
ghost use Rattle.std.specs.FinMap.{is_sorted};
ghost use Rattle.std.specs.List.{AllByRecursion};
ghost use Rattle.std.specs.Ordering.{is_lt};
ghost use Rattle.jpa_value.specs.declared.refusal.Cause.{Cause};
ghost use Rattle.jpa_value.specs.Value.{identity_cmp};
ghost use Rattle.jpa_rows.specs.laws.Handing.{Hands, Follows};
ghost use Rattle.jpa_rows.specs.rows.Faults.{IsStoreCause, faults_after};
ghost use Rattle.jpa_rows.specs.rows.Looks.{LooksOnly, LooksAtOneTable};
ghost use Rattle.jpa_rows.specs.rows.Rows.{Rows, AreRising, table_rows};
ghost use Rattle.jpa_rows.specs.overlay.Overlay.{rows_put, rows_under, row_unless, stands_first};
ghost use Rattle.jpa_rows.specs.overlay.Merging.{IsMemory};

use crate::overlay::change::Change;
use crate::rows::{Row, RowId, RowReader, RowSink};
use jpa_value::{Cause, TryCopy, is_same_identity, order_identities};
use std::cmp::Ordering;

/// Hands rows on as they are under changes.
#[derive(Drop)]
pub struct Merging<'l, 's, K: RowSink> {
    /// The changes of rows that are not before the next one.
    pub left: &'l [Change],
    pub sink: &'s mut K,
}

impl<K: RowSink> RowSink for Merging<'_, '_, K> {
    ghost use Rattle.std.specs.Prelude.{◌≡◌};
    ghost use Rattle.jpa_rows.specs.overlay.Merging.{MergesRow};

    ghost takes = { λ s e out t. (t.sink.ghost_name ≡ s.sink.ghost_name) × MergesRow K.takes s.left.now e out t.left.now s.sink.now t.sink.now };

    fn row(&mut self, id: RowId, row: Row) -> Result<bool, Cause> {
        let before = count_before(self.left, &id);
        let made = &self.left[..before];
        let rest = &self.left[before..];
        self.left = rest;
        hand_next(self.sink, made, rest, id, row)
    }
}

/// Hands the rows of a table on as they are under changes of it.
pub fn each_under<'l, 's, R: RowReader, K: RowSink>(
    changes: &'l [Change],
    source: &mut R,
    table: u64,
    sink: &'s mut K,
) -> Result<bool, Cause>
    ensures handed { R.clean source.new → (rows : Rows) → R.holds source.old rows →
        T (is_sorted identity_cmp changes.now) → AreRising (table_rows table rows) →
        Hands K.takes IsStoreCause sink.old
        (rows_under changes.now (table_rows table rows)) result sink.new }
    ensures any { (found : Rows) × Hands K.takes (λ _. ⊤) sink.old found result sink.new }
    ensures looks { LooksOnly R.RowReader result source.old source.new }
    ensures economy { LooksAtOneTable R.RowReader source.old source.new }
{
    let mut merging = Merging {
        left: changes,
        sink,
    };
    let answer = source.each(table, &mut merging);
    let Merging { left, sink } = merging;
    hand_rest(answer, sink, left)
}

/// Hands on the rows that changes put, where all rows before were taken and more are wanted, as
/// this answer tells.
fn hand_rest<K: RowSink>(
    answer: Result<bool, Cause>,
    sink: &mut K,
    changes: &[Change],
) -> Result<bool, Cause>
    ensures handed { Follows (λ k. Hands K.takes IsMemory k (rows_put changes.now) result sink.new)
        answer sink.old result sink.new }
    ensures told { (faults : ℕ) → faults_after result faults ≡ faults_after answer faults }
{
    match answer {
        Ok(true) => hand_made(sink, changes),
        Ok(false) => Ok(false),
        Err(cause) => Err(cause),
    }
}

/// How many changes, which rise, are of rows before this one.
fn count_before(changes: &[Change], id: &RowId) -> usize
    ensures within { result ≤ length changes.now }
    ensures parted { T (is_sorted identity_cmp changes.now) →
        AllByRecursion (λ c. is_lt (identity_cmp c.0 id.now) ≡ true) (take result changes.now)
        × AllByRecursion (λ c. is_lt (identity_cmp c.0 id.now) ≡ false) (drop result changes.now) }
{
    changes.partition_point(|change| is_before(change, id))
}

fn is_before(change: &Change, id: &RowId) -> bool
    ensures { result ≡ is_lt (identity_cmp change.now.0 id.now) }
{
    matches!(order_identities(&change.get().0, id), Ordering::Less)
}

fn is_first(changes: &[Change], id: &RowId) -> bool
    ensures { result ≡ stands_first id.now changes.now }
{
    match changes {
        [] => false,
        [change, ..] => is_same_identity(&change.get().0, id),
    }
}

/// Hands on the rows that changes put, and then this row, unless it is the first that the rest
/// changes.
fn hand_next<K: RowSink>(
    sink: &mut K,
    made: &[Change],
    rest: &[Change],
    id: RowId,
    row: Row,
) -> Result<bool, Cause>
    ensures handed { Hands K.takes IsMemory sink.old (rows_put made.now
        ++ row_unless (stands_first id rest.now) id row) result sink.new }
    ensures own { result ≢ Err Cause.StoreFault }
{
    if !hand_made(sink, made)? {
        return Ok(false);
    }
    if is_first(rest, &id) {
        return Ok(true);
    }
    sink.row(id, row)
}

/// Hands on the rows that changes put.
pub fn hand_made<K: RowSink>(sink: &mut K, changes: &[Change]) -> Result<bool, Cause>
    ensures handed { Hands K.takes IsMemory sink.old (rows_put changes.now) result sink.new }
    ensures own { result ≢ Err Cause.StoreFault }
{
    'changes: for change in changes {
        let (id, row) = change.get();
        if let Some(row) = row {
            let id = id.try_copy()?;
            let row = row.try_copy()?;
            if !sink.row(id, row)? {
                return Ok(false);
            }
        }
    }
    Ok(true)
}
