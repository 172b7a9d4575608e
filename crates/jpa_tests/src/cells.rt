//! Cells over a store in memory: each call once, what a store refuses, and the statements that are
//! counted.

use jpa_cells::cells::{Cell, CellChange, CellRow, CellSink, CellStore};
use jpa_value::{Bytes, Cause, Seq};
use sqlite::{Alter, Connection, MemStore};
use std::alloc::Global;
use std::process::Abort;
use std::test::Fail;

/// A cell as a line: table, row, column and bytes.
pub(crate) type Line = (i64, &'static [u8], i64, &'static [u8]);

pub(crate) const ONE: &[u8] = b"\x01\x80\x00\x00\x00\x00\x00\x00\x01";

/// A person with the generated key 1 and the name Ada, and the next number of her hierarchy.
pub(crate) const FIRST: &[Line] = &[
    (0, ONE, 0, b"\x01\x80\x00\x00\x00\x00\x00\x00\x02"),
    (1, ONE, 0, b"\x02Person"),
    (1, ONE, 1, b"\x01\x80\x00\x00\x00\x00\x00\x00\x00"),
    (1, ONE, 2, b"\x02Ada"),
];

/// She is dropped, the next number is 3, and another table has two rows.
pub(crate) const SECOND: &[Line] = &[
    (0, ONE, 0, b"\x01\x80\x00\x00\x00\x00\x00\x00\x03"),
    (2, b"\x01", -9, b""),
    (2, b"\x01\x80", 7, b"seven"),
];

/// A change: table, row, and its cells as columns and bytes.
pub(crate) type Changed = (i64, &'static [u8], &'static [(i64, &'static [u8])]);

/// The changes that lead from nothing to `FIRST`.
pub(crate) const FIRST_CHANGES: &[Changed] = &[
    (
        1,
        ONE,
        &[
            (2, b"\x02Ada"),
            (0, b"\x02Person"),
            (1, b"\x01\x80\x00\x00\x00\x00\x00\x00\x00"),
        ],
    ),
    (0, ONE, &[(0, b"\x01\x80\x00\x00\x00\x00\x00\x00\x02")]),
];

/// The changes that lead from `FIRST` to `SECOND`.
pub(crate) const SECOND_CHANGES: &[Changed] = &[
    (2, b"\x01\x80", &[(7, b"seven")]),
    (1, ONE, &[]),
    (2, b"\x01", &[(-9, b"")]),
    (0, ONE, &[(0, b"\x01\x80\x00\x00\x00\x00\x00\x00\x03")]),
];

/// Changes of which the second names a column twice.
const TWICE: &[Changed] = &[(0, ONE, &[]), (2, b"\x01", &[(5, b"five"), (5, b"fifth")])];

// These have no clause, so that the proof of a test does not carry the state of each call.

fn cell_of(alloc: Global, column: i64, value: &[u8]) -> Result<Cell, Cause> {
    Ok(Cell {
        column,
        value: Bytes::of(value.to_vec(alloc)?),
    })
}

fn cells_of(alloc: Global, cells: &[(i64, &[u8])]) -> Result<Seq<Cell>, Cause> {
    let mut out = Seq::new(alloc);
    for (column, value) in cells {
        out.push(cell_of(alloc, *column, value)?)?;
    }
    Ok(out)
}

fn change_of(alloc: Global, changed: &Changed) -> Result<CellChange, Cause> {
    let (table, row, cells) = *changed;
    Ok(CellChange {
        table,
        row: Bytes::of(row.to_vec(alloc)?),
        cells: cells_of(alloc, cells)?,
    })
}

fn changes_of(alloc: Global, changed: &[Changed]) -> Result<Vec<CellChange>, Cause> {
    let mut out = Vec::new(alloc);
    for change in changed {
        out.push(change_of(alloc, change)?)?;
    }
    Ok(out)
}

fn is_line(line: &Line, table: i64, row: &[u8], cell: &Cell) -> bool {
    line.0 == table && line.1 == row && line.2 == cell.column && line.3 == cell.value.as_slice()
}

/// The place behind the lines of a table's rows, if its cells are the lines from `at` on.
fn after(lines: &[Line], mut at: usize, table: i64, rows: &[CellRow]) -> Option<usize> {
    for row in rows {
        for cell in row.cells.as_slice() {
            match lines.get(at) {
                Some(line) if is_line(line, table, row.row.as_slice(), cell) => at += 1,
                _ => return None,
            }
        }
    }
    Some(at)
}

fn after_table<S: Alter>(
    store: &mut CellStore<S>,
    table: i64,
    lines: &[Line],
    at: usize,
) -> Result<Option<usize>, Cause> {
    let rows = store.table(table)?;
    Ok(after(lines, at, table, rows.as_slice()))
}

/// Whether the tables 0 to 2 have these cells in this order, and no others.
pub(crate) fn shows<S: Alter>(store: &mut CellStore<S>, lines: &[Line]) -> Result<bool, Cause> {
    let mut at = 0;
    for table in 0..3 {
        match after_table(store, table, lines, at)? {
            Some(next) => at = next,
            None => return Ok(false),
        }
    }
    Ok(at == lines.len())
}

pub(crate) fn in_memory(alloc: Global) -> Result<CellStore<MemStore>, Fail> {
    match CellStore::open(alloc, Connection::open_in_memory(alloc)?) {
        Ok(store) => Ok(store),
        Err((cause, _)) => Err(Fail::from(cause)),
    }
}

fn again<S: Alter + Drop>(alloc: Global, store: CellStore<S>) -> Result<CellStore<S>, Fail> {
    match CellStore::open(alloc, store.into_connection()) {
        Ok(store) => Ok(store),
        Err((cause, _)) => Err(Fail::from(cause)),
    }
}

pub(crate) fn apply<S: Alter>(
    alloc: Global,
    store: &mut CellStore<S>,
    changed: &[Changed],
) -> Result<(), Cause> {
    let changes = changes_of(alloc, changed)?;
    store.apply(changes.as_slice())
}

/// Whether the changes meet a fault of the store. Another refusal is passed on.
pub(crate) fn is_refused<S: Alter>(
    alloc: Global,
    store: &mut CellStore<S>,
    changed: &[Changed],
) -> Result<bool, Fail> {
    match apply(alloc, store, changed) {
        Ok(()) => Ok(false),
        Err(Cause::StoreFault) => Ok(true),
        Err(cause) => Err(Fail::from(cause)),
    }
}

/// How many cells a row has.
fn length<S: Alter>(store: &mut CellStore<S>, table: i64, row: &[u8]) -> Result<usize, Cause> {
    let cells = store.row(table, row)?;
    Ok(cells.len())
}

/// So many writes, SELECTs and statements were run.
fn see_counts<S: Alter>(rt: &impl Abort, store: &CellStore<S>, counts: (u64, u64, u64)) {
    assert_eq!(rt;
        (store.writes(), store.selects(), store.statements()),
        counts
    );
}

// ---- rows one at a time

/// Keeps rows, and wants so many; where it wants none it refuses.
#[derive(Drop)]
struct Kept {
    rows: Vec<CellRow>,
    most: usize,
}

impl CellSink for Kept {
    ghost use Rattle.std.specs.Prelude.{◌≡◌, ◌⊎◌, ◌++◌, ◌∷◌, [], length, nat_lt, MatchResult};
    ghost use Rattle.jpa_value.specs.declared.refusal.Cause.{Cause};

    ghost takes = { λ kept row out after. (after.most ≡ kept.most) × MatchResult out (λ more. (after.rows.items ≡ kept.rows.items ++ row ∷ []) × (more ≡ nat_lt (length after.rows.items) kept.most)) (λ cause. (after.rows.items ≡ kept.rows.items) × ((cause ≡ Cause.Limit) ⊎ (cause ≡ Cause.OutOfMemory))) };

    fn row(&mut self, row: CellRow) -> Result<bool, Cause> {
        if self.most == 0 {
            return Err(Cause::Limit);
        }
        self.rows.push(row)?;
        Ok(self.rows.len() < self.most)
    }
}

/// The rows of table 2 that are taken where so many are wanted.
fn taken<S: Alter>(
    alloc: Global,
    store: &mut CellStore<S>,
    most: usize,
) -> Result<Vec<CellRow>, Cause> {
    let mut kept = Kept {
        rows: Vec::new(alloc),
        most,
    };
    store.each(2, &mut kept)?;
    Ok(kept.rows)
}

// ---- the test

/// The first cells are written and read back, by so many statements.
fn see_first<S: Alter>(
    rt: &impl Abort,
    alloc: Global,
    store: &mut CellStore<S>,
) -> Result<(), Fail> {
    assert!(rt; shows(store, &[])?);
    apply(alloc, store, FIRST_CHANGES)?;
    assert!(rt; shows(store, FIRST)?);
    assert_eq!(rt; length(store, 1, ONE)?, 3);
    see_counts(rt, store, (6, 7, 14));
    Ok(())
}

/// Changes that name a column twice are refused and change nothing; the next ones are made.
fn see_second<S: Alter>(
    rt: &impl Abort,
    alloc: Global,
    store: &mut CellStore<S>,
) -> Result<(), Fail> {
    assert!(rt; is_refused(alloc, store, TWICE)?);
    assert!(rt; shows(store, FIRST)?);
    apply(alloc, store, SECOND_CHANGES)?;
    assert_eq!(rt; taken(alloc, store, 1)?.len(), 1);
    assert_eq!(rt; taken(alloc, store, 5)?.len(), 2);
    Ok(())
}

/// The cells stand when the store is opened again, which runs no statement.
fn see_again<S: Alter + Drop>(
    rt: &impl Abort,
    alloc: Global,
    store: CellStore<S>,
) -> Result<(), Fail> {
    let mut store = again(alloc, store)?;
    assert_eq!(rt; store.statements(), 0);
    assert!(rt; shows(&mut store, SECOND)?);
    Ok(())
}

#[test]
fn cells_are_written_read_back_and_dropped(rt: HostRuntime) -> Result<(), Fail> {
    let alloc = rt.alloc();
    let mut store = in_memory(alloc)?;
    see_first(&rt, alloc, &mut store)?;
    see_second(&rt, alloc, &mut store)?;
    see_again(&rt, alloc, store)
}
