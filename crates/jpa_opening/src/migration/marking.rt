//! The revision's row: whether it is due, and its place in table 0.
ghost use Rattle.std.specs.Prelude.{◌≡◌, ◌≤◌, ◌++◌, ◌∷◌, [], length, position, IfOk, IfErr, OnOk};
ghost use Rattle.std.specs.List.{position_or_len};
ghost use Rattle.jpa_value.specs.declared.refusal.Cause.{Cause};
ghost use Rattle.jpa_cells.specs.meaning.Tables.{with_row};
ghost use Rattle.jpa_opening.specs.migration.Migration as migration;
ghost use Rattle.jpa_opening.specs.migration.Places as places;

use jpa_cells::meaning::{Cell, CellChange, CellRow};
use jpa_model::Metamodel;
use jpa_rows::keys::order_key_bytes;
use jpa_value::{Bytes, Cause, Seq};
use std::alloc::Global;
use std::cmp::Ordering;

/// The bytes of the key `[Int(0)]`.
const REVISION_KEY: [u8; 9] = [1, 128, 0, 0, 0, 0, 0, 0, 0];

/// What the cell of the revision's row holds: 2.
const SECOND: [u8; 9] = [1, 128, 0, 0, 0, 0, 0, 0, 2];

fn is_revision_row(row: &CellRow) -> bool
    ensures { result ≡ migration.is_revision_row row.now }
{
    row.row.as_slice() == REVISION_KEY.as_slice()
}

fn has_revision_row(rows: &[CellRow]) -> bool
    ensures { result ≡ migration.has_revision_row rows.now }
{
    rows.iter().any(|row| is_revision_row(row))
}

/// Whether a store that has these rows in its table 0 is of revision 1, and the unit is of revision
/// 2. Takes no memory.
pub fn is_due(metamodel: &Metamodel, numbers: &[CellRow]) -> bool
    ensures { result ≡ migration.is_due metamodel.now numbers.now }
{
    metamodel.unit().revision == 2 && !has_revision_row(numbers)
}

fn revision_cells(alloc: Global) -> Result<Seq<Cell>, Cause>
    ensures ok { IfOk result (λ cells. cells ≡ migration.revision_row.cells) }
    ensures err { IfErr result (λ cause. cause ≡ Cause.OutOfMemory) }
{
    let mut cells = Seq::new(alloc);
    cells.push(Cell {
        column: 0,
        value: Bytes::of(Vec::from_slice(alloc, &SECOND)?),
    })?;
    Ok(cells)
}

fn revision_key(alloc: Global) -> Result<Bytes, Cause>
    ensures ok { IfOk result (λ key. key ≡ migration.revision_key) }
    ensures err { IfErr result (λ cause. cause ≡ Cause.OutOfMemory) }
{
    Ok(Bytes::of(Vec::from_slice(alloc, &REVISION_KEY)?))
}

fn revision_row(alloc: Global) -> Result<CellRow, Cause>
    ensures ok { IfOk result (λ row. row ≡ migration.revision_row) }
    ensures err { IfErr result (λ cause. cause ≡ Cause.OutOfMemory) }
{
    Ok(CellRow {
        row: revision_key(alloc)?,
        cells: revision_cells(alloc)?,
    })
}

fn revision_change(alloc: Global) -> Result<CellChange, Cause>
    ensures ok { IfOk result (λ change. change ≡ migration.revision_change) }
    ensures err { IfErr result (λ cause. cause ≡ Cause.OutOfMemory) }
{
    Ok(CellChange {
        table: 0,
        row: revision_key(alloc)?,
        cells: revision_cells(alloc)?,
    })
}

fn is_from_revision(row: &CellRow) -> bool
    ensures { result ≡ places.is_from migration.revision_key row.now }
{
    order_key_bytes(row.row.as_slice(), REVISION_KEY.as_slice()) != Ordering::Less
}

/// The place of the first row that does not stand before the revision's.
fn place_from(rows: &[CellRow]) -> Option<usize>
    ensures { result ≡ position (places.is_from migration.revision_key) rows.now }
{
    rows.iter().position(|row| is_from_revision(row))
}

/// How many rows stand before the revision's.
fn place_of(rows: &[CellRow]) -> usize
    ensures place { result ≡ position_or_len (places.is_from migration.revision_key) rows.now }
    ensures within { result ≤ length rows.now }
{
    match place_from(rows) {
        Some(place) => place,
        None => rows.len(),
    }
}

fn with_revision_row(alloc: Global, mut rows: Vec<CellRow>) -> Result<Vec<CellRow>, Cause>
    ensures ok { IfOk result (λ marked. marked.items
        ≡ with_row migration.revision_row rows.items) }
    ensures err { IfErr result (λ cause. cause ≡ Cause.OutOfMemory) }
{
    let row = revision_row(alloc)?;
    let place = place_of(rows.as_slice());
    if place == rows.len() {
        rows.push(row)?;
    } else if is_revision_row(&rows[place]) {
        rows[place] = row;
    } else {
        rows.insert(place, row)?;
    }
    Ok(rows)
}

/// The rows of table 0 with the revision's row among them, and the change that puts it there.
pub(super) fn marked(
    alloc: Global,
    rows: Vec<CellRow>,
    changes: &mut Seq<CellChange>,
) -> Result<Vec<CellRow>, Cause>
    ensures rows { IfOk result (λ marked. marked.items
        ≡ with_row migration.revision_row rows.items) }
    ensures changes { OnOk result (changes.new ≡ changes.old
        ++ migration.revision_change ∷ []) }
    ensures err { IfErr result (λ cause. cause ≡ Cause.OutOfMemory) }
{
    changes.push(revision_change(alloc)?)?;
    with_revision_row(alloc, rows)
}
