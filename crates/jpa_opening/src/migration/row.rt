//! The cells of one row, by a plan.
ghost use Rattle.std.specs.Prelude.{◌≡◌, ◌++◌, [], IfOk, IfErr, OnOk, option_to_list};
ghost use Rattle.std.specs.List.{flat_map, list_any};
ghost use Rattle.jpa_value.specs.declared.refusal.Cause.{Cause};
ghost use Rattle.jpa_cells.specs.meaning.Tables.{placed, ColumnsDiffer};
ghost use Rattle.jpa_opening.specs.migration.Migration as migration;
ghost use Rattle.jpa_opening.specs.migration.Plans as plans;
ghost use Rattle.jpa_opening.specs.migration.Orderly.{IsOrderly};

use crate::migration::copies::push_copies;
use crate::migration::plan::{Move, Plan};
use jpa_cells::meaning::Cell;
use jpa_value::{Bytes, Cause};
use std::alloc::Global;

/// Whether a column has this number.
fn is_number(column: i64, number: u64) -> bool
    ensures { result ≡ plans.is_number column number }
{
    column >= 0 && column as u64 == number
}

fn has_number(numbers: &[u64], column: i64) -> bool
    ensures { result ≡ plans.has_number numbers.now column }
{
    numbers.iter().any(|number| is_number(column, *number))
}

/// Whether a cell stands in a column that revision 1 does not have.
fn is_taken(plan: &Plan, cells: &[Cell]) -> bool
    ensures { result ≡ plans.is_taken plan.now cells.now }
{
    let taken = plan.taken.as_slice();
    cells.iter().any(|cell| has_number(taken, cell.column))
}

/// The number that a column has now.
fn column_by(moves: &[Move], column: i64) -> i64
    ensures { result ≡ plans.column_by moves.now column }
{
    for step in moves {
        if is_number(column, step.was) {
            return step.column;
        }
    }
    column
}

// ---- cells without a readable one

/// The one cell of a row that has none that can be read.
fn bare_cells(alloc: Global) -> Result<Vec<Cell>, Cause>
    ensures ok { IfOk result (λ cells. cells.items ≡ migration.readable []) }
    ensures err { IfErr result (λ cause. cause ≡ Cause.OutOfMemory) }
{
    let mut cells = Vec::new(alloc);
    cells.push(Cell {
        column: 0,
        value: Bytes::of(Vec::new(alloc)),
    })?;
    Ok(cells)
}

fn is_bare(cells: &[Cell]) -> bool
    ensures { result ≡ plans.is_bare cells.now }
{
    match cells {
        [cell] => cell.column == 0 && cell.value.as_slice().is_empty(),
        _ => false,
    }
}

// ---- defaults

fn is_discriminator(cell: &Cell, discriminator: &[u8]) -> bool
    ensures { result ≡ plans.is_discriminator discriminator.now cell.now }
{
    cell.column == 0 && cell.value.as_slice() == discriminator
}

/// Whether column 0 names the class of this discriminator.
fn is_of(discriminator: &[u8], cells: &[Cell]) -> bool
    ensures { result ≡ plans.is_of discriminator.now cells.now }
{
    cells
        .iter()
        .any(|cell| is_discriminator(cell, discriminator))
}

/// Copies of the defaults of the class that column 0 names.
fn defaults_by(alloc: Global, plan: &Plan, cells: &[Cell]) -> Result<Vec<Cell>, Cause>
    ensures ok { IfOk result (λ defaults. defaults.items
        ≡ plans.defaults_by plan.now cells.now) }
    ensures err { IfErr result (λ cause. cause ≡ Cause.OutOfMemory) }
{
    let mut defaults = Vec::new(alloc);
    for class in plan.defaults.as_slice() {
        if is_of(class.discriminator.as_slice(), cells) {
            push_copies(&mut defaults, class.cells.as_slice())?;
        }
    }
    Ok(defaults)
}

// ---- the row

/// Whether a cell goes, or moves.
fn touches(plan: &Plan, cell: &Cell) -> bool
    ensures { result ≡ plans.touches plan.now cell.now }
{
    has_number(plan.dropped.as_slice(), cell.column)
        || column_by(plan.moves.as_slice(), cell.column) != cell.column
}

/// The cell in the column that it has now, if it stays.
fn cell_by(plan: &Plan, cell: Cell) -> Option<Cell>
    ensures { option_to_list result ≡ plans.cell_by plan.now cell }
{
    let Cell { column, value } = cell;
    if has_number(plan.dropped.as_slice(), column) {
        return None;
    }
    Some(Cell {
        column: column_by(plan.moves.as_slice(), column),
        value,
    })
}

fn each_moved(alloc: Global, plan: &Plan, cells: Vec<Cell>) -> Result<Vec<Cell>, Cause>
    ensures ok { IfOk result (λ kept. kept.items
        ≡ flat_map (plans.cell_by plan.now) cells.items) }
    ensures err { IfErr result (λ cause. cause ≡ Cause.OutOfMemory) }
{
    let mut kept = Vec::new(alloc);
    'cells: for cell in cells {
        if let Some(cell) = cell_by(plan, cell) {
            kept.push(cell)?;
        }
    }
    Ok(kept)
}

fn is_touched(plan: &Plan, cells: &[Cell]) -> bool
    ensures { result ≡ list_any (plans.touches plan.now) cells.now }
{
    cells.iter().any(|cell| touches(plan, cell))
}

/// The cells that stay, in the columns that they have now, and whether one goes or moves.
fn moved(alloc: Global, plan: &Plan, cells: Vec<Cell>) -> Result<(Vec<Cell>, bool), Cause>
    ensures cells { IfOk result (λ r. r.0.items
        ≡ flat_map (plans.cell_by plan.now) cells.items) }
    ensures touched { IfOk result (λ r. r.1 ≡ list_any (plans.touches plan.now) cells.items) }
    ensures err { IfErr result (λ cause. cause ≡ Cause.OutOfMemory) }
{
    if !is_touched(plan, cells.as_slice()) {
        return Ok((cells, false));
    }
    Ok((each_moved(alloc, plan, cells)?, true))
}

fn append(cells: &mut Vec<Cell>, more: Vec<Cell>) -> Result<(), Cause>
    ensures ok { OnOk result (cells.new.items ≡ cells.old.items ++ more.items) }
    ensures err { IfErr result (λ cause. cause ≡ Cause.OutOfMemory) }
{
    'more: for cell in more {
        cells.push(cell)?;
    }
    Ok(())
}

/// Puts cells of different columns in the order of these.
fn put_in_order(cells: &mut Vec<Cell>)
    ensures { ColumnsDiffer cells.old.items → cells.new.items ≡ placed cells.old.items }
{
    cells.sort_unstable_by_key(|cell| cell.column);
}

/// The cells that a row has afterwards, and whether they are others than it had.
pub(super) fn cells_by(
    alloc: Global,
    plan: &Plan,
    cells: Vec<Cell>,
) -> Result<(Vec<Cell>, bool), Cause>
    ensures cells { IsOrderly plan.now cells.items →
        IfOk result (λ r. r.0.items ≡ plans.cells_by plan.now cells.items) }
    ensures differs { IfOk result (λ r. r.1 ≡ plans.differs plan.now cells.items) }
    ensures err { IfErr result (λ cause. cause ≡ Cause.OutOfMemory) }
{
    let bare = is_bare(cells.as_slice());
    if is_taken(plan, cells.as_slice()) {
        return Ok((bare_cells(alloc)?, !bare));
    }
    let defaults = defaults_by(alloc, plan, cells.as_slice())?;
    let filled = !defaults.as_slice().is_empty();
    let (mut after, touched) = moved(alloc, plan, cells)?;
    append(&mut after, defaults)?;
    if after.as_slice().is_empty() {
        return Ok((bare_cells(alloc)?, !bare));
    }
    if touched || filled {
        put_in_order(&mut after);
    }
    Ok((after, touched || filled))
}
