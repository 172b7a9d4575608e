//! Copies of cells.
ghost use Rattle.std.specs.Prelude.{◌≡◌, ◌++◌, IfOk, IfErr, OnOk};
ghost use Rattle.jpa_value.specs.declared.refusal.Cause.{Cause};

use jpa_cells::meaning::Cell;
use jpa_value::{Cause, Seq, TryCopy};
use std::alloc::Global;

fn copy_of(cell: &Cell) -> Result<Cell, Cause>
    ensures ok { IfOk result (λ copy. copy ≡ cell.now) }
    ensures err { IfErr result (λ cause. cause ≡ Cause.OutOfMemory) }
{
    Ok(Cell {
        column: cell.column,
        value: cell.value.try_copy()?,
    })
}

/// Adds copies of cells.
pub(super) fn push_copies(cells: &mut Vec<Cell>, more: &[Cell]) -> Result<(), Cause>
    ensures ok { OnOk result (cells.new.items ≡ cells.old.items ++ more.now) }
    ensures err { IfErr result (λ cause. cause ≡ Cause.OutOfMemory) }
{
    for cell in more {
        cells.push(copy_of(cell)?)?;
    }
    Ok(())
}

pub(super) fn copies_of(alloc: Global, cells: &[Cell]) -> Result<Seq<Cell>, Cause>
    ensures ok { IfOk result (λ copies. copies ≡ cells.now) }
    ensures err { IfErr result (λ cause. cause ≡ Cause.OutOfMemory) }
{
    let mut copies = Vec::new(alloc);
    push_copies(&mut copies, cells)?;
    Ok(Seq::of(copies))
}
