//! The rows of one table.
ghost use Rattle.std.specs.Prelude.{◌≡◌, ◌<◌, ◌++◌, length, map, position, IfSome, IfOk, IfErr, OnOk};
ghost use Rattle.std.specs.List.{AllByRecursion, flat_map};
ghost use Rattle.jpa_value.specs.declared.refusal.Cause.{Cause};
ghost use Rattle.jpa_behaviour.specs.Registered.{world_of};
ghost use Rattle.jpa_cells.specs.meaning.Tables.{AreRows};
ghost use Rattle.jpa_opening.specs.migration.Migration as migration;
ghost use Rattle.jpa_opening.specs.migration.Plans as plans;
ghost use Rattle.jpa_opening.specs.migration.Orderly.{IsOrderly};

use crate::migration::copies::copies_of;
use crate::migration::marking::marked;
use crate::migration::plan::Plan;
use crate::migration::planning::plan_of;
use crate::migration::row::cells_by;
use jpa_behaviour::{Behaviour, Registry};
use jpa_cells::meaning::{Cell, CellChange, CellRow};
use jpa_description::history::History;
use jpa_model::{Entity, Metamodel, Origin};
use jpa_value::{Bytes, Cause, Seq, TryCopy};
use std::alloc::Global;

fn has_table(origin: &Origin, table: i64) -> bool
    ensures { result ≡ migration.has_table table origin.now }
{
    match origin {
        Origin::Root(root) => table >= 0 && table as u64 == root.table,
        Origin::Extends(_) => false,
    }
}

/// The place of the first entity that is a root with this table.
fn place_with(entities: &[Entity], table: i64) -> Option<usize>
    ensures place { result ≡ position (λ e. migration.has_table table e.origin) entities.now }
    ensures within { IfSome result (λ place. place < length entities.now) }
{
    entities
        .iter()
        .position(|entity| has_table(&entity.origin, table))
}

/// The root that has this table.
fn root_with(metamodel: &Metamodel, table: i64) -> Option<usize>
    ensures root { result ≡ migration.root_with metamodel.now table }
    ensures within { IfSome result (λ root. root < length metamodel.now.entities) }
{
    place_with(metamodel.entities(), table)
}

/// The change that gives a row these cells.
fn change_of(alloc: Global, table: i64, row: &Bytes, cells: &[Cell]) -> Result<CellChange, Cause>
    ensures ok { IfOk result (λ change. change
        ≡ record { table = table; row = row.now; cells = cells.now }) }
    ensures err { IfErr result (λ cause. cause ≡ Cause.OutOfMemory) }
{
    Ok(CellChange {
        table,
        row: row.try_copy()?,
        cells: copies_of(alloc, cells)?,
    })
}

/// A row as it is afterwards, with the change that makes it so, where it differs.
fn row_by(
    alloc: Global,
    plan: &Plan,
    table: i64,
    stored: CellRow,
    changes: &mut Seq<CellChange>,
) -> Result<CellRow, Cause>
    ensures row { IsOrderly plan.now stored.cells →
        IfOk result (λ after. after ≡ plans.row_by plan.now stored) }
    ensures changes { IsOrderly plan.now stored.cells →
        OnOk result (changes.new ≡ changes.old ++ plans.change_by plan.now table stored) }
    ensures err { IfErr result (λ cause. cause ≡ Cause.OutOfMemory) }
{
    let CellRow { row, cells } = stored;
    let (cells, differs) = cells_by(alloc, plan, cells.into_vec())?;
    if differs {
        changes.push(change_of(alloc, table, &row, cells.as_slice())?)?;
    }
    Ok(CellRow {
        row,
        cells: Seq::of(cells),
    })
}

/// The rows of a table as they are afterwards, with the changes of those that differ.
fn rows_by(
    alloc: Global,
    plan: &Plan,
    table: i64,
    rows: Vec<CellRow>,
    changes: &mut Seq<CellChange>,
) -> Result<Vec<CellRow>, Cause>
    ensures rows { AllByRecursion (λ r. IsOrderly plan.now r.cells) rows.items →
        IfOk result (λ after. after.items ≡ map (plans.row_by plan.now) rows.items) }
    ensures changes { AllByRecursion (λ r. IsOrderly plan.now r.cells) rows.items →
        OnOk result (changes.new ≡ changes.old
        ++ flat_map (plans.change_by plan.now table) rows.items) }
    ensures err { IfErr result (λ cause. cause ≡ Cause.OutOfMemory) }
{
    let mut after = Vec::new(alloc);
    'rows: for stored in rows {
        after.push(row_by(alloc, plan, table, stored, changes)?)?;
    }
    Ok(after)
}

/// The rows of a root's table as they are afterwards, with the changes of those that differ; they
/// are walked only where one may.
fn root_rows<B: Behaviour>(
    alloc: Global,
    metamodel: &Metamodel,
    registry: &Registry<B>,
    history: &History,
    root: usize,
    table: i64,
    rows: Vec<CellRow>,
    changes: &mut Seq<CellChange>,
) -> Result<Vec<CellRow>, Cause>
    requires { root < length metamodel.now.entities }
    ensures rows { AreRows rows.items → IfOk result (λ after. after.items ≡ map
        (migration.row_after (world_of B.meaning metamodel.now registry.now) history.now root)
        rows.items) }
    ensures changes { AreRows rows.items → OnOk result (changes.new ≡ changes.old ++ flat_map
        (migration.change_if (world_of B.meaning metamodel.now registry.now) history.now table root)
        rows.items) }
    ensures err { IfErr result (λ cause. cause ≡ Cause.OutOfMemory) }
{
    let _unit = metamodel.unit();
    let plan = plan_of(alloc, metamodel, registry, history, root)?;
    if plan.is_idle() {
        return Ok(rows);
    }
    rows_by(alloc, &plan, table, rows, changes)
}

/// What becomes of the rows of one table of a store of revision 1 that is opened by a unit of
/// revision 2, each in rising columns; the changes that make them so in the store are added. The
/// rows of table 0 get the revision's row. Tables without a change are not walked.
///
/// Fails for want of memory alone, with `OutOfMemory`; the changes are then any.
pub fn migrate<B: Behaviour>(
    alloc: Global,
    metamodel: &Metamodel,
    registry: &Registry<B>,
    history: &History,
    table: i64,
    rows: Vec<CellRow>,
    changes: &mut Seq<CellChange>,
) -> Result<Vec<CellRow>, Cause>
    ensures rows { AreRows rows.items → IfOk result (λ after. after.items
        ≡ migration.rows_migrated (world_of B.meaning metamodel.now registry.now) history.now table
        rows.items) }
    ensures changes { AreRows rows.items → OnOk result (changes.new ≡ changes.old
        ++ migration.changes_made (world_of B.meaning metamodel.now registry.now) history.now table
        rows.items) }
    ensures err { IfErr result (λ cause. cause ≡ Cause.OutOfMemory) }
{
    if table == 0 {
        return marked(alloc, rows, changes);
    }
    match root_with(metamodel, table) {
        Some(root) => root_rows(
            alloc, metamodel, registry, history, root, table, rows, changes,
        ),
        None => Ok(rows),
    }
}
