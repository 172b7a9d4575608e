//! The rows of a table as a unit opens them.
ghost use Rattle.std.specs.Prelude.{◌≡◌, ◌<◌, ◌^◌, ◌++◌, false, IfOk, IfErr, OnOk};
ghost use Rattle.jpa_value.specs.declared.refusal.Cause.{Cause};
ghost use Rattle.jpa_behaviour.specs.Registered.{world_of};
ghost use Rattle.jpa_cells.specs.meaning.Tables.{AreRows};
ghost use Rattle.jpa_opening.specs.reader.Opened as opened;

use crate::migration::{is_due, migrate};
use jpa_behaviour::{Behaviour, Registry};
use jpa_cells::meaning::{CellChange, CellRow};
use jpa_description::history::History;
use jpa_model::Metamodel;
use jpa_value::{Cause, Seq};
use std::alloc::Global;

/// Whether a store is migrated at its opening, and the changes that make it so.
#[derive(Drop)]
pub(super) struct Migration {
    pub(super) is_due: bool,
    pub(super) changes: Seq<CellChange>,
}

/// Notes by the rows of table 0 whether the migration is due.
pub(super) fn note_due(
    metamodel: &Metamodel,
    table: u64,
    rows: &[CellRow],
    migration: &mut Migration,
)
    ensures { migration.new ≡ record migration.old {
      is_due = opened.due_after metamodel.now table rows.now migration.old.is_due;
    } }
{
    if table == 0 {
        migration.is_due = is_due(metamodel, rows);
    }
}

/// The rows of a table as the unit opens them; the changes that make them so are added.
pub(super) fn opened_rows<B: Behaviour>(
    alloc: Global,
    metamodel: &Metamodel,
    registry: &Registry<B>,
    history: &History,
    table: u64,
    rows: Vec<CellRow>,
    migration: &mut Migration,
) -> Result<Vec<CellRow>, Cause>
    requires { table < 2 ^ 63 }
    ensures rows { AreRows rows.items → IfOk result (λ after. after.items
        ≡ opened.rows_opened (world_of B.meaning metamodel.now registry.now) history.now
        migration.old.is_due table rows.items) }
    ensures changes { AreRows rows.items → OnOk result (migration.new.changes
        ≡ migration.old.changes ++ opened.changes_opened
        (world_of B.meaning metamodel.now registry.now) history.now migration.old.is_due table
        rows.items) }
    ensures due { migration.new.is_due ≡ migration.old.is_due }
    ensures none { migration.old.is_due ≡ false → migration.new ≡ migration.old }
    ensures err { IfErr result (λ cause. cause ≡ Cause.OutOfMemory) }
{
    if !migration.is_due {
        return Ok(rows);
    }
    migrate(
        alloc,
        metamodel,
        registry,
        history,
        table as i64,
        rows,
        &mut migration.changes,
    )
}
