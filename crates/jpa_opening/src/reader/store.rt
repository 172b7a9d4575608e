//! A whole store, judged.
ghost use Rattle.std.specs.Prelude.{◌≡◌, ◌⊎◌, ℕ, [], List, Err, None, IfOk, IfErr, OnOk};
ghost use Rattle.jpa_value.specs.declared.refusal.Cause.{Cause};
ghost use Rattle.jpa_behaviour.specs.Registered.{world_of};
ghost use Rattle.jpa_rows.specs.rows.Tables.{schema_of};
ghost use Rattle.jpa_cells.specs.meaning.Store.{faults_after, IsClean, HasFault};
ghost use Rattle.jpa_cells.specs.rowspace.Stored.{AreRowsOf};
ghost use Rattle.jpa_opening.specs.reader.Judged.{AreHeld};
ghost use Rattle.jpa_opening.specs.reader.Reads.{IsTold, KeepsTables};
ghost use Rattle.jpa_opening.specs.reader.Opening.{ReadsStore, OpensStore, RefusesStore, LeavesStore};

use crate::reader::entries::are_rows_of;
use crate::reader::judge::{Committed, Judged, judge};
use crate::reader::read::{Found, read_tables, table_numbers};
use jpa_behaviour::{Behaviour, Registry};
use jpa_cells::meaning::CellChange;
use jpa_cells::rowspace::RowSpace;
use jpa_description::history::History;
use jpa_model::Metamodel;
use jpa_object_rows::mapper::{damaged, discriminator_law};
use jpa_rows::rows::{Row, RowId, Schema};
use jpa_value::{Bytes, Cause, Seq};
use sqlite::Alter;
use std::alloc::Global;

/// The refusal of rows none of which is at fault. Takes no memory.
fn nothing_at_fault(alloc: Global) -> Cause
    ensures { result ≡ Cause.Damaged 0 [] }
{
    Cause::Damaged(0, Bytes::of(Vec::new(alloc)))
}

/// What the rows of a schema stand for, which were read whole or up to an ill-formed row. Rows that
/// are not the schema's, as a disk may answer that does not return what was written, are refused
/// too.
pub(super) fn judge_read<B: Behaviour>(
    alloc: Global,
    metamodel: &Metamodel,
    registry: &Registry<B>,
    schema: &Schema,
    rows: &[(RowId, Row)],
    end: Option<(u64, Bytes)>,
) -> Result<Committed, Cause>
    requires { schema.now ≡ schema_of metamodel.now }
    ensures whole { OnOk result (end ≡ None) }
    ensures named { OnOk result (AreRowsOf schema.now rows.now) }
    ensures held { IfOk result (λ c. AreHeld (world_of B.meaning metamodel.now registry.now)
        rows.now c) }
    ensures err { IfErr result (λ cause. (cause ≡ Cause.OutOfMemory)
        ⊎ ((t : ℕ) × (bytes : List ℕ) × (cause ≡ Cause.Damaged t bytes)
        × (AreRowsOf schema.now rows.now →
        IsTold (world_of B.meaning metamodel.now registry.now) rows.now end t bytes))) }
{
    if !are_rows_of(schema, rows) {
        return Err(nothing_at_fault(alloc));
    }
    match (judge(alloc, metamodel, registry, rows)?, end) {
        (Judged::Damaged(place), _) => Err(damaged(alloc, &rows[place].0)),
        (_, Some((table, bytes))) => Err(Cause::Damaged(table, bytes)),
        (Judged::Held(committed), None) => Ok(committed),
        (Judged::Unsound, None) => Err(nothing_at_fault(alloc)),
    }
}

/// What the tables of a store stand for as a unit opens them, read by one SELECT for each table of
/// the metamodel, and the changes that make them so. Nothing is written.
fn read_store<S: Alter, B: Behaviour>(
    alloc: Global,
    metamodel: &Metamodel,
    registry: &Registry<B>,
    history: &History,
    space: &mut RowSpace<S>,
) -> Result<(Committed, Seq<CellChange>), Cause>
    requires schema { space.old.schema ≡ schema_of metamodel.now }
    ensures read { IfOk result (λ r. ReadsStore S.Store
        (world_of B.meaning metamodel.now registry.now) history.now space.old space.new r.0 r.1) }
    ensures refused { IfErr result (RefusesStore S.Store
        (world_of B.meaning metamodel.now registry.now) history.now space.old space.new) }
    ensures keeps { KeepsTables S.Store space.old space.new }
    ensures told { space.new.store.faults ≡ faults_after result space.old.store.faults }
    ensures cause { IsClean S.Store space.new.store.conn → result ≡ Err Cause.StoreFault →
        HasFault S.Store space.old.store.conn space.new.store.conn }
{
    let _unit = metamodel.unit();
    registry.laws();
    discriminator_law(metamodel);
    let numbers = table_numbers(alloc, metamodel, space.schema())?;
    let Found { rows, end, changes } = read_tables(
        alloc,
        metamodel,
        registry,
        history,
        space,
        numbers.as_slice(),
    )?;
    match judge_read(
        alloc,
        metamodel,
        registry,
        space.schema(),
        rows.as_slice(),
        end,
    ) {
        Ok(committed) => Ok((committed, changes)),
        Err(cause) => Err(cause),
    }
}

/// The set and the next numbers that the cells of a store stand for, read by one SELECT for each
/// table of the metamodel. A store of revision 1 is migrated first, where the metamodel is of
/// revision 2: the cells are judged as they are to be, and where they stand for something, the rows
/// that differ and that of the revision are written in one transaction. Else nothing is written.
/// The space is one of the metamodel's schema. What is answered can always be held; that the cells
/// stand for it is sure where the disk is clean.
///
/// Cells that stand for none are `Damaged`, and no others are: where cells stand for a set, each of
/// their rows is one that an object, a pair, a next number or the revision has (`standing_sound`).
/// A row that is none of these is told by its table and its bytes, and so is the lowest of several:
/// an ill-formed one, of an unknown class, with a column that its class lacks, without a version,
/// of a converter's throw. Else each row may be one, and yet they are those of no sound set with
/// its next numbers, as where an owner is missing, a generated key is not below the next number, or
/// a unit of revision 2 finds no row of it: that is `Damaged(0, [])`. Otherwise it fails for want
/// of memory, or with `StoreFault`. Refused, the tables are as they were.
pub fn open_store<S: Alter, B: Behaviour>(
    alloc: Global,
    metamodel: &Metamodel,
    registry: &Registry<B>,
    history: &History,
    space: &mut RowSpace<S>,
) -> Result<Committed, Cause>
    requires schema { space.old.schema ≡ schema_of metamodel.now }
    ensures opened { IfOk result (OpensStore S.Store
        (world_of B.meaning metamodel.now registry.now) history.now space.old space.new) }
    ensures refused { IfErr result (RefusesStore S.Store
        (world_of B.meaning metamodel.now registry.now) history.now space.old space.new) }
    ensures leaves { LeavesStore S.Store (world_of B.meaning metamodel.now registry.now)
        history.now space.old space.new result }
{
    let (committed, changes) = read_store(alloc, metamodel, registry, history, space)?;
    let _writes = space.store.writes();
    space.store.apply(changes.as_slice())?;
    Ok(committed)
}
