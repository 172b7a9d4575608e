//! The rows of a store as a unit opens them, read one table after another.
ghost use Rattle.std.specs.Prelude.{◌≡◌, ◌+◌, ◌++◌, ◌<◌, ◌^◌, map, IsSome, IfOk, IfErr, OnOk};
ghost use Rattle.jpa_value.specs.declared.refusal.Cause.{Cause};
ghost use Rattle.jpa_behaviour.specs.Registered.{world_of};
ghost use Rattle.jpa_rows.specs.rows.Rows.{table_of};
ghost use Rattle.jpa_rows.specs.rows.Tables.{schema_of};
ghost use Rattle.jpa_cells.specs.meaning.Store.{up_to_greatest};
ghost use Rattle.jpa_opening.specs.reader.Opened.{ReadsOpened};
ghost use Rattle.jpa_opening.specs.reader.Opening.{ReadsTables};
ghost use Rattle.jpa_opening.specs.reader.Reads as reads;

use crate::reader::migration::{Migration, note_due, opened_rows};
use jpa_behaviour::{Behaviour, Registry};
use jpa_cells::meaning::CellChange;
use jpa_cells::rowspace::RowSpace;
use jpa_description::history::History;
use jpa_model::Metamodel;
use jpa_rows::rows::{Row, RowId, Schema};
use jpa_value::{Bytes, Cause, Seq};
use sqlite::Alter;
use std::alloc::Global;

fn unsorted_numbers(alloc: Global, schema: &Schema) -> Result<Vec<u64>, Cause>
    ensures ok { IfOk result (λ numbers. numbers.items ≡ map (λ t. t.table) schema.now.tables) }
    ensures err { IfErr result (λ cause. cause ≡ Cause.OutOfMemory) }
{
    let mut numbers = Vec::new(alloc);
    for table in schema.tables.as_slice() {
        numbers.push(u64::from(table.table))?;
    }
    Ok(numbers)
}

/// The numbers of the tables of a metamodel's schema, in rising order.
pub fn table_numbers(
    alloc: Global,
    metamodel: &Metamodel,
    schema: &Schema,
) -> Result<Vec<u64>, Cause>
    requires { schema.now ≡ schema_of metamodel.now }
    ensures ok { IfOk result (λ numbers. reads.AreNumbersOf schema.now numbers.items) }
    ensures err { IfErr result (λ cause. cause ≡ Cause.OutOfMemory) }
{
    let _unit = metamodel.unit();
    let mut numbers = unsorted_numbers(alloc, schema)?;
    numbers.sort()?;
    Ok(numbers)
}

fn append(rows: &mut Seq<(RowId, Row)>, more: Vec<(RowId, Row)>) -> Result<(), Cause>
    ensures ok { OnOk result (rows.new ≡ rows.old ++ more.items) }
    ensures err { IfErr result (λ cause. cause ≡ Cause.OutOfMemory) }
{
    'more: for entry in more {
        rows.push(entry)?;
    }
    Ok(())
}

/// The rows of a table as the unit opens them, read by one SELECT, up to the first that is
/// ill-formed, and the bytes of that one; the changes that make them so are added. Table 0 tells
/// whether the migration is due.
fn read_table<S: Alter, B: Behaviour>(
    alloc: Global,
    metamodel: &Metamodel,
    registry: &Registry<B>,
    history: &History,
    space: &mut RowSpace<S>,
    table: u64,
    migration: &mut Migration,
) -> Result<(Seq<(RowId, Row)>, Option<Bytes>), Cause>
    requires known { IsSome (table_of space.old.schema table) }
    requires narrow { table < 2 ^ 63 }
    ensures opened { IfOk result (λ read. ReadsOpened S.Store
        (world_of B.meaning metamodel.now registry.now) history.now space.old space.new table
        migration.old migration.new read.0 read.1) }
    ensures counted { space.new.store.table_selects
        ≡ up_to_greatest (space.old.store.table_selects + 1) }
    ensures reads { reads.ReadsOnly S.Store space.old space.new result }
{
    let _unit = metamodel.unit();
    let stored = space.cells(table)?.into_vec();
    note_due(metamodel, table, stored.as_slice(), migration);
    let rows = opened_rows(
        alloc, metamodel, registry, history, table, stored, migration,
    )?;
    Ok(space.entries(table, rows)?)
}

/// What was read of the tables of a store, as the unit opens it.
#[derive(Drop)]
pub(super) struct Found {
    /// The rows, up to one that is ill-formed.
    pub(super) rows: Seq<(RowId, Row)>,
    /// The table and the bytes of that one.
    pub(super) end: Option<(u64, Bytes)>,
    /// The changes that make the tables those that were read.
    pub(super) changes: Seq<CellChange>,
}

/// The rows of these tables, table by table, each by one SELECT: all, or those before the first row
/// that is ill-formed, with the table and the bytes of that one.
pub(super) fn read_tables<S: Alter, B: Behaviour>(
    alloc: Global,
    metamodel: &Metamodel,
    registry: &Registry<B>,
    history: &History,
    space: &mut RowSpace<S>,
    numbers: &[u64],
) -> Result<Found, Cause>
    requires schema { space.old.schema ≡ schema_of metamodel.now }
    requires numbers { reads.AreNumbersOf space.old.schema numbers.now }
    ensures found { IfOk result (ReadsTables S.Store
        (world_of B.meaning metamodel.now registry.now) history.now space.old space.new
        numbers.now) }
    ensures reads { reads.ReadsOnly S.Store space.old space.new result }
{
    let _unit = metamodel.unit();
    let mut rows = Seq::new(alloc);
    let mut migration = Migration {
        is_due: false,
        changes: Seq::new(alloc),
    };
    'tables: for table in numbers {
        let (part, stopped) = read_table(
            alloc,
            metamodel,
            registry,
            history,
            space,
            *table,
            &mut migration,
        )?;
        append(&mut rows, part.into_vec())?;
        if let Some(bytes) = stopped {
            return Ok(Found {
                rows,
                end: Some((*table, bytes)),
                changes: migration.changes,
            });
        }
    }
    Ok(Found {
        rows,
        end: None,
        changes: migration.changes,
    })
}
