//! All rows of a store, gathered table by table, and the set that they are those of.
ghost use Rattle.std.specs.Prelude.{◌≡◌, ◌⊎◌, ℕ, T, true, List, IfOk, IfErr, MatchResult};
ghost use Rattle.std.specs.List.{flat_map};
ghost use Rattle.jpa_value.specs.declared.refusal.Cause.{Cause};
ghost use Rattle.jpa_behaviour.specs.Registered.{world_of};
ghost use Rattle.jpa_rows.specs.rows.Faults.{IsStoreCause};
ghost use Rattle.jpa_opening.specs.reader.OfSet.{AreOf};
ghost use Rattle.jpa_opening.specs.reader.Reads.{AreNumbersOf};
ghost use Rattle.jpa_object_rows.specs.meaning.Raw.{AreRowsOf};
ghost use Rattle.jpa_rows.specs.rows.Rows.{Rows, AreRising, table_rows};
ghost use Rattle.jpa_rows.specs.rows.Tables.{schema_of};
ghost use Rattle.jpa_stored.specs.objects.Sets.{StoredSet, all_shaped};
ghost use Rattle.jpa_rows.specs.overlay.Overlay.{rows_under};
ghost use Rattle.std.specs.FinMap.{is_sorted};
ghost use Rattle.jpa_value.specs.Value.{identity_cmp};
ghost use Rattle.jpa_questions.specs.row_queries.Unread.{IsDamage, IsReadingCause};
ghost use Rattle.jpa_rows.specs.rows.Looks.{LooksOnly};
ghost use Rattle.jpa_questions.specs.row_queries.Seen.{AreJustOf, SeesRows, SeesSet};

use jpa_behaviour::{Behaviour, Registry};
use jpa_model::Metamodel;
use jpa_object_rows::mapper::discriminator_law;
use jpa_opening::reader::{Committed, judge_rows, table_numbers};
use jpa_rows::overlay::Overlay;
use jpa_rows::rows::{Row, RowId, RowReader, RowSink, Schema};
use jpa_stored::objects::StoredSet;
use jpa_value::{Cause, Seq};
use std::alloc::Global;
use std::marker::Model;

/// Rows that were taken, in the order in which they came; seen by contracts as these rows.
#[derive(Drop)]
struct Pairs {
    rows: Seq<(RowId, Row)>,
}

impl Model for Pairs {
    ghost use Rattle.jpa_rows.specs.rows.Rows.{Rows};

    ghost Value = { Rows };

    ghost view = { λ pairs. pairs.rows };
}

impl RowSink for Pairs {
    ghost use Rattle.jpa_questions.specs.row_queries.Gathering.{TakesRow};

    ghost takes = { λ before e out after. TakesRow before e out after };

    fn row(&mut self, id: RowId, row: Row) -> Result<bool, Cause> {
        self.rows.push((id, row))?;
        Ok(true)
    }
}

/// The rows of these tables as they are under changes, table by table.
fn rows_seen<R: RowReader>(
    alloc: Global,
    overlay: &Overlay,
    source: &mut R,
    numbers: &[u64],
) -> Result<Seq<(RowId, Row)>, Cause>
    ensures rows { R.clean source.new → (rows : Rows) → AreRising rows →
        R.holds source.old rows → MatchResult result
        (λ found. found ≡ flat_map (λ n. table_rows n (rows_under overlay.now rows)) numbers.now)
        IsStoreCause }
    ensures looks { LooksOnly R.RowReader result source.old source.new }
{
    let mut pairs = Pairs {
        rows: Seq::new(alloc),
    };
    for table in numbers {
        overlay.each(source, *table, &mut pairs)?;
    }
    let Pairs { rows } = pairs;
    Ok(rows)
}

/// The numbers of the tables of a metamodel, in rising order. It fails for want of memory alone.
fn numbers_of(alloc: Global, metamodel: &Metamodel) -> Result<Vec<u64>, Cause>
    ensures ok { IfOk result (λ numbers. AreNumbersOf (schema_of metamodel.now) numbers.items) }
    ensures err { IfErr result (λ cause. cause ≡ Cause.OutOfMemory) }
{
    let schema = Schema::of(alloc, metamodel)?;
    table_numbers(alloc, metamodel, &schema)
}

/// All rows as they are under changes, where they are rows of the metamodel's tables.
fn all_rows<R: RowReader>(
    alloc: Global,
    metamodel: &Metamodel,
    overlay: &Overlay,
    source: &mut R,
) -> Result<Seq<(RowId, Row)>, Cause>
    ensures rows { R.clean source.new → (rows : Rows) → AreRising rows →
        R.holds source.old rows → AreRowsOf (schema_of metamodel.now) (rows_under overlay.now rows) →
        MatchResult result (λ found. found ≡ rows_under overlay.now rows) IsStoreCause }
    ensures err { R.clean source.new → (rows : Rows) → AreRising rows →
        R.holds source.old rows → IfErr result IsStoreCause }
    ensures looks { LooksOnly R.RowReader result source.old source.new }
{
    let numbers = numbers_of(alloc, metamodel)?;
    rows_seen(alloc, overlay, source, numbers.as_slice())
}

/// The set that these rows are those of. Rows of no set are `Damaged`.
fn set_of<B: Behaviour>(
    alloc: Global,
    metamodel: &Metamodel,
    registry: &Registry<B>,
    rows: &[(RowId, Row)],
) -> Result<StoredSet, Cause>
    ensures set { (set : StoredSet) (numbers : List ℕ) →
        AreOf (world_of B.meaning metamodel.now registry.now) rows.now set numbers →
        MatchResult result (λ found. found ≡ set) IsStoreCause }
    ensures rising { IfOk result (λ found. T (is_sorted identity_cmp found)) }
    ensures shaped { IfOk result (λ found. all_shaped metamodel.now found ≡ true) }
    ensures held { IfOk result
        (AreJustOf (world_of B.meaning metamodel.now registry.now) rows.now) }
    ensures err { IfErr result (λ cause. (cause ≡ Cause.OutOfMemory) ⊎ IsDamage cause) }
{
    let Committed { set, .. } = judge_rows(alloc, metamodel, registry, rows)?;
    Ok(set)
}

/// The set that is seen: the one whose rows the store holds under changes, read table by table and
/// judged. What is answered has the shape of its classes in any case.
///
/// Rows of the metamodel's tables that are of no set that a store can hold are `Damaged`, told by
/// the table and the bytes of the first that no object, pair, next number or revision has, or by
/// `Damaged(0, [])`. `OutOfMemory` where a growth was refused, and `StoreFault` as the store answers
/// it. Nothing is written.
pub fn set_seen<R: RowReader, B: Behaviour>(
    alloc: Global,
    metamodel: &Metamodel,
    registry: &Registry<B>,
    overlay: &Overlay,
    source: &mut R,
) -> Result<StoredSet, Cause>
    ensures set { R.clean source.new → (set : StoredSet) (numbers : List ℕ) →
        SeesSet R.RowReader (world_of B.meaning metamodel.now registry.now) overlay.now
        source.old set numbers →
        MatchResult result (λ found. found ≡ set) IsStoreCause }
    ensures whole { R.clean source.new →
        (sees : SeesRows R.RowReader metamodel.now overlay.now source.old) → IfOk result
        (AreJustOf (world_of B.meaning metamodel.now registry.now)
        (rows_under overlay.now sees.rows)) }
    ensures rising { IfOk result (λ found. T (is_sorted identity_cmp found)) }
    ensures shaped { IfOk result (λ found. all_shaped metamodel.now found ≡ true) }
    ensures err { R.clean source.new → (rows : Rows) → AreRising rows →
        R.holds source.old rows → IfErr result IsReadingCause }
    ensures looks { LooksOnly R.RowReader result source.old source.new }
{
    // what the rows of a set rest on
    metamodel.unit();
    registry.laws();
    discriminator_law(metamodel);
    let rows = all_rows(alloc, metamodel, overlay, source)?;
    set_of(alloc, metamodel, registry, rows.as_slice())
}
