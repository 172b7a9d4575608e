//! One object, read off its row.
ghost use Rattle.std.specs.Prelude.{◌≡◌, ◌⊎◌, ℕ, List, true, option_map, IfOk, IfErr, IfSome, MatchResult};
ghost use Rattle.std.specs.FinMap.{find};
ghost use Rattle.jpa_value.specs.declared.refusal.Cause.{Cause};
ghost use Rattle.jpa_value.specs.Value.{identity_cmp};
ghost use Rattle.jpa_behaviour.specs.Registered.{world_of};
ghost use Rattle.jpa_opening.specs.reader.OfSet.{AreOf};
ghost use Rattle.jpa_rows.specs.rows.Faults.{IsStoreCause};
ghost use Rattle.jpa_rows.specs.rows.Rows.{Rows};
ghost use Rattle.jpa_stored.specs.objects.Sets.{StoredSet, is_shaped, stored_at};
ghost use Rattle.jpa_questions.specs.row_queries.Unread.{IsDamage, IsReadingCause};
ghost use Rattle.jpa_rows.specs.rows.Looks.{LooksAtOneRow, LooksOnly};
ghost use Rattle.jpa_questions.specs.row_queries.Seen.{SeesSet};
ghost use Rattle.jpa_questions.specs.by_key.ByKey.{pairless};
ghost use Rattle.jpa_questions.specs.by_key.Laws.{IsRooted};

use jpa_behaviour::{Behaviour, Registry};
use jpa_model::Metamodel;
use jpa_object_rows::mapper::{discriminator_law, from_rows_by_id};
use jpa_rows::overlay::Overlay;
use jpa_rows::rows::{Row, RowReader};
use jpa_stored::objects::Stored;
use jpa_value::{Cause, Identity};
use std::alloc::Global;

/// The object that the row under its identity says, if there is a row, without the pairs that it
/// owns, which are other rows. A row that is no object's is `Damaged`.
fn object_of<B: Behaviour>(
    alloc: Global,
    metamodel: &Metamodel,
    registry: &Registry<B>,
    id: &Identity,
    row: &Option<Row>,
) -> Result<Option<Stored>, Cause>
    ensures object { IsRooted metamodel.now id.now → (rows : Rows) →
        row.now ≡ find identity_cmp id.now rows → (set : StoredSet) (numbers : List ℕ) →
        AreOf (world_of B.meaning metamodel.now registry.now) rows set numbers →
        MatchResult result
        (λ found. found ≡ option_map (pairless metamodel.now) (stored_at set id.now)) IsStoreCause }
    ensures shaped { IfOk result
        (λ found. IfSome found (λ x. is_shaped metamodel.now id.now x ≡ true)) }
    ensures err { IfErr result (λ cause. (cause ≡ Cause.OutOfMemory) ⊎ IsDamage cause) }
{
    // what reading rests on
    metamodel.unit();
    registry.laws();
    discriminator_law(metamodel);
    match row {
        None => Ok(None),
        Some(row) => {
            let object = from_rows_by_id(alloc, metamodel, registry, id, row, &[])?;
            Ok(Some(object))
        }
    }
}

/// The object that is seen under an identity, without the pairs that it owns: that of the set whose
/// rows the store holds under changes, by one look at its row. The identity's table is a class's
/// (`IsRooted`). What is answered has the shape of its class in any case.
///
/// A row that is no object's is `Damaged`, told by its table and its bytes. `OutOfMemory` where a
/// growth was refused, and `StoreFault` as the store answers it. Nothing is written.
pub fn object_under<R: RowReader, B: Behaviour>(
    alloc: Global,
    metamodel: &Metamodel,
    registry: &Registry<B>,
    overlay: &Overlay,
    source: &mut R,
    id: &Identity,
) -> Result<Option<Stored>, Cause>
    ensures object { R.clean source.new → IsRooted metamodel.now id.now →
        (set : StoredSet) (numbers : List ℕ) →
        SeesSet R.RowReader (world_of B.meaning metamodel.now registry.now) overlay.now
        source.old set numbers → MatchResult result
        (λ found. found ≡ option_map (pairless metamodel.now) (stored_at set id.now)) IsStoreCause }
    ensures shaped { IfOk result
        (λ found. IfSome found (λ x. is_shaped metamodel.now id.now x ≡ true)) }
    ensures err { R.clean source.new → (rows : Rows) → R.holds source.old rows →
        IfErr result IsReadingCause }
    ensures looks { LooksOnly R.RowReader result source.old source.new }
    ensures economy { LooksAtOneRow R.RowReader source.old source.new }
{
    let row = overlay.get(source, id)?;
    object_of(alloc, metamodel, registry, id, &row)
}
