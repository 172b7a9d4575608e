//! What is seen of a store, for statements to run over.
ghost use Rattle.std.specs.Prelude.{◌≡◌, ℕ, List, option_map, IfOk, IfErr, MatchResult};
ghost use Rattle.jpa_behaviour.specs.Registered.{world_of};
ghost use Rattle.jpa_open.specs.Opened.{now};
ghost use Rattle.jpa_rows.specs.rows.Faults.{IsStoreCause};
ghost use Rattle.jpa_rows.specs.rows.Rows.{Rows, AreRising};
ghost use Rattle.jpa_rows.specs.overlay.Overlay.{rows_under};
ghost use Rattle.jpa_stored.specs.objects.Sets.{StoredSet, stored_at};
ghost use Rattle.jpa_questions.specs.by_key.ByKey.{only, pairless};
ghost use Rattle.jpa_questions.specs.by_key.Laws.{IsRooted};
ghost use Rattle.jpql_run.specs.Keys.{CanBeLookedUp};
ghost use Rattle.jpa_questions.specs.row_queries.Unread.{IsReadingCause};
ghost use Rattle.jpa_rows.specs.rows.Looks.{LooksAtOneRow, LooksOnly};
ghost use Rattle.jpa_questions.specs.row_queries.Seen.{AreJustOf, SeesRows, SeesSet};

use crate::row_queries::alone::object_under;
use crate::row_queries::gathering::set_seen;
use crate::row_queries::opened::opened_alone;
use jpa_behaviour::{Behaviour, Registry};
use jpa_model::Metamodel;
use jpa_open::{OpenSet, view_of};
use jpa_rows::overlay::Overlay;
use jpa_rows::rows::RowReader;
use jpa_value::{Cause, Identity};
use std::alloc::Global;

/// The set of what is seen under an identity, without its pairs, by one look at its row.
pub(super) fn alone_seen<R: RowReader, B: Behaviour>(
    alloc: Global,
    metamodel: &Metamodel,
    registry: &Registry<B>,
    overlay: &Overlay,
    source: &mut R,
    id: Identity,
) -> Result<OpenSet, Cause>
    ensures seen { R.clean source.new → IsRooted metamodel.now id →
        (set : StoredSet) (numbers : List ℕ) →
        SeesSet R.RowReader (world_of B.meaning metamodel.now registry.now) overlay.now
        source.old set numbers → MatchResult result
        (λ found. now found ≡ only id (option_map (pairless metamodel.now) (stored_at set id)))
        IsStoreCause }
    ensures looked_up { IfOk result (λ found. CanBeLookedUp metamodel.now (now found)) }
    ensures err { R.clean source.new → (rows : Rows) → R.holds source.old rows →
        IfErr result IsReadingCause }
    ensures looks { LooksOnly R.RowReader result source.old source.new }
    ensures economy { LooksAtOneRow R.RowReader source.old source.new }
{
    let object = object_under(alloc, metamodel, registry, overlay, source, &id)?;
    opened_alone(alloc, id, object)
}

/// The set that is seen, read whole.
pub(super) fn whole_seen<R: RowReader, B: Behaviour>(
    alloc: Global,
    metamodel: &Metamodel,
    registry: &Registry<B>,
    overlay: &Overlay,
    source: &mut R,
) -> Result<OpenSet, Cause>
    ensures seen { R.clean source.new → (set : StoredSet) (numbers : List ℕ) →
        SeesSet R.RowReader (world_of B.meaning metamodel.now registry.now) overlay.now
        source.old set numbers →
        MatchResult result (λ found. now found ≡ set) IsStoreCause }
    ensures whole { R.clean source.new →
        (sees : SeesRows R.RowReader metamodel.now overlay.now source.old) →
        IfOk result (λ found. AreJustOf (world_of B.meaning metamodel.now registry.now)
        (rows_under overlay.now sees.rows) (now found)) }
    ensures looked_up { IfOk result (λ found. CanBeLookedUp metamodel.now (now found)) }
    ensures err { R.clean source.new → (rows : Rows) → AreRising rows →
        R.holds source.old rows → IfErr result IsReadingCause }
    ensures looks { LooksOnly R.RowReader result source.old source.new }
{
    let set = set_seen(alloc, metamodel, registry, overlay, source)?;
    view_of(alloc, set)
}
