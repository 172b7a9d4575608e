//! What UPDATE and DELETE statements find in a store of rows (chapter 4.11).
ghost use Rattle.std.specs.Prelude.{◌≡◌, ℕ, List, IfOk};
ghost use Rattle.jpa_behaviour.specs.Registered.{world_of};
ghost use Rattle.jpa_rows.specs.overlay.Overlay.{rows_under};
ghost use Rattle.jpa_stored.specs.objects.Sets.{StoredSet};
ghost use Rattle.jpql_bulk.specs.bulk.Changes as changes;
ghost use Rattle.jpa_questions.specs.row_queries.Answered.{Answers, IsAskingCause, RefusesOnly};
ghost use Rattle.jpa_questions.specs.row_queries.Changing.{set_by_update};
ghost use Rattle.jpa_rows.specs.rows.Looks.{LooksOnly};
ghost use Rattle.jpa_questions.specs.row_queries.Seen.{AreJustOf, SeesRows, SeesSet};

use crate::row_queries::owning::{assigned, taken};
use crate::row_queries::seen::whole_seen;
use jpa_behaviour::{Behaviour, Registry};
use jpa_model::{Member, Metamodel};
use jpa_rows::overlay::Overlay;
use jpa_rows::rows::RowReader;
use jpa_value::{Boxed, Cause, Identity, Seq};
use jpql_meaning::eval::Datum;
use jpql_trees::typed::{TypedAssignment, TypedCondition};
use std::alloc::Global;

/// The objects that an UPDATE of a class concerns (chapter 4.11) in what a store of rows holds under
/// changes of its own, by their identities, in rising order, each with what its members are set to.
///
/// Where the store is clean at the end, and the rows that are seen are those of a set that a store
/// can hold, this is what the statement finds in that set, or the same `Overflow`. Rows of the
/// metamodel's tables that are of no such set are `Damaged`. All tables are read, and nothing is
/// written. `OutOfMemory` where a growth was refused, and `StoreFault` as the store answers it.
pub fn found_by_update<R: RowReader, B: Behaviour>(
    alloc: Global,
    metamodel: &Metamodel,
    registry: &Registry<B>,
    overlay: &Overlay,
    source: &mut R,
    parameters: &[Datum],
    class: usize,
    assignments: &[TypedAssignment],
    filter: &Option<Boxed<TypedCondition>>,
) -> Result<Seq<(Identity, Seq<(Member, Datum)>)>, Cause>
    ensures answer { R.clean source.new → (set : StoredSet) (numbers : List ℕ) →
        SeesSet R.RowReader (world_of B.meaning metamodel.now registry.now) overlay.now
        source.old set numbers → Answers result
        (set_by_update metamodel.now set parameters.now class assignments.now filter.now) }
    ensures whole { R.clean source.new →
        (sees : SeesRows R.RowReader metamodel.now overlay.now source.old) →
        IfOk result (λ _. (set : StoredSet)
        × AreJustOf (world_of B.meaning metamodel.now registry.now)
        (rows_under overlay.now sees.rows) set) }
    ensures err { RefusesOnly R.RowReader IsAskingCause result source.old source.new }
    ensures looks { LooksOnly R.RowReader result source.old source.new }
{
    let set = whole_seen(alloc, metamodel, registry, overlay, source)?;
    assigned(
        alloc,
        metamodel,
        &set,
        parameters,
        class,
        assignments,
        filter,
    )
}

/// The identities of the objects that a DELETE of a class takes out (chapter 4.11) of what a store
/// of rows holds under changes of its own, in rising order; `is_named` says whether they have a
/// variable.
///
/// It is what the statement finds in the set that is seen, and fails, as `found_by_update` says.
pub fn found_by_delete<R: RowReader, B: Behaviour>(
    alloc: Global,
    metamodel: &Metamodel,
    registry: &Registry<B>,
    overlay: &Overlay,
    source: &mut R,
    parameters: &[Datum],
    class: usize,
    is_named: bool,
    filter: &Option<Boxed<TypedCondition>>,
) -> Result<Seq<Identity>, Cause>
    ensures answer { R.clean source.new → (set : StoredSet) (numbers : List ℕ) →
        SeesSet R.RowReader (world_of B.meaning metamodel.now registry.now) overlay.now
        source.old set numbers → Answers result (changes.found_by_delete metamodel.now
        set parameters.now class is_named filter.now) }
    ensures whole { R.clean source.new →
        (sees : SeesRows R.RowReader metamodel.now overlay.now source.old) →
        IfOk result (λ _. (set : StoredSet)
        × AreJustOf (world_of B.meaning metamodel.now registry.now)
        (rows_under overlay.now sees.rows) set) }
    ensures err { RefusesOnly R.RowReader IsAskingCause result source.old source.new }
    ensures looks { LooksOnly R.RowReader result source.old source.new }
{
    let set = whole_seen(alloc, metamodel, registry, overlay, source)?;
    taken(alloc, metamodel, &set, parameters, class, is_named, filter)
}
