//! SELECT statements over a store of rows.
ghost use Rattle.std.specs.Prelude.{◌≡◌, ℕ, List, None, Some, IfOk, MatchResult};
ghost use Rattle.jpa_behaviour.specs.Registered.{world_of};
ghost use Rattle.jpa_value.specs.declared.value.Identity.{Identity};
ghost use Rattle.jpa_open.specs.Opened.{now};
ghost use Rattle.jpa_rows.specs.rows.Faults.{IsStoreCause};
ghost use Rattle.jpa_rows.specs.overlay.Overlay.{rows_under};
ghost use Rattle.jpa_stored.specs.objects.Sets.{StoredSet};
ghost use Rattle.jpa_questions.specs.by_key.ByKey.{key_of};
ghost use Rattle.jpql_meaning.specs.plan.Selection.{selected};
ghost use Rattle.jpql_run.specs.Keys.{CanBeLookedUp};
ghost use Rattle.jpa_questions.specs.row_queries.Answered.{Answers, IsAskingCause, RefusesOnly};
ghost use Rattle.jpa_questions.specs.row_queries.Unread.{IsReadingCause};
ghost use Rattle.jpa_rows.specs.rows.Looks.{LooksAtOneRow, LooksOnly};
ghost use Rattle.jpa_questions.specs.row_queries.Seen.{AreJustOf, SeesRows, SeesSet};

use crate::by_key::{key_laws, key_of};
use crate::row_queries::answering::answered;
use crate::row_queries::seen::{alone_seen, whole_seen};
use jpa_behaviour::{Behaviour, Registry};
use jpa_model::Metamodel;
use jpa_open::OpenSet;
use jpa_rows::overlay::Overlay;
use jpa_rows::rows::RowReader;
use jpa_value::{Cause, Seq};
use jpql_meaning::eval::Datum;
use jpql_trees::typed::TypedSelect;
use std::alloc::Global;

/// A set over which a statement gives what it gives over the one that is seen: the object that it
/// asks by its key, by one look at a row, else the whole set.
fn set_asked<R: RowReader, B: Behaviour>(
    alloc: Global,
    metamodel: &Metamodel,
    registry: &Registry<B>,
    overlay: &Overlay,
    source: &mut R,
    parameters: &[Datum],
    statement: &TypedSelect,
) -> Result<OpenSet, Cause>
    ensures asked { R.clean source.new → (set : StoredSet) (numbers : List ℕ) →
        SeesSet R.RowReader (world_of B.meaning metamodel.now registry.now) overlay.now
        source.old set numbers → MatchResult result
        (λ found. selected metamodel.now (now found) parameters.now statement.now
        ≡ selected metamodel.now set parameters.now statement.now) IsStoreCause }
    ensures whole { R.clean source.new →
        key_of metamodel.now parameters.now statement.now ≡ None →
        (sees : SeesRows R.RowReader metamodel.now overlay.now source.old) →
        IfOk result (λ _. (set : StoredSet)
        × AreJustOf (world_of B.meaning metamodel.now registry.now)
        (rows_under overlay.now sees.rows) set) }
    ensures looked_up { IfOk result (λ found. CanBeLookedUp metamodel.now (now found)) }
    ensures err { RefusesOnly R.RowReader IsReadingCause result source.old source.new }
    ensures looks { LooksOnly R.RowReader result source.old source.new }
    ensures economy { (id : Identity) →
        key_of metamodel.now parameters.now statement.now ≡ Some id →
        LooksAtOneRow R.RowReader source.old source.new }
{
    key_laws();
    let asked = key_of(alloc, metamodel, parameters, statement)?;
    match asked {
        Some(id) => alone_seen(alloc, metamodel, registry, overlay, source, id),
        None => whole_seen(alloc, metamodel, registry, overlay, source),
    }
}

/// The rows that a SELECT gives (chapter 4.2.1) over what a store of rows holds under changes of
/// its own, with what stands for its parameters, by place; an entity is told by its identity.
///
/// Where the store is clean at the end, and the rows that are seen are those of a set that a store
/// can hold, these are what the statement gives over that set: in its order, or the same
/// `Overflow`. Rows of the metamodel's tables that are of no such set are `Damaged`, told by a table
/// and the bytes of a row, where all are read; one that is asked by its key may be.
///
/// A statement that asks one object by its key (`key_of` of jpa_questions::by_key) runs at most one select,
/// of that object's row; another reads all tables of the metamodel. Nothing is written.
/// `OutOfMemory` where a growth was refused, and `StoreFault` as the store answers it.
pub fn run<R: RowReader, B: Behaviour>(
    alloc: Global,
    metamodel: &Metamodel,
    registry: &Registry<B>,
    overlay: &Overlay,
    source: &mut R,
    parameters: &[Datum],
    statement: &TypedSelect,
) -> Result<Seq<Seq<Datum>>, Cause>
    ensures answer { R.clean source.new → (set : StoredSet) (numbers : List ℕ) →
        SeesSet R.RowReader (world_of B.meaning metamodel.now registry.now) overlay.now
        source.old set numbers →
        Answers result (selected metamodel.now set parameters.now statement.now) }
    ensures whole { R.clean source.new →
        key_of metamodel.now parameters.now statement.now ≡ None →
        (sees : SeesRows R.RowReader metamodel.now overlay.now source.old) →
        IfOk result (λ _. (set : StoredSet)
        × AreJustOf (world_of B.meaning metamodel.now registry.now)
        (rows_under overlay.now sees.rows) set) }
    ensures err { RefusesOnly R.RowReader IsAskingCause result source.old source.new }
    ensures looks { LooksOnly R.RowReader result source.old source.new }
    ensures economy { (id : Identity) →
        key_of metamodel.now parameters.now statement.now ≡ Some id →
        LooksAtOneRow R.RowReader source.old source.new }
{
    let set = set_asked(
        alloc, metamodel, registry, overlay, source, parameters, statement,
    )?;
    answered(alloc, metamodel, &set, parameters, statement)
}
