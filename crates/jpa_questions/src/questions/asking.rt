//! A question over a store of rows.
ghost use Rattle.std.specs.Prelude.{◌≡◌, ℕ, [], List, None, Some, IfOk};
ghost use Rattle.jpa_behaviour.specs.Served.{world_of_unit};
ghost use Rattle.jpa_value.specs.declared.value.Identity.{Identity};
ghost use Rattle.jpa_rows.specs.rows.Rows.{Rows};
ghost use Rattle.jpa_stored.specs.objects.Sets.{StoredSet};
ghost use Rattle.jpa_questions.specs.by_key.ByKey.{key_of};
ghost use Rattle.jpql_meaning.specs.plan.Selection.{selected};
ghost use Rattle.jpa_questions.specs.row_queries.Answered.{Answers, IsAskingCause, RefusesOnly};
ghost use Rattle.jpa_rows.specs.rows.Looks.{LooksOnly};
ghost use Rattle.jpa_questions.specs.row_queries.Seen.{AreJustOf, SeesRows, SeesSet};
ghost use Rattle.jpa_questions.specs.questions.Asking.{LooksAtTwoRows, RefusesRevision};
ghost use Rattle.jpa_questions.specs.questions.Revisions.{AreOfRevision};

use crate::questions::question::Question;
use crate::questions::revision::check_revision;
use crate::row_queries::run;
use jpa_behaviour::{Behaviour, ServedUnit};
use jpa_rows::overlay::Overlay;
use jpa_rows::rows::RowReader;
use jpa_value::{Cause, Seq};
use jpql_meaning::eval::Datum;
use std::alloc::Global;

/// The rows that a question finds in a store of rows (chapter 4.2.1), an entity by its identity.
///
/// Where the store is clean at the end, and its rows are those of a set that a store can hold,
/// these are what the SELECT gives over that set: in its order, or the same `Overflow`. A store of
/// another revision than the unit's is `Damaged`, told by the row of the revision, before any other
/// row is read; rows of no such set are `Damaged` too, where all are read. `OutOfMemory` where a
/// growth was refused, and `StoreFault` as the store answers it.
///
/// The row of the revision is looked at, and then one row for a SELECT that asks one object by its
/// key, else each table of the metamodel. Nothing is written.
pub fn ask<R: RowReader, B: Behaviour>(
    alloc: Global,
    unit: &ServedUnit<B>,
    source: &mut R,
    question: &Question,
) -> Result<Seq<Seq<Datum>>, Cause>
    ensures answer { R.clean source.new → (set : StoredSet) (numbers : List ℕ) →
        SeesSet R.RowReader (world_of_unit B.meaning unit.now) [] source.old set numbers →
        Answers result
        (selected unit.now.metamodel set question.now.arguments question.now.select) }
    ensures whole { R.clean source.new →
        key_of unit.now.metamodel question.now.arguments question.now.select ≡ None →
        (sees : SeesRows R.RowReader unit.now.metamodel [] source.old) →
        IfOk result (λ _. (set : StoredSet)
        × AreJustOf (world_of_unit B.meaning unit.now) sees.rows set) }
    ensures revision { R.clean source.new → (rows : Rows) → R.holds source.old rows →
        (AreOfRevision unit.now.metamodel rows → ⊥) → RefusesRevision result }
    ensures err { RefusesOnly R.RowReader IsAskingCause result source.old source.new }
    ensures looks { LooksOnly R.RowReader result source.old source.new }
    ensures economy { (id : Identity) →
        key_of unit.now.metamodel question.now.arguments question.now.select ≡ Some id →
        LooksAtTwoRows R.RowReader source.old source.new }
{
    // what the revision of rows rests on
    unit.metamodel.unit();
    check_revision(alloc, &unit.metamodel, source)?;
    let overlay = Overlay::new(alloc);
    run(
        alloc,
        &unit.metamodel,
        &unit.registry,
        &overlay,
        source,
        question.arguments.as_slice(),
        &question.select,
    )
}
