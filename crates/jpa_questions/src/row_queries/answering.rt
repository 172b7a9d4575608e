//! What a statement gives over a set, as rows of their own.
ghost use Rattle.std.specs.Prelude.{◌≡◌, ◌⊎◌, IfErr};
ghost use Rattle.jpa_open.specs.Opened.{now};
ghost use Rattle.jpa_value.specs.declared.refusal.Cause.{Cause};
ghost use Rattle.jpql_meaning.specs.plan.Selection.{selected};
ghost use Rattle.jpql_run.specs.Keys.{CanBeLookedUp};
ghost use Rattle.jpa_questions.specs.row_queries.Answered.{Answers};

use jpa_model::Metamodel;
use jpa_open::OpenSet;
use jpa_value::{Cause, Seq, TryCopy};
use jpql_meaning::eval::{Datum, Failure};
use jpql_select::select::{rows_of, select};
use jpql_trees::typed::TypedSelect;
use std::alloc::Global;

/// The rows that a statement gives over a set (chapter 4.2.1), as rows of their own.
///
/// `Overflow` where some part is an integer outside 64 bits; `OutOfMemory` where a growth was
/// refused.
pub(super) fn answered(
    alloc: Global,
    metamodel: &Metamodel,
    set: &OpenSet,
    parameters: &[Datum],
    statement: &TypedSelect,
) -> Result<Seq<Seq<Datum>>, Cause>
    requires looked_up { CanBeLookedUp metamodel.now (now set.now) }
    ensures answer { Answers result
        (selected metamodel.now (now set.now) parameters.now statement.now) }
    ensures err { IfErr result
        (λ cause. (cause ≡ Cause.OutOfMemory) ⊎ (cause ≡ Cause.Overflow)) }
{
    match select(alloc, metamodel, set, parameters, statement) {
        Ok(table) => rows_of(alloc, table),
        Err(Failure::Overflow) => Err(Cause::Overflow),
        Err(Failure::Memory) => Err(Cause::OutOfMemory),
    }
}
