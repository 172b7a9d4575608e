//! SELECT statements.
ghost use Rattle.jpa_open.specs.Opened as opened;
ghost use Rattle.jpql_meaning.specs.eval.Finds.{Finds};
ghost use Rattle.jpql_meaning.specs.plan.Selection as selection;
ghost use Rattle.jpql_run.specs.Keys as keys;
ghost use Rattle.jpql_select.specs.select.Tables.{rows_in};

use crate::select::case::rows_for;
use crate::select::table::{Table, ordered};
use crate::select::tallies::tallied;
use crate::select::tuples::selected_tuples;
use jpa_model::Metamodel;
use jpa_open::OpenSet;
use jpql_meaning::eval::{Datum, Failure};
use jpql_run::Run;
use jpql_trees::typed::TypedSelect;
use std::alloc::Global;

/// The table of a statement over what the manager at work sees (chapter 4.2.1), with what stands
/// for its parameters, by place.
///
/// It has a row of each tuple, or of each group where there is GROUP BY, HAVING or an aggregate;
/// with DISTINCT the first of the rows that are the same; in the order of ORDER BY, in which rows
/// that tie stay in the order of their tuples. Every part is computed, but where nothing in WHERE
/// or an ON could overflow: then objects may be looked up by what these ask of them, and others
/// decide nothing.
///
/// The set's objects have the shape of their classes, and stand in rising order.
///
/// `Overflow` where some part is an integer outside 64 bits; `Memory` where a growth was refused.
pub fn select<'a>(
    alloc: Global,
    metamodel: &'a Metamodel,
    set: &'a OpenSet,
    parameters: &'a [Datum],
    statement: &'a TypedSelect,
) -> Result<Table<'a>, Failure>
    requires looked_up { keys.CanBeLookedUp metamodel.now (opened.now set.now) }
    ensures { Finds rows_in result
        (selection.selected metamodel.now (opened.now set.now) parameters.now statement.now) }
{
    let run = Run {
        metamodel,
        set,
        parameters,
    };
    if let Some(table) = tallied(alloc, &run, statement)? {
        return Ok(table);
    }
    let tuples = selected_tuples(alloc, &run, statement)?;
    let rows = rows_for(alloc, &run, statement, tuples)?;
    let table = ordered(
        alloc,
        statement.order.as_slice(),
        statement.is_distinct,
        rows,
    )?;
    Ok(table)
}
