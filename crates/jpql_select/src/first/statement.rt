//! The first rows of a SELECT.
ghost use Rattle.std.specs.Prelude.{take};
ghost use Rattle.jpa_open.specs.Opened as opened;
ghost use Rattle.jpql_meaning.specs.eval.Answers.{under};
ghost use Rattle.jpql_meaning.specs.eval.Finds.{Finds};
ghost use Rattle.jpql_meaning.specs.plan.Selection as selection;
ghost use Rattle.jpql_run.specs.Keys as keys;
ghost use Rattle.jpql_select.specs.select.Tables.{rows_in};
ghost use Rattle.jpql_select.specs.first.First.{first_of, IsFit};

use crate::first::best::best_rows;
use crate::first::fit::is_fit;
use crate::first::fronts::enough_tuples;
use crate::select::{Table, select, table_of};
use jpa_model::Metamodel;
use jpa_open::OpenSet;
use jpql_meaning::eval::{Datum, Failure};
use jpql_run::Run;
use jpql_trees::typed::TypedSelect;
use std::alloc::Global;

/// How many rows are put in order one by one at most; of more all are made and sorted.
const MOST: usize = 1024;

/// The first rows of a statement of which any may be left out.
fn first_rows<'a>(
    alloc: Global,
    run: &Run<'a>,
    statement: &'a TypedSelect,
    count: usize,
) -> Result<Table<'a>, Failure>
    requires looked_up { keys.CanBeLookedUp run.now.metamodel.now (opened.now run.now.set.now) }
    requires fit { IsFit statement.now }
    ensures { Finds rows_in result (under (take count) (selection.selected run.now.metamodel.now
        (opened.now run.now.set.now) run.now.parameters.now statement.now)) }
{
    let tuples = enough_tuples(alloc, run, statement, count)?;
    let rows = best_rows(alloc, run, statement, count, &tuples)?;
    Ok(table_of(alloc, rows)?)
}

/// The first rows of any statement: all are made, and the others let go.
fn cut_rows<'a>(
    alloc: Global,
    run: &Run<'a>,
    statement: &'a TypedSelect,
    count: usize,
) -> Result<Table<'a>, Failure>
    requires looked_up { keys.CanBeLookedUp run.now.metamodel.now (opened.now run.now.set.now) }
    ensures { Finds rows_in result (under (take count) (selection.selected run.now.metamodel.now
        (opened.now run.now.set.now) run.now.parameters.now statement.now)) }
{
    let mut table = select(alloc, run.metamodel, run.set, run.parameters, statement)?;
    table.truncate(count);
    Ok(table)
}

/// The first rows of the table that `select` gives of a statement, so many or all (chapters 3.10.3
/// and 4.10).
///
/// Of at most 1,024 rows, without DISTINCT, GROUP BY, HAVING and aggregates, where the items are
/// paths, constants or parameters and the keys of ORDER BY are paths, a row is made only for a
/// tuple that goes among the first ones so far, and none is sorted. Else all rows are made.
///
/// The set's objects have the shape of their classes, and stand in rising order.
///
/// `Overflow` where some part of the whole statement is an integer outside 64 bits; `Memory` where
/// a growth was refused.
pub fn select_first<'a>(
    alloc: Global,
    metamodel: &'a Metamodel,
    set: &'a OpenSet,
    parameters: &'a [Datum],
    statement: &'a TypedSelect,
    count: Option<usize>,
) -> Result<Table<'a>, Failure>
    requires looked_up { keys.CanBeLookedUp metamodel.now (opened.now set.now) }
    ensures { Finds rows_in result (under (first_of count)
        (selection.selected metamodel.now (opened.now set.now) parameters.now statement.now)) }
{
    let Some(count) = count else {
        return select(alloc, metamodel, set, parameters, statement);
    };
    let run = Run {
        metamodel,
        set,
        parameters,
    };
    if count <= MOST && is_fit(statement) {
        first_rows(alloc, &run, statement, count)
    } else {
        cut_rows(alloc, &run, statement, count)
    }
}
