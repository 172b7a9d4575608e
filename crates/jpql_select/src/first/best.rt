//! The first rows in an order, as tuples come.
ghost use Rattle.std.specs.Prelude.{◌≡◌, ◌≤◌, IfErr, IfOk, OnOk, length, map, take};
ghost use Rattle.std.specs.List.{insert};
ghost use Rattle.std.specs.List.Sorted.{IsSortedBy};
ghost use Rattle.jpql_meaning.specs.eval.Answers.{every, gives, under};
ghost use Rattle.jpql_meaning.specs.eval.Finds.{Finds, Fails};
ghost use Rattle.jpql_meaning.specs.plan.Meaning.{alone};
ghost use Rattle.jpql_meaning.specs.plan.Selection as selection;
ghost use Rattle.jpql_select.specs.select.Selects as selects;
ghost use Rattle.jpql_select.specs.select.Sortings.{sorting_data};
ghost use Rattle.jpql_select.specs.first.First.{AreInFront, IsFit};

use crate::select::{Case, Row, Sorting, by_sorting, items_of, sorting_of};
use jpql_meaning::eval::Failure;
use jpql_run::{Run, Tuple};
use jpql_trees::typed::{TypedKey, TypedSelect};
use std::alloc::Global;

/// Where a row that is ordered by this goes among rows in order: behind those that it doesn't
/// precede. It takes O(log n) comparisons.
fn place_of<'a>(keys: &[TypedKey], rows: &[Row<'a>], sorting: &Sorting<'a>) -> usize
    requires sorted { IsSortedBy (selection.precedes keys.now) rows.now }
    ensures within { result ≤ length rows.now }
    ensures place { (row : selection.Row) → row.keys ≡ sorting_data sorting.now →
        selection.put_row keys.now row rows.now ≡ insert rows.now result row }
{
    rows.partition_point(|row| !by_sorting(keys, sorting, &row.keys).is_lt())
}

/// Puts the row of a tuple among the first rows so far. None is made where it stands behind so
/// many.
fn put<'a>(
    alloc: Global,
    run: &Run<'a>,
    select: &'a TypedSelect,
    count: usize,
    tuple: &Tuple<'a>,
    best: &mut Vec<Row<'a>>,
) -> Result<(), Failure>
    requires fit { IsFit select.now }
    requires front { AreInFront select.now.order count best.old.items }
    ensures ok { OnOk result (under (λ row. take count
        (selection.put_row select.now.order row best.old.items))
        (selects.row_of run.now select.now (alone tuple.now)) ≡ gives best.new.items) }
    ensures front { OnOk result (AreInFront select.now.order count best.new.items) }
    ensures err { IfErr result (λ failure.
        Fails failure (selects.row_of run.now select.now (alone tuple.now))) }
{
    let case = Case { tuple, group: &[] };
    let order = select.order.as_slice();
    let keys = sorting_of(alloc, run, &case, &[], order)?;
    let place = place_of(order, best, &keys);
    if place >= count {
        return Ok(());
    }
    let items = items_of(alloc, run, &case, select.items.as_slice())?;
    best.insert(place, Row { items, keys })?;
    best.truncate(count);
    Ok(())
}

/// The first rows of these tuples, in the order of their keys. With n tuples it takes n log count
/// comparisons, and memory for the rows that are given.
pub(super) fn best_rows<'a>(
    alloc: Global,
    run: &Run<'a>,
    select: &'a TypedSelect,
    count: usize,
    tuples: &[Tuple<'a>],
) -> Result<Vec<Row<'a>>, Failure>
    requires fit { IsFit select.now }
    ensures { Finds (λ v. v.items) result (under
        (λ rows. take count (selection.in_order select.now.order rows))
        (every (map (selects.row_of run.now select.now) (map alone tuples.now)))) }
{
    let mut best = Vec::new(alloc);
    for tuple in tuples {
        put(alloc, run, select, count, tuple, &mut best)?;
    }
    Ok(best)
}
