//! What items, HAVING and ORDER BY are computed for: a tuple, or a group of tuples (chapters 4.8
//! and 4.9).
ghost use Rattle.std.specs.Prelude.{◌≡◌, ◌∷◌, [], map, IfOk, IfErr, IfSome};
ghost use Rattle.std.specs.List.{list_any};
ghost use Rattle.jpa_open.specs.Opened as opened;
ghost use Rattle.jpql_meaning.specs.eval.Answers.{gives};
ghost use Rattle.jpql_meaning.specs.eval.Finds.{Finds, Fails};
ghost use Rattle.jpql_meaning.specs.plan.Meaning as meaning;
ghost use Rattle.jpql_meaning.specs.plan.Selection as selection;
ghost use Rattle.jpql_run.specs.Keys as keys;
ghost use Rattle.jpql_select.specs.select.Cases.{case_in};
ghost use Rattle.jpql_select.specs.select.Groups.{groups_in};
ghost use Rattle.jpql_select.specs.select.Selects as selects;

use crate::select::groups::{grouped, rising};
use crate::select::row::Row;
use crate::select::rows::rows_of;
use jpql_meaning::eval::Failure;
use jpql_run::{Run, Tuple};
use jpql_trees::typed::{TypedKey, TypedPath, TypedSelect, TypedSorted, TypedValue};
use std::alloc::{AllocError, Global};

/// A tuple, and the group that it is the first of, where they stand.
#[derive(Clone, Copy)]
pub struct Case<'t, 'a> {
    /// What paths start from.
    pub tuple: &'t Tuple<'a>,
    /// What aggregates go over; nothing, where a tuple stands alone.
    pub group: &'t [Tuple<'a>],
}

/// Whether a value has an aggregate.
#[cycle(has_aggregate)]
fn has_aggregate(value: &TypedValue) -> bool
    ensures { result ≡ selection.has_aggregate value.now }
{
    match value {
        TypedValue::Aggregate(_, _, _) => true,
        TypedValue::Signed(_, operand) => has_aggregate(operand.get()),
        TypedValue::Arithmetic(_, left, right) => {
            has_aggregate(left.get()) || has_aggregate(right.get())
        }
        TypedValue::Call(_, all) => have_aggregate(all.as_slice()),
        TypedValue::Integer(_)
        | TypedValue::Text(_)
        | TypedValue::Parameter(_)
        | TypedValue::Path(_)
        | TypedValue::Size(_) => false,
    }
}

/// Whether some of these values has one.
#[cycle(has_aggregate)]
fn have_aggregate(values: &[TypedValue]) -> bool
    ensures { result ≡ list_any selection.has_aggregate values.now }
{
    for value in values {
        if has_aggregate(value) {
            return true;
        }
    }
    false
}

/// Whether a key of ORDER BY sorts by a value that has one.
fn sorts_by_aggregate(key: &TypedKey) -> bool
    ensures { result ≡ selection.sorts_by_aggregate key.now.by }
{
    match &key.by {
        TypedSorted::Item(_) | TypedSorted::Path(_) => false,
        TypedSorted::Value(value) => has_aggregate(value),
    }
}

/// Whether some of these keys does.
fn sort_by_aggregate(keys: &[TypedKey]) -> bool
    ensures { result ≡ list_any (λ key. selection.sorts_by_aggregate key.by) keys.now }
{
    keys.iter().any(|key| sorts_by_aggregate(key))
}

fn is_any(groups: &[TypedPath]) -> bool
    ensures { result ≡ meaning.is_any groups.now }
{
    !matches!(groups, [])
}

/// Whether the tuples of a statement stand in groups: by GROUP BY, HAVING or an aggregate among its
/// items and keys of ORDER BY (chapter 4.8).
pub fn is_grouping(select: &TypedSelect) -> bool
    ensures { result ≡ selection.is_grouping select.now }
{
    is_any(select.groups.as_slice())
        || select.having.is_some()
        || have_aggregate(select.items.as_slice())
        || sort_by_aggregate(select.order.as_slice())
}

/// Each tuple alone.
fn each_alone<'t, 'a>(
    alloc: Global,
    tuples: &'t [Tuple<'a>],
) -> Result<Vec<Case<'t, 'a>>, AllocError>
    ensures { IfOk result (λ cases. map case_in cases.items ≡ map meaning.alone tuples.now) }
{
    let mut cases = Vec::with_capacity(alloc, tuples.len())?;
    let (group, _) = tuples.split_at(0);
    for tuple in tuples {
        cases.push(Case { tuple, group })?;
    }
    Ok(cases)
}

/// Groups of tuples, and a tuple without variables.
#[derive(Drop)]
struct Groups<'a> {
    groups: Vec<Vec<Tuple<'a>>>,
    nothing: Tuple<'a>,
}

/// A group; that of nothing has no variables.
pub(super) fn case_of<'t, 'a>(nothing: &'t Tuple<'a>, group: &'t [Tuple<'a>]) -> Case<'t, 'a>
    requires nothing { nothing.now ≡ [] }
    ensures { case_in result ≡ selection.case_of group.now }
{
    match group {
        [] => Case {
            tuple: nothing,
            group,
        },
        [first, ..] => Case {
            tuple: first,
            group,
        },
    }
}

/// Each group.
fn each_group<'t, 'a>(alloc: Global, all: &'t Groups<'a>) -> Result<Vec<Case<'t, 'a>>, AllocError>
    requires nothing { all.now.nothing ≡ [] }
    ensures { IfOk result (λ cases. map case_in cases.items
        ≡ map selection.case_of (groups_in all.now.groups.items)) }
{
    let mut cases = Vec::with_capacity(alloc, all.groups.len())?;
    for group in &all.groups {
        cases.push(case_of(&all.nothing, group.as_slice()))?;
    }
    Ok(cases)
}

/// The rows of groups.
fn rows_of_each<'a>(
    alloc: Global,
    run: &Run<'a>,
    select: &'a TypedSelect,
    groups: Vec<Vec<Tuple<'a>>>,
) -> Result<Vec<Row<'a>>, Failure>
    requires looked_up { keys.CanBeLookedUp run.now.metamodel.now (opened.now run.now.set.now) }
    ensures { Finds (λ v. v.items) result (selects.rows_of run.now select.now
        (map selection.case_of (groups_in groups.entry.items))) }
{
    let all = Groups {
        groups,
        nothing: Tuple::new(alloc),
    };
    let cases = each_group(alloc, &all)?;
    rows_of(alloc, run, select, cases)
}

/// The row of all tuples as one group, also of nothing.
fn row_of_all<'a>(
    alloc: Global,
    run: &Run<'a>,
    select: &'a TypedSelect,
    tuples: Vec<Tuple<'a>>,
) -> Result<Vec<Row<'a>>, Failure>
    requires looked_up { keys.CanBeLookedUp run.now.metamodel.now (opened.now run.now.set.now) }
    ensures { Finds (λ v. v.items) result (selects.rows_of run.now select.now
        (selection.case_of tuples.entry.items ∷ [])) }
{
    let mut groups = Vec::new(alloc);
    groups.push(tuples)?;
    rows_of_each(alloc, run, select, groups)
}

/// The rows of the groups of tuples, where the keys of these rise: then each group stands in one
/// place, and none is looked for.
fn rows_of_rising<'a>(
    alloc: Global,
    run: &Run<'a>,
    select: &'a TypedSelect,
    tuples: &[Tuple<'a>],
) -> Result<Option<Vec<Row<'a>>>, Failure>
    requires looked_up { keys.CanBeLookedUp run.now.metamodel.now (opened.now run.now.set.now) }
    ensures rows { IfOk result (λ found. IfSome found (λ rows.
        selects.rows_of_groups run.now select.now tuples.now ≡ gives rows.items)) }
    ensures err { IfErr result (λ failure.
        Fails failure (selects.rows_of_groups run.now select.now tuples.now)) }
{
    let Some(cases) = rising(alloc, run, select.groups.as_slice(), tuples)? else {
        return Ok(None);
    };
    Ok(Some(rows_of(alloc, run, select, cases)?))
}

/// The rows of the groups of tuples.
fn rows_of_groups<'a>(
    alloc: Global,
    run: &Run<'a>,
    select: &'a TypedSelect,
    tuples: Vec<Tuple<'a>>,
) -> Result<Vec<Row<'a>>, Failure>
    requires looked_up { keys.CanBeLookedUp run.now.metamodel.now (opened.now run.now.set.now) }
    ensures { Finds (λ v. v.items) result
        (selects.rows_of_groups run.now select.now tuples.entry.items) }
{
    if let Some(rows) = rows_of_rising(alloc, run, select, &tuples)? {
        return Ok(rows);
    }
    let groups = grouped(alloc, run, select.groups.as_slice(), tuples)?;
    rows_of_each(alloc, run, select, groups)
}

/// The rows of a statement, before DISTINCT and ORDER BY: of each tuple, or of each group; without
/// GROUP BY there is one group, also of nothing.
pub(super) fn rows_for<'a>(
    alloc: Global,
    run: &Run<'a>,
    select: &'a TypedSelect,
    tuples: Vec<Tuple<'a>>,
) -> Result<Vec<Row<'a>>, Failure>
    requires looked_up { keys.CanBeLookedUp run.now.metamodel.now (opened.now run.now.set.now) }
    ensures { Finds (λ v. v.items) result (selects.rows_of run.now select.now
        (selects.cases_of run.now select.now tuples.entry.items)) }
{
    if !is_grouping(select) {
        let cases = each_alone(alloc, &tuples)?;
        return rows_of(alloc, run, select, cases);
    }
    match select.groups.as_slice() {
        [] => row_of_all(alloc, run, select, tuples),
        [_, ..] => rows_of_groups(alloc, run, select, tuples),
    }
}
