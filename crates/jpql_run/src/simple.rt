//! Tests of values.
ghost use Rattle.std.specs.Prelude.{◌≡◌, map};
ghost use Rattle.jpql_meaning.specs.eval.Answers.{every, both, under};
ghost use Rattle.jpql_meaning.specs.eval.Data as data_;
ghost use Rattle.jpql_meaning.specs.eval.Calls as calls;
ghost use Rattle.jpql_meaning.specs.eval.Truths as truths;
ghost use Rattle.jpql_meaning.specs.plan.Meaning as meaning;
ghost use Rattle.jpql_run.specs.Runs as runs;
ghost use Rattle.jpql_meaning.specs.eval.Finds.{Finds, same};
ghost use Rattle.jpql_meaning.specs.eval.Seen.{seen};

use crate::collections::is_member;
use crate::run::Run;
use crate::tuple::Tuple;
use crate::values::value;
use jpa_value::Text;
use jpql_meaning::eval::{Failure, Seen, Truth, between, compared, like, or3, truth_of};
use jpql_trees::tree::Comparison;
use jpql_trees::typed::{TypedPath, TypedValue};
use std::alloc::Global;

/// A comparison.
#[inline(never)]
pub(crate) fn compare<'a>(
    alloc: Global,
    run: &Run<'a>,
    tuple: &Tuple<'a>,
    group: &[Tuple<'a>],
    comparison: Comparison,
    left: &'a TypedValue,
    right: &'a TypedValue,
) -> Result<Truth, Failure>
    ensures { Finds same result (both (data_.compared comparison)
        (runs.value_in run.now tuple.now group.now left.now)
        (runs.value_in run.now tuple.now group.now right.now)) }
{
    let left = value(alloc, run, tuple, group, left)?;
    let right = value(alloc, run, tuple, group, right)?;
    Ok(compared(comparison, &left, &right))
}

fn between_ends<'a>(
    alloc: Global,
    run: &Run<'a>,
    tuple: &Tuple<'a>,
    group: &[Tuple<'a>],
    middle: &Seen<'a>,
    low: &'a TypedValue,
    high: &'a TypedValue,
) -> Result<Truth, Failure>
    ensures { Finds same result (both (data_.between (seen middle.now))
        (runs.value_in run.now tuple.now group.now low.now)
        (runs.value_in run.now tuple.now group.now high.now)) }
{
    let low = value(alloc, run, tuple, group, low)?;
    let high = value(alloc, run, tuple, group, high)?;
    Ok(between(middle, &low, &high))
}

/// BETWEEN.
#[inline(never)]
pub(crate) fn is_between<'a>(
    alloc: Global,
    run: &Run<'a>,
    tuple: &Tuple<'a>,
    group: &[Tuple<'a>],
    middle: &'a TypedValue,
    low: &'a TypedValue,
    high: &'a TypedValue,
) -> Result<Truth, Failure>
    ensures { Finds same result (meaning.on_answer
        (runs.value_in run.now tuple.now group.now middle.now) (λ x. both (data_.between x)
        (runs.value_in run.now tuple.now group.now low.now)
        (runs.value_in run.now tuple.now group.now high.now))) }
{
    let middle = value(alloc, run, tuple, group, middle)?;
    between_ends(alloc, run, tuple, group, &middle, low, high)
}

/// Whether a value is among others.
fn among_these<'a>(
    alloc: Global,
    run: &Run<'a>,
    tuple: &Tuple<'a>,
    group: &[Tuple<'a>],
    found: &Seen<'a>,
    all: &'a [TypedValue],
) -> Result<Truth, Failure>
    ensures { Finds same result (meaning.among_all (seen found.now)
        (map (runs.value_in run.now tuple.now group.now) all.now)) }
{
    let mut truth = Truth::No;
    for one in all {
        let other = value(alloc, run, tuple, group, one)?;
        truth = or3(truth, compared(Comparison::Equal, found, &other));
    }
    Ok(truth)
}

/// IN.
#[inline(never)]
pub(crate) fn among<'a>(
    alloc: Global,
    run: &Run<'a>,
    tuple: &Tuple<'a>,
    group: &[Tuple<'a>],
    one: &'a TypedValue,
    all: &'a [TypedValue],
) -> Result<Truth, Failure>
    ensures { Finds same result (meaning.on_answer
        (runs.value_in run.now tuple.now group.now one.now)
        (λ x. meaning.among_all x (map (runs.value_in run.now tuple.now group.now) all.now))) }
{
    let one = value(alloc, run, tuple, group, one)?;
    among_these(alloc, run, tuple, group, &one, all)
}

/// LIKE.
#[inline(never)]
pub(crate) fn is_like<'a>(
    alloc: Global,
    run: &Run<'a>,
    tuple: &Tuple<'a>,
    group: &[Tuple<'a>],
    text: &'a TypedValue,
    pattern: &'a TypedValue,
    escape: &Option<Text>,
) -> Result<Truth, Failure>
    ensures { Finds same result (both (calls.like escape.now)
        (runs.value_in run.now tuple.now group.now text.now)
        (runs.value_in run.now tuple.now group.now pattern.now)) }
{
    let text = value(alloc, run, tuple, group, text)?;
    let pattern = value(alloc, run, tuple, group, pattern)?;
    like(alloc, escape, &text, &pattern)
}

/// IS NULL.
#[inline(never)]
pub(crate) fn is_null<'a>(
    alloc: Global,
    run: &Run<'a>,
    tuple: &Tuple<'a>,
    group: &[Tuple<'a>],
    one: &'a TypedValue,
) -> Result<Truth, Failure>
    ensures { Finds same result (under (λ x. truths.truth_of (data_.is_nothing x))
        (runs.value_in run.now tuple.now group.now one.now)) }
{
    let one = value(alloc, run, tuple, group, one)?;
    Ok(truth_of(one.is_nothing()))
}

/// MEMBER.
#[inline(never)]
pub(crate) fn member<'a>(
    alloc: Global,
    run: &Run<'a>,
    tuple: &Tuple<'a>,
    group: &[Tuple<'a>],
    one: &'a TypedValue,
    path: &TypedPath,
) -> Result<Truth, Failure>
    ensures { let members = runs.collection run.now tuple.now path.now in
        Finds same result (under (λ x. meaning.membership x members)
        (runs.value run.now one.now (runs.case tuple.now group.now))) }
{
    let one = value(alloc, run, tuple, group, one)?;
    is_member(alloc, run, tuple, &one, path)
}
