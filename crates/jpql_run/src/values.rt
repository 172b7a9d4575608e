//! What values give for a tuple, or a group of tuples.
ghost use Rattle.std.specs.Prelude.{◌≡◌, map, slice_index_or};
ghost use Rattle.jpql_meaning.specs.eval.Data as data_;
ghost use Rattle.jpql_meaning.specs.plan.Meaning as meaning;
ghost use Rattle.jpql_run.specs.Runs as runs;
ghost use Rattle.jpql_meaning.specs.eval.Finds.{Finds};
ghost use Rattle.jpql_meaning.specs.eval.Seen.{seen};

use crate::collections::size;
use crate::paths::path;
use crate::run::Run;
use crate::tuple::Tuple;
use jpql_meaning::eval::{
    Datum, Failure, Seen, aggregated, applied, arithmetic, seen_datum, signed,
};
use jpql_trees::tree::{Aggregate, Function};
use jpql_trees::typed::TypedValue;
use std::alloc::Global;

fn parameter<'a>(parameters: &'a [Datum], place: usize) -> Seen<'a>
    ensures { seen result ≡ slice_index_or parameters.now place data_.null }
{
    match parameters.get(place) {
        None => Seen::Null,
        Some(datum) => seen_datum(datum),
    }
}

/// What a value gives.
#[cycle(value)]
pub fn value<'a>(
    alloc: Global,
    run: &Run<'a>,
    tuple: &Tuple<'a>,
    group: &[Tuple<'a>],
    value: &'a TypedValue,
) -> Result<Seen<'a>, Failure>
    ensures { Finds seen result (runs.value run.now value.now (runs.case tuple.now group.now)) }
{
    match value {
        TypedValue::Integer(number) => Ok(Seen::Int(*number)),
        TypedValue::Text(text) => Ok(Seen::Text(text)),
        TypedValue::Parameter(place) => Ok(parameter(run.parameters, *place)),
        TypedValue::Path(steps) => Ok(path(run, tuple, steps)),
        TypedValue::Signed(sign, operand) => {
            signed(
                *sign,
                &self::value(alloc, run, tuple, group, operand.get())?,
            )
        }
        TypedValue::Arithmetic(operation, left, right) => {
            let left = self::value(alloc, run, tuple, group, left.get())?;
            let right = self::value(alloc, run, tuple, group, right.get())?;
            arithmetic(*operation, &left, &right)
        }
        TypedValue::Call(function, all) => {
            call(alloc, run, tuple, group, *function, all.as_slice())
        }
        TypedValue::Size(steps) => size(alloc, run, tuple, steps),
        TypedValue::Aggregate(aggregate, is_distinct, operand) => {
            over_group(alloc, run, group, *aggregate, *is_distinct, operand.get())
        }
    }
}

#[cycle(value)]
fn call<'a>(
    alloc: Global,
    run: &Run<'a>,
    tuple: &Tuple<'a>,
    group: &[Tuple<'a>],
    function: Function,
    all: &'a [TypedValue],
) -> Result<Seen<'a>, Failure>
    ensures { Finds seen result (meaning.call function
        (map (runs.value_in run.now tuple.now group.now) all.now)) }
{
    let mut found = Vec::with_capacity(alloc, all.len())?;
    for one in all {
        found.push(value(alloc, run, tuple, group, one)?)?;
    }
    applied(alloc, function, &found)
}

#[cycle(value)]
fn over_group<'a>(
    alloc: Global,
    run: &Run<'a>,
    group: &[Tuple<'a>],
    aggregate: Aggregate,
    is_distinct: bool,
    operand: &'a TypedValue,
) -> Result<Seen<'a>, Failure>
    ensures { Finds seen result (meaning.aggregate aggregate is_distinct
        (map (runs.value_alone run.now operand.now) group.now)) }
{
    let mut found = Vec::with_capacity(alloc, group.len())?;
    for other in group {
        found.push(value(alloc, run, other, &[], operand)?)?;
    }
    aggregated(alloc, aggregate, is_distinct, found)
}
