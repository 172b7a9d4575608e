//! Comparisons of a path with what is the same for all tuples (chapter 4.6.7): where nothing in
//! WHERE can overflow, tuples that don't pass one are left out before all of it is asked.
ghost use Rattle.std.specs.Prelude.{◌≡◌, IfSome};
ghost use Rattle.std.specs.List.{filter};
ghost use Rattle.jpql_run.specs.Bounds as bounds;
ghost use Rattle.jpql_run.specs.Bounds.{IsBoundOf, KeepsOf, Narrows, NarrowsBy};

use crate::calm::is_calm;
use crate::known::constant;
use crate::paths::path;
use crate::run::Run;
use crate::tuple::Tuple;
use jpa_value::Boxed;
use jpql_meaning::eval::{Seen, is_true};
use jpql_trees::tree::Comparison;
use jpql_trees::typed::{TypedCondition, TypedPath, TypedValue};

/// A comparison of what a path leads to with a value that is the same for all tuples.
#[derive(Drop)]
struct Bound<'a> {
    comparison: Comparison,
    path: &'a TypedPath,
    other: Seen<'a>,
}

/// Of some tuples those that may pass a condition.
#[derive(Drop)]
pub(crate) struct Narrowed<'a> {
    pub(crate) tuples: Vec<Tuple<'a>>,
    /// Whether they do pass it.
    pub(crate) is_whole: bool,
}

/// A comparison as a bound, where it is one.
fn bound_of<'a>(
    run: &Run<'a>,
    comparison: Comparison,
    left: &'a TypedValue,
    right: &'a TypedValue,
) -> Option<Bound<'a>>
    ensures { IfSome result (IsBoundOf run.now comparison left.now right.now) }
{
    match left {
        TypedValue::Path(path) => match constant(run, right) {
            Some(other) => Some(Bound {
                comparison,
                path,
                other,
            }),
            None => None,
        },
        _ => None,
    }
}

/// Whether a tuple passes a bound.
fn passes<'a>(run: &Run<'a>, bound: &Bound<'a>, tuple: &Tuple<'a>) -> bool
    ensures { result ≡ bounds.passes run.now bound.now tuple.now }
{
    let datum = path(run, tuple, bound.path);
    is_true(bound.comparison, &datum, &bound.other)
}

/// The tuples that pass it.
fn passing<'a>(run: &Run<'a>, bound: &Bound<'a>, tuples: Vec<Tuple<'a>>) -> Vec<Tuple<'a>>
    ensures { result.items ≡ filter (bounds.passes run.now bound.now) tuples.entry.items }
{
    let mut left = tuples;
    left.retain(|tuple| passes(run, bound, tuple));
    left
}

/// Of some tuples those that may pass a comparison.
fn narrow_by<'a>(
    run: &Run<'a>,
    tuples: Vec<Tuple<'a>>,
    comparison: Comparison,
    left: &'a TypedValue,
    right: &'a TypedValue,
) -> Narrowed<'a>
    ensures { NarrowsBy run.now comparison left.now right.now tuples.entry.items
        result.tuples.items result.is_whole }
{
    match bound_of(run, comparison, left, right) {
        Some(bound) => Narrowed {
            tuples: passing(run, &bound, tuples),
            is_whole: true,
        },
        None => Narrowed {
            tuples,
            is_whole: false,
        },
    }
}

/// Of some tuples those that may pass a condition, by the comparisons under its ANDs.
fn narrow_in<'a>(
    run: &Run<'a>,
    tuples: Vec<Tuple<'a>>,
    condition: &'a TypedCondition,
) -> Narrowed<'a>
    ensures { Narrows run.now condition.now tuples.entry.items result.tuples.items
        result.is_whole }
{
    match condition {
        TypedCondition::And(left, right) => {
            let first = narrow_in(run, tuples, left.get());
            let second = narrow_in(run, first.tuples, right.get());
            Narrowed {
                tuples: second.tuples,
                is_whole: first.is_whole && second.is_whole,
            }
        }
        TypedCondition::Compare(comparison, left, right) => {
            narrow_by(run, tuples, *comparison, left, right)
        }
        _ => Narrowed {
            tuples,
            is_whole: false,
        },
    }
}

/// Tuples of which a condition keeps what it keeps of these. All, where something in it can
/// overflow: that of a tuple which is left out would be the whole's.
pub(crate) fn narrow<'a>(
    run: &Run<'a>,
    tuples: Vec<Tuple<'a>>,
    filter: &'a Option<Boxed<TypedCondition>>,
) -> Narrowed<'a>
    ensures { KeepsOf run.now filter.now tuples.entry.items result.tuples.items result.is_whole }
{
    match filter {
        None => Narrowed {
            tuples,
            is_whole: true,
        },
        Some(condition) => {
            let condition = condition.get();
            if is_calm(condition) {
                narrow_in(run, tuples, condition)
            } else {
                Narrowed {
                    tuples,
                    is_whole: false,
                }
            }
        }
    }
}
