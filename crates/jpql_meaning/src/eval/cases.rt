//! CASE, and the tests inside one, whose truth is a value (chapter 4.7.4).
ghost use Rattle.std.specs.Prelude.{◌≡◌, map, IfOk};
ghost use Rattle.jpql_meaning.specs.eval.Cases as cases;
ghost use Rattle.jpql_meaning.specs.eval.Seen.{seen};

use crate::eval::against::with_any;
use crate::eval::compare::compared;
use crate::eval::datum::Truth;
use crate::eval::seen::Seen;
use jpql_trees::tree::Comparison;
use std::alloc::{AllocError, Global};

/// A truth as a value.
pub(super) fn truth_value<'a>(truth: Truth) -> Seen<'a>
    ensures { seen result ≡ cases.truth_datum truth }
{
    match truth {
        Truth::Yes => Seen::Int(1),
        Truth::No => Seen::Int(0),
        Truth::Unknown => Seen::Null,
    }
}

/// The truth that a value is.
pub(super) fn truth_in<'a>(value: &Seen<'a>) -> Truth
    ensures { result ≡ cases.truth_in (seen value.now) }
{
    compared(Comparison::Equal, &Seen::Int(1), value)
}

/// Of WHENs with their THENs, and ELSE: the value behind the first that equals this one, else
/// ELSE's.
pub(super) fn matched<'a>(
    alloc: Global,
    value: &Seen<'a>,
    all: &[Seen<'a>],
) -> Result<Seen<'a>, AllocError>
    ensures { IfOk result (λ found. seen found
        ≡ cases.matched (seen value.now) (map seen all.now)) }
{
    let mut rest = all;
    loop {
        match rest {
            [] => return Ok(Seen::Null),
            [otherwise] => return otherwise.again(alloc),
            [one, found, more @ ..] => {
                if matches!(compared(Comparison::Equal, value, one), Truth::Yes) {
                    return found.again(alloc);
                }
                rest = more;
            }
        }
    }
}

/// CASE of a value, which comes first.
pub(super) fn chosen_of<'a>(alloc: Global, all: &[Seen<'a>]) -> Result<Seen<'a>, AllocError>
    ensures { IfOk result (λ found. seen found ≡ cases.chosen_of (map seen all.now)) }
{
    match all {
        [] => Ok(Seen::Null),
        [value, more @ ..] => matched(alloc, value, more),
    }
}

/// IN of the first and the others.
pub(super) fn is_among<'a>(all: &[Seen<'a>]) -> Seen<'a>
    ensures { seen result ≡ cases.is_among (map seen all.now) }
{
    match all {
        [] => Seen::Null,
        [value, more @ ..] => truth_value(with_any(Comparison::Equal, value, more)),
    }
}
