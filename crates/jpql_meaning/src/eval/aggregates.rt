//! Aggregates (chapter 4.9.5): nulls are left out, and with DISTINCT what came before.
ghost use Rattle.std.specs.Prelude.{◌≡◌, ◌^◌, ◌≤ℤ◌, pos, neg_ℤ, map, not, unwrap_or, IfOk};
ghost use Rattle.std.specs.List.{filter};
ghost use Rattle.jpql_meaning.specs.eval.Aggregates as aggregates;
ghost use Rattle.jpql_meaning.specs.eval.Calls as calls;
ghost use Rattle.jpql_meaning.specs.eval.Data as data_;
ghost use Rattle.jpql_meaning.specs.eval.Finds.{Finds};
ghost use Rattle.jpql_meaning.specs.eval.Seen.{seen};

use crate::eval::compare::{holds, order};
use crate::eval::failure::Failure;
use crate::eval::seen::Seen;
use jpql_trees::tree::{Aggregate, Comparison};
use std::alloc::{AllocError, Global};
use std::collections::BTreeSet;

/// Those that aren't null.
fn there<'a>(all: Vec<Seen<'a>>) -> Vec<Seen<'a>>
    ensures { map seen result.items
        ≡ filter (λ a. not (data_.is_nothing a)) (map seen all.entry.items) }
{
    let mut found = all;
    found.retain(|one| !one.is_nothing());
    found
}

/// Without those that are the same as one before.
fn once<'a>(alloc: Global, all: &[Seen<'a>]) -> Result<Vec<Seen<'a>>, AllocError>
    ensures { IfOk result (λ kept. map seen kept.items
        ≡ aggregates.once data_.same_datum (map seen all.now)) }
{
    let mut met = BTreeSet::new(alloc);
    let mut kept = Vec::new(alloc);
    for one in all {
        if met.insert(one.again(alloc)?)? {
            kept.push(one.again(alloc)?)?;
        }
    }
    Ok(kept)
}

fn counted<'a>(
    alloc: Global,
    is_distinct: bool,
    all: Vec<Seen<'a>>,
) -> Result<Vec<Seen<'a>>, AllocError>
    ensures { IfOk result (λ found. map seen found.items
        ≡ aggregates.counted is_distinct (map seen all.entry.items)) }
{
    let found = there(all);
    if is_distinct {
        once(alloc, &found)
    } else {
        Ok(found)
    }
}

/// What one adds to a total.
fn addend<'a>(one: &Seen<'a>) -> i128
    ensures value { result ≡ unwrap_or (calls.integer_in (seen one.now)) (pos 0) }
    ensures least { neg_ℤ (pos (2 ^ 63)) ≤ℤ result }
    ensures most { result ≤ℤ pos (2 ^ 63) }
{
    match one.number() {
        None => 0,
        Some(number) => i128::from(number),
    }
}

/// The exact total.
fn total<'a>(all: &[Seen<'a>]) -> i128
    ensures { result ≡ aggregates.total (map seen all.now) }
{
    let mut total = 0i128;
    for one in all {
        total += addend(one);
    }
    total
}

fn sum<'a>(all: &[Seen<'a>]) -> Result<Seen<'a>, Failure>
    ensures { Finds seen result (aggregates.sum (map seen all.now)) }
{
    if all.is_empty() {
        return Ok(Seen::Null);
    }
    match i64::try_from(total(all)) {
        Ok(number) => Ok(Seen::Int(number)),
        Err(_) => Err(Failure::Overflow),
    }
}

/// The one that comes first by a comparison.
fn best<'a>(alloc: Global, comparison: Comparison, all: &[Seen<'a>]) -> Result<Seen<'a>, AllocError>
    ensures { IfOk result (λ found. seen found ≡ aggregates.best comparison (map seen all.now)) }
{
    let [first, others @ ..] = all else {
        return Ok(Seen::Null);
    };
    let mut best = first;
    for one in others {
        if holds(comparison, false, order(one, best)) {
            best = one;
        }
    }
    best.again(alloc)
}

/// An aggregate of what an expression gives for each tuple of a group. COUNT of nothing is 0, the
/// others are null.
///
/// `Overflow` where the exact total of a SUM is outside 64 bits; `Memory` where a growth was
/// refused.
pub fn aggregated<'a>(
    alloc: Global,
    aggregate: Aggregate,
    is_distinct: bool,
    all: Vec<Seen<'a>>,
) -> Result<Seen<'a>, Failure>
    ensures { Finds seen result (aggregates.aggregated aggregate
        (aggregates.counted is_distinct (map seen all.entry.items))) }
{
    let all = counted(alloc, is_distinct, all)?;
    match aggregate {
        Aggregate::Count => Ok(Seen::Int(all.len() as i64)),
        Aggregate::Sum => sum(&all),
        Aggregate::Min => Ok(best(alloc, Comparison::Less, &all)?),
        Aggregate::Max => Ok(best(alloc, Comparison::Greater, &all)?),
    }
}
