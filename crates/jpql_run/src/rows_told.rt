//! The rows of a nested block that are the same for all tuples, as they are asked for each.
ghost use Rattle.std.specs.Prelude.{◌≡◌, map, IfOk};
ghost use Rattle.jpql_trees.specs.declared.tree.Comparison.{Comparison};
ghost use Rattle.jpql_meaning.specs.eval.Data as data_;
ghost use Rattle.jpql_meaning.specs.eval.Seen.{seen};
ghost use Rattle.jpql_meaning.specs.eval.Truths as truths;
ghost use Rattle.jpql_meaning.specs.declared.eval.datum.Datum.{Datum};
ghost use Rattle.jpql_run.specs.Ready.{IsTold, asked};

use crate::hardest::{hardest, is_ordered, opposite};
use crate::row_index::RowIndex;
use jpql_meaning::eval::{Failure, Seen, Truth, aggregated, compared, not3, with_all, with_any};
use jpql_trees::tree::{Against, Comparison};
use std::alloc::{AllocError, Global};

/// Rows that were computed, or what an aggregate gives of them.
#[derive(Drop)]
pub(crate) enum Told<'a> {
    /// `= ANY` of them, as IN asks.
    Among(RowIndex<'a>),
    /// `<> ALL` of them.
    Outside(RowIndex<'a>),
    /// Another comparison with any of them, or of those that decide it.
    Any(Vec<Seen<'a>>),
    /// Another comparison with all of them, or of those that decide it.
    All(Vec<Seen<'a>>),
    /// A comparison with what an aggregate gives.
    One(Seen<'a>),
}

/// Rows as they are asked by a comparison with any of them. It fails for want of memory alone.
fn told_of_any<'a>(
    alloc: Global,
    comparison: Comparison,
    rows: Vec<Seen<'a>>,
) -> Result<Told<'a>, AllocError>
    ensures { IfOk result (λ told. (x : Datum) →
        truths.any3 (map (data_.compared comparison x) (map seen rows.entry.items))
        ≡ asked told comparison x) }
{
    if matches!(comparison, Comparison::Equal) {
        return Ok(Told::Among(RowIndex::of(alloc, rows)?));
    }
    if !is_ordered(comparison) {
        return Ok(Told::Any(rows));
    }
    Ok(Told::Any(hardest(alloc, opposite(comparison), rows)?))
}

/// Rows as they are asked by another comparison with all of them. It fails for want of memory alone.
fn told_by_all<'a>(
    alloc: Global,
    comparison: Comparison,
    rows: Vec<Seen<'a>>,
) -> Result<Told<'a>, AllocError>
    ensures { IfOk result (λ told. (x : Datum) →
        truths.all3 (map (data_.compared comparison x) (map seen rows.entry.items))
        ≡ asked told comparison x) }
{
    if !is_ordered(comparison) {
        return Ok(Told::All(rows));
    }
    Ok(Told::All(hardest(alloc, comparison, rows)?))
}

/// Rows as they are asked by `<> ALL`. It fails for want of memory alone.
fn told_outside<'a>(alloc: Global, rows: Vec<Seen<'a>>) -> Result<Told<'a>, AllocError>
    ensures { IfOk result (λ told. (x : Datum) →
        truths.all3 (map (data_.compared Comparison.Different x) (map seen rows.entry.items))
        ≡ asked told Comparison.Different x) }
{
    Ok(Told::Outside(RowIndex::of(alloc, rows)?))
}

/// Rows as they are asked by a comparison with all of them. It fails for want of memory alone.
fn told_of_all<'a>(
    alloc: Global,
    comparison: Comparison,
    rows: Vec<Seen<'a>>,
) -> Result<Told<'a>, AllocError>
    ensures { IfOk result (λ told. (x : Datum) →
        truths.all3 (map (data_.compared comparison x) (map seen rows.entry.items))
        ≡ asked told comparison x) }
{
    match comparison {
        Comparison::Different => told_outside(alloc, rows),
        _ => told_by_all(alloc, comparison, rows),
    }
}

/// Rows as they are asked by such a comparison. `Overflow` where the exact total of a SUM is outside
/// 64 bits; `Memory` where a growth was refused.
pub(crate) fn told_of<'a>(
    alloc: Global,
    against: Against,
    comparison: Comparison,
    rows: Vec<Seen<'a>>,
) -> Result<Told<'a>, Failure>
    ensures { IsTold against comparison (map seen rows.entry.items) result }
{
    match against {
        Against::Any => Ok(told_of_any(alloc, comparison, rows)?),
        Against::All => Ok(told_of_all(alloc, comparison, rows)?),
        Against::One(aggregate, is_distinct) => {
            Ok(Told::One(aggregated(alloc, aggregate, is_distinct, rows)?))
        }
    }
}

/// Whether a comparison holds between a value and what was told. Takes no memory.
pub(crate) fn beside<'a>(told: &Told<'a>, comparison: Comparison, value: &Seen<'a>) -> Truth
    ensures { result ≡ asked told.now comparison (seen value.now) }
{
    match told {
        Told::Among(index) => index.among(value),
        Told::Outside(index) => not3(index.among(value)),
        Told::Any(rows) => with_any(comparison, value, rows),
        Told::All(rows) => with_all(comparison, value, rows),
        Told::One(one) => compared(comparison, value, one),
    }
}
