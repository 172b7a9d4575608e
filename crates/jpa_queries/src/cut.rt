//! The rows of a SELECT that are asked, kept.
ghost use Rattle.std.specs.Prelude.{◌≡◌, ◌<◌, ◌^◌, drop, take, IfOk, IfErr, IfSome, List};
ghost use Rattle.jpa_value.specs.declared.refusal.Cause.{Cause};
ghost use Rattle.jpa_queries.specs.Queries as queries;
ghost use Rattle.jpql_meaning.specs.declared.eval.datum.Datum.{Datum};
ghost use Rattle.jpql_select.specs.first.First.{first_of};
ghost use Rattle.jpql_select.specs.select.Tables.{rows_in};

use jpa_value::{Cause, Seq, TryCopy};
use jpql_meaning::eval::Datum;
use jpql_select::select::{Table, rows_of};
use std::alloc::Global;

/// Whether a number of rows, where one is asked, isn't negative.
pub(crate) fn is_count(number: Option<i64>) -> bool
    ensures { result ≡ queries.is_count number }
{
    match number {
        None => true,
        Some(number) => number >= 0,
    }
}

/// How many rows are skipped.
fn skips(first: Option<i64>) -> usize
    ensures rows { (rows : List (List Datum)) → queries.skipped first rows ≡ drop result rows }
    ensures below { result < 2 ^ 63 }
{
    match first {
        Some(first) if first > 0 => first as usize,
        _ => 0,
    }
}

/// How many rows are kept at most, where a number is asked.
fn keeps(max: Option<i64>) -> Option<usize>
    ensures rows { IfSome result (λ count.
        (rows : List (List Datum)) → queries.limited max rows ≡ take count rows) }
    ensures below { IfSome result (λ count. count < 2 ^ 63) }
{
    match max {
        Some(max) if max >= 0 => Some(max as usize),
        _ => None,
    }
}

/// How many of the first rows are enough for those that are asked; all, where no number is.
pub(crate) fn wanted(first: Option<i64>, max: Option<i64>) -> Option<usize>
    ensures { (rows : List (List Datum)) →
        queries.cut first max (first_of result rows) ≡ queries.cut first max rows }
{
    match keeps(max) {
        Some(kept) => Some(skips(first) + kept),
        None => None,
    }
}

/// Rows without the first so many.
fn without<T: Drop>(count: usize, rows: Vec<T>) -> Vec<T>
    ensures { result.items ≡ drop count rows.items }
{
    let mut left = rows;
    let count = count.min(left.len());
    left.rotate_left(count);
    left.truncate(left.len() - count);
    left
}

/// Rows without the first ones.
fn skipped<T: Drop>(first: Option<i64>, rows: Vec<T>) -> Vec<T>
    ensures { result.items ≡ queries.skipped first rows.items }
{
    match first {
        Some(first) if first > 0 => without(first as usize, rows),
        _ => rows,
    }
}

/// At most so many rows.
fn limited<T: Drop>(max: Option<i64>, rows: Vec<T>) -> Vec<T>
    ensures { result.items ≡ queries.limited max rows.items }
{
    let mut left = rows;
    match max {
        Some(max) if max >= 0 => left.truncate(max as usize),
        _ => (),
    }
    left
}

/// The rows of a table without the first ones, and at most so many (Jakarta Persistence 3.1,
/// chapter 3.10.3), as rows of their own. Fails for want of memory alone, with `OutOfMemory`.
pub(crate) fn cut(
    alloc: Global,
    first: Option<i64>,
    max: Option<i64>,
    table: Table<'_>,
) -> Result<Seq<Seq<Datum>>, Cause>
    ensures ok { IfOk result (λ rows. rows ≡ queries.cut first max (rows_in table.entry)) }
    ensures err { IfErr result (λ cause. cause ≡ Cause.OutOfMemory) }
{
    rows_of(alloc, limited(max, skipped(first, table)))
}
