//! Of rows those that decide a comparison with all of them, where it goes by their order: of three
//! and more the others say nothing else (chapter 4.6.16).
ghost use Rattle.std.specs.Prelude.{◌≡◌, true, map, option_map, IfOk};
ghost use Rattle.jpql_meaning.specs.eval.Data as data_;
ghost use Rattle.jpql_meaning.specs.eval.Seen.{seen};
ghost use Rattle.jpql_meaning.specs.eval.Truths as truths;
ghost use Rattle.jpql_meaning.specs.declared.eval.datum.Datum.{Datum};
ghost use Rattle.jpql_run.specs.Ready as ready;

use jpql_meaning::eval::{Seen, order};
use jpql_trees::tree::Comparison;
use std::alloc::{AllocError, Global};

/// Whether a comparison goes by the order of values.
pub(crate) fn is_ordered(comparison: Comparison) -> bool
    ensures { result ≡ ready.is_ordered comparison }
{
    !matches!(comparison, Comparison::Equal | Comparison::Different)
}

/// The comparison that holds where this one doesn't.
pub(crate) fn opposite(comparison: Comparison) -> Comparison
    ensures { result ≡ ready.opposite comparison }
{
    match comparison {
        Comparison::Equal => Comparison::Different,
        Comparison::Different => Comparison::Equal,
        Comparison::Less => Comparison::AtLeast,
        Comparison::AtMost => Comparison::Greater,
        Comparison::Greater => Comparison::AtMost,
        Comparison::AtLeast => Comparison::Less,
    }
}

/// Whether each value that compares so with one row compares so with another, by their order.
fn reaches<'a>(comparison: Comparison, one: &Seen<'a>, other: &Seen<'a>) -> bool
    ensures { result ≡ ready.reaches comparison (seen one.now) (seen other.now) }
{
    match comparison {
        Comparison::Less | Comparison::AtMost => order(one, other).is_le(),
        Comparison::Greater | Comparison::AtLeast => order(other, one).is_le(),
        Comparison::Equal | Comparison::Different => false,
    }
}

/// Of the row that was the hardest to meet, if there was one, and another the harder one.
fn harder<'a>(comparison: Comparison, was: Option<Seen<'a>>, row: Seen<'a>) -> Seen<'a>
    ensures { seen result ≡ ready.harder comparison (option_map seen was.entry) (seen row.entry) }
{
    match was {
        None => row,
        Some(was) => {
            if reaches(comparison, &was, &row) {
                was
            } else {
                row
            }
        }
    }
}

/// A row, if there is one, and null, if there is one.
fn listed<'a>(
    alloc: Global,
    row: Option<Seen<'a>>,
    has_null: bool,
) -> Result<Vec<Seen<'a>>, AllocError>
    ensures { IfOk result (λ few. map seen few.items
        ≡ ready.few (option_map seen row.entry) has_null) }
{
    let mut few = Vec::new(alloc);
    if let Some(row) = row {
        few.push(row)?;
    }
    if has_null {
        few.push(Seen::Null)?;
    }
    Ok(few)
}

/// The hardest of rows, and null if one is null: a comparison with all of these holds, fails or is
/// unknown as with all rows. It fails for want of memory alone.
pub(crate) fn hardest<'a>(
    alloc: Global,
    comparison: Comparison,
    rows: Vec<Seen<'a>>,
) -> Result<Vec<Seen<'a>>, AllocError>
    requires { ready.is_ordered comparison ≡ true }
    ensures { IfOk result (λ few. (x : Datum) →
        truths.all3 (map (data_.compared comparison x) (map seen few.items))
        ≡ truths.all3 (map (data_.compared comparison x) (map seen rows.entry.items))) }
{
    let mut hard = None;
    let mut has_null = false;
    for row in rows {
        if row.is_nothing() {
            has_null = true;
        } else {
            hard = Some(harder(comparison, hard, row));
        }
    }
    listed(alloc, hard, has_null)
}
