//! A value compared with the rows of a subquery (chapters 4.6.9, 4.6.15 and 4.6.16).
ghost use Rattle.std.specs.Prelude.{◌≡◌, map};
ghost use Rattle.jpql_meaning.specs.eval.Data as data_;
ghost use Rattle.jpql_meaning.specs.eval.Finds.{Finds, same};
ghost use Rattle.jpql_meaning.specs.eval.Judged as judged_;
ghost use Rattle.jpql_meaning.specs.eval.Seen.{seen};
ghost use Rattle.jpql_meaning.specs.eval.Truths as truths;

use crate::eval::aggregates::aggregated;
use crate::eval::compare::compared;
use crate::eval::datum::Truth;
use crate::eval::failure::Failure;
use crate::eval::seen::Seen;
use crate::eval::truths::{and3, or3};
use jpql_trees::tree::{Against, Comparison};
use std::alloc::Global;

/// Whether a comparison holds with any of rows; with any of none it is false. It takes no memory.
#[tactic(auto, using(crate::proofs::eval::Logic::or3_then, crate::proofs::eval::Logic::or3_no))]
pub fn with_any<'a>(comparison: Comparison, value: &Seen<'a>, rows: &[Seen<'a>]) -> Truth
    ensures { result ≡ truths.any3 (map (data_.compared comparison (seen value.now))
        (map seen rows.now)) }
{
    let mut truth = Truth::No;
    for row in rows {
        truth = or3(truth, compared(comparison, value, row));
        if matches!(truth, Truth::Yes) {
            return Truth::Yes;
        }
    }
    truth
}

/// Whether a comparison holds with all of rows; with all of none it is true. It takes no memory.
#[tactic(auto, using(crate::proofs::eval::Logic::and3_then, crate::proofs::eval::Logic::and3_yes))]
pub fn with_all<'a>(comparison: Comparison, value: &Seen<'a>, rows: &[Seen<'a>]) -> Truth
    ensures { result ≡ truths.all3 (map (data_.compared comparison (seen value.now))
        (map seen rows.now)) }
{
    let mut truth = Truth::Yes;
    for row in rows {
        truth = and3(truth, compared(comparison, value, row));
        if matches!(truth, Truth::No) {
            return Truth::No;
        }
    }
    truth
}

/// Whether a comparison holds with any of the rows of a subquery, with all of them, or with what an
/// aggregate gives of them. With any of no rows it is false, and with all of none true.
///
/// `Overflow` where the exact total of a SUM is outside 64 bits; `Memory` where a growth was
/// refused.
pub fn judged<'a>(
    alloc: Global,
    against: Against,
    comparison: Comparison,
    value: &Seen<'a>,
    rows: Vec<Seen<'a>>,
) -> Result<Truth, Failure>
    ensures { Finds same result (judged_.judged against comparison (seen value.now)
        (map seen rows.entry.items)) }
{
    match against {
        Against::Any => Ok(with_any(comparison, value, &rows)),
        Against::All => Ok(with_all(comparison, value, &rows)),
        Against::One(aggregate, is_distinct) => {
            let found = aggregated(alloc, aggregate, is_distinct, rows)?;
            Ok(compared(comparison, value, &found))
        }
    }
}
