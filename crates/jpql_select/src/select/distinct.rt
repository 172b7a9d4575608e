//! DISTINCT (chapter 4.9): of the rows that are the same the first is kept.
ghost use Rattle.std.specs.Prelude.{◌≡◌, IfOk};
ghost use Rattle.jpql_meaning.specs.eval.Aggregates as aggregates;
ghost use Rattle.jpql_meaning.specs.plan.Laws.{is_same_row};
ghost use Rattle.jpql_select.specs.select.Rows as rows_;

use crate::select::key::key_of;
use crate::select::row::Row;
use std::alloc::{AllocError, Global};
use std::collections::BTreeSet;

/// The first of the rows that are the same.
fn once<'a>(alloc: Global, rows: Vec<Row<'a>>) -> Result<Vec<Row<'a>>, AllocError>
    ensures { IfOk result (λ kept. kept.items ≡ aggregates.once is_same_row rows.entry.items) }
{
    let mut met = BTreeSet::new(alloc);
    let mut kept = Vec::new(alloc);
    for row in rows {
        if met.insert(key_of(alloc, &row.items)?)? {
            kept.push(row)?;
        } else {
            drop(row);
        }
    }
    Ok(kept)
}

/// DISTINCT, where it is written.
pub(super) fn distinct<'a>(
    alloc: Global,
    is_distinct: bool,
    rows: Vec<Row<'a>>,
) -> Result<Vec<Row<'a>>, AllocError>
    ensures { IfOk result (λ kept. kept.items ≡ rows_.distinct is_distinct rows.entry.items) }
{
    if is_distinct {
        once(alloc, rows)
    } else {
        Ok(rows)
    }
}
