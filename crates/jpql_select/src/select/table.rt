//! The table of a SELECT.
ghost use Rattle.std.specs.Prelude.{◌≡◌, IfOk};
ghost use Rattle.jpql_select.specs.select.Rows as rows_;
ghost use Rattle.jpql_select.specs.select.Tables.{rows_in, items_in};

use crate::select::distinct::distinct;
use crate::select::order::in_order;
use crate::select::row::Row;
use jpql_meaning::eval::Seen;
use jpql_trees::typed::TypedKey;
use std::alloc::{AllocError, Global};

/// The rows that a SELECT gives, each with what its items give.
pub type Table<'a> = Vec<Vec<Seen<'a>>>;

/// The items of rows, which are moved; fails for want of memory alone.
pub fn table_of<'a>(alloc: Global, rows: Vec<Row<'a>>) -> Result<Table<'a>, AllocError>
    ensures { IfOk result (λ table. rows_in table ≡ items_in rows.entry.items) }
{
    let mut table = Vec::with_capacity(alloc, rows.len())?;
    for row in rows {
        table.push(row.items)?;
    }
    Ok(table)
}

/// Rows in the order of their keys (chapter 4.10), without those of an earlier row where DISTINCT
/// is written (chapter 4.9): the first of the rows that are the same is kept, null as null, nulls
/// come first, and rows that tie stay in their order.
///
/// Fails for want of memory alone.
pub fn ordered<'a>(
    alloc: Global,
    keys: &[TypedKey],
    is_distinct: bool,
    rows: Vec<Row<'a>>,
) -> Result<Table<'a>, AllocError>
    ensures { IfOk result (λ table. rows_in table
        ≡ rows_.ordered keys.now is_distinct rows.entry.items) }
{
    let left = distinct(alloc, is_distinct, rows)?;
    let sorted = in_order(keys, left)?;
    table_of(alloc, sorted)
}
