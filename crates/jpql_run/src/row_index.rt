//! Rows of a nested block by what is printed of them: whether a value is one of them is told
//! without a look at each.
ghost use Rattle.std.specs.Prelude.{◌≡◌, ◌++◌, ◌∷◌, ℕ, [], map, nat_eq, if◌then◌else◌, IfOk, OnOk};
ghost use Rattle.std.specs.List.{filter, list_any};
ghost use Rattle.indexmap.specs.IndexMap.{get};
ghost use Rattle.jpql_meaning.specs.eval.Data as data_;
ghost use Rattle.jpql_meaning.specs.eval.Seen.{seen};
ghost use Rattle.jpql_meaning.specs.declared.eval.datum.Datum.{Datum};
ghost use Rattle.jpql_meaning.specs.plan.Meaning as meaning;
ghost use Rattle.jpql_run.specs.Ready.{among_rows, has_row, is_printed_as, rows_under};

use crate::prints::print;
use indexmap::IndexMap;
use jpql_meaning::eval::{Seen, Truth, is_same};
use std::alloc::{AllocError, Global};

/// Rows by what is printed of them, and whether there are any and a null among them.
#[derive(Drop)]
pub(crate) struct RowIndex<'a> {
    under: IndexMap<u64, Vec<Seen<'a>>>,
    is_any: bool,
    has_null: bool,
}

/// One more row, behind those that are printed the same.
fn put<'a>(
    alloc: Global,
    under: &mut IndexMap<u64, Vec<Seen<'a>>>,
    print: u64,
    row: Seen<'a>,
) -> Result<(), AllocError>
    ensures { OnOk result ((p : ℕ) → rows_under (get nat_eq under.new p)
        ≡ (if nat_eq p print then rows_under (get nat_eq under.old p) ++ seen row.entry ∷ []
        else rows_under (get nat_eq under.old p))) }
{
    if let Some(found) = under.get_mut(&print) {
        found.push(row)?;
        return Ok(());
    }
    let mut found = Vec::new(alloc);
    found.push(row)?;
    match under.insert(print, found) {
        Ok(_) => Ok(()),
        Err(_) => Err(AllocError),
    }
}

/// Rows by what is printed of them. It fails for want of memory alone.
fn by_print<'a>(
    alloc: Global,
    rows: Vec<Seen<'a>>,
) -> Result<IndexMap<u64, Vec<Seen<'a>>>, AllocError>
    ensures { IfOk result (λ under. (p : ℕ) → rows_under (get nat_eq under p)
        ≡ filter (is_printed_as p) (map seen rows.entry.items)) }
{
    let mut under = IndexMap::new(alloc);
    for row in rows {
        let print = print(&row);
        put(alloc, &mut under, print, row)?;
    }
    Ok(under)
}

/// Whether there is a row.
fn is_any(rows: &[Seen<'_>]) -> bool
    ensures { result ≡ meaning.is_any (map seen rows.now) }
{
    !matches!(rows, [])
}

/// Whether one of some rows is null.
fn any_nothing(rows: &[Seen<'_>]) -> bool
    ensures { result ≡ list_any data_.is_nothing (map seen rows.now) }
{
    for row in rows {
        if row.is_nothing() {
            return true;
        }
    }
    false
}

/// Whether one of some rows is the same as a value.
fn any_same<'a>(value: &Seen<'a>, rows: &[Seen<'a>]) -> bool
    ensures { result ≡ list_any (data_.same_datum (seen value.now)) (map seen rows.now) }
{
    for row in rows {
        if is_same(value, row) {
            return true;
        }
    }
    false
}

impl<'a> RowIndex<'a> {
    /// The index of these rows. It fails for want of memory alone.
    pub(crate) fn of(alloc: Global, rows: Vec<Seen<'a>>) -> Result<RowIndex<'a>, AllocError>
        ensures { IfOk result (λ index. (x : Datum) →
            among_rows index x ≡ data_.among x (map seen rows.entry.items)) }
    {
        let is_any = is_any(&rows);
        let has_null = any_nothing(&rows);
        let under = by_print(alloc, rows)?;
        Ok(RowIndex {
            under,
            is_any,
            has_null,
        })
    }

    /// Whether a value is the same as a row.
    fn has(&self, value: &Seen<'a>) -> bool
        ensures { result ≡ has_row self.now (seen value.now) }
    {
        match self.under.get(&print(value)) {
            None => false,
            Some(found) => any_same(value, found.as_slice()),
        }
    }

    /// Whether a value is one of the rows: beside a null unknown, where it is no other one. Takes
    /// no memory.
    pub(crate) fn among(&self, value: &Seen<'a>) -> Truth
        ensures { result ≡ among_rows self.now (seen value.now) }
    {
        if value.is_nothing() {
            return if self.is_any {
                Truth::Unknown
            } else {
                Truth::No
            };
        }
        if self.has(value) {
            return Truth::Yes;
        }
        if self.has_null {
            Truth::Unknown
        } else {
            Truth::No
        }
    }
}
