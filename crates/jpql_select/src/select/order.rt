//! ORDER BY (chapter 4.10): nulls come first, DESC turns a key round, and rows that tie stay in
//! their order.
ghost use Rattle.std.specs.Prelude.{◌≡◌, ◌∷◌, [], map, IfOk};
ghost use Rattle.jpql_meaning.specs.eval.Seen.{seen};
ghost use Rattle.jpql_meaning.specs.plan.Selection as selection;
ghost use Rattle.jpql_select.specs.select.Sortings.{sorting_data};

use crate::select::row::{Row, Sorting};
use jpql_meaning::eval::{Seen, order};
use jpql_trees::typed::TypedKey;
use std::alloc::AllocError;
use std::cmp::Ordering;

/// By one key.
fn by_key<'a>(is_descending: bool, left: &Seen<'a>, right: &Seen<'a>) -> Ordering
    ensures { result ≡ selection.by_key is_descending (seen left.now) (seen right.now) }
{
    if is_descending {
        order(right, left)
    } else {
        order(left, right)
    }
}

/// By the first of these; of none it is null.
fn by_first<'a>(is_descending: bool, left: &[Seen<'a>], right: &[Seen<'a>]) -> Ordering
    ensures { result ≡ selection.by_key is_descending (selection.first (map seen left.now))
        (selection.first (map seen right.now)) }
{
    match (left, right) {
        ([], []) => by_key(is_descending, &Seen::Null, &Seen::Null),
        ([], [right, ..]) => by_key(is_descending, &Seen::Null, right),
        ([left, ..], []) => by_key(is_descending, left, &Seen::Null),
        ([left, ..], [right, ..]) => by_key(is_descending, left, right),
    }
}

/// Those after the first.
fn rest<'s, 'a>(data: &'s [Seen<'a>]) -> &'s [Seen<'a>]
    ensures { map seen result.now ≡ selection.rest (map seen data.now) }
{
    match data {
        [] => &[],
        [_, rest @ ..] => rest,
    }
}

/// Key by key.
fn by_keys<'a>(keys: &[TypedKey], left: &[Seen<'a>], right: &[Seen<'a>]) -> Ordering
    ensures { result ≡ selection.keys_cmp keys.now (map seen left.now) (map seen right.now) }
{
    let [key, others @ ..] = keys else {
        return Ordering::Equal;
    };
    match by_first(key.is_descending, left, right) {
        Ordering::Equal => by_keys(others, rest(left), rest(right)),
        order => order,
    }
}

/// By one datum each.
fn by_one<'a>(keys: &[TypedKey], left: &Seen<'a>, right: &Seen<'a>) -> Ordering
    ensures { result
        ≡ selection.keys_cmp keys.now (seen left.now ∷ []) (seen right.now ∷ []) }
{
    match keys {
        [key] => match by_key(key.is_descending, left, right) {
            Ordering::Equal => Ordering::Equal,
            order => order,
        },
        _ => by_keys(
            keys,
            std::slice::from_ref(left),
            std::slice::from_ref(right),
        ),
    }
}

/// What a row is ordered by, as a list.
fn data_of<'s, 'a>(sorting: &'s Sorting<'a>) -> &'s [Seen<'a>]
    ensures { map seen result.now ≡ sorting_data sorting.now }
{
    match sorting {
        Sorting::One(datum) => std::slice::from_ref(datum),
        Sorting::Several(data) => data.as_slice(),
    }
}

/// The order of two rows by what they are ordered by (chapter 4.10): nulls come first, and DESC
/// turns a key round.
pub fn by_sorting<'a>(keys: &[TypedKey], left: &Sorting<'a>, right: &Sorting<'a>) -> Ordering
    ensures { result
        ≡ selection.keys_cmp keys.now (sorting_data left.now) (sorting_data right.now) }
{
    match (left, right) {
        (Sorting::One(left), Sorting::One(right)) => by_one(keys, left, right),
        (left, right) => by_keys(keys, data_of(left), data_of(right)),
    }
}

/// The rows in the order of their keys.
pub(super) fn in_order<'a>(
    keys: &[TypedKey],
    rows: Vec<Row<'a>>,
) -> Result<Vec<Row<'a>>, AllocError>
    ensures { IfOk result (λ sorted. sorted.items
        ≡ selection.in_order keys.now rows.entry.items) }
{
    let mut sorted = rows;
    sorted.sort_by(|left, right| by_sorting(keys, &left.keys, &right.keys))?;
    Ok(sorted)
}
