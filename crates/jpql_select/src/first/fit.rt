//! Statements of which any row may be left out.
ghost use Rattle.std.specs.Prelude.{◌≡◌, true, All};
ghost use Rattle.jpql_run.specs.Keys.{NeverOverflows};
ghost use Rattle.jpql_select.specs.first.First.{GoesByTuple, IsFit};

use crate::select::is_grouping;
use jpql_trees::typed::{TypedKey, TypedSelect, TypedSorted, TypedValue};

/// Whether an item is a constant, a parameter or a path.
fn is_plain(item: &TypedValue) -> bool
    ensures { result ≡ true → NeverOverflows item.now }
{
    matches!(
        item,
        TypedValue::Integer(_)
            | TypedValue::Text(_)
            | TypedValue::Parameter(_)
            | TypedValue::Path(_)
    )
}

fn are_plain(items: &[TypedValue]) -> bool
    ensures { result ≡ true → All NeverOverflows items.now }
{
    for item in items {
        if !is_plain(item) {
            return false;
        }
    }
    true
}

/// Whether a key of ORDER BY is a path.
fn is_path(key: &TypedKey) -> bool
    ensures { result ≡ true → GoesByTuple key.now }
{
    matches!(key.by, TypedSorted::Path(_))
}

fn are_paths(keys: &[TypedKey]) -> bool
    ensures { result ≡ true → All GoesByTuple keys.now }
{
    for key in keys {
        if !is_path(key) {
            return false;
        }
    }
    true
}

/// Whether a statement is seen to be one: without DISTINCT and groups, with items and keys of ORDER
/// BY that are paths, or items that are constants or parameters.
pub(super) fn is_fit(statement: &TypedSelect) -> bool
    ensures { result ≡ true → IsFit statement.now }
{
    if statement.is_distinct || is_grouping(statement) {
        return false;
    }
    are_plain(statement.items.as_slice()) && are_paths(statement.order.as_slice())
}
