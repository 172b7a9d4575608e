//! Which statements a language has.
ghost use Rattle.std.specs.Prelude.{◌≡◌};
ghost use Rattle.std.specs.List.{list_all};
ghost use Rattle.jpql_grammar.specs.grammar.Queries as spec;

use crate::text::rows::has_rows;
use jpql_trees::tree::{Language, Query, SortKey, Sorted};

fn is_named(by: &Sorted) -> bool
    ensures { result ≡ spec.is_named by.now }
{
    match by {
        Sorted::Name(_) | Sorted::Path(_) => true,
        Sorted::Value(_) => false,
    }
}

fn are_named(keys: &[SortKey]) -> bool
    ensures { result ≡ list_all (λ key. spec.is_named key.by) keys.now }
{
    keys.iter().all(|key| is_named(&key.by))
}

fn sorts_by_names(query: &Query) -> bool
    ensures { result ≡ spec.sorts_by_names query.now }
{
    match query {
        Query::Select(select) => are_named(select.order.as_slice()),
        _ => true,
    }
}

/// Whether a language has a statement: the profile sorts by result variables and paths alone
/// (chapter 4.10), and compares no value with the rows of a subquery.
pub(super) fn speaks(language: Language, query: &Query) -> bool
    ensures { result ≡ spec.speaks language query.now }
{
    match language {
        Language::Profile => sorts_by_names(query) && !has_rows(query),
        Language::Wide => true,
    }
}
