//! What values of a query are of, and which go together.
ghost use Rattle.std.specs.Prelude.{◌≡◌};
ghost use Rattle.std.specs.List.{list_all};
ghost use Rattle.jpql_trees.specs.tree.Calls as calls;
ghost use Rattle.jpql_types.specs.Sorts as sorts;

use jpa_value::Kind;
use jpql_trees::tree::{Against, Aggregate, Comparison, Function};

/// What a value of a query is of (chapter 4.7).
#[derive(Clone, Copy)]
pub enum Sort {
    /// A value of this kind.
    Basic(Kind),
    /// An entity of the hierarchy that this class begins.
    Entity(usize),
    /// A null or missing parameter, which goes with all.
    Null,
}

/// What a parameter is of (chapter 4.6.4).
pub type ParamType = Sort;

pub(crate) const INTEGER: Sort = Sort::Basic(Kind::Int);

pub(crate) const TEXT: Sort = Sort::Basic(Kind::Text);

fn is_same_kind(a: Kind, b: Kind) -> bool
    ensures { result ≡ sorts.same_kind a b }
{
    match (a, b) {
        (Kind::Int, Kind::Int) | (Kind::Text, Kind::Text) | (Kind::Bytes, Kind::Bytes) => true,
        _ => false,
    }
}

impl Sort {
    /// Whether values of both may be compared for equality.
    pub(crate) fn goes_with(self, other: Sort) -> bool
        ensures { result ≡ sorts.goes_with self other }
    {
        match (self, other) {
            (Sort::Null, _) | (_, Sort::Null) => true,
            (Sort::Basic(a), Sort::Basic(b)) => is_same_kind(a, b),
            (Sort::Entity(a), Sort::Entity(b)) => a == b,
            _ => false,
        }
    }

    /// Whether it is no entity.
    pub(crate) fn is_basic(self) -> bool
        ensures { result ≡ sorts.is_basic self }
    {
        !matches!(self, Sort::Entity(_))
    }

    fn known_of(self, other: Sort) -> Sort
        ensures { result ≡ sorts.known_of self other }
    {
        match self {
            Sort::Null => other,
            _ => self,
        }
    }
}

/// The one sort of all, after some that are of this one.
pub(crate) fn joined_with(first: Sort, all: &[Sort]) -> Option<Sort>
    ensures { result ≡ sorts.joined_with first all.now }
{
    let mut found = first;
    for sort in all {
        if !found.goes_with(*sort) {
            return None;
        }
        found = found.known_of(*sort);
    }
    Some(found)
}

/// The one sort that all go with, where there is one.
pub(crate) fn joined(all: &[Sort]) -> Option<Sort>
    ensures { result ≡ sorts.joined all.now }
{
    joined_with(Sort::Null, all)
}

/// The same, but for entities.
pub(crate) fn joined_basic(all: &[Sort]) -> Option<Sort>
    ensures { result ≡ sorts.joined_basic all.now }
{
    joined(all).filter(|sort| sort.is_basic())
}

/// Whether all go with a sort.
pub(crate) fn all_go_with(sort: Sort, all: &[Sort]) -> bool
    ensures { result ≡ list_all (sorts.goes_with sort) all.now }
{
    all.iter().all(|other| sort.goes_with(*other))
}

fn fit(asked: &[Sort], all: &[Sort]) -> bool
    ensures { result ≡ sorts.fit asked.now all.now }
{
    match all {
        [] => true,
        [sort, all @ ..] => match asked {
            [] => false,
            [first, asked @ ..] => first.goes_with(*sort) && fit(asked, all),
        },
    }
}

/// The one sort of what stands behind THEN and ELSE in a CASE, after some that are of this one.
fn joined_outcomes(all: &[Sort], first: Sort) -> Option<Sort>
    ensures { result ≡ sorts.joined_with first (sorts.outcomes all.now) }
{
    match all {
        [] => Some(first),
        [otherwise] => joined_with(first, &[*otherwise]),
        [_, found, more @ ..] => {
            if !first.goes_with(*found) {
                return None;
            }
            joined_outcomes(more, first.known_of(*found))
        }
    }
}

/// The one sort of what stands behind WHEN in a CASE, after some that are of this one.
fn joined_whens(all: &[Sort], first: Sort) -> Option<Sort>
    ensures { result ≡ sorts.joined_with first (sorts.whens all.now) }
{
    match all {
        [] | [_] => Some(first),
        [one, _, more @ ..] => {
            if !first.goes_with(*one) {
                return None;
            }
            joined_whens(more, first.known_of(*one))
        }
    }
}

/// What a CASE gives, of what stands behind THEN and ELSE.
fn case_sort(all: &[Sort]) -> Option<Sort>
    ensures { result ≡ sorts.joined_basic (sorts.outcomes all.now) }
{
    joined_outcomes(all, Sort::Null).filter(|sort| sort.is_basic())
}

/// What a CASE of a value gives, which comes first.
fn match_sort(all: &[Sort]) -> Option<Sort>
    ensures { result ≡ sorts.match_sort all.now }
{
    match all {
        [] => None,
        [value, more @ ..] => match joined_whens(more, *value) {
            None => None,
            Some(_) => case_sort(more),
        },
    }
}

/// What a comparison inside a CASE gives.
fn comparison_sort(comparison: Comparison, all: &[Sort]) -> Option<Sort>
    ensures { result ≡ sorts.comparison_sort comparison all.now }
{
    match all {
        [one, other, ..] => are_comparable(comparison, *one, *other).then_some(INTEGER),
        [] | [_] => None,
    }
}

/// Whether a function takes this many arguments (chapter 4.7).
fn takes(function: Function, count: usize) -> bool
    ensures { result ≡ calls.takes function count }
{
    match function {
        Function::Length | Function::Abs | Function::Upper | Function::Lower => count == 1,
        Function::IsNull | Function::Not => count == 1,
        Function::Trim(_) => count == 1 || count == 2,
        Function::Mod | Function::NullIf => count == 2,
        Function::Test(_) | Function::And | Function::Or => count == 2,
        Function::Substring | Function::Locate | Function::IsLike => count == 2 || count == 3,
        Function::Concat | Function::Coalesce => count >= 2,
        Function::IsAmong => count >= 1,
        Function::IsBetween => count == 3,
        Function::Case => count >= 3 && count % 2 == 1,
        Function::Match => count >= 4 && count % 2 == 0,
    }
}

/// What a function gives of arguments of these sorts, however many they are.
fn given_sort(function: Function, all: &[Sort]) -> Option<Sort>
    ensures { result ≡ sorts.given_sort function all.now }
{
    match function {
        Function::Length if fit(&[TEXT], all) => Some(INTEGER),
        Function::Concat if all_go_with(TEXT, all) => Some(TEXT),
        Function::Substring if fit(&[TEXT, INTEGER, INTEGER], all) => Some(TEXT),
        Function::Locate if fit(&[TEXT, TEXT, INTEGER], all) => Some(INTEGER),
        Function::Abs if fit(&[INTEGER], all) => Some(INTEGER),
        Function::Mod if fit(&[INTEGER, INTEGER], all) => Some(INTEGER),
        Function::Coalesce | Function::NullIf => joined_basic(all),
        Function::Upper | Function::Lower if fit(&[TEXT], all) => Some(TEXT),
        Function::Trim(_) if fit(&[TEXT, TEXT], all) => Some(TEXT),
        Function::Case => case_sort(all),
        Function::Match => match_sort(all),
        Function::Test(comparison) => comparison_sort(comparison, all),
        Function::IsBetween => joined_basic(all).map(|_| INTEGER),
        Function::IsAmong => joined(all).map(|_| INTEGER),
        Function::IsLike if fit(&[TEXT, TEXT, TEXT], all) => Some(INTEGER),
        Function::IsNull => Some(INTEGER),
        Function::And | Function::Or if fit(&[INTEGER, INTEGER], all) => Some(INTEGER),
        Function::Not if fit(&[INTEGER], all) => Some(INTEGER),
        _ => None,
    }
}

/// What a function gives of arguments of these sorts (chapter 4.7); nothing where it takes more or
/// fewer.
pub(crate) fn call_sort(function: Function, all: &[Sort]) -> Option<Sort>
    ensures { result ≡ sorts.call_sort function all.now }
{
    if takes(function, all.len()) {
        given_sort(function, all)
    } else {
        None
    }
}

/// What an aggregate gives of values of this sort (chapter 4.9.5).
pub(crate) fn aggregate_sort(aggregate: Aggregate, sort: Sort) -> Option<Sort>
    ensures { result ≡ sorts.aggregate_sort aggregate sort }
{
    match aggregate {
        Aggregate::Count => Some(INTEGER),
        Aggregate::Sum if INTEGER.goes_with(sort) => Some(INTEGER),
        Aggregate::Min | Aggregate::Max if sort.is_basic() => Some(sort),
        _ => None,
    }
}

/// What a value is compared with of rows of this sort: the rows themselves, or what an aggregate
/// gives of them (chapters 4.6.9, 4.6.15 and 4.9.5).
pub(crate) fn sort_against(against: Against, sort: Sort) -> Option<Sort>
    ensures { result ≡ sorts.sort_against against sort }
{
    match against {
        Against::Any | Against::All => Some(sort),
        Against::One(aggregate, _) => aggregate_sort(aggregate, sort),
    }
}

/// What arithmetic gives of operands of these sorts (chapter 4.7.1).
pub(crate) fn arithmetic_sort(all: &[Sort]) -> Option<Sort>
    ensures { result ≡ sorts.arithmetic_sort all.now }
{
    all_go_with(INTEGER, all).then_some(INTEGER)
}

/// Whether values of these sorts may be compared (chapter 4.6.7).
pub(crate) fn are_comparable(comparison: Comparison, a: Sort, b: Sort) -> bool
    ensures { result ≡ sorts.are_comparable comparison a b }
{
    match comparison {
        Comparison::Equal | Comparison::Different => a.goes_with(b),
        _ => a.goes_with(b) && a.is_basic() && b.is_basic(),
    }
}
