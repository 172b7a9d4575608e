//! SIZE, IS EMPTY and MEMBER OF (chapters 4.6.12, 4.6.13 and 4.7.2). A collection of null is null,
//! which isn't empty.
ghost use Rattle.std.specs.Prelude.{◌≡◌};
ghost use Rattle.std.specs.List.{list_any};
ghost use Rattle.jpa_value.specs.Value.{same_identity};
ghost use Rattle.jpql_meaning.specs.eval.Answers.{gives};
ghost use Rattle.jpql_meaning.specs.eval.Finds.{Finds, same};
ghost use Rattle.jpql_meaning.specs.eval.Seen.{seen};
ghost use Rattle.jpql_meaning.specs.plan.Meaning as meaning;
ghost use Rattle.jpql_run.specs.Objects.{identities};
ghost use Rattle.jpql_run.specs.Runs as runs;

use crate::paths::collection;
use crate::run::Run;
use crate::tuple::Tuple;
use jpa_value::{Identity, is_same_identity};
use jpql_meaning::eval::{Failure, Seen, Truth, truth_of};
use jpql_trees::typed::TypedPath;
use std::alloc::Global;

/// SIZE.
pub(crate) fn size<'a>(
    alloc: Global,
    run: &Run<'a>,
    tuple: &Tuple<'a>,
    path: &TypedPath,
) -> Result<Seen<'a>, Failure>
    ensures { Finds seen result
        (gives (meaning.size (runs.collection run.now tuple.now path.now))) }
{
    match collection(alloc, run, tuple, path)? {
        None => Ok(Seen::Null),
        Some(ids) => Ok(Seen::Int(ids.len() as i64)),
    }
}

/// IS EMPTY.
pub(crate) fn is_empty<'a>(
    alloc: Global,
    run: &Run<'a>,
    tuple: &Tuple<'a>,
    path: &TypedPath,
) -> Result<Truth, Failure>
    ensures { Finds same result
        (gives (meaning.emptiness (runs.collection run.now tuple.now path.now))) }
{
    match collection(alloc, run, tuple, path)? {
        None => Ok(Truth::Unknown),
        Some(ids) => Ok(truth_of(ids.is_empty())),
    }
}

/// Whether an identity is among these.
fn is_among(ids: &[&Identity], id: &Identity) -> bool
    ensures { result ≡ list_any (same_identity id.now) (identities ids.now) }
{
    for other in ids {
        if is_same_identity(id, other) {
            return true;
        }
    }
    false
}

fn is_member_of<'a>(element: &Seen<'a>, ids: &[&Identity]) -> Truth
    ensures { result ≡ meaning.membership_in (seen element.now) (identities ids.now) }
{
    match ids {
        [] => Truth::No,
        [_, ..] => match element {
            Seen::Entity(id) => truth_of(is_among(ids, id)),
            Seen::Null | Seen::Int(_) | Seen::Text(_) | Seen::Bytes(_) | Seen::Made(_) => {
                Truth::Unknown
            }
        },
    }
}

/// MEMBER OF.
pub(crate) fn is_member<'a>(
    alloc: Global,
    run: &Run<'a>,
    tuple: &Tuple<'a>,
    element: &Seen<'a>,
    path: &TypedPath,
) -> Result<Truth, Failure>
    ensures { let members = runs.collection run.now tuple.now path.now in
        Finds same result (gives (meaning.membership (seen element.now) members)) }
{
    match collection(alloc, run, tuple, path)? {
        None => Ok(Truth::Unknown),
        Some(ids) => Ok(is_member_of(element, &ids)),
    }
}
