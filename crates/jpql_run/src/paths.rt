//! Where paths lead from the objects of a tuple.
ghost use Rattle.std.specs.Prelude.{◌≡◌, slice_index_or, option_map, IfOk, IfSome};
ghost use Rattle.std.specs.Option.{option_copied};
ghost use Rattle.jpa_value.specs.declared.value.Value.{Value};
ghost use Rattle.jpql_meaning.specs.plan.Paths as paths;
ghost use Rattle.jpql_meaning.specs.declared.eval.datum.Datum.{Datum};
ghost use Rattle.jpql_meaning.specs.eval.Seen.{seen};
ghost use Rattle.jpql_run.specs.Objects.{entry, entry_of, identities};
ghost use Rattle.jpql_run.specs.Runs as runs;

use crate::links::{first_related, held_by_itself, related};
use crate::object::{Object, object_of};
use crate::run::Run;
use crate::tuple::Tuple;
use jpa_model::Member;
use jpa_value::{Identity, Value};
use jpql_meaning::eval::{Seen, seen_value};
use jpql_trees::typed::{Step, TypedPath};
use std::alloc::{AllocError, Global};

#[inline(always)]
fn part<'a>(key: &'a [Value], place: usize) -> Seen<'a>
    ensures { seen result ≡ Datum.Plain (slice_index_or key.now place Value.Null) }
{
    match key.get(place) {
        None => Seen::Null,
        Some(value) => seen_value(value),
    }
}

fn version<'a>(version: Option<i64>) -> Seen<'a>
    ensures { seen result ≡ paths.version version }
{
    match version {
        None => Seen::Null,
        Some(number) => Seen::Int(number),
    }
}

fn identity<'a>(id: Option<&'a Identity>) -> Seen<'a>
    ensures { seen result ≡ paths.identity_datum (option_copied id.entry) }
{
    match id {
        None => Seen::Null,
        Some(id) => Seen::Entity(id),
    }
}

/// An object as what an expression gives.
fn entity<'a>(object: Option<Object<'a>>) -> Seen<'a>
    ensures { seen result ≡ paths.entity (option_map entry object.entry) }
{
    match object {
        None => Seen::Null,
        Some(object) => Seen::Entity(&object.at.0),
    }
}

/// What a member of an object is.
#[inline(always)]
fn member<'a>(run: &Run<'a>, object: &Object<'a>, step: Step) -> Seen<'a>
    ensures { seen result
        ≡ runs.member_datum run.now (entry object.now) step.class step.member }
{
    match step.member {
        Member::KeyPart(place) => part(object.at.0.key.as_slice(), place),
        Member::Version => version(object.at.1.version),
        Member::Attribute(place) => part(object.at.1.values.as_slice(), place),
        Member::Relation(place) => { identity(first_related(run, step.class, object, place)) }
    }
}

/// The last step of a path.
#[inline(always)]
fn last<'a>(run: &Run<'a>, object: Option<Object<'a>>, step: Step) -> Seen<'a>
    ensures { seen result ≡ runs.step_datum run.now (entry_of object.entry) step }
{
    match object {
        None => Seen::Null,
        Some(object) => member(run, &object, step),
    }
}

/// A step before the last.
fn next<'a>(run: &Run<'a>, object: Option<Object<'a>>, step: Step) -> Option<Object<'a>>
    ensures { entry_of result ≡ runs.next run.now (entry_of object.entry) step }
{
    let object = object?;
    let Member::Relation(place) = step.member else {
        return None;
    };
    let id = first_related(run, step.class, &object, place)?;
    object_of(run.set, id)
}

pub fn walked<'a>(run: &Run<'a>, object: Option<Object<'a>>, steps: &[Step]) -> Seen<'a>
    ensures { seen result ≡ runs.walked run.now (entry_of object.entry) steps.now }
{
    match steps {
        [] => entity(object),
        [step] => last(run, object, *step),
        [step, rest @ ..] => walked(run, next(run, object, *step), rest),
    }
}

fn breaks<'a>(run: &Run<'a>, object: Option<Object<'a>>, steps: &[Step]) -> bool
    ensures { result ≡ runs.breaks run.now (entry_of object.entry) steps.now }
{
    let [step, rest @ ..] = steps else {
        return false;
    };
    if rest.is_empty() {
        return false;
    }
    let next = next(run, object, *step);
    next.is_none() || breaks(run, next, rest)
}

/// What a path of a tuple leads to.
pub fn path<'a>(run: &Run<'a>, tuple: &Tuple<'a>, path: &TypedPath) -> Seen<'a>
    ensures { seen result ≡ runs.path_datum run.now tuple.now path.now }
{
    let object = tuple.get(path.variable);
    match path.steps.as_slice() {
        // (most paths have one step, which is told in place)
        [step] => last(run, object, *step),
        steps => walked(run, object, steps),
    }
}

/// Whether a path of a tuple has a null step before its last.
pub fn is_broken<'a>(run: &Run<'a>, tuple: &Tuple<'a>, path: &TypedPath) -> bool
    ensures { result ≡ runs.is_broken run.now tuple.now path.now }
{
    breaks(run, tuple.get(path.variable), path.steps.as_slice())
}

/// The identities that a step from an object leads to, rising.
pub(crate) fn related_along<'a>(
    alloc: Global,
    run: &Run<'a>,
    object: &Object<'a>,
    step: Step,
) -> Result<Vec<&'a Identity>, AllocError>
    ensures { IfOk result (λ found. identities found.items
        ≡ runs.related run.now (entry object.now) step) }
{
    match step.member {
        Member::Relation(place) => related(alloc, run, step.class, object, place),
        Member::KeyPart(_) | Member::Version | Member::Attribute(_) => Ok(Vec::new(alloc)),
    }
}

/// The identities that a step from an object leads to, rising, where the object itself holds them.
pub(crate) fn held_along<'a>(
    run: &Run<'a>,
    object: &Object<'a>,
    step: Step,
) -> Option<&'a [Identity]>
    ensures { IfSome result (λ ids. ids.now ≡ runs.related run.now (entry object.now) step) }
{
    match step.member {
        Member::Relation(place) => held_by_itself(run, step.class, object, place),
        Member::KeyPart(_) | Member::Version | Member::Attribute(_) => Some(&[]),
    }
}

/// The collection at the end of some steps; that of null is null.
fn last_collection<'a>(
    alloc: Global,
    run: &Run<'a>,
    object: Option<Object<'a>>,
    step: Step,
) -> Result<Option<Vec<&'a Identity>>, AllocError>
    ensures { IfOk result (λ found. option_map (λ ids. identities ids.items) found
        ≡ option_map (λ e. runs.related run.now e step) (entry_of object.entry)) }
{
    match object {
        None => Ok(None),
        Some(object) => Ok(Some(related_along(alloc, run, &object, step)?)),
    }
}

fn gathered<'a>(
    alloc: Global,
    run: &Run<'a>,
    object: Option<Object<'a>>,
    steps: &[Step],
) -> Result<Option<Vec<&'a Identity>>, AllocError>
    ensures { IfOk result (λ found. option_map (λ ids. identities ids.items) found
        ≡ runs.gathered run.now (entry_of object.entry) steps.now) }
{
    match steps {
        [] => Ok(None),
        [step] => last_collection(alloc, run, object, *step),
        [step, rest @ ..] => gathered(alloc, run, next(run, object, *step), rest),
    }
}

/// The collection that a path of a tuple leads to.
pub(crate) fn collection<'a>(
    alloc: Global,
    run: &Run<'a>,
    tuple: &Tuple<'a>,
    path: &TypedPath,
) -> Result<Option<Vec<&'a Identity>>, AllocError>
    ensures { IfOk result (λ found. option_map (λ ids. identities ids.items) found
        ≡ runs.collection run.now tuple.now path.now) }
{
    gathered(alloc, run, tuple.get(path.variable), path.steps.as_slice())
}
