//! UPDATE (chapter 4.11).
ghost use Rattle.std.specs.Prelude.{◌≡◌, true, map, T};
ghost use Rattle.jpa_open.specs.Opened as opened;
ghost use Rattle.jpql_bulk.specs.bulk.Bulks as bulks;
ghost use Rattle.jpql_bulk.specs.bulk.Changes as changes;
ghost use Rattle.jpql_bulk.specs.bulk.Changes.{member_in, members_in, change_in};
ghost use Rattle.jpql_meaning.specs.eval.Answers.{every};
ghost use Rattle.jpql_meaning.specs.eval.Data.{null};
ghost use Rattle.jpql_meaning.specs.eval.Answers.{if_any};
ghost use Rattle.jpql_meaning.specs.eval.Finds.{Finds};
ghost use Rattle.jpql_meaning.specs.eval.Seen.{seen};
ghost use Rattle.jpql_meaning.specs.plan.Meaning.{alone};
ghost use Rattle.jpql_run.specs.Keys as keys;
ghost use Rattle.jpql_run.specs.Objects.{entry};
ghost use Rattle.jpql_run.specs.Runs as runs;

use crate::bulk::concerned::{concerned, tuple_of};
use jpa_model::{Member, Metamodel};
use jpa_open::OpenSet;
use jpa_value::Boxed;
use jpql_meaning::eval::{Datum, Failure, Seen};
use jpql_run::{Object, Run, Tuple, value};
use jpql_trees::typed::{TypedAssignment, TypedCondition, TypedValue};
use std::alloc::Global;

/// An object that an UPDATE concerns, with what its members are set to, in the order of the
/// assignments.
#[derive(Drop)]
pub struct Change<'a> {
    /// The object.
    pub object: Object<'a>,
    /// Each member with what it is set to.
    pub members: Vec<(Member, Seen<'a>)>,
}

/// What a value gives, where there is one; else null.
fn given<'a>(
    alloc: Global,
    run: &Run<'a>,
    tuple: &Tuple<'a>,
    given: &'a Option<TypedValue>,
) -> Result<Seen<'a>, Failure>
    ensures { Finds seen result
        (if_any null (λ v. runs.value run.now v (alone tuple.now)) given.now) }
{
    match given {
        None => Ok(Seen::Null),
        Some(one) => value(alloc, run, tuple, &[], one),
    }
}

/// What an assignment gives for an object.
fn member_of<'a>(
    alloc: Global,
    run: &Run<'a>,
    object: &Object<'a>,
    assignment: &'a TypedAssignment,
) -> Result<(Member, Seen<'a>), Failure>
    ensures { Finds member_in result
        (bulks.assignment_datum run.now (entry object.now) assignment.now) }
{
    let tuple = tuple_of(alloc, run, true, object)?;
    let datum = given(alloc, run, &tuple, &assignment.value)?;
    Ok((assignment.member, datum))
}

/// What each assignment gives for an object.
fn members_of<'a>(
    alloc: Global,
    run: &Run<'a>,
    object: &Object<'a>,
    all: &'a [TypedAssignment],
) -> Result<Vec<(Member, Seen<'a>)>, Failure>
    ensures { Finds (λ v. members_in v.items) result
        (every (map (bulks.assignment_datum run.now (entry object.now)) all.now)) }
{
    let mut found = Vec::new(alloc);
    for one in all {
        found.push(member_of(alloc, run, object, one)?)?;
    }
    Ok(found)
}

/// An object with what it is set to.
fn change_of<'a>(
    alloc: Global,
    run: &Run<'a>,
    object: &Object<'a>,
    all: &'a [TypedAssignment],
) -> Result<Change<'a>, Failure>
    ensures { Finds change_in result (bulks.assignments_for run.now all.now (entry object.now)) }
{
    let members = members_of(alloc, run, object, all)?;
    Ok(Change {
        object: *object,
        members,
    })
}

/// Each object with what it is set to.
fn each_change<'a>(
    alloc: Global,
    run: &Run<'a>,
    objects: &[Object<'a>],
    all: &'a [TypedAssignment],
) -> Result<Vec<Change<'a>>, Failure>
    ensures { Finds (λ v. map change_in v.items) result
        (every (map (bulks.assignments_for run.now all.now) (map entry objects.now))) }
{
    let mut found = Vec::new(alloc);
    for object in objects {
        found.push(change_of(alloc, run, object, all)?)?;
    }
    Ok(found)
}

/// The objects that an UPDATE of a class concerns, in rising order, each with what its members are
/// set to. All are computed by the old set, before any is assigned.
///
/// `Overflow` where some part is an integer outside 64 bits; `Memory` where a growth was refused.
pub fn found_by_update<'a>(
    alloc: Global,
    metamodel: &'a Metamodel,
    set: &'a OpenSet,
    parameters: &'a [Datum],
    class: usize,
    assignments: &'a [TypedAssignment],
    filter: &'a Option<Boxed<TypedCondition>>,
) -> Result<Vec<Change<'a>>, Failure>
    requires looked_up { keys.CanBeLookedUp metamodel.now (opened.now set.now) }
    ensures { Finds (λ v. map change_in v.items) result
        (changes.found_by_update metamodel.now (opened.now set.now)
        parameters.now class assignments.now filter.now) }
{
    let run = Run {
        metamodel,
        set,
        parameters,
    };
    let found = concerned(alloc, &run, class, true, assignments, filter)?;
    each_change(alloc, &run, &found, assignments)
}
