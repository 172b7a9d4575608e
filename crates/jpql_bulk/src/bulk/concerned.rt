//! The objects that a statement concerns: those of its class whose tuple has no null step and for
//! which WHERE is true.
ghost use Rattle.std.specs.Prelude.{◌≡◌, ◌||◌, true, map, filter_map, IfOk};
ghost use Rattle.jpa_open.specs.Opened as opened;
ghost use Rattle.jpql_bulk.specs.bulk.Bulks as bulks;
ghost use Rattle.jpql_meaning.specs.eval.Finds.{Finds, same};
ghost use Rattle.jpql_meaning.specs.plan.Bulk as bulk;
ghost use Rattle.jpql_meaning.specs.plan.Meaning.{alone, drops_any, truth_of_any};
ghost use Rattle.jpql_run.specs.Keys as keys;
ghost use Rattle.jpql_run.specs.Objects.{entry};
ghost use Rattle.jpql_run.specs.Runs.{any_condition};

use jpa_value::Boxed;
use jpql_meaning::eval::{Failure, Truth};
use jpql_run::{
    Object, Run, Tuple, filter_drops, kept, objects_for, objects_of, truth, value_drops,
};
use jpql_trees::typed::{TypedAssignment, TypedCondition};
use std::alloc::{AllocError, Global};

/// The tuple of an object, which has no variable where a DELETE leaves it out.
pub(super) fn tuple_of<'a>(
    alloc: Global,
    run: &Run<'a>,
    is_named: bool,
    object: &Object<'a>,
) -> Result<Tuple<'a>, AllocError>
    ensures { IfOk result (λ tuple. tuple ≡ bulks.tuple_of run.now is_named (entry object.now)) }
{
    let mut tuple = Tuple::new(alloc);
    if is_named {
        tuple.push(Some(*object))?;
    }
    Ok(tuple)
}

/// Whether a tuple has a null step in what is assigned.
fn assignment_drops<'a>(run: &Run<'a>, tuple: &Tuple<'a>, assignment: &TypedAssignment) -> bool
    ensures { result ≡ bulk.assignment_drops run.now.metamodel.now (opened.now run.now.set.now)
        run.now.parameters.now tuple.now assignment.now }
{
    match &assignment.value {
        None => false,
        Some(value) => value_drops(run, tuple, value),
    }
}

/// Whether it has one in some assignment.
fn any_assignment_drops<'a>(run: &Run<'a>, tuple: &Tuple<'a>, all: &[TypedAssignment]) -> bool
    ensures { result ≡ bulks.set_drops run.now all.now tuple.now }
{
    all.iter().any(|one| assignment_drops(run, tuple, one))
}

/// Whether it has one in the statement, outside nested blocks.
fn is_dropped<'a>(
    run: &Run<'a>,
    tuple: &Tuple<'a>,
    all: &[TypedAssignment],
    filter: &Option<Boxed<TypedCondition>>,
) -> bool
    ensures { result ≡ (bulks.set_drops run.now all.now tuple.now
        || drops_any (any_condition run.now filter.now) tuple.now) }
{
    any_assignment_drops(run, tuple, all) || filter_drops(run, tuple, filter)
}

/// The objects whose tuple has none.
fn without_dropped<'a>(
    alloc: Global,
    run: &Run<'a>,
    is_named: bool,
    all: &[TypedAssignment],
    filter: &Option<Boxed<TypedCondition>>,
    objects: &[Object<'a>],
) -> Result<Vec<Object<'a>>, AllocError>
    ensures { IfOk result (λ left. map entry left.items
        ≡ bulks.there run.now is_named all.now filter.now (map entry objects.now)) }
{
    let mut left = Vec::new(alloc);
    for object in objects {
        let tuple = tuple_of(alloc, run, is_named, object)?;
        if !is_dropped(run, &tuple, all, filter) {
            left.push(*object)?;
        }
    }
    Ok(left)
}

/// Whether WHERE is true, where it is written.
fn holds<'a>(
    alloc: Global,
    run: &Run<'a>,
    tuple: &Tuple<'a>,
    filter: &'a Option<Boxed<TypedCondition>>,
) -> Result<Truth, Failure>
    requires looked_up { keys.CanBeLookedUp run.now.metamodel.now (opened.now run.now.set.now) }
    ensures { Finds same result
        (truth_of_any (any_condition run.now filter.now) (alone tuple.now)) }
{
    match filter {
        None => Ok(Truth::Yes),
        Some(condition) => truth(alloc, run, tuple, &[], condition.get()),
    }
}

/// Whether it is true of an object.
fn holds_of<'a>(
    alloc: Global,
    run: &Run<'a>,
    is_named: bool,
    object: &Object<'a>,
    filter: &'a Option<Boxed<TypedCondition>>,
) -> Result<Truth, Failure>
    requires looked_up { keys.CanBeLookedUp run.now.metamodel.now (opened.now run.now.set.now) }
    ensures { Finds same result (truth_of_any (any_condition run.now filter.now)
        (alone (bulks.tuple_of run.now is_named (entry object.now)))) }
{
    let tuple = tuple_of(alloc, run, is_named, object)?;
    holds(alloc, run, &tuple, filter)
}

/// The tuples of objects that have a variable.
fn tuples_of<'a>(
    alloc: Global,
    run: &Run<'a>,
    objects: &[Object<'a>],
) -> Result<Vec<Tuple<'a>>, AllocError>
    ensures { IfOk result (λ tuples. tuples.items
        ≡ map (bulks.tuple_of run.now true) (map entry objects.now)) }
{
    let mut tuples = Vec::with_capacity(alloc, objects.len())?;
    for object in objects {
        tuples.push(tuple_of(alloc, run, true, object)?)?;
    }
    Ok(tuples)
}

/// The objects of their first variables.
fn objects_in<'a>(alloc: Global, tuples: &[Tuple<'a>]) -> Result<Vec<Object<'a>>, AllocError>
    ensures { IfOk result (λ objects. map entry objects.items
        ≡ filter_map bulks.first_object tuples.now) }
{
    let mut objects = Vec::with_capacity(alloc, tuples.len())?;
    for tuple in tuples {
        if let Some(object) = tuple.get(0) {
            objects.push(object)?;
        }
    }
    Ok(objects)
}

/// The objects for which WHERE is true, where they have a variable; it is tested on all.
fn kept_named<'a>(
    alloc: Global,
    run: &Run<'a>,
    filter: &'a Option<Boxed<TypedCondition>>,
    objects: &[Object<'a>],
) -> Result<Vec<Object<'a>>, Failure>
    requires looked_up { keys.CanBeLookedUp run.now.metamodel.now (opened.now run.now.set.now) }
    ensures { Finds (λ v. map entry v.items) result
        (bulks.kept_of run.now true filter.now (map entry objects.now)) }
{
    let tuples = tuples_of(alloc, run, objects)?;
    let left = kept(alloc, run, tuples, filter)?;
    Ok(objects_in(alloc, &left)?)
}

/// The objects for which WHERE is true; it is tested on all.
fn kept_objects<'a>(
    alloc: Global,
    run: &Run<'a>,
    is_named: bool,
    filter: &'a Option<Boxed<TypedCondition>>,
    objects: &[Object<'a>],
) -> Result<Vec<Object<'a>>, Failure>
    requires looked_up { keys.CanBeLookedUp run.now.metamodel.now (opened.now run.now.set.now) }
    ensures { Finds (λ v. map entry v.items) result
        (bulks.kept_of run.now is_named filter.now (map entry objects.now)) }
{
    if is_named {
        return kept_named(alloc, run, filter, objects);
    }
    let mut left = Vec::new(alloc);
    for object in objects {
        if let Truth::Yes = holds_of(alloc, run, is_named, object, filter)? {
            left.push(*object)?;
        }
    }
    Ok(left)
}

/// Objects of a class of which WHERE leaves what it leaves of all, in rising order. Where they have
/// a variable and nothing in WHERE can overflow, it may tell them: by their whole key, by the
/// object itself, or by a reference that they hold.
fn candidates<'a>(
    alloc: Global,
    run: &Run<'a>,
    class: usize,
    is_named: bool,
    filter: &'a Option<Boxed<TypedCondition>>,
) -> Result<Vec<Object<'a>>, AllocError>
    requires looked_up { keys.CanBeLookedUp run.now.metamodel.now (opened.now run.now.set.now) }
    ensures { IfOk result (λ objects.
        bulks.LeavesAll run.now class is_named filter.now (map entry objects.items)) }
{
    if is_named {
        objects_for(alloc, run, class, filter)
    } else {
        objects_of(alloc, run, class)
    }
}

/// The objects that a statement concerns, in rising order.
pub(super) fn concerned<'a>(
    alloc: Global,
    run: &Run<'a>,
    class: usize,
    is_named: bool,
    all: &[TypedAssignment],
    filter: &'a Option<Boxed<TypedCondition>>,
) -> Result<Vec<Object<'a>>, Failure>
    requires looked_up { keys.CanBeLookedUp run.now.metamodel.now (opened.now run.now.set.now) }
    ensures { Finds (λ v. map entry v.items) result
        (bulks.concerned run.now class is_named all.now filter.now) }
{
    let objects = candidates(alloc, run, class, is_named, filter)?;
    let there = without_dropped(alloc, run, is_named, all, filter, &objects)?;
    kept_objects(alloc, run, is_named, filter, &there)
}
