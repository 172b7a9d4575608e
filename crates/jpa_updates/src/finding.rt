//! What a statement changes of the set that a manager sees.
ghost use Rattle.std.specs.Prelude.{◌≡◌, true, IfOk, IfErr, Ok};
ghost use Rattle.jpa_behaviour.specs.Served.{world_of_unit};
ghost use Rattle.jpa_open.specs.Opened as opened;
ghost use Rattle.jpa_updates.specs.Changing.{AnswersAs, same, failure_cause};
ghost use Rattle.jpa_rows.specs.rows.Cells.{all_representable};
ghost use Rattle.jpa_value.specs.declared.refusal.Cause.{Cause};
ghost use Rattle.jpql_bulk.specs.bulk.Changes as changes;
ghost use Rattle.jpql_bulk.specs.kept.Fits.{throws_in};
ghost use Rattle.jpql_meaning.specs.plan.Bulk as bulk;
ghost use Rattle.jpql_run.specs.Keys as keys;
ghost use Rattle.jpql_run.specs.Objects.{identities};

use crate::representable::objects_are_representable;
use jpa_behaviour::{Behaviour, ServedUnit};
use jpa_model::Metamodel;
use jpa_open::OpenSet;
use jpa_stored::objects::Stored;
use jpa_value::{Boxed, Cause, Identity, Seq, TryCopy};
use jpql_bulk::bulk::{assign, found_by_delete, found_by_update};
use jpql_meaning::eval::{Datum, Failure};
use jpql_trees::typed::{TypedAssignment, TypedCondition};
use std::alloc::Global;

/// Why nothing was computed, as a call tells it.
fn cause_of(failure: Failure) -> Cause
    ensures { result ≡ failure_cause failure }
{
    match failure {
        Failure::Memory => Cause::OutOfMemory,
        Failure::Overflow => Cause::Overflow,
    }
}

/// The objects that an UPDATE concerns as it makes them (Jakarta Persistence 3.1, chapter 4.11), in
/// rising order.
///
/// `Overflow` where some part is an integer outside 64 bits; then, object by object and assignment
/// by assignment, `Limit` for a value that is too long, `Persistence` with `Converter` where an
/// attribute's converter throws, and with `Null` where a version is set to null; `OutOfMemory`
/// where a growth was refused.
pub(crate) fn made_by_update<'a, B: Behaviour>(
    alloc: Global,
    unit: &'a ServedUnit<B>,
    view: &'a OpenSet,
    arguments: &'a [Datum],
    class: usize,
    assignments: &'a [TypedAssignment],
    filter: &'a Option<Boxed<TypedCondition>>,
) -> Result<Vec<(Identity, Stored)>, Cause>
    requires looked_up { keys.CanBeLookedUp unit.now.metamodel (opened.now view.now) }
    ensures made { let world = world_of_unit B.meaning unit.now in
        AnswersAs (λ v. v.items) result (bulk.or_refuse (changes.found_by_update unit.now.metamodel
        (opened.now view.now) arguments.now class assignments.now filter.now)
        (bulk.each_assigned unit.now.metamodel (throws_in world))) }
    ensures representable { IfOk result (λ v. all_representable v.items ≡ true) }
{
    let found = match found_by_update(
        alloc,
        &unit.metamodel,
        view,
        arguments,
        class,
        assignments,
        filter,
    ) {
        Ok(found) => found,
        Err(failure) => return Err(cause_of(failure)),
    };
    match assign(alloc, unit, &found) {
        Ok(objects) => {
            objects_are_representable(&objects);
            Ok(objects)
        }
        Err(refused) => Err(refused.cause()),
    }
}

/// Copies of identities. Fails for want of memory alone, with `OutOfMemory`.
fn copies_of(alloc: Global, ids: &[&Identity]) -> Result<Seq<Identity>, Cause>
    ensures ok { IfOk result (λ copies. copies ≡ identities ids.now) }
    ensures err { IfErr result (λ cause. cause ≡ Cause.OutOfMemory) }
{
    let mut copies = Seq::new(alloc);
    for id in ids {
        copies.push(id.try_copy()?)?;
    }
    Ok(copies)
}

/// The identities of the objects that a DELETE concerns (chapter 4.11), in rising order. `Overflow`
/// where some part is an integer outside 64 bits; `OutOfMemory` where a growth was refused.
pub(crate) fn taken_by_delete<'a>(
    alloc: Global,
    metamodel: &'a Metamodel,
    view: &'a OpenSet,
    arguments: &'a [Datum],
    class: usize,
    is_named: bool,
    filter: &'a Option<Boxed<TypedCondition>>,
) -> Result<Seq<Identity>, Cause>
    requires looked_up { keys.CanBeLookedUp metamodel.now (opened.now view.now) }
    ensures { AnswersAs same result (bulk.or_refuse (changes.found_by_delete metamodel.now
        (opened.now view.now) arguments.now class is_named filter.now) (λ ids. Ok ids)) }
{
    match found_by_delete(alloc, metamodel, view, arguments, class, is_named, filter) {
        Ok(found) => copies_of(alloc, &found),
        Err(failure) => Err(cause_of(failure)),
    }
}
