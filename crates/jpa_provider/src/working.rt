//! Calls that work on an object, by its number: of a manager that is named, or of whoever holds it
//! (Jakarta Persistence 3.1, chapters 2.2 and 3.1.1).
ghost use Rattle.std.specs.Prelude.{◌≡◌, ◌<◌, length, false};
ghost use Rattle.jpa_behaviour.specs.Served.{world_of_unit};
ghost use Rattle.jpa_machine.specs.machine.Faults.{is_store_fault, tells_fault};
ghost use Rattle.jpa_provider.specs.Operations.{at_object, on_numbered};
ghost use Rattle.jpa_provider.specs.Operations as operations;
ghost use Rattle.jpa_machine.specs.machine.Routes.{route, InTransaction, OfManager, OfObject, stands_numbered};
ghost use Rattle.jpa_machine.specs.machine.Routes as routes;
ghost use Rattle.jpa_work.specs.heap.Objects as objects;
ghost use Rattle.jpa_provider.specs.Serving.{IsAtRest, IsServing, Serves};
ghost use Rattle.jpa_provider.specs.Stages.{EndsWork};
ghost use Rattle.jpa_provider.specs.declared.replies.Rule.{Rule};

use crate::at_work::{conclude, manager_named, mark_unless, take_work};
use crate::handing::{hands_representable, place_of};
use crate::operating::operate;
use crate::replies::{Rule, because, told_of};
use crate::session::{Session, status_of};
use jpa_behaviour::{Behaviour, ServedUnit};
use jpa_flush::marking::keep_others;
use jpa_protocol::{Call, Reply};
use jpa_value::{Cause, Refusal, Seq};
use jpa_work::context::PersistenceContext;
use jpa_work::heap::Life;
use std::alloc::Global;
use std::mem;

/// The manager does what a call does with the object at a place; what it changed is kept, or undone
/// where it was refused.
fn at_work<B: Behaviour>(
    alloc: Global,
    unit: &ServedUnit<B>,
    session: &mut Session,
    manager: usize,
    place: usize,
    call: Call,
    rule: Rule,
) -> Reply
    requires within { manager < length session.old.managers.items }
    requires object { place < length session.old.work.objects.now }
    requires serving { IsServing (world_of_unit B.meaning unit.now) session.old }
    ensures ends { let world = world_of_unit B.meaning unit.now in
        EndsWork rule (at_object call world place) session.old manager result session.new }
    ensures untold { tells_fault result ≡ false }
    ensures rest { IsAtRest unit.now.metamodel session.new }
{
    hands_representable(&call);
    take_work(session, manager);
    let answered = operate(alloc, unit, &mut session.work, place, call);
    conclude(alloc, &unit.metamodel, session, manager, answered, rule)
}

/// Nobody's manager does what a call does with the object at a place, which no manager holds: it
/// sees what is committed, in an empty context.
fn unheld<B: Behaviour>(
    alloc: Global,
    unit: &ServedUnit<B>,
    session: &mut Session,
    place: usize,
    call: Call,
) -> Reply
    requires object { place < length session.old.work.objects.now }
    requires serving { IsServing (world_of_unit B.meaning unit.now) session.old }
    ensures ends { let world = world_of_unit B.meaning unit.now in
        let nobody = length session.old.managers.items in
        EndsWork Rule.OfObject (at_object call world place) session.old nobody result session.new }
    ensures untold { tells_fault result ≡ false }
    ensures rest { IsAtRest unit.now.metamodel session.new }
{
    session.work.manager = session.managers.len();
    session.work.context = PersistenceContext::new(alloc);
    let answered = operate(alloc, unit, &mut session.work, place, call);
    let events = mem::replace(&mut session.work.events, Seq::new(alloc));
    match answered {
        Ok(answer) => {
            let stay = keep_others(&session.work);
            session.work.keep(false);
            mark_unless(alloc, session, stay);
            Reply {
                events,
                answer: Ok(answer),
            }
        }
        Err(cause) => {
            session.work.undo(alloc);
            Reply {
                events: told_of(alloc, &cause, events),
                answer: Err(Refusal::Because(cause)),
            }
        }
    }
}

/// The manager does what a call does with an object, by its number: `NoSuchObject` where there is
/// none.
fn numbered<B: Behaviour>(
    alloc: Global,
    unit: &ServedUnit<B>,
    session: &mut Session,
    manager: usize,
    object: i64,
    call: Call,
) -> Reply
    requires within { manager < length session.old.managers.items }
    requires serving { IsServing (world_of_unit B.meaning unit.now) session.old }
    ensures ends { let world = world_of_unit B.meaning unit.now in
        let op = on_numbered object (at_object call) world in
        EndsWork Rule.OfManager op session.old manager result session.new }
    ensures untold { tells_fault result ≡ false }
    ensures rest { IsAtRest unit.now.metamodel session.new }
{
    let Some(place) = place_of(session.work.objects.len(), object) else {
        return because(alloc, Cause::NoSuchObject);
    };
    at_work(alloc, unit, session, manager, place, call, Rule::OfManager)
}

/// A call whose route is an operation of a manager on an object, by its number.
pub(crate) fn worked<B: Behaviour>(
    alloc: Global,
    unit: &ServedUnit<B>,
    session: &mut Session,
    em: i64,
    object: i64,
    call: Call,
) -> Reply
    requires serving { IsServing (world_of_unit B.meaning unit.now) session.old }
    ensures step { route call ≡ OfManager em (on_numbered object (at_object call))
        → Serves (world_of_unit B.meaning unit.now) session.old call result session.new }
    ensures untold { tells_fault result ≡ false }
    ensures rest { IsAtRest unit.now.metamodel session.new }
{
    let Some(manager) = manager_named(session, em) else {
        return because(alloc, Cause::NoSuchManager);
    };
    numbered(alloc, unit, session, manager, object, call)
}

/// What is refused of an object by its number, among so many, where no transaction is open.
fn required_of(count: usize, object: i64) -> Cause
    ensures required { result ≡ routes.required_of (objects.place_of count object) }
    ensures untold { is_store_fault result ≡ false }
{
    match place_of(count, object) {
        None => Cause::NoSuchObject,
        Some(_) => Cause::TransactionRequired,
    }
}

/// A call whose route is an operation on an object, by its number, in the manager's open transaction
/// (chapter 3.4.4). `NoSuchObject` where the number names none, then `TransactionRequired` where no
/// transaction is open.
pub(crate) fn in_transaction<B: Behaviour>(
    alloc: Global,
    unit: &ServedUnit<B>,
    session: &mut Session,
    em: i64,
    object: i64,
    call: Call,
) -> Reply
    requires serving { IsServing (world_of_unit B.meaning unit.now) session.old }
    ensures step { let op = on_numbered object (at_object call) in
        route call ≡ InTransaction em (stands_numbered object) op
        → Serves (world_of_unit B.meaning unit.now) session.old call result session.new }
    ensures untold { tells_fault result ≡ false }
    ensures rest { IsAtRest unit.now.metamodel session.new }
{
    let Some(manager) = manager_named(session, em) else {
        return because(alloc, Cause::NoSuchManager);
    };
    if !status_of(&session.managers, manager).is_begun() {
        return because(alloc, required_of(session.work.objects.len(), object));
    }
    numbered(alloc, unit, session, manager, object, call)
}

/// The manager that holds an object in this state.
fn manager_holding(life: Life) -> Option<usize>
    ensures { result ≡ operations.manager_holding life }
{
    match life {
        Life::Managed(manager) | Life::Removed(manager) => Some(manager),
        Life::New | Life::Detached => None,
    }
}

/// A call whose route is an operation on an object, by its number, of the manager that holds it.
pub(crate) fn held<B: Behaviour>(
    alloc: Global,
    unit: &ServedUnit<B>,
    session: &mut Session,
    object: i64,
    call: Call,
) -> Reply
    requires serving { IsServing (world_of_unit B.meaning unit.now) session.old }
    ensures step { route call ≡ OfObject object (at_object call)
        → Serves (world_of_unit B.meaning unit.now) session.old call result session.new }
    ensures untold { tells_fault result ≡ false }
    ensures rest { IsAtRest unit.now.metamodel session.new }
{
    let Some(place) = place_of(session.work.objects.len(), object) else {
        return because(alloc, Cause::NoSuchObject);
    };
    let life = session.work.objects.as_slice()[place].life;
    match manager_holding(life) {
        Some(manager) => at_work(alloc, unit, session, manager, place, call, Rule::OfObject),
        None => unheld(alloc, unit, session, place, call),
    }
}
