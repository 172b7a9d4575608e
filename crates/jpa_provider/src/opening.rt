//! Calls that make managers and objects, and begin transactions (Jakarta Persistence 3.1, chapters
//! 3.1.1 and 7.5).
ghost use Rattle.std.specs.Prelude.{◌≡◌, ◌++◌, ◌∷◌, [], false, is_ok, length, if◌then◌else◌};
ghost use Rattle.jpa_behaviour.specs.Served.{world_of_unit};
ghost use Rattle.jpa_protocol.specs.declared.call.Call.{Call};
ghost use Rattle.jpa_machine.specs.machine.Faults.{tells_fault};
ghost use Rattle.jpa_provider.specs.Serving.{IsAtRest, IsServing, Serves};

use crate::at_work::manager_named;
use crate::replies::{accepted, because};
use crate::session::{EntityManager, Session, Status, set_status, status_of};
use jpa_behaviour::{Behaviour, ServedUnit};
use jpa_flush::marking::other_laws;
use jpa_open::TransactionLayers;
use jpa_protocol::{Answer, FlushMode, Reply};
use jpa_value::{Argument, Cause, MOST_OBJECTS, MOST_OPEN_MANAGERS, State};
use jpa_work::context::PersistenceContext;
use jpa_work::heap::new_object;
use std::alloc::{AllocError, Global};

/// The most entity managers that one run makes.
const MOST_MANAGERS: usize = 1_000_000;

/// A manager stands behind the others, and is one of the open ones. For want of memory all stays as
/// it is.
fn add_manager(
    managers: &mut Vec<EntityManager>,
    places: &mut Vec<usize>,
    manager: EntityManager,
) -> Result<(), AllocError>
    ensures managers { managers.new.items ≡ (if is_ok result
        then managers.old.items ++ manager ∷ [] else managers.old.items) }
    ensures places { places.new.items ≡ (if is_ok result
        then places.old.items ++ length managers.old.items ∷ [] else places.old.items) }
{
    places.push(managers.len())?;
    if let Err(_) = managers.push(manager) {
        places.pop();
        return Err(AllocError);
    }
    Ok(())
}

/// The call createEntityManager. `Limit` where as many are open as may be, or as many were made.
#[tactic(auto, using(crate::proofs::Opened::create_gives_up))]
pub(crate) fn create_call<B: Behaviour>(
    alloc: Global,
    _unit: &ServedUnit<B>,
    session: &mut Session,
) -> Reply
    requires { IsServing (world_of_unit B.meaning _unit.now) session.old }
    ensures step { Serves (world_of_unit B.meaning _unit.now) session.old
        Call.CreateEntityManager result session.new }
    ensures untold { tells_fault result ≡ false }
    ensures rest { IsAtRest _unit.now.metamodel session.new }
{
    let count = session.managers.len();
    if session.open_places.len() >= MOST_OPEN_MANAGERS || count >= MOST_MANAGERS {
        return because(alloc, Cause::Limit);
    }
    let manager = EntityManager {
        status: Status::Inactive,
        mode: FlushMode::Auto,
        context: PersistenceContext::new(alloc),
        layers: TransactionLayers::new(alloc),
    };
    if let Err(_) = add_manager(&mut session.managers, &mut session.open_places, manager) {
        return because(alloc, Cause::OutOfMemory);
    }
    accepted(alloc, Answer::Number(count as u64 + 1))
}

/// The call begin: the transaction sees what is committed now. Takes no memory.
#[tactic(auto, using(crate::proofs::Opened::begin_alone, crate::proofs::Opened::begin_refused, crate::proofs::Opened::begin_begins))]
pub(crate) fn begin_call<B: Behaviour>(
    alloc: Global,
    _unit: &ServedUnit<B>,
    session: &mut Session,
    em: i64,
) -> Reply
    requires { IsServing (world_of_unit B.meaning _unit.now) session.old }
    ensures step { Serves (world_of_unit B.meaning _unit.now) session.old
        (Call.Begin em) result session.new }
    ensures untold { tells_fault result ≡ false }
    ensures rest { IsAtRest _unit.now.metamodel session.new }
{
    let Some(manager) = manager_named(session, em) else {
        return because(alloc, Cause::NoSuchManager);
    };
    if status_of(&session.managers, manager).is_begun() {
        return because(alloc, Cause::IllegalState(State::Active));
    }
    set_status(&mut session.managers, manager, Status::Active);
    accepted(alloc, Answer::Null)
}

/// The call new: an object of an entity.
pub(crate) fn new_call<B: Behaviour>(
    alloc: Global,
    unit: &ServedUnit<B>,
    session: &mut Session,
    entity: &str,
) -> Reply
    requires { IsServing (world_of_unit B.meaning unit.now) session.old }
    ensures step { let world = world_of_unit B.meaning unit.now in
        Serves world session.old (Call.NewObject entity.now) result session.new }
    ensures untold { tells_fault result ≡ false }
    ensures rest { IsAtRest unit.now.metamodel session.new }
{
    other_laws();
    let count = session.work.objects.len();
    if count >= MOST_OBJECTS {
        return because(alloc, Cause::Limit);
    }
    let Some(class) = unit.metamodel.class_of(entity) else {
        return because(alloc, Cause::IllegalArgument(Argument::Entity));
    };
    let object = match new_object(alloc, &unit.metamodel, class) {
        Ok(object) => object,
        Err(cause) => return because(alloc, cause),
    };
    match session.work.objects.push(object) {
        Err(_) => because(alloc, Cause::OutOfMemory),
        Ok(()) => {
            session.work.objects.keep();
            accepted(alloc, Answer::Object(count as u64 + 1))
        }
    }
}
