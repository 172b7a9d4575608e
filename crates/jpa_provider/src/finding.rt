//! The calls find and getReference (Jakarta Persistence 3.1, chapter 3.1.1).
ghost use Rattle.std.specs.Prelude.{◌≡◌, false};
ghost use Rattle.jpa_behaviour.specs.Served.{world_of_unit};
ghost use Rattle.jpa_work.specs.context.Carries.{Carries};
ghost use Rattle.jpa_work.specs.context.Steps.{Meets};
ghost use Rattle.jpa_work.specs.context.Undo.{now};
ghost use Rattle.jpa_work.specs.context.Work.{Work};
ghost use Rattle.jpa_operations.specs.fetch.Grown.{IsReady};
ghost use Rattle.jpa_machine.specs.machine.Faults.{tells_fault};
ghost use Rattle.jpa_machine.specs.machine.Routes as routes;
ghost use Rattle.jpa_machine.specs.machine.Routes.{route, OfManager};
ghost use Rattle.jpa_provider.specs.Operations.{by_key};
ghost use Rattle.jpa_provider.specs.Serving.{IsAtRest, IsServing, Serves};

use crate::at_work::{conclude, manager_named, take_work};
use crate::handing::{are_short, whole_key};
use crate::replies::{Rule, because};
use crate::session::Session;
use jpa_behaviour::{Behaviour, ServedUnit};
use jpa_operations::fetch::find;
use jpa_protocol::{Answer, Call, Given, Reply};
use jpa_value::{Argument, Cause, Seq, Text};
use jpa_work::context::UnitOfWork;
use std::alloc::Global;

/// Finds an object by the name of its entity and the parts of its key, by slices. `Limit` where a
/// part is too long, then `IllegalArgument` with `Entity` or `Key`, and what `find` refuses.
fn find_slices<B: Behaviour>(
    alloc: Global,
    unit: &ServedUnit<B>,
    work: &mut UnitOfWork,
    entity: &str,
    key: &[Given],
) -> Result<Answer, Cause>
    requires ready { IsReady unit.now.metamodel (now work.old) }
    ensures { let world = world_of_unit B.meaning unit.now in
        Carries (routes.find_call world entity.now key.now) result work.old work.new }
{
    if !are_short(key) {
        return Err(Cause::Limit);
    }
    let Some(class) = unit.metamodel.class_of(entity) else {
        return Err(Cause::IllegalArgument(Argument::Entity));
    };
    let Some(values) = whole_key(alloc, unit.metamodel.root_of(class).key.as_slice(), key)? else {
        return Err(Cause::IllegalArgument(Argument::Key));
    };
    let Some(place) = find(alloc, unit, work, class, values)? else {
        return Ok(Answer::Null);
    };
    // An object's number, one more than its place, is at most the count.
    let _count = work.objects.len();
    Ok(Answer::Object(place as u64 + 1))
}

/// Finds an object by the name of its entity and the parts of its key. Refused as `find_slices` is.
fn find_by_key<B: Behaviour>(
    alloc: Global,
    unit: &ServedUnit<B>,
    work: &mut UnitOfWork,
    entity: &Text,
    key: &Seq<Given>,
) -> Result<Answer, Cause>
    requires ready { IsReady unit.now.metamodel (now work.old) }
    ensures { let world = world_of_unit B.meaning unit.now in
        Carries (routes.find_call world entity.now key.now) result work.old work.new }
{
    find_slices(alloc, unit, work, entity.as_str(), key.as_slice())
}

/// An answer of find, where it found an object; else `EntityNotFound`.
fn there_must_be(found: Answer) -> Result<Answer, Cause>
    ensures { (w : Work) → Meets result w (routes.there_must_be found w) }
{
    match found {
        Answer::Null => Err(Cause::EntityNotFound),
        found => Ok(found),
    }
}

/// Does what a call does that looks for an object by its key. Refused as that is.
fn find_work<B: Behaviour>(
    alloc: Global,
    unit: &ServedUnit<B>,
    work: &mut UnitOfWork,
    call: Call,
) -> Result<Answer, Cause>
    requires ready { IsReady unit.now.metamodel (now work.old) }
    ensures { let world = world_of_unit B.meaning unit.now in
        Carries (by_key call world) result work.old work.new }
{
    match call {
        Call::Find { entity, key, .. } => find_by_key(alloc, unit, work, &entity, &key),
        Call::GetReference { entity, key, .. } => {
            let found = find_by_key(alloc, unit, work, &entity, &key)?;
            there_must_be(found)
        }
        _ => Ok(Answer::Null),
    }
}

/// A call whose route is a manager's search of an object by its key.
pub(crate) fn find_call<B: Behaviour>(
    alloc: Global,
    unit: &ServedUnit<B>,
    session: &mut Session,
    em: i64,
    call: Call,
) -> Reply
    requires serving { IsServing (world_of_unit B.meaning unit.now) session.old }
    ensures step { route call ≡ OfManager em (by_key call)
        → Serves (world_of_unit B.meaning unit.now) session.old call result session.new }
    ensures untold { tells_fault result ≡ false }
    ensures rest { IsAtRest unit.now.metamodel session.new }
{
    let Some(manager) = manager_named(session, em) else {
        return because(alloc, Cause::NoSuchManager);
    };
    take_work(session, manager);
    let answered = find_work(alloc, unit, &mut session.work, call);
    conclude(
        alloc,
        &unit.metamodel,
        session,
        manager,
        answered,
        Rule::OfManager,
    )
}
