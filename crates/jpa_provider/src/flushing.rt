//! The call flush (Jakarta Persistence 3.1, chapter 3.2.4).
ghost use Rattle.std.specs.Prelude.{◌≡◌, false};
ghost use Rattle.jpa_behaviour.specs.Served.{world_of_unit};
ghost use Rattle.jpa_work.specs.context.Steps.{Meets};
ghost use Rattle.jpa_work.specs.context.Undo.{now, since};
ghost use Rattle.jpa_protocol.specs.declared.call.Call.{Call};
ghost use Rattle.jpa_machine.specs.machine.Faults.{tells_fault};
ghost use Rattle.jpa_machine.specs.machine.Routes as routes;
ghost use Rattle.jpa_provider.specs.Stages.{CanFlush};
ghost use Rattle.jpa_provider.specs.Serving.{IsAtRest, IsServing, Serves};

use crate::at_work::{conclude, manager_named, take_work};
use crate::replies::{Rule, because};
use crate::session::{Session, status_of};
use jpa_behaviour::{Behaviour, ServedUnit};
use jpa_flush::flush::flush;
use jpa_protocol::{Answer, Reply};
use jpa_value::Cause;
use jpa_work::context::UnitOfWork;
use std::alloc::Global;

/// The flush of a manager at work, and its answer. Refused as the flush is.
fn flush_work<B: Behaviour>(
    alloc: Global,
    unit: &ServedUnit<B>,
    work: &mut UnitOfWork,
) -> Result<Answer, Cause>
    requires { CanFlush unit.now.metamodel work.old }
    ensures meets { Meets result (now work.new)
        (routes.flush_call (world_of_unit B.meaning unit.now) (now work.old)) }
    ensures since { since work.new ≡ since work.old }
{
    flush(alloc, unit, work)?;
    Ok(Answer::Null)
}

/// The call flush: what the manager's objects differ in is written to the set that its transaction
/// sees, and to no store. `TransactionRequired` where none is open.
#[tactic(auto, using(crate::proofs::Routed::flush_alone))]
pub(crate) fn flush_call<B: Behaviour>(
    alloc: Global,
    unit: &ServedUnit<B>,
    session: &mut Session,
    em: i64,
) -> Reply
    requires serving { IsServing (world_of_unit B.meaning unit.now) session.old }
    ensures step { Serves (world_of_unit B.meaning unit.now) session.old
        (Call.Flush em) result session.new }
    ensures untold { tells_fault result ≡ false }
    ensures rest { IsAtRest unit.now.metamodel session.new }
{
    let Some(manager) = manager_named(session, em) else {
        return because(alloc, Cause::NoSuchManager);
    };
    if !status_of(&session.managers, manager).is_begun() {
        return because(alloc, Cause::TransactionRequired);
    }
    take_work(session, manager);
    let answered = flush_work(alloc, unit, &mut session.work);
    conclude(
        alloc,
        &unit.metamodel,
        session,
        manager,
        answered,
        Rule::OfManager,
    )
}
