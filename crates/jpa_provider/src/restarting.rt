//! The call restart.
ghost use Rattle.std.specs.Prelude.{◌≡◌, false};
ghost use Rattle.std.specs.List.{list_any};
ghost use Rattle.jpa_behaviour.specs.Served.{world_of_unit};
ghost use Rattle.jpa_protocol.specs.declared.call.Call.{Call};
ghost use Rattle.jpa_machine.specs.machine.Faults.{tells_fault};
ghost use Rattle.jpa_machine.specs.machine.Machine.{restarted};
ghost use Rattle.jpa_provider.specs.Serving.{machine_of, is_begun_status, IsAtRest, IsServing, Serves, StaysAtRest};

use crate::replies::{accepted, because};
use crate::session::{EntityManager, Session};
use jpa_behaviour::{Behaviour, ServedUnit};
use jpa_protocol::{Answer, Reply};
use jpa_value::{Cause, State};
use jpa_work::undo::UndoList;
use std::alloc::Global;

/// Whether any manager has an open transaction. Takes no memory.
fn any_begun(managers: &[EntityManager]) -> bool
    ensures { result ≡ list_any (λ x. is_begun_status x.status) managers.now }
{
    managers.iter().any(|manager| manager.status.is_begun())
}

/// All managers and objects go. Takes no memory.
fn forget(alloc: Global, session: &mut Session)
    ensures machine { machine_of session.new ≡ restarted (machine_of session.old) }
    ensures rest { StaysAtRest session.old session.new }
{
    session.managers = Vec::new(alloc);
    session.open_places = Vec::new(alloc);
    session.work.objects = UndoList::new(alloc);
}

/// The call restart: numbers begin anew, and generated keys go on where they were.
/// `IllegalState(active)` where a transaction is open. Takes no memory.
#[tactic(auto, using(crate::proofs::Own::restart_active, crate::proofs::Own::restart_restarts))]
pub(crate) fn restart_call<B: Behaviour>(
    alloc: Global,
    _unit: &ServedUnit<B>,
    session: &mut Session,
) -> Reply
    requires { IsServing (world_of_unit B.meaning _unit.now) session.old }
    ensures step { Serves (world_of_unit B.meaning _unit.now) session.old
        Call.Restart result session.new }
    ensures untold { tells_fault result ≡ false }
    ensures rest { IsAtRest _unit.now.metamodel session.new }
{
    if any_begun(session.managers.as_slice()) {
        return because(alloc, Cause::IllegalState(State::Active));
    }
    forget(alloc, session);
    accepted(alloc, Answer::Null)
}
