//! The call setFlushMode (Jakarta Persistence 3.1, chapter 3.10.8).
ghost use Rattle.std.specs.Prelude.{◌≡◌, ◌<◌, false, length};
ghost use Rattle.jpa_behaviour.specs.Served.{world_of_unit};
ghost use Rattle.jpa_protocol.specs.declared.call.Call.{Call};
ghost use Rattle.jpa_machine.specs.machine.Faults.{tells_fault};
ghost use Rattle.jpa_machine.specs.machine.Machine.{with_mode};
ghost use Rattle.jpa_provider.specs.Serving.{machine_of, IsAtRest, IsServing, Serves, StaysAtRest};

use crate::at_work::manager_named;
use crate::replies::{accepted, because};
use crate::session::{Session, set_mode};
use jpa_behaviour::{Behaviour, ServedUnit};
use jpa_protocol::{Answer, FlushMode, Reply};
use jpa_value::Cause;
use std::alloc::Global;

/// The manager has this flush mode from now on. Takes no memory.
fn change_mode(session: &mut Session, manager: usize, mode: FlushMode)
    requires within { manager < length session.old.managers.items }
    ensures mode { machine_of session.new ≡ with_mode (machine_of session.old) manager mode }
    ensures rest { StaysAtRest session.old session.new }
{
    set_mode(&mut session.managers, manager, mode);
}

/// The call setFlushMode. Takes no memory.
#[tactic(auto, using(crate::proofs::Asked::mode_alone, crate::proofs::Asked::mode_set))]
pub(crate) fn set_flush_mode_call<B: Behaviour>(
    alloc: Global,
    _unit: &ServedUnit<B>,
    session: &mut Session,
    em: i64,
    mode: FlushMode,
) -> Reply
    requires { IsServing (world_of_unit B.meaning _unit.now) session.old }
    ensures step { Serves (world_of_unit B.meaning _unit.now) session.old
        (Call.SetFlushMode em mode) result session.new }
    ensures untold { tells_fault result ≡ false }
    ensures rest { IsAtRest _unit.now.metamodel session.new }
{
    let Some(manager) = manager_named(session, em) else {
        return because(alloc, Cause::NoSuchManager);
    };
    change_mode(session, manager, mode);
    accepted(alloc, Answer::Null)
}
