//! Questions to a manager, which change nothing (Jakarta Persistence 3.1, chapter 3.2.8).
ghost use Rattle.std.specs.Prelude.{◌≡◌, false};
ghost use Rattle.jpa_behaviour.specs.Served.{world_of_unit};
ghost use Rattle.jpa_work.specs.context.Work.{is_managed, state_from};
ghost use Rattle.jpa_protocol.specs.declared.call.Call.{Call};
ghost use Rattle.jpa_machine.specs.machine.Faults.{tells_fault};
ghost use Rattle.jpa_provider.specs.Serving.{Serves};

use crate::at_work::manager_named;
use crate::handing::place_of;
use crate::replies::{accepted, because};
use crate::session::Session;
use jpa_behaviour::{Behaviour, ServedUnit};
use jpa_protocol::{Answer, Reply};
use jpa_value::Cause;
use jpa_work::heap::Life;
use std::alloc::Global;

/// Whether an object in this state is managed by the manager.
fn is_managed_by(life: Life, manager: usize) -> bool
    ensures { result ≡ is_managed (state_from manager life) }
{
    match life {
        Life::Managed(holder) => holder == manager,
        _ => false,
    }
}

/// The call contains: whether an object is managed by the manager, written or not. Takes no memory.
#[tactic(auto, using(crate::proofs::Asked::contains_alone, crate::proofs::Asked::contains_unknown, crate::proofs::Asked::contains_told))]
pub(crate) fn contains_call<B: Behaviour>(
    alloc: Global,
    _unit: &ServedUnit<B>,
    session: &Session,
    em: i64,
    object: i64,
) -> Reply
    ensures step { Serves (world_of_unit B.meaning _unit.now) session.now
        (Call.Contains em object) result session.now }
    ensures untold { tells_fault result ≡ false }
{
    let Some(manager) = manager_named(session, em) else {
        return because(alloc, Cause::NoSuchManager);
    };
    let Some(place) = place_of(session.work.objects.len(), object) else {
        return because(alloc, Cause::NoSuchObject);
    };
    let life = session.work.objects.as_slice()[place].life;
    accepted(alloc, Answer::Truth(is_managed_by(life, manager)))
}
