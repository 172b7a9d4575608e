//! The call index: what will be looked up.
ghost use Rattle.std.specs.Prelude.{◌≡◌, ◌⊎◌, [], Ok, false};
ghost use Rattle.jpa_value.specs.declared.refusal.Cause.{Cause};
ghost use Rattle.jpa_behaviour.specs.Served.{world_of_unit};
ghost use Rattle.jpa_protocol.specs.declared.call.Call.{Call};
ghost use Rattle.jpa_protocol.specs.declared.reply.Answer.{Answer};
ghost use Rattle.jpa_machine.specs.machine.Faults.{tells_fault};
ghost use Rattle.jpa_machine.specs.machine.Step.{gives_up};
ghost use Rattle.jpa_provider.specs.Serving.{IsAtRest, IsServing, Serves};

use crate::replies::{accepted, because};
use crate::session::Session;
use jpa_behaviour::{Behaviour, ServedUnit};
use jpa_model::{Member, Metamodel};
use jpa_open::OpenSet;
use jpa_protocol::{Answer, Reply};
use jpa_value::{Argument, Cause};
use std::alloc::Global;

/// Makes the index of a part of the key or an attribute, where there is none, and answers: null, or
/// `OutOfMemory`, which leaves what there was.
fn keep_index(
    alloc: Global,
    metamodel: &Metamodel,
    view: &mut OpenSet,
    class: usize,
    member: Member,
) -> Reply
    ensures same { view.new ≡ view.old }
    ensures answer { (result ≡ record { events = []; answer = Ok Answer.Null })
        ⊎ (result ≡ gives_up Cause.OutOfMemory) }
{
    match view.index_by(metamodel, class, member) {
        Ok(()) => accepted(alloc, Answer::Null),
        Err(_) => because(alloc, Cause::OutOfMemory),
    }
}

/// The call index: from now on a part of the key or an attribute is looked up, and nothing else
/// changes. An unknown entity is `IllegalArgument(entity)`; an unknown name, the version and a
/// relation are `IllegalArgument(name)`. `OutOfMemory` leaves what there was.
#[tactic(auto, using(crate::proofs::Own::index_unknown, crate::proofs::Own::index_version, crate::proofs::Own::index_relation, crate::proofs::Own::index_none))]
pub(crate) fn index_call<B: Behaviour>(
    alloc: Global,
    unit: &ServedUnit<B>,
    session: &mut Session,
    entity: &str,
    name: &str,
) -> Reply
    requires { IsServing (world_of_unit B.meaning unit.now) session.old }
    ensures step { Serves (world_of_unit B.meaning unit.now) session.old
        (Call.Index entity.now name.now) result session.new }
    ensures untold { tells_fault result ≡ false }
    ensures rest { IsAtRest unit.now.metamodel session.new }
{
    let Some(class) = unit.metamodel.class_of(entity) else {
        return because(alloc, Cause::IllegalArgument(Argument::Entity));
    };
    let metamodel = &unit.metamodel;
    let view = &mut session.work.view;
    match metamodel.member_of(class, name) {
        Some(Member::KeyPart(place)) => {
            keep_index(alloc, metamodel, view, class, Member::KeyPart(place))
        }
        Some(Member::Attribute(place)) => {
            keep_index(alloc, metamodel, view, class, Member::Attribute(place))
        }
        Some(Member::Version) => because(alloc, Cause::IllegalArgument(Argument::Name)),
        Some(Member::Relation(_)) => because(alloc, Cause::IllegalArgument(Argument::Name)),
        None => because(alloc, Cause::IllegalArgument(Argument::Name)),
    }
}
