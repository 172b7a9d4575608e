//! How calls end.
ghost use Rattle.std.specs.Prelude.{◌≡◌, [], Ok, Err};
ghost use Rattle.jpa_value.specs.declared.refusal.Refusal.{Refusal};
ghost use Rattle.jpa_machine.specs.machine.Calls as calls;
ghost use Rattle.jpa_provider.specs.Operations as operations;

use jpa_protocol::{Answer, Reply, Told};
use jpa_value::{Cause, PersistenceFault, Refusal, Seq};
use std::alloc::Global;

/// An answer, with nothing told.
pub(crate) fn accepted(alloc: Global, answer: Answer) -> Reply
    ensures { result ≡ record { events = []; answer = Ok answer } }
{
    Reply {
        events: Seq::new(alloc),
        answer: Ok(answer),
    }
}

/// A refusal, with nothing told.
pub(crate) fn because(alloc: Global, cause: Cause) -> Reply
    ensures { result ≡ record { events = []; answer = Err (Refusal.Because cause) } }
{
    Reply {
        events: Seq::new(alloc),
        answer: Err(Refusal::Because(cause)),
    }
}

/// Which refusals leave the manager's transaction able only to roll back: those of a call that
/// names a manager, or those of
/// a call that names an object.
#[derive(Clone, Copy)]
pub enum Rule {
    OfManager,
    OfObject,
}

/// Whether a refusal of a call that names a manager leaves its transaction able only to roll back.
fn marks(cause: &Cause) -> bool
    ensures { result ≡ calls.marks cause.now }
{
    match cause {
        Cause::IllegalArgument(_)
        | Cause::IllegalState(_)
        | Cause::TransactionRequired
        | Cause::EntityExists
        | Cause::EntityNotFound
        | Cause::OptimisticLock
        | Cause::Persistence(_)
        | Cause::Listener(_)
        | Cause::Overflow
        | Cause::Limit => true,
        _ => false,
    }
}

/// Whether a refusal of a call that names an object leaves its manager's transaction able only to
/// roll back.
fn marks_if_callback(cause: &Cause) -> bool
    ensures { result ≡ calls.marks_if_callback cause.now }
{
    matches!(
        cause,
        Cause::Persistence(PersistenceFault::Callback) | Cause::Listener(_)
    )
}

/// Whether a refusal leaves the transaction able only to roll back.
pub(crate) fn is_marked_by(rule: Rule, cause: &Cause) -> bool
    ensures { result ≡ operations.is_marked_by rule cause.now }
{
    match rule {
        Rule::OfManager => marks(cause),
        Rule::OfObject => marks_if_callback(cause),
    }
}

/// The events that are told with a refusal: none for want of memory, and for a fault of the store.
pub(crate) fn told_of(alloc: Global, cause: &Cause, events: Seq<Told>) -> Seq<Told>
    ensures { result ≡ operations.told_of cause.now events }
{
    match cause {
        Cause::OutOfMemory | Cause::StoreFault => Seq::new(alloc),
        _ => events,
    }
}
