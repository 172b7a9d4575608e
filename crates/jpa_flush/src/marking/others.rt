//! What a call of one manager leaves of the marks of others, with whom it shares the objects.
ghost use Rattle.std.specs.Prelude.{◌≡◌, true};
ghost use Rattle.jpa_work.specs.context.Undo.{now};
ghost use Rattle.jpa_work.specs.context.Work as works;
ghost use Rattle.jpa_flush.specs.flush.Marked as marked;
ghost use Rattle.jpa_flush.specs.marking.Shared.{OthersGoOn, OthersStay, OwnStay, TheirsStay};

use crate::flush::keep_names;
use jpa_work::context::UnitOfWork;
use jpa_work::heap::{Life, LiveObject};

/// Laws of marks of several managers, for contracts and proofs to cite; it does nothing. What a
/// call of one manager leaves of the marks of another one; what is left of a manager's own marks
/// where removed objects are let go; and of those of another one where a manager lets go what it
/// holds.
pub fn other_laws()
    ensures stay { OthersGoOn }
    ensures own { OwnStay }
    ensures let_go { TheirsStay }
{}

/// Whether an object in this state is held by no manager but this one.
fn is_free_for(manager: usize, life: Life) -> bool
    ensures { result ≡ marked.is_free_for manager life }
{
    match life {
        Life::New | Life::Detached => true,
        Life::Managed(holder) | Life::Removed(holder) => holder == manager,
    }
}

/// Whether neither the object that stands at a place nor one that stood there is another manager's.
fn keeps_others_at(work: &UnitOfWork, at: usize, old: &LiveObject) -> bool
    ensures { result ≡ true → marked.keeps_others work.now.manager old.now
        (works.object (now work.now) at) ≡ true }
{
    let manager = work.manager;
    match work.objects.as_slice().get(at) {
        Some(new) => is_free_for(manager, old.life) && is_free_for(manager, new.life),
        None => false,
    }
}

/// Whether the marks of each other manager say of the work as it is what they said of the work as
/// it was last kept: no object that was overwritten since then was or is another manager's, or took
/// another name. It looks at these alone, and takes no memory.
pub fn keep_others(work: &UnitOfWork) -> bool
    ensures { result ≡ true → OthersStay work.now }
{
    if !keep_names(work) {
        return false;
    }
    let noted = work.objects.overwritten();
    for note in noted {
        if !keeps_others_at(work, note.0, &note.1) {
            return false;
        }
    }
    true
}
