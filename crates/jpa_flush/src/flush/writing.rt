//! What is written over the set that a manager sees.
ghost use Rattle.std.specs.Prelude.{◌≡◌, IfOk, IfErr, OnOk};
ghost use Rattle.jpa_work.specs.context.Undo.{now, since};
ghost use Rattle.jpa_open.specs.Opened.{IsUndone};
ghost use Rattle.jpa_value.specs.declared.refusal.Cause.{Cause};
ghost use Rattle.jpa_flush.specs.flush.Plan as plans;

use crate::flush::planning::Planned;
use jpa_open::OpenSet;
use jpa_stored::objects::Stored;
use jpa_value::{Cause, Identity, LifecycleEvent, Seq, TryCopy};
use jpa_work::context::UnitOfWork;
use std::alloc::Global;

/// An object that was written or taken out, with the event that is told of it.
#[derive(Drop)]
pub struct Written {
    pub object: usize,
    pub id: Option<Identity>,
    pub event: LifecycleEvent,
    /// The class of what stood under its identity before.
    pub class_before: Option<usize>,
}

/// Puts what is to stand under an identity into a set, or takes out what stands there.
fn put_or_take(
    view: &mut OpenSet,
    id: &Option<Identity>,
    stored: Option<Stored>,
) -> Result<(), Cause>
    ensures ok { OnOk result (view.new.seen ≡ plans.put_or_take id.now stored view.old.seen) }
    ensures undone { IsUndone view.old view.new }
    ensures err { IfErr result (λ cause. cause ≡ Cause.OutOfMemory) }
{
    match (id, stored) {
        (None, _) => Ok(()),
        (Some(id), None) => view.remove(id),
        (Some(id), Some(stored)) => view.put(id.try_copy()?, stored),
    }
}

/// Writes what a plan has of one object over a set, or takes out what stands under its identity.
fn write(view: &mut OpenSet, planned: Planned) -> Result<Written, Cause>
    ensures ok { OnOk result (view.new.seen ≡ plans.write planned view.old.seen) }
    ensures written { IfOk result (λ written. written ≡ plans.written_as planned) }
    ensures undone { IsUndone view.old view.new }
    ensures err { IfErr result (λ cause. cause ≡ Cause.OutOfMemory) }
{
    let Planned {
        object,
        id,
        event,
        class_before,
        stored,
    } = planned;
    put_or_take(view, &id, stored)?;
    Ok(Written {
        object,
        id,
        event,
        class_before,
    })
}

/// Writes a plan over the set that the manager sees, and answers what was written. What a refused
/// call wrote is undone with the work.
pub fn write_all(
    alloc: Global,
    work: &mut UnitOfWork,
    plan: Seq<Planned>,
) -> Result<Seq<Written>, Cause>
    ensures ok { OnOk result (now work.new
        ≡ record (now work.old) { view = plans.write_each plan (now work.old).view }) }
    ensures written { IfOk result (λ written. written ≡ plans.written_by plan) }
    ensures events { (now work.new).events ≡ (now work.old).events }
    ensures err { IfErr result (λ cause. cause ≡ Cause.OutOfMemory) }
    ensures since { since work.new ≡ since work.old }
{
    let mut written = Seq::new(alloc);
    for planned in plan.into_vec() {
        written.push(write(&mut work.view, planned)?)?;
    }
    Ok(written)
}
