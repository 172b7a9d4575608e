//! What the flush does with an entry of the context.
ghost use Rattle.std.specs.Prelude.{◌≡◌, ◌<◌, ◌||◌, length, IfOk, IfErr};
ghost use Rattle.jpa_value.specs.declared.refusal.Cause.{Cause};
ghost use Rattle.jpa_work.specs.context.Undo.{now};
ghost use Rattle.jpa_operations.specs.fetch.Grown.{IsReady};
ghost use Rattle.jpa_flush.specs.flush.Flush as flushes;
ghost use Rattle.jpa_flush.specs.flush.Plan as plans;

use crate::flush::differing::differs;
use jpa_cascade::state_of;
use jpa_model::Metamodel;
use jpa_value::Cause;
use jpa_work::context::{Base, EntityState, Entry, Lock, UnitOfWork};

/// What the flush does with an entry.
#[derive(Clone, Copy)]
pub enum FlushAction {
    Keep,
    Insert,
    /// In place of the row with the version that the object was loaded with.
    Replace(Option<i64>),
    /// The row with the version that the object was loaded with is taken out.
    Drop(Option<i64>),
}

/// Whether a managed object replaces its row: it is not what its base is, or its lock is to raise
/// the version (chapter 3.4.4).
fn replaces(
    metamodel: &Metamodel,
    work: &UnitOfWork,
    entry: &Entry,
    base: &Base,
) -> Result<bool, Cause>
    requires ready { IsReady metamodel.now (now work.now) }
    requires object { entry.now.object < length work.now.objects.now }
    ensures ok { IfOk result (λ replaces. replaces
        ≡ (flushes.differs metamodel.now (now work.now) entry.now.object base.now
        || flushes.is_write entry.now.lock)) }
    ensures err { IfErr result (λ cause. cause ≡ Cause.OutOfMemory) }
{
    let differs = differs(metamodel, work, entry.object, base)?;
    Ok(differs || matches!(entry.lock, Lock::Write))
}

/// What the flush does with an entry of a managed object that was written or loaded.
fn step_from(
    metamodel: &Metamodel,
    work: &UnitOfWork,
    entry: &Entry,
    base: &Base,
) -> Result<FlushAction, Cause>
    requires ready { IsReady metamodel.now (now work.now) }
    requires object { entry.now.object < length work.now.objects.now }
    ensures ok { IfOk result (λ step. step ≡ plans.step_as (flushes.replace_if
        (flushes.differs metamodel.now (now work.now) entry.now.object base.now
        || flushes.is_write entry.now.lock) base.now)) }
    ensures err { IfErr result (λ cause. cause ≡ Cause.OutOfMemory) }
{
    if replaces(metamodel, work, entry, base)? {
        Ok(FlushAction::Replace(base.stored.version))
    } else {
        Ok(FlushAction::Keep)
    }
}

/// What the flush does with an entry: a managed object that was not written yet is inserted, one
/// that differs from its base replaces its row, and the row of a removed object is taken out, if it
/// has one. `OutOfMemory` where a growth was refused.
pub fn step_of(
    metamodel: &Metamodel,
    work: &UnitOfWork,
    entry: &Entry,
) -> Result<FlushAction, Cause>
    requires ready { IsReady metamodel.now (now work.now) }
    requires object { entry.now.object < length work.now.objects.now }
    ensures ok { IfOk result
        (λ step. step ≡ plans.step_of metamodel.now (now work.now) entry.now) }
    ensures err { IfErr result (λ cause. cause ≡ Cause.OutOfMemory) }
{
    match (state_of(work, entry.object), &entry.base) {
        (EntityState::Managed, None) => Ok(FlushAction::Insert),
        (EntityState::Managed, Some(base)) => step_from(metamodel, work, entry, base),
        (EntityState::Removed, Some(base)) => Ok(FlushAction::Drop(base.stored.version)),
        _ => Ok(FlushAction::Keep),
    }
}
