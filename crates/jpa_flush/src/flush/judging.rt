//! Whether the set is sound after a write.
ghost use Rattle.std.specs.Prelude.{◌≡◌, List, IfOk, IfErr};
ghost use Rattle.jpa_work.specs.context.Steps.{Meets};
ghost use Rattle.jpa_work.specs.context.Undo.{now};
ghost use Rattle.jpa_work.specs.context.Work.{Work};
ghost use Rattle.jpa_stored.specs.objects.Sets.{fault_of};
ghost use Rattle.jpa_value.specs.declared.refusal.Cause.{Cause};
ghost use Rattle.jpa_flush.specs.flush.Changes.{AreChangesOf, IsWritten};
ghost use Rattle.jpa_flush.specs.declared.flush.planning.Planned.{Planned};
ghost use Rattle.jpa_flush.specs.flush.Flush as flushes;

use crate::flush::writing::Written;
use jpa_constraints::{Change, judge};
use jpa_model::Metamodel;
use jpa_value::Cause;
use jpa_work::context::UnitOfWork;
use std::alloc::Global;

/// The changes of a set where these were written.
fn changes_of(alloc: Global, written: &[Written]) -> Result<Vec<Change<'_>>, Cause>
    ensures ok { IfOk result (λ changes. AreChangesOf written.now changes.items) }
    ensures err { IfErr result (λ cause. cause ≡ Cause.OutOfMemory) }
{
    let mut changes = Vec::new(alloc);
    for object in written {
        if let Some(id) = &object.id {
            changes.push(Change {
                id,
                class_before: object.class_before,
            })?;
        }
    }
    Ok(changes)
}

/// Whether the set that a manager sees is sound (chapters 2.9, 2.10 and 3.2.4) after a plan was
/// written over one that was so: else `Persistence` with the first part that fails, `Null`,
/// `Reference` or `Unique`; `OutOfMemory` where a growth was refused. Looks at what was written, at
/// what that leads to, and at what leads to what was taken out.
pub fn judge_written(
    alloc: Global,
    metamodel: &Metamodel,
    work: &UnitOfWork,
    written: &[Written],
) -> Result<(), Cause>
    requires written { (before : Work) × (plan : List Planned) ×
        IsWritten metamodel.now before plan written.now (now work.now).view }
    ensures meets { let fault = fault_of metamodel.now (now work.now).view in
        Meets result (now work.now) (flushes.sound_or fault (now work.now)) }
{
    let changes = changes_of(alloc, written)?;
    judge(metamodel, &work.view, changes.as_slice())
}
