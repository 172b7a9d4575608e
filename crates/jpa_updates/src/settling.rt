//! A set that a statement changed is judged: it is seen where it is sound.
ghost use Rattle.std.specs.Prelude.{◌≡◌, T, length, true};
ghost use Rattle.std.specs.FinMap.Entries.{is_sorted};
ghost use Rattle.jpa_work.specs.context.Steps.{Meets};
ghost use Rattle.jpa_work.specs.context.Undo.{now, since};
ghost use Rattle.jpa_flush.specs.flush.Flush.{sound_or};
ghost use Rattle.jpa_constraints.specs.Changed.{IsChanged};
ghost use Rattle.jpa_updates.specs.Updates as updates;
ghost use Rattle.jpa_stored.specs.objects.Sets as sets;
ghost use Rattle.jpa_value.specs.Value.{identity_cmp};

use crate::places::{changes_at, changes_at_objects};
use crate::writing::{put_all, take_all};
use jpa_constraints::{Change, judge};
use jpa_model::Metamodel;
use jpa_stored::objects::Stored;
use jpa_value::{Cause, Identity};
use jpa_work::context::UnitOfWork;
use std::alloc::Global;

/// Whether the set that a manager sees is sound (chapters 2.9, 2.10 and 3.2.4) after these changes
/// of one that was so: else `Persistence` with the first part that fails, `Null`, `Reference` or
/// `Unique`.
fn judge_changes(
    metamodel: &Metamodel,
    work: &UnitOfWork,
    changes: &[Change<'_>],
) -> Result<(), Cause>
    requires rising { T (is_sorted identity_cmp (now work.now).view) }
    requires changed { IsChanged metamodel.now changes.now (now work.now).view }
    ensures meets { let fault = sets.fault_of metamodel.now (now work.now).view in
        Meets result (now work.now) (sound_or fault (now work.now)) }
{
    judge(metamodel, &work.view, changes)
}

/// The set with objects put is seen where it is sound; how many they are. `Persistence` with the
/// first part that fails, `Null`, `Reference` or `Unique`; `OutOfMemory` where a growth was
/// refused.
pub(crate) fn put_sound(
    alloc: Global,
    metamodel: &Metamodel,
    work: &mut UnitOfWork,
    objects: &[(Identity, Stored)],
) -> Result<usize, Cause>
    requires sound { sets.IsSound metamodel.now (now work.old).view }
    requires rising { T (is_sorted identity_cmp (now work.old).view) }
    ensures meets { Meets result (now work.new) (updates.settle metamodel.now
        (sets.put_all objects.now (now work.old).view, length objects.now) (now work.old)) }
    ensures since { since work.new ≡ since work.old }
{
    let changes = changes_at_objects(alloc, &work.view, objects)?;
    put_all(work, objects)?;
    judge_changes(metamodel, work, changes.as_slice())?;
    Ok(objects.len())
}

/// The set without what stands under identities is seen where it is sound; how many they are.
/// Refused as `put_sound` is.
pub(crate) fn take_sound(
    alloc: Global,
    metamodel: &Metamodel,
    work: &mut UnitOfWork,
    ids: &[Identity],
) -> Result<usize, Cause>
    requires sound { sets.IsSound metamodel.now (now work.old).view }
    requires rising { T (is_sorted identity_cmp (now work.old).view) }
    ensures meets { Meets result (now work.new) (updates.settle metamodel.now
        (sets.without ids.now (now work.old).view, length ids.now) (now work.old)) }
    ensures since { since work.new ≡ since work.old }
{
    let changes = changes_at(alloc, &work.view, ids)?;
    take_all(work, ids)?;
    judge_changes(metamodel, work, changes.as_slice())?;
    Ok(ids.len())
}
