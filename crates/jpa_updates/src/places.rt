//! Where a statement changes the set that a manager sees.
ghost use Rattle.std.specs.Prelude.{◌≡◌, map, IfOk, IfErr};
ghost use Rattle.jpa_open.specs.Opened as opened;
ghost use Rattle.jpa_updates.specs.Changing.{ArePlaces, name_of, place_in, place_of};
ghost use Rattle.jpa_value.specs.declared.refusal.Cause.{Cause};

use jpa_constraints::Change;
use jpa_open::OpenSet;
use jpa_stored::objects::Stored;
use jpa_value::{Cause, Identity};
use std::alloc::Global;

/// A change at an identity, with the class of what stands there.
fn change_at<'a>(view: &OpenSet, id: &'a Identity) -> Change<'a>
    ensures { place_of result ≡ place_in (opened.now view.now) id.now }
{
    let class_before = match view.get(id) {
        None => None,
        Some(object) => Some(object.class),
    };
    Change { id, class_before }
}

/// The changes at the identities of objects. Fails for want of memory alone, with `OutOfMemory`.
pub(crate) fn changes_at_objects<'a>(
    alloc: Global,
    view: &OpenSet,
    objects: &'a [(Identity, Stored)],
) -> Result<Vec<Change<'a>>, Cause>
    ensures ok { IfOk result (λ changes.
        ArePlaces (opened.now view.now) (map name_of objects.now) changes.items) }
    ensures err { IfErr result (λ cause. cause ≡ Cause.OutOfMemory) }
{
    let mut changes = Vec::new(alloc);
    for object in objects {
        changes.push(change_at(view, &object.0))?;
    }
    Ok(changes)
}

/// The changes at identities. Fails for want of memory alone, with `OutOfMemory`.
pub(crate) fn changes_at<'a>(
    alloc: Global,
    view: &OpenSet,
    ids: &'a [Identity],
) -> Result<Vec<Change<'a>>, Cause>
    ensures ok { IfOk result (λ changes.
        ArePlaces (opened.now view.now) ids.now changes.items) }
    ensures err { IfErr result (λ cause. cause ≡ Cause.OutOfMemory) }
{
    let mut changes = Vec::new(alloc);
    for id in ids {
        changes.push(change_at(view, id))?;
    }
    Ok(changes)
}
