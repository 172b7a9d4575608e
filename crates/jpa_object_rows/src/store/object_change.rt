//! What a commit is to write of an object.
ghost use Rattle.std.specs.Prelude.{◌≡◌, true, IfOk, IfErr};
ghost use Rattle.jpa_value.specs.declared.refusal.Cause.{Cause};
ghost use Rattle.jpa_object_rows.specs.store.Written.{entries_in, entries_of};

use jpa_open::OpenSet;
use jpa_stored::objects::Stored;
use jpa_value::{Cause, Identity};
use std::alloc::Global;

/// What is to stand under an identity: an object, in the place of the one that is committed if
/// there is one, or none, so that the one that is committed goes.
#[derive(Clone, Copy)]
pub(super) struct ObjectChange<'a> {
    pub(super) id: &'a Identity,
    pub(super) object: Option<&'a Stored>,
}

/// What is to stand under identities is what the view's transaction sees there.
pub(super) fn changes_of<'a>(
    alloc: Global,
    view: &'a OpenSet,
    ids: &'a [Identity],
) -> Result<Vec<ObjectChange<'a>>, Cause>
    ensures ok { IfOk result (λ changes.
        entries_in changes.items ≡ entries_of view.now.seen ids.now) }
    ensures err { IfErr result (λ cause. cause ≡ Cause.OutOfMemory) }
{
    let mut changes = Vec::new(alloc);
    for id in ids {
        changes.push(ObjectChange {
            id,
            object: view.get(id),
        })?;
    }
    Ok(changes)
}
