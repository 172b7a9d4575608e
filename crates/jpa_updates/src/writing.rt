//! What a statement writes over the set that a manager sees.
ghost use Rattle.std.specs.Prelude.{◌≡◌, true, IfErr, OnOk, OnErr};
ghost use Rattle.jpa_work.specs.context.Undo.{now, since};
ghost use Rattle.jpa_open.specs.Opened.{with_seen};
ghost use Rattle.jpa_updates.specs.Changing.{take_each};
ghost use Rattle.jpa_stored.specs.objects.Sets as sets;
ghost use Rattle.jpa_value.specs.declared.refusal.Cause.{Cause};

use jpa_open::OpenSet;
use jpa_stored::objects::Stored;
use jpa_value::{Cause, Identity, TryCopy};
use jpa_work::context::UnitOfWork;

/// Puts a copy of an object under its identity.
fn put(view: &mut OpenSet, object: &(Identity, Stored)) -> Result<(), Cause>
    ensures ok { OnOk result (view.new
        ≡ with_seen (sets.with_stored object.now.0 object.now.1 view.old.seen) view.old) }
    ensures kept { OnErr result (view.new ≡ view.old) }
    ensures err { IfErr result (λ cause. cause ≡ Cause.OutOfMemory) }
{
    view.put(object.0.try_copy()?, object.1.try_copy()?)
}

/// Puts copies of objects under their identities. What a refused call wrote is undone with the
/// work.
pub(crate) fn put_all(work: &mut UnitOfWork, objects: &[(Identity, Stored)]) -> Result<(), Cause>
    ensures ok { OnOk result (now work.new ≡ record (now work.old)
        { view = sets.put_all objects.now (now work.old).view }) }
    ensures events { (now work.new).events ≡ (now work.old).events }
    ensures err { IfErr result (λ cause. cause ≡ Cause.OutOfMemory) }
    ensures since { since work.new ≡ since work.old }
{
    for object in objects {
        put(&mut work.view, object)?;
    }
    Ok(())
}

/// Takes out what stands under identities. What a refused call took out is undone with the work.
pub(crate) fn take_all(work: &mut UnitOfWork, ids: &[Identity]) -> Result<(), Cause>
    ensures ok { OnOk result (now work.new ≡ record (now work.old)
        { view = take_each ids.now (now work.old).view }) }
    ensures events { (now work.new).events ≡ (now work.old).events }
    ensures err { IfErr result (λ cause. cause ≡ Cause.OutOfMemory) }
    ensures since { since work.new ≡ since work.old }
{
    for id in ids {
        work.view.remove(id)?;
    }
    Ok(())
}
