//! Locking an object.
ghost use Rattle.std.specs.Prelude.{◌≡◌, ◌<◌, length, IfErr, OnOk};
ghost use Rattle.jpa_behaviour.specs.Behaviour.{World};
ghost use Rattle.jpa_work.specs.context.Steps.{Meets};
ghost use Rattle.jpa_work.specs.context.Undo.{now, since};
ghost use Rattle.jpa_work.specs.context.Work as works;
ghost use Rattle.jpa_operations.specs.fetch.Grown.{AreDistinct, IsReady};
ghost use Rattle.jpa_operations.specs.ops.States as states;
ghost use Rattle.jpa_value.specs.declared.refusal.Cause.{Cause};

use jpa_cascade::state_of;
use jpa_model::Metamodel;
use jpa_value::{Argument, Cause, PersistenceFault, TryCopy};
use jpa_work::context::{EntityState, Lock, UnitOfWork, place_laws};

/// The lock of an object that is locked again: one that raises the version stays where one is asked
/// that does not.
fn locked(lock: Lock, mode: Lock) -> Lock
    ensures { result ≡ states.locked lock mode }
{
    match (lock, mode) {
        (Lock::Write, Lock::Read) => Lock::Write,
        _ => mode,
    }
}

/// The object's entry is locked; without an entry nothing is. Fails for want of memory alone, with
/// `OutOfMemory`.
fn set_lock(work: &mut UnitOfWork, object: usize, mode: Lock) -> Result<(), Cause>
    requires distinct { AreDistinct work.old.context.now }
    ensures ok { let w = now work.old in
        let lock = states.locked (states.lock_in (works.entry_of w object)) mode in
        OnOk result (now work.new ≡ works.with_lock object lock w) }
    ensures err { IfErr result (λ cause. cause ≡ Cause.OutOfMemory) }
    ensures others { work.new ≡ record work.old { context = work.new.context } }
    ensures since { since work.new ≡ since work.old }
{
    place_laws();
    let Some(place) = work.context.place_of(object) else {
        return Ok(());
    };
    let entry = &work.context.as_slice()[place];
    let lock = locked(entry.lock, mode);
    let mut copy = entry.try_copy()?;
    copy.lock = lock;
    work.context.set(place, copy)?;
    Ok(())
}

/// A managed object of an entity with a version is locked (Jakarta Persistence 3.1, chapter 3.4.4):
/// a lock that raises the version stays where one is asked that does not.
///
/// `IllegalArgument(state)` where the object is not managed; `Persistence(version)` where its
/// entity has no version; `OutOfMemory`. What a refused call changed is undone by
/// `UnitOfWork::undo`.
pub fn lock(
    metamodel: &Metamodel,
    work: &mut UnitOfWork,
    object: usize,
    mode: Lock,
) -> Result<(), Cause>
    requires ready { IsReady metamodel.now (now work.old) }
    requires object { object < length work.old.objects.now }
    ensures meets { (world : World) → Meets result (now work.new)
        (states.lock (record world { model = metamodel.now }) object mode (now work.old)) }
    ensures view { work.new.view ≡ work.old.view }
    ensures since { since work.new ≡ since work.old }
{
    if !matches!(state_of(work, object), EntityState::Managed) {
        return Err(Cause::IllegalArgument(Argument::State));
    }
    if !metamodel.is_versioned(work.objects.as_slice()[object].class) {
        return Err(Cause::Persistence(PersistenceFault::Version));
    }
    set_lock(work, object, mode)
}
