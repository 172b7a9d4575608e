//! What an operation reads of the persistence context, and the lives of objects.
ghost use Rattle.std.specs.Prelude.{◌≡◌, ◌<◌, length, IfOk, IfErr, is_some, option_copied};
ghost use Rattle.jpa_value.specs.declared.refusal.Cause.{Cause};
ghost use Rattle.jpa_work.specs.context.Carries.{Carries};
ghost use Rattle.jpa_work.specs.context.Steps.{change};
ghost use Rattle.jpa_work.specs.context.Undo.{now, IsPlaced};
ghost use Rattle.jpa_work.specs.context.Work as works;
ghost use Rattle.jpa_operations.specs.ops.States as states;

use jpa_cascade::instance;
use jpa_model::Metamodel;
use jpa_value::{Cause, TryCopy};
use jpa_work::context::{Entry, UnitOfWork, place_laws};
use jpa_work::heap::{Life, identity_of};

/// Whether an object of the context has the identity of this one. Fails for want of memory alone,
/// with `OutOfMemory`.
pub fn has_instance(metamodel: &Metamodel, work: &UnitOfWork, object: usize) -> Result<bool, Cause>
    requires placed { IsPlaced metamodel.now (now work.now) }
    requires object { object < length work.now.objects.now }
    ensures ok { let w = now work.now in
        IfOk result (λ has. has
        ≡ states.has_instance metamodel.now w (works.identity_at metamodel.now w object)) }
    ensures err { IfErr result (λ cause. cause ≡ Cause.OutOfMemory) }
{
    match identity_of(metamodel, &work.objects.as_slice()[object])? {
        None => Ok(false),
        Some(id) => Ok(instance(metamodel, work, &id).is_some()),
    }
}

/// The entry of an object, found by the object. Takes no memory, and looks at no other entry.
pub fn entry_of(work: &UnitOfWork, object: usize) -> Option<&Entry>
    ensures { option_copied result ≡ works.entry_of (now work.now) object }
{
    place_laws();
    match work.context.place_of(object) {
        Some(place) => work.context.as_slice().get(place),
        None => None,
    }
}

/// Whether an object was loaded or written: whether its entry has a base. Takes no memory.
pub fn has_base(work: &UnitOfWork, object: usize) -> bool
    ensures { result ≡ is_some (works.base_of (now work.now) object) }
{
    match entry_of(work, object) {
        Some(entry) => entry.base.is_some(),
        None => false,
    }
}

/// An object lives otherwise. Fails for want of memory alone, with `OutOfMemory`.
pub fn set_life(work: &mut UnitOfWork, object: usize, life: Life) -> Result<(), Cause>
    requires { object < length work.old.objects.now }
    ensures carries { Carries (change (works.with_life_of object life)) result work.old work.new }
    ensures count { length work.new.objects.now ≡ length work.old.objects.now }
{
    let mut live = work.objects.as_slice()[object].try_copy()?;
    live.life = life;
    work.objects.set(object, live)?;
    Ok(())
}
