//! Whether a flush need not look at an object: it is as its base says.
ghost use Rattle.std.specs.Prelude.{◌≡◌, ◌<◌, ◌&&◌, All, length, IfOk, IfErr};
ghost use Rattle.std.specs.List.{list_all};
ghost use Rattle.jpa_value.specs.declared.refusal.Cause.{Cause};
ghost use Rattle.jpa_work.specs.context.Undo.{now};
ghost use Rattle.jpa_work.specs.context.Work as works;
ghost use Rattle.jpa_operations.specs.fetch.Grown.{IsReady, objects_held};
ghost use Rattle.jpa_flush.specs.flush.Marked as marked;

use crate::flush::differing::are_same_values;
use crate::flush::still::knows_all_still;
use jpa_cascade::state_of;
use jpa_model::Metamodel;
use jpa_value::Cause;
use jpa_work::context::{Base, EntityState, Entry, Lock, UnitOfWork};
use jpa_work::heap::{Collection, Held, Life, Link};

/// Whether an object stands in the heap and is not new, so that its key is the same from now on.
fn is_named(work: &UnitOfWork, object: usize) -> bool
    ensures { result ≡ marked.is_named (now work.now) object }
{
    match work.objects.as_slice().get(object) {
        Some(live) => !matches!(live.life, Life::New),
        None => false,
    }
}

/// Whether each of these objects is.
fn all_named(work: &UnitOfWork, objects: &[usize]) -> bool
    ensures { result ≡ list_all (marked.is_named (now work.now)) objects.now }
{
    for object in objects {
        if !is_named(work, *object) {
            return false;
        }
    }
    true
}

/// Whether each object that a relation holds is.
fn holds_named(work: &UnitOfWork, held: &Held) -> bool
    ensures { result ≡ marked.holds_named (now work.now) held.now }
{
    match held {
        Held::One(Link::Object(object)) => is_named(work, *object),
        Held::Many(Collection::Fetched(objects)) => all_named(work, objects.as_slice()),
        _ => true,
    }
}

/// Whether each object that these relations hold is.
fn hold_named(work: &UnitOfWork, relations: &[Held]) -> bool
    ensures { result ≡ list_all (marked.holds_named (now work.now)) relations.now }
{
    for held in relations {
        if !holds_named(work, held) {
            return false;
        }
    }
    true
}

/// Whether a base has the values of an object and remembers what its relations hold.
fn is_base(
    metamodel: &Metamodel,
    work: &UnitOfWork,
    object: usize,
    base: &Option<Base>,
) -> Result<bool, Cause>
    requires ready { IsReady metamodel.now (now work.now) }
    requires object { object < length work.now.objects.now }
    ensures ok { IfOk result
        (λ is_base. is_base ≡ marked.is_base metamodel.now (now work.now) object base.now) }
    ensures err { IfErr result (λ cause. cause ≡ Cause.OutOfMemory) }
{
    let Some(base) = base else {
        return Ok(false);
    };
    let values = work.objects.as_slice()[object].values.as_slice();
    if !are_same_values(values, base.stored.values.as_slice()) {
        return Ok(false);
    }
    knows_all_still(metamodel, work, object, base)
}

/// Whether an entry's object is as its base says and holds no new object. Fails for want of memory
/// alone, with `OutOfMemory`.
fn is_unchanged(metamodel: &Metamodel, work: &UnitOfWork, entry: &Entry) -> Result<bool, Cause>
    requires ready { IsReady metamodel.now (now work.now) }
    requires object { entry.now.object < length work.now.objects.now }
    ensures ok { IfOk result (λ unchanged. unchanged
        ≡ (marked.is_base metamodel.now (now work.now) entry.now.object entry.now.base
        && list_all (marked.holds_named (now work.now))
        (works.object (now work.now) entry.now.object).relations)) }
    ensures err { IfErr result (λ cause. cause ≡ Cause.OutOfMemory) }
{
    if !is_base(metamodel, work, entry.object, &entry.base)? {
        return Ok(false);
    }
    let relations = work.objects.as_slice()[entry.object].relations.as_slice();
    Ok(hold_named(work, relations))
}

/// Whether an entry's object is managed and without a lock, is as its base says, and holds no new
/// object: whether no flush writes, removes, compares or remembers anything of it. Fails for want
/// of memory alone, with `OutOfMemory`.
pub fn is_calm(metamodel: &Metamodel, work: &UnitOfWork, entry: &Entry) -> Result<bool, Cause>
    requires ready { IsReady metamodel.now (now work.now) }
    requires object { entry.now.object < length work.now.objects.now }
    ensures ok { IfOk result
        (λ calm. calm ≡ marked.is_calm metamodel.now (now work.now) entry.now) }
    ensures err { IfErr result (λ cause. cause ≡ Cause.OutOfMemory) }
{
    if !matches!(state_of(work, entry.object), EntityState::Managed) {
        return Ok(false);
    }
    if !matches!(entry.lock, Lock::Unlocked) {
        return Ok(false);
    }
    is_unchanged(metamodel, work, entry)
}

/// Whether an entry's object is managed, is as its base says, and holds no new object: whether the
/// entry is calm once its lock is over. Fails as `is_calm`.
pub fn is_calm_unlocked(
    metamodel: &Metamodel,
    work: &UnitOfWork,
    entry: &Entry,
) -> Result<bool, Cause>
    requires ready { IsReady metamodel.now (now work.now) }
    requires object { entry.now.object < length work.now.objects.now }
    ensures ok { IfOk result (λ calm. calm
        ≡ marked.is_calm metamodel.now (now work.now) (works.unlocked entry.now)) }
    ensures err { IfErr result (λ cause. cause ≡ Cause.OutOfMemory) }
{
    if !matches!(state_of(work, entry.object), EntityState::Managed) {
        return Ok(false);
    }
    is_unchanged(metamodel, work, entry)
}
