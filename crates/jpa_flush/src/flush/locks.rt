//! The locks of a context at a commit.
ghost use Rattle.std.specs.Prelude.{◌≡◌, ◌<◌, ◌&&◌, length, true, IfOk, IfErr};
ghost use Rattle.jpa_work.specs.context.Undo.{now};
ghost use Rattle.jpa_work.specs.context.Work as works;
ghost use Rattle.jpa_operations.specs.fetch.Grown.{IsReady};
ghost use Rattle.jpa_flush.specs.flush.Flush as flushes;
ghost use Rattle.jpa_flush.specs.flush.Marked as marked;
ghost use Rattle.jpa_value.specs.declared.refusal.Cause.{Cause};

use crate::flush::checking::is_current;
use jpa_cascade::state_of;
use jpa_model::Metamodel;
use jpa_value::Cause;
use jpa_work::context::{Base, EntityState, Entry, Lock, UnitOfWork};
use jpa_work::heap::identity_of;

/// Whether an entry's object is managed and locked to be read. Takes no memory.
fn is_read(work: &UnitOfWork, entry: &Entry) -> bool
    requires { entry.now.object < length work.now.objects.now }
    ensures { result ≡ (flushes.is_read_lock entry.now.lock
        && works.is_managed (works.state_of (now work.now) entry.now.object)) }
{
    matches!(entry.lock, Lock::Read) && matches!(state_of(work, entry.object), EntityState::Managed)
}

/// Whether the set has the version of an object that it had when the object was last loaded or
/// written; so it is of one that was neither. Fails for want of memory alone, with `OutOfMemory`.
fn base_is_row(
    metamodel: &Metamodel,
    work: &UnitOfWork,
    entry: &Entry,
    base: &Option<Base>,
) -> Result<bool, Cause>
    requires ready { IsReady metamodel.now (now work.now) }
    requires object { entry.now.object < length work.now.objects.now }
    ensures ok { IfOk result (λ is_row. is_row
        ≡ flushes.base_is_row metamodel.now (now work.now) entry.now base.now) }
    ensures err { IfErr result (λ cause. cause ≡ Cause.OutOfMemory) }
{
    match base {
        None => Ok(true),
        Some(base) => {
            let id = identity_of(metamodel, &work.objects.as_slice()[entry.object])?;
            Ok(is_current(work, &id, base.stored.version))
        }
    }
}

/// Whether an entry's object, if it is managed and locked to be read, has the version that the set
/// has of it. Fails for want of memory alone, with `OutOfMemory`.
fn read_holds(metamodel: &Metamodel, work: &UnitOfWork, entry: &Entry) -> Result<bool, Cause>
    requires ready { IsReady metamodel.now (now work.now) }
    requires object { entry.now.object < length work.now.objects.now }
    ensures ok { IfOk result (λ holds. holds
        ≡ flushes.read_holds metamodel.now (now work.now) entry.now) }
    ensures err { IfErr result (λ cause. cause ≡ Cause.OutOfMemory) }
{
    if !is_read(work, entry) {
        return Ok(true);
    }
    base_is_row(metamodel, work, entry, &entry.base)
}

/// Whether each managed object that is locked to be read has the version that the set has of it
/// (Jakarta Persistence 3.1, chapter 3.4.4.1), where the entries at other places are as their bases
/// say and not locked. Fails for want of memory alone, with `OutOfMemory`. Looks at the entries at
/// these places, and at the set for those that are locked so.
pub fn reads_hold(metamodel: &Metamodel, work: &UnitOfWork, places: &[usize]) -> Result<bool, Cause>
    requires ready { IsReady metamodel.now (now work.now) }
    requires looked { marked.AreLooked (λ e. marked.is_calm metamodel.now (now work.now) e ≡ true)
        work.now.context.now places.now }
    ensures ok { IfOk result (λ hold. hold ≡ flushes.reads_hold metamodel.now (now work.now)) }
    ensures err { IfErr result (λ cause. cause ≡ Cause.OutOfMemory) }
{
    for place in places {
        let entry = &work.context.as_slice()[*place];
        if !read_holds(metamodel, work, entry)? {
            return Ok(false);
        }
    }
    Ok(true)
}
