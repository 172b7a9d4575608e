//! What bases remember of relations after a write.
ghost use Rattle.std.specs.Prelude.{◌≡◌, ◌<◌, Some, length, IfOk, IfErr};
ghost use Rattle.jpa_work.specs.context.Undo.{now};
ghost use Rattle.jpa_operations.specs.fetch.Grown.{IsReady};
ghost use Rattle.jpa_value.specs.declared.refusal.Cause.{Cause};
ghost use Rattle.jpa_flush.specs.flush.Flush as flushes;
ghost use Rattle.jpa_flush.specs.flush.Plan as plans;

use crate::flush::held::members_held;
use crate::flush::still::knows_all_still;
use jpa_cascade::state_of;
use jpa_model::Metamodel;
use jpa_value::{Cause, Identity, Seq, TryCopy};
use jpa_work::context::{Base, EntityState, Entry, UnitOfWork};
use std::alloc::Global;

/// An entry with a base that remembers these members of its object.
fn remembering(
    entry: &Entry,
    base: &Base,
    members: Seq<Option<Seq<Identity>>>,
) -> Result<Entry, Cause>
    requires { entry.now.base ≡ Some base.now }
    ensures ok { IfOk result (λ current. current
        ≡ record entry.now { base = flushes.remembered_in members entry.now.base }) }
    ensures err { IfErr result (λ cause. cause ≡ Cause.OutOfMemory) }
{
    Ok(Entry {
        object: entry.object,
        key: entry.key.try_copy()?,
        lock: entry.lock,
        base: Some(Base {
            stored: base.stored.try_copy()?,
            members,
        }),
    })
}

/// The entry of an object with the members that its relations have now, where its base remembers
/// others.
fn relearned(
    alloc: Global,
    metamodel: &Metamodel,
    work: &UnitOfWork,
    entry: &Entry,
) -> Result<Option<Entry>, Cause>
    requires ready { IsReady metamodel.now (now work.now) }
    requires object { entry.now.object < length work.now.objects.now }
    ensures ok { let members = flushes.members_held metamodel.now (now work.now) entry.now.object in
        IfOk result (λ current. plans.entry_or entry.now current
        ≡ record entry.now { base = flushes.remembered_in members entry.now.base }) }
    ensures err { IfErr result (λ cause. cause ≡ Cause.OutOfMemory) }
{
    let Some(base) = &entry.base else {
        return Ok(None);
    };
    if knows_all_still(metamodel, work, entry.object, base)? {
        return Ok(None);
    }
    let members = members_held(alloc, metamodel, work, entry.object)?;
    Ok(Some(remembering(entry, base, members)?))
}

/// The entry of an object with the members that its relations have now, where it is managed and its
/// base remembers others.
pub(super) fn outdated(
    alloc: Global,
    metamodel: &Metamodel,
    work: &UnitOfWork,
    entry: &Entry,
) -> Result<Option<Entry>, Cause>
    requires ready { IsReady metamodel.now (now work.now) }
    requires object { entry.now.object < length work.now.objects.now }
    ensures ok { IfOk result (λ current. plans.entry_or entry.now current
        ≡ flushes.remembered metamodel.now (now work.now) entry.now) }
    ensures err { IfErr result (λ cause. cause ≡ Cause.OutOfMemory) }
{
    if !matches!(state_of(work, entry.object), EntityState::Managed) {
        return Ok(None);
    }
    relearned(alloc, metamodel, work, entry)
}
