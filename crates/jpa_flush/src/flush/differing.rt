//! Whether an object differs from its base.
ghost use Rattle.std.specs.Prelude.{◌≡◌, ◌<◌, ◌||◌, All, Some, not, length, IfOk, IfErr};
ghost use Rattle.std.specs.Option.{option_copied};
ghost use Rattle.jpa_value.specs.declared.refusal.Cause.{Cause};
ghost use Rattle.jpa_work.specs.context.Undo.{now, IsPlaced};
ghost use Rattle.jpa_operations.specs.fetch.Grown.{IsReady, objects_held};
ghost use Rattle.jpa_flush.specs.flush.Flush as flushes;

use crate::flush::still::holds_still;
use jpa_model::{Metamodel, Relation, Side};
use jpa_value::{Cause, Identity, Seq, Value, order_keys};
use jpa_work::context::{Base, UnitOfWork};
use jpa_work::heap::Held;
use std::cmp::Ordering;

/// Whether two lists hold the same values.
pub(super) fn are_same_values(a: &[Value], b: &[Value]) -> bool
    ensures { result ≡ flushes.same_values a.now b.now }
{
    matches!(order_keys(a, b), Ordering::Equal)
}

/// Whether a side of a relation is the owner's, which is written (chapter 2.9).
pub(super) fn is_owner(side: Side) -> bool
    ensures { result ≡ flushes.is_owner side }
{
    side.owner().is_none()
}

/// What a base knows of a relation, if it was read.
pub(super) fn known(base: &Base, relation: usize) -> Option<&Seq<Identity>>
    ensures { option_copied result ≡ flushes.in_base (Some base.now) relation }
{
    match base.members.as_slice().get(relation) {
        Some(Some(ids)) => Some(ids),
        _ => None,
    }
}

/// Whether a relation, which stands at this place, is not written, was not read, or holds what the
/// base knows of it.
fn is_same_along(
    metamodel: &Metamodel,
    work: &UnitOfWork,
    base: &Base,
    place: usize,
    relation: &Relation,
    held: &Held,
) -> Result<bool, Cause>
    requires placed { IsPlaced metamodel.now (now work.now) }
    requires within { All (λ k. k < length work.now.objects.now) (objects_held held.now) }
    ensures ok { IfOk result (λ same. same ≡ (not (flushes.is_owner relation.now.side)
        || flushes.same_if_read (flushes.in_base (Some base.now) place)
        (flushes.held_now metamodel.now (now work.now) held.now))) }
    ensures err { IfErr result (λ cause. cause ≡ Cause.OutOfMemory) }
{
    let Some(before) = known(base, place) else {
        return Ok(true);
    };
    if !is_owner(relation.side) {
        return Ok(true);
    }
    holds_still(metamodel, work, held, before.as_slice())
}

/// Whether an object has another value than its base, or holds others in a relation that it owns
/// and that was read: whether a flush is to write it (Jakarta Persistence 3.1, chapter 3.2.4).
/// Fails for want of memory alone, with `OutOfMemory`.
///
/// It looks at values first, and gathers only the members of a collection that is compared.
pub(super) fn differs(
    metamodel: &Metamodel,
    work: &UnitOfWork,
    object: usize,
    base: &Base,
) -> Result<bool, Cause>
    requires ready { IsReady metamodel.now (now work.now) }
    requires object { object < length work.now.objects.now }
    ensures ok { IfOk result (λ differs. differs
        ≡ flushes.differs metamodel.now (now work.now) object base.now) }
    ensures err { IfErr result (λ cause. cause ≡ Cause.OutOfMemory) }
{
    let live = &work.objects.as_slice()[object];
    if !are_same_values(live.values.as_slice(), base.stored.values.as_slice()) {
        return Ok(true);
    }
    let relations = metamodel.relations_of(live.class);
    for relation in 0..relations.len() {
        let held = &live.relations.as_slice()[relation];
        if !is_same_along(metamodel, work, base, relation, &relations[relation], held)? {
            return Ok(true);
        }
    }
    Ok(false)
}
