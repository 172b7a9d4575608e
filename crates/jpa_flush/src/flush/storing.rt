//! What the flush writes of an object.
ghost use Rattle.std.specs.Prelude.{◌≡◌, ◌<◌, length, map, IfOk, IfErr};
ghost use Rattle.std.specs.List.{enumerate_from};
ghost use Rattle.jpa_value.specs.declared.refusal.Cause.{Cause};
ghost use Rattle.jpa_model.specs.Chains.{relation_at, relations_of};
ghost use Rattle.jpa_work.specs.context.Undo.{now};
ghost use Rattle.jpa_work.specs.context.Work as works;
ghost use Rattle.jpa_operations.specs.fetch.Grown.{IsReady};
ghost use Rattle.jpa_flush.specs.flush.Flush as flushes;

use crate::flush::differing::is_owner;
use crate::flush::held::held_now;
use jpa_cascade::members_now;
use jpa_model::Metamodel;
use jpa_stored::objects::Stored;
use jpa_value::{Cause, Identity, Seq, TryCopy};
use jpa_work::context::UnitOfWork;
use std::alloc::Global;

/// What is written of a relation of an object: what it holds as the owner; what the set has there,
/// where that was not read.
fn owned_along(
    alloc: Global,
    metamodel: &Metamodel,
    work: &UnitOfWork,
    object: usize,
    relation: usize,
) -> Result<Seq<Identity>, Cause>
    requires ready { IsReady metamodel.now (now work.now) }
    requires object { object < length work.now.objects.now }
    requires relation { relation
        < length (relations_of metamodel.now (works.object (now work.now) object).class) }
    ensures ok { let declared = relation_at metamodel.now
        (works.object (now work.now) object).class relation in
        IfOk result (λ ids. ids
        ≡ flushes.owned_along metamodel.now (now work.now) object (relation, declared)) }
    ensures err { IfErr result (λ cause. cause ≡ Cause.OutOfMemory) }
{
    let live = &work.objects.as_slice()[object];
    if !is_owner(metamodel.relation_at(live.class, relation).side) {
        return Ok(Seq::new(alloc));
    }
    match held_now(metamodel, work, &live.relations.as_slice()[relation])? {
        Some(ids) => Ok(ids),
        None => members_now(metamodel, work, object, relation),
    }
}

/// What is written of the relations of an object, in their order.
fn owned_of(
    alloc: Global,
    metamodel: &Metamodel,
    work: &UnitOfWork,
    object: usize,
) -> Result<Seq<Seq<Identity>>, Cause>
    requires ready { IsReady metamodel.now (now work.now) }
    requires object { object < length work.now.objects.now }
    ensures ok { let relations = relations_of metamodel.now
        (works.object (now work.now) object).class in
        IfOk result (λ owned. owned ≡ map
        (flushes.owned_along metamodel.now (now work.now) object) (enumerate_from 0 relations)) }
    ensures err { IfErr result (λ cause. cause ≡ Cause.OutOfMemory) }
{
    let class = work.objects.as_slice()[object].class;
    let mut owned = Seq::new(alloc);
    for relation in 0..metamodel.relations_of(class).len() {
        owned.push(owned_along(alloc, metamodel, work, object, relation)?)?;
    }
    Ok(owned)
}

/// What is written of an object, with this version: its values, and what it owns. Fails for want of
/// memory alone, with `OutOfMemory`.
pub fn stored_of(
    alloc: Global,
    metamodel: &Metamodel,
    work: &UnitOfWork,
    object: usize,
    version: Option<i64>,
) -> Result<Stored, Cause>
    requires ready { IsReady metamodel.now (now work.now) }
    requires object { object < length work.now.objects.now }
    ensures ok { IfOk result (λ stored. stored
        ≡ flushes.stored_of metamodel.now (now work.now) object version) }
    ensures err { IfErr result (λ cause. cause ≡ Cause.OutOfMemory) }
{
    let owned = owned_of(alloc, metamodel, work, object)?;
    let live = &work.objects.as_slice()[object];
    Ok(Stored {
        class: live.class,
        version,
        values: live.values.try_copy()?,
        owned,
    })
}
