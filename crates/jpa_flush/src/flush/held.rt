//! The identities that objects hold in their relations.
ghost use Rattle.std.specs.Prelude.{◌≡◌, ◌<◌, ◌≤◌, ℕ, true, All, length, IfOk, IfErr, OnOk};
ghost use Rattle.std.specs.List.{flat_map, insert};
ghost use Rattle.jpa_value.specs.declared.refusal.Cause.{Cause};
ghost use Rattle.jpa_stored.specs.objects.Sets.{is_rising};
ghost use Rattle.jpa_work.specs.context.Undo.{now, IsPlaced};
ghost use Rattle.jpa_work.specs.context.Work.{identity_at};
ghost use Rattle.jpa_operations.specs.fetch.Grown.{IsReady, objects_held};
ghost use Rattle.jpa_flush.specs.flush.Flush as flushes;

use jpa_model::Metamodel;
use jpa_value::{Cause, Identity, Seq, TryCopy, order_identities};
use jpa_work::context::UnitOfWork;
use jpa_work::heap::{Collection, Held, Link, identity_of};
use std::alloc::Global;

/// Where an identity stands among those in rising order, or where it would stand.
fn place_of(ids: &Vec<Identity>, id: &Identity) -> Result<usize, usize>
    requires { is_rising ids.now.items ≡ true }
    ensures found { IfOk result
        (λ (at : ℕ). flushes.into_rising id.now ids.now.items ≡ ids.now.items) }
    ensures absent { IfErr result (λ (at : ℕ). (at ≤ length ids.now.items)
        × (flushes.into_rising id.now ids.now.items ≡ insert ids.now.items at id.now)) }
{
    ids.as_slice()
        .binary_search_by(|other| order_identities(other, id))
}

/// One more identity among those in rising order, unless it is one of them.
fn put_in(ids: &mut Vec<Identity>, id: Identity) -> Result<(), Cause>
    requires { is_rising ids.old.items ≡ true }
    ensures ok { OnOk result (ids.new.items ≡ flushes.into_rising id ids.old.items) }
    ensures rising { OnOk result (is_rising ids.new.items ≡ true) }
    ensures err { IfErr result (λ cause. cause ≡ Cause.OutOfMemory) }
{
    match place_of(ids, &id) {
        Ok(_) => Ok(()),
        Err(at) => {
            ids.insert(at, id)?;
            Ok(())
        }
    }
}

/// The identities of objects in rising order, each once. Where the objects come in that order
/// already, as the members of an inverse side do, each identity is put at the end.
pub(super) fn rising(
    alloc: Global,
    metamodel: &Metamodel,
    work: &UnitOfWork,
    objects: &[usize],
) -> Result<Seq<Identity>, Cause>
    requires placed { IsPlaced metamodel.now (now work.now) }
    requires within { All (λ k. k < length work.now.objects.now) objects.now }
    ensures ok { IfOk result (λ ids. ids ≡ flushes.rising (flat_map
        (λ k. flushes.listed (identity_at metamodel.now (now work.now) k)) objects.now)) }
    ensures err { IfErr result (λ cause. cause ≡ Cause.OutOfMemory) }
{
    let mut ids = Vec::new(alloc);
    for object in objects {
        if let Some(id) = identity_of(metamodel, &work.objects.as_slice()[*object])? {
            put_in(&mut ids, id)?;
        }
    }
    Ok(Seq::of(ids))
}

/// An identity, if there is one.
fn at_most_one(alloc: Global, id: Option<Identity>) -> Result<Seq<Identity>, Cause>
    ensures ok { IfOk result (λ ids. ids ≡ flushes.listed id) }
    ensures err { IfErr result (λ cause. cause ≡ Cause.OutOfMemory) }
{
    let mut ids = Seq::new(alloc);
    if let Some(id) = id {
        ids.push(id)?;
    }
    Ok(ids)
}

/// The identities that a relation holds now, those of a collection in rising order, each once: what
/// a flush writes of it (Jakarta Persistence 3.1, chapters 2.9 and 3.2.4). Nothing of a collection
/// that was not read; an object whose key is not whole has none. Fails for want of memory alone,
/// with `OutOfMemory`.
///
/// With n members it takes O(n log n) comparisons, and moves none of them where they come in rising
/// order.
pub(super) fn held_now(
    metamodel: &Metamodel,
    work: &UnitOfWork,
    held: &Held,
) -> Result<Option<Seq<Identity>>, Cause>
    requires placed { IsPlaced metamodel.now (now work.now) }
    requires within { All (λ k. k < length work.now.objects.now) (objects_held held.now) }
    ensures ok { IfOk result (λ it. it ≡ flushes.held_now metamodel.now (now work.now)
        held.now) }
    ensures err { IfErr result (λ cause. cause ≡ Cause.OutOfMemory) }
{
    let alloc = work.view.allocator();
    match held {
        Held::One(Link::None) => Ok(Some(Seq::new(alloc))),
        Held::One(Link::Object(object)) => {
            let id = identity_of(metamodel, &work.objects.as_slice()[*object])?;
            Ok(Some(at_most_one(alloc, id)?))
        }
        Held::One(Link::Key(id)) => Ok(Some(at_most_one(alloc, Some(id.try_copy()?))?)),
        Held::Many(Collection::Fetched(objects)) => {
            Ok(Some(rising(alloc, metamodel, work, objects.as_slice())?))
        }
        Held::Many(Collection::Unfetched) => Ok(None),
    }
}

/// The identities that each relation of an object holds now. Fails for want of memory alone, with
/// `OutOfMemory`.
pub(super) fn members_held(
    alloc: Global,
    metamodel: &Metamodel,
    work: &UnitOfWork,
    object: usize,
) -> Result<Seq<Option<Seq<Identity>>>, Cause>
    requires ready { IsReady metamodel.now (now work.now) }
    requires object { object < length work.now.objects.now }
    ensures ok { IfOk result (λ members. members
        ≡ flushes.members_held metamodel.now (now work.now) object) }
    ensures err { IfErr result (λ cause. cause ≡ Cause.OutOfMemory) }
{
    let mut members = Seq::new(alloc);
    let relations = work.objects.as_slice()[object].relations.as_slice();
    for held in relations {
        members.push(held_now(metamodel, work, held)?)?;
    }
    Ok(members)
}
