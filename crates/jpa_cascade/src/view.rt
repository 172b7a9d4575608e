//! What an object of the view holds in a relation.
ghost use Rattle.std.specs.Prelude.{◌≡◌, ◌<◌, length, IfOk, IfErr};
ghost use Rattle.jpa_value.specs.declared.refusal.Cause.{Cause};
ghost use Rattle.jpa_model.specs.Chains.{relations_of};
ghost use Rattle.jpa_stored.specs.objects.Sets as sets;
ghost use Rattle.jpa_open.specs.Opened as opened;
ghost use Rattle.jpa_work.specs.heap.Objects.{object_at};
ghost use Rattle.jpa_work.specs.context.Undo.{now, IsPlaced};
ghost use Rattle.jpa_cascade.specs.Waves as waves;

use jpa_model::Metamodel;
use jpa_open::OpenSet;
use jpa_stored::objects::Stored;
use jpa_value::{Cause, Identity, Seq, TryCopy};
use jpa_work::context::UnitOfWork;
use jpa_work::heap::identity_of;

/// A copy of what an object owns in a relation.
fn owned(view: &OpenSet, object: &Stored, relation: usize) -> Result<Seq<Identity>, Cause>
    ensures ok { IfOk result (λ ids. ids ≡ sets.owned_at object.now relation) }
    ensures err { IfErr result (λ cause. cause ≡ Cause.OutOfMemory) }
{
    match object.owned.as_slice().get(relation) {
        None => Ok(Seq::new(view.allocator())),
        Some(ids) => ids.try_copy(),
    }
}

/// The identities that an object of the view holds in a relation of its chain: what it owns there
/// or, for an inverse side, its owners in rising order (Jakarta Persistence 3.1, chapter 2.9).
/// Fails for want of memory alone, with `OutOfMemory`.
pub fn members(
    metamodel: &Metamodel,
    view: &OpenSet,
    id: &Identity,
    object: &Stored,
    relation: usize,
) -> Result<Seq<Identity>, Cause>
    requires class { object.now.class < length metamodel.now.entities }
    ensures ok { IfOk result (λ ids. ids ≡ sets.members metamodel.now (opened.now view.now)
        id.now object.now relation) }
    ensures err { IfErr result (λ cause. cause ≡ Cause.OutOfMemory) }
{
    let Some(declared) = metamodel.relations_of(object.class).get(relation) else {
        return owned(view, object, relation);
    };
    match declared.side.owner() {
        None => owned(view, object, relation),
        Some(owner) => view.leading(metamodel, declared.target, owner, id),
    }
}

/// The identities that the view has in a relation of a live object: none where no row stands under
/// its identity, or one of a class without that relation. Fails for want of memory alone, with
/// `OutOfMemory`.
pub fn members_now(
    metamodel: &Metamodel,
    work: &UnitOfWork,
    object: usize,
    relation: usize,
) -> Result<Seq<Identity>, Cause>
    requires placed { IsPlaced metamodel.now (now work.now) }
    requires object { object < length work.now.objects.now }
    requires relation { relation
        < length (relations_of metamodel.now (object_at work.now.objects.now object).class) }
    ensures ok { IfOk result
        (λ ids. ids ≡ waves.members_now metamodel.now (now work.now) object relation) }
    ensures err { IfErr result (λ cause. cause ≡ Cause.OutOfMemory) }
{
    let live = &work.objects.as_slice()[object];
    let none = Seq::new(work.view.allocator());
    let Some(id) = identity_of(metamodel, live)? else {
        return Ok(none);
    };
    match work.view.get(&id) {
        Some(row) if metamodel.is_held_by(live.class, relation, row.class) => {
            members(metamodel, &work.view, &id, row, relation)
        }
        _ => Ok(none),
    }
}
