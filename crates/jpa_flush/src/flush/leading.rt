//! Whether objects lead to nothing that a flush persists or refuses.
ghost use Rattle.std.specs.Prelude.{◌≡◌, ◌<◌, All, length, true};
ghost use Rattle.std.specs.List.{list_all};
ghost use Rattle.jpa_work.specs.context.Undo.{now};
ghost use Rattle.jpa_work.specs.context.Work as works;
ghost use Rattle.jpa_operations.specs.fetch.Grown.{IsReady, objects_held};
ghost use Rattle.jpa_flush.specs.flush.Marked as marked;

use crate::flush::links::is_storable;
use jpa_cascade::state_of;
use jpa_model::Metamodel;
use jpa_work::context::{EntityState, UnitOfWork};
use jpa_work::heap::{Collection, Held, Link};

/// Whether an object in this state may be led to: along a relation that cascades persist a managed
/// one, else a stored one.
fn may_lead(cascades: bool, state: EntityState) -> bool
    ensures { result ≡ marked.may_lead cascades state }
{
    if cascades {
        matches!(state, EntityState::Managed)
    } else {
        is_storable(state)
    }
}

/// Whether each of these objects may be led to.
fn all_may_lead(work: &UnitOfWork, cascades: bool, objects: &[usize]) -> bool
    requires { All (λ k. k < length work.now.objects.now) objects.now }
    ensures { result
        ≡ list_all (λ k. marked.may_lead cascades (works.state_of (now work.now) k)) objects.now }
{
    for object in objects {
        if !may_lead(cascades, state_of(work, *object)) {
            return false;
        }
    }
    true
}

/// Whether each object that a relation holds may be led to.
fn holds_leading(work: &UnitOfWork, cascades: bool, held: &Held) -> bool
    requires { All (λ k. k < length work.now.objects.now) (objects_held held.now) }
    ensures { result ≡ list_all
        (λ k. marked.may_lead cascades (works.state_of (now work.now) k)) (objects_held held.now) }
{
    match held {
        Held::One(Link::Object(object)) => may_lead(cascades, state_of(work, *object)),
        Held::Many(Collection::Fetched(objects)) => {
            all_may_lead(work, cascades, objects.as_slice())
        }
        _ => true,
    }
}

/// Whether an object leads, along relations that cascade persist, to managed objects alone, and
/// along others to stored ones. Takes no memory.
pub fn is_linked(metamodel: &Metamodel, work: &UnitOfWork, object: usize) -> bool
    requires ready { IsReady metamodel.now (now work.now) }
    requires object { object < length work.now.objects.now }
    ensures { result ≡ marked.is_linked metamodel.now (now work.now) object }
{
    let live = &work.objects.as_slice()[object];
    let relations = metamodel.relations_of(live.class);
    for relation in 0..relations.len() {
        let held = &live.relations.as_slice()[relation];
        if !holds_leading(work, relations[relation].cascade.persist, held) {
            return false;
        }
    }
    true
}
