//! Links to objects that are not stored.
ghost use Rattle.std.specs.Prelude.{◌≡◌, ◌<◌, All, length};
ghost use Rattle.std.specs.List.{list_all};
ghost use Rattle.jpa_behaviour.specs.Behaviour.{World};
ghost use Rattle.jpa_work.specs.context.Steps.{Meets};
ghost use Rattle.jpa_work.specs.context.Undo.{now};
ghost use Rattle.jpa_work.specs.context.Work.{state_of};
ghost use Rattle.jpa_operations.specs.fetch.Grown.{IsReady, objects_held};
ghost use Rattle.jpa_flush.specs.flush.Flush as flushes;

use jpa_cascade::state_of;
use jpa_model::Metamodel;
use jpa_value::{Cause, State};
use jpa_work::context::{EntityState, Entry, UnitOfWork};
use jpa_work::heap::{Collection, Held, Link};

/// Whether an object in this state may be led to when a flush writes.
pub(super) fn is_storable(state: EntityState) -> bool
    ensures { result ≡ flushes.is_storable state }
{
    matches!(state, EntityState::Managed | EntityState::Detached)
}

/// Whether each of these objects may be led to.
fn all_storable(work: &UnitOfWork, objects: &[usize]) -> bool
    requires { All (λ k. k < length work.now.objects.now) objects.now }
    ensures { result
        ≡ list_all (λ k. flushes.is_storable (state_of (now work.now) k)) objects.now }
{
    for object in objects {
        if !is_storable(state_of(work, *object)) {
            return false;
        }
    }
    true
}

/// Whether each object that a relation holds may be led to.
fn holds_storable(work: &UnitOfWork, held: &Held) -> bool
    requires { All (λ k. k < length work.now.objects.now) (objects_held held.now) }
    ensures { result ≡ list_all (λ k. flushes.is_storable (state_of (now work.now) k))
        (objects_held held.now) }
{
    match held {
        Held::One(Link::Object(object)) => is_storable(state_of(work, *object)),
        Held::Many(Collection::Fetched(objects)) => all_storable(work, objects.as_slice()),
        _ => true,
    }
}

/// Whether an entry's object, if it is managed, leads to none that is not stored, along relations
/// that don't cascade persist.
pub(super) fn links_stored(metamodel: &Metamodel, work: &UnitOfWork, entry: &Entry) -> bool
    requires ready { IsReady metamodel.now (now work.now) }
    requires object { entry.now.object < length work.now.objects.now }
    ensures { result ≡ flushes.links_stored metamodel.now (now work.now) entry.now }
{
    if !matches!(state_of(work, entry.object), EntityState::Managed) {
        return true;
    }
    let live = &work.objects.as_slice()[entry.object];
    let relations = metamodel.relations_of(live.class);
    for relation in 0..relations.len() {
        let held = &live.relations.as_slice()[relation];
        if !relations[relation].cascade.persist && !holds_storable(work, held) {
            return false;
        }
    }
    true
}

/// `IllegalState(reference)` where a managed object leads to a new or a removed one, along a
/// relation that doesn't cascade persist (Jakarta Persistence 3.1, chapter 3.2.4). Takes no memory.
pub(super) fn check_links(metamodel: &Metamodel, work: &UnitOfWork) -> Result<(), Cause>
    requires ready { IsReady metamodel.now (now work.now) }
    ensures meets { (world : World) → Meets result (now work.now)
        (flushes.check_links (record world { model = metamodel.now }) (now work.now)) }
{
    for entry in work.context.as_slice() {
        if !links_stored(metamodel, work, entry) {
            return Err(Cause::IllegalState(State::Reference));
        }
    }
    Ok(())
}
