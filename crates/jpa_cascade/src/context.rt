//! What a cascade reads of the persistence context.
ghost use Rattle.std.specs.Prelude.{◌≡◌, ◌<◌, All, length, IfSome};
ghost use Rattle.std.specs.List.{find};
ghost use Rattle.jpa_work.specs.context.Undo.{now, IsPlaced};
ghost use Rattle.jpa_work.specs.context.Near.{places_near};
ghost use Rattle.jpa_work.specs.context.Work as works;
ghost use Rattle.jpa_work.specs.heap.Objects.{identity_of, object_at};
ghost use Rattle.jpa_work.specs.heap.Shape.{HasShape};

use jpa_model::Metamodel;
use jpa_value::{Identity, Value, order_keys};
use jpa_work::context::{EntityState, UnitOfWork};
use jpa_work::heap::{Life, LiveObject, is_whole};
use std::cmp::Ordering;

/// Whether an object has this identity. Takes no memory.
fn is_named(metamodel: &Metamodel, object: &LiveObject, id: &Identity) -> bool
    requires { object.now.class < length metamodel.now.entities }
    ensures { result ≡ works.has_identity (identity_of metamodel.now object.now) id.now }
{
    let key = object.key.as_slice();
    is_whole(key)
        && metamodel.root_of(object.class).table == id.table
        && order_keys(key, id.key.as_slice()) == Ordering::Equal
}

/// The places of the objects that entered the context under a key, and perhaps of some others, in
/// the order in which they entered. Takes no memory, and looks at no entry.
fn near<'a>(_metamodel: &Metamodel, work: &'a UnitOfWork, key: &[Value]) -> &'a [usize]
    requires placed { IsPlaced _metamodel.now (now work.now) }
    ensures near { result.now ≡ places_near key.now work.now.context.now }
    ensures within { All (λ n. n < length work.now.objects.now) result.now }
{
    work.context.near(key)
}

/// The first of these places whose object has this identity. Takes no memory.
fn first_named(
    metamodel: &Metamodel,
    objects: &[LiveObject],
    places: &[usize],
    id: &Identity,
) -> Option<usize>
    requires objects { All (HasShape metamodel.now) objects.now }
    requires within { All (λ n. n < length objects.now) places.now }
    ensures first { result ≡ find
        (λ n. works.has_identity (identity_of metamodel.now (object_at objects.now n)) id.now)
        places.now }
    ensures within { IfSome result (λ n. n < length objects.now) }
{
    for place in places {
        if is_named(metamodel, &objects[*place], id) {
            return Some(*place);
        }
    }
    None
}

/// The place of the context's object with this identity, found by its key. Takes no memory.
pub fn instance(metamodel: &Metamodel, work: &UnitOfWork, id: &Identity) -> Option<usize>
    requires placed { IsPlaced metamodel.now (now work.now) }
    ensures instance { result ≡ works.instance metamodel.now (now work.now) id.now }
    ensures within { IfSome result (λ n. n < length work.now.objects.now) }
{
    let places = near(metamodel, work, id.key.as_slice());
    first_named(metamodel, work.objects.as_slice(), places, id)
}

/// Where an object stands for this manager. Takes no memory.
pub fn state_of(work: &UnitOfWork, object: usize) -> EntityState
    requires { object < length work.now.objects.now }
    ensures { result ≡ works.state_of (now work.now) object }
{
    match work.objects.as_slice()[object].life {
        Life::New => EntityState::New,
        Life::Managed(manager) if manager == work.manager => EntityState::Managed,
        Life::Removed(manager) if manager == work.manager => EntityState::Removed,
        _ => EntityState::Detached,
    }
}
