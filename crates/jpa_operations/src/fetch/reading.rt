//! What an object holds in a relation, read where it was not read yet.
ghost use Rattle.std.specs.Prelude.{◌≡◌, ◌<◌, All, length, IfOk, IfSome, OnOk};
ghost use Rattle.jpa_value.specs.declared.refusal.Cause.{Cause};
ghost use Rattle.jpa_model.specs.Chains.{relations_of};
ghost use Rattle.jpa_behaviour.specs.Served.{world_of_unit};
ghost use Rattle.jpa_work.specs.declared.heap.Collection.{Collection};
ghost use Rattle.jpa_work.specs.declared.heap.Held.{Held};
ghost use Rattle.jpa_work.specs.declared.heap.Link.{Link};
ghost use Rattle.jpa_work.specs.heap.Objects as objects;
ghost use Rattle.jpa_work.specs.heap.Objects.{object_at};
ghost use Rattle.jpa_work.specs.context.Carries.{Carries};
ghost use Rattle.jpa_work.specs.context.Undo.{now};
ghost use Rattle.jpa_work.specs.context.Work as works;
ghost use Rattle.jpa_operations.specs.fetch.Grown.{GoesOn, HasRelation, IsReady, objects_held};
ghost use Rattle.jpa_operations.specs.fetch.Load as load;
ghost use Rattle.jpa_operations.specs.fetch.Members as members;

use crate::fetch::changing::{set_fetched, set_relation};
use crate::fetch::finding::reach;
use jpa_behaviour::{Behaviour, ServedUnit};
use jpa_cascade::{members_now, state_of};
use jpa_model::Metamodel;
use jpa_value::{Cause, Identity, Seq, State, TryCopy};
use jpa_work::context::{EntityState, UnitOfWork};
use jpa_work::heap::{Collection, Held, Link};
use std::alloc::Global;

/// Whether this manager holds an object: what it holds and was not read, can be read. Takes no
/// memory.
pub fn is_held(work: &UnitOfWork, object: usize) -> bool
    requires { object < length work.now.objects.now }
    ensures { result ≡ members.is_held (works.state_of (now work.now) object) }
{
    matches!(
        state_of(work, object),
        EntityState::Managed | EntityState::Removed
    )
}

/// What an object holds in a relation of its class. Takes no memory.
pub fn held_at<'a>(
    _metamodel: &Metamodel,
    work: &'a UnitOfWork,
    object: usize,
    relation: usize,
) -> &'a Held
    requires { HasRelation _metamodel.now (now work.now) object relation }
    ensures held { result.now ≡ objects.held_at (works.object (now work.now) object) relation }
    ensures within { All (λ k. k < length work.now.objects.now) (objects_held result.now) }
{
    &work.objects.as_slice()[object].relations.as_slice()[relation]
}

/// The objects of these identities, in their order. Refused as `reach` is, at the first that is
/// refused.
fn reach_all<B: Behaviour>(
    alloc: Global,
    unit: &ServedUnit<B>,
    work: &mut UnitOfWork,
    ids: &[Identity],
) -> Result<Seq<usize>, Cause>
    requires ready { IsReady unit.now.metamodel (now work.old) }
    ensures carries { let world = world_of_unit B.meaning unit.now in
        Carries (members.collect (load.reach world Cause.EntityNotFound) ids.now)
        result work.old work.new }
    ensures within { IfOk result (λ places. All (λ k. k < length (now work.new).objects) places) }
    ensures goes { OnOk result (GoesOn unit.now.metamodel (now work.old) (now work.new)) }
{
    let mut places = Seq::new(alloc);
    for id in ids {
        let place = reach(alloc, unit, work, id)?;
        places.push(place)?;
    }
    Ok(places)
}

/// The members of a collection that was not read. Refused as `fetch` is.
fn fetch_unread<B: Behaviour>(
    alloc: Global,
    unit: &ServedUnit<B>,
    work: &mut UnitOfWork,
    object: usize,
    relation: usize,
) -> Result<Seq<usize>, Cause>
    requires { HasRelation unit.now.metamodel (now work.old) object relation }
    ensures carries { let world = world_of_unit B.meaning unit.now in
        Carries (members.fetch_held world object relation (Held.Many Collection.Unfetched))
        result work.old work.new }
    ensures within { IfOk result (λ places. All (λ k. k < length (now work.new).objects) places) }
    ensures goes { OnOk result (GoesOn unit.now.metamodel (now work.old) (now work.new)) }
{
    if !is_held(work, object) {
        return Err(Cause::IllegalState(State::Unfetched));
    }
    let ids = members_now(&unit.metamodel, work, object, relation)?;
    let places = reach_all(alloc, unit, work, ids.as_slice())?;
    set_fetched(
        alloc,
        &unit.metamodel,
        work,
        object,
        relation,
        &ids,
        places.as_slice(),
    )?;
    Ok(places)
}

/// The places of the objects that a collection of an object holds, read of the set that the manager
/// sees where it was not read yet (Jakarta Persistence 3.1, chapters 2.2 and 3.2.7). A to-one
/// relation holds none.
///
/// `IllegalState(unfetched)` where it was not read and the object is in no context of this manager;
/// what `reach` refuses; and `OutOfMemory`.
pub(super) fn fetch<B: Behaviour>(
    alloc: Global,
    unit: &ServedUnit<B>,
    work: &mut UnitOfWork,
    object: usize,
    relation: usize,
) -> Result<Seq<usize>, Cause>
    requires { HasRelation unit.now.metamodel (now work.old) object relation }
    ensures carries { let world = world_of_unit B.meaning unit.now in
        Carries (members.fetch world object relation) result work.old work.new }
    ensures within { IfOk result (λ places. All (λ k. k < length (now work.new).objects) places) }
    ensures goes { OnOk result (GoesOn unit.now.metamodel (now work.old) (now work.new)) }
{
    match held_at(&unit.metamodel, work, object, relation) {
        Held::Many(Collection::Fetched(places)) => {
            Ok(Seq::of(Vec::from_slice(alloc, places.as_slice())?))
        }
        Held::Many(Collection::Unfetched) => { fetch_unread(alloc, unit, work, object, relation) }
        Held::One(_) => Ok(Seq::new(alloc)),
    }
}

/// The object of an identity that a to-one relation of an object holds unresolved. Refused as
/// `resolve` is.
fn resolve_unread<B: Behaviour>(
    alloc: Global,
    unit: &ServedUnit<B>,
    work: &mut UnitOfWork,
    object: usize,
    relation: usize,
    id: &Identity,
) -> Result<Option<usize>, Cause>
    requires { HasRelation unit.now.metamodel (now work.old) object relation }
    ensures carries { let world = world_of_unit B.meaning unit.now in
        Carries (members.resolve_link world object relation (Held.One (Link.Key id.now)))
        result work.old work.new }
    ensures within { IfOk result
        (λ found. IfSome found (λ n. n < length (now work.new).objects)) }
{
    if !is_held(work, object) {
        return Err(Cause::IllegalState(State::Unfetched));
    }
    let place = reach(alloc, unit, work, id)?;
    let held = Held::One(Link::Object(place));
    set_relation(&unit.metamodel, work, object, relation, held)?;
    Ok(Some(place))
}

/// The place of the object that a to-one relation of an object leads to, where it holds this.
/// Refused as `resolve` is.
fn resolve_link<B: Behaviour>(
    alloc: Global,
    unit: &ServedUnit<B>,
    work: &mut UnitOfWork,
    object: usize,
    relation: usize,
    link: Link,
) -> Result<Option<usize>, Cause>
    requires ready { IsReady unit.now.metamodel (now work.old) }
    requires object { object < length work.old.objects.now }
    requires relation { relation
        < length (relations_of unit.now.metamodel (object_at work.old.objects.now object).class) }
    requires link { All (λ k. k < length work.old.objects.now) (objects_held (Held.One link)) }
    ensures carries { let world = world_of_unit B.meaning unit.now in
        Carries (members.resolve_link world object relation (Held.One link))
        result work.old work.new }
    ensures within { IfOk result
        (λ found. IfSome found (λ n. n < length (now work.new).objects)) }
{
    match link {
        Link::None => Ok(None),
        Link::Object(place) => Ok(Some(place)),
        Link::Key(id) => resolve_unread(alloc, unit, work, object, relation, &id),
    }
}

/// The place of the object that a to-one relation of an object leads to, loaded where it was not
/// resolved yet (Jakarta Persistence 3.1, chapters 2.2 and 3.2.7). A collection leads to none.
///
/// `IllegalState(unfetched)` where it was not resolved and the object is in no context of this
/// manager; what `reach` refuses; and `OutOfMemory`.
pub(super) fn resolve<B: Behaviour>(
    alloc: Global,
    unit: &ServedUnit<B>,
    work: &mut UnitOfWork,
    object: usize,
    relation: usize,
) -> Result<Option<usize>, Cause>
    requires { HasRelation unit.now.metamodel (now work.old) object relation }
    ensures carries { let world = world_of_unit B.meaning unit.now in
        Carries (members.resolve world object relation) result work.old work.new }
    ensures within { IfOk result
        (λ found. IfSome found (λ n. n < length (now work.new).objects)) }
{
    match held_at(&unit.metamodel, work, object, relation) {
        Held::One(link) => {
            let link = link.try_copy()?;
            resolve_link(alloc, unit, work, object, relation, link)
        }
        Held::Many(_) => Ok(None),
    }
}
