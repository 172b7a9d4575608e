//! Collections of objects, changed.
ghost use Rattle.std.specs.Prelude.{◌≡◌, ◌<◌, ◌==◌, length, IfSome};
ghost use Rattle.std.specs.List.{list_any, position};
ghost use Rattle.jpa_model.specs.Chains.{relation_at, relations_of};
ghost use Rattle.jpa_behaviour.specs.Served.{world_of_unit};
ghost use Rattle.jpa_work.specs.declared.heap.Handed.{Handed};
ghost use Rattle.jpa_work.specs.heap.Assign.{fits_link};
ghost use Rattle.jpa_work.specs.heap.Objects.{object_at};
ghost use Rattle.jpa_work.specs.heap.Shape.{IsPlaced as IsMemberOf};
ghost use Rattle.jpa_work.specs.context.Carries.{Carries};
ghost use Rattle.jpa_work.specs.context.Undo.{now};
ghost use Rattle.jpa_operations.specs.fetch.Finds.{Finds};
ghost use Rattle.jpa_operations.specs.fetch.Grown.{IsRead, IsReady};
ghost use Rattle.jpa_operations.specs.fetch.Members as members;

use crate::fetch::changing::set_relation;
use crate::fetch::getting::member_named;
use crate::fetch::reading::fetch;
use jpa_behaviour::{Behaviour, ServedUnit};
use jpa_model::{Member, Metamodel};
use jpa_value::{Argument, Cause, Seq};
use jpa_work::context::UnitOfWork;
use jpa_work::heap::{Collection, Held};
use std::alloc::Global;

/// The relation at which a class has a collection that a member names.
fn collection_in(metamodel: &Metamodel, class: usize, member: Option<Member>) -> Option<usize>
    requires class { class < length metamodel.now.entities }
    requires member { IsMemberOf metamodel.now class member }
    ensures collection { result ≡ members.collection_in metamodel.now class member }
    ensures within { IfSome result (λ r. r < length (relations_of metamodel.now class)) }
{
    match member {
        Some(Member::Relation(relation)) => {
            if metamodel.relation_at(class, relation).side.is_to_one() {
                None
            } else {
                Some(relation)
            }
        }
        _ => None,
    }
}

/// Whether a relation of an object takes another, in whatever state.
fn fits(
    metamodel: &Metamodel,
    work: &UnitOfWork,
    object: usize,
    relation: usize,
    member: usize,
) -> bool
    requires ready { IsReady metamodel.now (now work.now) }
    requires object { object < length work.now.objects.now }
    requires relation { relation
        < length (relations_of metamodel.now (object_at work.now.objects.now object).class) }
    requires member { member < length work.now.objects.now }
    ensures { let class = (object_at work.now.objects.now object).class in
        result ≡ fits_link metamodel.now work.now.objects.now
        (relation_at metamodel.now class relation).target (Handed.Object member) }
{
    let objects = work.objects.as_slice();
    let along = &metamodel.relations_of(objects[object].class)[relation];
    metamodel.is_kind_of(objects[member].class, along.target)
}

/// A collection of an object, once it is read, with what it holds; the other object is to be one of
/// its kind. Refused as `add` is.
fn read_for<B: Behaviour>(
    alloc: Global,
    unit: &ServedUnit<B>,
    work: &mut UnitOfWork,
    object: usize,
    member: usize,
    collection: Option<usize>,
) -> Result<(usize, Seq<usize>), Cause>
    requires ready { IsReady unit.now.metamodel (now work.old) }
    requires object { object < length work.old.objects.now }
    requires member { member < length work.old.objects.now }
    requires collection { IfSome collection (λ r. r
        < length (relations_of unit.now.metamodel (object_at work.old.objects.now object).class)) }
    ensures { let world = world_of_unit B.meaning unit.now in
        Finds unit.now.metamodel (members.read_for world object member collection)
        (IsRead unit.now.metamodel object) result work.old work.new }
{
    let Some(relation) = collection else {
        return Err(Cause::IllegalArgument(Argument::Name));
    };
    if !fits(&unit.metamodel, work, object, relation, member) {
        return Err(Cause::IllegalArgument(Argument::Type));
    }
    let places = fetch(alloc, unit, work, object, relation)?;
    Ok((relation, places))
}

/// The collection of an object by its name, as `read_for`.
fn read_named<B: Behaviour>(
    alloc: Global,
    unit: &ServedUnit<B>,
    work: &mut UnitOfWork,
    object: usize,
    name: &str,
    member: usize,
) -> Result<(usize, Seq<usize>), Cause>
    requires ready { IsReady unit.now.metamodel (now work.old) }
    requires object { object < length work.old.objects.now }
    requires member { member < length work.old.objects.now }
    ensures { let world = world_of_unit B.meaning unit.now in
        Finds unit.now.metamodel (members.read_named world object name.now member)
        (IsRead unit.now.metamodel object) result work.old work.new }
{
    let named = member_named(&unit.metamodel, work, object, name);
    let collection = collection_in(
        &unit.metamodel,
        work.objects.as_slice()[object].class,
        named,
    );
    read_for(alloc, unit, work, object, member, collection)
}

/// The first place at which an object stands in a list. Takes no memory.
fn first_place(places: &[usize], object: usize) -> Option<usize>
    ensures { result ≡ position (λ x. x == object) places.now }
{
    places.iter().position(|place| *place == object)
}

/// The first place at which an object stands in a list goes; whether there was one. Takes no
/// memory.
fn drop_first(places: &mut Vec<usize>, object: usize) -> bool
    ensures rest { places.new.items ≡ members.without_first object places.old.items }
    ensures stood { result ≡ list_any (λ x. x == object) places.old.items }
{
    match first_place(places.as_slice(), object) {
        Some(at) => {
            places.remove(at);
            true
        }
        None => false,
    }
}

/// An object stands last in a collection of another, by the relation's name, which is read first
/// (chapters 2.2 and 3.2.7).
///
/// `IllegalArgument(name)` where the object's class has no collection of the name;
/// `IllegalArgument(type)` where the member is not of the relation's target class or below it; what
/// reading the collection refuses; `OutOfMemory`. What a refused call changed is undone by
/// `UnitOfWork::undo`.
pub fn add<B: Behaviour>(
    alloc: Global,
    unit: &ServedUnit<B>,
    work: &mut UnitOfWork,
    object: usize,
    name: &str,
    member: usize,
) -> Result<(), Cause>
    requires ready { IsReady unit.now.metamodel (now work.old) }
    requires object { object < length work.old.objects.now }
    requires member { member < length work.old.objects.now }
    ensures carries { let world = world_of_unit B.meaning unit.now in
        Carries (members.add world object name.now member) result work.old work.new }
{
    let (relation, mut places) = read_named(alloc, unit, work, object, name, member)?;
    places.push(member)?;
    let held = Held::Many(Collection::Fetched(places));
    set_relation(&unit.metamodel, work, object, relation, held)
}

/// The first place at which an object stands in a collection of another goes; whether there was
/// one. Refused as `add` is.
pub fn take_out<B: Behaviour>(
    alloc: Global,
    unit: &ServedUnit<B>,
    work: &mut UnitOfWork,
    object: usize,
    name: &str,
    member: usize,
) -> Result<bool, Cause>
    requires ready { IsReady unit.now.metamodel (now work.old) }
    requires object { object < length work.old.objects.now }
    requires member { member < length work.old.objects.now }
    ensures carries { let world = world_of_unit B.meaning unit.now in
        Carries (members.take_out world object name.now member) result work.old work.new }
{
    let (relation, places) = read_named(alloc, unit, work, object, name, member)?;
    let mut places = places.into_vec();
    let stood = drop_first(&mut places, member);
    let held = Held::Many(Collection::Fetched(Seq::of(places)));
    set_relation(&unit.metamodel, work, object, relation, held)?;
    Ok(stood)
}
