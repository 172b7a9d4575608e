//! What an object holds.
ghost use Rattle.std.specs.Prelude.{◌≡◌, ◌<◌, length, slice_index_or, IfOk, IfErr};
ghost use Rattle.jpa_value.specs.declared.refusal.Cause.{Cause};
ghost use Rattle.jpa_value.specs.declared.value.Value.{Value};
ghost use Rattle.jpa_model.specs.Chains.{member_of};
ghost use Rattle.jpa_behaviour.specs.Served.{world_of_unit};
ghost use Rattle.jpa_work.specs.heap.Objects.{object_at};
ghost use Rattle.jpa_work.specs.heap.Shape.{IsPlaced as IsMemberOf};
ghost use Rattle.jpa_work.specs.context.Carries.{Carries};
ghost use Rattle.jpa_work.specs.context.Undo.{now};
ghost use Rattle.jpa_operations.specs.fetch.Grown.{HasRelation, IsReady};
ghost use Rattle.jpa_operations.specs.fetch.Members as members;

use crate::fetch::reading::{fetch, resolve};
use jpa_behaviour::{Behaviour, ServedUnit};
use jpa_model::{Member, Metamodel};
use jpa_value::{Argument, Cause, Seq, TryCopy, Value};
use jpa_work::context::UnitOfWork;
use jpa_work::heap::LiveObject;
use std::alloc::Global;

/// What `get` answers: what an object holds in a member.
#[derive(Drop)]
pub enum Got {
    /// The value of a key part, of the version or of an attribute; null also for a to-one relation
    /// to nothing.
    Scalar(Value),
    /// The place of the object that a to-one relation leads to.
    One(usize),
    /// The places of the objects that a collection holds, in its order.
    Many(Seq<usize>),
}

/// A copy of the value at a place; null past the end. Fails for want of memory alone, with
/// `OutOfMemory`.
fn value_at(values: &[Value], place: usize) -> Result<Value, Cause>
    ensures ok { IfOk result (λ value. value ≡ slice_index_or values.now place Value.Null) }
    ensures err { IfErr result (λ cause. cause ≡ Cause.OutOfMemory) }
{
    match values.get(place) {
        Some(value) => value.try_copy(),
        None => Ok(Value::Null),
    }
}

/// The value of a member that is no relation. Fails for want of memory alone, with `OutOfMemory`.
fn value_of(object: &LiveObject, member: Member) -> Result<Value, Cause>
    ensures ok { IfOk result (λ value. value ≡ members.value_of object.now member) }
    ensures err { IfErr result (λ cause. cause ≡ Cause.OutOfMemory) }
{
    match member {
        Member::KeyPart(part) => value_at(object.key.as_slice(), part),
        Member::Version => Ok(object.version.map_or(Value::Null, Value::Int)),
        Member::Attribute(attribute) => value_at(object.values.as_slice(), attribute),
        Member::Relation(_) => Ok(Value::Null),
    }
}

/// The member that a name means in the class of an object. Takes no memory.
#[tactic(auto, using(crate::proofs::fetch::Named::named))]
pub(super) fn member_named(
    metamodel: &Metamodel,
    work: &UnitOfWork,
    object: usize,
    name: &str,
) -> Option<Member>
    requires ready { IsReady metamodel.now (now work.now) }
    requires object { object < length work.now.objects.now }
    ensures member { result
        ≡ member_of metamodel.now (object_at work.now.objects.now object).class name.now }
    ensures placed { IsMemberOf metamodel.now
        (object_at work.now.objects.now object).class result }
{
    metamodel.member_of(work.objects.as_slice()[object].class, name)
}

/// What `get` answers of a to-one relation that leads to this object, or to none.
fn got_link(link: Option<usize>) -> Got
    ensures { result ≡ members.got_link link }
{
    match link {
        None => Got::Scalar(Value::Null),
        Some(place) => Got::One(place),
    }
}

/// What an object holds in a relation. Refused as `get` is.
fn get_relation<B: Behaviour>(
    alloc: Global,
    unit: &ServedUnit<B>,
    work: &mut UnitOfWork,
    object: usize,
    relation: usize,
    to_one: bool,
) -> Result<Got, Cause>
    requires { HasRelation unit.now.metamodel (now work.old) object relation }
    ensures carries { let world = world_of_unit B.meaning unit.now in
        Carries (members.get_relation world object relation to_one) result work.old work.new }
    ensures within { IfOk result (members.IsGotWithin (length (now work.new).objects)) }
{
    if to_one {
        let link = resolve(alloc, unit, work, object, relation)?;
        Ok(got_link(link))
    } else {
        let places = fetch(alloc, unit, work, object, relation)?;
        Ok(Got::Many(places))
    }
}

/// What an object holds in a member of its class. Refused as `get` is.
fn get_member<B: Behaviour>(
    alloc: Global,
    unit: &ServedUnit<B>,
    work: &mut UnitOfWork,
    object: usize,
    member: Option<Member>,
) -> Result<Got, Cause>
    requires ready { IsReady unit.now.metamodel (now work.old) }
    requires object { object < length work.old.objects.now }
    requires member { IsMemberOf unit.now.metamodel
        (object_at work.old.objects.now object).class member }
    ensures carries { let world = world_of_unit B.meaning unit.now in
        Carries (members.get_member world object member) result work.old work.new }
    ensures within { IfOk result (members.IsGotWithin (length (now work.new).objects)) }
{
    let live = &work.objects.as_slice()[object];
    match member {
        None => Err(Cause::IllegalArgument(Argument::Name)),
        Some(Member::Relation(relation)) => {
            let to_one = unit
                .metamodel
                .relation_at(live.class, relation)
                .side
                .is_to_one();
            get_relation(alloc, unit, work, object, relation, to_one)
        }
        Some(scalar) => Ok(Got::Scalar(value_of(live, scalar)?)),
    }
}

/// What an object holds in the member of this name: a part of its key, its version, an attribute,
/// what a to-one relation leads to, or the members of a collection. What a relation of an object of
/// a context holds, and was not read, is read of the set that the manager sees, and loaded (Jakarta
/// Persistence 3.1, chapters 2.2 and 3.2.7).
///
/// `IllegalArgument(name)` where the object's class has no member of the name;
/// `IllegalState(unfetched)` where a relation was not read and the object is in no context;
/// `EntityNotFound` where a to-one relation leads to what is not there; what loading refuses;
/// `OutOfMemory` where a growth was refused. What a refused call changed is undone by
/// `UnitOfWork::undo`.
pub fn get<B: Behaviour>(
    alloc: Global,
    unit: &ServedUnit<B>,
    work: &mut UnitOfWork,
    object: usize,
    name: &str,
) -> Result<Got, Cause>
    requires ready { IsReady unit.now.metamodel (now work.old) }
    requires object { object < length work.old.objects.now }
    ensures carries { let world = world_of_unit B.meaning unit.now in
        Carries (members.get world object name.now) result work.old work.new }
    ensures within { IfOk result (members.IsGotWithin (length (now work.new).objects)) }
{
    let member = member_named(&unit.metamodel, work, object, name);
    get_member(alloc, unit, work, object, member)
}
