//! What calls do with an object at its place in the heap (Jakarta Persistence 3.1, chapters 2.2 and
//! 3.2).
ghost use Rattle.std.specs.Prelude.{◌≡◌, ◌<◌, suc, All, IfOk, IfErr, OnErr, map};
ghost use Rattle.jpa_value.specs.declared.refusal.Cause.{Cause};
ghost use Rattle.jpa_behaviour.specs.Served.{world_of_unit};
ghost use Rattle.jpa_work.specs.context.Carries.{Carries};
ghost use Rattle.jpa_work.specs.context.Steps.{Meets};
ghost use Rattle.jpa_work.specs.context.Undo.{now, since};
ghost use Rattle.jpa_operations.specs.fetch.Members.{IsGotWithin};
ghost use Rattle.jpa_operations.specs.declared.fetch.getting.Got.{Got};
ghost use Rattle.jpa_machine.specs.machine.Calls as calls;
ghost use Rattle.jpa_machine.specs.machine.Routes as routes;
ghost use Rattle.jpa_merge.specs.Merge as merges;
ghost use Rattle.jpa_operations.specs.ops.States as states;
ghost use Rattle.jpa_provider.specs.Operations.{at_object};
ghost use Rattle.jpa_provider.specs.Serving.{KeepsMarks};
ghost use Rattle.jpa_provider.specs.Stages.{CanOperate};

use crate::handing::{handed, place_of};
use jpa_behaviour::{Behaviour, ServedUnit};
use jpa_flush::marking::other_laws;
use jpa_merge::merge;
use jpa_operations::fetch::{Got, add, get, take_out};
use jpa_operations::ops::{detach, lock, persist, refresh, remove};
use jpa_protocol::{Answer, Call, Given, LockMode};
use jpa_value::{Cause, Seq, Value};
use jpa_work::context::{Lock, Marks, UnitOfWork};
use jpa_work::heap::assign;
use std::alloc::Global;

/// A value as it is answered.
fn value_answered(value: Value) -> Answer
    ensures { result ≡ calls.got (Got.Scalar value) }
{
    match value {
        Value::Null => Answer::Null,
        Value::Int(number) => Answer::Value(Value::Int(number)),
        Value::Text(text) => Answer::Value(Value::Text(text)),
        Value::Bytes(bytes) => Answer::Value(Value::Bytes(bytes)),
    }
}

/// The numbers of the objects at these places, in a heap of so many. Fails for want of memory
/// alone, with `OutOfMemory`.
pub(crate) fn numbers_of(alloc: Global, _count: usize, places: &[usize]) -> Result<Seq<u64>, Cause>
    requires within { All (λ place. place < _count) places.now }
    ensures ok { IfOk result (λ numbers. numbers ≡ map suc places.now) }
    ensures err { IfErr result (λ cause. cause ≡ Cause.OutOfMemory) }
{
    let mut numbers = Seq::new(alloc);
    for place in places {
        numbers.push(*place as u64 + 1)?;
    }
    Ok(numbers)
}

/// What an object holds in a member, as it is answered, in a heap of so many objects. Fails for
/// want of memory alone, with `OutOfMemory`.
fn answered(alloc: Global, count: usize, got: Got) -> Result<Answer, Cause>
    requires within { IsGotWithin count got }
    ensures ok { IfOk result (λ answer. answer ≡ calls.got got) }
    ensures err { IfErr result (λ cause. cause ≡ Cause.OutOfMemory) }
{
    match got {
        Got::Scalar(value) => Ok(value_answered(value)),
        Got::One(place) => Ok(Answer::Object(place as u64 + 1)),
        Got::Many(places) => Ok(Answer::Objects(numbers_of(alloc, count, places.as_slice())?)),
    }
}

/// What a member of the object at a place, by its name, holds (chapter 2.2).
fn get_at<B: Behaviour>(
    alloc: Global,
    unit: &ServedUnit<B>,
    work: &mut UnitOfWork,
    place: usize,
    name: &str,
) -> Result<Answer, Cause>
    requires { CanOperate unit.now.metamodel work.old place }
    ensures { let world = world_of_unit B.meaning unit.now in
        Carries (routes.get_call world name.now place) result work.old work.new }
{
    let got = get(alloc, unit, work, place, name)?;
    answered(alloc, work.objects.len(), got)
}

/// A member of the object at a place, by its name, takes what is handed in (chapter 3.2).
fn set_at<B: Behaviour>(
    unit: &ServedUnit<B>,
    work: &mut UnitOfWork,
    place: usize,
    name: &str,
    value: Given,
) -> Result<Answer, Cause>
    requires { CanOperate unit.now.metamodel work.old place }
    ensures { let world = world_of_unit B.meaning unit.now in
        Carries (routes.set_call world name.now value place) result work.old work.new }
{
    let handed = handed(work.objects.len(), value)?;
    let changed = assign(
        &unit.metamodel,
        work.objects.as_slice(),
        place,
        name,
        handed,
    )?;
    work.objects.set(place, changed)?;
    Ok(Answer::Null)
}

/// An object, by its number, stands last in a collection of the object at a place (chapter 2.2).
fn add_at<B: Behaviour>(
    alloc: Global,
    unit: &ServedUnit<B>,
    work: &mut UnitOfWork,
    place: usize,
    name: &str,
    member: i64,
) -> Result<Answer, Cause>
    requires { CanOperate unit.now.metamodel work.old place }
    ensures { let world = world_of_unit B.meaning unit.now in
        Carries (routes.add_call world name.now member place) result work.old work.new }
{
    let Some(added) = place_of(work.objects.len(), member) else {
        return Err(Cause::NoSuchObject);
    };
    add(alloc, unit, work, place, name, added)?;
    Ok(Answer::Null)
}

/// The first occurrence of an object, by its number, is taken out of a collection of the object at
/// a place; whether it stood there (chapter 2.2).
fn take_out_at<B: Behaviour>(
    alloc: Global,
    unit: &ServedUnit<B>,
    work: &mut UnitOfWork,
    place: usize,
    name: &str,
    member: i64,
) -> Result<Answer, Cause>
    requires { CanOperate unit.now.metamodel work.old place }
    ensures { let world = world_of_unit B.meaning unit.now in
        Carries (routes.take_out_call world name.now member place) result work.old work.new }
{
    let Some(taken) = place_of(work.objects.len(), member) else {
        return Err(Cause::NoSuchObject);
    };
    let stood = take_out(alloc, unit, work, place, name, taken)?;
    Ok(Answer::Truth(stood))
}

/// Detaches the object at a place (chapter 3.2.7).
#[tactic(auto, using(crate::proofs::Marked::kept_since))]
fn detach_at<B: Behaviour>(
    alloc: Global,
    unit: &ServedUnit<B>,
    work: &mut UnitOfWork,
    place: usize,
) -> Result<Answer, Cause>
    requires { CanOperate unit.now.metamodel work.old place }
    ensures meets { let world = world_of_unit B.meaning unit.now in
        Meets result (now work.new)
        (calls.told_as calls.nothing (states.detach world place) (now work.old)) }
    ensures view { work.new.view ≡ work.old.view }
    ensures since { OnErr result (since work.new ≡ since work.old) }
    ensures marked { KeepsMarks unit.now.metamodel work.old work.new }
{
    other_laws();
    detach(alloc, &unit.metamodel, work, place)?;
    // What leads to a detached object is not noted.
    work.context.mark(Marks::all(alloc));
    Ok(Answer::Null)
}

/// Merges the object at a place (chapter 3.2.7.1); answers its image.
fn merge_at<B: Behaviour>(
    alloc: Global,
    unit: &ServedUnit<B>,
    work: &mut UnitOfWork,
    place: usize,
) -> Result<Answer, Cause>
    requires { CanOperate unit.now.metamodel work.old place }
    ensures { let world = world_of_unit B.meaning unit.now in
        Carries (calls.told_as calls.object_told (merges.merge world place)) result work.old
        work.new }
{
    let image = merge(alloc, unit, work, place)?;
    // An object's number, one more than its place, is at most the count.
    let _count = work.objects.len();
    Ok(Answer::Object(image as u64 + 1))
}

/// The lock that a mode asks for.
fn lock_of(mode: LockMode) -> Lock
    ensures { result ≡ routes.lock_of mode }
{
    match mode {
        LockMode::Read => Lock::Read,
        LockMode::Write => Lock::Write,
    }
}

/// Locks the object at a place (chapter 3.4.4).
fn lock_at<B: Behaviour>(
    unit: &ServedUnit<B>,
    work: &mut UnitOfWork,
    place: usize,
    mode: LockMode,
) -> Result<Answer, Cause>
    requires { CanOperate unit.now.metamodel work.old place }
    ensures { let world = world_of_unit B.meaning unit.now in
        Carries (calls.told_as calls.nothing (states.lock world place (routes.lock_of mode)))
        result work.old work.new }
{
    lock(&unit.metamodel, work, place, lock_of(mode))?;
    Ok(Answer::Null)
}

/// Does what a call does with the object at a place. Refused as that is; what a refused one changed
/// is undone by `UnitOfWork::undo`.
#[tactic(auto, using(crate::proofs::Marked::kept_since))]
pub(crate) fn operate<B: Behaviour>(
    alloc: Global,
    unit: &ServedUnit<B>,
    work: &mut UnitOfWork,
    place: usize,
    call: Call,
) -> Result<Answer, Cause>
    requires { CanOperate unit.now.metamodel work.old place }
    ensures meets { let world = world_of_unit B.meaning unit.now in
        Meets result (now work.new) (at_object call world place (now work.old)) }
    ensures view { work.new.view ≡ work.old.view }
    ensures since { OnErr result (since work.new ≡ since work.old) }
    ensures marked { KeepsMarks unit.now.metamodel work.old work.new }
{
    match call {
        Call::Get { name, .. } => get_at(alloc, unit, work, place, name.as_str()),
        Call::SetValue { name, value, .. } => set_at(unit, work, place, name.as_str(), value),
        Call::Add { name, member, .. } => add_at(alloc, unit, work, place, name.as_str(), member),
        Call::TakeOut { name, member, .. } => {
            take_out_at(alloc, unit, work, place, name.as_str(), member)
        }
        Call::Persist { .. } => {
            persist(alloc, unit, work, place)?;
            Ok(Answer::Null)
        }
        Call::Remove { .. } => {
            remove(alloc, unit, work, place)?;
            Ok(Answer::Null)
        }
        Call::Refresh { .. } => {
            refresh(alloc, unit, work, place)?;
            Ok(Answer::Null)
        }
        Call::Detach { .. } => detach_at(alloc, unit, work, place),
        Call::Merge { .. } => merge_at(alloc, unit, work, place),
        Call::Lock { mode, .. } => lock_at(unit, work, place, mode),
        _ => Ok(Answer::Null),
    }
}
