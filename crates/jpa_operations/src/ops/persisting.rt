//! Making an object managed.
ghost use Rattle.std.specs.Prelude.{◌≡◌, ◌<◌, length, true, IfOk, IfErr, OnOk};
ghost use Rattle.std.specs.List.{list_all};
ghost use Rattle.jpa_value.specs.Value.{is_null};
ghost use Rattle.jpa_value.specs.declared.refusal.Cause.{Cause};
ghost use Rattle.jpa_model.specs.Chains.{root_of};
ghost use Rattle.jpa_behaviour.specs.Behaviour.{World};
ghost use Rattle.jpa_behaviour.specs.Served.{world_of_unit};
ghost use Rattle.jpa_work.specs.heap.Shape.{HasShape};
ghost use Rattle.jpa_work.specs.declared.heap.Life.{Life};
ghost use Rattle.jpa_work.specs.context.Carries.{Carries};
ghost use Rattle.jpa_work.specs.context.Steps.{Meets};
ghost use Rattle.jpa_work.specs.context.Undo.{now, IsPlaced};
ghost use Rattle.jpa_work.specs.context.Work as works;
ghost use Rattle.jpa_work.specs.declared.context.EntityState.{EntityState};
ghost use Rattle.jpa_cascade.specs.There.{IsThere};
ghost use Rattle.jpa_operations.specs.fetch.Grown.{GoesOn, IsReady};
ghost use Rattle.jpa_operations.specs.fetch.Orderly.{IsOrderly};
ghost use Rattle.jpa_operations.specs.ops.Names.{has_distinct_entries};
ghost use Rattle.jpa_operations.specs.ops.Standing.{CanPersist, CanTakeKey, StaysPut};
ghost use Rattle.jpa_operations.specs.ops.States as states;

use crate::ops::context::{has_base, has_instance, set_life};
use jpa_behaviour::{Behaviour, ServedUnit};
use jpa_cascade::{Node, Operation, state_of, waves};
use jpa_lifecycle::callback;
use jpa_model::Metamodel;
use jpa_value::{Cause, Key, LifecycleEvent, PersistenceFault, TryCopy, Value};
use jpa_work::context::{EntityState, Entry, Lock, UnitOfWork};
use jpa_work::heap::{Life, LiveObject, is_whole};
use std::alloc::Global;

/// The greatest next number; it is never given.
const LAST_NUMBER: u64 = 9_223_372_036_854_775_807;

/// Whether no part of a key is there. Takes no memory.
fn is_unset(key: &[Value]) -> bool
    ensures { result ≡ list_all is_null key.now }
{
    for part in key {
        if !matches!(part, Value::Null) {
            return false;
        }
    }
    true
}

/// A copy of an object with a number as its key.
fn with_number(alloc: Global, object: &LiveObject, number: u64) -> Result<LiveObject, Cause>
    requires { number < states.last_number }
    ensures ok { IfOk result (λ x. x ≡ record (object.now) { key = states.number_part number }) }
    ensures err { IfErr result (λ cause. cause ≡ Cause.OutOfMemory) }
{
    let mut keyed = object.try_copy()?;
    let mut key = Key::new(alloc);
    key.push(Value::Int(number as i64))?;
    keyed.key = key;
    Ok(keyed)
}

/// The next number becomes the key of an object that has none (chapter 2.4). `Persistence(key)`
/// where a part of its key is there, `Persistence(generator)` where no number is left, and
/// `OutOfMemory`.
fn give_number(
    alloc: Global,
    metamodel: &Metamodel,
    work: &mut UnitOfWork,
    object: usize,
) -> Result<(), Cause>
    requires keyless { CanTakeKey metamodel.now (now work.old) object }
    requires generated { (root_of metamodel.now
        (works.object (now work.old) object).class).generated ≡ true }
    ensures meets { (world : World) → Meets result (now work.new)
        (states.give_key (record world { model = metamodel.now }) object true (now work.old)) }
    ensures placed { IsPlaced metamodel.now (now work.new) }
    ensures stays { StaysPut work.old work.new }
{
    let unkeyed = &work.objects.as_slice()[object];
    if !is_unset(unkeyed.key.as_slice()) {
        return Err(Cause::Persistence(PersistenceFault::Key));
    }
    let root = metamodel.root_class(unkeyed.class);
    let number = work.numbers.as_slice()[root];
    if number >= LAST_NUMBER {
        return Err(Cause::Persistence(PersistenceFault::Generator));
    }
    let keyed = with_number(alloc, unkeyed, number)?;
    work.objects.set(object, keyed)?;
    work.numbers.set(root, number + 1)?;
    Ok(())
}

/// An object gets its key where keys are generated; else its key is there. `Persistence(key)` where
/// it isn't, or is where it would be generated; `Persistence(generator)` where no number is left;
/// and `OutOfMemory`.
fn give_key(
    alloc: Global,
    metamodel: &Metamodel,
    work: &mut UnitOfWork,
    object: usize,
) -> Result<(), Cause>
    requires { CanTakeKey metamodel.now (now work.old) object }
    ensures meets { let w = now work.old in
        let generated = (root_of metamodel.now (works.object w object).class).generated in
        (world : World) → Meets result (now work.new)
        (states.give_key (record world { model = metamodel.now }) object generated w) }
    ensures placed { IsPlaced metamodel.now (now work.new) }
    ensures stays { StaysPut work.old work.new }
{
    let fresh = &work.objects.as_slice()[object];
    if metamodel.root_of(fresh.class).generated {
        return give_number(alloc, metamodel, work, object);
    }
    if !is_whole(fresh.key.as_slice()) {
        return Err(Cause::Persistence(PersistenceFault::Key));
    }
    Ok(())
}

/// A new object becomes managed: its key is there or given, and no other object of the context has
/// its identity. No callback happens to it.
///
/// `EntityExists`, `Persistence(key)`, `Persistence(generator)` and `OutOfMemory` as `persist`,
/// which calls it.
pub fn become_managed(
    alloc: Global,
    metamodel: &Metamodel,
    work: &mut UnitOfWork,
    object: usize,
) -> Result<(), Cause>
    requires { CanPersist metamodel.now (now work.old) object }
    ensures meets { (world : World) → Meets result (now work.new)
        (states.become_managed (record world { model = metamodel.now }) object (now work.old)) }
    ensures shape { OnOk result (HasShape metamodel.now (works.object (now work.new) object)) }
    ensures goes { OnOk result (GoesOn metamodel.now (now work.old) (now work.new)) }
    ensures named { has_distinct_entries metamodel.now (now work.old) ≡ true →
        OnOk result (has_distinct_entries metamodel.now (now work.new) ≡ true) }
    ensures stays { StaysPut work.old work.new }
{
    give_key(alloc, metamodel, work, object)?;
    if has_instance(metamodel, work, object)? {
        return Err(Cause::EntityExists);
    }
    set_life(work, object, Life::Managed(work.manager))?;
    let key = work.objects.as_slice()[object].key.try_copy()?;
    work.context.push(Entry {
        object,
        key,
        lock: Lock::Unlocked,
        base: None,
    })?;
    Ok(())
}

/// A new object becomes managed, and PrePersist happens to it (chapter 3.5.2). Refused as `persist`
/// is.
fn persist_new<B: Behaviour>(
    alloc: Global,
    unit: &ServedUnit<B>,
    work: &mut UnitOfWork,
    object: usize,
) -> Result<(), Cause>
    requires { CanPersist unit.now.metamodel (now work.old) object }
    ensures { let world = world_of_unit B.meaning unit.now in
        Carries (states.persist_one world object EntityState.New) result work.old work.new }
{
    become_managed(alloc, &unit.metamodel, work, object)?;
    callback(alloc, unit, work, LifecycleEvent::PrePersist, object)
}

/// A removed object is managed again, and PrePersist happens to it unless it is stored. Refused as
/// a listener or callback refuses, and with `OutOfMemory`.
fn persist_removed<B: Behaviour>(
    alloc: Global,
    unit: &ServedUnit<B>,
    work: &mut UnitOfWork,
    object: usize,
) -> Result<(), Cause>
    requires placed { IsPlaced unit.now.metamodel (now work.old) }
    requires object { object < length work.old.objects.now }
    ensures { let world = world_of_unit B.meaning unit.now in
        Carries (states.persist_one world object EntityState.Removed) result work.old work.new }
{
    set_life(work, object, Life::Managed(work.manager))?;
    if has_base(work, object) {
        return Ok(());
    }
    callback(alloc, unit, work, LifecycleEvent::PrePersist, object)
}

/// An object that stands so for its manager is managed afterwards. Refused as `persist` is.
fn persist_one<B: Behaviour>(
    alloc: Global,
    unit: &ServedUnit<B>,
    work: &mut UnitOfWork,
    object: usize,
    state: EntityState,
) -> Result<(), Cause>
    requires { CanPersist unit.now.metamodel (now work.old) object }
    ensures { let world = world_of_unit B.meaning unit.now in
        Carries (states.persist_one world object state) result work.old work.new }
{
    match state {
        EntityState::New => persist_new(alloc, unit, work, object),
        EntityState::Managed => Ok(()),
        EntityState::Removed => persist_removed(alloc, unit, work, object),
        EntityState::Detached => Err(Cause::EntityExists),
    }
}

/// A node of the cascade is persisted: an object; a row without an instance is stored already.
/// Refused as `persist` is.
fn persist_node<B: Behaviour>(
    alloc: Global,
    unit: &ServedUnit<B>,
    work: &mut UnitOfWork,
    node: &Node,
) -> Result<(), Cause>
    requires orderly { IsOrderly unit.now.metamodel }
    requires ready { IsReady unit.now.metamodel (now work.old) }
    requires there { IsThere (now work.old) node.now }
    ensures { let world = world_of_unit B.meaning unit.now in
        Carries (states.persist_node world node.now) result work.old work.new }
{
    match node {
        Node::Live(object) => {
            let state = state_of(work, *object);
            persist_one(alloc, unit, work, *object, state)
        }
        Node::Bare(_) => Ok(()),
    }
}

/// Makes an object managed, and those that it leads to along relations that cascade it: a new one
/// enters the persistence context, with the next number as its key where keys are generated; a
/// removed one is managed again; a managed one stays as it is (Jakarta Persistence 3.1, chapters
/// 3.2.2 and 2.4). PrePersist happens to an object that was not stored yet. The objects are those
/// of the waves of the cascade as it begins, in their order.
///
/// `EntityExists` for a detached object, and where the context has another of the identity;
/// `Persistence(key)` where a part of an assigned key is null, or a generated key is not;
/// `Persistence(generator)` where no number is left; `Listener` with its text where a listener or
/// callback throws, and `Persistence(callback)` where one assigns what is not allowed;
/// `OutOfMemory` where a growth was refused. What a refused call changed is undone by
/// `UnitOfWork::undo`.
pub fn persist<B: Behaviour>(
    alloc: Global,
    unit: &ServedUnit<B>,
    work: &mut UnitOfWork,
    object: usize,
) -> Result<(), Cause>
    requires { CanPersist unit.now.metamodel (now work.old) object }
    ensures carries { let world = world_of_unit B.meaning unit.now in
        Carries (states.persist world object) result work.old work.new }
    ensures goes { OnOk result (GoesOn unit.now.metamodel (now work.old) (now work.new)) }
    ensures named { has_distinct_entries unit.now.metamodel (now work.old) ≡ true →
        OnOk result (has_distinct_entries unit.now.metamodel (now work.new) ≡ true) }
{
    let nodes = waves(alloc, &unit.metamodel, work, Operation::Persist, object)?;
    for node in nodes.as_slice() {
        persist_node(alloc, unit, work, node)?;
    }
    Ok(())
}
