//! Detaching an object.
ghost use Rattle.std.specs.Prelude.{◌≡◌, ◌<◌, length, OnErr, OnOk};
ghost use Rattle.jpa_behaviour.specs.Behaviour.{World};
ghost use Rattle.jpa_work.specs.context.Steps.{Done, Meets};
ghost use Rattle.jpa_work.specs.context.Undo.{now, since, IsKept};
ghost use Rattle.jpa_work.specs.heap.Objects.{no_object};
ghost use Rattle.jpa_cascade.specs.There.{IsThere};
ghost use Rattle.jpa_operations.specs.fetch.Grown.{IsReady};
ghost use Rattle.jpa_operations.specs.ops.States as states;

use jpa_cascade::{Node, Operation, state_of, waves};
use jpa_model::Metamodel;
use jpa_value::{Cause, Key, Seq};
use jpa_work::context::{EntityState, UnitOfWork, place_laws};
use jpa_work::heap::{Life, LiveObject};
use std::alloc::Global;

/// What stands in the place of an object that is looked at. Takes no memory.
fn no_object(alloc: Global) -> LiveObject
    ensures { result ≡ no_object }
{
    LiveObject {
        class: 0,
        key: Key::new(alloc),
        version: None,
        values: Seq::new(alloc),
        relations: Seq::new(alloc),
        life: Life::Detached,
    }
}

/// An object of the context is detached, with its state as it is, and its entry leaves. For good.
/// Takes no memory.
fn let_go(alloc: Global, work: &mut UnitOfWork, object: usize)
    requires { object < length work.old.objects.now }
    ensures gone { now work.new ≡ states.let_go object (now work.old) }
    ensures count { length work.new.objects.now ≡ length work.old.objects.now }
    ensures others { work.new
        ≡ record work.old { objects = work.new.objects; context = work.new.context } }
    ensures kept { IsKept work.old → IsKept work.new }
{
    place_laws();
    let mut detached = work.objects.put(object, no_object(alloc));
    detached.life = Life::Detached;
    work.objects.put(object, detached);
    work.context.leave(alloc, &[object]);
}

/// An object that stands so for its manager is detached. For good. Takes no memory.
fn detach_one(alloc: Global, work: &mut UnitOfWork, object: usize, state: EntityState)
    requires { object < length work.old.objects.now }
    ensures detached { states.detach_one object state (now work.old) ≡ Done tt (now work.new) }
    ensures count { length work.new.objects.now ≡ length work.old.objects.now }
    ensures others { work.new
        ≡ record work.old { objects = work.new.objects; context = work.new.context } }
    ensures kept { IsKept work.old → IsKept work.new }
{
    match state {
        EntityState::New => {}
        EntityState::Managed => let_go(alloc, work, object),
        EntityState::Removed => let_go(alloc, work, object),
        EntityState::Detached => {}
    }
}

/// A node of the cascade is detached: an object, as it stands by then. For good. Takes no memory.
fn detach_node(alloc: Global, work: &mut UnitOfWork, node: &Node)
    requires there { IsThere (now work.old) node.now }
    ensures detached { states.detach_node node.now (now work.old) ≡ Done tt (now work.new) }
    ensures count { length work.new.objects.now ≡ length work.old.objects.now }
    ensures others { work.new
        ≡ record work.old { objects = work.new.objects; context = work.new.context } }
    ensures kept { IsKept work.old → IsKept work.new }
{
    match node {
        Node::Live(object) => {
            let state = state_of(work, *object);
            detach_one(alloc, work, *object, state)
        }
        Node::Bare(_) => {}
    }
}

/// Detaches an object, and those that it leads to along relations that cascade it: a managed or
/// removed one leaves the context with its state as it is, and what was not written of it won't be;
/// a new or detached one is ignored (Jakarta Persistence 3.1, chapter 3.2.6). The objects are those
/// of the waves of the cascade as it begins.
///
/// `OutOfMemory` where there is no memory for the waves, before anything was changed; it is refused
/// for nothing else. What it does can't be undone, nor can what was changed before; where all was
/// kept before, all is kept afterwards.
pub fn detach(
    alloc: Global,
    metamodel: &Metamodel,
    work: &mut UnitOfWork,
    object: usize,
) -> Result<(), Cause>
    requires ready { IsReady metamodel.now (now work.old) }
    requires object { object < length work.old.objects.now }
    ensures meets { (world : World) → Meets result (now work.new)
        (states.detach (record world { model = metamodel.now }) object (now work.old)) }
    ensures others { work.new
        ≡ record work.old { objects = work.new.objects; context = work.new.context } }
    ensures since { OnErr result (since work.new ≡ since work.old) }
    ensures kept { OnOk result (IsKept work.old → IsKept work.new) }
{
    let nodes = waves(alloc, metamodel, work, Operation::Detach, object)?;
    for node in nodes.as_slice() {
        detach_node(alloc, work, node);
    }
    Ok(())
}
