//! The targets of a node.
ghost use Rattle.std.specs.Prelude.{◌≡◌, ◌<◌, ◌++◌, length, map, OnOk, IfOk, IfErr};
ghost use Rattle.jpa_value.specs.declared.refusal.Cause.{Cause};
ghost use Rattle.jpa_model.specs.Chains.{relations_of};
ghost use Rattle.jpa_work.specs.heap.Objects.{object_at};
ghost use Rattle.jpa_work.specs.context.Undo.{now, IsPlaced};
ghost use Rattle.jpa_cascade.specs.declared.Node.{Node};
ghost use Rattle.jpa_cascade.specs.Waves as waves;

use crate::context::{instance, state_of};
use crate::view::{members, members_now};
use crate::{Node, Operation};
use jpa_model::{Metamodel, Relation};
use jpa_value::{Cause, Identity, Seq, TryCopy};
use jpa_work::context::{EntityState, UnitOfWork};
use jpa_work::heap::{Collection, Held, Link};
use std::alloc::Global;

/// Whether an operation goes along a relation (Jakarta Persistence 3.1, chapters 2.9 and 3.2).
fn goes_along(operation: Operation, relation: &Relation) -> bool
    ensures { result ≡ waves.goes_along operation relation.now }
{
    match operation {
        Operation::Persist => relation.cascade.persist,
        Operation::Merge => relation.cascade.merge,
        Operation::Remove => relation.cascade.remove || relation.orphan_removal,
        Operation::Refresh => relation.cascade.refresh,
        Operation::Detach => relation.cascade.detach,
    }
}

/// Whether an operation goes on from an object in this state.
fn goes_from(operation: Operation, state: EntityState) -> bool
    ensures { result ≡ waves.goes_from operation state }
{
    match (operation, state) {
        (Operation::Remove, EntityState::Removed) => false,
        (Operation::Detach, EntityState::New) => false,
        (Operation::Detach, EntityState::Detached) => false,
        _ => true,
    }
}

/// Whether an operation reaches what was not read: only a removal does.
fn reaches_unread(operation: Operation) -> bool
    ensures { result ≡ waves.reaches_unread operation }
{
    matches!(operation, Operation::Remove)
}

/// Adds the node that an identity means: its instance in the context, else its row, else none.
fn push_named(
    metamodel: &Metamodel,
    work: &UnitOfWork,
    id: &Identity,
    found: &mut Vec<Node>,
) -> Result<(), Cause>
    requires placed { IsPlaced metamodel.now (now work.now) }
    ensures found { OnOk result (found.new.items
        ≡ found.old.items ++ waves.node_of metamodel.now (now work.now) id.now) }
    ensures err { IfErr result (λ cause. cause ≡ Cause.OutOfMemory) }
{
    if let Some(object) = instance(metamodel, work, id) {
        found.push(Node::Live(object))?;
    } else if work.view.get(id).is_some() {
        found.push(Node::Bare(id.try_copy()?))?;
    }
    Ok(())
}

/// Adds the nodes that identities mean.
fn push_each_named(
    metamodel: &Metamodel,
    work: &UnitOfWork,
    ids: &[Identity],
    found: &mut Vec<Node>,
) -> Result<(), Cause>
    requires placed { IsPlaced metamodel.now (now work.now) }
    ensures found { OnOk result (found.new.items
        ≡ found.old.items ++ waves.nodes_of metamodel.now (now work.now) ids.now) }
    ensures err { IfErr result (λ cause. cause ≡ Cause.OutOfMemory) }
{
    for id in ids {
        push_named(metamodel, work, id, found)?;
    }
    Ok(())
}

/// Adds objects.
fn push_objects(objects: &[usize], found: &mut Vec<Node>) -> Result<(), Cause>
    ensures found { OnOk result (found.new.items ≡ found.old.items ++ map Node.Live objects.now) }
    ensures err { IfErr result (λ cause. cause ≡ Cause.OutOfMemory) }
{
    for object in objects {
        found.push(Node::Live(*object))?;
    }
    Ok(())
}

/// Adds what the view has in a relation of an object.
fn push_unread(
    metamodel: &Metamodel,
    work: &UnitOfWork,
    object: usize,
    relation: usize,
    found: &mut Vec<Node>,
) -> Result<(), Cause>
    requires placed { IsPlaced metamodel.now (now work.now) }
    requires object { object < length work.now.objects.now }
    requires relation { relation
        < length (relations_of metamodel.now (object_at work.now.objects.now object).class) }
    ensures found { OnOk result (found.new.items ≡ found.old.items
        ++ waves.nodes_of metamodel.now (now work.now)
        (waves.members_now metamodel.now (now work.now) object relation)) }
    ensures err { IfErr result (λ cause. cause ≡ Cause.OutOfMemory) }
{
    let ids = members_now(metamodel, work, object, relation)?;
    push_each_named(metamodel, work, ids.as_slice(), found)
}

/// Adds what an object holds in a relation; what was not read only where `unread`.
fn push_held(
    metamodel: &Metamodel,
    work: &UnitOfWork,
    unread: bool,
    object: usize,
    relation: usize,
    held: &Held,
    found: &mut Vec<Node>,
) -> Result<(), Cause>
    requires placed { IsPlaced metamodel.now (now work.now) }
    requires object { object < length work.now.objects.now }
    requires relation { relation
        < length (relations_of metamodel.now (object_at work.now.objects.now object).class) }
    ensures found { OnOk result (found.new.items ≡ found.old.items
        ++ waves.nodes_held metamodel.now (now work.now) unread object relation held.now) }
    ensures err { IfErr result (λ cause. cause ≡ Cause.OutOfMemory) }
{
    match held {
        Held::One(Link::None) => Ok(()),
        Held::One(Link::Object(target)) => push_objects(&[*target], found),
        Held::One(Link::Key(id)) if unread => push_named(metamodel, work, id, found),
        Held::Many(Collection::Fetched(objects)) => push_objects(objects.as_slice(), found),
        Held::Many(Collection::Unfetched) if unread => {
            push_unread(metamodel, work, object, relation, found)
        }
        _ => Ok(()),
    }
}

/// Adds the targets of an object; a place that has none leads nowhere.
fn push_live_targets(
    metamodel: &Metamodel,
    work: &UnitOfWork,
    operation: Operation,
    object: usize,
    found: &mut Vec<Node>,
) -> Result<(), Cause>
    requires placed { IsPlaced metamodel.now (now work.now) }
    ensures found { OnOk result (found.new.items ≡ found.old.items
        ++ waves.targets metamodel.now operation (now work.now) (Node.Live object)) }
    ensures err { IfErr result (λ cause. cause ≡ Cause.OutOfMemory) }
{
    let Some(live) = work.objects.as_slice().get(object) else {
        return Ok(());
    };
    if !goes_from(operation, state_of(work, object)) {
        return Ok(());
    }
    let unread = reaches_unread(operation);
    let relations = metamodel.relations_of(live.class);
    for relation in 0..relations.len() {
        if goes_along(operation, &relations[relation]) {
            let held = &live.relations.as_slice()[relation];
            push_held(metamodel, work, unread, object, relation, held, found)?;
        }
    }
    Ok(())
}

/// Adds the targets of an identity of the view without an instance in the context.
fn push_bare_targets(
    metamodel: &Metamodel,
    work: &UnitOfWork,
    operation: Operation,
    id: &Identity,
    found: &mut Vec<Node>,
) -> Result<(), Cause>
    requires placed { IsPlaced metamodel.now (now work.now) }
    ensures found { OnOk result (found.new.items ≡ found.old.items
        ++ waves.targets metamodel.now operation (now work.now) (Node.Bare id.now)) }
    ensures err { IfErr result (λ cause. cause ≡ Cause.OutOfMemory) }
{
    let Some(row) = work.view.get(id) else {
        return Ok(());
    };
    let relations = metamodel.relations_of(row.class);
    for relation in 0..relations.len() {
        if goes_along(operation, &relations[relation]) {
            let ids = members(metamodel, &work.view, id, row, relation)?;
            push_each_named(metamodel, work, ids.as_slice(), found)?;
        }
    }
    Ok(())
}

/// Adds the targets of a node.
pub(crate) fn push_targets(
    metamodel: &Metamodel,
    work: &UnitOfWork,
    operation: Operation,
    node: &Node,
    found: &mut Vec<Node>,
) -> Result<(), Cause>
    requires placed { IsPlaced metamodel.now (now work.now) }
    ensures found { OnOk result (found.new.items ≡ found.old.items
        ++ waves.targets metamodel.now operation (now work.now) node.now) }
    ensures err { IfErr result (λ cause. cause ≡ Cause.OutOfMemory) }
{
    match node {
        Node::Live(object) => push_live_targets(metamodel, work, operation, *object, found),
        Node::Bare(id) => push_bare_targets(metamodel, work, operation, id, found),
    }
}

/// The objects among nodes, in their order.
fn live_nodes(alloc: Global, nodes: &[Node]) -> Result<Seq<usize>, Cause>
    ensures ok { IfOk result (λ objects. objects ≡ waves.live_nodes nodes.now) }
    ensures err { IfErr result (λ cause. cause ≡ Cause.OutOfMemory) }
{
    let mut objects = Seq::new(alloc);
    for node in nodes {
        if let Node::Live(object) = node {
            objects.push(*object)?;
        }
    }
    Ok(objects)
}

/// The objects among the targets of an object: where an operation goes on from it, in the order of
/// its relations (Jakarta Persistence 3.1, chapter 3.2). Fails for want of memory alone, with
/// `OutOfMemory`.
pub fn live_targets(
    alloc: Global,
    metamodel: &Metamodel,
    work: &UnitOfWork,
    operation: Operation,
    object: usize,
) -> Result<Seq<usize>, Cause>
    requires placed { IsPlaced metamodel.now (now work.now) }
    ensures ok { IfOk result (λ objects. objects ≡ waves.live_nodes
        (waves.targets metamodel.now operation (now work.now) (Node.Live object))) }
    ensures err { IfErr result (λ cause. cause ≡ Cause.OutOfMemory) }
{
    let mut found = Vec::new(alloc);
    push_live_targets(metamodel, work, operation, object, &mut found)?;
    live_nodes(alloc, found.as_slice())
}
