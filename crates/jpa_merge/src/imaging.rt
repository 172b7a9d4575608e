//! The first pass of a merge: the image of each node.
ghost use Rattle.std.specs.Prelude.{◌≡◌, ◌<◌, All, length, suc, IfOk, IfErr, OnOk, Some};
ghost use Rattle.jpa_value.specs.declared.refusal.Cause.{Cause};
ghost use Rattle.jpa_behaviour.specs.Served.{world_of_unit};
ghost use Rattle.jpa_work.specs.context.Carries.{Carries};
ghost use Rattle.jpa_work.specs.context.Steps.{Meets, change};
ghost use Rattle.jpa_work.specs.context.Undo.{now};
ghost use Rattle.jpa_work.specs.context.Work as works;
ghost use Rattle.jpa_cascade.specs.There.{IsThere};
ghost use Rattle.jpa_cascade.specs.Waves.{live_nodes};
ghost use Rattle.jpa_operations.specs.fetch.Grown.{GoesOn, IsReady};
ghost use Rattle.jpa_operations.specs.fetch.Members.{collect};
ghost use Rattle.jpa_operations.specs.fetch.Orderly.{IsOrderly};
ghost use Rattle.jpa_merge.specs.CarriesOn.{CarriesOnBy};
ghost use Rattle.jpa_merge.specs.Imaged.{AreImaged, IsImaged};
ghost use Rattle.jpa_merge.specs.Merge as merges;

use crate::images::NodeImage;
use jpa_behaviour::{Behaviour, ServedUnit};
use jpa_cascade::{Node, instance, state_of};
use jpa_model::Metamodel;
use jpa_operations::fetch::load;
use jpa_operations::ops::become_managed;
use jpa_stored::objects::Stored;
use jpa_value::{Argument, Cause, Identity, MOST_OBJECTS, Seq, TryCopy};
use jpa_work::context::{EntityState, UnitOfWork};
use jpa_work::heap::{LiveObject, identity_of, new_object};
use std::alloc::Global;

/// A new object of the class of another, with its key where keys are not generated. Fails for want
/// of memory alone, with `OutOfMemory`.
fn fresh_object(
    alloc: Global,
    metamodel: &Metamodel,
    node: &LiveObject,
) -> Result<LiveObject, Cause>
    requires { node.now.class < length metamodel.now.entities }
    ensures ok { IfOk result (λ fresh. fresh ≡ merges.fresh_object metamodel.now node.now) }
    ensures err { IfErr result (λ cause. cause ≡ Cause.OutOfMemory) }
{
    let mut fresh = new_object(alloc, metamodel, node.class)?;
    if metamodel.root_of(node.class).generated {
        return Ok(fresh);
    }
    fresh.key = node.key.try_copy()?;
    Ok(fresh)
}

/// A new object of the class of a node stands last in the heap. Fails for want of memory alone,
/// with `OutOfMemory`.
fn push_fresh(
    alloc: Global,
    metamodel: &Metamodel,
    work: &mut UnitOfWork,
    node: usize,
) -> Result<(), Cause>
    requires ready { IsReady metamodel.now (now work.old) }
    requires node { node < length work.old.objects.now }
    ensures carries { Carries (change (merges.with_fresh metamodel.now node))
        result work.old work.new }
    ensures count { OnOk result
        (length work.new.objects.now ≡ suc (length work.old.objects.now)) }
{
    let fresh = fresh_object(alloc, metamodel, &work.objects.as_slice()[node])?;
    work.objects.push(fresh)?;
    Ok(())
}

/// A new object of the class of a node becomes its image, and managed. `OptimisticLock` where the
/// node has a version; `Limit` where there are 1,000,000 live objects already; what
/// `become_managed` refuses.
fn fresh_image(
    alloc: Global,
    metamodel: &Metamodel,
    work: &mut UnitOfWork,
    node: usize,
) -> Result<NodeImage, Cause>
    requires orderly { IsOrderly metamodel.now }
    requires ready { IsReady metamodel.now (now work.old) }
    requires node { node < length work.old.objects.now }
    ensures carries { CarriesOnBy metamodel.now (λ world. merges.fresh_image world node)
        result work.old work.new }
    ensures imaged { IfOk result (IsImaged (now work.new)) }
{
    if work.objects.as_slice()[node].version.is_some() {
        return Err(Cause::OptimisticLock);
    }
    let image = work.objects.len();
    if image >= MOST_OBJECTS {
        return Err(Cause::Limit);
    }
    push_fresh(alloc, metamodel, work, node)?;
    become_managed(alloc, metamodel, work, image)?;
    Ok(NodeImage {
        node,
        image,
        fresh: true,
    })
}

/// An object as the image of a node, which is to be of its very class: else
/// `IllegalArgument(type)`.
fn of_class_of(work: &UnitOfWork, node: usize, image: usize) -> Result<NodeImage, Cause>
    requires node { node < length work.now.objects.now }
    requires image { image < length work.now.objects.now }
    ensures meets { Meets result (now work.now) (merges.of_class_of node image (now work.now)) }
    ensures imaged { IfOk result (IsImaged (now work.now)) }
{
    let objects = work.objects.as_slice();
    if objects[node].class != objects[image].class {
        return Err(Cause::IllegalArgument(Argument::Type));
    }
    Ok(NodeImage {
        node,
        image,
        fresh: false,
    })
}

/// The context's instance of a node's identity as its image. `IllegalArgument(state)` where it is
/// removed, `IllegalArgument(type)` where it is of another class.
fn image_of_instance(work: &UnitOfWork, node: usize, image: usize) -> Result<NodeImage, Cause>
    requires node { node < length work.now.objects.now }
    requires image { image < length work.now.objects.now }
    ensures meets { Meets result (now work.now)
        (merges.image_of_instance node image (now work.now)) }
    ensures imaged { IfOk result (IsImaged (now work.now)) }
{
    if matches!(state_of(work, image), EntityState::Removed) {
        return Err(Cause::IllegalArgument(Argument::State));
    }
    of_class_of(work, node, image)
}

/// The row of a node's identity, loaded, as its image. What `load` refuses; then
/// `IllegalArgument(type)` where it is of another class.
fn image_of_row<B: Behaviour>(
    alloc: Global,
    unit: &ServedUnit<B>,
    work: &mut UnitOfWork,
    node: usize,
    id: &Identity,
    row: Stored,
) -> Result<NodeImage, Cause>
    requires ready { IsReady unit.now.metamodel (now work.old) }
    requires node { node < length work.old.objects.now }
    requires row { works.row (now work.old) id.now ≡ Some row }
    ensures carries { let world = world_of_unit B.meaning unit.now in
        Carries (merges.image_of_row world node id.now row) result work.old work.new }
    ensures imaged { IfOk result (IsImaged (now work.new)) }
    ensures goes { OnOk result (GoesOn unit.now.metamodel (now work.old) (now work.new)) }
{
    let image = load(alloc, unit, work, id, row)?;
    of_class_of(work, node, image)
}

/// The image of a node with an identity: the context's instance, else its row, loaded, else a new
/// object. Refused as `merge` is.
fn image_named<B: Behaviour>(
    alloc: Global,
    unit: &ServedUnit<B>,
    work: &mut UnitOfWork,
    node: usize,
    id: &Identity,
) -> Result<NodeImage, Cause>
    requires orderly { IsOrderly unit.now.metamodel }
    requires ready { IsReady unit.now.metamodel (now work.old) }
    requires node { node < length work.old.objects.now }
    ensures carries { let world = world_of_unit B.meaning unit.now in
        Carries (merges.image_named world node (Some id.now)) result work.old work.new }
    ensures imaged { IfOk result (IsImaged (now work.new)) }
    ensures goes { OnOk result (GoesOn unit.now.metamodel (now work.old) (now work.new)) }
{
    if let Some(image) = instance(&unit.metamodel, work, id) {
        return image_of_instance(work, node, image);
    }
    let Some(row) = work.view.get(id) else {
        return fresh_image(alloc, &unit.metamodel, work, node);
    };
    let row = row.try_copy()?;
    image_of_row(alloc, unit, work, node, id, row)
}

/// The image of a node that the manager does not hold. Refused as `merge` is.
fn image_elsewhere<B: Behaviour>(
    alloc: Global,
    unit: &ServedUnit<B>,
    work: &mut UnitOfWork,
    node: usize,
) -> Result<NodeImage, Cause>
    requires orderly { IsOrderly unit.now.metamodel }
    requires ready { IsReady unit.now.metamodel (now work.old) }
    requires node { node < length work.old.objects.now }
    ensures carries { let world = world_of_unit B.meaning unit.now in
        Carries (merges.image_elsewhere world node) result work.old work.new }
    ensures imaged { IfOk result (IsImaged (now work.new)) }
    ensures goes { OnOk result (GoesOn unit.now.metamodel (now work.old) (now work.new)) }
{
    match identity_of(&unit.metamodel, &work.objects.as_slice()[node])? {
        Some(id) => image_named(alloc, unit, work, node, &id),
        None => fresh_image(alloc, &unit.metamodel, work, node),
    }
}

/// The image of a node that stands so for the manager: a managed one is its own. Refused as `merge`
/// is.
fn image_in<B: Behaviour>(
    alloc: Global,
    unit: &ServedUnit<B>,
    work: &mut UnitOfWork,
    node: usize,
    state: EntityState,
) -> Result<NodeImage, Cause>
    requires orderly { IsOrderly unit.now.metamodel }
    requires ready { IsReady unit.now.metamodel (now work.old) }
    requires node { node < length work.old.objects.now }
    ensures carries { let world = world_of_unit B.meaning unit.now in
        Carries (merges.image_in world node state) result work.old work.new }
    ensures imaged { IfOk result (IsImaged (now work.new)) }
    ensures goes { OnOk result (GoesOn unit.now.metamodel (now work.old) (now work.new)) }
{
    match state {
        EntityState::New => image_elsewhere(alloc, unit, work, node),
        EntityState::Managed => Ok(NodeImage {
            node,
            image: node,
            fresh: false,
        }),
        EntityState::Removed => Err(Cause::IllegalArgument(Argument::State)),
        EntityState::Detached => image_elsewhere(alloc, unit, work, node),
    }
}

/// The image of a node, as it stands by then. Refused as `merge` is.
fn image_of_node<B: Behaviour>(
    alloc: Global,
    unit: &ServedUnit<B>,
    work: &mut UnitOfWork,
    node: usize,
) -> Result<NodeImage, Cause>
    requires orderly { IsOrderly unit.now.metamodel }
    requires ready { IsReady unit.now.metamodel (now work.old) }
    requires node { node < length work.old.objects.now }
    ensures carries { let world = world_of_unit B.meaning unit.now in
        Carries (merges.image_of_node world node) result work.old work.new }
    ensures imaged { IfOk result (IsImaged (now work.new)) }
    ensures goes { OnOk result (GoesOn unit.now.metamodel (now work.old) (now work.new)) }
{
    let state = state_of(work, node);
    image_in(alloc, unit, work, node, state)
}

/// The images of the objects among the nodes of a cascade, in their order. Refused as `merge` is.
pub(crate) fn images_of<B: Behaviour>(
    alloc: Global,
    unit: &ServedUnit<B>,
    work: &mut UnitOfWork,
    nodes: &[Node],
) -> Result<Seq<NodeImage>, Cause>
    requires orderly { IsOrderly unit.now.metamodel }
    requires ready { IsReady unit.now.metamodel (now work.old) }
    requires there { All (IsThere (now work.old)) nodes.now }
    ensures carries { let world = world_of_unit B.meaning unit.now in
        Carries (collect (merges.image_of_node world) (live_nodes nodes.now))
        result work.old work.new }
    ensures imaged { IfOk result (AreImaged (now work.new)) }
    ensures goes { OnOk result (GoesOn unit.now.metamodel (now work.old) (now work.new)) }
{
    let mut images = Seq::new(alloc);
    for node in nodes {
        if let Node::Live(object) = node {
            let image = image_of_node(alloc, unit, work, *object)?;
            images.push(image)?;
        }
    }
    Ok(images)
}
