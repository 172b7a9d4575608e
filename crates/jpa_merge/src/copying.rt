//! The second pass of a merge: images take what their nodes hold.
ghost use Rattle.std.specs.Prelude.{◌≡◌};
ghost use Rattle.jpa_behaviour.specs.Served.{world_of_unit};
ghost use Rattle.jpa_work.specs.context.Steps.{change, each};
ghost use Rattle.jpa_work.specs.context.Undo.{now};
ghost use Rattle.jpa_work.specs.context.Work as works;
ghost use Rattle.jpa_operations.specs.fetch.Grown.{IsReady};
ghost use Rattle.jpa_merge.specs.CarriesOn.{CarriesOn};
ghost use Rattle.jpa_merge.specs.Imaged.{AreImaged, CanCopy, IsImaged};
ghost use Rattle.jpa_merge.specs.Merge as merges;

use crate::images::{Images, NodeImage};
use crate::relations::copy_relation;
use jpa_behaviour::{Behaviour, ServedUnit};
use jpa_model::{Metamodel, Relation};
use jpa_value::{Cause, TryCopy};
use jpa_work::context::UnitOfWork;
use std::alloc::Global;

/// Whether a node's version is that of its image; a node without a version is of any.
fn version_is(node: Option<i64>, image: Option<i64>) -> bool
    ensures { result ≡ merges.version_is node image }
{
    match (node, image) {
        (None, _) => true,
        (Some(_), None) => false,
        (Some(node), Some(image)) => node == image,
    }
}

/// Whether an image has its node's version, or the node has none. Takes no memory.
fn is_current(work: &UnitOfWork, image: NodeImage) -> bool
    requires { IsImaged (now work.now) image }
    ensures { let w = now work.now in result ≡ merges.version_is
        (works.object w image.node).version (works.object w image.image).version }
{
    let objects = work.objects.as_slice();
    version_is(objects[image.node].version, objects[image.image].version)
}

/// An image takes the values of its node's attributes. Fails for want of memory alone, with
/// `OutOfMemory`.
fn copy_values(_metamodel: &Metamodel, work: &mut UnitOfWork, image: NodeImage) -> Result<(), Cause>
    requires ready { IsReady _metamodel.now (now work.old) }
    requires imaged { IsImaged (now work.old) image }
    ensures { CarriesOn _metamodel.now (change (merges.with_values_of image))
        result work.old work.new }
{
    let objects = work.objects.as_slice();
    let mut live = objects[image.image].try_copy()?;
    live.values = objects[image.node].values.try_copy()?;
    work.objects.set(image.image, live)?;
    Ok(())
}

/// Whether an image takes what its node holds in a relation: a managed node, which is its own
/// image, has its targets replaced along relations that cascade merge alone.
fn takes(image: NodeImage, relation: &Relation) -> bool
    ensures { result ≡ merges.takes image relation.now }
{
    image.node != image.image || relation.cascade.merge
}

/// An image takes what its node holds in its relations, as far as it was read. Refused as `merge`
/// is.
fn copy_relations<B: Behaviour>(
    alloc: Global,
    unit: &ServedUnit<B>,
    work: &mut UnitOfWork,
    images: &Images,
    image: NodeImage,
) -> Result<(), Cause>
    requires { CanCopy unit.now.metamodel (now work.old) images.now image }
    ensures { let world = world_of_unit B.meaning unit.now in
        CarriesOn unit.now.metamodel (merges.copy_relations world images.now image)
        result work.old work.new }
{
    let relations = unit
        .metamodel
        .relations_of(work.objects.as_slice()[image.node].class);
    for relation in 0..relations.len() {
        if takes(image, &relations[relation]) {
            copy_relation(alloc, unit, work, images, image, relation)?;
        }
    }
    Ok(())
}

/// An image takes the values and the read relations of its node. `OptimisticLock` where the node's
/// version is not the image's; what `replaced` refuses.
fn copy_to_other<B: Behaviour>(
    alloc: Global,
    unit: &ServedUnit<B>,
    work: &mut UnitOfWork,
    images: &Images,
    image: NodeImage,
) -> Result<(), Cause>
    requires { CanCopy unit.now.metamodel (now work.old) images.now image }
    ensures { let world = world_of_unit B.meaning unit.now in
        CarriesOn unit.now.metamodel (merges.copy_to_other world images.now image)
        result work.old work.new }
{
    if !is_current(work, image) {
        return Err(Cause::OptimisticLock);
    }
    copy_values(&unit.metamodel, work, image)?;
    copy_relations(alloc, unit, work, images, image)
}

/// A node is copied into its image; where it is its own, its targets are replaced. Refused as
/// `merge` is.
fn copy_node<B: Behaviour>(
    alloc: Global,
    unit: &ServedUnit<B>,
    work: &mut UnitOfWork,
    images: &Images,
    image: NodeImage,
) -> Result<(), Cause>
    requires { CanCopy unit.now.metamodel (now work.old) images.now image }
    ensures { let world = world_of_unit B.meaning unit.now in
        CarriesOn unit.now.metamodel (merges.copy_node world images.now image)
        result work.old work.new }
{
    if image.node == image.image {
        copy_relations(alloc, unit, work, images, image)
    } else {
        copy_to_other(alloc, unit, work, images, image)
    }
}

/// Each node is copied into its image, in the order of the waves. Refused as `merge` is, at the
/// first that is refused.
pub(crate) fn copy_nodes<B: Behaviour>(
    alloc: Global,
    unit: &ServedUnit<B>,
    work: &mut UnitOfWork,
    images: &Images,
) -> Result<(), Cause>
    requires ready { IsReady unit.now.metamodel (now work.old) }
    requires imaged { AreImaged (now work.old) images.now }
    ensures { let world = world_of_unit B.meaning unit.now in
        CarriesOn unit.now.metamodel (each (merges.copy_node world images.now) images.now)
        result work.old work.new }
{
    for image in images.as_slice() {
        copy_node(alloc, unit, work, images, *image)?;
    }
    Ok(())
}
