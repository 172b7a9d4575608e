//! Merging an object.
ghost use Rattle.std.specs.Prelude.{◌≡◌, ◌<◌, length, IfOk, OnOk};
ghost use Rattle.jpa_behaviour.specs.Served.{world_of_unit};
ghost use Rattle.jpa_work.specs.context.Carries.{Carries};
ghost use Rattle.jpa_work.specs.context.Steps.{each};
ghost use Rattle.jpa_work.specs.context.Undo.{now};
ghost use Rattle.jpa_operations.specs.fetch.Grown.{GoesOn, IsReady};
ghost use Rattle.jpa_operations.specs.fetch.Orderly.{IsOrderly};
ghost use Rattle.jpa_merge.specs.CarriesOn.{CarriesOn};
ghost use Rattle.jpa_merge.specs.Imaged.{AreImaged, IsImaged};
ghost use Rattle.jpa_merge.specs.Merge as merges;

use crate::copying::copy_nodes;
use crate::images::{Images, NodeImage};
use crate::imaging::images_of;
use jpa_behaviour::{Behaviour, ServedUnit};
use jpa_cascade::{Operation, waves};
use jpa_lifecycle::callback;
use jpa_value::{Cause, LifecycleEvent};
use jpa_work::context::UnitOfWork;
use std::alloc::Global;

/// PrePersist happens to an image that the merge made (chapter 3.5.2). Refused as a listener or
/// callback refuses, and with `OutOfMemory`.
fn pre_persist_fresh<B: Behaviour>(
    alloc: Global,
    unit: &ServedUnit<B>,
    work: &mut UnitOfWork,
    image: NodeImage,
) -> Result<(), Cause>
    requires ready { IsReady unit.now.metamodel (now work.old) }
    requires image { IsImaged (now work.old) image }
    ensures { let world = world_of_unit B.meaning unit.now in
        CarriesOn unit.now.metamodel (merges.pre_persist_fresh world image)
        result work.old work.new }
{
    if !image.fresh {
        return Ok(());
    }
    let event = LifecycleEvent::PrePersist;
    callback(alloc, unit, work, event, image.image)
}

/// PrePersist happens to each image that the merge made, in the order of the waves. Refused as
/// `pre_persist_fresh`.
fn pre_persist_each<B: Behaviour>(
    alloc: Global,
    unit: &ServedUnit<B>,
    work: &mut UnitOfWork,
    images: &[NodeImage],
) -> Result<(), Cause>
    requires ready { IsReady unit.now.metamodel (now work.old) }
    requires imaged { AreImaged (now work.old) images.now }
    ensures { let world = world_of_unit B.meaning unit.now in
        CarriesOn unit.now.metamodel (each (merges.pre_persist_fresh world) images.now)
        result work.old work.new }
{
    for image in images {
        pre_persist_fresh(alloc, unit, work, *image)?;
    }
    Ok(())
}

/// The image of the node at which a merge starts, the first of them.
fn first_image(start: usize, images: &[NodeImage]) -> usize
    ensures { result ≡ merges.first_image start images.now }
{
    match images.first() {
        Some(first) => first.image,
        None => start,
    }
}

/// Makes what an object holds, and what those hold that it leads to along relations that cascade
/// merge, the state of managed objects (Jakarta Persistence 3.1, chapter 3.2.7.1). Answers the
/// place of the object's image.
///
/// `IllegalArgument(state)` where one of them is removed, or the instance of its identity is;
/// `IllegalArgument(type)` where what stands under its identity is of another class;
/// `OptimisticLock` where a version is not the image's; `IllegalState(reference)` where a relation
/// leads to what has neither an image, an instance nor a row; `Limit` where no more objects can be
/// made; what loading and persisting refuse; `OutOfMemory`. What a refused call changed is undone
/// by `UnitOfWork::undo`.
pub fn merge<B: Behaviour>(
    alloc: Global,
    unit: &ServedUnit<B>,
    work: &mut UnitOfWork,
    object: usize,
) -> Result<usize, Cause>
    requires orderly { IsOrderly unit.now.metamodel }
    requires ready { IsReady unit.now.metamodel (now work.old) }
    requires object { object < length work.old.objects.now }
    ensures carries { let world = world_of_unit B.meaning unit.now in
        Carries (merges.merge world object) result work.old work.new }
    ensures within { IfOk result (λ n. n < length (now work.new).objects) }
    ensures goes { OnOk result (GoesOn unit.now.metamodel (now work.old) (now work.new)) }
{
    let nodes = waves(alloc, &unit.metamodel, work, Operation::Merge, object)?;
    let list = images_of(alloc, unit, work, nodes.as_slice())?;
    let images = Images::of(alloc, list.into_vec())?;
    copy_nodes(alloc, unit, work, &images)?;
    pre_persist_each(alloc, unit, work, images.as_slice())?;
    Ok(first_image(object, images.as_slice()))
}
