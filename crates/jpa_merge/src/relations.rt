//! What an object holds in a relation, copied into an image.
ghost use Rattle.std.specs.Prelude.{◌<◌, [], ◌∷◌, length};
ghost use Rattle.jpa_model.specs.Chains.{relations_of};
ghost use Rattle.jpa_behaviour.specs.Served.{world_of_unit};
ghost use Rattle.jpa_work.specs.heap.Objects.{object_at};
ghost use Rattle.jpa_work.specs.context.Steps.{change};
ghost use Rattle.jpa_work.specs.context.Undo.{now};
ghost use Rattle.jpa_operations.specs.fetch.Grown.{IsReady, objects_held};
ghost use Rattle.jpa_operations.specs.fetch.Members as members;
ghost use Rattle.jpa_merge.specs.CarriesOn.{CarriesOn, CarriesOnBy};
ghost use Rattle.jpa_merge.specs.Imaged.{AreImaged, CanHold, IsImaged};
ghost use Rattle.jpa_merge.specs.Merge as merges;

use crate::images::{Images, NodeImage};
use crate::replacing::{replace_all, replaced};
use jpa_behaviour::{Behaviour, ServedUnit};
use jpa_cascade::members_now;
use jpa_model::Metamodel;
use jpa_operations::fetch::{held_at, set_fetched, set_relation};
use jpa_value::{Cause, Seq, TryCopy};
use jpa_work::context::UnitOfWork;
use jpa_work::heap::{Collection, Held, Link};
use std::alloc::Global;

/// An image holds this in a relation. Fails for want of memory alone, with `OutOfMemory`.
fn set_held(
    metamodel: &Metamodel,
    work: &mut UnitOfWork,
    image: usize,
    relation: usize,
    held: Held,
) -> Result<(), Cause>
    requires { CanHold metamodel.now (now work.old) image relation (objects_held held) }
    ensures { CarriesOn metamodel.now (change (members.with_relation image relation held))
        result work.old work.new }
{
    set_relation(metamodel, work, image, relation, held)
}

/// A collection of an image holds these objects; the image's base takes what the view has in it,
/// where it was not read. Fails for want of memory alone, with `OutOfMemory`.
fn settle_members(
    alloc: Global,
    metamodel: &Metamodel,
    work: &mut UnitOfWork,
    image: usize,
    relation: usize,
    targets: Seq<usize>,
) -> Result<(), Cause>
    requires { CanHold metamodel.now (now work.old) image relation targets }
    ensures { CarriesOnBy metamodel.now
        (λ world. merges.settle_members world image relation targets) result work.old work.new }
{
    if let Held::Many(Collection::Unfetched) = held_at(metamodel, work, image, relation) {
        let ids = members_now(metamodel, work, image, relation)?;
        let targets = targets.as_slice();
        return set_fetched(alloc, metamodel, work, image, relation, &ids, targets);
    }
    let held = Held::Many(Collection::Fetched(targets));
    set_held(metamodel, work, image, relation, held)
}

/// A to-one relation of an image leads to what stands for a target. Refused as `replaced` is.
fn copy_target<B: Behaviour>(
    alloc: Global,
    unit: &ServedUnit<B>,
    work: &mut UnitOfWork,
    images: &Images,
    image: usize,
    relation: usize,
    target: usize,
) -> Result<(), Cause>
    requires imaged { AreImaged (now work.old) images.now }
    requires held { CanHold unit.now.metamodel (now work.old) image relation (target ∷ []) }
    ensures { let world = world_of_unit B.meaning unit.now in
        CarriesOn unit.now.metamodel (merges.copy_target world images.now image relation target)
        result work.old work.new }
{
    let object = replaced(alloc, unit, work, images, target)?;
    let held = Held::One(Link::Object(object));
    set_held(&unit.metamodel, work, image, relation, held)
}

/// A collection of an image holds what stands for these members. Refused as `replaced` is, at the
/// first that is refused.
fn copy_members<B: Behaviour>(
    alloc: Global,
    unit: &ServedUnit<B>,
    work: &mut UnitOfWork,
    images: &Images,
    image: usize,
    relation: usize,
    members: &[usize],
) -> Result<(), Cause>
    requires imaged { AreImaged (now work.old) images.now }
    requires held { CanHold unit.now.metamodel (now work.old) image relation members.now }
    ensures { let world = world_of_unit B.meaning unit.now in
        CarriesOn unit.now.metamodel
        (merges.copy_members world images.now image relation members.now)
        result work.old work.new }
{
    let targets = replace_all(alloc, unit, work, images, members)?;
    settle_members(alloc, &unit.metamodel, work, image, relation, targets)
}

/// An image takes what is held in a relation, as far as it was read, with what stands for its
/// targets. Refused as `replaced` is.
fn copy_held<B: Behaviour>(
    alloc: Global,
    unit: &ServedUnit<B>,
    work: &mut UnitOfWork,
    images: &Images,
    image: usize,
    relation: usize,
    held: &Held,
) -> Result<(), Cause>
    requires imaged { AreImaged (now work.old) images.now }
    requires held { CanHold unit.now.metamodel (now work.old) image relation
        (objects_held held.now) }
    ensures { let world = world_of_unit B.meaning unit.now in
        CarriesOn unit.now.metamodel (merges.copy_held world images.now image relation held.now)
        result work.old work.new }
{
    match held {
        Held::One(Link::None) => {
            set_held(
                &unit.metamodel,
                work,
                image,
                relation,
                Held::One(Link::None),
            )
        }
        Held::One(Link::Object(target)) => copy_target(
            alloc, unit, work, images, image, relation, *target,
        ),
        Held::One(Link::Key(_)) => Ok(()),
        Held::Many(Collection::Fetched(members)) => {
            let members = members.as_slice();
            copy_members(alloc, unit, work, images, image, relation, members)
        }
        Held::Many(Collection::Unfetched) => Ok(()),
    }
}

/// An image takes what its node holds in a relation, as `copy_held`.
pub(crate) fn copy_relation<B: Behaviour>(
    alloc: Global,
    unit: &ServedUnit<B>,
    work: &mut UnitOfWork,
    images: &Images,
    image: NodeImage,
    relation: usize,
) -> Result<(), Cause>
    requires ready { IsReady unit.now.metamodel (now work.old) }
    requires imaged { AreImaged (now work.old) images.now }
    requires image { IsImaged (now work.old) image }
    requires relation { relation
        < length (relations_of unit.now.metamodel
        (object_at work.old.objects.now image.node).class) }
    ensures { let world = world_of_unit B.meaning unit.now in
        CarriesOn unit.now.metamodel (merges.copy_at world images.now image relation)
        result work.old work.new }
{
    let held = held_at(&unit.metamodel, work, image.node, relation).try_copy()?;
    copy_held(alloc, unit, work, images, image.image, relation, &held)
}
