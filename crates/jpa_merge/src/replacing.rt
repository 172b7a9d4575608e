//! What stands for the targets of a node in its image.
ghost use Rattle.std.specs.Prelude.{◌≡◌, ◌<◌, All, length, IfOk, OnOk, None};
ghost use Rattle.jpa_value.specs.declared.refusal.Cause.{Cause};
ghost use Rattle.jpa_value.specs.declared.refusal.State.{State};
ghost use Rattle.jpa_behaviour.specs.Served.{world_of_unit};
ghost use Rattle.jpa_work.specs.context.Carries.{Carries};
ghost use Rattle.jpa_work.specs.context.Undo.{now};
ghost use Rattle.jpa_operations.specs.fetch.Grown.{GoesOn, IsReady};
ghost use Rattle.jpa_operations.specs.fetch.Load.{reach};
ghost use Rattle.jpa_operations.specs.fetch.Members.{collect};
ghost use Rattle.jpa_merge.specs.Imaged.{AreImaged};
ghost use Rattle.jpa_merge.specs.Merge as merges;

use crate::images::Images;
use jpa_behaviour::{Behaviour, ServedUnit};
use jpa_cascade::instance;
use jpa_operations::fetch::{is_held, load};
use jpa_value::{Cause, Identity, Seq, State, TryCopy};
use jpa_work::context::UnitOfWork;
use jpa_work::heap::identity_of;
use std::alloc::Global;

/// The context's instance of an identity, else its row, loaded. `IllegalState(reference)` where
/// there is neither; what `load` refuses.
fn reach_target<B: Behaviour>(
    alloc: Global,
    unit: &ServedUnit<B>,
    work: &mut UnitOfWork,
    id: &Identity,
) -> Result<usize, Cause>
    requires ready { IsReady unit.now.metamodel (now work.old) }
    ensures carries { let world = world_of_unit B.meaning unit.now in
        Carries (reach world (Cause.IllegalState State.Reference) id.now) result work.old work.new }
    ensures within { IfOk result (λ n. n < length (now work.new).objects) }
    ensures goes { OnOk result (GoesOn unit.now.metamodel (now work.old) (now work.new)) }
{
    if let Some(object) = instance(&unit.metamodel, work, id) {
        return Ok(object);
    }
    let Some(row) = work.view.get(id) else {
        return Err(Cause::IllegalState(State::Reference));
    };
    let row = row.try_copy()?;
    load(alloc, unit, work, id, row)
}

/// What stands for a target that is no node: itself where the manager holds it. Refused as
/// `replaced` is.
fn replaced_outside<B: Behaviour>(
    alloc: Global,
    unit: &ServedUnit<B>,
    work: &mut UnitOfWork,
    target: usize,
) -> Result<usize, Cause>
    requires ready { IsReady unit.now.metamodel (now work.old) }
    requires target { target < length work.old.objects.now }
    ensures carries { let world = world_of_unit B.meaning unit.now in
        Carries (merges.replaced_outside world target) result work.old work.new }
    ensures within { IfOk result (λ n. n < length (now work.new).objects) }
    ensures goes { OnOk result (GoesOn unit.now.metamodel (now work.old) (now work.new)) }
{
    if is_held(work, target) {
        return Ok(target);
    }
    match identity_of(&unit.metamodel, &work.objects.as_slice()[target])? {
        Some(id) => reach_target(alloc, unit, work, &id),
        None => Err(Cause::IllegalState(State::Reference)),
    }
}

/// What stands for a target: the image of a node, an object that the manager holds, else the
/// context's instance of its identity or its row, loaded. `IllegalState(reference)` without any of
/// them; what `load` refuses.
pub(crate) fn replaced<B: Behaviour>(
    alloc: Global,
    unit: &ServedUnit<B>,
    work: &mut UnitOfWork,
    images: &Images,
    target: usize,
) -> Result<usize, Cause>
    requires ready { IsReady unit.now.metamodel (now work.old) }
    requires imaged { AreImaged (now work.old) images.now }
    requires target { target < length work.old.objects.now }
    ensures carries { let world = world_of_unit B.meaning unit.now in
        Carries (merges.replaced world images.now target) result work.old work.new }
    ensures within { IfOk result (λ n. n < length (now work.new).objects) }
    ensures goes { OnOk result (GoesOn unit.now.metamodel (now work.old) (now work.new)) }
{
    match images.get(target) {
        Some(image) => Ok(image),
        None => replaced_outside(alloc, unit, work, target),
    }
}

/// What stands for each of these targets, in their order. Refused as `replaced` is, at the first
/// that is refused.
pub(crate) fn replace_all<B: Behaviour>(
    alloc: Global,
    unit: &ServedUnit<B>,
    work: &mut UnitOfWork,
    images: &Images,
    targets: &[usize],
) -> Result<Seq<usize>, Cause>
    requires ready { IsReady unit.now.metamodel (now work.old) }
    requires imaged { AreImaged (now work.old) images.now }
    requires targets { All (λ k. k < length work.old.objects.now) targets.now }
    ensures carries { let world = world_of_unit B.meaning unit.now in
        Carries (collect (merges.replaced world images.now) targets.now) result work.old work.new }
    ensures within { IfOk result (λ places. All (λ k. k < length (now work.new).objects) places) }
    ensures goes { OnOk result (GoesOn unit.now.metamodel (now work.old) (now work.new)) }
{
    let mut places = Seq::new(alloc);
    for target in targets {
        let place = replaced(alloc, unit, work, images, *target)?;
        places.push(place)?;
    }
    Ok(places)
}
