//! Finding an object.
ghost use Rattle.std.specs.Prelude.{◌≡◌, ◌<◌, length, IfOk, IfErr, IfSome, OnOk, Some};
ghost use Rattle.jpa_value.specs.declared.refusal.Cause.{Cause};
ghost use Rattle.jpa_model.specs.Chains as chains;
ghost use Rattle.jpa_behaviour.specs.Served.{world_of_unit};
ghost use Rattle.jpa_work.specs.context.Carries.{Carries};
ghost use Rattle.jpa_work.specs.context.Undo.{now, IsPlaced};
ghost use Rattle.jpa_work.specs.context.Work as works;
ghost use Rattle.jpa_operations.specs.fetch.Grown.{GoesOn, IsReady};
ghost use Rattle.jpa_operations.specs.fetch.Load as spec;

use crate::fetch::loading::load;
use jpa_behaviour::{Behaviour, ServedUnit};
use jpa_cascade::{instance, state_of};
use jpa_model::Metamodel;
use jpa_stored::objects::Stored;
use jpa_value::{Cause, Identity, Key, TryCopy};
use jpa_work::context::{EntityState, UnitOfWork};
use std::alloc::Global;

/// A copy of the row under an identity. Fails for want of memory alone, with `OutOfMemory`.
fn row_of(work: &UnitOfWork, id: &Identity) -> Result<Option<Stored>, Cause>
    ensures row { IfOk result (λ row. row ≡ works.row (now work.now) id.now) }
    ensures err { IfErr result (λ cause. cause ≡ Cause.OutOfMemory) }
{
    match work.view.get(id) {
        Some(row) => Ok(Some(row.try_copy()?)),
        None => Ok(None),
    }
}

/// The object of an identity: the context's instance, else the row, loaded. `EntityNotFound` where
/// there is neither, and what `load` refuses.
pub fn reach<B: Behaviour>(
    alloc: Global,
    unit: &ServedUnit<B>,
    work: &mut UnitOfWork,
    id: &Identity,
) -> Result<usize, Cause>
    requires ready { IsReady unit.now.metamodel (now work.old) }
    ensures carries { let world = world_of_unit B.meaning unit.now in
        Carries (spec.reach world Cause.EntityNotFound id.now) result work.old work.new }
    ensures within { IfOk result (λ n. n < length (now work.new).objects) }
    ensures goes { OnOk result (GoesOn unit.now.metamodel (now work.old) (now work.new)) }
{
    if let Some(place) = instance(&unit.metamodel, work, id) {
        return Ok(place);
    }
    match row_of(work, id)? {
        Some(row) => load(alloc, unit, work, id, row),
        None => Err(Cause::EntityNotFound),
    }
}

/// The context's instance, unless it is removed or of another class. Takes no memory.
fn found_instance(
    metamodel: &Metamodel,
    work: &UnitOfWork,
    class: usize,
    place: usize,
) -> Option<usize>
    requires placed { IsPlaced metamodel.now (now work.now) }
    requires class { class < length metamodel.now.entities }
    requires place { place < length work.now.objects.now }
    ensures found { result ≡ spec.found_instance metamodel.now (now work.now) class place }
    ensures within { IfSome result (λ n. n < length work.now.objects.now) }
{
    let is_removed = matches!(state_of(work, place), EntityState::Removed);
    let object = &work.objects.as_slice()[place];
    if !is_removed && metamodel.is_kind_of(object.class, class) {
        Some(place)
    } else {
        None
    }
}

/// The row under an identity, loaded, unless it is of another class.
fn found_row<B: Behaviour>(
    alloc: Global,
    unit: &ServedUnit<B>,
    work: &mut UnitOfWork,
    class: usize,
    id: &Identity,
    row: Stored,
) -> Result<Option<usize>, Cause>
    requires ready { IsReady unit.now.metamodel (now work.old) }
    requires class { class < length unit.now.metamodel.entities }
    requires row { works.row (now work.old) id.now ≡ Some row }
    ensures carries { let world = world_of_unit B.meaning unit.now in
        Carries (spec.found_row world class id.now row
        (chains.is_kind_of unit.now.metamodel row.class class))
        result work.old work.new }
    ensures within { IfOk result
        (λ found. IfSome found (λ n. n < length (now work.new).objects)) }
    ensures goes { OnOk result (GoesOn unit.now.metamodel (now work.old) (now work.new)) }
{
    if !unit.metamodel.is_kind_of(row.class, class) {
        return Ok(None);
    }
    Ok(Some(load(alloc, unit, work, id, row)?))
}

/// The place of the object under a key of an entity: the persistence context's instance, else the
/// stored object, loaded into the context; none for a removed one, for one of another class, and
/// where nothing stands under the key (Jakarta Persistence 3.1, chapters 3.1.1 and 3.5.2).
///
/// PostLoad happens to an object that is loaded: `Listener` with its text where a listener or
/// callback throws then, and `Persistence(callback)` where one assigns what is not allowed. `Limit`
/// where there are 1,000,000 live objects already; `OutOfMemory` where a growth was refused. What a
/// refused call changed is undone by `UnitOfWork::undo`.
pub fn find<B: Behaviour>(
    alloc: Global,
    unit: &ServedUnit<B>,
    work: &mut UnitOfWork,
    class: usize,
    key: Key,
) -> Result<Option<usize>, Cause>
    requires ready { IsReady unit.now.metamodel (now work.old) }
    requires class { class < length unit.now.metamodel.entities }
    ensures carries { let world = world_of_unit B.meaning unit.now in
        Carries (spec.find world class key) result work.old work.new }
    ensures within { IfOk result
        (λ found. IfSome found (λ n. n < length (now work.new).objects)) }
    ensures goes { OnOk result (GoesOn unit.now.metamodel (now work.old) (now work.new)) }
{
    let id = Identity {
        table: unit.metamodel.root_of(class).table,
        key,
    };
    if let Some(place) = instance(&unit.metamodel, work, &id) {
        return Ok(found_instance(&unit.metamodel, work, class, place));
    }
    match row_of(work, &id)? {
        Some(row) => found_row(alloc, unit, work, class, &id, row),
        None => Ok(None),
    }
}
