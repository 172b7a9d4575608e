//! What a commit writes.
ghost use Rattle.std.specs.Prelude.{◌≡◌, ◌⊎◌, true, nat_le, IfOk, IfErr};
ghost use Rattle.std.specs.List.{AllByRecursion};
ghost use Rattle.jpa_value.specs.declared.refusal.Cause.{Cause};
ghost use Rattle.jpa_value.specs.Value.{same_identity};
ghost use Rattle.jpa_behaviour.specs.Registered.{world_of};
ghost use Rattle.jpa_open.specs.Opened.{AreAllChanged};
ghost use Rattle.jpa_stored.specs.objects.Sets.{all_distinct, each_fits, is_rising};
ghost use Rattle.jpa_rows.specs.rows.Cells.{are_numbers, CanBeHeld};
ghost use Rattle.jpa_rows.specs.rows.Faults.{faults_after};
ghost use Rattle.jpa_rows.specs.rows.Rows.{AreChanges};
ghost use Rattle.jpa_rows.specs.rows.Tables.{schema_of};
ghost use Rattle.jpa_object_rows.specs.meaning.Sets.{rows_of};
ghost use Rattle.jpa_rows.specs.rows.Commits.{Commits, IsDifference};
ghost use Rattle.jpa_object_rows.specs.store.Written.{entries_in, is_storable_if_any, set_after};

use crate::mapper::discriminator_law;
use crate::store::numbers::change_numbers;
use crate::store::object_change::{ObjectChange, changes_of};
use crate::store::objects::change_objects;
use jpa_behaviour::{Behaviour, Registry};
use jpa_model::Metamodel;
use jpa_open::OpenSet;
use jpa_rows::overlay::Overlay;
use jpa_rows::rows::{RowChange, RowSource};
use jpa_value::{Cause, Identity, Seq};
use std::alloc::Global;

/// The difference of the rows of a view's committed objects and their next numbers from those with
/// what is to stand under some identities and of the new next numbers. The committed objects say
/// what stands, so no store is read.
fn difference_of<B: Behaviour>(
    alloc: Global,
    metamodel: &Metamodel,
    registry: &Registry<B>,
    view: &OpenSet,
    before: &[u64],
    objects: &[ObjectChange<'_>],
    next: &[u64],
) -> Result<Seq<RowChange>, Cause>
    requires committed { CanBeHeld (world_of B.meaning metamodel.now registry.now)
        view.now.committed before.now }
    requires storable { let world = world_of B.meaning metamodel.now registry.now in
        AllByRecursion (λ e. is_storable_if_any world e.0 e.1 ≡ true) (entries_in objects.now) }
    requires distinct { all_distinct (λ a b. same_identity a.0 b.0)
        (entries_in objects.now) ≡ true }
    requires numbers { are_numbers metamodel.now next.now ≡ true }
    requires rising { each_fits nat_le before.now next.now ≡ true }
    ensures ok { let world = world_of B.meaning metamodel.now registry.now in
        IfOk result (IsDifference (rows_of world view.now.committed before.now)
        (rows_of world (set_after (entries_in objects.now) view.now.committed) next.now)) }
    ensures whole { IfOk result (AreChanges (schema_of metamodel.now)) }
    ensures err { IfErr result (λ cause. cause ≡ Cause.OutOfMemory) }
{
    // what the rows of a unit rest on
    metamodel.unit();
    registry.laws();
    discriminator_law(metamodel);
    let mut overlay = Overlay::new(alloc);
    let mut stood = Overlay::new(alloc);
    change_objects(
        &mut overlay,
        &mut stood,
        alloc,
        metamodel,
        registry,
        view,
        objects,
    )?;
    change_numbers(&mut overlay, &mut stood, alloc, metamodel, before, next)?;
    overlay.into_difference(&stood)
}

/// Writes what is to stand under some identities, none of which comes twice, over the view's
/// committed objects, and the next numbers of generated keys in the place of those before. An
/// object of an identity that is committed takes the place of the old one, whose pairs go with it.
/// Where no object is to stand, the one that is committed goes, its row and its pairs.
fn write_changes<R: RowSource, B: Behaviour>(
    alloc: Global,
    metamodel: &Metamodel,
    registry: &Registry<B>,
    source: &mut R,
    view: &OpenSet,
    before: &[u64],
    objects: &[ObjectChange<'_>],
    next: &[u64],
) -> Result<(), Cause>
    requires schema { R.schema source.old ≡ schema_of metamodel.now }
    requires committed { CanBeHeld (world_of B.meaning metamodel.now registry.now)
        view.now.committed before.now }
    requires storable { let world = world_of B.meaning metamodel.now registry.now in
        AllByRecursion (λ e. is_storable_if_any world e.0 e.1 ≡ true) (entries_in objects.now) }
    requires distinct { all_distinct (λ a b. same_identity a.0 b.0)
        (entries_in objects.now) ≡ true }
    requires numbers { are_numbers metamodel.now next.now ≡ true }
    requires rising { each_fits nat_le before.now next.now ≡ true }
    ensures commits { let world = world_of B.meaning metamodel.now registry.now in
        Commits R.RowSource (faults_after result) result
        (rows_of world view.now.committed before.now)
        (rows_of world (set_after (entries_in objects.now) view.now.committed) next.now)
        source.old source.new }
    ensures cause { IfErr result
        (λ cause. (cause ≡ Cause.OutOfMemory) ⊎ (cause ≡ Cause.StoreFault)) }
{
    let changes = difference_of(alloc, metamodel, registry, view, before, objects, next)?;
    source.commit(changes.as_slice())
}

/// Writes what the manager sees under these identities, each once in rising order, where alone it
/// sees other than what is committed, over the committed objects, which the store holds, and the
/// next numbers of generated keys in the place of those before, none of which falls: all or
/// nothing, as one transaction of the store (Jakarta Persistence 3.1, chapters 2.4, 2.10, 2.12,
/// 3.2.3, 3.2.4 and 7.5).
///
/// An object takes the place of the one that is committed under its identity, whose pairs go with
/// it; one that was removed goes, its row and its pairs. What is written is exactly the difference
/// of the rows: none that stands as it is to stand, so nothing where no row changes. The view says
/// what stands, so nothing is read.
///
/// It refuses with `OutOfMemory`, and with `StoreFault` as the store does. Then the store holds
/// what it held, and is as it was where no commit was tried; where one was, the statements that it
/// ran are at most those of the difference.
///
/// However it ends, a crash leaves what it could leave before, or the rows of what the transaction
/// sees and the next numbers.
pub fn write<R: RowSource, B: Behaviour>(
    alloc: Global,
    metamodel: &Metamodel,
    registry: &Registry<B>,
    source: &mut R,
    view: &OpenSet,
    ids: &[Identity],
    before: &[u64],
    next: &[u64],
) -> Result<(), Cause>
    requires elsewhere { AreAllChanged view.now ids.now }
    requires once { is_rising ids.now ≡ true }
    requires schema { R.schema source.old ≡ schema_of metamodel.now }
    requires committed { CanBeHeld (world_of B.meaning metamodel.now registry.now)
        view.now.committed before.now }
    requires seen { CanBeHeld (world_of B.meaning metamodel.now registry.now)
        view.now.seen next.now }
    requires rising { each_fits nat_le before.now next.now ≡ true }
    ensures commits { let world = world_of B.meaning metamodel.now registry.now in
        Commits R.RowSource (faults_after result) result
        (rows_of world view.now.committed before.now) (rows_of world view.now.seen next.now)
        source.old source.new }
    ensures cause { IfErr result
        (λ cause. (cause ≡ Cause.OutOfMemory) ⊎ (cause ≡ Cause.StoreFault)) }
{
    let objects = changes_of(alloc, view, ids)?;
    write_changes(
        alloc,
        metamodel,
        registry,
        source,
        view,
        before,
        objects.as_slice(),
        next,
    )
}
