//! The changes of written objects.
ghost use Rattle.std.specs.Prelude.{◌≡◌, true, OnOk, IfOk, IfErr};
ghost use Rattle.std.specs.List.{AllByRecursion};
ghost use Rattle.std.specs.Option.{option_copied};
ghost use Rattle.jpa_value.specs.declared.refusal.Cause.{Cause};
ghost use Rattle.jpa_value.specs.Value.{same_identity};
ghost use Rattle.jpa_behaviour.specs.Registered.{world_of};
ghost use Rattle.jpa_stored.specs.objects.Sets as sets;
ghost use Rattle.jpa_object_rows.specs.meaning.View.{is_storable, AreStorable};
ghost use Rattle.jpa_object_rows.specs.meaning.Objects.{object_entries};
ghost use Rattle.jpa_object_rows.specs.store.Shown.{with_puts, with_drops, entries_at, entries_stood};
ghost use Rattle.jpa_object_rows.specs.store.Shown.{Replaces, Brings, RecallsStill};
ghost use Rattle.jpa_object_rows.specs.store.Written.{entries_in, is_storable_if_any, set_after};

use crate::mapper::{discriminator_law, to_rows};
use crate::store::object_change::ObjectChange;
use crate::store::rows::{drop_rows, put_rows};
use jpa_behaviour::{Behaviour, Registry};
use jpa_model::Metamodel;
use jpa_open::OpenSet;
use jpa_rows::overlay::Overlay;
use jpa_rows::rows::{Row, RowId};
use jpa_stored::objects::Stored;
use jpa_value::{Cause, Identity, Seq};
use std::alloc::Global;

/// The rows of an object that can be stored, for which no converter throws.
fn rows_of<B: Behaviour>(
    alloc: Global,
    metamodel: &Metamodel,
    registry: &Registry<B>,
    id: &Identity,
    object: &Stored,
) -> Result<Seq<(RowId, Row)>, Cause>
    requires { is_storable (world_of B.meaning metamodel.now registry.now)
        id.now object.now ≡ true }
    ensures ok { IfOk result (λ rows.
        rows ≡ object_entries (world_of B.meaning metamodel.now registry.now) id.now object.now) }
    ensures err { IfErr result (λ cause. cause ≡ Cause.OutOfMemory) }
{
    to_rows(alloc, metamodel, registry, id, object)
}

/// Drops the rows of the view's committed object under an identity, if there is one, and
/// notes that they stood.
fn drop_old<B: Behaviour>(
    overlay: &mut Overlay,
    stood: &mut Overlay,
    alloc: Global,
    metamodel: &Metamodel,
    registry: &Registry<B>,
    view: &OpenSet,
    id: &Identity,
) -> Result<(), Cause>
    requires { AreStorable (world_of B.meaning metamodel.now registry.now) view.now.committed }
    ensures ok { OnOk result (overlay.new ≡ with_drops
        (entries_stood (world_of B.meaning metamodel.now registry.now)
        view.now.committed id.now) overlay.old) }
    ensures noted { OnOk result (stood.new ≡ with_puts
        (entries_stood (world_of B.meaning metamodel.now registry.now)
        view.now.committed id.now) stood.old) }
    ensures err { IfErr result (λ cause. cause ≡ Cause.OutOfMemory) }
{
    match view.committed(id) {
        None => Ok(()),
        Some(old) => drop_rows(
            overlay,
            stood,
            rows_of(alloc, metamodel, registry, id, old)?,
        ),
    }
}

/// Puts the rows of what is to stand under an identity, if anything is.
fn put_new<B: Behaviour>(
    overlay: &mut Overlay,
    alloc: Global,
    metamodel: &Metamodel,
    registry: &Registry<B>,
    id: &Identity,
    object: Option<&Stored>,
) -> Result<(), Cause>
    requires { is_storable_if_any (world_of B.meaning metamodel.now registry.now)
        id.now (option_copied object) ≡ true }
    ensures ok { OnOk result (overlay.new ≡ with_puts
        (entries_at (world_of B.meaning metamodel.now registry.now)
        id.now (option_copied object.entry)) overlay.old) }
    ensures err { IfErr result (λ cause. cause ≡ Cause.OutOfMemory) }
{
    match object {
        None => Ok(()),
        Some(object) => {
            let rows = rows_of(alloc, metamodel, registry, id, object)?;
            put_rows(overlay, rows)
        }
    }
}

/// Puts what is to stand under an identity in the place of the view's committed object there,
/// if there is one, and notes what stood.
fn change_object<B: Behaviour>(
    overlay: &mut Overlay,
    stood: &mut Overlay,
    alloc: Global,
    metamodel: &Metamodel,
    registry: &Registry<B>,
    view: &OpenSet,
    id: &Identity,
    object: Option<&Stored>,
) -> Result<(), Cause>
    requires committed { AreStorable (world_of B.meaning metamodel.now registry.now)
        view.now.committed }
    requires storable { is_storable_if_any (world_of B.meaning metamodel.now registry.now)
        id.now (option_copied object) ≡ true }
    ensures ok { OnOk result (Replaces (world_of B.meaning metamodel.now registry.now) id.now
        (sets.stored_at view.now.committed id.now) (option_copied object.entry)
        overlay.old overlay.new) }
    ensures noted { OnOk result (RecallsStill (world_of B.meaning metamodel.now registry.now)
        view.now.committed stood.old overlay.old stood.new overlay.new) }
    ensures err { IfErr result (λ cause. cause ≡ Cause.OutOfMemory) }
{
    // what the rows of a unit rest on
    metamodel.unit();
    registry.laws();
    discriminator_law(metamodel);
    drop_old(overlay, stood, alloc, metamodel, registry, view, id)?;
    put_new(overlay, alloc, metamodel, registry, id, object)
}

/// Puts what is to stand under each identity in the place of the view's committed object
/// there, and notes what stood.
pub(super) fn change_objects<B: Behaviour>(
    overlay: &mut Overlay,
    stood: &mut Overlay,
    alloc: Global,
    metamodel: &Metamodel,
    registry: &Registry<B>,
    view: &OpenSet,
    changes: &[ObjectChange<'_>],
) -> Result<(), Cause>
    requires committed { AreStorable (world_of B.meaning metamodel.now registry.now)
        view.now.committed }
    requires storable { AllByRecursion (λ e. is_storable_if_any
        (world_of B.meaning metamodel.now registry.now) e.0 e.1 ≡ true) (entries_in changes.now) }
    requires distinct { sets.all_distinct (λ a b. same_identity a.0 b.0)
        (entries_in changes.now) ≡ true }
    ensures ok { OnOk result (Brings (world_of B.meaning metamodel.now registry.now)
        view.now.committed (set_after (entries_in changes.now) view.now.committed)
        overlay.old overlay.new) }
    ensures noted { OnOk result (RecallsStill (world_of B.meaning metamodel.now registry.now)
        view.now.committed stood.old overlay.old stood.new overlay.new) }
    ensures err { IfErr result (λ cause. cause ≡ Cause.OutOfMemory) }
{
    for change in changes {
        change_object(
            overlay,
            stood,
            alloc,
            metamodel,
            registry,
            view,
            change.id,
            change.object,
        )?;
    }
    Ok(())
}
