//! The changes of next numbers.
ghost use Rattle.std.specs.Prelude.{◌≡◌, true, nat_le, OnOk, IfErr};
ghost use Rattle.jpa_value.specs.declared.refusal.Cause.{Cause};
ghost use Rattle.jpa_behaviour.specs.Behaviour.{World, IsRegular};
ghost use Rattle.jpa_stored.specs.objects.Sets.{StoredSet, each_fits};
ghost use Rattle.jpa_rows.specs.rows.Cells.{is_next, are_numbers};
ghost use Rattle.jpa_rows.specs.rows.Numbers.{IsNarrowOrigin};
ghost use Rattle.jpa_rows.specs.rows.Rows.{Rows};
ghost use Rattle.jpa_object_rows.specs.meaning.View.{AreStorable};
ghost use Rattle.jpa_object_rows.specs.meaning.Sets.{rows_of};
ghost use Rattle.jpa_object_rows.specs.store.Shown.{with_next, with_old_next, Show, Recall};

use crate::mapper::{discriminator_law, number_row};
use jpa_model::{Metamodel, Origin};
use jpa_rows::overlay::Overlay;
use jpa_rows::rows::origin_of;
use jpa_value::Cause;
use std::alloc::Global;

/// Puts the row of a root's next number.
fn put_number(overlay: &mut Overlay, alloc: Global, origin: &Origin, next: u64) -> Result<(), Cause>
    requires narrow { IsNarrowOrigin origin.now }
    requires next { is_next origin.now next ≡ true }
    ensures ok { OnOk result (overlay.new ≡ with_next origin.now next overlay.old) }
    ensures err { IfErr result (λ cause. cause ≡ Cause.OutOfMemory) }
{
    match origin {
        Origin::Root(root) => {
            let (id, row) = number_row(alloc, root.table as u32, next)?;
            overlay.put(id, row)
        }
        Origin::Extends(_) => Ok(()),
    }
}

/// Puts the row of a root's next number, and notes the row of the one before. A number that is 1
/// has none.
fn change_number(
    overlay: &mut Overlay,
    stood: &mut Overlay,
    alloc: Global,
    origin: &Origin,
    before: u64,
    next: u64,
) -> Result<(), Cause>
    requires narrow { IsNarrowOrigin origin.now }
    requires before { is_next origin.now before ≡ true }
    requires next { is_next origin.now next ≡ true }
    ensures ok { OnOk result (overlay.new ≡ with_next origin.now next overlay.old) }
    ensures noted { OnOk result (stood.new ≡ with_old_next origin.now before stood.old) }
    ensures err { IfErr result (λ cause. cause ≡ Cause.OutOfMemory) }
{
    if before != 1 {
        put_number(stood, alloc, origin, before)?;
    }
    put_number(overlay, alloc, origin, next)
}

/// Puts the row of each next number that is another than before, and notes what stood.
pub(super) fn change_numbers(
    overlay: &mut Overlay,
    stood: &mut Overlay,
    alloc: Global,
    metamodel: &Metamodel,
    before: &[u64],
    next: &[u64],
) -> Result<(), Cause>
    requires before { are_numbers metamodel.now before.now ≡ true }
    requires numbers { are_numbers metamodel.now next.now ≡ true }
    requires rising { each_fits nat_le before.now next.now ≡ true }
    ensures ok { OnOk result ((world : World) (base : Rows) (set : StoredSet)
        → world.model ≡ metamodel.now → IsRegular world
        → Show world base overlay.old set before.now
        → Show world base overlay.new set next.now) }
    ensures noted { OnOk result ((world : World) (set : StoredSet)
        → world.model ≡ metamodel.now → IsRegular world → AreStorable world set
        → Recall (rows_of world set before.now) stood.old overlay.old
        → Recall (rows_of world set before.now) stood.new overlay.new) }
    ensures err { IfErr result (λ cause. cause ≡ Cause.OutOfMemory) }
{
    // what the rows of a unit rest on
    metamodel.unit();
    discriminator_law(metamodel);
    for class in 0..next.len() {
        if before[class] != next[class] {
            change_number(
                overlay,
                stood,
                alloc,
                origin_of(metamodel, class),
                before[class],
                next[class],
            )?;
        }
    }
    Ok(())
}
