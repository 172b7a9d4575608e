//! Changes of several rows.
ghost use Rattle.std.specs.Prelude.{◌≡◌, OnOk, IfErr};
ghost use Rattle.jpa_value.specs.declared.refusal.Cause.{Cause};
ghost use Rattle.jpa_object_rows.specs.store.Shown.{with_puts, with_drops};

use jpa_rows::overlay::Overlay;
use jpa_rows::rows::{Row, RowId};
use jpa_value::{Cause, Seq, TryCopy};

/// Puts rows, from the last to the first.
pub(super) fn put_rows(overlay: &mut Overlay, rows: Seq<(RowId, Row)>) -> Result<(), Cause>
    ensures ok { OnOk result (overlay.new ≡ with_puts rows overlay.old) }
    ensures err { IfErr result (λ cause. cause ≡ Cause.OutOfMemory) }
{
    let mut left = rows.into_vec();
    while let Some((id, row)) = left.pop() {
        overlay.put(id, row)?;
    }
    Ok(())
}

/// Drops rows, from the last to the first, and notes in a second overlay that they stood.
pub(super) fn drop_rows(
    overlay: &mut Overlay,
    stood: &mut Overlay,
    rows: Seq<(RowId, Row)>,
) -> Result<(), Cause>
    ensures ok { OnOk result (overlay.new ≡ with_drops rows overlay.old) }
    ensures noted { OnOk result (stood.new ≡ with_puts rows stood.old) }
    ensures err { IfErr result (λ cause. cause ≡ Cause.OutOfMemory) }
{
    let mut left = rows.into_vec();
    while let Some((id, row)) = left.pop() {
        overlay.drop_row(id.try_copy()?)?;
        stood.put(id, row)?;
    }
    Ok(())
}
