//! Whether a set is sound where it was changed.
ghost use Rattle.std.specs.Prelude.{◌≡◌, T, Some, option_map, IfErr, OnOk};
ghost use Rattle.std.specs.FinMap.Entries.{is_sorted};
ghost use Rattle.jpa_value.specs.declared.refusal.Cause.{Cause};
ghost use Rattle.jpa_value.specs.Value.{identity_cmp};
ghost use Rattle.jpa_stored.specs.objects.Sets as sets;
ghost use Rattle.jpa_open.specs.Opened as opened;
ghost use Rattle.jpa_constraints.specs.Changed.{IsChanged};

use crate::change::Change;
use crate::reference::all_lead;
use crate::required::all_fill;
use crate::unique::all_alone;
use jpa_model::Metamodel;
use jpa_open::OpenSet;
use jpa_value::{Cause, PersistenceFault};

/// Whether the set that the manager at work sees is sound still (chapters 2.9, 2.10 and 3.2.4),
/// where it was so before these changes: required values and links are there, each link leads to an
/// object of its target class or below it, and no two objects own the same target in one one-to-one
/// relation.
///
/// Else `Persistence` with the first part that fails over the whole set: `Null`, then `Reference`,
/// then `Unique`. Takes no memory. It looks at what was changed, at what that leads to, and at what
/// leads to an identity that was taken out or has an object of another class now: with c changes
/// and r references of these in a set of n objects O((c + r) log n) steps.
pub fn judge(metamodel: &Metamodel, view: &OpenSet, changes: &[Change<'_>]) -> Result<(), Cause>
    requires rising { T (is_sorted identity_cmp (opened.now view.now)) }
    requires changed { IsChanged metamodel.now changes.now (opened.now view.now) }
    ensures sound { OnOk result (sets.IsSound metamodel.now (opened.now view.now)) }
    ensures fault { IfErr result (λ cause.
        option_map Cause.Persistence (sets.fault_of metamodel.now (opened.now view.now))
        ≡ Some cause) }
{
    if !all_fill(metamodel, view, changes) {
        return Err(Cause::Persistence(PersistenceFault::Null));
    }
    if !all_lead(metamodel, view, changes) {
        return Err(Cause::Persistence(PersistenceFault::Reference));
    }
    if !all_alone(metamodel, view, changes) {
        return Err(Cause::Persistence(PersistenceFault::Unique));
    }
    Ok(())
}
