//! Whether a description gives a history.
ghost use Rattle.std.specs.Prelude.{◌≡◌, IfOk, IfErr};
ghost use Rattle.jpa_model.specs.Described.{IsUnlessMemory};
ghost use Rattle.jpa_description.specs.history.Condition as condition;
ghost use Rattle.jpa_value.specs.declared.refusal.Cause.{Cause};

use crate::history::alone::{are_as_before, are_classes_changed_well};
use crate::history::apart::are_apart;
use crate::history::described::history_of;
use crate::history::draft::DraftHistory;
use crate::history::history::History;
use jpa_model::Metamodel;
use jpa_value::{Cause, MappingFault};
use std::alloc::Global;

fn has_changes(
    alloc: Global,
    metamodel: &Metamodel,
    draft: &DraftHistory,
    history: &History,
) -> Result<bool, Cause>
    requires { history.now ≡ condition.history_of draft.now }
    ensures judged { IfOk result (λ b. b ≡ condition.has_changes metamodel.now draft.now) }
    ensures err { IfErr result (λ cause. cause ≡ Cause.OutOfMemory) }
{
    let classes = draft.classes.as_slice();
    match metamodel.unit().revision {
        1 => Ok(are_as_before(classes)),
        2 if are_classes_changed_well(metamodel.entities(), classes) => {
            are_apart(alloc, metamodel, history)
        }
        _ => Ok(false),
    }
}

/// The history of a unit that a description gives beside it.
///
/// `Mapping(Model)` exactly where the description says what revision 1 may not say, or fails
/// condition 8 at revision 2; `OutOfMemory` where a growth was refused.
pub fn check_history(
    alloc: Global,
    metamodel: &Metamodel,
    draft: &DraftHistory,
) -> Result<History, Cause>
    ensures checked { IsUnlessMemory result (condition.checked_history metamodel.now draft.now) }
    ensures history { IfOk result (condition.IsHistoryOf metamodel.now) }
{
    let history = history_of(alloc, draft)?;
    if !has_changes(alloc, metamodel, draft, &history)? {
        return Err(Cause::Mapping(MappingFault::Model));
    }
    Ok(history)
}
