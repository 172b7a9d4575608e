//! Sets as statements run over them.
ghost use Rattle.std.specs.Prelude.{◌≡◌, T, IfOk, IfErr};
ghost use Rattle.std.specs.FinMap.Entries.{is_sorted};
ghost use Rattle.jpa_value.specs.Value.{identity_cmp};
ghost use Rattle.jpa_value.specs.declared.refusal.Cause.{Cause};
ghost use Rattle.jpa_open.specs.Opened.{unwritten};
ghost use Rattle.jpa_questions.specs.by_key.ByKey.{only};

use jpa_open::{OpenSet, Shared};
use jpa_stored::objects::Stored;
use jpa_value::{Cause, Identity};
use std::alloc::Global;

/// The set of what stands under one identity. It fails for want of memory alone.
pub(super) fn opened_alone(
    alloc: Global,
    id: Identity,
    object: Option<Stored>,
) -> Result<OpenSet, Cause>
    ensures opened { IfOk result (λ opened. opened ≡ unwritten (only id object)) }
    ensures err { IfErr result (λ cause. cause ≡ Cause.OutOfMemory) }
{
    let mut entries = Vec::new(alloc);
    if let Some(object) = object {
        entries.push(Shared::new(alloc, (id, object))?)?;
    }
    OpenSet::new(alloc, entries)
}
