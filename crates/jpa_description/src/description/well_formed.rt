//! Whether a description is well formed.
ghost use Rattle.std.specs.Prelude.{◌≡◌, IfOk, IfErr};
ghost use Rattle.jpa_model.specs.Drafted as drafted;
ghost use Rattle.jpa_model.specs.WellFormed as well;
ghost use Rattle.jpa_value.specs.declared.refusal.Cause.{Cause};

use crate::description::alone::{has_orphans, have_keys, superclasses_are_named};
use crate::description::along::{are_distinct_along, has_numbers};
use crate::description::chains::{begin_with_roots, chains_of};
use crate::description::events::has_events;
use crate::description::relations::has_relations;
use jpa_model::Draft;
use jpa_value::{Cause, Seq};
use std::alloc::Global;

fn has_roots(draft: &Draft, chains: &[Seq<usize>]) -> bool
    requires { chains.now ≡ drafted.chains draft.now }
    ensures { result ≡ well.has_roots draft.now }
{
    superclasses_are_named(draft)
        && begin_with_roots(draft, chains)
        && have_keys(draft.entities.as_slice())
}

/// Whether a description with these chains meets the conditions 2 to 7: inheritance and keys,
/// members, tables and columns, relations, orphan removal, events.
pub(super) fn stands_together(
    alloc: Global,
    draft: &Draft,
    chains: &[Seq<usize>],
) -> Result<bool, Cause>
    requires { chains.now ≡ drafted.chains draft.now }
    ensures judged { IfOk result (λ b. b ≡ well.stands_together draft.now) }
    ensures err { IfErr result (λ cause. cause ≡ Cause.OutOfMemory) }
{
    if !has_roots(draft, chains) {
        return Ok(false);
    }
    if !are_distinct_along(alloc, draft, chains)? {
        return Ok(false);
    }
    if !has_numbers(alloc, draft, chains)? {
        return Ok(false);
    }
    if !has_relations(draft, chains) {
        return Ok(false);
    }
    if !has_orphans(draft) {
        return Ok(false);
    }
    has_events(alloc, draft)
}
