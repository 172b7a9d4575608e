//! From the bytes of a description to the metamodel and its history.
ghost use Rattle.std.specs.Prelude.{IfOk};
ghost use Rattle.serde_json.specs.View.{view};
ghost use Rattle.jpa_model.specs.Described.{IsUnlessMemory};
ghost use Rattle.jpa_description.specs.history.Condition.{IsHistoryOf};
ghost use Rattle.jpa_json.specs.readers.Outcome.{Gives, same};
ghost use Rattle.jpa_json.specs.mapping.MappingOf as mappings;

use crate::mapping::members::Description;
use crate::readers::{Described, Unread, json_of, or_refuse};
use jpa_description::description::check;
use jpa_description::history::{DraftHistory, History, check_history};
use jpa_model::{Draft, Metamodel};
use jpa_value::{Cause, MappingFault};
use serde_json::Value as Json;
use std::alloc::Global;

/// What a mapping description describes: a metamodel, and what has changed of it since revision 1.
#[derive(Drop)]
pub struct Mapping {
    pub metamodel: Metamodel,
    pub history: History,
}

/// What a description says, well formed or not.
#[derive(Drop)]
pub(super) struct Drafts {
    pub(super) draft: Draft,
    pub(super) history: DraftHistory,
}

/// The metamodel and its history that a mapping description describes, a text of JSON in UTF-8
/// (Jakarta Persistence 3.1, chapters 11 and 12, as data).
///
/// Refuses as `Mapping(Json)` bytes that are no UTF-8 or a text that `serde_json` does not read,
/// else as `Mapping(Shape)` a member that is missing, that no table lists or that is of another
/// type or word, else as `Mapping(Model)` a metamodel or a history that is not well formed; as
/// `OutOfMemory` where a growth was refused. What `functions` holds is not asked.
pub fn read_mapping(alloc: Global, bytes: &[u8]) -> Result<Mapping, Cause>
    ensures read { IsUnlessMemory result (mappings.mapping_of bytes.now) }
    ensures history { IfOk result (λ mapping. IsHistoryOf mapping.metamodel mapping.history) }
{
    let drafts = read_drafts(alloc, bytes)?;
    checked(alloc, &drafts)
}

fn read_drafts(alloc: Global, bytes: &[u8]) -> Result<Drafts, Cause>
    ensures { IsUnlessMemory result (mappings.drafts_in bytes.now) }
{
    let json = or_refuse(json_of(alloc, bytes), Cause::Mapping(MappingFault::Json))?;
    or_refuse(drafts_of(alloc, &json), Cause::Mapping(MappingFault::Shape))
}

#[tactic(auto, unfolding(crate::specs::mapping::MappingOf::drafts_of))]
fn drafts_of(alloc: Global, json: &Json) -> Result<Drafts, Unread>
    ensures { Gives same result (mappings.drafts_of (view json.now)) }
{
    let draft = Draft::read(alloc, json)?;
    let history = DraftHistory::read(alloc, json)?;
    Ok(Drafts { draft, history })
}

fn checked(alloc: Global, drafts: &Drafts) -> Result<Mapping, Cause>
    ensures read { IsUnlessMemory result (mappings.checked_mapping drafts.now) }
    ensures history { IfOk result (λ mapping. IsHistoryOf mapping.metamodel mapping.history) }
{
    let metamodel = check(alloc, &drafts.draft)?;
    let history = check_history(alloc, &metamodel, &drafts.history)?;
    Ok(Mapping { metamodel, history })
}
