//! The check of a description.
ghost use Rattle.std.specs.Prelude.{IfOk};
ghost use Rattle.jpa_model.specs.Described.{checked, IsUnlessMemory};
ghost use Rattle.jpa_model.specs.Kept.{IsDescribed};

use crate::description::alone::has_entities;
use crate::description::chains::chains_of;
use crate::description::describe::unit_of;
use crate::description::well_formed::stands_together;
use jpa_model::{Draft, Metamodel, PersistenceUnit};
use jpa_value::{Cause, MappingFault};
use std::alloc::Global;

/// The unit that a description describes, as `check` answers.
fn described_unit(alloc: Global, draft: &Draft) -> Result<PersistenceUnit, Cause>
    ensures checked { IsUnlessMemory result (checked draft.now) }
    ensures described { IfOk result IsDescribed }
{
    let has_revision = draft.revision == 1 || draft.revision == 2;
    if !has_revision || !has_entities(draft) {
        return Err(Cause::Mapping(MappingFault::Model));
    }
    let chains = chains_of(alloc, draft)?;
    if !stands_together(alloc, draft, chains.as_slice())? {
        return Err(Cause::Mapping(MappingFault::Model));
    }
    Ok(unit_of(alloc, draft, chains.as_slice())?)
}

/// The metamodel that a description describes.
///
/// `Mapping(Model)` exactly where the description isn't well formed; `OutOfMemory` where a growth
/// was refused.
pub fn check(alloc: Global, draft: &Draft) -> Result<Metamodel, Cause>
    ensures { IsUnlessMemory result (checked draft.now) }
{
    let unit = described_unit(alloc, draft)?;
    Ok(Metamodel::of(alloc, unit)?)
}
