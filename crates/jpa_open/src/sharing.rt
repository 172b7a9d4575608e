//! A set with several owners for each object: a transaction keeps back what the commits of others
//! replace.
ghost use Rattle.std.specs.Prelude.{◌≡◌, T, IfOk, IfErr};
ghost use Rattle.std.specs.FinMap.Entries.{is_sorted};
ghost use Rattle.jpa_value.specs.Value.{identity_cmp};
ghost use Rattle.jpa_value.specs.declared.refusal.Cause.{Cause};
ghost use Rattle.jpa_open.specs.Opened.{unwritten};

use crate::open::OpenSet;
use crate::shared::Shared;
use jpa_stored::objects::{Stored, StoredSet};
use jpa_value::{Boxed, Cause, Identity, TryCopy};
use std::alloc::Global;

/// An entry with one owner, which can share it.
fn shared(
    alloc: Global,
    entry: Boxed<(Identity, Stored)>,
) -> Result<Shared<(Identity, Stored)>, Cause>
    ensures shared { IfOk result (λ e. e ≡ entry) }
    ensures err { IfErr result (λ cause. cause ≡ Cause.OutOfMemory) }
{
    let (id, object) = entry.get();
    Ok(Shared::new(alloc, (id.try_copy()?, object.try_copy()?))?)
}

/// These entries; each goes as soon as it is copied.
fn shared_entries(
    alloc: Global,
    entries: Vec<Boxed<(Identity, Stored)>>,
) -> Result<Vec<Shared<(Identity, Stored)>>, Cause>
    ensures all { IfOk result (λ list. list.items ≡ entries.items) }
    ensures err { IfErr result (λ cause. cause ≡ Cause.OutOfMemory) }
{
    let mut list = Vec::new(alloc);
    for entry in entries {
        list.push(shared(alloc, entry)?)?;
    }
    Ok(list)
}

/// A set as transactions see it where nothing is written. It fails for want of memory alone.
pub fn view_of(alloc: Global, committed: StoredSet) -> Result<OpenSet, Cause>
    ensures view { IfOk result (λ view. view ≡ unwritten committed) }
    ensures err { IfErr result (λ cause. cause ≡ Cause.OutOfMemory) }
{
    let entries = shared_entries(alloc, committed.into_entries())?;
    OpenSet::new(alloc, entries)
}
