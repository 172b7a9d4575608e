//! Copies of entries.
ghost use Rattle.std.specs.Prelude.{◌≡◌, IfOk, IfErr};
ghost use Rattle.jpa_value.specs.declared.refusal.Cause.{Cause};

use crate::context::{Base, Entry};
use jpa_value::{Cause, Identity, Seq, TryCopy};

/// A copy of what a base knows of a relation. Fails for want of memory alone, with `OutOfMemory`.
pub fn known_copied(known: &Option<Seq<Identity>>) -> Result<Option<Seq<Identity>>, Cause>
    ensures ok { IfOk result (λ copy. copy ≡ known.now) }
    ensures err { IfErr result (λ cause. cause ≡ Cause.OutOfMemory) }
{
    match known {
        Some(ids) => Ok(Some(ids.try_copy()?)),
        None => Ok(None),
    }
}

/// A copy of what a base knows of each relation. Fails for want of memory alone, with
/// `OutOfMemory`.
fn members_copied(members: &Seq<Option<Seq<Identity>>>) -> Result<Seq<Option<Seq<Identity>>>, Cause>
    ensures ok { IfOk result (λ copies. copies ≡ members.now) }
    ensures err { IfErr result (λ cause. cause ≡ Cause.OutOfMemory) }
{
    let mut copies = Seq::new(members.allocator());
    for known in members.as_slice() {
        copies.push(known_copied(known)?)?;
    }
    Ok(copies)
}

impl TryCopy for Base {
    fn try_copy(&self) -> Result<Base, Cause> {
        Ok(Base {
            stored: self.stored.try_copy()?,
            members: members_copied(&self.members)?,
        })
    }
}

impl TryCopy for Entry {
    fn try_copy(&self) -> Result<Entry, Cause> {
        let base = match &self.base {
            Some(base) => Some(base.try_copy()?),
            None => None,
        };
        Ok(Entry {
            object: self.object,
            key: self.key.try_copy()?,
            lock: self.lock,
            base,
        })
    }
}
