//! Copies of what a persistence unit holds.
ghost use Rattle.std.specs.Prelude.{◌≡◌, IfOk, IfErr};
ghost use Rattle.jpa_value.specs.declared.refusal.Cause.{Cause};

use crate::unit::{Attribute, Part, Relation, Root, VersionColumn};
use jpa_value::{Cause, Text, TryCopy};

/// An equal text, or none; `OutOfMemory` where a growth was refused.
pub fn copy_option(text: &Option<Text>) -> Result<Option<Text>, Cause>
    ensures equal { IfOk result (λ copy. copy ≡ text.now) }
    ensures err { IfErr result (λ cause. cause ≡ Cause.OutOfMemory) }
{
    match text {
        None => Ok(None),
        Some(text) => Ok(Some(text.try_copy()?)),
    }
}

impl TryCopy for Part {
    fn try_copy(&self) -> Result<Part, Cause> {
        Ok(Part {
            name: self.name.try_copy()?,
            kind: self.kind,
        })
    }
}

impl TryCopy for VersionColumn {
    fn try_copy(&self) -> Result<VersionColumn, Cause> {
        Ok(VersionColumn {
            name: self.name.try_copy()?,
            column: self.column,
        })
    }
}

fn copy_version(version: &Option<VersionColumn>) -> Result<Option<VersionColumn>, Cause>
    ensures equal { IfOk result (λ copy. copy ≡ version.now) }
    ensures err { IfErr result (λ cause. cause ≡ Cause.OutOfMemory) }
{
    match version {
        None => Ok(None),
        Some(version) => Ok(Some(version.try_copy()?)),
    }
}

impl TryCopy for Root {
    fn try_copy(&self) -> Result<Root, Cause> {
        Ok(Root {
            table: self.table,
            key: self.key.try_copy()?,
            embedded: copy_option(&self.embedded)?,
            generated: self.generated,
            version: copy_version(&self.version)?,
        })
    }
}

impl TryCopy for Attribute {
    fn try_copy(&self) -> Result<Attribute, Cause> {
        Ok(Attribute {
            name: self.name.try_copy()?,
            kind: self.kind,
            column: self.column,
            required: self.required,
            converter: copy_option(&self.converter)?,
        })
    }
}

impl TryCopy for Relation {
    fn try_copy(&self) -> Result<Relation, Cause> {
        Ok(Relation {
            name: self.name.try_copy()?,
            side: self.side,
            target: self.target,
            cascade: self.cascade,
            orphan_removal: self.orphan_removal,
        })
    }
}
