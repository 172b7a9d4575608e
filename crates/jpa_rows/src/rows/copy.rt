//! Copies of rows and of their changes.
ghost use Rattle.std.specs.Prelude.{◌≡◌, IfOk, IfErr};
ghost use Rattle.jpa_value.specs.declared.refusal.Cause.{Cause};

use crate::rows::row::{Content, Field, Row, RowChange};
use jpa_value::{Cause, TryCopy};

impl TryCopy for Content {
    fn try_copy(&self) -> Result<Content, Cause> {
        match self {
            Content::Value(value) => Ok(Content::Value(value.try_copy()?)),
            Content::Reference(key) => Ok(Content::Reference(key.try_copy()?)),
        }
    }
}

impl TryCopy for Field {
    fn try_copy(&self) -> Result<Field, Cause> {
        Ok(Field {
            column: self.column,
            content: self.content.try_copy()?,
        })
    }
}

/// An equal row, or none; `OutOfMemory` where a growth was refused.
pub fn copy_row(row: &Option<Row>) -> Result<Option<Row>, Cause>
    ensures equal { IfOk result (λ copy. copy ≡ row.now) }
    ensures err { IfErr result (λ cause. cause ≡ Cause.OutOfMemory) }
{
    match row {
        None => Ok(None),
        Some(row) => Ok(Some(row.try_copy()?)),
    }
}

impl TryCopy for RowChange {
    fn try_copy(&self) -> Result<RowChange, Cause> {
        Ok(RowChange {
            id: self.id.try_copy()?,
            row: copy_row(&self.row)?,
        })
    }
}
