//! A change of a row, as an overlay keeps it.
ghost use Rattle.std.specs.Prelude.{◌≡◌, IfOk};

use crate::rows::{Row, RowId};
use std::alloc::{AllocError, Global};
use std::marker::Model;

/// A change on the heap, seen by contracts as the id of its row and the row that is to stand there,
/// or none.
#[derive(Drop)]
pub struct Change {
    entry: Box<(RowId, Option<Row>)>,
}

impl Model for Change {
    ghost use Rattle.std.specs.Prelude.{Option};
    ghost use Rattle.jpa_rows.specs.rows.Rows.{RowId, Row};

    ghost Value = { RowId × Option Row };

    ghost view = { λ change. change.entry.value };
}

impl Change {
    /// The change that puts this row, or none, under the id; fails for want of memory alone.
    pub fn new(alloc: Global, id: RowId, row: Option<Row>) -> Result<Change, AllocError>
        ensures { IfOk result (λ change. change ≡ (id, row)) }
    {
        Ok(Change {
            entry: Box::new(alloc, (id, row))?,
        })
    }

    /// The id, and the row that is to stand there.
    pub fn get(&self) -> &(RowId, Option<Row>)
        ensures { result.now ≡ self.now }
    {
        &self.entry
    }

    /// The id and the row, taken off the heap.
    pub fn open(self) -> (RowId, Option<Row>)
        ensures { result ≡ self }
    {
        let Change { entry } = self;
        Box::into_inner(entry)
    }
}
