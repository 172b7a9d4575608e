//! What a row says.
ghost use Rattle.std.specs.Prelude.{◌≡◌, ◌↔◌, IsTrue, IfOk, IfErr};
ghost use Rattle.jpa_value.specs.declared.refusal.Cause.{Cause};
ghost use Rattle.jpa_behaviour.specs.Registered.{world_of};
ghost use Rattle.jpa_rows.specs.rows.Tables.{schema_of};
ghost use Rattle.jpa_object_rows.specs.meaning.Raw.{AreRowsOf};
ghost use Rattle.jpa_opening.specs.reader.Sound.{IsPairRow};
ghost use Rattle.jpa_opening.specs.reader.Read.{IsObjectOf, SaysIfSound};

use crate::reader::numbers::{is_number_row, is_pair, is_revision_row};
use crate::reader::owners::is_join;
use jpa_behaviour::{Behaviour, Registry};
use jpa_model::Metamodel;
use jpa_object_rows::mapper::from_rows_by_id;
use jpa_rows::rows::{Row, RowId};
use jpa_stored::objects::Stored;
use jpa_value::Cause;
use std::alloc::Global;

/// What a sound row says.
#[derive(Drop)]
pub(super) enum Meaning {
    /// An object.
    Object(Stored),
    /// That a pair stands.
    Pair,
    /// A next number.
    Number,
    /// The revision.
    Revision,
}

/// Whether a row is that of a pair.
fn is_pair_row(metamodel: &Metamodel, id: &RowId, row: &Row) -> bool
    ensures { IsTrue result ↔ IsPairRow metamodel.now id.now row.now }
{
    is_pair(row) && is_join(metamodel, id.table)
}

/// The object of a main row, with its pairs among these rows; none where no object has it.
fn object_of<B: Behaviour>(
    alloc: Global,
    metamodel: &Metamodel,
    registry: &Registry<B>,
    id: &RowId,
    row: &Row,
    rows: &[(RowId, Row)],
) -> Result<Option<Stored>, Cause>
    requires { AreRowsOf (schema_of metamodel.now) rows.now }
    ensures object { IfOk result (IsObjectOf (world_of B.meaning metamodel.now registry.now)
        rows.now id.now row.now) }
    ensures err { IfErr result (λ cause. cause ≡ Cause.OutOfMemory) }
{
    match from_rows_by_id(alloc, metamodel, registry, id, row, rows) {
        Ok(object) => Ok(Some(object)),
        Err(Cause::OutOfMemory) => Err(Cause::OutOfMemory),
        Err(_) => Ok(None),
    }
}

/// What a row says, if it is sound.
pub(super) fn meaning_of<B: Behaviour>(
    alloc: Global,
    metamodel: &Metamodel,
    registry: &Registry<B>,
    id: &RowId,
    row: &Row,
    rows: &[(RowId, Row)],
) -> Result<Option<Meaning>, Cause>
    requires { AreRowsOf (schema_of metamodel.now) rows.now }
    ensures meaning { IfOk result (SaysIfSound (world_of B.meaning metamodel.now registry.now)
        rows.now id.now row.now) }
    ensures err { IfErr result (λ cause. cause ≡ Cause.OutOfMemory) }
{
    if is_revision_row(metamodel, id, row) {
        return Ok(Some(Meaning::Revision));
    }
    if is_number_row(metamodel, id, row) {
        return Ok(Some(Meaning::Number));
    }
    if is_pair_row(metamodel, id, row) {
        return Ok(Some(Meaning::Pair));
    }
    match object_of(alloc, metamodel, registry, id, row, rows)? {
        Some(object) => Ok(Some(Meaning::Object(object))),
        None => Ok(None),
    }
}
