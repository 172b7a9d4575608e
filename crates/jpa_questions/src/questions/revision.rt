//! Whether a store is of the revision of a unit.
ghost use Rattle.std.specs.Prelude.{◌≡◌, ◌⊎◌, IfOk, IfErr};
ghost use Rattle.jpa_value.specs.declared.refusal.Cause.{Cause};
ghost use Rattle.jpa_object_rows.specs.meaning.Objects.{number_id};
ghost use Rattle.jpa_rows.specs.rows.Rows.{Rows};
ghost use Rattle.jpa_rows.specs.rows.Looks.{LooksAtOneRow, LooksOnly};
ghost use Rattle.jpa_questions.specs.questions.Revisions as spec;

use jpa_model::Metamodel;
use jpa_rows::keys::encode_key;
use jpa_rows::rows::{RowId, RowReader};
use jpa_value::{Cause, Identity, Key, Value};
use std::alloc::Global;

/// The id of the row of the revision.
fn revision_id(alloc: Global) -> Result<RowId, Cause>
    ensures ok { IfOk result (λ id. id ≡ number_id 0) }
    ensures err { IfErr result (λ cause. cause ≡ Cause.OutOfMemory) }
{
    let mut key = Key::new(alloc);
    key.push(Value::Int(0))?;
    Ok(Identity { table: 0, key })
}

/// The refusal of a store of another revision, told by its row.
fn other_revision(alloc: Global, id: &RowId) -> Cause
    requires { id.now ≡ number_id 0 }
    ensures { (result ≡ Cause.OutOfMemory) ⊎ spec.IsOtherRevision result }
{
    match encode_key(alloc, &id.key) {
        Ok(bytes) => Cause::Damaged(0, bytes),
        Err(_) => Cause::OutOfMemory,
    }
}

/// Refuses a store that has a row of the revision where the unit's revision has none, or none where
/// it has one.
fn judge_revision(
    alloc: Global,
    metamodel: &Metamodel,
    id: &RowId,
    is_there: bool,
) -> Result<(), Cause>
    requires { id.now ≡ number_id 0 }
    ensures { spec.TellsMark metamodel.now is_there result }
{
    if is_there == (metamodel.unit().revision == 1) {
        return Err(other_revision(alloc, id));
    }
    Ok(())
}

/// Refuses a store of another revision than the unit's, by one look at the row of the revision,
/// which is told as `Damaged`. A unit of revision 2 has that row, which the opening writes that
/// migrates a store, and one of revision 1 has none.
pub(super) fn check_revision<R: RowReader>(
    alloc: Global,
    metamodel: &Metamodel,
    source: &mut R,
) -> Result<(), Cause>
    ensures told { R.clean source.new → (rows : Rows) → R.holds source.old rows →
        spec.TellsRevision metamodel.now rows result }
    ensures looks { LooksOnly R.RowReader result source.old source.new }
    ensures economy { LooksAtOneRow R.RowReader source.old source.new }
{
    let id = match revision_id(alloc) {
        Ok(id) => id,
        Err(cause) => return Err(cause),
    };
    match source.get(&id) {
        Ok(row) => judge_revision(alloc, metamodel, &id, row.is_some()),
        Err(cause) => Err(cause),
    }
}
