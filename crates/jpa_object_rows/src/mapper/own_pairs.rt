//! The rows of an owner's pairs: which of the rows of join tables they are, and whether each is one
//! that a pair has.
ghost use Rattle.std.specs.Prelude.{◌≡◌, ◌<◌, ◌⊎◌, ◌==◌, ◌↔◌, pos, length, is_some, IsTrue, IfErr, OnOk};
ghost use Rattle.std.specs.List.{list_any};
ghost use Rattle.jpa_value.specs.declared.value.Value.{Value};
ghost use Rattle.jpa_value.specs.declared.refusal.Cause.{Cause};
ghost use Rattle.jpa_rows.specs.keys.Keys.{key_bytes};
ghost use Rattle.jpa_rows.specs.declared.rows.row.Content.{Content};
ghost use Rattle.jpa_rows.specs.rows.Cells.{join_tables};
ghost use Rattle.jpa_object_rows.specs.meaning.Objects.{pair_row};
ghost use Rattle.jpa_object_rows.specs.mapper.Own as spec;

use crate::mapper::targets::begins_with;
use jpa_model::{Metamodel, Side};
use jpa_rows::keys::encode_key;
use jpa_rows::rows::{Content, Row, RowId};
use jpa_value::{Cause, Identity, Value};
use std::alloc::Global;

pub fn is_kept_in(side: Side, table: u64) -> bool
    ensures { result ≡ list_any (λ t. t == table) (join_tables side) }
{
    match side {
        Side::ManyToMany(join) => join == table,
        _ => false,
    }
}

/// Whether objects of a class keep pairs in this table.
fn keeps_pairs_in(metamodel: &Metamodel, class: usize, table: u64) -> bool
    requires { class < length metamodel.now.entities }
    ensures { result ≡ spec.keeps_pairs_in metamodel.now class table }
{
    metamodel
        .relations_of(class)
        .iter()
        .any(|relation| is_kept_in(relation.side, table))
}

/// Whether an id is that of a pair of this owner, an object of the class.
fn is_own_pair(metamodel: &Metamodel, class: usize, owner: &Identity, id: &RowId) -> bool
    requires { class < length metamodel.now.entities }
    ensures { result ≡ spec.is_own_pair metamodel.now class owner.now id.now }
{
    keeps_pairs_in(metamodel, class, id.table)
        && begins_with(id.key.as_slice(), owner.key.as_slice())
}

fn is_one(found: &Content) -> bool
    ensures { IsTrue result ↔ (found.now ≡ Content.Value (Value.Int (pos 1))) }
{
    match found {
        Content::Value(Value::Int(number)) => *number == 1,
        _ => false,
    }
}

/// Whether a row is the one that each pair has.
fn is_pair_row(row: &Row) -> bool
    ensures { IsTrue result ↔ (row.now ≡ pair_row) }
{
    match row.as_slice() {
        [field] => field.column == 0 && is_one(&field.content),
        _ => false,
    }
}

/// The refusal that tells of a row, or `OutOfMemory`.
pub fn damaged(alloc: Global, id: &RowId) -> Cause
    ensures { (result ≡ Cause.OutOfMemory) ⊎ (result
        ≡ Cause.Damaged id.now.table (key_bytes id.now.key)) }
{
    match encode_key(alloc, &id.key) {
        Ok(bytes) => Cause::Damaged(id.table, bytes),
        Err(_) => Cause::OutOfMemory,
    }
}

/// Refuses rows where one of this owner's pairs, an object of the class, has another row than a
/// pair has: with `Damaged` and the place of the lowest such row, or with `OutOfMemory`. It tests
/// each row once.
pub(super) fn judge_own_pairs(
    alloc: Global,
    metamodel: &Metamodel,
    class: usize,
    owner: &Identity,
    rows: &[(RowId, Row)],
) -> Result<(), Cause>
    requires { class < length metamodel.now.entities }
    ensures ok { OnOk result (spec.OwnAreOnes metamodel.now class owner.now rows.now) }
    ensures err { IfErr result (λ cause. (cause ≡ Cause.OutOfMemory)
        ⊎ spec.IsDamagedPair metamodel.now class owner.now rows.now cause) }
{
    for row in rows {
        if is_own_pair(metamodel, class, owner, &row.0) && !is_pair_row(&row.1) {
            return Err(damaged(alloc, &row.0));
        }
    }
    Ok(())
}
