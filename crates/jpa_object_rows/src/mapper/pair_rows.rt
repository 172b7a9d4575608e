//! The rows of join tables: a row for each pair that an object owns (chapter 2.10).
ghost use Rattle.std.specs.Prelude.{◌≡◌, ◌<◌, ◌^◌, ◌++◌, map, IfOk, IfErr, OnOk};
ghost use Rattle.std.specs.List.{zip};
ghost use Rattle.jpa_value.specs.declared.refusal.Cause.{Cause};
ghost use Rattle.jpa_object_rows.specs.meaning.Objects as objects;

use jpa_model::{Relation, Side};
use jpa_rows::rows::{Content, Field, Row, RowId};
use jpa_value::{Cause, Identity, Key, Seq, TryCopy, Value};
use std::alloc::Global;

/// The row that has a number in column 0 and no other column.
pub(super) fn number_in_first(alloc: Global, number: u64) -> Result<Row, Cause>
    requires { number < 2 ^ 63 }
    ensures ok { IfOk result (λ row. row ≡ objects.number_in_first number) }
    ensures err { IfErr result (λ cause. cause ≡ Cause.OutOfMemory) }
{
    let mut row = Seq::new(alloc);
    row.push(Field {
        column: 0,
        content: Content::Value(Value::Int(number as i64)),
    })?;
    Ok(row)
}

fn push_parts(key: &mut Key, parts: &[Value]) -> Result<(), Cause>
    ensures ok { OnOk result (key.new ≡ key.old ++ parts.now) }
    ensures err { IfErr result (λ cause. cause ≡ Cause.OutOfMemory) }
{
    for part in parts {
        key.push(part.try_copy()?)?;
    }
    Ok(())
}

/// What names the row of a pair: the owner's key and after it the target's.
fn pair_id(join: u64, owner: &Identity, target: &Identity) -> Result<RowId, Cause>
    ensures ok { IfOk result (λ id. id ≡ objects.pair_id join owner.now target.now) }
    ensures err { IfErr result (λ cause. cause ≡ Cause.OutOfMemory) }
{
    let mut key = owner.key.try_copy()?;
    push_parts(&mut key, target.key.as_slice())?;
    Ok(RowId { table: join, key })
}

fn push_pairs(
    rows: &mut Seq<(RowId, Row)>,
    join: u64,
    owner: &Identity,
    targets: &[Identity],
) -> Result<(), Cause>
    ensures ok { OnOk result (rows.new ≡ rows.old
        ++ objects.as_pairs (map (objects.pair_id join owner.now) targets.now)) }
    ensures err { IfErr result (λ cause. cause ≡ Cause.OutOfMemory) }
{
    for target in targets {
        let row = number_in_first(rows.allocator(), 1)?;
        rows.push((pair_id(join, owner, target)?, row))?;
    }
    Ok(())
}

/// Adds the pairs of an owning side with a join table; the other sides have none.
fn push_side(
    rows: &mut Seq<(RowId, Row)>,
    owner: &Identity,
    side: Side,
    targets: &[Identity],
) -> Result<(), Cause>
    ensures ok { OnOk result (rows.new ≡ rows.old
        ++ objects.as_pairs (objects.side_pairs owner.now side targets.now)) }
    ensures err { IfErr result (λ cause. cause ≡ Cause.OutOfMemory) }
{
    match side {
        Side::ManyToMany(join) => push_pairs(rows, join, owner, targets),
        _ => Ok(()),
    }
}

/// Adds the rows of the pairs that an owner owns along these relations, in their order.
pub(super) fn push_pairs_along(
    rows: &mut Seq<(RowId, Row)>,
    owner: &Identity,
    relations: &[Relation],
    owned: &[Seq<Identity>],
) -> Result<(), Cause>
    ensures ok { OnOk result (rows.new ≡ rows.old
        ++ objects.as_pairs (objects.pairs_along owner.now (zip relations.now owned.now))) }
    ensures err { IfErr result (λ cause. cause ≡ Cause.OutOfMemory) }
{
    for (relation, targets) in relations.iter().zip(owned.iter()) {
        push_side(rows, owner, relation.side, targets.as_slice())?;
    }
    Ok(())
}
