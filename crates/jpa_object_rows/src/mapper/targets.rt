//! The targets of an owner's pairs, found among rows in rising order.
ghost use Rattle.std.specs.Prelude.{◌≡◌, ◌<◌, ◌≤◌, length, IsTrue, is_some, IfOk, IfErr};
ghost use Rattle.std.specs.Ordering.{is_lt};
ghost use Rattle.jpa_value.specs.declared.refusal.Cause.{Cause};
ghost use Rattle.jpa_value.specs.Value.{identity_cmp};
ghost use Rattle.jpa_rows.specs.rows.Rows.{AreRising};
ghost use Rattle.jpa_object_rows.specs.meaning.Sets.{key_after, identity_of, targets_in};
ghost use Rattle.jpa_object_rows.specs.mapper.Pairs.{pair_target};

use jpa_model::Metamodel;
use jpa_rows::rows::{Row, RowId};
use jpa_value::{Cause, Identity, Key, Seq, Value, order_keys, order_values};
use std::alloc::Global;
use std::cmp::Ordering;

/// The targets of an owner's pairs in the join table of a relation to a class, among rows in rising
/// order, which may be those of other owners and other tables too.
///
/// With n rows and k targets it takes O(log n + k) comparisons. `OutOfMemory` where a growth was
/// refused.
pub(super) fn targets(
    alloc: Global,
    metamodel: &Metamodel,
    rows: &[(RowId, Row)],
    owner: &Identity,
    join: u64,
    target: usize,
) -> Result<Seq<Identity>, Cause>
    requires target { target < length metamodel.now.entities }
    requires rising { AreRising rows.now }
    ensures ok { IfOk result (λ ids. ids ≡ targets_in metamodel.now rows.now owner.now join
        target) }
    ensures err { IfErr result (λ cause. cause ≡ Cause.OutOfMemory) }
{
    let table = metamodel.root_of(target).table;
    let key = owner.key.as_slice();
    let first = rows.partition_point(|row| is_before(&row.0, join, key));
    let mut found = Seq::new(alloc);
    for row in &rows[first..] {
        match pair_target(alloc, &row.0, key, join, table)? {
            Some(id) => found.push(id)?,
            None => break,
        }
    }
    Ok(found)
}

/// Whether an id comes before all those of a table whose keys begin with this one.
fn is_before(id: &RowId, table: u64, key: &[Value]) -> bool
    ensures { result ≡ is_lt (identity_cmp id.now (identity_of table key.now)) }
{
    let order = match id.table.cmp(&table) {
        Ordering::Equal => order_keys(id.key.as_slice(), key),
        other => other,
    };
    matches!(order, Ordering::Less)
}

/// The target of the pair that a row is, if it is one of this owner's in the join table: its key is
/// the owner's and after it the target's, which stands in a table of its own.
fn pair_target(
    alloc: Global,
    id: &RowId,
    owner: &[Value],
    join: u64,
    table: u64,
) -> Result<Option<Identity>, Cause>
    ensures ok { IfOk result (λ found. found ≡ pair_target join table owner.now id.now) }
    ensures err { IfErr result (λ cause. cause ≡ Cause.OutOfMemory) }
{
    let parts = id.key.as_slice();
    if id.table != join || !begins_with(parts, owner) {
        return Ok(None);
    }
    let key = Key::of(alloc, &parts[owner.len()..])?;
    Ok(Some(Identity { table, key }))
}

/// Whether the first parts of a key are those of another one.
pub(super) fn begins_with(key: &[Value], front: &[Value]) -> bool
    ensures after { result ≡ is_some (key_after front.now key.now) }
    ensures long { IsTrue result → length front.now ≤ length key.now }
{
    for (i, part) in front.iter().enumerate() {
        if i >= key.len() {
            return false;
        }
        if order_values(part, &key[i]) != Ordering::Equal {
            return false;
        }
    }
    true
}
