//! The next numbers that rows say, and whether they say the revision.
ghost use Rattle.std.specs.Prelude.{◌≡◌, ◌<◌, ◌^◌, Some, IfOk, IfErr};
ghost use Rattle.std.specs.FinMap.{find};
ghost use Rattle.jpa_opening.specs.reader.Numbers.{zero_column};
ghost use Rattle.jpa_opening.specs.reader.Together as together;
ghost use Rattle.std.specs.Option.{option_copied};
ghost use Rattle.jpa_value.specs.Value.{identity_cmp};
ghost use Rattle.jpa_value.specs.declared.refusal.Cause.{Cause};
ghost use Rattle.jpa_rows.specs.rows.Numbers.{IsNarrowOrigin};
ghost use Rattle.jpa_rows.specs.rows.Rows.{AreRising};
ghost use Rattle.jpa_object_rows.specs.meaning.Objects as objects;
ghost use Rattle.jpa_object_rows.specs.meaning.Sets as sets;

use crate::reader::numbers::natural_in;
use jpa_model::{Metamodel, Origin};
use jpa_rows::rows::{Field, Row, RowId, origin_of};
use jpa_value::{Cause, Identity, Key, Seq, Value, order_identities};
use std::alloc::Global;
use std::cmp::Ordering;

/// The order of a row's id and another.
fn order_entry(entry: &(RowId, Row), id: &RowId) -> Ordering
    ensures { result ≡ identity_cmp entry.now.0 id.now }
{
    order_identities(&entry.0, id)
}

/// The row under an id, if one stands there.
fn find_row<'a>(rows: &'a [(RowId, Row)], id: &RowId) -> Option<&'a Row>
    requires { AreRising rows.now }
    ensures { option_copied result ≡ find identity_cmp id.now rows.now }
{
    match rows.binary_search_by(|entry| order_entry(entry, id)) {
        Ok(at) => Some(&rows[at].1),
        Err(_) => None,
    }
}

/// The column 0 of a row.
fn first_column(row: &[Field]) -> Option<&Field>
    ensures { option_copied result ≡ zero_column row.now }
{
    row.iter().find(|field| field.column == 0)
}

/// The next number that a row of table 0 says, 1 where it says none.
fn number_in(row: &Row) -> u64
    ensures { result ≡ sets.number_in (Some row.now) }
{
    match first_column(row.as_slice()) {
        Some(field) => natural_in(&field.content).unwrap_or(1),
        None => 1,
    }
}

/// The id of the row of a hierarchy's next number.
fn number_id(alloc: Global, table: u64) -> Result<RowId, Cause>
    requires { table < 2 ^ 32 }
    ensures ok { IfOk result (λ id. id ≡ objects.number_id table) }
    ensures err { IfErr result (λ cause. cause ≡ Cause.OutOfMemory) }
{
    let mut key = Key::new(alloc);
    key.push(Value::Int(table as i64))?;
    Ok(Identity { table: 0, key })
}

/// The next number that rows say of a hierarchy.
fn number_of(alloc: Global, rows: &[(RowId, Row)], table: u64) -> Result<u64, Cause>
    requires rising { AreRising rows.now }
    requires table { table < 2 ^ 32 }
    ensures ok { IfOk result (λ next. next ≡ sets.number_in
        (find identity_cmp (objects.number_id table) rows.now)) }
    ensures err { IfErr result (λ cause. cause ≡ Cause.OutOfMemory) }
{
    let id = number_id(alloc, table)?;
    match find_row(rows, &id) {
        Some(row) => Ok(number_in(row)),
        None => Ok(1),
    }
}

/// The next number of a class: 1 where it is no root with generated keys.
fn next_of(alloc: Global, rows: &[(RowId, Row)], origin: &Origin) -> Result<u64, Cause>
    requires rising { AreRising rows.now }
    requires narrow { IsNarrowOrigin origin.now }
    ensures ok { IfOk result (λ next. next ≡ sets.next_at rows.now origin.now) }
    ensures err { IfErr result (λ cause. cause ≡ Cause.OutOfMemory) }
{
    match origin {
        Origin::Root(root) if root.generated => number_of(alloc, rows, root.table),
        _ => Ok(1),
    }
}

/// The next number that rows say of each class.
pub(super) fn next_numbers(
    alloc: Global,
    metamodel: &Metamodel,
    rows: &[(RowId, Row)],
) -> Result<Seq<u64>, Cause>
    requires { AreRising rows.now }
    ensures ok { IfOk result (λ numbers. numbers ≡ sets.numbers_in metamodel.now rows.now) }
    ensures err { IfErr result (λ cause. cause ≡ Cause.OutOfMemory) }
{
    let mut numbers = Seq::new(alloc);
    for class in 0..metamodel.entities().len() {
        numbers.push(next_of(alloc, rows, origin_of(metamodel, class))?)?;
    }
    Ok(numbers)
}

/// Whether the row of the unit's revision is among the rows, where the revision has one.
pub(super) fn is_marked(
    alloc: Global,
    metamodel: &Metamodel,
    rows: &[(RowId, Row)],
) -> Result<bool, Cause>
    requires { AreRising rows.now }
    ensures ok { IfOk result (λ marked. marked ≡ together.is_marked metamodel.now rows.now) }
    ensures err { IfErr result (λ cause. cause ≡ Cause.OutOfMemory) }
{
    if metamodel.unit().revision == 1 {
        return Ok(true);
    }
    let id = number_id(alloc, 0)?;
    Ok(find_row(rows, &id).is_some())
}
