//! Rows of their own, which outlive the set that a statement ran over.
ghost use Rattle.std.specs.Prelude.{◌≡◌, IfOk, IfErr, map};
ghost use Rattle.jpa_value.specs.declared.refusal.Cause.{Cause};
ghost use Rattle.jpql_meaning.specs.eval.Seen.{seen};
ghost use Rattle.jpql_select.specs.select.Tables.{rows_in};

use crate::select::table::Table;
use jpa_value::{Cause, Seq, TryCopy, Value};
use jpql_meaning::eval::{Datum, Seen};
use std::alloc::Global;

/// A datum of its own. Fails for want of memory alone, with `OutOfMemory`.
fn datum_of(item: &Seen<'_>) -> Result<Datum, Cause>
    ensures ok { IfOk result (λ datum. datum ≡ seen item.now) }
    ensures err { IfErr result (λ cause. cause ≡ Cause.OutOfMemory) }
{
    Ok(match item {
        Seen::Null => Datum::Plain(Value::Null),
        Seen::Int(number) => Datum::Plain(Value::Int(*number)),
        Seen::Text(text) => Datum::Plain(Value::Text(text.try_copy()?)),
        Seen::Bytes(bytes) => Datum::Plain(Value::Bytes(bytes.try_copy()?)),
        Seen::Entity(id) => Datum::Entity(id.try_copy()?),
        Seen::Made(text) => Datum::Plain(Value::Text(text.try_copy()?)),
    })
}

/// A row of its own. The borrowed one is let go, so that the next finds its memory. Fails for want
/// of memory alone, with `OutOfMemory`.
fn row_of(alloc: Global, items: Vec<Seen<'_>>) -> Result<Seq<Datum>, Cause>
    ensures ok { IfOk result (λ row. row ≡ map seen items.entry.items) }
    ensures err { IfErr result (λ cause. cause ≡ Cause.OutOfMemory) }
{
    let mut row = Vec::with_capacity(alloc, items.len())?;
    for item in &items {
        row.push(datum_of(item)?)?;
    }
    Ok(Seq::of(row))
}

/// Rows of their own. Each borrowed row is let go once its own is made. Fails for want of memory
/// alone, with `OutOfMemory`.
pub fn rows_of(alloc: Global, table: Table<'_>) -> Result<Seq<Seq<Datum>>, Cause>
    ensures ok { IfOk result (λ rows. rows ≡ rows_in table.entry) }
    ensures err { IfErr result (λ cause. cause ≡ Cause.OutOfMemory) }
{
    let mut rows = Vec::with_capacity(alloc, table.len())?;
    for row in table {
        rows.push(row_of(alloc, row)?)?;
    }
    Ok(Seq::of(rows))
}
