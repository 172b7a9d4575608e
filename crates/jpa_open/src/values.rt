//! What an index of values has of the objects of a set.
ghost use Rattle.std.specs.Prelude.{◌≡◌, ◌<◌, length, OnOk, IfErr, IfOk};
ghost use Rattle.jpa_value.specs.declared.refusal.Cause.{Cause};
ghost use Rattle.jpa_stored.specs.ordered.Values.{HaveColumns};
ghost use Rattle.jpa_open.specs.Holding.{HaveEntries, KeepsEntries};

use crate::index::most_references;
use crate::shared::Shared;
use jpa_model::Metamodel;
use jpa_stored::objects::Stored;
use jpa_stored::ordered::{Column, Valued, Values, list_each};
use jpa_value::{Cause, Identity};
use std::alloc::Global;

/// The entries of these objects, one for each column of its class.
pub(crate) fn add_values(
    values: &mut Values,
    objects: &[Shared<(Identity, Stored)>],
) -> Result<(), Cause>
    ensures columns { values.new.columns ≡ values.old.columns }
    ensures kept { KeepsEntries values.old values.new }
    ensures all { OnOk result (HaveEntries objects.now values.new) }
    ensures err { IfErr result (λ cause. cause ≡ Cause.OutOfMemory) }
{
    for object in objects {
        values.add(object.get())?;
    }
    Ok(())
}

/// These columns and, behind them, one of this number and member for each class that is this
/// column's or below it.
pub(crate) fn columns_with(
    alloc: Global,
    metamodel: &Metamodel,
    columns: &[Column],
    column: Column,
) -> Result<Vec<Column>, Cause>
    requires { column.class < length metamodel.now.entities }
    ensures columns { IfOk result (λ all. HaveColumns metamodel.now all.items column.class
        column.member column.number) }
    ensures err { IfErr result (λ cause. cause ≡ Cause.OutOfMemory) }
{
    let mut all = Vec::from_slice(alloc, columns)?;
    for class in 0..metamodel.entities().len() {
        if metamodel.is_kind_of(class, column.class) {
            all.push(Column { class, ..column })?;
        }
    }
    Ok(all)
}

/// The entries of these objects, one for each of these columns that is of its class.
fn entries_of(
    alloc: Global,
    columns: &[Column],
    objects: &[Shared<(Identity, Stored)>],
) -> Result<Vec<Valued>, Cause>
    ensures all { IfOk result (λ entries. HaveEntries objects.now
        (record { columns = columns.now; entries = entries.items })) }
    ensures err { IfErr result (λ cause. cause ≡ Cause.OutOfMemory) }
{
    let mut entries = Vec::new(alloc);
    for object in objects {
        list_each(&mut entries, columns, object.get())?;
    }
    Ok(entries)
}

/// An index of these columns alone, with the entries of these objects.
pub(crate) fn values_of(
    columns: Vec<Column>,
    objects: &[Shared<(Identity, Stored)>],
) -> Result<Values, Cause>
    ensures columns { IfOk result (λ values. values.columns ≡ columns.items) }
    ensures all { IfOk result (λ values. HaveEntries objects.now values) }
    ensures err { IfErr result (λ cause. cause ≡ Cause.OutOfMemory) }
{
    let entries = entries_of(*columns.allocator(), columns.as_slice(), objects)?;
    let mut values = Values::made(columns, entries)?;
    let most = most_references(values.len(), objects.len());
    values.allow(most);
    Ok(values)
}

/// A number that none of these columns has, as long as one is left. Where columns share one, who
/// asks by it looks at the entries of both.
pub(crate) fn next_number(columns: &[Column]) -> u16 {
    let mut next: u16 = 0;
    for column in columns {
        next = next.max(column.number.saturating_add(1));
    }
    next
}
