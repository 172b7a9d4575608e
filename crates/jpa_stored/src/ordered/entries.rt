//! What an index of values has of an object.
ghost use Rattle.std.specs.Prelude.{◌≡◌, OnOk, IfErr, All};
ghost use Rattle.jpa_value.specs.declared.refusal.Cause.{Cause};
ghost use Rattle.jpa_stored.specs.ordered.Values.{IsIn, KeepsAll, HasEntry, valued, at_object as place_of};

use crate::objects::Stored;
use crate::ordered::column::Column;
use crate::ordered::cut::at_object;
use crate::ordered::valued::{Valued, placed};
use jpa_model::Member;
use jpa_value::{Cause, Identity};
use std::collections::BTreeSet;

/// An entry of this number for an object, by a member.
fn add_entry(
    entries: &mut BTreeSet<Valued>,
    number: u16,
    member: Member,
    entry: &(Identity, Stored),
) -> Result<(), Cause>
    ensures kept { KeepsAll entries.old.keys entries.new.keys }
    ensures added { OnOk result
        (IsIn entries.new.keys (valued number (place_of member entry.now))) }
    ensures err { IfErr result (λ cause. cause ≡ Cause.OutOfMemory) }
{
    let at = at_object(member, entry)?;
    entries.insert(placed(number, at))?;
    Ok(())
}

/// An entry of a column for an object, if it is of the column's class.
fn add_for(
    entries: &mut BTreeSet<Valued>,
    column: Column,
    entry: &(Identity, Stored),
) -> Result<(), Cause>
    ensures kept { KeepsAll entries.old.keys entries.new.keys }
    ensures added { OnOk result (HasEntry entries.new.keys entry.now.0 entry.now.1 column) }
    ensures err { IfErr result (λ cause. cause ≡ Cause.OutOfMemory) }
{
    if column.class != entry.1.class {
        return Ok(());
    }
    add_entry(entries, column.number, column.member, entry)
}

/// An entry of each of these columns for an object that is of the column's class.
pub(super) fn add_each(
    entries: &mut BTreeSet<Valued>,
    columns: &[Column],
    entry: &(Identity, Stored),
) -> Result<(), Cause>
    ensures kept { KeepsAll entries.old.keys entries.new.keys }
    ensures added { OnOk result
        (All (HasEntry entries.new.keys entry.now.0 entry.now.1) columns.now) }
    ensures err { IfErr result (λ cause. cause ≡ Cause.OutOfMemory) }
{
    for column in columns {
        add_for(entries, *column, entry)?;
    }
    Ok(())
}

/// One entry more behind those of a list.
fn list_entry(entries: &mut Vec<Valued>, entry: Valued) -> Result<(), Cause>
    ensures kept { KeepsAll entries.old.items entries.new.items }
    ensures added { OnOk result (IsIn entries.new.items entry) }
    ensures err { IfErr result (λ cause. cause ≡ Cause.OutOfMemory) }
{
    entries.push(entry)?;
    Ok(())
}

/// An entry of a column for an object, if it is of the column's class, behind those of a list.
fn list_for(
    entries: &mut Vec<Valued>,
    column: Column,
    entry: &(Identity, Stored),
) -> Result<(), Cause>
    ensures kept { KeepsAll entries.old.items entries.new.items }
    ensures added { OnOk result (HasEntry entries.new.items entry.now.0 entry.now.1 column) }
    ensures err { IfErr result (λ cause. cause ≡ Cause.OutOfMemory) }
{
    if column.class != entry.1.class {
        return Ok(());
    }
    let at = at_object(column.member, entry)?;
    list_entry(entries, placed(column.number, at))
}

/// Puts an entry of each of these columns for an object that is of the column's class behind those
/// of a list, of which an index is to be made. `OutOfMemory` is the only refusal.
pub fn list_each(
    entries: &mut Vec<Valued>,
    columns: &[Column],
    entry: &(Identity, Stored),
) -> Result<(), Cause>
    ensures kept { KeepsAll entries.old.items entries.new.items }
    ensures added { OnOk result
        (All (HasEntry entries.new.items entry.now.0 entry.now.1) columns.now) }
    ensures err { IfErr result (λ cause. cause ≡ Cause.OutOfMemory) }
{
    for column in columns {
        list_for(entries, *column, entry)?;
    }
    Ok(())
}
