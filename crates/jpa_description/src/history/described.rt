//! The history that a description gives.
ghost use Rattle.std.specs.Prelude.{◌≡◌, map, unsigned_abs, IfOk, IfErr};
ghost use Rattle.jpa_description.specs.history.Condition as condition;
ghost use Rattle.jpa_value.specs.declared.refusal.Cause.{Cause};

use crate::history::draft::{DraftChange, DraftClassHistory, DraftHistory};
use crate::history::history::{Change, ClassHistory, History};
use jpa_value::{Cause, Seq, TryCopy, Value};
use std::alloc::Global;

fn copy_default(default: &Option<Value>) -> Result<Option<Value>, Cause>
    ensures equal { IfOk result (λ copy. copy ≡ default.now) }
    ensures err { IfErr result (λ cause. cause ≡ Cause.OutOfMemory) }
{
    match default {
        None => Ok(None),
        Some(value) => Ok(Some(value.try_copy()?)),
    }
}

fn change_of(change: &DraftChange) -> Result<Change, Cause>
    ensures found { IfOk result (λ made. made ≡ condition.change_of change.now) }
    ensures err { IfErr result (λ cause. cause ≡ Cause.OutOfMemory) }
{
    match (change.was, change.since) {
        (Some(column), _) => Ok(Change::Moved(column.unsigned_abs())),
        (None, Some(_)) => Ok(Change::New(copy_default(&change.default)?)),
        (None, None) => Ok(Change::Kept),
    }
}

fn changes_of(alloc: Global, changes: &[DraftChange]) -> Result<Seq<Change>, Cause>
    ensures found { IfOk result (λ made. made ≡ map condition.change_of changes.now) }
    ensures err { IfErr result (λ cause. cause ≡ Cause.OutOfMemory) }
{
    let mut made = Seq::new(alloc);
    for change in changes {
        made.push(change_of(change)?)?;
    }
    Ok(made)
}

fn columns_of(alloc: Global, columns: &[i64]) -> Result<Seq<u64>, Cause>
    ensures found { IfOk result (λ made. made ≡ map unsigned_abs columns.now) }
    ensures err { IfErr result (λ cause. cause ≡ Cause.OutOfMemory) }
{
    let mut made = Seq::new(alloc);
    for column in columns {
        made.push(column.unsigned_abs())?;
    }
    Ok(made)
}

/// The columns that are listed, none where no list is there.
pub(super) fn listed(columns: &Option<Seq<i64>>) -> &[i64]
    ensures { result.now ≡ condition.some_list columns.now }
{
    match columns {
        None => &[],
        Some(columns) => columns.as_slice(),
    }
}

fn class_history_of(alloc: Global, class: &DraftClassHistory) -> Result<ClassHistory, Cause>
    ensures found { IfOk result (λ made. made ≡ condition.class_history_of class.now) }
    ensures err { IfErr result (λ cause. cause ≡ Cause.OutOfMemory) }
{
    Ok(ClassHistory {
        dropped: columns_of(alloc, listed(&class.dropped))?,
        changes: changes_of(alloc, class.changes.as_slice())?,
    })
}

/// The history that a description gives, each number by its size alone.
pub(super) fn history_of(alloc: Global, draft: &DraftHistory) -> Result<History, Cause>
    ensures found { IfOk result (λ made. made ≡ condition.history_of draft.now) }
    ensures err { IfErr result (λ cause. cause ≡ Cause.OutOfMemory) }
{
    let mut classes = Seq::new(alloc);
    for class in draft.classes.as_slice() {
        classes.push(class_history_of(alloc, class)?)?;
    }
    Ok(History { classes })
}
