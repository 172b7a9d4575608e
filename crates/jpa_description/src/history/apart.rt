//! Whether the columns of each hierarchy are apart, those that it had among them.
ghost use Rattle.std.specs.Prelude.{◌≡◌, ◌<◌, ◌++◌, All, length, map, OnOk, IfOk, IfErr};
ghost use Rattle.std.specs.List.{list_all, flat_map};
ghost use Rattle.jpa_model.specs.Chains.{column_of, entity_at};
ghost use Rattle.jpa_model.specs.Drafted.{listed};
ghost use Rattle.jpa_description.specs.history.Condition as condition;
ghost use Rattle.jpa_value.specs.declared.refusal.Cause.{Cause};

use crate::history::history::{Change, ClassHistory, History};
use jpa_model::{Attribute, Entity, Metamodel, Origin, Relation};
use jpa_value::{Cause, Seq};
use std::alloc::Global;
use std::collections::BTreeSet;

fn push_attribute_columns(columns: &mut Vec<u64>, attributes: &[Attribute]) -> Result<(), Cause>
    ensures added { OnOk result (columns.new.items ≡ columns.old.items
        ++ map (λ a. a.column) attributes.now) }
    ensures err { IfErr result (λ cause. cause ≡ Cause.OutOfMemory) }
{
    for attribute in attributes {
        columns.push(attribute.column)?;
    }
    Ok(())
}

fn push_relation_columns(columns: &mut Vec<u64>, relations: &[Relation]) -> Result<(), Cause>
    ensures added { OnOk result (columns.new.items ≡ columns.old.items
        ++ flat_map (λ r. listed (λ c. c.column) (column_of r.side)) relations.now) }
    ensures err { IfErr result (λ cause. cause ≡ Cause.OutOfMemory) }
{
    for relation in relations {
        if let Some(column) = relation.side.column() {
            columns.push(column.column)?;
        }
    }
    Ok(())
}

fn push_columns(columns: &mut Vec<u64>, metamodel: &Metamodel, class: usize) -> Result<(), Cause>
    requires { class < length metamodel.now.entities }
    ensures added { OnOk result (columns.new.items ≡ columns.old.items
        ++ condition.columns metamodel.now class) }
    ensures err { IfErr result (λ cause. cause ≡ Cause.OutOfMemory) }
{
    let entity = metamodel.entity(class);
    if let Origin::Root(root) = &entity.origin {
        if let Some(version) = &root.version {
            columns.push(version.column)?;
        }
    }
    push_attribute_columns(columns, entity.attributes.as_slice())?;
    push_relation_columns(columns, entity.relations.as_slice())
}

fn push_moved(columns: &mut Vec<u64>, changes: &[Change]) -> Result<(), Cause>
    ensures added { OnOk result (columns.new.items ≡ columns.old.items
        ++ flat_map condition.moved_from changes.now) }
    ensures err { IfErr result (λ cause. cause ≡ Cause.OutOfMemory) }
{
    for change in changes {
        if let Change::Moved(column) = change {
            columns.push(*column)?;
        }
    }
    Ok(())
}

fn push_dropped(columns: &mut Vec<u64>, dropped: &[u64]) -> Result<(), Cause>
    ensures added { OnOk result (columns.new.items ≡ columns.old.items ++ dropped.now) }
    ensures err { IfErr result (λ cause. cause ≡ Cause.OutOfMemory) }
{
    for column in dropped {
        columns.push(*column)?;
    }
    Ok(())
}

fn push_old_columns(columns: &mut Vec<u64>, history: &History, class: usize) -> Result<(), Cause>
    ensures added { OnOk result (columns.new.items ≡ columns.old.items
        ++ condition.old_columns history.now class) }
    ensures err { IfErr result (λ cause. cause ≡ Cause.OutOfMemory) }
{
    match history.classes.as_slice().get(class) {
        None => Ok(()),
        Some(history) => {
            push_moved(columns, history.changes.as_slice())?;
            push_dropped(columns, history.dropped.as_slice())
        }
    }
}

fn columns_of(
    alloc: Global,
    metamodel: &Metamodel,
    history: &History,
    places: &[usize],
) -> Result<Vec<u64>, Cause>
    requires { All (λ class. class < length metamodel.now.entities) places.now }
    ensures found { IfOk result (λ columns. columns.items
        ≡ flat_map (condition.columns metamodel.now) places.now
        ++ flat_map (condition.old_columns history.now) places.now) }
    ensures err { IfErr result (λ cause. cause ≡ Cause.OutOfMemory) }
{
    let mut columns = Vec::new(alloc);
    for class in places {
        push_columns(&mut columns, metamodel, *class)?;
    }
    for class in places {
        push_old_columns(&mut columns, history, *class)?;
    }
    Ok(columns)
}

fn hierarchy_of(alloc: Global, metamodel: &Metamodel, root: usize) -> Result<Seq<usize>, Cause>
    ensures found { IfOk result (λ places. places ≡ condition.hierarchy metamodel.now root) }
    ensures within { IfOk result (λ places.
        All (λ class. class < length metamodel.now.entities) places) }
    ensures err { IfErr result (λ cause. cause ≡ Cause.OutOfMemory) }
{
    let mut places = Seq::new(alloc);
    for class in 0..metamodel.entities().len() {
        if metamodel.root_class(class) == root {
            places.push(class)?;
        }
    }
    Ok(places)
}

fn are_distinct(alloc: Global, numbers: &[u64]) -> Result<bool, Cause>
    ensures judged { IfOk result (λ b. b ≡ condition.are_distinct numbers.now) }
    ensures err { IfErr result (λ cause. cause ≡ Cause.OutOfMemory) }
{
    let mut seen = BTreeSet::new(alloc);
    for number in numbers {
        if !seen.insert(*number)? {
            return Ok(false);
        }
    }
    Ok(true)
}

fn is_apart(
    alloc: Global,
    metamodel: &Metamodel,
    history: &History,
    places: &[usize],
) -> Result<bool, Cause>
    requires { All (λ class. class < length metamodel.now.entities) places.now }
    ensures judged { IfOk result (λ b. b
        ≡ condition.is_apart metamodel.now history.now places.now) }
    ensures err { IfErr result (λ cause. cause ≡ Cause.OutOfMemory) }
{
    let columns = columns_of(alloc, metamodel, history, places)?;
    are_distinct(alloc, columns.as_slice())
}

#[tactic(auto, using(jpa_model::proofs::Chained::range_next))]
/// Whether in each hierarchy the columns that it has and those that it had are distinct.
pub(super) fn are_apart(
    alloc: Global,
    metamodel: &Metamodel,
    history: &History,
) -> Result<bool, Cause>
    ensures judged { IfOk result (λ b. b ≡ condition.are_apart metamodel.now history.now) }
    ensures err { IfErr result (λ cause. cause ≡ Cause.OutOfMemory) }
{
    for root in 0..metamodel.entities().len() {
        let places = hierarchy_of(alloc, metamodel, root)?;
        if !is_apart(alloc, metamodel, history, places.as_slice())? {
            return Ok(false);
        }
    }
    Ok(true)
}
