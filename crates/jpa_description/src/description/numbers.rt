//! The numbers of tables and columns.
ghost use Rattle.std.specs.Prelude.{◌≡◌, ◌++◌, map, OnOk, IfOk, IfErr};
ghost use Rattle.std.specs.List.{list_any, list_all, flat_map};
ghost use Rattle.std.specs.Ordering.{int_eq};
ghost use Rattle.jpa_model.specs.Drafted as drafted;
ghost use Rattle.jpa_model.specs.WellFormed as well;
ghost use Rattle.jpa_value.specs.declared.refusal.Cause.{Cause};

use jpa_model::{Draft, DraftAttribute, DraftEntity, DraftOrigin, DraftRelation, DraftSide};
use jpa_value::Cause;
use std::alloc::Global;

fn is_number(number: i64) -> bool
    ensures { result ≡ well.is_number number }
{
    1 <= number && number <= 1_000_000
}

fn all_are_numbers(numbers: &[i64]) -> bool
    ensures { result ≡ list_all well.is_number numbers.now }
{
    numbers.iter().all(|number| is_number(*number))
}

fn has_number(numbers: &[i64], number: i64) -> bool
    ensures { result ≡ list_any (int_eq number) numbers.now }
{
    numbers.iter().any(|other| number == *other)
}

fn are_distinct_numbers(numbers: &[i64]) -> bool
    ensures { result ≡ well.are_distinct_numbers numbers.now }
{
    for (i, number) in numbers.iter().enumerate() {
        if has_number(&numbers[i + 1..], *number) {
            return false;
        }
    }
    true
}

/// Whether each number lies from 1 to 1,000,000, and none stands twice.
pub(super) fn are_numbers(numbers: &[i64]) -> bool
    ensures { result ≡ well.are_numbers numbers.now }
{
    all_are_numbers(numbers) && are_distinct_numbers(numbers)
}

fn push_attribute_columns(
    columns: &mut Vec<i64>,
    attributes: &[DraftAttribute],
) -> Result<(), Cause>
    ensures added { OnOk result (columns.new.items ≡ columns.old.items
        ++ map (λ a. a.column) attributes.now) }
    ensures err { IfErr result (λ cause. cause ≡ Cause.OutOfMemory) }
{
    for attribute in attributes {
        columns.push(attribute.column)?;
    }
    Ok(())
}

fn push_relation_columns(columns: &mut Vec<i64>, relations: &[DraftRelation]) -> Result<(), Cause>
    ensures added { OnOk result (columns.new.items ≡ columns.old.items
        ++ flat_map (λ r. drafted.side_columns r.side) relations.now) }
    ensures err { IfErr result (λ cause. cause ≡ Cause.OutOfMemory) }
{
    for relation in relations {
        if let DraftSide::Column(side) = &relation.side {
            columns.push(side.column)?;
        }
    }
    Ok(())
}

fn push_columns(columns: &mut Vec<i64>, entity: &DraftEntity) -> Result<(), Cause>
    ensures added { OnOk result (columns.new.items ≡ columns.old.items
        ++ drafted.columns entity.now) }
    ensures err { IfErr result (λ cause. cause ≡ Cause.OutOfMemory) }
{
    if let DraftOrigin::Root(root) = &entity.origin {
        if let Some(version) = &root.version {
            columns.push(version.column)?;
        }
    }
    push_attribute_columns(columns, entity.attributes.as_slice())?;
    push_relation_columns(columns, entity.relations.as_slice())
}

/// The columns that the classes of these places declare.
pub(super) fn columns_of(alloc: Global, draft: &Draft, places: &[usize]) -> Result<Vec<i64>, Cause>
    ensures found { IfOk result (λ columns. columns.items
        ≡ drafted.declared_by drafted.columns draft.now places.now) }
    ensures err { IfErr result (λ cause. cause ≡ Cause.OutOfMemory) }
{
    let mut columns = Vec::new(alloc);
    for class in places {
        if let Some(entity) = draft.entities.as_slice().get(*class) {
            push_columns(&mut columns, entity)?;
        }
    }
    Ok(columns)
}

fn push_join_tables(tables: &mut Vec<i64>, relations: &[DraftRelation]) -> Result<(), Cause>
    ensures added { OnOk result (tables.new.items ≡ tables.old.items
        ++ flat_map (λ r. drafted.join_tables r.side) relations.now) }
    ensures err { IfErr result (λ cause. cause ≡ Cause.OutOfMemory) }
{
    for relation in relations {
        if let DraftSide::JoinTable(table) = &relation.side {
            tables.push(*table)?;
        }
    }
    Ok(())
}

fn push_tables(tables: &mut Vec<i64>, entity: &DraftEntity) -> Result<(), Cause>
    ensures added { OnOk result (tables.new.items ≡ tables.old.items
        ++ drafted.tables entity.now) }
    ensures err { IfErr result (λ cause. cause ≡ Cause.OutOfMemory) }
{
    if let DraftOrigin::Root(root) = &entity.origin {
        tables.push(root.table)?;
    }
    push_join_tables(tables, entity.relations.as_slice())
}

/// The tables of all roots and relations.
pub(super) fn tables_of(alloc: Global, entities: &[DraftEntity]) -> Result<Vec<i64>, Cause>
    ensures found { IfOk result (λ tables. tables.items ≡ flat_map drafted.tables entities.now) }
    ensures err { IfErr result (λ cause. cause ≡ Cause.OutOfMemory) }
{
    let mut tables = Vec::new(alloc);
    for entity in entities {
        push_tables(&mut tables, entity)?;
    }
    Ok(tables)
}
