//! How a question is answered, told.
ghost use Rattle.std.specs.Prelude.{◌≡◌, ◌++◌, IfOk, IfErr, OnOk};
ghost use Rattle.std.specs.List.{flat_map};
ghost use Rattle.jpa_value.specs.declared.refusal.Cause.{Cause};
ghost use Rattle.jpa_questions.specs.by_key.ByKey.{key_of};
ghost use Rattle.jpa_questions.specs.questions.Plans as spec;

use crate::by_key::key_of;
use crate::questions::line::write_row;
use crate::questions::question::Question;
use jpa_model::{Entity, Metamodel, Origin};
use jpa_value::{Cause, Identity};
use jpql_meaning::eval::Datum;
use std::alloc::Global;

/// The one object that a question asks by its key. Fails for want of memory alone, with
/// `OutOfMemory`.
fn asked_by_key(
    alloc: Global,
    metamodel: &Metamodel,
    question: &Question,
) -> Result<Option<Identity>, Cause>
    ensures ok { IfOk result (λ id. id
        ≡ key_of metamodel.now question.now.arguments question.now.select) }
    ensures err { IfErr result (λ cause. cause ≡ Cause.OutOfMemory) }
{
    Ok(key_of(
        alloc,
        metamodel,
        question.arguments.as_slice(),
        &question.select,
    )?)
}

/// Whether an entity begins a hierarchy, and has a table.
fn is_root(entity: &Entity) -> bool
    ensures { result ≡ spec.is_root entity.now }
{
    matches!(entity.origin, Origin::Root(_))
}

/// Tells that all rows of an entity that begins a hierarchy are read, and nothing of another one.
fn tell_entity(text: &mut Vec<u8>, entity: &Entity) -> Result<(), Cause>
    ensures ok { OnOk result (text.new.items ≡ text.old.items ++ spec.entity_line entity.now) }
    ensures err { IfErr result (λ cause. cause ≡ Cause.OutOfMemory) }
{
    if is_root(entity) {
        text.extend_from_slice(b"reads all rows of ")?;
        text.extend_from_slice(entity.name.as_bytes())?;
        text.push(b'\n')?;
    }
    Ok(())
}

/// Tells that all rows of these entities are read.
fn tell_entities(alloc: Global, entities: &[Entity]) -> Result<Vec<u8>, Cause>
    ensures ok { IfOk result (λ text. text.items ≡ flat_map spec.entity_line entities.now) }
    ensures err { IfErr result (λ cause. cause ≡ Cause.OutOfMemory) }
{
    let mut text = Vec::new(alloc);
    for entity in entities {
        tell_entity(&mut text, entity)?;
    }
    Ok(text)
}

/// Tells that one object is looked up, by the line of a row that has it alone.
fn tell_object(alloc: Global, metamodel: &Metamodel, row: &[Datum]) -> Result<Vec<u8>, Cause>
    ensures ok { IfOk result (λ text. text.items ≡ spec.looked_up metamodel.now row.now) }
    ensures err { IfErr result (λ cause. cause ≡ Cause.OutOfMemory) }
{
    let line = write_row(alloc, metamodel, row)?;
    let mut text = Vec::new(alloc);
    text.extend_from_slice(b"looks up by its key ")?;
    text.extend_from_slice(line.as_slice())?;
    Ok(text)
}

/// What is told of how a question is answered, in lines: `looks up by its key
/// {"entity":"Person","key":[1]}`, or `reads all rows of Person`, a line for each entity that
/// begins a hierarchy. Fails for want of memory alone, with `OutOfMemory`.
pub fn write_plan(
    alloc: Global,
    metamodel: &Metamodel,
    question: &Question,
) -> Result<Vec<u8>, Cause>
    ensures ok { IfOk result (λ text. text.items
        ≡ spec.plan_text metamodel.now question.now) }
    ensures err { IfErr result (λ cause. cause ≡ Cause.OutOfMemory) }
{
    match asked_by_key(alloc, metamodel, question)? {
        Some(id) => tell_object(alloc, metamodel, &[Datum::Entity(id)]),
        None => tell_entities(alloc, metamodel.entities()),
    }
}
