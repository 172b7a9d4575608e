//! Rows as lines of JSON.
ghost use Rattle.std.specs.Prelude.{◌≡◌, IfOk, IfErr, find, map, option_copied};
ghost use Rattle.std.specs.List.{flat_map};
ghost use Rattle.jpa_value.specs.declared.refusal.Cause.{Cause};
ghost use Rattle.jpa_value.specs.declared.value.Value.TheVariants as values;
ghost use Rattle.jpa_lines.specs.lines.Outcome.{Tells};
ghost use Rattle.jpa_lines.specs.lines.ReplyText.{value_data};
ghost use Rattle.serde_json.specs.Data.{array};
ghost use Rattle.serde_json.specs.View.{items_of};
ghost use Rattle.jpa_questions.specs.questions.Lines as spec;

use jpa_lines::lines::tell_value;
use jpa_model::{Entity, Metamodel, Origin};
use jpa_value::{Cause, Identity, Seq, Value};
use jpql_meaning::eval::Datum;
use json::Writer;
use std::alloc::Global;

/// Room for a short row, so that most take memory once.
const SHORT_ROW: usize = 128;

fn has_table(entity: &Entity, table: u64) -> bool
    ensures { result ≡ spec.has_table table entity.now }
{
    match &entity.origin {
        Origin::Root(root) => root.table == table,
        Origin::Extends(_) => false,
    }
}

/// The entity that begins the hierarchy of a table.
fn entity_of(entities: &[Entity], table: u64) -> Option<&Entity>
    ensures { option_copied result ≡ find (spec.has_table table) entities.now }
{
    entities.iter().find(|entity| has_table(entity, table))
}

/// Its name; no name of another table.
fn entity_name(metamodel: &Metamodel, table: u64) -> &str
    ensures { result.now ≡ spec.entity_name metamodel.now table }
{
    match entity_of(metamodel.entities(), table) {
        Some(entity) => entity.name.as_str(),
        None => "",
    }
}

fn tell_key(alloc: Global, out: &mut Writer, key: &[Value]) -> Result<(), Cause>
    ensures { Tells result out.old out.new (array (items_of (map value_data key.now))) }
{
    out.begin_array()?;
    for part in key {
        tell_value(alloc, out, part)?;
    }
    out.end_array()?;
    Ok(())
}

/// An entity by its name and key.
fn tell_entity(
    alloc: Global,
    metamodel: &Metamodel,
    out: &mut Writer,
    id: &Identity,
) -> Result<(), Cause>
    ensures { Tells result out.old out.new (spec.identity_data metamodel.now id.now) }
{
    out.begin_object()?;
    out.key("entity")?;
    out.string(entity_name(metamodel, id.table))?;
    out.key("key")?;
    tell_key(alloc, out, id.key.as_slice())?;
    out.end_object()?;
    Ok(())
}

fn tell_item(
    alloc: Global,
    metamodel: &Metamodel,
    out: &mut Writer,
    item: &Datum,
) -> Result<(), Cause>
    ensures { Tells result out.old out.new (spec.datum_data metamodel.now item.now) }
{
    match item {
        Datum::Plain(value) => tell_value(alloc, out, value),
        Datum::Entity(id) => tell_entity(alloc, metamodel, out, id),
    }
}

fn tell_items(
    alloc: Global,
    metamodel: &Metamodel,
    out: &mut Writer,
    items: &[Datum],
) -> Result<(), Cause>
    ensures { Tells result out.old out.new
        (array (items_of (map (spec.datum_data metamodel.now) items.now))) }
{
    out.begin_array()?;
    for item in items {
        tell_item(alloc, metamodel, out, item)?;
    }
    out.end_array()?;
    Ok(())
}

fn tell_row(
    alloc: Global,
    metamodel: &Metamodel,
    out: &mut Writer,
    row: &[Datum],
) -> Result<(), Cause>
    ensures { Tells result out.old out.new (spec.row_data metamodel.now row.now) }
{
    match row {
        [item] => tell_item(alloc, metamodel, out, item),
        _ => tell_items(alloc, metamodel, out, row),
    }
}

/// A row as compact JSON, and a line feed. A row of one item is that item, any other a list; a
/// value is as replies have it, and an entity `{"entity":"Person","key":[1]}`, by the name of the
/// entity that begins its hierarchy. Fails for want of memory alone, with `OutOfMemory`.
pub fn write_row(alloc: Global, metamodel: &Metamodel, row: &[Datum]) -> Result<Vec<u8>, Cause>
    ensures ok { IfOk result (λ bytes. bytes.items ≡ spec.row_text metamodel.now row.now) }
    ensures err { IfErr result (λ cause. cause ≡ Cause.OutOfMemory) }
{
    let mut out = Writer::new(Vec::with_capacity(alloc, SHORT_ROW)?);
    tell_row(alloc, metamodel, &mut out, row)?;
    let mut bytes = out.into_inner();
    bytes.push(b'\n')?;
    Ok(bytes)
}

/// The lines of rows, in their order, each as `write_row` writes it. Fails for want of memory
/// alone, with `OutOfMemory`.
pub fn write_rows(
    alloc: Global,
    metamodel: &Metamodel,
    rows: &[Seq<Datum>],
) -> Result<Vec<u8>, Cause>
    ensures ok { IfOk result (λ text. text.items
        ≡ flat_map (spec.row_text metamodel.now) rows.now) }
    ensures err { IfErr result (λ cause. cause ≡ Cause.OutOfMemory) }
{
    let mut text = Vec::new(alloc);
    for row in rows {
        let line = write_row(alloc, metamodel, row.as_slice())?;
        text.extend_from_slice(line.as_slice())?;
    }
    Ok(text)
}
