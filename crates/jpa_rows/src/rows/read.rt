//! From cells to rows.
ghost use Rattle.std.specs.Prelude.{◌≡◌, ◌↔◌, ℕ, List, Option, Some, None, IfOk, IfErr, IsTrue, pos, find, length, option_map};
ghost use Rattle.std.specs.List.{list_all};
ghost use Rattle.std.specs.Option.{option_copied};
ghost use Rattle.std.specs.Ordering.{int_eq};
ghost use Rattle.jpa_value.specs.declared.refusal.Cause.{Cause};
ghost use Rattle.jpa_value.specs.declared.value.Kind.{Kind};
ghost use Rattle.jpa_value.specs.declared.value.Value.{Value};
ghost use Rattle.jpa_behaviour.specs.Behaviour as behaviour;
ghost use Rattle.jpa_rows.specs.declared.rows.row.Content.{Content};
ghost use Rattle.jpa_rows.specs.declared.rows.row.Field.{Field};
ghost use Rattle.jpa_rows.specs.declared.rows.schema.Holds.{Holds};
ghost use Rattle.jpa_rows.specs.rows.Rows.{Row, SpellsId, SpellsRow};
ghost use Rattle.jpa_rows.specs.rows.Spellings.{Finds, SpellsKey, SpellsContent, SpellsValue, SpellsField, SpellsFields};
ghost use Rattle.jpa_rows.specs.rows.Reading as reading;

use crate::keys::decode_key;
use crate::rows::row::{Content, Field, Row};
use crate::rows::schema::{ColumnRule, Holds, TableRule};
use crate::rows::tag::{BYTES, INT, REFERENCE, TEXT};
use crate::rows::values::is_short;
use crate::rows::whole::is_rising;
use jpa_value::{ByteString, Bytes, Cause, Key, Kind, MOST_BYTES, Seq, Text, Value};
use std::alloc::Global;

fn are_short(key: &[Value]) -> bool
    ensures { result ≡ list_all behaviour.is_short key.now }
{
    key.iter().all(|part| is_short(part))
}

/// The key, where all its parts are short.
fn short_key(found: Option<Key>) -> Option<Key>
    ensures { result ≡ reading.short_key found }
{
    match found {
        None => None,
        Some(key) => {
            if are_short(key.as_slice()) {
                Some(key)
            } else {
                None
            }
        }
    }
}

fn read_key(alloc: Global, kinds: &[Kind], bytes: &[u8]) -> Result<Option<Key>, Cause>
    ensures spelled { IfOk result (Finds (SpellsKey kinds.now bytes.now)) }
    ensures err { IfErr result (λ cause. cause ≡ Cause.OutOfMemory) }
{
    Ok(short_key(decode_key(alloc, kinds, bytes)?))
}

/// The key of a table's row that bytes spell: `None` exactly where they spell none, so each row has
/// one spelling.
///
/// Fails for want of memory alone, with `OutOfMemory`.
pub fn read_id(alloc: Global, table: &TableRule, bytes: &[u8]) -> Result<Option<Key>, Cause>
    ensures spelled { IfOk result (λ found. (key : List Value) → (found ≡ Some key)
        ↔ SpellsId table.now bytes.now key) }
    ensures err { IfErr result (λ cause. cause ≡ Cause.OutOfMemory) }
{
    Ok(read_key(alloc, table.key.as_slice(), bytes)?)
}

/// What stands after a tag, where bytes begin with it.
fn untagged(tag: u8, bytes: &[u8]) -> Option<&[u8]>
    ensures { option_copied result ≡ reading.untagged tag bytes.now }
{
    if bytes.is_empty() || bytes[0] != tag {
        return None;
    }
    Some(&bytes[1..])
}

fn only_part(key: &[Value]) -> Option<Value>
    ensures { result ≡ reading.only_part key.now }
{
    match key {
        [Value::Int(number)] => Some(Value::Int(*number)),
        _ => None,
    }
}

fn part_in(key: Option<Key>) -> Option<Value>
    ensures { result ≡ reading.part_in key }
{
    match key {
        None => None,
        Some(key) => only_part(key.as_slice()),
    }
}

/// The integer that all of these bytes spell, as the only part of a key.
fn read_int(alloc: Global, bytes: &[u8]) -> Result<Option<Value>, Cause>
    ensures spelled { IfOk result (Finds (SpellsValue (Holds.Kind Kind.Int) bytes.now)) }
    ensures err { IfErr result (λ cause. cause ≡ Cause.OutOfMemory) }
{
    Ok(part_in(decode_key(alloc, &[Kind::Int], bytes)?))
}

fn text_of(alloc: Global, bytes: &[u8]) -> Result<Option<Value>, Cause>
    ensures ok { IfOk result (λ found. found ≡ reading.text_of bytes.now) }
    ensures err { IfErr result (λ cause. cause ≡ Cause.OutOfMemory) }
{
    if bytes.len() > MOST_BYTES {
        return Ok(None);
    }
    match std::str::from_utf8(bytes) {
        Err(_) => Ok(None),
        Ok(text) => Ok(Some(Value::Text(Text::of(alloc, text)?))),
    }
}

fn text_in(alloc: Global, bytes: &[u8]) -> Result<Option<Value>, Cause>
    ensures ok { IfOk result (λ found. found ≡ reading.text_in bytes.now) }
    ensures err { IfErr result (λ cause. cause ≡ Cause.OutOfMemory) }
{
    match untagged(TEXT, bytes) {
        None => Ok(None),
        Some(text) => Ok(text_of(alloc, text)?),
    }
}

fn bytes_of(alloc: Global, bytes: &[u8]) -> Result<Option<Value>, Cause>
    ensures ok { IfOk result (λ found. found ≡ reading.bytes_of bytes.now) }
    ensures err { IfErr result (λ cause. cause ≡ Cause.OutOfMemory) }
{
    if bytes.len() > MOST_BYTES {
        return Ok(None);
    }
    Ok(Some(Value::Bytes(ByteString::of(Vec::from_slice(alloc, bytes)?)?)))
}

fn bytes_in(alloc: Global, bytes: &[u8]) -> Result<Option<Value>, Cause>
    ensures ok { IfOk result (λ found. found ≡ reading.bytes_in bytes.now) }
    ensures err { IfErr result (λ cause. cause ≡ Cause.OutOfMemory) }
{
    match untagged(BYTES, bytes) {
        None => Ok(None),
        Some(bytes) => Ok(bytes_of(alloc, bytes)?),
    }
}

fn read_value(alloc: Global, kind: Kind, bytes: &[u8]) -> Result<Option<Value>, Cause>
    ensures spelled { IfOk result (Finds (SpellsValue (Holds.Kind kind) bytes.now)) }
    ensures err { IfErr result (λ cause. cause ≡ Cause.OutOfMemory) }
{
    match kind {
        Kind::Int => Ok(read_int(alloc, bytes)?),
        Kind::Text => Ok(text_in(alloc, bytes)?),
        Kind::Bytes => Ok(bytes_in(alloc, bytes)?),
    }
}

/// The kind of value that bytes spell, if any, by their tag.
fn kind_at(bytes: &[u8]) -> Option<Kind>
    ensures { result ≡ reading.kind_at bytes.now }
{
    match bytes {
        [] => None,
        [tag, ..] => match *tag {
            INT => Some(Kind::Int),
            TEXT => Some(Kind::Text),
            BYTES => Some(Kind::Bytes),
            _ => None,
        },
    }
}

fn read_any(alloc: Global, bytes: &[u8]) -> Result<Option<Value>, Cause>
    ensures spelled { IfOk result (Finds (SpellsValue Holds.Any bytes.now)) }
    ensures err { IfErr result (λ cause. cause ≡ Cause.OutOfMemory) }
{
    match kind_at(bytes) {
        None => Ok(None),
        Some(kind) => Ok(read_value(alloc, kind, bytes)?),
    }
}

fn read_reference(alloc: Global, kinds: &[Kind], bytes: &[u8]) -> Result<Option<Key>, Cause>
    ensures spelled { IfOk result
        (Finds (λ key. SpellsContent (Holds.Reference kinds.now) bytes.now
        (Content.Reference key))) }
    ensures err { IfErr result (λ cause. cause ≡ Cause.OutOfMemory) }
{
    match untagged(REFERENCE, bytes) {
        None => Ok(None),
        Some(key) => Ok(read_key(alloc, kinds, key)?),
    }
}

fn as_value(found: Option<Value>) -> Option<Content>
    ensures { result ≡ option_map Content.Value found }
{
    match found {
        None => None,
        Some(value) => Some(Content::Value(value)),
    }
}

fn as_reference(found: Option<Key>) -> Option<Content>
    ensures { result ≡ option_map Content.Reference found }
{
    match found {
        None => None,
        Some(key) => Some(Content::Reference(key)),
    }
}

/// What bytes spell of what a column may hold: `None` exactly where they spell nothing of it, so
/// each content has one spelling.
///
/// Fails for want of memory alone, with `OutOfMemory`.
pub fn read_content(alloc: Global, holds: &Holds, bytes: &[u8]) -> Result<Option<Content>, Cause>
    ensures spelled { IfOk result (λ found. (content : Content) → (found ≡ Some content)
        ↔ SpellsContent holds.now bytes.now content) }
    ensures err { IfErr result (λ cause. cause ≡ Cause.OutOfMemory) }
{
    match holds {
        Holds::Kind(kind) => Ok(as_value(read_value(alloc, *kind, bytes)?)),
        Holds::Any => Ok(as_value(read_any(alloc, bytes)?)),
        Holds::Reference(kinds) => Ok(as_reference(read_reference(
            alloc,
            kinds.as_slice(),
            bytes,
        )?)),
    }
}

/// The rule of a cell's column, where the table has it.
fn rule_for<'a>(table: &'a TableRule, cell: &(i64, Bytes)) -> Option<&'a ColumnRule>
    ensures { option_copied result ≡ find (λ rule. int_eq (pos rule.column) cell.now.0)
        table.now.columns }
{
    table
        .columns
        .as_slice()
        .iter()
        .find(|rule| i64::from(rule.column) == cell.0)
}

fn field_of(column: u32, content: Option<Content>) -> Option<Field>
    ensures { result ≡ option_map (reading.field column) content }
{
    match content {
        None => None,
        Some(content) => Some(Field { column, content }),
    }
}

fn read_field(alloc: Global, table: &TableRule, cell: &(i64, Bytes)) -> Result<Option<Field>, Cause>
    ensures spelled { IfOk result (Finds (SpellsField table.now cell.now)) }
    ensures err { IfErr result (λ cause. cause ≡ Cause.OutOfMemory) }
{
    match rule_for(table, cell) {
        None => Ok(None),
        Some(rule) => Ok(field_of(
            rule.column,
            read_content(alloc, &rule.holds, cell.1.as_slice())?,
        )),
    }
}

/// The fields of cells, in any order.
fn read_fields(
    alloc: Global,
    table: &TableRule,
    cells: &[(i64, Bytes)],
) -> Result<Option<Row>, Cause>
    ensures spelled { IfOk result (Finds (SpellsFields table.now cells.now)) }
    ensures err { IfErr result (λ cause. cause ≡ Cause.OutOfMemory) }
{
    let mut row = Seq::new(alloc);
    for cell in cells {
        match read_field(alloc, table, cell)? {
            None => return Ok(None),
            Some(field) => row.push(field)?,
        }
    }
    Ok(Some(row))
}

/// The row, where its columns rise.
fn rising_row(found: Option<Row>) -> Option<Row>
    ensures { result ≡ reading.rising_row found }
{
    match found {
        None => None,
        Some(row) => {
            if is_rising(row.as_slice()) {
                Some(row)
            } else {
                None
            }
        }
    }
}

/// The row of a table that cells spell, as `spell_row` writes it: `None` exactly where they spell
/// none, so each row has one spelling. The cells are numbered by columns.
///
/// Fails for want of memory alone, with `OutOfMemory`.
pub fn read_row(
    alloc: Global,
    table: &TableRule,
    cells: &[(i64, Bytes)],
) -> Result<Option<Row>, Cause>
    ensures spelled { IfOk result (λ found. (row : Row) → (found ≡ Some row)
        ↔ SpellsRow table.now cells.now row) }
    ensures err { IfErr result (λ cause. cause ≡ Cause.OutOfMemory) }
{
    Ok(rising_row(read_fields(alloc, table, cells)?))
}
