//! From rows to cells.
ghost use Rattle.std.specs.Prelude.{◌≡◌, ◌∷◌, [], IfOk, IfErr, unwrap_or};
ghost use Rattle.jpa_value.specs.declared.refusal.Cause.{Cause};
ghost use Rattle.jpa_rows.specs.keys.Keys.{int_bytes};
ghost use Rattle.jpa_rows.specs.rows.Cells.{value_bytes};
ghost use Rattle.jpa_rows.specs.rows.Rows as rows;

use crate::keys::encode_key;
use crate::rows::row::{Content, Row};
use crate::rows::tag::{BYTES, REFERENCE, TEXT};
use jpa_value::{Bytes, Cause, Key, Seq, Value};
use std::alloc::Global;

/// A tag, and bytes after it.
fn tagged(alloc: Global, tag: u8, bytes: &[u8]) -> Result<Bytes, Cause>
    ensures ok { IfOk result (λ tagged. tagged ≡ tag ∷ bytes.now) }
    ensures err { IfErr result (λ cause. cause ≡ Cause.OutOfMemory) }
{
    let mut out = Vec::new(alloc);
    out.push(tag)?;
    out.extend_from_slice(bytes)?;
    Ok(Bytes::of(out))
}

/// An integer in a cell, which is spelled as in a key.
fn spell_int(alloc: Global, number: i64) -> Result<Bytes, Cause>
    ensures ok { IfOk result (λ bytes. bytes ≡ 1 ∷ int_bytes number) }
    ensures err { IfErr result (λ cause. cause ≡ Cause.OutOfMemory) }
{
    let mut key = Key::new(alloc);
    key.push(Value::Int(number))?;
    Ok(encode_key(alloc, &key)?)
}

fn spell_value(alloc: Global, value: &Value) -> Result<Bytes, Cause>
    ensures ok { IfOk result (λ bytes. bytes ≡ unwrap_or (value_bytes value.now) []) }
    ensures err { IfErr result (λ cause. cause ≡ Cause.OutOfMemory) }
{
    match value {
        Value::Null => Ok(Bytes::of(Vec::new(alloc))),
        Value::Int(number) => spell_int(alloc, *number),
        Value::Text(text) => tagged(alloc, TEXT, text.as_bytes()),
        Value::Bytes(bytes) => tagged(alloc, BYTES, bytes.as_slice()),
    }
}

/// The bytes of what a column holds: a tag, and after it the value's or the key's bytes.
/// `read_content` reads them again.
///
/// Fails for want of memory alone, with `OutOfMemory`.
pub fn spell_content(alloc: Global, content: &Content) -> Result<Bytes, Cause>
    ensures ok { IfOk result (λ bytes. bytes ≡ rows.content_bytes content.now) }
    ensures err { IfErr result (λ cause. cause ≡ Cause.OutOfMemory) }
{
    match content {
        Content::Value(value) => spell_value(alloc, value),
        Content::Reference(key) => {
            let bytes = encode_key(alloc, key)?;
            tagged(alloc, REFERENCE, bytes.as_slice())
        }
    }
}

/// The cells of a row: for each of its columns the number and the bytes, in rising order.
/// `read_row` reads them again.
///
/// Fails for want of memory alone, with `OutOfMemory`.
pub fn spell_row(alloc: Global, row: &Row) -> Result<Seq<(i64, Bytes)>, Cause>
    ensures ok { IfOk result (λ cells. cells ≡ rows.cells_of row.now) }
    ensures err { IfErr result (λ cause. cause ≡ Cause.OutOfMemory) }
{
    let mut cells = Seq::new(alloc);
    for field in row.as_slice() {
        cells.push((
            i64::from(field.column),
            spell_content(alloc, &field.content)?,
        ))?;
    }
    Ok(cells)
}
