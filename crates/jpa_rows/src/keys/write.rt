//! From keys to bytes. Each function appends to bytes that are there already, so that a key takes
//! one vector.
ghost use Rattle.std.specs.Prelude.{◌≡◌, true, IfOk, IfErr, ◌++◌, ◌∷◌, [], OnOk, OnErr};
ghost use Rattle.std.specs.List.{list_all};
ghost use Rattle.jpa_value.specs.Value.{is_representable};
ghost use Rattle.jpa_value.specs.declared.refusal.Cause.{Cause};
ghost use Rattle.jpa_value.specs.declared.value.Value.{Value};
ghost use Rattle.jpa_rows.specs.keys.Keys as keys;

use crate::keys::tag::{BYTES, INT, TEXT};
use jpa_value::{Bytes, Cause, Key, Value};
use std::alloc::Global;

/// An integer moved up by 2^63, so that its bytes are in the order of the numbers.
fn shifted(number: i64) -> u64
    ensures { result ≡ keys.shifted number }
{
    if number >= 0 {
        number as u64 + (1 << 63)
    } else {
        (number + i64::MAX + 1) as u64
    }
}

/// Appends bytes with each 0 written as 0 and 255, and then two bytes 0.
fn push_escaped(out: &mut Vec<u8>, bytes: &[u8]) -> Result<(), Cause>
    ensures ok { OnOk result (out.new.items ≡ out.old.items ++ keys.escaped bytes.now ++ 0 ∷ 0
        ∷ []) }
    ensures err { IfErr result (λ cause. cause ≡ Cause.OutOfMemory) }
{
    for &byte in bytes {
        out.push(byte)?;
        if byte == 0 {
            out.push(255)?;
        }
    }
    out.extend_from_slice(&[0, 0])?;
    Ok(())
}

/// Appends an integer part.
fn push_int(out: &mut Vec<u8>, number: i64) -> Result<(), Cause>
    ensures ok { OnOk result (out.new.items ≡ out.old.items
        ++ keys.part_bytes (Value.Int number)) }
    ensures representable { OnOk result (is_representable (Value.Int number) ≡ true) }
    ensures err { IfErr result (λ cause. cause ≡ Cause.OutOfMemory) }
{
    out.push(INT)?;
    out.extend_from_slice(&shifted(number).to_be_bytes())?;
    Ok(())
}

/// Appends a text part.
fn push_text(out: &mut Vec<u8>, text: &str) -> Result<(), Cause>
    ensures ok { OnOk result (out.new.items ≡ out.old.items
        ++ keys.part_bytes (Value.Text text.now)) }
    ensures representable { OnOk result (is_representable (Value.Text text.now) ≡ true) }
    ensures err { IfErr result (λ cause. cause ≡ Cause.OutOfMemory) }
{
    out.push(TEXT)?;
    push_escaped(out, text.as_bytes())?;
    Ok(())
}

/// Appends a part that is a byte string.
fn push_bytes(out: &mut Vec<u8>, bytes: &[u8]) -> Result<(), Cause>
    ensures ok { OnOk result (out.new.items ≡ out.old.items
        ++ keys.part_bytes (Value.Bytes bytes.now)) }
    ensures representable { OnOk result (is_representable (Value.Bytes bytes.now) ≡ true) }
    ensures err { IfErr result (λ cause. cause ≡ Cause.OutOfMemory) }
{
    out.push(BYTES)?;
    push_escaped(out, bytes)?;
    Ok(())
}

/// Appends the bytes of one part; null has none.
fn push_part(out: &mut Vec<u8>, part: &Value) -> Result<(), Cause>
    ensures ok { OnOk result (out.new.items ≡ out.old.items ++ keys.part_bytes part.now) }
    ensures representable { OnOk result (is_representable part.now ≡ true) }
    ensures err { IfErr result (λ cause. cause ≡ Cause.OutOfMemory) }
{
    match part {
        Value::Null => Ok(()),
        Value::Int(number) => push_int(out, *number),
        Value::Text(text) => push_text(out, text.as_str()),
        Value::Bytes(bytes) => push_bytes(out, bytes.as_slice()),
    }
}

/// Appends the bytes of a key.
fn push_key(out: &mut Vec<u8>, key: &Key) -> Result<(), Cause>
    ensures ok { OnOk result (out.new.items ≡ out.old.items ++ keys.key_bytes key.now) }
    ensures representable { OnOk result (list_all is_representable key.now ≡ true) }
    ensures err { IfErr result (λ cause. cause ≡ Cause.OutOfMemory) }
{
    for part in key.as_slice() {
        push_part(out, part)?;
    }
    Ok(())
}

/// The bytes of a key: its parts' bytes joined. Of keys of the same kinds the bytes are in the
/// order of the keys (`order_key_bytes`), and `decode_key` reads them again. A null part has no
/// bytes and is read by nothing.
///
/// Fails for want of memory alone, with `OutOfMemory`.
pub fn encode_key(alloc: Global, key: &Key) -> Result<Bytes, Cause>
    ensures bytes { IfOk result (λ bytes. bytes ≡ keys.key_bytes key.now) }
    ensures representable { OnOk result (list_all is_representable key.now ≡ true) }
    ensures err { IfErr result (λ cause. cause ≡ Cause.OutOfMemory) }
{
    let mut out = Vec::new(alloc);
    push_key(&mut out, key)?;
    Ok(Bytes::of(out))
}

/// The bytes of an owner's key followed by those of the key of what it owns, as the row of a join
/// table is named. `decode_pair` reads them again.
///
/// Fails for want of memory alone, with `OutOfMemory`.
pub fn encode_pair(alloc: Global, owner: &Key, target: &Key) -> Result<Bytes, Cause>
    ensures bytes { IfOk result (λ bytes. bytes ≡ keys.key_bytes owner.now
        ++ keys.key_bytes target.now) }
    ensures owner_representable { OnOk result (list_all is_representable owner.now ≡ true) }
    ensures target_representable { OnOk result (list_all is_representable target.now ≡ true) }
    ensures err { IfErr result (λ cause. cause ≡ Cause.OutOfMemory) }
{
    let mut out = Vec::new(alloc);
    push_key(&mut out, owner)?;
    push_key(&mut out, target)?;
    Ok(Bytes::of(out))
}
