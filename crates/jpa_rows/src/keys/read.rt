//! From bytes to keys: part by part, each with the number of bytes that it takes.
ghost use Rattle.std.specs.Prelude.{◌≡◌, ◌↔◌, ℕ, List, Option, Some, None, false, IfOk, IfErr, ◌++◌, ◌∷◌, [], IfSome, OnOk, OnErr, length, ◌≤◌};
ghost use Rattle.std.specs.Cmp.Lexicographic.{slice_cmp};
ghost use Rattle.std.specs.Ordering.{nat_cmp};
ghost use Rattle.jpa_value.specs.Value.{key_cmp};
ghost use Rattle.jpa_value.specs.declared.refusal.Cause.{Cause};
ghost use Rattle.jpa_value.specs.declared.value.Value.{Value};
ghost use Rattle.jpa_value.specs.declared.value.Kind.{Kind};
ghost use Rattle.jpa_rows.specs.keys.Keys.{Spells, SpellsFront, SpellsPair};
ghost use Rattle.jpa_rows.specs.keys.Reading as reading;

use crate::keys::tag::{BYTES, INT, TEXT};
use jpa_value::{ByteString, Cause, Key, Kind, Seq, Text, Value};
use std::alloc::Global;
use std::cmp::Ordering;

/// An integer moved down by 2^63.
fn unshifted(number: u64) -> i64
    ensures { result ≡ reading.unshifted number }
{
    if number >= 1 << 63 {
        (number - (1 << 63)) as i64
    } else {
        number as i64 - i64::MAX - 1
    }
}

/// The integer part that bytes begin with, and how many bytes it takes.
fn read_int(bytes: &[u8]) -> Option<(Value, usize)>
    ensures is { result ≡ reading.int_at bytes.now }
    ensures within { IfSome result (λ read. read.1 ≤ length bytes.now) }
{
    if bytes.len() < 9 || bytes[0] != INT {
        return None;
    }
    let number = u64::from_be_bytes([
        bytes[1], bytes[2], bytes[3], bytes[4], bytes[5], bytes[6], bytes[7], bytes[8],
    ]);
    Some((Value::Int(unshifted(number)), 9))
}

/// Bytes up to the two bytes 0 that end them, with each 0 and 255 read as 0.
fn read_escaped(alloc: Global, bytes: &[u8]) -> Result<Option<(Seq<u8>, usize)>, Cause>
    ensures ok { IfOk result (λ found. found ≡ reading.unescaped false bytes.now) }
    ensures within { IfOk result (λ found. IfSome found (λ read. read.1 ≤ length bytes.now)) }
    ensures err { IfErr result (λ cause. cause ≡ Cause.OutOfMemory) }
{
    let mut out = Vec::new(alloc);
    let mut after_zero = false;
    for (i, &byte) in bytes.iter().enumerate() {
        if !after_zero {
            if byte == 0 {
                after_zero = true;
            } else {
                out.push(byte)?;
            }
        } else if byte == 0 {
            return Ok(Some((Seq::of(out), i + 1)));
        } else if byte == 255 {
            out.push(0)?;
            after_zero = false;
        } else {
            return Ok(None);
        }
    }
    Ok(None)
}

/// What stands between a tag and the two bytes 0, and how many bytes that takes in all.
fn read_tagged(alloc: Global, tag: u8, bytes: &[u8]) -> Result<Option<(Seq<u8>, usize)>, Cause>
    ensures ok { IfOk result (λ found. found ≡ reading.tagged tag bytes.now) }
    ensures within { IfOk result (λ found. IfSome found (λ read. read.1 ≤ length bytes.now)) }
    ensures err { IfErr result (λ cause. cause ≡ Cause.OutOfMemory) }
{
    if bytes.is_empty() || bytes[0] != tag {
        return Ok(None);
    }
    match read_escaped(alloc, &bytes[1..])? {
        None => Ok(None),
        Some((contents, count)) => Ok(Some((contents, 1 + count))),
    }
}

/// Bytes as a text, where they are UTF-8.
fn as_text(bytes: Seq<u8>) -> Result<Option<Text>, Cause>
    ensures ok { IfOk result (λ text. text ≡ reading.text_of bytes) }
    ensures err { IfErr result (λ cause. cause ≡ Cause.OutOfMemory) }
{
    match String::from_utf8(bytes.into_vec()) {
        Ok(text) => Ok(Some(Text::from_string(text)?)),
        Err(_) => Ok(None),
    }
}

/// The part of a kind that bytes begin with, and how many bytes it takes.
fn read_part(alloc: Global, kind: Kind, bytes: &[u8]) -> Result<Option<(Value, usize)>, Cause>
    ensures ok { IfOk result (λ found. found ≡ reading.part_at kind bytes.now) }
    ensures within { IfOk result (λ found. IfSome found (λ read. read.1 ≤ length bytes.now)) }
    ensures err { IfErr result (λ cause. cause ≡ Cause.OutOfMemory) }
{
    match kind {
        Kind::Int => Ok(read_int(bytes)),
        Kind::Text => match read_tagged(alloc, TEXT, bytes)? {
            None => Ok(None),
            Some((contents, count)) => match as_text(contents)? {
                None => Ok(None),
                Some(text) => Ok(Some((Value::Text(text), count))),
            },
        },
        Kind::Bytes => match read_tagged(alloc, BYTES, bytes)? {
            None => Ok(None),
            Some((contents, count)) => {
                let bytes = ByteString::of(contents.into_vec())?;
                Ok(Some((Value::Bytes(bytes), count)))
            }
        },
    }
}

/// The parts of these kinds that bytes begin with, and how many bytes they take.
fn read_key(alloc: Global, kinds: &[Kind], bytes: &[u8]) -> Result<Option<(Key, usize)>, Cause>
    ensures ok { IfOk result (λ found. found ≡ reading.key_at kinds.now bytes.now) }
    ensures within { IfOk result (λ found. IfSome found (λ read. read.1 ≤ length bytes.now)) }
    ensures err { IfErr result (λ cause. cause ≡ Cause.OutOfMemory) }
{
    let mut key = Key::new(alloc);
    let mut at = 0;
    for &kind in kinds {
        match read_part(alloc, kind, &bytes[at..])? {
            None => return Ok(None),
            Some((part, count)) => {
                key.push(part)?;
                at += count;
            }
        }
    }
    Ok(Some((key, at)))
}

/// The key that all of these bytes are read as, if any.
fn read_whole(alloc: Global, kinds: &[Kind], bytes: &[u8]) -> Result<Option<Key>, Cause>
    ensures ok { IfOk result (λ found. found ≡ reading.key_in kinds.now bytes.now) }
    ensures err { IfErr result (λ cause. cause ≡ Cause.OutOfMemory) }
{
    match read_key(alloc, kinds, bytes)? {
        None => Ok(None),
        Some((key, count)) => {
            if count == bytes.len() {
                Ok(Some(key))
            } else {
                Ok(None)
            }
        }
    }
}

/// The two keys, one after the other, that all of these bytes are read as, if any.
fn read_pair(
    alloc: Global,
    owner_kinds: &[Kind],
    target_kinds: &[Kind],
    bytes: &[u8],
) -> Result<Option<(Key, Key)>, Cause>
    ensures ok { IfOk result (λ found. found ≡ reading.pair_in owner_kinds.now target_kinds.now
        bytes.now) }
    ensures err { IfErr result (λ cause. cause ≡ Cause.OutOfMemory) }
{
    match read_key(alloc, owner_kinds, bytes)? {
        None => Ok(None),
        Some((owner, count)) => match read_whole(alloc, target_kinds, &bytes[count..])? {
            None => Ok(None),
            Some(target) => Ok(Some((owner, target))),
        },
    }
}

/// The key of these kinds that these bytes spell: `None` exactly where they spell none, so for each
/// key one spelling is read and no other. A text or byte part may be of any length here.
///
/// Fails for want of memory alone, with `OutOfMemory`.
pub fn decode_key(alloc: Global, kinds: &[Kind], bytes: &[u8]) -> Result<Option<Key>, Cause>
    ensures spelled { IfOk result (λ found. (key : List Value) → (found ≡ Some key)
        ↔ Spells kinds.now bytes.now key) }
    ensures err { IfErr result (λ cause. cause ≡ Cause.OutOfMemory) }
{
    Ok(read_whole(alloc, kinds, bytes)?)
}

/// The key of these kinds that the first so many of these bytes spell, and that number: no other
/// key's bytes begin these bytes. `None` exactly where no key's do.
///
/// Fails for want of memory alone, with `OutOfMemory`.
pub fn decode_front(
    alloc: Global,
    kinds: &[Kind],
    bytes: &[u8],
) -> Result<Option<(Key, usize)>, Cause>
    ensures spelled { IfOk result (λ found. (key : List Value) (count : ℕ) →
        (found ≡ Some (key, count)) ↔ SpellsFront kinds.now bytes.now key count) }
    ensures err { IfErr result (λ cause. cause ≡ Cause.OutOfMemory) }
{
    Ok(read_key(alloc, kinds, bytes)?)
}

/// The owner's key and after it the target's that these bytes spell, as `encode_pair` writes them:
/// there is at most one such pair. `None` exactly where there is none.
///
/// Fails for want of memory alone, with `OutOfMemory`.
pub fn decode_pair(
    alloc: Global,
    owner_kinds: &[Kind],
    target_kinds: &[Kind],
    bytes: &[u8],
) -> Result<Option<(Key, Key)>, Cause>
    ensures spelled { IfOk result (λ found. (owner target : List Value) →
        (found ≡ Some (owner, target)) ↔ SpellsPair owner_kinds.now target_kinds.now bytes.now
        owner target) }
    ensures err { IfErr result (λ cause. cause ≡ Cause.OutOfMemory) }
{
    Ok(read_pair(alloc, owner_kinds, target_kinds, bytes)?)
}

/// The order of two byte strings, a proper front of the other first. Where they spell keys of the
/// same kinds it is the order of the keys. Takes no memory.
#[tactic(auto, using(crate::proofs::keys::Orders::spelled_order))]
pub fn order_key_bytes(a: &[u8], b: &[u8]) -> Ordering
    ensures bytes { result ≡ slice_cmp nat_cmp a.now b.now }
    ensures keys { (kinds : List Kind) (x y : List Value) → Spells kinds a.now x →
        Spells kinds b.now y → result ≡ key_cmp x y }
{
    a.cmp(b)
}
