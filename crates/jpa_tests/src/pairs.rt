//! Pairs of keys, by which the rows of join tables are named.
use jpa_rows::keys::{decode_front, decode_pair, encode_pair};
use jpa_value::{Cause, Key, Kind, Text, Value, order_keys};
use std::alloc::Global;
use std::cmp::Ordering;
use std::test::Fail;

/// The pair of the text a and the integer 1.
const PAIR: &[u8] = b"\x02a\x00\x00\x01\x80\x00\x00\x00\x00\x00\x00\x01";

fn key(alloc: Global, part: Value) -> Result<Key, Cause> {
    let mut key = Key::new(alloc);
    key.push(part)?;
    Ok(key)
}

fn is_same_key(first: &Key, second: &Key) -> bool {
    order_keys(first.as_slice(), second.as_slice()) == Ordering::Equal
}

/// Whether the pair begins with the owner, in four bytes.
fn front_is_read(alloc: Global, owner: &Key) -> Result<bool, Cause> {
    match decode_front(alloc, &[Kind::Text], PAIR)? {
        Some((front, count)) => Ok(count == 4 && is_same_key(&front, owner)),
        None => Ok(false),
    }
}

fn pair_is_read(alloc: Global, owner: &Key, target: &Key) -> Result<bool, Cause> {
    match decode_pair(alloc, &[Kind::Text], &[Kind::Int], PAIR)? {
        Some((first, second)) => Ok(is_same_key(&first, owner) && is_same_key(&second, target)),
        None => Ok(false),
    }
}

#[test]
fn a_pair_is_spelled_and_read(rt: HostRuntime) -> Result<(), Fail> {
    let alloc = rt.alloc();
    let owner = key(alloc, Value::Text(Text::of(alloc, "a")?))?;
    let target = key(alloc, Value::Int(1))?;
    assert!(rt; encode_pair(alloc, &owner, &target)?.as_slice() == PAIR);
    assert!(rt; front_is_read(alloc, &owner)?);
    assert!(rt; pair_is_read(alloc, &owner, &target)?);
    Ok(())
}
