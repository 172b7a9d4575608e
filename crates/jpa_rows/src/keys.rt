//! Primary keys as bytes (chapter 2.4): how a row of the store is named by the key of its object.
//!
//! A key's bytes are its parts' bytes joined. An integer n is the byte 1 and n + 2^63 in eight
//! bytes, greatest first; a text is the byte 2, its UTF-8 with each byte 0 written as 0 and 255,
//! and two bytes 0; a byte string is the byte 3 and then the same. So the bytes of keys of the same
//! kinds are in the order of the keys, no key's bytes begin another's, and each key has one
//! spelling: what `decode_key` reads is the only key of the asked kinds whose bytes these are.
//!
//! `specs/Keys` defines the bytes and what it is to spell a key, `specs/Reading` how they are read.
//! Parts may be of any length here. The crate stands on `jpa_value` alone.

mod read;
mod tag;
mod write;

pub use read::{decode_front, decode_key, decode_pair, order_key_bytes};
pub use write::{encode_key, encode_pair};
