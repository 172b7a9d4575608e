//! The byte that each part of a key begins with, by its kind.

pub const INT: u8 = 1;

pub const TEXT: u8 = 2;

pub const BYTES: u8 = 3;
