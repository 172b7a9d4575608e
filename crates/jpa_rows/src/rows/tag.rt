//! The byte that each cell's value begins with, by what it holds.

pub const INT: u8 = 1;

pub const TEXT: u8 = 2;

pub const BYTES: u8 = 3;

pub const REFERENCE: u8 = 4;
