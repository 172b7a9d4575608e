//! Lists, texts and byte strings that contracts see as lists.
//!
//! A text and a byte string are values: a copy shares them with what it is copied from, so that a
//! value on its way from a call to the store is copied where it is spelled alone.
use std::alloc::{AllocError, Global};
use std::marker::Model;
use std::rc::{RcSlice, RcStr};

/// A list, seen by contracts as the list of its items.
#[derive(Debug, Drop)]
pub struct Seq<T> {
    items: Vec<T>,
}

impl<T> Model for Seq<T> {
    ghost use Rattle.std.specs.Prelude.{List};
    ghost use Rattle.std.specs.Coded.{coded_list};

    ghost Value = { List T };

    ghost coded = { coded_list T.code };

    ghost view = { λ s. s.items.items };
}

/// A text in UTF-8, seen by contracts as its bytes. It goes with its last owner.
#[derive(Debug, Drop)]
pub struct Text {
    text: RcStr,
}

impl Model for Text {
    ghost use Rattle.std.specs.Prelude.{List, ℕ};
    ghost use Rattle.std.specs.Rc.{rc_str_bytes};

    ghost Value = { List ℕ };

    ghost view = { λ t. rc_str_bytes t.text };
}

/// A byte string, seen by contracts as its bytes. It goes with its last owner.
#[derive(Debug, Drop)]
pub struct ByteString {
    bytes: RcSlice<u8>,
}

impl Model for ByteString {
    ghost use Rattle.std.specs.Prelude.{List, ℕ};
    ghost use Rattle.std.specs.Rc.{rc_slice_items};

    ghost Value = { List ℕ };

    ghost view = { λ b. rc_slice_items b.bytes };
}

/// Bytes of one owner, as keys and values are spelled, seen by contracts as a list.
#[derive(Debug, Drop)]
pub struct Bytes {
    bytes: Vec<u8>,
}

impl Model for Bytes {
    ghost use Rattle.std.specs.Prelude.{List, ℕ};

    ghost Value = { List ℕ };

    ghost view = { λ b. b.bytes.items };
}

impl<T> Seq<T> {
    ghost use Rattle.std.specs.Prelude.{◌≡◌, ◌<◌, ◌↔◌, [], ◌∷◌, ◌++◌, length, slice_get, slice_set, IsTrue, OnOk, OnErr};
    ghost use Rattle.std.specs.Option.{option_copied};

    /// No items. Takes no memory.
    pub fn new(alloc: Global) -> Seq<T>
        ensures { result ≡ [] }
    {
        Seq {
            items: Vec::new(alloc),
        }
    }

    /// These items. Takes no memory.
    pub fn of(items: Vec<T>) -> Seq<T>
        ensures { result ≡ items.items }
    {
        Seq { items }
    }

    /// The items as a vector. Takes no memory.
    pub fn into_vec(self) -> Vec<T>
        ensures { result.items ≡ self }
    {
        let Seq { items } = self;
        items
    }

    /// The items.
    pub fn as_slice(&self) -> &[T]
        ensures { result.now ≡ self.now }
    {
        self.items.as_slice()
    }

    /// The allocator that it grows by.
    pub fn allocator(&self) -> Global {
        *self.items.allocator()
    }

    /// How many items there are.
    pub fn len(&self) -> usize
        ensures { result ≡ length self.now }
    {
        self.items.len()
    }

    /// Whether there is no item.
    pub fn is_empty(&self) -> bool
        ensures { IsTrue result ↔ (self.now ≡ []) }
    {
        self.items.is_empty()
    }
}

impl<T: Drop> Seq<T> {
    ghost use Rattle.std.specs.Prelude.{◌≡◌, ◌<◌, [], ◌∷◌, ◌++◌, length, slice_set, OnOk, OnErr};

    /// One more item, at the end; the first one takes the memory of one. For want of memory the
    /// list stays as it was.
    pub fn push(&mut self, item: T) -> Result<(), AllocError>
        ensures ok { OnOk result (self.new ≡ self.old ++ item ∷ []) }
        ensures err { OnErr result (self.new ≡ self.old) }
    {
        if self.items.is_empty() {
            // most lists are keys, values and links: a few items, many times
            self.items.try_reserve_exact(1)?;
        }
        self.items.push(item)?;
        Ok(())
    }

    /// Another item at a place, counted from 0.
    pub fn set(&mut self, at: usize, item: T)
        requires { at < length self.old }
        ensures { self.new ≡ slice_set self.old at item }
    {
        self.items[at] = item;
    }
}

impl Text {
    ghost use Rattle.std.specs.Prelude.{◌≡◌, string_bytes, IfOk};

    /// A copy of this text; fails for want of memory alone.
    pub fn of(alloc: Global, text: &str) -> Result<Text, AllocError>
        ensures { IfOk result (λ t. t ≡ text.now) }
    {
        Text::from_string(String::from_str(alloc, text)?)
    }

    /// This text, which isn't copied; fails for want of memory alone.
    pub fn from_string(text: String) -> Result<Text, AllocError>
        ensures { IfOk result (λ t. t ≡ string_bytes text) }
    {
        Ok(Text {
            text: RcStr::from_string(text)?,
        })
    }

    /// The same text, with one owner more: it is not copied. Fails where there are as many owners
    /// as can be counted.
    pub fn share(&self) -> Result<Text, AllocError>
        ensures { IfOk result (λ t. t ≡ self.now) }
    {
        Ok(Text {
            text: self.text.clone()?,
        })
    }

    /// The text.
    pub fn as_str(&self) -> &str
        ensures { result.now ≡ self.now }
    {
        self.text.as_str()
    }

    /// Its bytes.
    pub fn as_bytes(&self) -> &[u8]
        ensures { result.now ≡ self.now }
    {
        self.as_str().as_bytes()
    }
}

impl ByteString {
    ghost use Rattle.std.specs.Prelude.{◌≡◌, IfOk};

    /// These bytes, which aren't copied; fails for want of memory alone.
    pub fn of(bytes: Vec<u8>) -> Result<ByteString, AllocError>
        ensures { IfOk result (λ b. b ≡ bytes.items) }
    {
        Ok(ByteString {
            bytes: RcSlice::from_vec(bytes)?,
        })
    }

    /// The same bytes, with one owner more: they are not copied. Fails where there are as many
    /// owners as can be counted.
    pub fn share(&self) -> Result<ByteString, AllocError>
        ensures { IfOk result (λ b. b ≡ self.now) }
    {
        Ok(ByteString {
            bytes: self.bytes.clone()?,
        })
    }

    /// Its bytes.
    pub fn as_slice(&self) -> &[u8]
        ensures { result.now ≡ self.now }
    {
        self.bytes.as_slice()
    }
}

impl Bytes {
    ghost use Rattle.std.specs.Prelude.{◌≡◌};

    /// These bytes. Takes no memory.
    pub fn of(bytes: Vec<u8>) -> Bytes
        ensures { result ≡ bytes.items }
    {
        Bytes { bytes }
    }

    /// The bytes as a vector. Takes no memory.
    pub fn into_vec(self) -> Vec<u8>
        ensures { result.items ≡ self }
    {
        let Bytes { bytes } = self;
        bytes
    }

    /// The allocator that it grows by.
    pub fn allocator(&self) -> Global {
        *self.bytes.allocator()
    }

    /// Its bytes.
    pub fn as_slice(&self) -> &[u8]
        ensures { result.now ≡ self.now }
    {
        self.bytes.as_slice()
    }
}
