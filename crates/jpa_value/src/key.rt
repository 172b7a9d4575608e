//! Primary keys.
ghost use Rattle.std.specs.Prelude.{◌≡◌, ◌<◌, ◌++◌, ◌∷◌, [], length, slice_set, IfOk, IfErr, OnOk, OnErr};
ghost use Rattle.jpa_value.specs.Key.{parts_in};
ghost use Rattle.jpa_value.specs.declared.refusal.Cause.{Cause};

use crate::boxed::Boxed;
use crate::copy::TryCopy;
use crate::list::Seq;
use crate::refusal::Cause;
use crate::value::Value;
use std::alloc::{AllocError, Global};
use std::marker::Model;

/// The parts of a key. Most keys have one, which takes no block of its own.
#[derive(Drop)]
enum Parts {
    None,
    One(Value),
    More(Boxed<Seq<Value>>),
}

/// A primary key: its parts in the order of their declaration, 1 to 4 of them (chapter 2.4).
pub struct Key {
    parts: Parts,
    alloc: Global,
}

// (written out, so that a key is let go by one call, and not by a way for each form of it)
impl Drop for Key {
    fn drop(self) {
        let Key { parts, alloc: _ } = self;
        drop(parts);
    }
}

impl Model for Key {
    ghost use Rattle.std.specs.Prelude.{List};
    ghost use Rattle.jpa_value.specs.Key.{parts_in};
    ghost use Rattle.jpa_value.specs.declared.value.Value as value;

    ghost Value = { List value.Value };

    ghost view = { λ key. parts_in key.parts };
}

/// A copy of these parts, which takes no more room than it needs.
fn listed(alloc: Global, parts: &[Value]) -> Result<Seq<Value>, Cause>
    ensures ok { IfOk result (λ list. list ≡ parts.now) }
    ensures err { IfErr result (λ cause. cause ≡ Cause.OutOfMemory) }
{
    let mut list = Vec::with_capacity(alloc, parts.len())?;
    for part in parts {
        list.push(part.try_copy()?)?;
    }
    Ok(Seq::of(list))
}

/// A key's parts, from a copy of these and one more.
#[tactic(auto, unfolding(crate::specs::Key::parts_in))]
fn followed(alloc: Global, parts: &[Value], last: Value) -> Result<Parts, AllocError>
    ensures { IfOk result (λ all. parts_in all ≡ parts.now ++ last ∷ []) }
{
    match listed(alloc, parts) {
        Ok(list) => {
            let mut all = list;
            all.push(last)?;
            Ok(Parts::More(Boxed::new(alloc, all)?))
        }
        Err(_) => Err(AllocError),
    }
}

impl Key {
    /// No parts. Takes no memory.
    #[tactic(auto, unfolding(crate::specs::Key::parts_in))]
    pub fn new(alloc: Global) -> Key
        ensures { result ≡ [] }
    {
        Key {
            parts: Parts::None,
            alloc,
        }
    }

    /// A copy of these parts; `OutOfMemory` where a growth was refused.
    #[tactic(auto, unfolding(crate::specs::Key::parts_in))]
    pub fn of(alloc: Global, parts: &[Value]) -> Result<Key, Cause>
        ensures ok { IfOk result (λ key. key ≡ parts.now) }
        ensures err { IfErr result (λ cause. cause ≡ Cause.OutOfMemory) }
    {
        let parts = match parts {
            [] => Parts::None,
            [part] => Parts::One(part.try_copy()?),
            parts => Parts::More(Boxed::new(alloc, listed(alloc, parts)?)?),
        };
        Ok(Key { parts, alloc })
    }

    /// The parts.
    #[inline]
    #[tactic(auto, unfolding(crate::specs::Key::parts_in))]
    pub fn as_slice(&self) -> &[Value]
        ensures { result.now ≡ self.now }
    {
        match &self.parts {
            Parts::None => &[],
            Parts::One(part) => std::slice::from_ref(part),
            Parts::More(parts) => parts.get().as_slice(),
        }
    }

    /// How many parts there are.
    pub fn len(&self) -> usize
        ensures { result ≡ length self.now }
    {
        self.as_slice().len()
    }

    /// One more part, at the end. For want of memory the key stays as it was.
    #[tactic(auto, unfolding(crate::specs::Key::parts_in))]
    pub fn push(&mut self, part: Value) -> Result<(), AllocError>
        ensures ok { OnOk result (self.new ≡ self.old ++ part ∷ []) }
        ensures err { OnErr result (self.new ≡ self.old) }
    {
        if matches!(self.parts, Parts::None) {
            self.parts = Parts::One(part);
        } else {
            self.parts = followed(self.alloc, self.as_slice(), part)?;
        }
        Ok(())
    }

    /// Another part at a place, counted from 0. `OutOfMemory` where a growth was refused: then the
    /// key stays as it was.
    pub fn set(&mut self, at: usize, part: Value) -> Result<(), Cause>
        requires { at < length self.old }
        ensures ok { OnOk result (self.new ≡ slice_set self.old at part) }
        ensures err { IfErr result (λ cause. cause ≡ Cause.OutOfMemory) }
        ensures unchanged { OnErr result (self.new ≡ self.old) }
    {
        let mut parts = listed(self.alloc, self.as_slice())?;
        parts.set(at, part);
        *self = Key::of(self.alloc, parts.as_slice())?;
        Ok(())
    }
}

impl TryCopy for Key {
    fn try_copy(&self) -> Result<Key, Cause> {
        Key::of(self.alloc, self.as_slice())
    }
}
