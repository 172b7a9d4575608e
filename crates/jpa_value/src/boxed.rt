//! A box that contracts see as what it holds, for trees.
ghost use Rattle.std.specs.Prelude.{◌≡◌, IfOk};

use std::alloc::{AllocError, Global};
use std::marker::Model;

/// A value on the heap, seen by contracts as that value.
#[derive(Drop)]
pub struct Boxed<T> {
    inner: Box<T>,
}

impl<T> Model for Boxed<T> {
    ghost Value = { T };

    ghost coded = { T.code };

    ghost view = { λ b. b.inner.value };
}

impl<T> Boxed<T> {
    /// What it holds.
    pub fn get(&self) -> &T
        ensures { result.now ≡ self.now }
    {
        &self.inner
    }
}

impl<T: Drop> Boxed<T> {
    /// A box that holds this value; fails for want of memory alone.
    pub fn new(alloc: Global, value: T) -> Result<Boxed<T>, AllocError>
        ensures { IfOk result (λ b. b ≡ value) }
    {
        Ok(Boxed {
            inner: Box::new(alloc, value)?,
        })
    }
}
