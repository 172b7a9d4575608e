//! The list.
ghost use Rattle.std.specs.Prelude.{◌≡◌, ◌<◌, ◌≤◌, [], ◌∷◌, ◌++◌, length, take, slice_get, slice_set, OnOk, OnErr};
ghost use Rattle.jpa_work.specs.undo.Undo.{put_back};
ghost use Rattle.std.specs.Fn.{CalledAt};
ghost use Rattle.std.specs.List.Retain.{IsFiltered};

use std::alloc::{AllocError, Global};
use std::marker::Model;
use std::mem;

/// A list whose changes since they were last kept can be undone.
#[derive(Drop)]
pub struct UndoList<T> {
    items: Vec<T>,
    // How many items there were when the changes were last kept.
    kept: usize,
    // What was overwritten since, with its place, in the order of the changes.
    overwritten: Vec<(usize, T)>,
}

impl<T> Model for UndoList<T> {
    ghost use Rattle.std.specs.Prelude.{◌≤◌, length, take};
    ghost use Rattle.jpa_work.specs.undo.Undo.{Changes, put_back};

    ghost Value = { Changes T };

    ghost view = { λ l. record { now = l.items.items; since = take l.kept (put_back l.items.items l.overwritten.items) } };

    ghost invariant = { λ l. l.kept ≤ length l.items.items };
}

impl<T> UndoList<T> {
    /// No items. Takes no memory.
    pub fn new(alloc: Global) -> UndoList<T>
        ensures now { result.now ≡ [] }
        ensures since { result.since ≡ [] }
    {
        UndoList {
            items: Vec::new(alloc),
            kept: 0,
            overwritten: Vec::new(alloc),
        }
    }

    /// The items.
    pub fn as_slice(&self) -> &[T]
        ensures { result.now ≡ self.now.now }
    {
        self.items.as_slice()
    }

    /// How many items there are.
    pub fn len(&self) -> usize
        ensures { result ≡ length self.now.now }
    {
        self.items.len()
    }

    /// How many items there were when the changes were last kept; those behind them were pushed
    /// since.
    pub fn kept_len(&self) -> usize
        ensures kept { result ≡ length self.now.since }
        ensures within { result ≤ length self.now.now }
    {
        self.kept
    }

    /// What was overwritten since the changes were last kept, each item with its place, in the
    /// order of the changes. Put back, these give the items as they were then. Takes no memory.
    pub fn overwritten(&self) -> &[(usize, T)]
        ensures back { self.now.since
            ≡ take (length self.now.since) (put_back self.now.now result.now) }
    {
        self.overwritten.as_slice()
    }
}

impl<T: Drop> UndoList<T> {
    /// One more item, at the end. For want of memory nothing changes.
    pub fn push(&mut self, item: T) -> Result<(), AllocError>
        ensures pushed { OnOk result (self.new.now ≡ self.old.now ++ item ∷ []) }
        ensures refused { OnErr result (self.new.now ≡ self.old.now) }
        ensures since { self.new.since ≡ self.old.since }
    {
        self.items.push(item)?;
        Ok(())
    }

    /// Another item at a place, counted from 0. For want of memory nothing changes.
    pub fn set(&mut self, at: usize, item: T) -> Result<(), AllocError>
        requires { at < length self.old.now }
        ensures changed { OnOk result (self.new.now ≡ slice_set self.old.now at item) }
        ensures refused { OnErr result (self.new.now ≡ self.old.now) }
        ensures since { self.new.since ≡ self.old.since }
    {
        self.overwritten.try_reserve(1)?;
        let old = mem::replace(&mut self.items[at], item);
        self.overwritten.push((at, old)).unwrap();
        Ok(())
    }

    /// Another item at a place, counted from 0, for good: neither it nor a change before it can be
    /// undone. Answers what stood there. Takes no memory.
    pub fn put(&mut self, at: usize, item: T) -> T
        requires { at < length self.old.now }
        ensures now { self.new.now ≡ slice_set self.old.now at item }
        ensures since { self.new.since ≡ self.new.now }
        ensures old { slice_get self.old.now at ≡ Some result }
    {
        let old = mem::replace(&mut self.items[at], item);
        self.keep();
        old
    }

    /// Without the items at which a test answers false; the others stand in their order. For good:
    /// neither that nor a change before it can be undone. Takes no memory.
    pub fn retain<F: FnMut(&T) -> bool>(&mut self, keep: F)
        requires { F.IsAlwaysCallable keep }
        ensures now { IsFiltered (CalledAt F.FnMut) keep self.old.now self.new.now }
        ensures since { self.new.since ≡ self.new.now }
    {
        self.kept = 0;
        self.items.retain(keep);
        self.keep()
    }

    /// Keeps the changes: from now on they are what undoing leads back to. Takes no memory.
    pub fn keep(&mut self)
        ensures now { self.new.now ≡ self.old.now }
        ensures since { self.new.since ≡ self.old.now }
    {
        self.overwritten.clear();
        self.kept = self.items.len();
    }

    /// Undoes every change since they were last kept. Takes no memory.
    pub fn undo(&mut self)
        ensures now { self.new.now ≡ self.old.since }
        ensures since { self.new.since ≡ self.old.since }
    {
        while let Some((at, old)) = self.overwritten.pop() {
            if at < self.items.len() {
                self.items[at] = old;
            }
        }
        self.items.truncate(self.kept);
    }
}
