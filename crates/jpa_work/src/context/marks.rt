//! Marks of a context.
ghost use Rattle.std.specs.Prelude.{◌≡◌, OnOk, OnErr};
ghost use Rattle.jpa_work.specs.context.Marks as marks;

use std::alloc::{AllocError, Global};
use std::collections::{BTreeSet, btree_set};
use std::marker::Model;

/// Which objects of a context a flush looks at (Jakarta Persistence 3.1, chapter 3.2.4): each, or
/// these, by their places in the heap.
#[derive(Drop)]
pub struct Marks {
    all: bool,
    // What the others lead to is managed, or stored where no cascade persists it.
    linked: bool,
    objects: BTreeSet<usize>,
}

impl Model for Marks {
    ghost use Rattle.jpa_work.specs.context.Marks as marks;

    ghost Value = { marks.Marks };

    ghost view = { λ k. record { all = k.all; linked = k.linked; objects = k.objects.keys } };
}

impl Marks {
    /// Each object is marked, and where they lead is not known. Takes no memory.
    pub fn all(alloc: Global) -> Marks
        ensures { result ≡ marks.all_marked }
    {
        Marks {
            all: true,
            linked: false,
            objects: BTreeSet::new(alloc),
        }
    }

    /// No object is marked. Takes no memory.
    pub fn none(alloc: Global) -> Marks
        ensures { result ≡ marks.none_marked }
    {
        Marks {
            all: false,
            linked: true,
            objects: BTreeSet::new(alloc),
        }
    }

    /// Whether each object is marked.
    pub fn are_all(&self) -> bool
        ensures { result ≡ self.now.all }
    {
        self.all
    }

    /// Whether what the objects without a mark lead to is managed, or stored where no cascade
    /// persists it.
    pub fn are_linked(&self) -> bool
        ensures { result ≡ self.now.linked }
    {
        self.linked
    }

    /// Whether an object is marked. Takes no memory.
    pub fn has(&self, object: usize) -> bool
        ensures { result ≡ marks.is_marked self.now object }
    {
        self.all || self.objects.contains(&object)
    }

    /// The marked objects, where not each is, by their places in the heap.
    pub fn objects(&self) -> btree_set::Iter<'_, usize>
        ensures { result ≡ self.now.objects }
    {
        self.objects.iter()
    }

    /// It is known of the objects without a mark whether what they lead to is managed, or stored
    /// where no cascade persists it.
    pub fn link(&mut self, linked: bool)
        ensures { self.new ≡ record self.old { linked = linked } }
    {
        self.linked = linked;
    }

    /// Marks an object. For want of memory nothing changes.
    pub fn add(&mut self, object: usize) -> Result<(), AllocError>
        ensures added { OnOk result (marks.Marked object self.old self.new) }
        ensures refused { OnErr result (self.new ≡ self.old) }
    {
        self.objects.insert(object)?;
        Ok(())
    }

    /// An object is not marked any more, unless each is. Takes no memory.
    pub fn remove(&mut self, object: usize)
        ensures { marks.Unmarked object self.old self.new }
    {
        self.objects.remove(&object);
    }
}
