//! A finite map from identities to stored objects.
ghost use Rattle.std.specs.Prelude.{◌≡◌, ◌↔◌, T, [], ◌∷◌, length, is_some, OnOk, IfOk, IfErr, OnErr, IsTrue};
ghost use Rattle.std.specs.Option.{option_copied};
ghost use Rattle.std.specs.FinMap.Entries.{is_sorted};
ghost use Rattle.jpa_value.specs.declared.refusal.Cause.{Cause};
ghost use Rattle.jpa_value.specs.Value.{identity_cmp};
ghost use Rattle.jpa_stored.specs.objects.Sets.{stored_at, with_stored, without};
ghost use Rattle.jpa_stored.specs.objects.Places.{IsAt, IsGap};

use crate::objects::stored::Stored;
use jpa_value::{Boxed, Cause, Identity, TryCopy, order_identities};
use std::alloc::Global;
use std::cmp::Ordering;
use std::marker::Model;

/// A finite map from identities to stored objects, seen by contracts as its entries in rising order
/// of the identities: the database as the operations see it (chapter 3).
///
/// With n entries a look-up takes O(log n) comparisons. A change takes as many, and moves at most n
/// pointers: none where the identity is above all others, so that a set is built in rising order at
/// O(log n) for each object.
#[derive(Drop)]
pub struct StoredSet {
    entries: Vec<Boxed<(Identity, Stored)>>,
}

impl Model for StoredSet {
    ghost use Rattle.std.specs.Prelude.{List, T};
    ghost use Rattle.std.specs.FinMap.Entries.{is_sorted};
    ghost use Rattle.jpa_value.specs.declared.value.Identity.{Identity};
    ghost use Rattle.jpa_value.specs.Value.{identity_cmp};
    ghost use Rattle.jpa_stored.specs.declared.objects.stored.Stored.{Stored};

    ghost Value = { List (Identity × Stored) };

    ghost view = { λ s. s.entries.items };

    ghost invariant = { λ s. T (is_sorted identity_cmp s.entries.items) };
}

impl StoredSet {
    /// A set of no objects. Takes no memory.
    pub fn new(alloc: Global) -> StoredSet
        ensures { result ≡ [] }
    {
        StoredSet {
            entries: Vec::new(alloc),
        }
    }

    /// How many objects it has.
    pub fn len(&self) -> usize
        ensures { result ≡ length self.now }
    {
        self.entries.len()
    }

    /// Whether it has no object.
    pub fn is_empty(&self) -> bool
        ensures { IsTrue result ↔ (self.now ≡ []) }
    {
        self.entries.is_empty()
    }

    /// The allocator that it grows by.
    pub fn allocator(&self) -> Global {
        *self.entries.allocator()
    }

    /// The objects with their identities, in rising order of the identities.
    pub fn entries(&self) -> &[Boxed<(Identity, Stored)>]
        ensures all { result.now ≡ self.now }
        ensures rising { T (is_sorted identity_cmp self.now) }
    {
        self.entries.as_slice()
    }

    /// The object under an identity, if one stands there.
    pub fn get(&self, id: &Identity) -> Option<&Stored>
        ensures { option_copied result ≡ stored_at self.now id.now }
    {
        match self.search(id) {
            Ok(at) => Some(&self.entries[at].get().1),
            Err(_) => None,
        }
    }

    /// Puts an object under an identity, in place of the one that stood there, if any. For want of
    /// memory, which is `OutOfMemory` and the only refusal, the set stays as it was.
    pub fn put(&mut self, id: Identity, object: Stored) -> Result<(), Cause>
        ensures ok { OnOk result (self.new ≡ with_stored id object self.old) }
        ensures unchanged { OnErr result (self.new ≡ self.old) }
        ensures err { IfErr result (λ cause. cause ≡ Cause.OutOfMemory) }
    {
        let place = self.search(&id);
        let entry = Boxed::new(self.allocator(), (id, object))?;
        match place {
            Ok(at) => self.entries[at] = entry,
            Err(at) => self.entries.insert(at, entry)?,
        }
        Ok(())
    }

    /// Takes out the object under an identity; whether one stood there.
    pub fn remove(&mut self, id: &Identity) -> bool
        ensures now { self.new ≡ without (id.now ∷ []) self.old }
        ensures was { result ≡ is_some (stored_at self.old id.now) }
    {
        match self.search(id) {
            Ok(at) => {
                self.entries.remove(at);
                true
            }
            Err(_) => false,
        }
    }

    /// Where the identity stands, or where it would stand.
    fn search(&self, id: &Identity) -> Result<usize, usize>
        ensures found { IfOk result (IsAt identity_cmp self.now id.now) }
        ensures absent { IfErr result (IsGap identity_cmp self.now id.now) }
    {
        place_of(&self.entries, id)
    }

    /// The entries, in rising order of the identities. Takes no memory.
    pub fn into_entries(self) -> Vec<Boxed<(Identity, Stored)>>
        ensures all { result.items ≡ self }
        ensures rising { T (is_sorted identity_cmp self) }
    {
        let StoredSet { entries } = self;
        entries
    }
}

/// Where an identity stands among entries in rising order, or where it would stand.
fn place_of(entries: &Vec<Boxed<(Identity, Stored)>>, id: &Identity) -> Result<usize, usize>
    requires { T (is_sorted identity_cmp entries.now.items) }
    ensures found { IfOk result (IsAt identity_cmp entries.now.items id.now) }
    ensures absent { IfErr result (IsGap identity_cmp entries.now.items id.now) }
{
    entries
        .as_slice()
        .binary_search_by(|entry| order_entry(entry, id))
}

/// The order of an entry's identity and another.
fn order_entry(entry: &Boxed<(Identity, Stored)>, id: &Identity) -> Ordering
    ensures { result ≡ identity_cmp entry.now.0 id.now }
{
    order_identities(&entry.get().0, id)
}

impl TryCopy for StoredSet {
    fn try_copy(&self) -> Result<StoredSet, Cause> {
        let mut entries = Vec::new(self.allocator());
        for entry in self.entries.as_slice() {
            let (id, object) = entry.get();
            let copy = (id.try_copy()?, object.try_copy()?);
            entries.push(Boxed::new(self.allocator(), copy)?)?;
        }
        Ok(StoredSet { entries })
    }
}
