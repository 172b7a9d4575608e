//! Places of entries by their objects.
ghost use Rattle.std.specs.Prelude.{◌≡◌, ℕ, None, OnOk, OnErr};
ghost use Rattle.jpa_work.specs.context.Indexed as indexed;

use std::alloc::{AllocError, Global};
use std::collections::HashMap;

/// For each object that has one, the place of an entry.
#[derive(Drop)]
pub struct ObjectPlaces {
    places: HashMap<usize, usize>,
}

impl ObjectPlaces {
    /// No places. Takes no memory.
    pub fn new(alloc: Global) -> ObjectPlaces
        ensures { (n : ℕ) → indexed.place_in result n ≡ None }
    {
        ObjectPlaces {
            places: HashMap::new(alloc),
        }
    }

    /// The place of an object's entry. Takes no memory.
    pub fn get(&self, object: usize) -> Option<usize>
        ensures { result ≡ indexed.place_in self.now object }
    {
        self.places.get(&object).copied()
    }

    /// Whether an object has a place. Takes no memory.
    pub fn has(&self, object: usize) -> bool
        ensures { result ≡ indexed.has_place self.now object }
    {
        self.places.contains_key(&object)
    }

    /// Gives an object a place, where it has none. For want of memory nothing changes.
    pub fn note(&mut self, object: usize, place: usize) -> Result<(), AllocError>
        ensures noted { OnOk result (indexed.Notes object place self.old self.new) }
        ensures refused { OnErr result ((n : ℕ) → indexed.place_in self.new n
            ≡ indexed.place_in self.old n) }
    {
        if !self.has(object) {
            self.places.insert(object, place)?;
        }
        Ok(())
    }

    /// Without an object's place, where it is this one. Takes no memory.
    pub fn drop_place(&mut self, object: usize, place: usize)
        ensures { indexed.DropsPlace object place self.old self.new }
    {
        if self.get(object) == Some(place) {
            self.places.remove(&object);
        }
    }

    /// Gives an object that has a place this one. Takes no memory.
    pub fn move_to(&mut self, object: usize, place: usize)
        ensures { indexed.Moves object place self.old self.new }
    {
        if let Some(old) = self.places.get_mut(&object) {
            *old = place;
        }
    }

    /// Without an object's place. Takes no memory.
    pub fn forget(&mut self, object: usize)
        ensures { indexed.Forgets object self.old self.new }
    {
        self.places.remove(&object);
    }
}
