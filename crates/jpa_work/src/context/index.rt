//! Places under fingerprints.
ghost use Rattle.std.specs.Prelude.{◌≡◌, ℕ, [], filter, OnOk, OnErr};
ghost use Rattle.jpa_work.specs.context.Indexed as indexed;

use crate::context::object_places::ObjectPlaces;
use std::alloc::{AllocError, Global};
use std::collections::HashMap;

/// Under each fingerprint a list of places.
#[derive(Drop)]
pub struct PlaceIndex {
    places: HashMap<u64, Vec<usize>>,
    alloc: Global,
}

/// Takes the objects that have no place out of a list.
fn retain_placed(objects: &mut Vec<usize>, at: &ObjectPlaces)
    ensures { objects.new.items ≡ filter (indexed.has_place at.now) objects.old.items }
{
    objects.retain(|object| at.has(*object));
}

impl PlaceIndex {
    /// No places. Takes no memory.
    pub fn new(alloc: Global) -> PlaceIndex
        ensures { (print : ℕ) → indexed.under result print ≡ [] }
    {
        PlaceIndex {
            places: HashMap::new(alloc),
            alloc,
        }
    }

    /// What stands under a fingerprint. Takes no memory.
    pub fn under(&self, print: u64) -> &[usize]
        ensures { result.now ≡ indexed.under self.now print }
    {
        match self.places.get(&print) {
            Some(places) => places.as_slice(),
            None => &[],
        }
    }

    /// One more place under a fingerprint, at the end. For want of memory nothing changes.
    pub fn add(&mut self, print: u64, place: usize) -> Result<(), AllocError>
        ensures added { OnOk result (indexed.Adds print place self.old self.new) }
        ensures refused { OnErr result (indexed.IsSame self.old self.new) }
    {
        if let Some(places) = self.places.get_mut(&print) {
            places.push(place)?;
            return Ok(());
        }
        let mut places = Vec::new(self.alloc);
        places.push(place)?;
        self.places.insert(print, places)?;
        Ok(())
    }

    /// Without the last place under a fingerprint. Takes no memory.
    pub fn drop_last(&mut self, print: u64)
        ensures { indexed.DropsLast print self.old self.new }
    {
        if let Some(places) = self.places.get_mut(&print) {
            places.pop();
            // Else the fingerprints of what was undone would stay for ever.
            if places.is_empty() {
                self.places.remove(&print);
            }
        }
    }

    /// Without the objects under a fingerprint that have no place any more. Takes no memory.
    pub fn keep_placed(&mut self, print: u64, at: &ObjectPlaces)
        ensures { indexed.KeepsPlaced print at.now self.old self.new }
    {
        if let Some(places) = self.places.get_mut(&print) {
            retain_placed(places, at);
            if places.is_empty() {
                self.places.remove(&print);
            }
        }
    }
}
