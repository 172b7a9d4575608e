//! How entries leave a context for good, without memory: the objects that leave lose their places
//! first, then the entries without a place go, and the others get new places.
ghost use Rattle.std.specs.Prelude.{◌≡◌, length};
ghost use Rattle.std.specs.List.{list_any};
ghost use Rattle.jpa_work.specs.context.Indexed as indexed;
ghost use Rattle.jpa_work.specs.context.Places as places;

use crate::context::Entry;
use crate::context::fingerprint::fingerprint;
use crate::context::index::PlaceIndex;
use crate::context::object_places::ObjectPlaces;
use crate::heap::{Life, LiveObject};
use crate::undo::UndoList;

/// Takes the places of some objects.
pub(super) fn forget_objects(at: &mut ObjectPlaces, objects: &[usize])
    ensures { indexed.Loses (places.is_among objects.now) at.old at.new }
{
    for object in objects {
        at.forget(*object);
    }
}

/// Whether an object is removed for a manager.
fn is_gone(objects: &[LiveObject], object: usize, manager: usize) -> bool
    ensures { result ≡ places.is_gone objects.now manager object }
{
    match objects.get(object) {
        Some(live) => match live.life {
            Life::Removed(holder) => holder == manager,
            _ => false,
        },
        None => false,
    }
}

/// Whether the object of some entry is removed for a manager.
pub(super) fn any_removed(entries: &[Entry], objects: &[LiveObject], manager: usize) -> bool
    ensures { result ≡ list_any (λ e. places.is_gone objects.now manager e.object) entries.now }
{
    entries
        .iter()
        .any(|entry| is_gone(objects, entry.object, manager))
}

/// Takes the places of the entries' objects that are removed for a manager.
pub(super) fn forget_removed(
    at: &mut ObjectPlaces,
    entries: &[Entry],
    objects: &[LiveObject],
    manager: usize,
)
    ensures { indexed.Loses (places.has_gone objects.now manager entries.now) at.old at.new }
{
    for entry in entries {
        if is_gone(objects, entry.object, manager) {
            at.forget(entry.object);
        }
    }
}

/// Takes the objects without a place out of an index of entries.
fn thin(index: &mut PlaceIndex, entries: &[Entry], at: &ObjectPlaces)
    requires { indexed.IsOf entries.now index.old }
    ensures { indexed.IsOf (indexed.with_places at.now entries.now) index.new }
{
    for entry in entries {
        if !at.has(entry.object) {
            index.keep_placed(fingerprint(entry.key.as_slice()), at);
        }
    }
}

/// Gives each object that has a place the place of its first entry among these, if it has one
/// there.
fn renumber(at: &mut ObjectPlaces, entries: &[Entry])
    ensures { indexed.Renumbers entries.now at.old at.new }
{
    for i in (0..entries.len()).rev() {
        at.move_to(entries[i].object, i);
    }
}

/// Takes the entries whose objects have no place out of a list, for good.
fn retain_placed(list: &mut UndoList<Entry>, at: &ObjectPlaces)
    ensures now { list.new.now ≡ indexed.with_places at.now list.old.now }
    ensures since { list.new.since ≡ list.new.now }
{
    list.retain(|entry| at.has(entry.object));
}

/// Takes the entries whose objects have no place out of a list and an index of them, for good, and
/// gives the others' objects their new places. Answers how many there are then.
pub(super) fn drop_unplaced(
    list: &mut UndoList<Entry>,
    index: &mut PlaceIndex,
    at: &mut ObjectPlaces,
) -> usize
    requires all { indexed.IsOf list.old.now index.old }
    requires placed { indexed.WereAt list.old.now at.old }
    ensures now { list.new.now ≡ indexed.with_places at.old list.old.now }
    ensures since { list.new.since ≡ list.new.now }
    ensures all { indexed.IsOf list.new.now index.new }
    ensures placed { indexed.IsAt list.new.now at.new }
    ensures len { result ≡ length list.new.now }
{
    thin(index, list.as_slice(), at);
    retain_placed(list, at);
    renumber(at, list.as_slice());
    list.len()
}
