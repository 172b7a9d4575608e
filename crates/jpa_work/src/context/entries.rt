//! The entries of a persistence context, found by key and by object.
ghost use Rattle.std.specs.Prelude.{◌≡◌, ◌<◌, ◌≤◌, [], ◌∷◌, ◌++◌, length, take, slice_index_or, slice_set, OnOk, OnErr};
ghost use Rattle.jpa_work.specs.context.Indexed as indexed;
ghost use Rattle.jpa_work.specs.context.Marks.{all_marked, is_marked, none_marked};
ghost use Rattle.jpa_work.specs.context.Near.{places_near};
ghost use Rattle.jpa_work.specs.context.Places.{StaysAt, entry_place, without_objects, without_removed};
ghost use Rattle.jpa_work.specs.context.Work.{unlocked};
ghost use Rattle.jpa_work.specs.declared.context.Entry.{Entry};
ghost use Rattle.jpa_work.specs.undo.Undo.{put_back};

use crate::context::Entry;
use crate::context::fingerprint::fingerprint;
use crate::context::index::PlaceIndex;
use crate::context::leaving::{any_removed, drop_unplaced, forget_objects, forget_removed};
use crate::context::marks::Marks;
use crate::context::object_places::ObjectPlaces;
use crate::context::unlocking::unlock_at;
use crate::heap::LiveObject;
use crate::undo::UndoList;
use jpa_value::Value;
use std::alloc::{AllocError, Global};
use std::marker::Model;
use std::mem;

/// The entries of a context in the order in which they entered, with an index by key and one by
/// object. Changes can be undone; entries that leave, leave for good.
///
/// Contracts see it as they see an `UndoList`: `now`, the entries, and `since`, what undoing gives.
#[derive(Drop)]
pub struct PersistenceContext {
    list: UndoList<Entry>,
    // How many entries there were when the changes were last kept.
    kept: usize,
    // The places of the objects of `list`, each under the fingerprint of its entry's key.
    index: PlaceIndex,
    // The place of the first entry of each object of `list`.
    at: ObjectPlaces,
    // What a flush looks at.
    marks: Marks,
}

impl Model for PersistenceContext {
    ghost use Rattle.jpa_work.specs.context.Marks.{Entries};

    ghost Value = { Entries };

    ghost use Rattle.jpa_work.specs.context.Indexed.{IsIndexed};

    ghost view = { λ c. record { now = c.list.now; since = c.list.since; marks = c.marks } };

    ghost invariant = { λ c. IsIndexed c.list c.kept c.index c.at };
}

/// Takes the entries behind the first `kept` out of the indexes. Takes no memory, and time for
/// these alone.
fn forget(index: &mut PlaceIndex, at: &mut ObjectPlaces, entries: &[Entry], kept: usize)
    requires within { kept ≤ length entries.now }
    requires all { indexed.IsOf entries.now index.old }
    requires placed { indexed.IsAt entries.now at.old }
    ensures all { indexed.IsOf (take kept entries.now) index.new }
    ensures placed { indexed.IsAt (take kept entries.now) at.new }
{
    for i in (kept..entries.len()).rev() {
        let entry = &entries[i];
        index.drop_last(fingerprint(entry.key.as_slice()));
        at.drop_place(entry.object, i);
    }
}

impl PersistenceContext {
    /// No entries, of which none is marked. Takes no memory.
    pub fn new(alloc: Global) -> PersistenceContext
        ensures now { result.now ≡ [] }
        ensures since { result.since ≡ [] }
        ensures marks { result.marks ≡ none_marked }
    {
        PersistenceContext {
            list: UndoList::new(alloc),
            kept: 0,
            index: PlaceIndex::new(alloc),
            at: ObjectPlaces::new(alloc),
            marks: Marks::none(alloc),
        }
    }

    /// The marks.
    pub fn marks(&self) -> &Marks
        ensures { result.now ≡ self.now.marks }
    {
        &self.marks
    }

    /// Whether an object is marked: a flush looks at it. Takes no memory.
    pub fn marked(&self, object: usize) -> bool
        ensures { result ≡ is_marked self.now.marks object }
    {
        self.marks.has(object)
    }

    /// Other marks, for good. Takes no memory.
    pub fn mark(&mut self, marks: Marks)
        ensures now { self.new.now ≡ self.old.now }
        ensures since { self.new.since ≡ self.old.since }
        ensures marks { self.new.marks ≡ marks }
    {
        self.marks = marks;
    }

    /// Takes the marks, for good; each object is marked then. Takes no memory.
    pub fn take_marks(&mut self, alloc: Global) -> Marks
        ensures taken { result ≡ self.old.marks }
        ensures now { self.new.now ≡ self.old.now }
        ensures since { self.new.since ≡ self.old.since }
        ensures marks { self.new.marks ≡ all_marked }
    {
        mem::replace(&mut self.marks, Marks::all(alloc))
    }

    /// What was overwritten since the changes were last kept, each entry with its place. Takes no
    /// memory.
    pub fn overwritten(&self) -> &[(usize, Entry)]
        ensures back { self.now.since
            ≡ take (length self.now.since) (put_back self.now.now result.now) }
    {
        self.list.overwritten()
    }

    /// How many entries there were when the changes were last kept.
    pub fn kept_len(&self) -> usize
        ensures kept { result ≡ length self.now.since }
        ensures within { result ≤ length self.now.now }
    {
        self.list.kept_len()
    }

    /// The entries, in the order in which they entered.
    pub fn as_slice(&self) -> &[Entry]
        ensures { result.now ≡ self.now.now }
    {
        self.list.as_slice()
    }

    /// How many entries there are.
    pub fn len(&self) -> usize
        ensures { result ≡ length self.now.now }
    {
        self.list.len()
    }

    /// The places of the objects that entered under a key, and perhaps of some under others, in the
    /// order in which they entered. Takes no memory, and looks at no entry.
    pub fn near(&self, key: &[Value]) -> &[usize]
        ensures { result.now ≡ places_near key.now self.now.now }
    {
        self.index.under(fingerprint(key))
    }

    /// The place of an object's entry, counted from 0: of the first, where it has several. Takes no
    /// memory, and looks at no entry.
    pub fn place_of(&self, object: usize) -> Option<usize>
        ensures { result ≡ entry_place object self.now.now }
    {
        self.at.get(object)
    }

    /// One more entry, at the end. For want of memory nothing changes.
    pub fn push(&mut self, entry: Entry) -> Result<(), AllocError>
        ensures pushed { OnOk result (self.new.now ≡ self.old.now ++ entry ∷ []) }
        ensures refused { OnErr result (self.new.now ≡ self.old.now) }
        ensures since { self.new.since ≡ self.old.since }
        ensures marks { self.new.marks ≡ self.old.marks }
    {
        let print = fingerprint(entry.key.as_slice());
        let object = entry.object;
        let place = self.list.len();
        self.index.add(print, object)?;
        if let Err(refused) = self.at.note(object, place) {
            self.index.drop_last(print);
            return Err(refused);
        }
        if let Err(refused) = self.list.push(entry) {
            self.index.drop_last(print);
            self.at.drop_place(object, place);
            return Err(refused);
        }
        Ok(())
    }

    /// Another entry of the same object under the same key at a place, counted from 0. For want of
    /// memory nothing changes.
    pub fn set(&mut self, at: usize, entry: Entry) -> Result<(), AllocError>
        requires at { at < length self.old.now }
        requires same { StaysAt self.old.now at entry }
        ensures changed { OnOk result (self.new.now ≡ slice_set self.old.now at entry) }
        ensures refused { OnErr result (self.new.now ≡ self.old.now) }
        ensures since { self.new.since ≡ self.old.since }
        ensures marks { self.new.marks ≡ self.old.marks }
    {
        self.list.set(at, entry)
    }

    /// Keeps the changes: from now on they are what undoing leads back to. Takes no memory.
    pub fn keep(&mut self)
        ensures now { self.new.now ≡ self.old.now }
        ensures since { self.new.since ≡ self.old.now }
        ensures marks { self.new.marks ≡ self.old.marks }
    {
        self.list.keep();
        self.kept = self.list.len();
    }

    /// Undoes every change since they were last kept. Takes no memory, and time for what was
    /// changed alone.
    pub fn undo(&mut self)
        ensures now { self.new.now ≡ self.old.since }
        ensures since { self.new.since ≡ self.old.since }
        ensures marks { self.new.marks ≡ self.old.marks }
    {
        let entries = self.list.as_slice();
        forget(&mut self.index, &mut self.at, entries, self.kept);
        self.list.undo();
    }

    /// The entries of these objects leave for good: neither that nor a change before it can be
    /// undone. The others stand in their order, and all are marked. Takes no memory, and time for
    /// each entry.
    pub fn leave(&mut self, alloc: Global, objects: &[usize])
        ensures now { self.new.now ≡ without_objects objects.now self.old.now }
        ensures since { self.new.since ≡ self.new.now }
        ensures marks { self.new.marks ≡ all_marked }
    {
        self.marks = Marks::all(alloc);
        forget_objects(&mut self.at, objects);
        self.kept = drop_unplaced(&mut self.list, &mut self.index, &mut self.at);
    }

    /// The entries of the objects that are removed for a manager leave for good, as at the end of a
    /// commit: neither that nor a change before it can be undone. The others stand in their order.
    /// Takes no memory, and time for each entry.
    pub fn leave_removed(&mut self, objects: &[LiveObject], manager: usize)
        ensures now { self.new.now ≡ without_removed objects.now manager self.old.now }
        ensures since { self.new.since ≡ self.new.now }
        ensures marks { self.new.marks ≡ self.old.marks }
    {
        // (mostly none is)
        if !any_removed(self.list.as_slice(), objects, manager) {
            self.keep();
            return;
        }
        forget_removed(&mut self.at, self.list.as_slice(), objects, manager);
        self.kept = drop_unplaced(&mut self.list, &mut self.index, &mut self.at);
    }

    /// The lock of the entry at a place ends, as at the end of a commit, for good: neither that nor
    /// a change before it can be undone. Takes no memory, and looks at no other entry.
    pub fn unlock_at(&mut self, alloc: Global, place: usize)
        requires { place < length self.old.now }
        ensures now { (e : Entry) → self.new.now
            ≡ slice_set self.old.now place (unlocked (slice_index_or self.old.now place e)) }
        ensures since { self.new.since ≡ self.new.now }
        ensures marks { self.new.marks ≡ self.old.marks }
    {
        unlock_at(alloc, &mut self.list, place);
        self.kept = self.list.len();
    }

    /// All entries leave for good, and no mark is left. Takes no memory.
    pub fn clear(&mut self, alloc: Global)
        ensures now { self.new.now ≡ [] }
        ensures since { self.new.since ≡ [] }
        ensures marks { self.new.marks ≡ none_marked }
    {
        *self = PersistenceContext::new(alloc);
    }
}
