//! How a lock ends for good, without memory.
ghost use Rattle.std.specs.Prelude.{◌≡◌, ◌<◌, length, slice_set, slice_index_or};
ghost use Rattle.jpa_work.specs.context.Work.{unlocked};
ghost use Rattle.jpa_work.specs.declared.context.Entry.{Entry};

use crate::context::{Entry, Lock};
use crate::undo::UndoList;
use jpa_value::Key;
use std::alloc::Global;

/// An entry that holds the place of another while that changes. Takes no memory.
fn no_entry(alloc: Global) -> Entry {
    Entry {
        object: 0,
        key: Key::new(alloc),
        lock: Lock::Unlocked,
        base: None,
    }
}

/// The lock of the entry at a place ends, for good. Takes no memory.
pub(super) fn unlock_at(alloc: Global, entries: &mut UndoList<Entry>, place: usize)
    requires { place < length entries.old.now }
    ensures now { (e : Entry) → entries.new.now
        ≡ slice_set entries.old.now place (unlocked (slice_index_or entries.old.now place e)) }
    ensures since { entries.new.since ≡ entries.new.now }
{
    let mut entry = entries.put(place, no_entry(alloc));
    entry.lock = Lock::Unlocked;
    entries.put(place, entry);
}
