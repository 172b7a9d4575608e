//! Marks at the end of a commit.
ghost use Rattle.std.specs.Prelude.{◌≡◌, ◌↔◌, ◌<◌, ◌||◌, ℕ, true, All, length, slice_index_or, IfOk, OnOk};
ghost use Rattle.jpa_work.specs.context.Marks.{is_marked};
ghost use Rattle.jpa_work.specs.context.Undo.{now};
ghost use Rattle.jpa_operations.specs.fetch.Grown.{IsReady};
ghost use Rattle.jpa_flush.specs.flush.Marked as marked;
ghost use Rattle.jpa_flush.specs.marking.Committed as committed;
ghost use Rattle.jpa_flush.specs.marking.Shared.{ended};

use crate::flush::{Looked, is_calm_unlocked, is_linked};
use jpa_cascade::state_of;
use jpa_model::Metamodel;
use jpa_value::Cause;
use jpa_work::context::{EntityState, Entry, Marks, UnitOfWork};
use std::alloc::Global;

/// Whether a commit leaves nothing of an entry at which a flush has to look: its object leaves, or
/// once unlocked it is calm and linked. Fails for want of memory alone.
fn is_over(metamodel: &Metamodel, work: &UnitOfWork, entry: &Entry) -> Result<bool, Cause>
    requires ready { IsReady metamodel.now (now work.now) }
    requires object { entry.now.object < length work.now.objects.now }
    ensures { IfOk result (λ over. (over ≡ true)
        ↔ committed.IsOver metamodel.now (now work.now) entry.now) }
{
    if matches!(state_of(work, entry.object), EntityState::Removed) {
        return Ok(true);
    }
    if !is_calm_unlocked(metamodel, work, entry)? {
        return Ok(false);
    }
    Ok(is_linked(metamodel, work, entry.object))
}

/// Marks the object of the entry at a place, unless a commit leaves nothing of it to look at.
fn mark_at(
    metamodel: &Metamodel,
    work: &UnitOfWork,
    place: usize,
    marks: &mut Marks,
) -> Result<(), Cause>
    requires ready { IsReady metamodel.now (now work.now) }
    requires within { place < length work.now.context.now }
    ensures seen { OnOk result (committed.IsSeenAt metamodel.now (now work.now) marks.new
        place) }
    ensures more { OnOk result (committed.MarksMore marks.old marks.new) }
    ensures called { OnOk result (committed.AreCalledFor metamodel.now (now work.now) marks.old
        → committed.AreCalledFor metamodel.now (now work.now) marks.new) }
{
    let entry = &work.context.as_slice()[place];
    if is_over(metamodel, work, entry)? {
        return Ok(());
    }
    marks.add(entry.object)?;
    Ok(())
}

/// Marks the objects of the entries at some places, as `mark_at`.
fn mark_places(
    metamodel: &Metamodel,
    work: &UnitOfWork,
    places: &[usize],
    marks: &mut Marks,
) -> Result<(), Cause>
    requires ready { IsReady metamodel.now (now work.now) }
    requires within { (i : ℕ) → i < length places.now
        → slice_index_or places.now i 0 < length work.now.context.now }
    ensures seen { OnOk result (All (committed.IsSeenAt metamodel.now (now work.now) marks.new)
        places.now) }
    ensures called { OnOk result (committed.AreCalledFor metamodel.now (now work.now) marks.old
        → committed.AreCalledFor metamodel.now (now work.now) marks.new) }
{
    for place in places {
        mark_at(metamodel, work, *place, marks)?;
    }
    Ok(())
}

/// Whether an object is marked, isn't managed, or is linked. Takes no memory.
fn is_linked_unless_marked(
    metamodel: &Metamodel,
    work: &UnitOfWork,
    marks: &Marks,
    object: usize,
) -> bool
    requires ready { IsReady metamodel.now (now work.now) }
    requires object { object < length work.now.objects.now }
    ensures { result ≡ (is_marked marks.now object
        || marked.is_linked_if_managed metamodel.now (now work.now) object) }
{
    if marks.has(object) {
        return true;
    }
    if !matches!(state_of(work, object), EntityState::Managed) {
        return true;
    }
    is_linked(metamodel, work, object)
}

/// Whether each object of a context is. Takes no memory.
fn are_linked(metamodel: &Metamodel, work: &UnitOfWork, marks: &Marks) -> bool
    requires ready { IsReady metamodel.now (now work.now) }
    ensures { result ≡ committed.are_linked_unless_marked metamodel.now (now work.now)
        marks.now }
{
    let entries = work.context.as_slice();
    for entry in entries {
        if !is_linked_unless_marked(metamodel, work, marks, entry.object) {
            return false;
        }
    }
    true
}

/// Whether each managed object without a mark is linked, where that may be known of those that
/// nobody looked at.
fn are_linked_left(metamodel: &Metamodel, work: &UnitOfWork, linked: bool, marks: &Marks) -> bool
    requires ready { IsReady metamodel.now (now work.now) }
    ensures { result ≡ (linked
        || committed.are_linked_unless_marked metamodel.now (now work.now) marks.now) }
{
    linked || are_linked(metamodel, work, marks)
}

/// Marks what a commit leaves to look at.
fn mark_left(
    metamodel: &Metamodel,
    work: &UnitOfWork,
    looked: &Looked,
    marks: &mut Marks,
) -> Result<(), Cause>
    requires ready { IsReady metamodel.now (now work.now) }
    requires looked { marked.AreLooked (marked.IsUntouched metamodel.now (now work.now)
        looked.now.linked) work.now.context.now looked.now.places }
    ensures marked { OnOk result (marked.AreMarked metamodel.now (ended (now work.now))
        marks.new) }
    ensures called { OnOk result (committed.AreCalledFor metamodel.now (now work.now) marks.old
        → committed.AreCalledFor metamodel.now (now work.now) marks.new) }
{
    mark_places(metamodel, work, looked.places.as_slice(), marks)?;
    let linked = are_linked_left(metamodel, work, looked.linked, marks);
    marks.link(linked);
    Ok(())
}

/// The marks that a commit leaves; for want of memory each object is marked.
fn marks_left(alloc: Global, metamodel: &Metamodel, work: &UnitOfWork, looked: &Looked) -> Marks
    requires ready { IsReady metamodel.now (now work.now) }
    requires looked { marked.AreLooked (marked.IsUntouched metamodel.now (now work.now)
        looked.now.linked) work.now.context.now looked.now.places }
    ensures marked { marked.AreMarked metamodel.now (ended (now work.now)) result }
    ensures left { committed.LeavesNoMark metamodel.now (now work.now) result }
{
    let mut marks = Marks::none(alloc);
    match mark_left(metamodel, work, looked, &mut marks) {
        Ok(()) => marks,
        Err(_) => Marks::all(alloc),
    }
}

/// Marks, at the end of a commit and before its removed objects leave and its locks end, what the
/// next flush has to look at (Jakarta Persistence 3.1, chapter 3.2.4). Of the entries at other
/// places than those looked at it is known what a flush need not look at. It takes no memory that a
/// caller would see refused: where there is none, each object is marked. Else what was written, and
/// is as the store has it, has no mark.
pub fn mark_committed(alloc: Global, metamodel: &Metamodel, work: &mut UnitOfWork, looked: &Looked)
    requires ready { IsReady metamodel.now (now work.old) }
    requires looked { marked.AreLooked (marked.IsUntouched metamodel.now (now work.old)
        looked.now.linked) work.old.context.now looked.now.places }
    ensures others { work.new ≡ record work.old {
      context = record work.old.context {
        marks = work.new.context.marks;
      };
    } }
    ensures marked { marked.AreMarked metamodel.now (ended (now work.new))
        work.new.context.marks }
    ensures left { committed.LeavesNoMark metamodel.now (now work.old) work.new.context.marks }
{
    let marks = marks_left(alloc, metamodel, work, looked);
    work.context.mark(marks);
}
