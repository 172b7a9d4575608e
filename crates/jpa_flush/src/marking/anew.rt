//! Marks made anew at the end of a call that was accepted.
ghost use Rattle.std.specs.Prelude.{◌≡◌, true, IfOk};
ghost use Rattle.jpa_work.specs.context.Undo.{now};
ghost use Rattle.jpa_operations.specs.fetch.Grown.{IsReady};
ghost use Rattle.jpa_flush.specs.flush.Marked as marked;
ghost use Rattle.jpa_flush.specs.marking.Anew as anew;

use crate::flush::{keep_links, keep_names};
use crate::marking::looking::look_at_touched;
use jpa_model::Metamodel;
use jpa_value::Cause;
use jpa_work::context::{Marks, UnitOfWork};
use std::alloc::Global;

/// Whether the objects without a mark were linked, and what might be led to then may be led to
/// still.
fn are_linked_still(work: &UnitOfWork, marks: &Marks) -> bool
    ensures linked { result ≡ true → marks.now.linked ≡ true }
    ensures leads { result ≡ true → marked.LeadsStill (marked.before work.now) (now work.now) }
{
    marks.are_linked() && keep_links(work)
}

/// Makes marks that say of the work as it is what they said of the work as it was last kept.
/// Answers false where each object is marked, or where more may have changed than the objects that
/// were overwritten. Fails for want of memory alone.
fn renew(metamodel: &Metamodel, work: &UnitOfWork, marks: &mut Marks) -> Result<bool, Cause>
    requires ready { IsReady metamodel.now (now work.now) }
    requires marked { marked.AreMarked metamodel.now (marked.before work.now) marks.old }
    ensures marked { IfOk result (λ renewed. renewed ≡ true
        → marked.AreMarked metamodel.now (now work.now) marks.new) }
    ensures taken { IfOk result (λ renewed. renewed ≡ true
        → anew.TakesMarksAway metamodel.now work.now marks.new) }
{
    if marks.are_all() {
        return Ok(false);
    }
    if !keep_names(work) {
        return Ok(false);
    }
    let linked = are_linked_still(work, marks);
    marks.link(linked);
    look_at_touched(metamodel, work, marks)?;
    Ok(true)
}

/// The marks of the work as it is, from those of the work as it was last kept; each object is
/// marked where that isn't known.
fn marks_anew(alloc: Global, metamodel: &Metamodel, work: &UnitOfWork, marks: Marks) -> Marks
    requires ready { IsReady metamodel.now (now work.now) }
    requires marked { marked.AreMarked metamodel.now (marked.before work.now) marks }
    ensures marked { marked.AreMarked metamodel.now (now work.now) result }
    ensures taken { anew.TakesMarksAway metamodel.now work.now result }
{
    let mut marks = marks;
    match renew(metamodel, work, &mut marks) {
        Ok(true) => marks,
        _ => Marks::all(alloc),
    }
}

/// Marks, at the end of a call that was accepted and before its changes are kept, what the next
/// flush has to look at (Jakarta Persistence 3.1, chapter 3.2.4). It compares what the call
/// touched, and nothing else, with its bases. It takes no memory that a caller would see refused:
/// where there is none, each object is marked. Else what was touched has a mark just where the next
/// flush has to look at it: one that a refresh brought back to what is stored has none.
pub fn mark_anew(alloc: Global, metamodel: &Metamodel, work: &mut UnitOfWork)
    requires ready { IsReady metamodel.now (now work.old) }
    requires marked { marked.AreMarkedBefore metamodel.now work.old }
    ensures others { work.new ≡ record work.old {
      context = record work.old.context {
        marks = work.new.context.marks;
      };
    } }
    ensures marked { marked.AreMarked metamodel.now (now work.new) work.new.context.marks }
    ensures taken { anew.TakesMarksAway metamodel.now work.old work.new.context.marks }
{
    let marks = work.context.take_marks(alloc);
    let anew = marks_anew(alloc, metamodel, work, marks);
    work.context.mark(anew);
}
