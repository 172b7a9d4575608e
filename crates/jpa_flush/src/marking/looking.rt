//! Looks at the entries that a call may have touched: those that were overwritten, those whose
//! objects were, and those that entered. The rest stands as it did when the changes were last kept,
//! with its objects.
ghost use Rattle.std.specs.Prelude.{◌≡◌, ◌≢◌, ◌↔◌, ◌<◌, true, length, slice_index_or, IfOk, OnOk};
ghost use Rattle.jpa_work.specs.context.Undo.{now};
ghost use Rattle.jpa_work.specs.declared.context.Entry.{Entry};
ghost use Rattle.jpa_operations.specs.fetch.Grown.{IsReady};
ghost use Rattle.jpa_flush.specs.flush.Marked as marked;
ghost use Rattle.jpa_flush.specs.marking.Anew as anew;

use crate::flush::{is_calm, is_linked};
use jpa_model::Metamodel;
use jpa_value::Cause;
use jpa_work::context::{Entry, Marks, UnitOfWork};

/// Whether a flush need not look at an entry, where the objects without a mark are linked or not.
/// Fails for want of memory alone.
fn is_untouched(
    metamodel: &Metamodel,
    work: &UnitOfWork,
    linked: bool,
    entry: &Entry,
) -> Result<bool, Cause>
    requires ready { IsReady metamodel.now (now work.now) }
    requires object { entry.now.object < length work.now.objects.now }
    ensures { IfOk result (λ untouched. (untouched ≡ true)
        ↔ marked.IsUntouched metamodel.now (now work.now) linked entry.now) }
{
    if !is_calm(metamodel, work, entry)? {
        return Ok(false);
    }
    Ok(!linked || is_linked(metamodel, work, entry.object))
}

/// Looks at the entry at a place, if there is one: its object is marked, or not any more, as a
/// flush has to look at it or not. Fails for want of memory alone.
fn look_at(
    metamodel: &Metamodel,
    work: &UnitOfWork,
    place: usize,
    marks: &mut Marks,
) -> Result<(), Cause>
    requires ready { IsReady metamodel.now (now work.now) }
    ensures { OnOk result (anew.IsGoneOver metamodel.now (now work.now) (λ i. i ≢ place)
        marks.old marks.new) }
{
    let Some(entry) = work.context.as_slice().get(place) else {
        return Ok(());
    };
    if is_untouched(metamodel, work, marks.are_linked(), entry)? {
        marks.remove(entry.object);
        return Ok(());
    }
    marks.add(entry.object)?;
    Ok(())
}

/// Looks at an object's entry, if it has one.
fn look_at_object(
    metamodel: &Metamodel,
    work: &UnitOfWork,
    object: usize,
    marks: &mut Marks,
) -> Result<(), Cause>
    requires ready { IsReady metamodel.now (now work.now) }
    ensures { OnOk result (anew.IsGoneOver metamodel.now (now work.now)
        (λ i. (d : Entry) → (slice_index_or work.now.context.now i d).object ≢ object)
        marks.old marks.new) }
{
    match work.context.place_of(object) {
        Some(place) => look_at(metamodel, work, place, marks),
        None => Ok(()),
    }
}

/// Looks at the entries that were overwritten since the changes were last kept.
fn look_at_overwritten(
    metamodel: &Metamodel,
    work: &UnitOfWork,
    marks: &mut Marks,
) -> Result<(), Cause>
    requires ready { IsReady metamodel.now (now work.now) }
    ensures { OnOk result (anew.IsGoneOver metamodel.now (now work.now)
        (anew.StandsAt work.now) marks.old marks.new) }
{
    let noted = work.context.overwritten();
    for note in noted {
        look_at(metamodel, work, note.0, marks)?;
    }
    Ok(())
}

/// Looks at the entries whose objects were overwritten since the changes were last kept.
fn look_at_objects(metamodel: &Metamodel, work: &UnitOfWork, marks: &mut Marks) -> Result<(), Cause>
    requires ready { IsReady metamodel.now (now work.now) }
    ensures { OnOk result (anew.IsGoneOver metamodel.now (now work.now)
        (anew.HasObjectAsItWas work.now) marks.old marks.new) }
{
    let noted = work.objects.overwritten();
    for note in noted {
        look_at_object(metamodel, work, note.0, marks)?;
    }
    Ok(())
}

/// Looks at the entries that entered since the changes were last kept.
fn look_at_entered(metamodel: &Metamodel, work: &UnitOfWork, marks: &mut Marks) -> Result<(), Cause>
    requires ready { IsReady metamodel.now (now work.now) }
    ensures { OnOk result (anew.IsGoneOver metamodel.now (now work.now)
        (anew.WasThere work.now) marks.old marks.new) }
{
    let kept = work.context.kept_len();
    for place in kept..work.context.len() {
        look_at(metamodel, work, place, marks)?;
    }
    Ok(())
}

/// Looks at each entry that was touched since the changes were last kept. It looks at no other, and
/// fails for want of memory alone.
pub(super) fn look_at_touched(
    metamodel: &Metamodel,
    work: &UnitOfWork,
    marks: &mut Marks,
) -> Result<(), Cause>
    requires ready { IsReady metamodel.now (now work.now) }
    ensures { OnOk result (anew.IsGoneOver metamodel.now (now work.now)
        (anew.IsMissed work.now) marks.old marks.new) }
{
    look_at_overwritten(metamodel, work, marks)?;
    look_at_objects(metamodel, work, marks)?;
    look_at_entered(metamodel, work, marks)
}
