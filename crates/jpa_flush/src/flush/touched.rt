//! The places at which a flush looks: those of marked objects, and of what was touched since the
//! call began.
ghost use Rattle.std.specs.Prelude.{◌≡◌, ◌<◌, true, All, length, IfOk, IfErr, OnOk};
ghost use Rattle.jpa_value.specs.declared.refusal.Cause.{Cause};
ghost use Rattle.jpa_work.specs.context.Marks.{is_listed};
ghost use Rattle.jpa_work.specs.context.Undo.{now};
ghost use Rattle.jpa_operations.specs.fetch.Grown.{IsReady};
ghost use Rattle.jpa_flush.specs.flush.Marked as marked;
ghost use Rattle.jpa_flush.specs.flush.Touched as touched;

use crate::flush::chosen::Looked;
use crate::flush::keeping::{keep_links, keep_names};
use jpa_model::Metamodel;
use jpa_value::{Cause, Seq};
use jpa_work::context::{Entry, UnitOfWork};
use jpa_work::heap::LiveObject;
use std::alloc::Global;
use std::collections::BTreeSet;

/// One place more.
fn add(places: &mut BTreeSet<usize>, place: usize) -> Result<(), Cause>
    ensures kept { touched.Keeps places.old.keys places.new.keys }
    ensures added { OnOk result (is_listed places.new.keys place ≡ true) }
    ensures err { IfErr result (λ cause. cause ≡ Cause.OutOfMemory) }
{
    places.insert(place)?;
    Ok(())
}

/// The place of an object, if it has an entry.
fn add_place_of(places: &mut BTreeSet<usize>, work: &UnitOfWork, object: usize) -> Result<(), Cause>
    ensures kept { touched.Keeps places.old.keys places.new.keys }
    ensures added { OnOk result
        (touched.HasPlaceOf work.now.context.now places.new.keys object) }
    ensures err { IfErr result (λ cause. cause ≡ Cause.OutOfMemory) }
{
    match work.context.place_of(object) {
        Some(place) => add(places, place),
        None => Ok(()),
    }
}

/// The place of each marked object.
fn add_marked(places: &mut BTreeSet<usize>, work: &UnitOfWork) -> Result<(), Cause>
    ensures kept { touched.Keeps places.old.keys places.new.keys }
    ensures added { OnOk result (touched.HavePlacesOf work.now.context.now places.new.keys
        work.now.context.marks.objects) }
    ensures err { IfErr result (λ cause. cause ≡ Cause.OutOfMemory) }
{
    for object in work.context.marks().objects() {
        add_place_of(places, work, *object)?;
    }
    Ok(())
}

/// The place of each object that was overwritten.
fn add_objects(
    places: &mut BTreeSet<usize>,
    work: &UnitOfWork,
    noted: &[(usize, LiveObject)],
) -> Result<(), Cause>
    ensures kept { touched.Keeps places.old.keys places.new.keys }
    ensures added { OnOk result
        (All (λ o. touched.HasPlaceOf work.now.context.now places.new.keys o.0) noted.now) }
    ensures err { IfErr result (λ cause. cause ≡ Cause.OutOfMemory) }
{
    for note in noted {
        add_place_of(places, work, note.0)?;
    }
    Ok(())
}

/// The place of each entry that was overwritten.
fn add_entries(places: &mut BTreeSet<usize>, noted: &[(usize, Entry)]) -> Result<(), Cause>
    ensures kept { touched.Keeps places.old.keys places.new.keys }
    ensures added { OnOk result (All (λ o. is_listed places.new.keys o.0 ≡ true) noted.now) }
    ensures err { IfErr result (λ cause. cause ≡ Cause.OutOfMemory) }
{
    for note in noted {
        add(places, note.0)?;
    }
    Ok(())
}

/// The places from one on, below another.
fn add_from(places: &mut BTreeSet<usize>, first: usize, end: usize) -> Result<(), Cause>
    ensures kept { touched.Keeps places.old.keys places.new.keys }
    ensures added { OnOk result (touched.HaveFrom first end places.new.keys) }
    ensures err { IfErr result (λ cause. cause ≡ Cause.OutOfMemory) }
{
    for place in first..end {
        add(places, place)?;
    }
    Ok(())
}

/// The places of marked objects, and of what was overwritten or added since the work was last kept.
fn touched_places(alloc: Global, work: &UnitOfWork) -> Result<BTreeSet<usize>, Cause>
    ensures ok { IfOk result (λ places. touched.HaveTouched work.now places.keys) }
    ensures err { IfErr result (λ cause. cause ≡ Cause.OutOfMemory) }
{
    let mut places = BTreeSet::new(alloc);
    add_marked(&mut places, work)?;
    add_objects(&mut places, work, work.objects.overwritten())?;
    add_entries(&mut places, work.context.overwritten())?;
    add_from(&mut places, work.context.kept_len(), work.context.len())?;
    Ok(places)
}

/// These places in rising order, as far as they are below a number.
fn in_order(alloc: Global, places: &BTreeSet<usize>, len: usize) -> Result<Seq<usize>, Cause>
    ensures rising { IfOk result (λ found. marked.AreRising len found) }
    ensures all { IfOk result (λ found. touched.HaveBelow len places.now.keys found) }
    ensures err { IfErr result (λ cause. cause ≡ Cause.OutOfMemory) }
{
    let mut found = Seq::new(alloc);
    for place in places.iter() {
        if *place < len {
            found.push(*place)?;
        }
    }
    Ok(found)
}

/// All places below a number, in rising order.
fn each_below(alloc: Global, len: usize) -> Result<Seq<usize>, Cause>
    ensures rising { IfOk result (λ found. marked.AreRising len found) }
    ensures all { IfOk result (λ found. touched.HaveFrom 0 len found) }
    ensures err { IfErr result (λ cause. cause ≡ Cause.OutOfMemory) }
{
    let mut found = Seq::new(alloc);
    for place in 0..len {
        found.push(place)?;
    }
    Ok(found)
}

/// Whether it is known what marks say: not each object is marked, and none that is not new took
/// another key. Takes no memory.
fn is_known(work: &UnitOfWork) -> bool
    ensures { result ≡ true → touched.IsKnown work.now }
{
    if work.context.marks().are_all() {
        return false;
    }
    keep_names(work)
}

/// Whether marks say to what the objects of the others lead, and that may be led to still. Takes no
/// memory.
fn are_linked_still(work: &UnitOfWork) -> bool
    ensures { result ≡ true → touched.IsLinkedStill work.now }
{
    if !work.context.marks().are_linked() {
        return false;
    }
    keep_links(work)
}

/// The places at which a walk over the entries of a context looks, at any moment of a call: those
/// of the marked objects, and of what was overwritten or added since the call began; all, where
/// each object is marked. What stands elsewhere is as its base says, and linked where the answer
/// says so. Fails for want of memory alone, with `OutOfMemory`; looks at no entry elsewhere.
pub fn looked(alloc: Global, _metamodel: &Metamodel, work: &UnitOfWork) -> Result<Looked, Cause>
    requires ready { IsReady _metamodel.now (now work.now) }
    requires marked { marked.AreMarkedBefore _metamodel.now work.now }
    ensures ok { let w = now work.now in let m = _metamodel.now in IfOk result (λ looked.
        marked.AreLooked (marked.IsUntouched m w looked.linked) w.context looked.places) }
    ensures err { IfErr result (λ cause. cause ≡ Cause.OutOfMemory) }
{
    let len = work.context.len();
    if !is_known(work) {
        // (nothing stands elsewhere)
        let places = each_below(alloc, len)?;
        return Ok(Looked {
            places,
            linked: true,
        });
    }
    let touched = touched_places(alloc, work)?;
    let places = in_order(alloc, &touched, len)?;
    let linked = are_linked_still(work);
    Ok(Looked { places, linked })
}
