//! What the heap's undo list noted of a call.
ghost use Rattle.std.specs.Prelude.{◌≡◌, true};
ghost use Rattle.jpa_work.specs.context.Undo.{now, since, undone};
ghost use Rattle.jpa_work.specs.context.Work as works;
ghost use Rattle.jpa_flush.specs.flush.Flush as flushes;
ghost use Rattle.jpa_flush.specs.flush.Marked as marked;

use jpa_value::order_keys;
use jpa_work::context::UnitOfWork;
use jpa_work::heap::{Life, LiveObject};
use std::cmp::Ordering;

/// Whether an object was new, or is not new, of the same class and key.
fn keeps_name(old: &LiveObject, new: &LiveObject) -> bool
    ensures { result ≡ marked.keeps_name old.now new.now }
{
    if matches!(old.life, Life::New) {
        return true;
    }
    if matches!(new.life, Life::New) || new.class != old.class {
        return false;
    }
    matches!(
        order_keys(new.key.as_slice(), old.key.as_slice()),
        Ordering::Equal
    )
}

/// Whether the object that stands at a place keeps the name of one that stood there.
fn keeps_name_at(work: &UnitOfWork, at: usize, old: &LiveObject) -> bool
    ensures { result ≡ true → marked.keeps_name old.now (works.object (now work.now) at) ≡ true }
{
    match work.objects.as_slice().get(at) {
        Some(new) => keeps_name(old, new),
        None => false,
    }
}

/// Whether no object that is not new took another class or key, or became new, since the work was
/// last kept. It looks at what was overwritten since then alone, and takes no memory.
pub fn keep_names(work: &UnitOfWork) -> bool
    ensures { result ≡ true
        → marked.GoesOn (undone work.now.manager (since work.now)) (now work.now) }
{
    let _kept = work.objects.kept_len();
    let noted = work.objects.overwritten();
    for note in noted {
        if !keeps_name_at(work, note.0, &note.1) {
            return false;
        }
    }
    true
}

/// Whether an object in one state may be led to still in another one.
fn keeps_link(manager: usize, old: Life, new: Life) -> bool
    ensures { result ≡ marked.keeps_link manager old new }
{
    if is_managed(manager, new) {
        return true;
    }
    !is_managed(manager, old) && (!is_storable(manager, old) || is_storable(manager, new))
}

/// Whether an object in this state is managed by the manager.
fn is_managed(manager: usize, life: Life) -> bool
    ensures { result ≡ works.is_managed (works.state_from manager life) }
{
    matches!(life, Life::Managed(holder) if holder == manager)
}

/// Whether an object in this state may be led to when the manager's flush writes.
fn is_storable(manager: usize, life: Life) -> bool
    ensures { result ≡ flushes.is_storable (works.state_from manager life) }
{
    match life {
        Life::New => false,
        Life::Managed(_) | Life::Detached => true,
        Life::Removed(holder) => holder != manager,
    }
}

/// Whether the object that stands at a place may be led to still, as far as the one that stood
/// there might.
fn keeps_link_at(work: &UnitOfWork, at: usize, old: &LiveObject) -> bool
    ensures { result ≡ true
        → marked.keeps_links work.now.manager old.now (works.object (now work.now) at) ≡ true }
{
    match work.objects.as_slice().get(at) {
        Some(new) => keeps_link(work.manager, old.life, new.life),
        None => false,
    }
}

/// Whether what may have been led to as the work was last kept may be led to still. It looks at
/// what was overwritten since then alone, and takes no memory.
pub fn keep_links(work: &UnitOfWork) -> bool
    ensures { result ≡ true
        → marked.LeadsStill (undone work.now.manager (since work.now)) (now work.now) }
{
    let noted = work.objects.overwritten();
    for note in noted {
        if !keeps_link_at(work, note.0, &note.1) {
            return false;
        }
    }
    true
}
