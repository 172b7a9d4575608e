//! What an object holds in a relation, and what its base knows of it, change.
ghost use Rattle.std.specs.Prelude.{◌≡◌, ◌<◌, IfOk, IfErr, OnOk, Some};
ghost use Rattle.jpa_value.specs.declared.refusal.Cause.{Cause};
ghost use Rattle.jpa_work.specs.declared.heap.Collection.{Collection};
ghost use Rattle.jpa_work.specs.declared.heap.Held.{Held};
ghost use Rattle.jpa_work.specs.context.Undo.{now, since};
ghost use Rattle.jpa_operations.specs.fetch.Grown.{AreDistinct, CanHold, GoesOn, HasRelation};
ghost use Rattle.jpa_operations.specs.fetch.Members as members;

use jpa_model::Metamodel;
use jpa_value::{Cause, Identity, Seq, TryCopy};
use jpa_work::context::{Base, Entry, UnitOfWork, known_copied};
use jpa_work::heap::{Collection, Held};
use std::alloc::Global;

/// An object holds something else in a relation. Fails for want of memory alone, with
/// `OutOfMemory`.
pub fn set_relation(
    _metamodel: &Metamodel,
    work: &mut UnitOfWork,
    object: usize,
    relation: usize,
    held: Held,
) -> Result<(), Cause>
    requires { HasRelation _metamodel.now (now work.old) object relation }
    ensures ok { OnOk result
        (now work.new ≡ members.with_relation object relation held (now work.old)) }
    ensures err { IfErr result (λ cause. cause ≡ Cause.OutOfMemory) }
    ensures others { work.new ≡ record work.old { objects = work.new.objects } }
    ensures since { since work.new ≡ since work.old }
{
    let mut live = work.objects.as_slice()[object].try_copy()?;
    live.relations.set(relation, held);
    work.objects.set(object, live)?;
    Ok(())
}

/// A copy of what a base knows of each relation. Fails for want of memory alone, with
/// `OutOfMemory`.
fn members_copied(
    alloc: Global,
    members: &[Option<Seq<Identity>>],
) -> Result<Seq<Option<Seq<Identity>>>, Cause>
    ensures ok { IfOk result (λ copies. copies ≡ members.now) }
    ensures err { IfErr result (λ cause. cause ≡ Cause.OutOfMemory) }
{
    let mut copies = Seq::new(alloc);
    for known in members {
        copies.push(known_copied(known)?)?;
    }
    Ok(copies)
}

/// A base that knows these identities of a relation. Fails for want of memory alone, with
/// `OutOfMemory`.
fn base_with_members(
    alloc: Global,
    base: &Base,
    relation: usize,
    ids: &Seq<Identity>,
) -> Result<Base, Cause>
    ensures ok { IfOk result (λ read. Some read
        ≡ members.with_members relation ids.now (Some base.now)) }
    ensures err { IfErr result (λ cause. cause ≡ Cause.OutOfMemory) }
{
    let mut known = members_copied(alloc, base.members.as_slice())?;
    // of a relation that it does not have, a base knows nothing
    if relation < known.len() {
        known.set(relation, Some(ids.try_copy()?));
    }
    Ok(Base {
        stored: base.stored.try_copy()?,
        members: known,
    })
}

/// The entry of an object whose base knows these identities of a relation; one without a base stays
/// without. Fails for want of memory alone, with `OutOfMemory`.
fn entry_with_members(
    alloc: Global,
    entry: &Entry,
    relation: usize,
    ids: &Seq<Identity>,
) -> Result<Entry, Cause>
    ensures ok { IfOk result (λ read. read
        ≡ record entry.now { base = members.with_members relation ids.now entry.now.base }) }
    ensures err { IfErr result (λ cause. cause ≡ Cause.OutOfMemory) }
{
    let base = match &entry.base {
        Some(base) => Some(base_with_members(alloc, base, relation, ids)?),
        None => None,
    };
    Ok(Entry {
        object: entry.object,
        key: entry.key.try_copy()?,
        lock: entry.lock,
        base,
    })
}

/// The base of an object takes these identities as what a relation held when it was last read.
/// Fails for want of memory alone, with `OutOfMemory`.
fn set_read(
    alloc: Global,
    work: &mut UnitOfWork,
    object: usize,
    relation: usize,
    ids: &Seq<Identity>,
) -> Result<(), Cause>
    requires distinct { AreDistinct work.old.context.now }
    ensures ok { OnOk result
        (now work.new ≡ members.with_read object relation ids.now (now work.old)) }
    ensures err { IfErr result (λ cause. cause ≡ Cause.OutOfMemory) }
    ensures others { work.new ≡ record work.old { context = work.new.context } }
    ensures since { since work.new ≡ since work.old }
{
    let Some(place) = work.context.place_of(object) else {
        return Ok(());
    };
    let entry = &work.context.as_slice()[place];
    let read = entry_with_members(alloc, entry, relation, ids)?;
    work.context.set(place, read)?;
    Ok(())
}

/// A collection of an object holds these objects, which were read as these identities. Fails for
/// want of memory alone, with `OutOfMemory`.
pub fn set_fetched(
    alloc: Global,
    metamodel: &Metamodel,
    work: &mut UnitOfWork,
    object: usize,
    relation: usize,
    ids: &Seq<Identity>,
    places: &[usize],
) -> Result<(), Cause>
    requires { CanHold metamodel.now (now work.old) object relation places.now }
    ensures ok { OnOk result (now work.new ≡ members.with_read object relation ids.now
        (members.with_relation object relation (Held.Many (Collection.Fetched places.now))
        (now work.old))) }
    ensures err { IfErr result (λ cause. cause ≡ Cause.OutOfMemory) }
    ensures goes { OnOk result (GoesOn metamodel.now (now work.old) (now work.new)) }
    ensures view { work.new.view ≡ work.old.view }
    ensures since { since work.new ≡ since work.old }
{
    let copies = Seq::of(Vec::from_slice(alloc, places)?);
    let held = Held::Many(Collection::Fetched(copies));
    set_relation(metamodel, work, object, relation, held)?;
    set_read(alloc, work, object, relation, ids)
}
