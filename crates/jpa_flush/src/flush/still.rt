//! Whether relations hold what bases know of them. An identity is compared where it stands; only a
//! collection's are gathered.
ghost use Rattle.std.specs.Prelude.{◌≡◌, ◌<◌, ◌∷◌, [], All, Some, length, IfOk, IfErr};
ghost use Rattle.jpa_value.specs.declared.refusal.Cause.{Cause};
ghost use Rattle.jpa_value.specs.declared.value.Identity.{Identity};
ghost use Rattle.jpa_value.specs.Value.{same_identity};
ghost use Rattle.jpa_model.specs.Chains.{root_of};
ghost use Rattle.jpa_work.specs.heap.Objects.{identity_of};
ghost use Rattle.jpa_work.specs.context.Undo.{now, IsPlaced};
ghost use Rattle.jpa_operations.specs.fetch.Grown.{IsReady, objects_held};
ghost use Rattle.jpa_flush.specs.flush.Flush as flushes;
ghost use Rattle.jpa_flush.specs.flush.Plan as plans;

use crate::flush::held::rising;
use jpa_model::Metamodel;
use jpa_value::{Cause, Identity, Seq, is_same_identity, order_keys};
use jpa_work::context::{Base, UnitOfWork};
use jpa_work::heap::{Collection, Held, Link, LiveObject, is_whole};
use std::cmp::Ordering;

/// Whether an identity is that of an object whose key is whole. Takes no memory.
fn is_that_of(metamodel: &Metamodel, object: &LiveObject, id: &Identity) -> bool
    requires { object.now.class < length metamodel.now.entities }
    ensures { result ≡ same_identity id.now
        (record { table = (root_of metamodel.now object.now.class).table; key = object.now.key }) }
{
    id.table == metamodel.root_of(object.class).table
        && matches!(
            order_keys(id.key.as_slice(), object.key.as_slice()),
            Ordering::Equal
        )
}

/// Whether two lists hold the same identities.
fn are_same_identities(a: &[Identity], b: &[Identity]) -> bool
    ensures { result ≡ flushes.same_identities a.now b.now }
{
    if a.len() != b.len() {
        return false;
    }
    for (i, id) in a.iter().enumerate() {
        if !is_same_identity(id, &b[i]) {
            return false;
        }
    }
    true
}

/// Whether these identities are this one.
fn are_one(ids: &[Identity], id: &Identity) -> bool
    ensures { result ≡ flushes.same_identities ids.now (id.now ∷ []) }
{
    if ids.len() != 1 {
        return false;
    }
    is_same_identity(&ids[0], id)
}

/// Whether these identities are that of an object; none, where its key isn't whole. Takes no
/// memory.
fn are_that_of(metamodel: &Metamodel, object: &LiveObject, ids: &[Identity]) -> bool
    requires { object.now.class < length metamodel.now.entities }
    ensures { result ≡ flushes.same_identities ids.now
        (flushes.listed (identity_of metamodel.now object.now)) }
{
    if !is_whole(object.key.as_slice()) {
        return are_same_identities(ids, &[]);
    }
    if ids.len() != 1 {
        return false;
    }
    is_that_of(metamodel, object, &ids[0])
}

/// Whether a relation holds these identities now; it does where it was not read. Fails for want of
/// memory alone, with `OutOfMemory`, and takes none but for a collection.
pub(super) fn holds_still(
    metamodel: &Metamodel,
    work: &UnitOfWork,
    held: &Held,
    before: &[Identity],
) -> Result<bool, Cause>
    requires placed { IsPlaced metamodel.now (now work.now) }
    requires within { All (λ k. k < length work.now.objects.now) (objects_held held.now) }
    ensures ok { IfOk result (λ still. still ≡ flushes.same_if_read (Some before.now)
        (flushes.held_now metamodel.now (now work.now) held.now)) }
    ensures err { IfErr result (λ cause. cause ≡ Cause.OutOfMemory) }
{
    match held {
        Held::One(Link::None) => Ok(are_same_identities(before, &[])),
        Held::One(Link::Object(object)) => {
            let live = &work.objects.as_slice()[*object];
            Ok(are_that_of(metamodel, live, before))
        }
        Held::One(Link::Key(id)) => Ok(are_one(before, id)),
        Held::Many(Collection::Fetched(objects)) => {
            let alloc = work.view.allocator();
            let ids = rising(alloc, metamodel, work, objects.as_slice())?;
            Ok(are_same_identities(before, ids.as_slice()))
        }
        Held::Many(Collection::Unfetched) => Ok(true),
    }
}

/// Whether a base knows of a relation what it holds now. Fails as `holds_still`.
fn knows_still(
    metamodel: &Metamodel,
    work: &UnitOfWork,
    held: &Held,
    known: &Option<Seq<Identity>>,
) -> Result<bool, Cause>
    requires placed { IsPlaced metamodel.now (now work.now) }
    requires within { All (λ k. k < length work.now.objects.now) (objects_held held.now) }
    ensures ok { IfOk result (λ still. still ≡ plans.same_member known.now
        (flushes.held_now metamodel.now (now work.now) held.now)) }
    ensures err { IfErr result (λ cause. cause ≡ Cause.OutOfMemory) }
{
    match (known, held) {
        (None, Held::Many(Collection::Unfetched)) => Ok(true),
        (None, _) | (Some(_), Held::Many(Collection::Unfetched)) => Ok(false),
        (Some(before), held) => holds_still(metamodel, work, held, before.as_slice()),
    }
}

/// Whether a base knows of each relation of an object what it holds now. Fails as `holds_still`.
pub(super) fn knows_all_still(
    metamodel: &Metamodel,
    work: &UnitOfWork,
    object: usize,
    base: &Base,
) -> Result<bool, Cause>
    requires ready { IsReady metamodel.now (now work.now) }
    requires object { object < length work.now.objects.now }
    ensures ok { IfOk result (λ still. still ≡ plans.same_members base.now.members
        (flushes.members_held metamodel.now (now work.now) object)) }
    ensures err { IfErr result (λ cause. cause ≡ Cause.OutOfMemory) }
{
    let relations = work.objects.as_slice()[object].relations.as_slice();
    let members = base.members.as_slice();
    if members.len() != relations.len() {
        return Ok(false);
    }
    for (i, held) in relations.iter().enumerate() {
        if !knows_still(metamodel, work, held, &members[i])? {
            return Ok(false);
        }
    }
    Ok(true)
}
