//! Whose pairs the rows of join tables are.
ghost use Rattle.std.specs.Prelude.{◌≡◌, ◌<◌, take, length, IfSome, IfOk, IfErr};
ghost use Rattle.jpa_value.specs.declared.refusal.Cause.{Cause};
ghost use Rattle.jpa_stored.specs.objects.Sets as sets;
ghost use Rattle.jpa_object_rows.specs.meaning.Identities as identities;
ghost use Rattle.jpa_opening.specs.reader.Owners as spec;
ghost use Rattle.jpa_opening.specs.reader.Read.{AreOfClasses};
ghost use Rattle.jpa_opening.specs.reader.Sound as sound;

use jpa_model::{Entity, Metamodel, Root};
use jpa_object_rows::mapper::is_kept_in;
use jpa_rows::rows::{Row, RowId};
use jpa_stored::objects::StoredSet;
use jpa_value::{Cause, Identity, Key, Value};
use std::alloc::Global;

fn declares(entity: &Entity, table: u64) -> bool
    ensures { result ≡ identities.declares table entity.now }
{
    entity
        .relations
        .as_slice()
        .iter()
        .any(|relation| is_kept_in(relation.side, table))
}

/// The class that declares the relation with the join table of this number.
fn declarer_of(metamodel: &Metamodel, table: u64) -> Option<usize>
    ensures class { result ≡ identities.declarer_at metamodel.now table }
    ensures within { IfSome result (λ class. class < length metamodel.now.entities) }
{
    for class in 0..metamodel.entities().len() {
        if declares(metamodel.entity(class), table) {
            return Some(class);
        }
    }
    None
}

/// Whether a table is a join table.
pub(super) fn is_join(metamodel: &Metamodel, table: u64) -> bool
    ensures { result ≡ sound.is_join metamodel.now table }
{
    match declarer_of(metamodel, table) {
        Some(_) => true,
        None => false,
    }
}

/// The first parts of a key.
fn first_parts(alloc: Global, key: &[Value], count: usize) -> Result<Key, Cause>
    ensures ok { IfOk result (λ parts. parts ≡ take count key.now) }
    ensures err { IfErr result (λ cause. cause ≡ Cause.OutOfMemory) }
{
    if count < key.len() {
        Key::of(alloc, &key[..count])
    } else {
        Key::of(alloc, key)
    }
}

/// The identity whose key begins a pair's.
fn owner_of(alloc: Global, root: &Root, key: &Key) -> Result<Identity, Cause>
    ensures ok { IfOk result (λ owner. owner ≡ spec.owner_of root.now key.now) }
    ensures err { IfErr result (λ cause. cause ≡ Cause.OutOfMemory) }
{
    Ok(Identity {
        table: root.table,
        key: first_parts(alloc, key.as_slice(), root.key.len())?,
    })
}

/// Whether an object of a class or below it stands under an identity.
fn has_object_of(metamodel: &Metamodel, set: &StoredSet, id: &Identity, class: usize) -> bool
    requires class { class < length metamodel.now.entities }
    requires classes { AreOfClasses metamodel.now set.now }
    ensures { result ≡ sets.is_of metamodel.now (sets.stored_at set.now id.now) class }
{
    match set.get(id) {
        Some(object) => metamodel.is_kind_of(object.class, class),
        None => false,
    }
}

/// Whether a row is of no join table, or its owner stands and has the relation.
fn is_owned(
    alloc: Global,
    metamodel: &Metamodel,
    set: &StoredSet,
    id: &RowId,
) -> Result<bool, Cause>
    requires { AreOfClasses metamodel.now set.now }
    ensures ok { IfOk result (λ owned. owned ≡ spec.is_owned metamodel.now set.now id.now) }
    ensures err { IfErr result (λ cause. cause ≡ Cause.OutOfMemory) }
{
    match declarer_of(metamodel, id.table) {
        None => Ok(true),
        Some(class) => {
            let owner = owner_of(alloc, metamodel.root_of(class), &id.key)?;
            Ok(has_object_of(metamodel, set, &owner, class))
        }
    }
}

/// Whether the owner of each row of a join table stands and has the relation.
pub(super) fn are_owned(
    alloc: Global,
    metamodel: &Metamodel,
    set: &StoredSet,
    rows: &[(RowId, Row)],
) -> Result<bool, Cause>
    requires { AreOfClasses metamodel.now set.now }
    ensures ok { IfOk result (λ owned. owned ≡ spec.are_owned metamodel.now set.now rows.now) }
    ensures err { IfErr result (λ cause. cause ≡ Cause.OutOfMemory) }
{
    for (id, _) in rows {
        if !is_owned(alloc, metamodel, set, id)? {
            return Ok(false);
        }
    }
    Ok(true)
}
