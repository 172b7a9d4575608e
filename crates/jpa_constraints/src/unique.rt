//! Whether no two objects own the same target in one one-to-one relation.
ghost use Rattle.std.specs.Prelude.{◌≡◌, ◌&&◌, not};
ghost use Rattle.std.specs.List.{list_all, zip};
ghost use Rattle.jpa_stored.specs.objects.Sets as sets;
ghost use Rattle.jpa_open.specs.Leads as leads;
ghost use Rattle.jpa_open.specs.Opened as opened;
ghost use Rattle.jpa_constraints.specs.Judged as judged;

use crate::change::Change;
use jpa_model::{Metamodel, Relation, Side};
use jpa_open::{OpenSet, is_of_column};
use jpa_stored::objects::{Stored, is_among, relations_of};
use jpa_value::{Identity, Seq};

/// The column of an owning one-to-one relation; none for another.
fn one_to_one(side: Side) -> Option<u64>
    ensures { result ≡ sets.one_to_one_column side }
{
    match side {
        Side::OneToOne(column) => Some(column.column),
        _ => None,
    }
}

/// Whether an identity is owned in one of these relations that is the one-to-one relation of a
/// column.
fn is_owned(column: u64, id: &Identity, relations: &[Relation], owned: &[Seq<Identity>]) -> bool
    ensures { result ≡ leads.holds_in (leads.is_of_column column) id.now relations.now owned.now }
{
    for (i, ids) in owned.iter().enumerate() {
        if i < relations.len()
            && is_of_column(relations[i].side, column)
            && is_among(ids.as_slice(), id)
        {
            return true;
        }
    }
    false
}

/// Whether none of these identities, which are owned in the one-to-one relation of a column, is
/// owned there again or in one of these relations.
fn ids_apart(column: u64, ids: &[Identity], relations: &[Relation], owned: &[Seq<Identity>]) -> bool
    ensures { result ≡ judged.ids_apart column ids.now (zip relations.now owned.now) }
{
    for (i, id) in ids.iter().enumerate() {
        if is_among(&ids[i + 1..], id) || is_owned(column, id, relations, owned) {
            return false;
        }
    }
    true
}

/// Whether none of these identities is owned again in the same one-to-one relation or in one of
/// these.
fn link_apart(side: Side, ids: &[Identity], relations: &[Relation], owned: &[Seq<Identity>]) -> bool
    ensures { result ≡ judged.link_apart (sets.one_to_one_column side) ids.now
        (zip relations.now owned.now) }
{
    match one_to_one(side) {
        None => true,
        Some(column) => ids_apart(column, ids, relations, owned),
    }
}

/// Whether no target is owned twice in the one-to-one relations among these.
fn links_apart(relations: &[Relation], owned: &[Seq<Identity>]) -> bool
    ensures { result ≡ judged.links_apart (zip relations.now owned.now) }
{
    for (i, ids) in owned.iter().enumerate() {
        if i < relations.len()
            && !link_apart(
                relations[i].side,
                ids.as_slice(),
                &relations[i + 1..],
                &owned[i + 1..],
            )
        {
            return false;
        }
    }
    true
}

/// Whether no object but the owner has one of these targets in the one-to-one relation of a column.
fn ids_alone(
    metamodel: &Metamodel,
    view: &OpenSet,
    owner: &Identity,
    column: u64,
    ids: &[Identity],
) -> bool
    ensures { result ≡ list_all (λ id. not (leads.has_rival metamodel.now (opened.now view.now)
        (record { table = owner.now.table; column = column; target = id }) owner.now)) ids.now }
{
    for id in ids {
        if view.has_rival(metamodel, owner.table, column, id, owner) {
            return false;
        }
    }
    true
}

/// Whether no object but the owner claims one of these targets, if this is a one-to-one relation.
fn link_alone(
    metamodel: &Metamodel,
    view: &OpenSet,
    owner: &Identity,
    side: Side,
    ids: &[Identity],
) -> bool
    ensures { result ≡ list_all
        (λ claim. not (leads.has_rival metamodel.now (opened.now view.now) claim owner.now))
        (sets.claims_at owner.now.table (sets.one_to_one_column side) ids.now) }
{
    match one_to_one(side) {
        None => true,
        Some(column) => ids_alone(metamodel, view, owner, column, ids),
    }
}

/// Whether no object but the owner claims what is owned in these relations.
fn links_alone(
    metamodel: &Metamodel,
    view: &OpenSet,
    owner: &Identity,
    relations: &[Relation],
    owned: &[Seq<Identity>],
) -> bool
    ensures { result ≡ judged.links_alone metamodel.now (opened.now view.now) owner.now
        (zip relations.now owned.now) }
{
    for (i, ids) in owned.iter().enumerate() {
        if i < relations.len()
            && !link_alone(metamodel, view, owner, relations[i].side, ids.as_slice())
        {
            return false;
        }
    }
    true
}

/// Whether no claim of an object is made twice.
fn object_alone(metamodel: &Metamodel, view: &OpenSet, id: &Identity, object: &Stored) -> bool
    ensures { result ≡ judged.object_alone metamodel.now (opened.now view.now) id.now object.now }
{
    let relations = relations_of(metamodel, object.class);
    links_apart(relations, object.owned.as_slice())
        && links_alone(metamodel, view, id, relations, object.owned.as_slice())
}

/// Whether no claim of what stands where something was changed is made twice.
fn is_alone(metamodel: &Metamodel, view: &OpenSet, change: &Change<'_>) -> bool
    ensures { result ≡ judged.is_alone metamodel.now (opened.now view.now) change.now }
{
    match view.get(change.id) {
        None => true,
        Some(object) => object_alone(metamodel, view, change.id, object),
    }
}

/// Whether no claim of an object that was written is made twice.
pub(crate) fn all_alone(metamodel: &Metamodel, view: &OpenSet, changes: &[Change<'_>]) -> bool
    ensures { result
        ≡ list_all (judged.is_alone metamodel.now (opened.now view.now)) changes.now }
{
    for change in changes {
        if !is_alone(metamodel, view, change) {
            return false;
        }
    }
    true
}
