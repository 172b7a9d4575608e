//! Whether a set is sound: whether what is required is there, each link leads to an object of its
//! class, and no two objects own the same target in a one-to-one relation.
ghost use Rattle.std.specs.Prelude.{◌≡◌, ◌⊎◌, ◌&&◌, not, None, Some, option_map, IfErr, OnOk};
ghost use Rattle.std.specs.List.{list_all, zip};
ghost use Rattle.jpa_model.specs.Chains as chains;
ghost use Rattle.jpa_value.specs.Value as values;
ghost use Rattle.jpa_value.specs.declared.refusal.Cause.{Cause};
ghost use Rattle.jpa_stored.specs.objects.Sets as sets;

use crate::objects::claims::{are_distinct, claims_of};
use crate::objects::classes::{attributes_of, is_kind_of, relations_of};
use crate::objects::set::StoredSet;
use crate::objects::stored::Stored;
use jpa_model::{Attribute, Metamodel, Relation, Side};
use jpa_value::{Boxed, Cause, Identity, PersistenceFault, Seq, Value};

/// Whether a value is there, if it has to be.
fn is_filled(required: bool, value: &Value) -> bool
    ensures { result ≡ not (required && values.is_null value.now) }
{
    !(required && matches!(value, Value::Null))
}

/// Whether the values of these attributes are there.
pub fn values_filled(attributes: &[Attribute], values: &[Value]) -> bool
    ensures { result ≡ sets.values_there (zip attributes.now values.now) }
{
    for (i, value) in values.iter().enumerate() {
        if i < attributes.len() && !is_filled(attributes[i].required, value) {
            return false;
        }
    }
    true
}

/// Whether a link of this side may not be none.
fn is_required(side: Side) -> bool
    ensures { result ≡ sets.is_required (chains.column_of side) }
{
    match side {
        Side::ManyToOne(column) | Side::OneToOne(column) => column.required,
        _ => false,
    }
}

/// Whether a link is there, if it has to be.
fn is_linked(side: Side, ids: &[Identity]) -> bool
    ensures { result ≡ not (sets.is_required (chains.column_of side) && sets.is_empty ids.now) }
{
    !(is_required(side) && ids.is_empty())
}

/// Whether the links of these relations are there.
pub fn links_filled(relations: &[Relation], owned: &[Seq<Identity>]) -> bool
    ensures { result ≡ sets.links_there (zip relations.now owned.now) }
{
    for (i, ids) in owned.iter().enumerate() {
        if i < relations.len() && !is_linked(relations[i].side, ids.as_slice()) {
            return false;
        }
    }
    true
}

/// Whether an object has what its class requires.
fn object_filled(metamodel: &Metamodel, object: &Stored) -> bool
    ensures { result
        ≡ (sets.values_there (zip (chains.attributes_of metamodel.now object.now.class)
        object.now.values) && sets.links_there
        (zip (chains.relations_of metamodel.now object.now.class) object.now.owned)) }
{
    let attributes = attributes_of(metamodel, object.class);
    let relations = relations_of(metamodel, object.class);
    values_filled(attributes, object.values.as_slice())
        && links_filled(relations, object.owned.as_slice())
}

/// Whether each object has what its class requires.
fn all_filled(metamodel: &Metamodel, entries: &[Boxed<(Identity, Stored)>]) -> bool
    ensures { result ≡ sets.no_required_null metamodel.now entries.now }
{
    for entry in entries {
        if !object_filled(metamodel, &entry.get().1) {
            return false;
        }
    }
    true
}

/// Whether an object of the class or below it stands under the identity.
fn leads(metamodel: &Metamodel, set: &StoredSet, target: usize, id: &Identity) -> bool
    ensures { result ≡ sets.is_of metamodel.now (sets.stored_at set.now id.now) target }
{
    match set.get(id) {
        None => false,
        Some(object) => is_kind_of(metamodel, object.class, target),
    }
}

/// Whether an object of the class or below it stands under each of these identities.
fn ids_lead(metamodel: &Metamodel, set: &StoredSet, target: usize, ids: &[Identity]) -> bool
    ensures { result
        ≡ list_all (λ id. sets.is_of metamodel.now (sets.stored_at set.now id) target) ids.now }
{
    for id in ids {
        if !leads(metamodel, set, target, id) {
            return false;
        }
    }
    true
}

/// Whether the links of these relations lead to objects of their targets.
fn links_lead(
    metamodel: &Metamodel,
    set: &StoredSet,
    relations: &[Relation],
    owned: &[Seq<Identity>],
) -> bool
    ensures { result
        ≡ list_all
        (λ p. list_all (λ id. sets.is_of metamodel.now (sets.stored_at set.now id) (p.0).target)
        p.1) (zip relations.now owned.now) }
{
    for (i, ids) in owned.iter().enumerate() {
        if i < relations.len() && !ids_lead(metamodel, set, relations[i].target, ids.as_slice()) {
            return false;
        }
    }
    true
}

/// Whether the links of an object lead to objects of their targets.
fn object_leads(metamodel: &Metamodel, set: &StoredSet, object: &Stored) -> bool
    ensures { result
        ≡ list_all
        (λ p. list_all (λ id. sets.is_of metamodel.now (sets.stored_at set.now id) (p.0).target)
        p.1) (zip (chains.relations_of metamodel.now object.now.class) object.now.owned) }
{
    let relations = relations_of(metamodel, object.class);
    links_lead(metamodel, set, relations, object.owned.as_slice())
}

/// Whether the links of each object lead to objects of their targets.
fn all_lead(metamodel: &Metamodel, set: &StoredSet) -> bool
    ensures { result ≡ sets.all_lead metamodel.now set.now }
{
    for entry in set.entries() {
        if !object_leads(metamodel, set, &entry.get().1) {
            return false;
        }
    }
    true
}

/// Whether a set is sound (chapters 2.9, 2.10 and 3.2.4): Ok where required values and links are
/// there, each link and each pair leads to an object of the relation's target class or below it,
/// and no two objects own the same target in one one-to-one relation.
///
/// Else `Persistence` with the first part that fails over the whole set: `Null`, then `Reference`,
/// then `Unique`. `OutOfMemory` for want of memory. With n links and objects it takes O(n log n)
/// comparisons of identities.
pub fn integrity(metamodel: &Metamodel, set: &StoredSet) -> Result<(), Cause>
    ensures sound { OnOk result (sets.IsSound metamodel.now set.now) }
    ensures fault { IfErr result (λ cause. (cause ≡ Cause.OutOfMemory)
        ⊎ (option_map Cause.Persistence (sets.fault_of metamodel.now set.now) ≡ Some cause)) }
{
    if !all_filled(metamodel, set.entries()) {
        return Err(Cause::Persistence(PersistenceFault::Null));
    }
    if !all_lead(metamodel, set) {
        return Err(Cause::Persistence(PersistenceFault::Reference));
    }
    let alloc = set.allocator();
    let claims = claims_of(alloc, metamodel, set.entries())?;
    if !are_distinct(alloc, claims)? {
        return Err(Cause::Persistence(PersistenceFault::Unique));
    }
    Ok(())
}
