//! Whether links lead to objects of their target classes.
ghost use Rattle.std.specs.Prelude.{◌≡◌, option_map};
ghost use Rattle.std.specs.Option.{option_copied};
ghost use Rattle.std.specs.List.{zip, list_all};
ghost use Rattle.jpa_stored.specs.objects.Sets as sets;
ghost use Rattle.jpa_open.specs.Leads as leads;
ghost use Rattle.jpa_open.specs.Opened as opened;
ghost use Rattle.jpa_constraints.specs.Changed as changed;
ghost use Rattle.jpa_constraints.specs.Judged as judged;

use crate::change::Change;
use jpa_model::{Metamodel, Relation};
use jpa_open::OpenSet;
use jpa_stored::objects::{Stored, is_kind_of, relations_of};
use jpa_value::{Identity, Seq};

/// Whether an object of the class or below it stands under the identity.
fn is_of(metamodel: &Metamodel, view: &OpenSet, target: usize, id: &Identity) -> bool
    ensures { result
        ≡ sets.is_of metamodel.now (sets.stored_at (opened.now view.now) id.now) target }
{
    match view.get(id) {
        None => false,
        Some(object) => is_kind_of(metamodel, object.class, target),
    }
}

/// Whether an object of the class or below it stands under each of these identities.
fn ids_lead(metamodel: &Metamodel, view: &OpenSet, target: usize, ids: &[Identity]) -> bool
    ensures { result ≡ list_all (λ id. sets.is_of metamodel.now
        (sets.stored_at (opened.now view.now) id) target) ids.now }
{
    for id in ids {
        if !is_of(metamodel, view, target, id) {
            return false;
        }
    }
    true
}

/// Whether the links of these relations lead to objects of their targets.
fn links_lead(
    metamodel: &Metamodel,
    view: &OpenSet,
    relations: &[Relation],
    owned: &[Seq<Identity>],
) -> bool
    ensures { result ≡ judged.links_lead metamodel.now (opened.now view.now)
        (zip relations.now owned.now) }
{
    for (i, ids) in owned.iter().enumerate() {
        if i < relations.len() && !ids_lead(metamodel, view, relations[i].target, ids.as_slice()) {
            return false;
        }
    }
    true
}

/// Whether the links of an object lead to objects of their targets.
fn object_leads(metamodel: &Metamodel, view: &OpenSet, object: &Stored) -> bool
    ensures { result ≡ judged.object_leads metamodel.now (opened.now view.now) object.now }
{
    let relations = relations_of(metamodel, object.class);
    links_lead(metamodel, view, relations, object.owned.as_slice())
}

/// Whether nothing stood under an identity, or an object of the same class does still.
fn keeps_class(before: Option<usize>, object: Option<&Stored>) -> bool
    ensures { result ≡ judged.keeps_class before
        (option_map (λ x. x.class) (option_copied object.entry)) }
{
    match (before, object) {
        (None, _) => true,
        (Some(_), None) => false,
        (Some(class), Some(object)) => class == object.class,
    }
}

/// Whether each link to an identity leads to an object of its target. Asks first whether there is
/// one at all.
fn leads_well(metamodel: &Metamodel, view: &OpenSet, id: &Identity) -> bool
    ensures { result ≡ leads.leads_well metamodel.now (opened.now view.now) id.now }
{
    !view.is_led_to(id) || view.leads_well(metamodel, id)
}

/// Whether the links from and to what stands where something was changed lead to objects of their
/// targets.
fn leads(metamodel: &Metamodel, view: &OpenSet, change: &Change<'_>) -> bool
    ensures { result ≡ judged.leads metamodel.now (opened.now view.now) change.now }
{
    let object = view.get(change.id);
    let leads_on = match object {
        None => true,
        Some(object) => object_leads(metamodel, view, object),
    };
    leads_on && (keeps_class(change.class_before, object) || leads_well(metamodel, view, change.id))
}

/// Whether the links from and to all that was changed lead to objects of their targets.
pub(crate) fn all_lead(metamodel: &Metamodel, view: &OpenSet, changes: &[Change<'_>]) -> bool
    ensures { result ≡ list_all (judged.leads metamodel.now (opened.now view.now)) changes.now }
{
    for change in changes {
        if !leads(metamodel, view, change) {
            return false;
        }
    }
    true
}
