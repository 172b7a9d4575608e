//! Whether what a class requires is there.
ghost use Rattle.std.specs.Prelude.{◌≡◌, ◌&&◌};
ghost use Rattle.std.specs.List.{list_all};
ghost use Rattle.jpa_model.specs.Chains as chains;
ghost use Rattle.jpa_value.specs.Value as values;
ghost use Rattle.jpa_stored.specs.objects.Sets as sets;
ghost use Rattle.jpa_open.specs.Opened as opened;
ghost use Rattle.jpa_constraints.specs.Judged as judged;

use crate::change::Change;
use jpa_model::Metamodel;
use jpa_open::OpenSet;
use jpa_stored::objects::{Stored, attributes_of, links_filled, relations_of, values_filled};

/// Whether an object has what its class requires.
fn has_required(metamodel: &Metamodel, object: &Stored) -> bool
    ensures { result ≡ judged.has_required metamodel.now object.now }
{
    let attributes = attributes_of(metamodel, object.class);
    let relations = relations_of(metamodel, object.class);
    values_filled(attributes, object.values.as_slice())
        && links_filled(relations, object.owned.as_slice())
}

/// Whether what stands where something was changed has what its class requires.
fn fills(metamodel: &Metamodel, view: &OpenSet, change: &Change<'_>) -> bool
    ensures { result ≡ judged.fills metamodel.now (opened.now view.now) change.now }
{
    match view.get(change.id) {
        None => true,
        Some(object) => has_required(metamodel, object),
    }
}

/// Whether each object that was written has what its class requires.
pub(crate) fn all_fill(metamodel: &Metamodel, view: &OpenSet, changes: &[Change<'_>]) -> bool
    ensures { result ≡ list_all (judged.fills metamodel.now (opened.now view.now)) changes.now }
{
    for change in changes {
        if !fills(metamodel, view, change) {
            return false;
        }
    }
    true
}
