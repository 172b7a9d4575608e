//! Which classes hold a relation, and whether they own it.
ghost use Rattle.std.specs.Prelude.{◌≡◌, ◌<◌, length};
ghost use Rattle.jpa_model.specs.Chains as chains;
ghost use Rattle.jpa_questions.specs.by_key.Own as own;

use jpa_model::{Metamodel, Side};
use jpa_stored::objects::is_held_by;

fn is_single_side(side: &Side) -> bool
    ensures { result ≡ own.is_single_side side.now }
{
    matches!(side, Side::ManyToOne(_) | Side::OneToOne(_))
}

/// Whether the relation at a place of a class leads to one object, whose link its owner's row has;
/// none stands there else.
fn is_single_at(metamodel: &Metamodel, class: usize, relation: usize) -> bool
    requires { class < length metamodel.now.entities }
    ensures { result ≡ own.is_single_side (chains.relation_at metamodel.now class relation).side }
{
    match metamodel.relations_of(class).get(relation) {
        None => true,
        Some(relation) => is_single_side(&relation.side),
    }
}

/// Whether each object that holds a relation has its link, to one object, in its row.
pub(super) fn is_single(metamodel: &Metamodel, class: usize, relation: usize) -> bool
    ensures { result ≡ own.all_below (own.is_single_if_held metamodel.now class relation)
        (length metamodel.now.entities) }
{
    for kind in 0..metamodel.entities().len() {
        if is_held_by(metamodel, class, relation, kind)
            && !is_single_at(metamodel, kind, relation)
        {
            return false;
        }
    }
    true
}
