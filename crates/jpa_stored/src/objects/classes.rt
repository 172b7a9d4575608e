//! What a metamodel says of the class of a stored object, which may be a number that names none:
//! then it declares nothing, and is a class of its own.
ghost use Rattle.std.specs.Prelude.{◌≡◌};
ghost use Rattle.jpa_model.specs.Chains as chains;

use jpa_model::{Attribute, Metamodel, Relation};

/// The attributes of a class and its superclasses.
pub fn attributes_of(metamodel: &Metamodel, class: usize) -> &[Attribute]
    ensures { result.now ≡ chains.attributes_of metamodel.now class }
{
    if class >= metamodel.entities().len() {
        return &[];
    }
    metamodel.attributes_of(class)
}

/// The relations of a class and its superclasses.
pub fn relations_of(metamodel: &Metamodel, class: usize) -> &[Relation]
    ensures { result.now ≡ chains.relations_of metamodel.now class }
{
    if class >= metamodel.entities().len() {
        return &[];
    }
    metamodel.relations_of(class)
}

/// The class that declares each of the relations of a class.
pub fn declarers_of(metamodel: &Metamodel, class: usize) -> &[usize]
    ensures { result.now ≡ chains.declarers_of metamodel.now class }
{
    if class >= metamodel.entities().len() {
        return &[];
    }
    metamodel.declarers_of(class)
}

/// Whether a class is another or below it.
pub fn is_kind_of(metamodel: &Metamodel, class: usize, above: usize) -> bool
    ensures { result ≡ chains.is_kind_of metamodel.now class above }
{
    let classes = metamodel.unit().entities.len();
    if class >= classes {
        return class == above;
    }
    above < classes && metamodel.is_kind_of(class, above)
}

/// Whether objects of another class hold the relation that stands at a place of this one's chain;
/// where none stands there, those of this class and below it do.
pub fn is_held_by(metamodel: &Metamodel, class: usize, relation: usize, other: usize) -> bool
    ensures { result ≡ chains.is_held_by metamodel.now class relation other }
{
    let declarer = match declarers_of(metamodel, class).get(relation) {
        None => class,
        Some(declarer) => *declarer,
    };
    is_kind_of(metamodel, other, declarer)
}
