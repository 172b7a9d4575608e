//! What paths lead to.
ghost use Rattle.std.specs.Prelude.{◌≡◌, IfSome};
ghost use Rattle.jpql_types.specs.Scope as scopes;
ghost use Rattle.jpql_types.specs.Sorts as sorts;
ghost use Rattle.jpql_types.specs.Within.{IsClass, IsPath, AreSteps};

use crate::paths::{target_of_many, target_of_one};
use crate::sort::Sort;
use jpa_model::{Member, Metamodel};
use jpa_value::Kind;
use jpql_trees::typed::{Step, TypedPath};

/// What a step leads to, other than a collection.
pub(crate) fn step_sort(metamodel: &Metamodel, step: Step) -> Option<Sort>
    requires { IsClass metamodel.now step.class }
    ensures { result ≡ sorts.step_sort metamodel.now step }
{
    match step.member {
        Member::KeyPart(part) => {
            let key = metamodel.root_of(step.class).key.as_slice();
            Some(Sort::Basic(key.get(part)?.kind))
        }
        Member::Version => Some(Sort::Basic(Kind::Int)),
        Member::Attribute(attribute) => {
            let attributes = metamodel.attributes_of(step.class);
            Some(Sort::Basic(attributes.get(attribute)?.kind))
        }
        Member::Relation(_) => {
            let class = target_of_one(metamodel, step)?;
            Some(Sort::Entity(metamodel.root_class(class)))
        }
    }
}

fn last(metamodel: &Metamodel, steps: &[Step]) -> Option<Step>
    requires { AreSteps metamodel.now steps.now }
    ensures last { result ≡ sorts.last steps.now }
    ensures within { IfSome result (λ s. IsClass metamodel.now s.class) }
{
    steps.last().copied()
}

/// What a path leads to, other than a collection.
pub(crate) fn path_sort(metamodel: &Metamodel, path: &TypedPath) -> Option<Sort>
    requires { IsPath metamodel.now path.now }
    ensures { result ≡ sorts.path_sort metamodel.now path.now }
{
    match last(metamodel, path.steps.as_slice()) {
        None => Some(Sort::Entity(metamodel.root_class(path.class))),
        Some(step) => step_sort(metamodel, step),
    }
}

/// The class of the collection that a path leads to.
pub(crate) fn collection_class(metamodel: &Metamodel, path: &TypedPath) -> Option<usize>
    requires { IsPath metamodel.now path.now }
    ensures class { result ≡ sorts.collection_class metamodel.now path.now }
    ensures within { IfSome result (λ class. IsClass metamodel.now class) }
{
    target_of_many(metamodel, last(metamodel, path.steps.as_slice())?)
}
