//! The conditions on relations: their targets, and the two sides of each.
ghost use Rattle.std.specs.Prelude.{◌≡◌, ◌<◌, ◌==◌, length, find, count_by, option_copied};
ghost use Rattle.std.specs.List.{list_any, list_all};
ghost use Rattle.jpa_model.specs.Chains.{same_name};
ghost use Rattle.jpa_model.specs.Drafted as drafted;
ghost use Rattle.jpa_model.specs.WellFormed as well;

use crate::description::alone::{kind_goes_with, place_of_entity};
use crate::description::chains::chain_at;
use crate::description::names::{find_by_name, is_same_name};
use jpa_model::{Draft, DraftEntity, DraftRelation, DraftSide, RelationKind};
use jpa_value::{Seq, Text};

fn is_owning(side: &DraftSide) -> bool
    ensures { result ≡ well.is_owning side.now }
{
    !matches!(side, DraftSide::MappedBy(_))
}

fn is_opposite(inverse: RelationKind, owner: RelationKind) -> bool
    ensures { result ≡ well.is_opposite inverse owner }
{
    match (inverse, owner) {
        (RelationKind::OneToMany, RelationKind::ManyToOne) => true,
        (RelationKind::OneToOne, RelationKind::OneToOne) => true,
        (RelationKind::ManyToMany, RelationKind::ManyToMany) => true,
        _ => false,
    }
}

fn keeps(declaring: &DraftEntity, kind: RelationKind, owner: &DraftRelation) -> bool
    ensures { result ≡ well.keeps declaring.now kind owner.now }
{
    is_owning(&owner.side)
        && is_opposite(kind, owner.kind)
        && is_same_name(&owner.target, &declaring.name)
}

fn relation_in<'a>(draft: &'a Draft, class: usize, name: &Text) -> Option<&'a DraftRelation>
    ensures { option_copied result ≡ find (λ o. same_name o.name name.now)
        (drafted.entity_at draft.now class).relations }
{
    match draft.entities.as_slice().get(class) {
        None => None,
        Some(entity) => find_by_name(entity.relations.as_slice(), name),
    }
}

/// The relation of this name along a chain.
fn relation_named<'a>(draft: &'a Draft, chain: &[usize], name: &Text) -> Option<&'a DraftRelation>
    ensures { option_copied result ≡ find (λ o. same_name o.name name.now)
        (drafted.declared_by (λ e. e.relations) draft.now chain.now) }
{
    for class in chain {
        if let Some(found) = relation_in(draft, *class, name) {
            return Some(found);
        }
    }
    None
}

fn is_kept_by(
    draft: &Draft,
    chain: &[usize],
    declaring: &DraftEntity,
    kind: RelationKind,
    name: &Text,
) -> bool
    ensures { result ≡ well.is_some_that (well.keeps declaring.now kind)
        (find (λ o. same_name o.name name.now)
        (drafted.declared_by (λ e. e.relations) draft.now chain.now)) }
{
    match relation_named(draft, chain, name) {
        None => false,
        Some(owner) => keeps(declaring, kind, owner),
    }
}

fn is_kept(
    draft: &Draft,
    chains: &[Seq<usize>],
    declaring: &DraftEntity,
    relation: &DraftRelation,
) -> bool
    requires { chains.now ≡ drafted.chains draft.now }
    ensures { result ≡ well.is_kept draft.now declaring.now relation.now }
{
    let DraftSide::MappedBy(name) = &relation.side else {
        return true;
    };
    match place_of_entity(draft, &relation.target) {
        None => false,
        Some(target) => is_kept_by(
            draft,
            chain_at(draft, chains, target),
            declaring,
            relation.kind,
            name,
        ),
    }
}

fn has_target_and_owner(
    draft: &Draft,
    chains: &[Seq<usize>],
    declaring: &DraftEntity,
    relation: &DraftRelation,
) -> bool
    requires { chains.now ≡ drafted.chains draft.now }
    ensures { result ≡ well.has_target_and_owner draft.now declaring.now relation.now }
{
    place_of_entity(draft, &relation.target).is_some()
        && kind_goes_with(relation.kind, &relation.side)
        && is_kept(draft, chains, declaring, relation)
}

fn have_targets_and_owners(draft: &Draft, chains: &[Seq<usize>], declaring: &DraftEntity) -> bool
    requires { chains.now ≡ drafted.chains draft.now }
    ensures { result ≡ list_all (well.has_target_and_owner draft.now declaring.now)
        declaring.now.relations }
{
    for relation in declaring.relations.as_slice() {
        if !has_target_and_owner(draft, chains, declaring, relation) {
            return false;
        }
    }
    true
}

fn all_have_targets_and_owners(draft: &Draft, chains: &[Seq<usize>]) -> bool
    requires { chains.now ≡ drafted.chains draft.now }
    ensures { result
        ≡ list_all (λ e. list_all (well.has_target_and_owner draft.now e) e.relations)
        draft.now.entities }
{
    for entity in draft.entities.as_slice() {
        if !have_targets_and_owners(draft, chains, entity) {
            return false;
        }
    }
    true
}

fn has_class(chain: &[usize], class: usize) -> bool
    ensures { result ≡ list_any (λ c. c == class) chain.now }
{
    chain.iter().any(|c| *c == class)
}

fn is_inverse_of(
    draft: &Draft,
    chains: &[Seq<usize>],
    class: usize,
    owner: &DraftRelation,
    relation: &DraftRelation,
) -> bool
    requires { chains.now ≡ drafted.chains draft.now }
    ensures { result ≡ well.is_inverse_of draft.now class owner.now relation.now }
{
    let DraftSide::MappedBy(name) = &relation.side else {
        return false;
    };
    if !is_same_name(name, &owner.name) {
        return false;
    }
    match place_of_entity(draft, &relation.target) {
        None => false,
        Some(target) => has_class(chain_at(draft, chains, target), class),
    }
}

fn inverse_count(
    draft: &Draft,
    chains: &[Seq<usize>],
    class: usize,
    owner: &DraftRelation,
    relations: &[DraftRelation],
) -> usize
    requires { chains.now ≡ drafted.chains draft.now }
    ensures { result ≡ count_by (well.is_inverse_of draft.now class owner.now) relations.now }
{
    let mut count = 0;
    for relation in relations {
        if is_inverse_of(draft, chains, class, owner, relation) {
            count += 1;
        }
    }
    count
}

fn has_one_inverse(
    draft: &Draft,
    chains: &[Seq<usize>],
    class: usize,
    owner: &DraftRelation,
) -> bool
    requires { chains.now ≡ drafted.chains draft.now }
    ensures { result ≡ well.has_one_inverse draft.now class owner.now }
{
    match place_of_entity(draft, &owner.target) {
        None => false,
        Some(target) => {
            let relations = draft.entities.as_slice()[target].relations.as_slice();
            inverse_count(draft, chains, class, owner, relations) <= 1
        }
    }
}

fn have_one_inverse(
    draft: &Draft,
    chains: &[Seq<usize>],
    class: usize,
    relations: &[DraftRelation],
) -> bool
    requires { chains.now ≡ drafted.chains draft.now }
    ensures { result ≡ list_all (well.has_one_inverse draft.now class) relations.now }
{
    for relation in relations {
        if !has_one_inverse(draft, chains, class, relation) {
            return false;
        }
    }
    true
}

#[tactic(auto, using(jpa_model::proofs::Chained::range_next))]
fn all_have_one_inverse(draft: &Draft, chains: &[Seq<usize>]) -> bool
    requires { chains.now ≡ drafted.chains draft.now }
    ensures { result
        ≡ list_all (λ class. list_all (well.has_one_inverse draft.now class)
        (drafted.entity_at draft.now class).relations) (drafted.classes draft.now) }
{
    let entities = draft.entities.as_slice();
    for class in 0..entities.len() {
        if !have_one_inverse(draft, chains, class, entities[class].relations.as_slice()) {
            return false;
        }
    }
    true
}

/// Whether each target is an entity, and each inverse relation has an owning one to itself.
pub(super) fn has_relations(draft: &Draft, chains: &[Seq<usize>]) -> bool
    requires { chains.now ≡ drafted.chains draft.now }
    ensures { result ≡ well.has_relations draft.now }
{
    all_have_targets_and_owners(draft, chains) && all_have_one_inverse(draft, chains)
}
