//! The chains and hierarchies of a description.
ghost use Rattle.std.specs.Prelude.{◌≡◌, ◌<◌, All, IfOk, IfErr, length};
ghost use Rattle.std.specs.List.{list_all};
ghost use Rattle.jpa_model.specs.Drafted as drafted;
ghost use Rattle.jpa_model.specs.WellFormed as well;
ghost use Rattle.jpa_value.specs.declared.refusal.Cause.{Cause};

use crate::description::alone::place_of_entity;
use jpa_model::{Draft, DraftEntity, DraftOrigin};
use jpa_value::{Cause, Seq};
use std::alloc::Global;

fn superclass_in(draft: &Draft, origin: &DraftOrigin) -> Option<usize>
    ensures { result ≡ drafted.superclass_in draft.now origin.now }
{
    match origin {
        DraftOrigin::Root(_) => None,
        DraftOrigin::Extends(name) => place_of_entity(draft, name),
    }
}

fn superclass_of(draft: &Draft, class: usize) -> Option<usize>
    ensures { result ≡ drafted.superclass_of draft.now class }
{
    match draft.entities.as_slice().get(class) {
        None => None,
        Some(entity) => superclass_in(draft, &entity.origin),
    }
}

#[tactic(auto, using(jpa_model::proofs::Chained::chain_from_step))]
fn chain_from(
    alloc: Global,
    draft: &Draft,
    steps: usize,
    class: usize,
    superclass: Option<usize>,
) -> Result<Seq<usize>, Cause>
    ensures found { IfOk result (λ chain. chain ≡ drafted.chain_from draft.now steps class
        superclass) }
    ensures err { IfErr result (λ cause. cause ≡ Cause.OutOfMemory) }
{
    let mut chain = match superclass {
        Some(above) if steps > 0 => chain_from(
            alloc,
            draft,
            steps - 1,
            above,
            superclass_of(draft, above),
        )?,
        _ => Seq::new(alloc),
    };
    chain.push(class)?;
    Ok(chain)
}

/// The chain of each entity, in the order of the entities.
#[tactic(auto, using(jpa_model::proofs::Chained::chains_more))]
pub(super) fn chains_of(alloc: Global, draft: &Draft) -> Result<Seq<Seq<usize>>, Cause>
    ensures found { IfOk result (λ chains. chains ≡ drafted.chains draft.now) }
    ensures err { IfErr result (λ cause. cause ≡ Cause.OutOfMemory) }
{
    let steps = draft.entities.len();
    let mut chains = Seq::new(alloc);
    for class in 0..steps {
        chains.push(chain_from(alloc, draft, steps, class, superclass_of(draft, class))?)?;
    }
    Ok(chains)
}

fn first_of(chain: &[usize]) -> usize
    ensures { result ≡ drafted.first_of chain.now }
{
    match chain {
        [] => 0,
        [first, ..] => *first,
    }
}

fn begins_with_root(draft: &Draft, chain: &[usize]) -> bool
    ensures { result ≡ well.begins_with_root draft.now chain.now }
{
    match draft.entities.as_slice().get(first_of(chain)) {
        None => true,
        Some(entity) => matches!(entity.origin, DraftOrigin::Root(_)),
    }
}

/// Whether each of the chains begins with a root.
pub(super) fn begin_with_roots(draft: &Draft, chains: &[Seq<usize>]) -> bool
    ensures { result ≡ list_all (well.begins_with_root draft.now) chains.now }
{
    chains
        .iter()
        .all(|chain| begins_with_root(draft, chain.as_slice()))
}

/// The chain of a class.
pub(super) fn chain_at<'a>(draft: &Draft, chains: &'a [Seq<usize>], class: usize) -> &'a [usize]
    requires chained { chains.now ≡ drafted.chains draft.now }
    requires class { class < length draft.now.entities }
    ensures { result.now ≡ drafted.chain draft.now class }
{
    chains[class].as_slice()
}

/// The classes whose chains begin with this one.
pub(super) fn hierarchy_of(
    alloc: Global,
    draft: &Draft,
    chains: &[Seq<usize>],
    root: usize,
) -> Result<Seq<usize>, Cause>
    requires { chains.now ≡ drafted.chains draft.now }
    ensures found { IfOk result (λ members. members ≡ drafted.hierarchy draft.now root) }
    ensures within { IfOk result (λ members. All (λ class. class < length draft.now.entities)
        members) }
    ensures err { IfErr result (λ cause. cause ≡ Cause.OutOfMemory) }
{
    let mut members = Seq::new(alloc);
    for class in 0..draft.entities.len() {
        if first_of(chain_at(draft, chains, class)) == root {
            members.push(class)?;
        }
    }
    Ok(members)
}
