//! The conditions on what the classes of a chain, and those of a hierarchy, declare together.
ghost use Rattle.std.specs.Prelude.{◌≡◌, ◌<◌, ◌++◌, All, length, map, option_copied, OnOk, IfOk, IfErr, sum_by, nat_le};
ghost use Rattle.std.specs.List.{list_all};
ghost use Rattle.jpa_model.specs.Drafted as drafted;
ghost use Rattle.jpa_model.specs.WellFormed as well;
ghost use Rattle.jpa_value.specs.declared.refusal.Cause.{Cause};

use crate::description::alone::discriminators_are_short;
use crate::description::chains::hierarchy_of;
use crate::description::names::{are_distinct_names, push_names};
use crate::description::numbers::{are_numbers, columns_of, tables_of};
use jpa_model::{Draft, DraftEntity, DraftOrigin};
use jpa_value::{Cause, Seq, Text};
use std::alloc::Global;

fn push_root_names<'a>(names: &mut Vec<&'a Text>, origin: &'a DraftOrigin) -> Result<(), Cause>
    ensures added { OnOk result (drafted.names_in names.new.items
        ≡ drafted.names_in names.old.items ++ drafted.root_names origin.now) }
    ensures err { IfErr result (λ cause. cause ≡ Cause.OutOfMemory) }
{
    if let DraftOrigin::Root(root) = origin {
        match &root.embedded {
            None => push_names(names, root.key.as_slice())?,
            Some(id) => names.push(id)?,
        }
        if let Some(version) = &root.version {
            names.push(&version.name)?;
        }
    }
    Ok(())
}

fn push_member_names<'a>(names: &mut Vec<&'a Text>, entity: &'a DraftEntity) -> Result<(), Cause>
    ensures added { OnOk result (drafted.names_in names.new.items
        ≡ drafted.names_in names.old.items ++ drafted.member_names entity.now) }
    ensures err { IfErr result (λ cause. cause ≡ Cause.OutOfMemory) }
{
    push_root_names(names, &entity.origin)?;
    push_names(names, entity.attributes.as_slice())?;
    push_names(names, entity.relations.as_slice())
}

fn names_along<'a>(alloc: Global, draft: &'a Draft, chain: &[usize]) -> Result<Vec<&'a Text>, Cause>
    ensures found { IfOk result (λ names. drafted.names_in names.items
        ≡ drafted.declared_by drafted.member_names draft.now chain.now) }
    ensures err { IfErr result (λ cause. cause ≡ Cause.OutOfMemory) }
{
    let mut names = Vec::new(alloc);
    for class in chain {
        if let Some(entity) = draft.entities.as_slice().get(*class) {
            push_member_names(&mut names, entity)?;
        }
    }
    Ok(names)
}

fn are_few_along(draft: &Draft, chain: &[usize]) -> bool
    ensures { result
        ≡ nat_le (sum_by (λ class. well.member_count (drafted.entity_at draft.now class))
        chain.now) 64 }
{
    let mut room: usize = 64;
    for class in chain {
        if let Some(entity) = draft.entities.as_slice().get(*class) {
            if entity.attributes.len() > room
                || entity.relations.len() > room - entity.attributes.len()
            {
                return false;
            }
            room = room - entity.attributes.len() - entity.relations.len();
        }
    }
    true
}

#[tactic(auto, using(crate::proofs::description::SameName::distinct_names))]
fn is_distinct_along(alloc: Global, draft: &Draft, chain: &[usize]) -> Result<bool, Cause>
    ensures judged { IfOk result (λ b. b ≡ well.is_distinct_along draft.now chain.now) }
    ensures err { IfErr result (λ cause. cause ≡ Cause.OutOfMemory) }
{
    if !are_few_along(draft, chain) {
        return Ok(false);
    }
    let names = names_along(alloc, draft, chain)?;
    Ok(are_distinct_names(names.as_slice()))
}

/// Whether names are distinct, and attributes and relations few, along each of the chains.
pub(super) fn are_distinct_along(
    alloc: Global,
    draft: &Draft,
    chains: &[Seq<usize>],
) -> Result<bool, Cause>
    ensures judged { IfOk result (λ b. b ≡ list_all (well.is_distinct_along draft.now)
        chains.now) }
    ensures err { IfErr result (λ cause. cause ≡ Cause.OutOfMemory) }
{
    for chain in chains {
        if !is_distinct_along(alloc, draft, chain.as_slice())? {
            return Ok(false);
        }
    }
    Ok(true)
}

/// The discriminator of an entity: what it says, else its name.
pub(super) fn discriminator_of(entity: &DraftEntity) -> &Text
    ensures { result.now ≡ drafted.discriminator entity.now }
{
    match &entity.discriminator {
        Some(text) => text,
        None => &entity.name,
    }
}

fn discriminators_of<'a>(
    alloc: Global,
    draft: &'a Draft,
    places: &[usize],
) -> Result<Vec<&'a Text>, Cause>
    requires { All (λ class. class < length draft.now.entities) places.now }
    ensures found { IfOk result (λ texts. drafted.names_in texts.items
        ≡ map (λ class. drafted.discriminator (drafted.entity_at draft.now class)) places.now) }
    ensures err { IfErr result (λ cause. cause ≡ Cause.OutOfMemory) }
{
    let mut texts = Vec::new(alloc);
    for class in places {
        texts.push(discriminator_of(&draft.entities.as_slice()[*class]))?;
    }
    Ok(texts)
}

#[tactic(auto, using(crate::proofs::description::SameName::distinct_names))]
fn is_stored_apart(alloc: Global, draft: &Draft, places: &[usize]) -> Result<bool, Cause>
    requires { All (λ class. class < length draft.now.entities) places.now }
    ensures judged { IfOk result (λ b. b ≡ well.is_stored_apart draft.now places.now) }
    ensures err { IfErr result (λ cause. cause ≡ Cause.OutOfMemory) }
{
    let columns = columns_of(alloc, draft, places)?;
    if !are_numbers(columns.as_slice()) {
        return Ok(false);
    }
    let discriminators = discriminators_of(alloc, draft, places)?;
    Ok(are_distinct_names(discriminators.as_slice()))
}

#[tactic(auto, using(jpa_model::proofs::Chained::range_next))]
fn are_stored_apart(alloc: Global, draft: &Draft, chains: &[Seq<usize>]) -> Result<bool, Cause>
    requires { chains.now ≡ drafted.chains draft.now }
    ensures judged { IfOk result (λ b. b ≡ list_all
        (λ root. well.is_stored_apart draft.now (drafted.hierarchy draft.now root))
        (drafted.classes draft.now)) }
    ensures err { IfErr result (λ cause. cause ≡ Cause.OutOfMemory) }
{
    for root in 0..draft.entities.len() {
        let members = hierarchy_of(alloc, draft, chains, root)?;
        if !is_stored_apart(alloc, draft, members.as_slice())? {
            return Ok(false);
        }
    }
    Ok(true)
}

/// Whether tables, columns and discriminators are in order.
pub(super) fn has_numbers(
    alloc: Global,
    draft: &Draft,
    chains: &[Seq<usize>],
) -> Result<bool, Cause>
    requires { chains.now ≡ drafted.chains draft.now }
    ensures judged { IfOk result (λ b. b ≡ well.has_numbers draft.now) }
    ensures err { IfErr result (λ cause. cause ≡ Cause.OutOfMemory) }
{
    let entities = draft.entities.as_slice();
    if !discriminators_are_short(entities) {
        return Ok(false);
    }
    let tables = tables_of(alloc, entities)?;
    if !are_numbers(tables.as_slice()) {
        return Ok(false);
    }
    are_stored_apart(alloc, draft, chains)
}
