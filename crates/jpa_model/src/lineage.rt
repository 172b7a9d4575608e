//! What a class has along its chain, in one piece.
ghost use Rattle.std.specs.Prelude.{◌≡◌, ◌<◌, ◌++◌, ◌==◌, length, slice_index_or, map, OnOk, IfOk, IfErr};
ghost use Rattle.std.specs.List.{list_any, flat_map};
ghost use Rattle.jpa_model.specs.Chains as chains;
ghost use Rattle.jpa_model.specs.Kept as kept;
ghost use Rattle.jpa_value.specs.declared.refusal.Cause.{Cause};

use crate::unit::{Attribute, Origin, PersistenceUnit, Relation, Root};
use jpa_value::{Cause, Seq, TryCopy};
use std::alloc::Global;

/// What a class has along its chain.
#[derive(Drop)]
pub(crate) struct Lineage {
    /// The classes from the root to this one.
    pub(crate) chain: Seq<usize>,
    /// Whether each of the entities is this class or a superclass.
    pub(crate) kinds: Seq<bool>,
    pub(crate) root_class: usize,
    pub(crate) root: Root,
    pub(crate) attributes: Seq<Attribute>,
    pub(crate) relations: Seq<Relation>,
    /// The class that declares each of the relations.
    pub(crate) declarers: Seq<usize>,
}

fn superclass_of(unit: &PersistenceUnit, class: usize) -> Option<usize>
    ensures { result ≡ chains.superclass_in (chains.entity_at unit.now class).origin }
{
    match unit.entities.as_slice().get(class) {
        None => None,
        Some(entity) => match &entity.origin {
            Origin::Root(_) => None,
            Origin::Extends(parent) => Some(*parent),
        },
    }
}

#[tactic(auto, using(crate::proofs::Climbed::climbed))]
fn chain_from(
    alloc: Global,
    unit: &PersistenceUnit,
    steps: usize,
    class: usize,
) -> Result<Seq<usize>, Cause>
    ensures found { IfOk result (λ chain. chain ≡ chains.chain_from unit.now steps class
        (chains.entity_at unit.now class).origin) }
    ensures err { IfErr result (λ cause. cause ≡ Cause.OutOfMemory) }
{
    let mut chain = match superclass_of(unit, class) {
        Some(above) if steps > 0 => chain_from(alloc, unit, steps - 1, above)?,
        _ => Seq::new(alloc),
    };
    chain.push(class)?;
    Ok(chain)
}

fn first_or(chain: &[usize], class: usize) -> usize
    ensures { result ≡ slice_index_or chain.now 0 class }
{
    match chain {
        [] => class,
        [first, ..] => *first,
    }
}

fn no_root(alloc: Global) -> Root
    ensures { result ≡ chains.no_root }
{
    Root {
        table: 0,
        key: Seq::new(alloc),
        embedded: None,
        generated: false,
        version: None,
    }
}

fn root_at(alloc: Global, unit: &PersistenceUnit, class: usize) -> Result<Root, Cause>
    ensures found { IfOk result (λ root. root ≡ chains.root_in
        (chains.entity_at unit.now class).origin) }
    ensures err { IfErr result (λ cause. cause ≡ Cause.OutOfMemory) }
{
    let Some(entity) = unit.entities.as_slice().get(class) else {
        return Ok(no_root(alloc));
    };
    match &entity.origin {
        Origin::Root(root) => root.try_copy(),
        Origin::Extends(_) => Ok(no_root(alloc)),
    }
}

fn has_class(chain: &[usize], class: usize) -> bool
    ensures { result ≡ list_any (λ c. c == class) chain.now }
{
    chain.iter().any(|c| *c == class)
}

fn kinds_of(alloc: Global, unit: &PersistenceUnit, chain: &[usize]) -> Result<Seq<bool>, Cause>
    ensures found { IfOk result (λ kinds. kinds ≡ kept.kinds_of unit.now chain.now) }
    ensures err { IfErr result (λ cause. cause ≡ Cause.OutOfMemory) }
{
    let mut kinds = Seq::new(alloc);
    for above in 0..unit.entities.len() {
        kinds.push(has_class(chain, above))?;
    }
    Ok(kinds)
}

fn push_copies<T: TryCopy>(copies: &mut Seq<T>, items: &[T]) -> Result<(), Cause>
    ensures added { OnOk result (copies.new ≡ copies.old ++ items.now) }
    ensures err { IfErr result (λ cause. cause ≡ Cause.OutOfMemory) }
{
    for item in items {
        copies.push(item.try_copy()?)?;
    }
    Ok(())
}

fn attributes_along(
    alloc: Global,
    unit: &PersistenceUnit,
    chain: &[usize],
) -> Result<Seq<Attribute>, Cause>
    ensures found { IfOk result (λ found. found ≡ flat_map
        (λ c. (chains.entity_at unit.now c).attributes) chain.now) }
    ensures err { IfErr result (λ cause. cause ≡ Cause.OutOfMemory) }
{
    let mut found = Seq::new(alloc);
    for class in chain {
        if let Some(entity) = unit.entities.as_slice().get(*class) {
            push_copies(&mut found, entity.attributes.as_slice())?;
        }
    }
    Ok(found)
}

fn relations_along(
    alloc: Global,
    unit: &PersistenceUnit,
    chain: &[usize],
) -> Result<Seq<Relation>, Cause>
    ensures found { IfOk result (λ found. found ≡ flat_map
        (λ c. (chains.entity_at unit.now c).relations) chain.now) }
    ensures err { IfErr result (λ cause. cause ≡ Cause.OutOfMemory) }
{
    let mut found = Seq::new(alloc);
    for class in chain {
        if let Some(entity) = unit.entities.as_slice().get(*class) {
            push_copies(&mut found, entity.relations.as_slice())?;
        }
    }
    Ok(found)
}

fn push_declarer(
    declarers: &mut Seq<usize>,
    relations: &[Relation],
    class: usize,
) -> Result<(), Cause>
    ensures added { OnOk result (declarers.new ≡ declarers.old
        ++ map (λ r. class) relations.now) }
    ensures err { IfErr result (λ cause. cause ≡ Cause.OutOfMemory) }
{
    for _relation in relations {
        declarers.push(class)?;
    }
    Ok(())
}

fn push_declarer_of(
    declarers: &mut Seq<usize>,
    unit: &PersistenceUnit,
    class: usize,
) -> Result<(), Cause>
    ensures added { OnOk result (declarers.new ≡ declarers.old
        ++ map (λ r. class) (chains.entity_at unit.now class).relations) }
    ensures err { IfErr result (λ cause. cause ≡ Cause.OutOfMemory) }
{
    match unit.entities.as_slice().get(class) {
        None => Ok(()),
        Some(entity) => push_declarer(declarers, entity.relations.as_slice(), class),
    }
}

fn declarers_along(
    alloc: Global,
    unit: &PersistenceUnit,
    chain: &[usize],
) -> Result<Seq<usize>, Cause>
    ensures found { IfOk result (λ found. found ≡ flat_map
        (λ c. map (λ r. c) (chains.entity_at unit.now c).relations) chain.now) }
    ensures err { IfErr result (λ cause. cause ≡ Cause.OutOfMemory) }
{
    let mut found = Seq::new(alloc);
    for class in chain {
        push_declarer_of(&mut found, unit, *class)?;
    }
    Ok(found)
}

/// What a class has along its chain.
pub(crate) fn lineage_of(
    alloc: Global,
    unit: &PersistenceUnit,
    class: usize,
) -> Result<Lineage, Cause>
    ensures found { IfOk result (λ found. found ≡ kept.lineage_of unit.now class) }
    ensures err { IfErr result (λ cause. cause ≡ Cause.OutOfMemory) }
{
    let chain = chain_from(alloc, unit, unit.entities.len(), class)?;
    let root_class = first_or(chain.as_slice(), class);
    Ok(Lineage {
        kinds: kinds_of(alloc, unit, chain.as_slice())?,
        root_class,
        root: root_at(alloc, unit, root_class)?,
        attributes: attributes_along(alloc, unit, chain.as_slice())?,
        relations: relations_along(alloc, unit, chain.as_slice())?,
        declarers: declarers_along(alloc, unit, chain.as_slice())?,
        chain,
    })
}
