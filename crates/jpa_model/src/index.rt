//! What names mean, found by name: entities of a unit and members of a class.
ghost use Rattle.std.specs.Prelude.{◌≡◌, List, ℕ, option_map, string_bytes, if◌then◌else◌, OnOk, IfOk, IfErr};
ghost use Rattle.std.specs.List.{position_from};
ghost use Rattle.std.specs.BTreeMap.{get_by_text};
ghost use Rattle.jpa_model.specs.Chains.{same_name, or_else, member_among, part_name};
ghost use Rattle.jpa_model.specs.Kept.{version_member};
ghost use Rattle.jpa_model.specs.declared.unit.Member.{Member};
ghost use Rattle.jpa_value.specs.declared.refusal.Cause.{Cause};

use crate::unit::{Attribute, Entity, Member, Part, Relation, Root};
use jpa_value::{Cause, Text};
use std::alloc::Global;
use std::collections::BTreeMap;

/// A name gets this meaning.

fn put<V: Drop>(names: &mut BTreeMap<String, V>, name: String, value: V) -> Result<(), Cause>
    ensures put { OnOk result ((q : List ℕ) → get_by_text names.new q
        ≡ (if same_name (string_bytes name) q then Some value else get_by_text names.old q)) }
    ensures err { IfErr result (λ cause. cause ≡ Cause.OutOfMemory) }
{
    names.insert(name, value)?;
    Ok(())
}

/// The place of each entity, by its name.
pub(crate) fn entities_by_name(
    alloc: Global,
    entities: &[Entity],
) -> Result<BTreeMap<String, usize>, Cause>
    ensures found { IfOk result (λ names. (q : List ℕ) → get_by_text names q
        ≡ position_from (λ e. same_name e.name q) 0 entities.now) }
    ensures err { IfErr result (λ cause. cause ≡ Cause.OutOfMemory) }
{
    let mut names = BTreeMap::new(alloc);
    let mut left = entities.len();
    while left > 0 {
        left -= 1;
        let name = String::from_str(alloc, entities[left].name.as_str())?;
        put(&mut names, name, left)?;
    }
    Ok(names)
}

fn add_attributes(
    alloc: Global,
    members: &mut BTreeMap<String, Member>,
    attributes: &[Attribute],
) -> Result<(), Cause>
    ensures added { OnOk result ((q : List ℕ) → get_by_text members.new q
        ≡ or_else (option_map Member.Attribute
        (position_from (λ a. same_name a.name q) 0 attributes.now)) (get_by_text members.old q)) }
    ensures err { IfErr result (λ cause. cause ≡ Cause.OutOfMemory) }
{
    let mut left = attributes.len();
    while left > 0 {
        left -= 1;
        let name = String::from_str(alloc, attributes[left].name.as_str())?;
        put(members, name, Member::Attribute(left))?;
    }
    Ok(())
}

fn add_relations(
    alloc: Global,
    members: &mut BTreeMap<String, Member>,
    relations: &[Relation],
) -> Result<(), Cause>
    ensures added { OnOk result ((q : List ℕ) → get_by_text members.new q
        ≡ or_else (option_map Member.Relation
        (position_from (λ r. same_name r.name q) 0 relations.now)) (get_by_text members.old q)) }
    ensures err { IfErr result (λ cause. cause ≡ Cause.OutOfMemory) }
{
    let mut left = relations.len();
    while left > 0 {
        left -= 1;
        let name = String::from_str(alloc, relations[left].name.as_str())?;
        put(members, name, Member::Relation(left))?;
    }
    Ok(())
}

fn name_of_part(alloc: Global, root: &Root, part: &Part) -> Result<String, Cause>
    ensures found { IfOk result (λ name. string_bytes name ≡ part_name root.now part.now) }
    ensures err { IfErr result (λ cause. cause ≡ Cause.OutOfMemory) }
{
    let Some(id) = &root.embedded else {
        return Ok(String::from_str(alloc, part.name.as_str())?);
    };
    let mut name = String::from_str(alloc, id.as_str())?;
    name.push_str(".")?;
    name.push_str(part.name.as_str())?;
    Ok(name)
}

fn add_parts(
    alloc: Global,
    members: &mut BTreeMap<String, Member>,
    root: &Root,
) -> Result<(), Cause>
    ensures added { OnOk result ((q : List ℕ) → get_by_text members.new q
        ≡ or_else (option_map Member.KeyPart
        (position_from (λ part. same_name (part_name root.now part) q) 0 root.now.key))
        (get_by_text members.old q)) }
    ensures err { IfErr result (λ cause. cause ≡ Cause.OutOfMemory) }
{
    let key = root.key.as_slice();
    let mut left = key.len();
    while left > 0 {
        left -= 1;
        let name = name_of_part(alloc, root, &key[left])?;
        put(members, name, Member::KeyPart(left))?;
    }
    Ok(())
}

fn add_version(
    alloc: Global,
    members: &mut BTreeMap<String, Member>,
    root: &Root,
) -> Result<(), Cause>
    ensures added { OnOk result ((q : List ℕ) → get_by_text members.new q
        ≡ or_else (version_member root.now q) (get_by_text members.old q)) }
    ensures err { IfErr result (λ cause. cause ≡ Cause.OutOfMemory) }
{
    if let Some(version) = &root.version {
        let name = String::from_str(alloc, version.name.as_str())?;
        put(members, name, Member::Version)?;
    }
    Ok(())
}

/// What each name means for a class whose chain has these attributes and relations, and whose
/// hierarchy this root.
pub(crate) fn members_by_name(
    alloc: Global,
    root: &Root,
    attributes: &[Attribute],
    relations: &[Relation],
) -> Result<BTreeMap<String, Member>, Cause>
    ensures found { IfOk result (λ names. (q : List ℕ) → get_by_text names q
        ≡ member_among root.now attributes.now relations.now q) }
    ensures err { IfErr result (λ cause. cause ≡ Cause.OutOfMemory) }
{
    let mut members = BTreeMap::new(alloc);
    add_relations(alloc, &mut members, relations)?;
    add_attributes(alloc, &mut members, attributes)?;
    add_version(alloc, &mut members, root)?;
    add_parts(alloc, &mut members, root)?;
    Ok(members)
}
