//! What a class has along its chain, with its members by name.
use crate::index::members_by_name;
use crate::lineage::{Lineage, lineage_of};
use crate::unit::{Attribute, Member, PersistenceUnit, Relation, Root};
use jpa_value::{Cause, Seq};
use std::alloc::Global;
use std::collections::BTreeMap;
use std::marker::Model;

/// What a class has along its chain, seen by contracts as its lineage.
#[derive(Drop)]
pub(crate) struct ClassIndex {
    lineage: Lineage,
    members: BTreeMap<String, Member>,
}

impl Model for ClassIndex {
    ghost use Rattle.std.specs.Prelude.{◌≡◌, List, ℕ};
    ghost use Rattle.std.specs.BTreeMap.{get_by_text};
    ghost use Rattle.jpa_model.specs.Chains.{member_among};
    ghost use Rattle.jpa_model.specs.declared.lineage.Lineage.{Lineage};

    ghost Value = { Lineage };

    ghost view = { λ c. c.lineage };

    ghost invariant = { λ c. (q : List ℕ) → get_by_text c.members q ≡ member_among c.lineage.root c.lineage.attributes c.lineage.relations q };
}

impl ClassIndex {
    ghost use Rattle.std.specs.Prelude.{◌≡◌, IfOk, IfErr};
    ghost use Rattle.jpa_model.specs.Chains.{member_among};
    ghost use Rattle.jpa_model.specs.Kept.{lineage_of};
    ghost use Rattle.jpa_value.specs.declared.refusal.Cause.{Cause};

    /// The index of a class.
    pub(crate) fn of(
        alloc: Global,
        unit: &PersistenceUnit,
        class: usize,
    ) -> Result<ClassIndex, Cause>
        ensures found { IfOk result (λ found. found ≡ lineage_of unit.now class) }
        ensures err { IfErr result (λ cause. cause ≡ Cause.OutOfMemory) }
    {
        let lineage = lineage_of(alloc, unit, class)?;
        let members = members_by_name(
            alloc,
            &lineage.root,
            lineage.attributes.as_slice(),
            lineage.relations.as_slice(),
        )?;
        Ok(ClassIndex { lineage, members })
    }

    pub(crate) fn chain(&self) -> &[usize]
        ensures { result.now ≡ self.now.chain }
    {
        self.lineage.chain.as_slice()
    }

    pub(crate) fn kinds(&self) -> &[bool]
        ensures { result.now ≡ self.now.kinds }
    {
        self.lineage.kinds.as_slice()
    }

    pub(crate) fn root_class(&self) -> usize
        ensures { result ≡ self.now.root_class }
    {
        self.lineage.root_class
    }

    pub(crate) fn root(&self) -> &Root
        ensures { result.now ≡ self.now.root }
    {
        &self.lineage.root
    }

    pub(crate) fn attributes(&self) -> &[Attribute]
        ensures { result.now ≡ self.now.attributes }
    {
        self.lineage.attributes.as_slice()
    }

    pub(crate) fn relations(&self) -> &[Relation]
        ensures { result.now ≡ self.now.relations }
    {
        self.lineage.relations.as_slice()
    }

    pub(crate) fn declarers(&self) -> &[usize]
        ensures { result.now ≡ self.now.declarers }
    {
        self.lineage.declarers.as_slice()
    }

    /// What a name means.
    pub(crate) fn member(&self, name: &str) -> Option<Member>
        ensures { result ≡ member_among self.now.root self.now.attributes self.now.relations
            name.now }
    {
        self.members.get(name).copied()
    }
}

ghost use Rattle.std.specs.Prelude.{◌≡◌, IfOk, IfErr};
ghost use Rattle.jpa_model.specs.Kept.{lineages_of};
ghost use Rattle.jpa_value.specs.declared.refusal.Cause.{Cause};

/// The index of each class.
pub(crate) fn index_of(alloc: Global, unit: &PersistenceUnit) -> Result<Seq<ClassIndex>, Cause>
    ensures found { IfOk result (λ found. found ≡ lineages_of unit.now) }
    ensures err { IfErr result (λ cause. cause ≡ Cause.OutOfMemory) }
{
    let mut found = Seq::new(alloc);
    for class in 0..unit.entities.len() {
        found.push(ClassIndex::of(alloc, unit, class)?)?;
    }
    Ok(found)
}
