//! A persistence unit that is known to be well formed, and answers by name and by place.
use crate::class_index::{ClassIndex, index_of};
use crate::index::entities_by_name;
use crate::unit::{Attribute, Entity, Listener, Member, PersistenceUnit, Relation, Root};
use jpa_value::{Cause, Seq};
use std::alloc::Global;
use std::collections::BTreeMap;
use std::marker::Model;

/// A well-formed metamodel (chapter 2), seen by contracts as its persistence unit. What it answers
/// takes no memory, and no chain is walked: names are found in sorted order, places at once.
#[derive(Drop)]
pub struct Metamodel {
    unit: PersistenceUnit,
    names: BTreeMap<String, usize>,
    classes: Seq<ClassIndex>,
}

impl Model for Metamodel {
    ghost use Rattle.std.specs.Prelude.{◌≡◌, List, ℕ};
    ghost use Rattle.std.specs.BTreeMap.{get_by_text};
    ghost use Rattle.jpa_model.specs.Chains.{class_of};
    ghost use Rattle.jpa_model.specs.Kept.{IsDescribed, lineages_of};
    ghost use Rattle.jpa_model.specs.declared.unit.PersistenceUnit.{PersistenceUnit};

    ghost Value = { PersistenceUnit };

    ghost view = { λ m. m.unit };

    ghost invariant = { λ m. record {
      described : IsDescribed m.unit;
      named : (q : List ℕ) → get_by_text m.names q ≡ class_of m.unit q;
      indexed : m.classes ≡ lineages_of m.unit;
    } };
}

impl Metamodel {
    ghost use Rattle.std.specs.Prelude.{◌≡◌, ◌<◌, length, slice_index_or, All, IfOk, IfErr, IfSome};
    ghost use Rattle.jpa_model.specs.Chains as chains;
    ghost use Rattle.jpa_model.specs.Kept.{IsDescribed, lineage_of};
    ghost use Rattle.jpa_value.specs.declared.refusal.Cause.{Cause};

    /// The metamodel of a unit that some well-formed description describes; `OutOfMemory` where a
    /// growth was refused. `check` of `jpa_description` makes it of a description.
    pub fn of(alloc: Global, unit: PersistenceUnit) -> Result<Metamodel, Cause>
        requires { IsDescribed unit }
        ensures found { IfOk result (λ found. found ≡ unit) }
        ensures err { IfErr result (λ cause. cause ≡ Cause.OutOfMemory) }
    {
        let names = entities_by_name(alloc, unit.entities.as_slice())?;
        let classes = index_of(alloc, &unit)?;
        Ok(Metamodel {
            unit,
            names,
            classes,
        })
    }

    /// The whole unit, which some well-formed description describes.
    pub fn unit(&self) -> &PersistenceUnit
        ensures unit { result.now ≡ self.now }
        ensures described { IsDescribed self.now }
    {
        &self.unit
    }

    /// The default listeners (chapter 3.5), in the order of the description.
    pub fn listeners(&self) -> &[Listener]
        ensures { result.now ≡ self.now.listeners }
    {
        self.unit.listeners.as_slice()
    }

    /// The entities, in the order of the description: 1 to 64. A class is named by its place among
    /// them.
    pub fn entities(&self) -> &[Entity]
        ensures { result.now ≡ self.now.entities }
    {
        self.unit.entities.as_slice()
    }

    /// The entity at a place.
    pub fn entity(&self, class: usize) -> &Entity
        requires { class < length self.now.entities }
        ensures { result.now ≡ chains.entity_at self.now class }
    {
        &self.unit.entities.as_slice()[class]
    }

    /// The place of the entity of this name, where there is one.
    pub fn class_of(&self, name: &str) -> Option<usize>
        ensures place { result ≡ chains.class_of self.now name.now }
        ensures within { IfSome result (λ class. class < length self.now.entities) }
    {
        self.names.get(name).copied()
    }

    fn class_at(&self, class: usize) -> &ClassIndex
        requires { class < length self.now.entities }
        ensures lineage { result.now ≡ lineage_of self.now class }
        ensures described { IsDescribed self.now }
    {
        &self.classes.as_slice()[class]
    }

    /// The classes from the root of the hierarchy to this one (chapter 2.11).
    pub fn chain(&self, class: usize) -> &[usize]
        requires { class < length self.now.entities }
        ensures chain { result.now ≡ chains.chain self.now class }
        ensures within { All (λ c. c < length self.now.entities) result.now }
    {
        self.class_at(class).chain()
    }

    /// The class that begins the hierarchy of this one.
    pub fn root_class(&self, class: usize) -> usize
        requires { class < length self.now.entities }
        ensures { result ≡ chains.root_class self.now class }
    {
        self.class_at(class).root_class()
    }

    /// What the root of the hierarchy says for all its classes: table, key and version.
    pub fn root_of(&self, class: usize) -> &Root
        requires { class < length self.now.entities }
        ensures { result.now ≡ chains.root_of self.now class }
    {
        self.class_at(class).root()
    }

    /// Whether the hierarchy has a version (chapter 3.4.2).
    pub fn is_versioned(&self, class: usize) -> bool
        requires { class < length self.now.entities }
        ensures { result ≡ chains.is_versioned self.now class }
    {
        self.root_of(class).version.is_some()
    }

    /// Whether a class is another one or a subclass of it.
    pub fn is_kind_of(&self, class: usize, above: usize) -> bool
        requires class { class < length self.now.entities }
        requires above { above < length self.now.entities }
        ensures { result ≡ chains.is_kind_of self.now class above }
    {
        self.class_at(class).kinds()[above]
    }

    /// The attributes of a class and its superclasses, the root's first.
    pub fn attributes_of(&self, class: usize) -> &[Attribute]
        requires { class < length self.now.entities }
        ensures { result.now ≡ chains.attributes_of self.now class }
    {
        self.class_at(class).attributes()
    }

    /// The relations of a class and its superclasses, the root's first.
    pub fn relations_of(&self, class: usize) -> &[Relation]
        requires { class < length self.now.entities }
        ensures relations { result.now ≡ chains.relations_of self.now class }
        ensures within { All (λ r. r.target < length self.now.entities) result.now }
    {
        self.class_at(class).relations()
    }

    /// The relation at a place of the chain.
    pub fn relation_at(&self, class: usize, relation: usize) -> &Relation
        requires class { class < length self.now.entities }
        requires relation { relation < length (chains.relations_of self.now class) }
        ensures { result.now ≡ chains.relation_at self.now class relation }
    {
        &self.class_at(class).relations()[relation]
    }

    /// The class that declares each of the relations of a class.
    pub fn declarers_of(&self, class: usize) -> &[usize]
        requires { class < length self.now.entities }
        ensures declarers { result.now ≡ chains.declarers_of self.now class }
        ensures count { length result.now ≡ length (chains.relations_of self.now class) }
        ensures within { All (λ c. c < length self.now.entities) result.now }
    {
        self.class_at(class).declarers()
    }

    /// Whether objects of another class hold the relation that stands at a place of this one's
    /// chain.
    pub fn is_held_by(&self, class: usize, relation: usize, other: usize) -> bool
        requires class { class < length self.now.entities }
        requires relation { relation < length (chains.relations_of self.now class) }
        requires other { other < length self.now.entities }
        ensures { result ≡ chains.is_held_by self.now class relation other }
    {
        self.is_kind_of(other, self.declarer_of(class, relation))
    }

    /// The class that declares the relation at a place of the chain.
    pub fn declarer_of(&self, class: usize, relation: usize) -> usize
        requires class { class < length self.now.entities }
        requires relation { relation < length (chains.relations_of self.now class) }
        ensures declarer { result ≡ slice_index_or (chains.declarers_of self.now class) relation
            class }
        ensures within { result < length self.now.entities }
    {
        self.declarers_of(class)[relation]
    }

    /// What a name means for an object of a class, where it means anything.
    pub fn member_of(&self, class: usize, name: &str) -> Option<Member>
        requires { class < length self.now.entities }
        ensures { result ≡ chains.member_of self.now class name.now }
    {
        self.class_at(class).member(name)
    }
}
