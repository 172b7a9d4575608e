//! The tables and columns that a unit names.
ghost use Rattle.std.specs.Prelude.{◌≡◌, ◌<◌, ◌^◌, ◌++◌, ◌∷◌, [], length, map, OnOk, IfOk, IfErr};
ghost use Rattle.std.specs.List.{flat_map};
ghost use Rattle.jpa_value.specs.declared.refusal.Cause.{Cause};
ghost use Rattle.jpa_model.specs.Chains as chains;
ghost use Rattle.jpa_model.specs.declared.unit.Origin.{Origin};
ghost use Rattle.jpa_rows.specs.rows.Numbers.{IsNarrow, IsNarrowVersion, IsNarrowLink, IsNarrowRoot, IsNarrowOrigin, IsNarrowRelation, AreNarrowAttributes, AreNarrowRelations};
ghost use Rattle.jpa_rows.specs.rows.Tables as tables;

use crate::rows::schema::{ColumnRule, Holds, Schema, TableRule};
use jpa_model::{
    Attribute, Column, Entity, Metamodel, Origin, Relation, Root, Side, VersionColumn,
};
use jpa_value::{Cause, Kind, Seq};
use std::alloc::Global;

/// The entity at a place, whose numbers fit 32 bits.
pub fn entity_at(metamodel: &Metamodel, class: usize) -> &Entity
    requires { class < length metamodel.now.entities }
    ensures entity { result.now ≡ chains.entity_at metamodel.now class }
    ensures narrow { IsNarrow metamodel.now result.now }
{
    &metamodel.unit().entities.as_slice()[class]
}

/// Adds the kinds of the parts of a key.
fn push_kinds(kinds: &mut Seq<Kind>, root: &Root) -> Result<(), Cause>
    ensures ok { OnOk result (kinds.new ≡ kinds.old ++ tables.kinds_of root.now) }
    ensures err { IfErr result (λ cause. cause ≡ Cause.OutOfMemory) }
{
    for part in root.key.as_slice() {
        kinds.push(part.kind)?;
    }
    Ok(())
}

// ---- columns

fn push_version(rules: &mut Seq<ColumnRule>, version: &Option<VersionColumn>) -> Result<(), Cause>
    requires { IsNarrowVersion version.now }
    ensures ok { OnOk result (rules.new ≡ rules.old ++ tables.version_rules version.now) }
    ensures err { IfErr result (λ cause. cause ≡ Cause.OutOfMemory) }
{
    if let Some(version) = version {
        rules.push(ColumnRule {
            column: version.column as u32,
            holds: Holds::Kind(Kind::Int),
        })?;
    }
    Ok(())
}

/// What a converter makes is of any kind.
fn attribute_rule(attribute: &Attribute) -> ColumnRule
    requires { attribute.now.column < 2 ^ 32 }
    ensures { result ≡ tables.attribute_rule attribute.now }
{
    let holds = match attribute.converter {
        None => Holds::Kind(attribute.kind),
        Some(_) => Holds::Any,
    };
    ColumnRule {
        column: attribute.column as u32,
        holds,
    }
}

fn push_attributes(rules: &mut Seq<ColumnRule>, attributes: &[Attribute]) -> Result<(), Cause>
    requires { AreNarrowAttributes attributes.now }
    ensures ok { OnOk result (rules.new ≡ rules.old ++ map tables.attribute_rule attributes.now) }
    ensures err { IfErr result (λ cause. cause ≡ Cause.OutOfMemory) }
{
    for attribute in attributes {
        rules.push(attribute_rule(attribute))?;
    }
    Ok(())
}

fn push_link(
    rules: &mut Seq<ColumnRule>,
    metamodel: &Metamodel,
    target: usize,
    column: Option<Column>,
) -> Result<(), Cause>
    requires target { target < length metamodel.now.entities }
    requires narrow { IsNarrowLink column }
    ensures ok { OnOk result (rules.new ≡ rules.old
        ++ tables.link_rules metamodel.now target column) }
    ensures err { IfErr result (λ cause. cause ≡ Cause.OutOfMemory) }
{
    if let Some(column) = column {
        let mut kinds = Seq::new(rules.allocator());
        push_kinds(&mut kinds, metamodel.root_of(target))?;
        rules.push(ColumnRule {
            column: column.column as u32,
            holds: Holds::Reference(kinds),
        })?;
    }
    Ok(())
}

fn push_links(
    rules: &mut Seq<ColumnRule>,
    metamodel: &Metamodel,
    relations: &[Relation],
) -> Result<(), Cause>
    requires { AreNarrowRelations metamodel.now relations.now }
    ensures ok { OnOk result (rules.new ≡ rules.old
        ++ flat_map (λ r. tables.link_rules metamodel.now r.target (chains.column_of r.side))
        relations.now) }
    ensures err { IfErr result (λ cause. cause ≡ Cause.OutOfMemory) }
{
    for relation in relations {
        push_link(rules, metamodel, relation.target, relation.side.column())?;
    }
    Ok(())
}

/// The columns that a class itself declares.
fn push_class(
    rules: &mut Seq<ColumnRule>,
    metamodel: &Metamodel,
    entity: &Entity,
) -> Result<(), Cause>
    requires { IsNarrow metamodel.now entity.now }
    ensures ok { OnOk result (rules.new ≡ rules.old
        ++ tables.rules_of_class metamodel.now entity.now) }
    ensures err { IfErr result (λ cause. cause ≡ Cause.OutOfMemory) }
{
    push_attributes(rules, entity.attributes.as_slice())?;
    push_links(rules, metamodel, entity.relations.as_slice())?;
    Ok(())
}

/// The columns of the classes of a hierarchy.
fn push_classes(
    rules: &mut Seq<ColumnRule>,
    metamodel: &Metamodel,
    root: usize,
) -> Result<(), Cause>
    ensures ok { OnOk result (rules.new ≡ rules.old
        ++ flat_map (λ c. tables.rules_of_class metamodel.now (chains.entity_at metamodel.now c))
        (tables.classes_below metamodel.now root)) }
    ensures err { IfErr result (λ cause. cause ≡ Cause.OutOfMemory) }
{
    for class in 0..metamodel.entities().len() {
        if metamodel.root_class(class) == root {
            push_class(rules, metamodel, entity_at(metamodel, class))?;
        }
    }
    Ok(())
}

/// The columns of a root's table: the discriminator's, the version's, and those of the hierarchy's
/// classes.
fn rules_of(
    alloc: Global,
    metamodel: &Metamodel,
    class: usize,
    root: &Root,
) -> Result<Seq<ColumnRule>, Cause>
    requires { IsNarrowVersion root.now.version }
    ensures ok { IfOk result (λ rules. rules ≡ tables.rules_of metamodel.now class root.now) }
    ensures err { IfErr result (λ cause. cause ≡ Cause.OutOfMemory) }
{
    let mut rules = Seq::new(alloc);
    rules.push(ColumnRule {
        column: 0,
        holds: Holds::Kind(Kind::Text),
    })?;
    push_version(&mut rules, &root.version)?;
    push_classes(&mut rules, metamodel, class)?;
    Ok(rules)
}

// ---- tables

/// The column of a pair's row and of a next number.
fn one_number(alloc: Global) -> Result<Seq<ColumnRule>, Cause>
    ensures ok { IfOk result (λ rules. rules ≡ tables.one_number) }
    ensures err { IfErr result (λ cause. cause ≡ Cause.OutOfMemory) }
{
    let mut rules = Seq::new(alloc);
    rules.push(ColumnRule {
        column: 0,
        holds: Holds::Kind(Kind::Int),
    })?;
    Ok(rules)
}

/// Table 0, whose rows are named by the table of a hierarchy.
fn next_numbers(alloc: Global) -> Result<TableRule, Cause>
    ensures ok { IfOk result (λ table. table ≡ tables.next_numbers) }
    ensures err { IfErr result (λ cause. cause ≡ Cause.OutOfMemory) }
{
    let mut key = Seq::new(alloc);
    key.push(Kind::Int)?;
    Ok(TableRule {
        table: 0,
        key,
        columns: one_number(alloc)?,
    })
}

fn root_table(
    alloc: Global,
    metamodel: &Metamodel,
    class: usize,
    root: &Root,
) -> Result<TableRule, Cause>
    requires { IsNarrowRoot root.now }
    ensures ok { IfOk result (λ table. tables.root_table metamodel.now class (Origin.Root root.now)
        ≡ table ∷ []) }
    ensures err { IfErr result (λ cause. cause ≡ Cause.OutOfMemory) }
{
    let mut key = Seq::new(alloc);
    push_kinds(&mut key, root)?;
    Ok(TableRule {
        table: root.table as u32,
        key,
        columns: rules_of(alloc, metamodel, class, root)?,
    })
}

fn push_root_table(
    found: &mut Seq<TableRule>,
    metamodel: &Metamodel,
    class: usize,
    origin: &Origin,
) -> Result<(), Cause>
    requires { IsNarrowOrigin origin.now }
    ensures ok { OnOk result (found.new ≡ found.old
        ++ tables.root_table metamodel.now class origin.now) }
    ensures err { IfErr result (λ cause. cause ≡ Cause.OutOfMemory) }
{
    if let Origin::Root(root) = origin {
        found.push(root_table(found.allocator(), metamodel, class, root)?)?;
    }
    Ok(())
}

/// The kinds of an owner's key, and then of its target's.
fn pair_kinds(
    alloc: Global,
    metamodel: &Metamodel,
    owner: usize,
    target: usize,
) -> Result<Seq<Kind>, Cause>
    requires owner { owner < length metamodel.now.entities }
    requires target { target < length metamodel.now.entities }
    ensures ok { IfOk result (λ kinds. kinds ≡ tables.kinds_of
        (chains.root_of metamodel.now owner)
        ++ tables.kinds_of (chains.root_of metamodel.now target)) }
    ensures err { IfErr result (λ cause. cause ≡ Cause.OutOfMemory) }
{
    let mut kinds = Seq::new(alloc);
    push_kinds(&mut kinds, metamodel.root_of(owner))?;
    push_kinds(&mut kinds, metamodel.root_of(target))?;
    Ok(kinds)
}

fn push_join_table(
    found: &mut Seq<TableRule>,
    metamodel: &Metamodel,
    class: usize,
    relation: &Relation,
) -> Result<(), Cause>
    requires class { class < length metamodel.now.entities }
    requires narrow { IsNarrowRelation metamodel.now relation.now }
    ensures ok { OnOk result (found.new ≡ found.old
        ++ tables.join_table metamodel.now class relation.now) }
    ensures err { IfErr result (λ cause. cause ≡ Cause.OutOfMemory) }
{
    if let Side::ManyToMany(join) = relation.side {
        let alloc = found.allocator();
        found.push(TableRule {
            table: join as u32,
            key: pair_kinds(alloc, metamodel, class, relation.target)?,
            columns: one_number(alloc)?,
        })?;
    }
    Ok(())
}

fn push_join_tables(
    found: &mut Seq<TableRule>,
    metamodel: &Metamodel,
    class: usize,
    relations: &[Relation],
) -> Result<(), Cause>
    requires class { class < length metamodel.now.entities }
    requires narrow { AreNarrowRelations metamodel.now relations.now }
    ensures ok { OnOk result (found.new ≡ found.old
        ++ flat_map (tables.join_table metamodel.now class) relations.now) }
    ensures err { IfErr result (λ cause. cause ≡ Cause.OutOfMemory) }
{
    for relation in relations {
        push_join_table(found, metamodel, class, relation)?;
    }
    Ok(())
}

fn push_tables(found: &mut Seq<TableRule>, metamodel: &Metamodel, class: usize) -> Result<(), Cause>
    requires { class < length metamodel.now.entities }
    ensures ok { OnOk result (found.new ≡ found.old
        ++ tables.tables_of_class metamodel.now class) }
    ensures err { IfErr result (λ cause. cause ≡ Cause.OutOfMemory) }
{
    let entity = entity_at(metamodel, class);
    push_root_table(found, metamodel, class, &entity.origin)?;
    push_join_tables(found, metamodel, class, entity.relations.as_slice())?;
    Ok(())
}

impl Schema {
    ghost use Rattle.std.specs.Prelude.{◌≡◌, IfOk, IfErr};
    ghost use Rattle.jpa_value.specs.declared.refusal.Cause.{Cause};
    ghost use Rattle.jpa_rows.specs.rows.Tables.{schema_of};

    /// The tables that a unit names: table 0, those of its roots, and its join tables (chapters
    /// 2.10 to 2.12).
    ///
    /// Fails for want of memory alone, with `OutOfMemory`.
    #[tactic(auto, using(crate::proofs::rows::Classes::range_made))]
    pub fn of(alloc: Global, metamodel: &Metamodel) -> Result<Schema, Cause>
        ensures ok { IfOk result (λ schema. schema ≡ schema_of metamodel.now) }
        ensures err { IfErr result (λ cause. cause ≡ Cause.OutOfMemory) }
    {
        let mut found = Seq::new(alloc);
        found.push(next_numbers(alloc)?)?;
        for class in 0..metamodel.entities().len() {
            push_tables(&mut found, metamodel, class)?;
        }
        Ok(Schema { tables: found })
    }
}
