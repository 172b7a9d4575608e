//! The unit that the program serves without a mapping.
ghost use Rattle.std.specs.Prelude.{◌≡◌, true, false, None, pos, IfOk, IfErr};
ghost use Rattle.jpa_value.specs.declared.refusal.Cause.{Cause};
ghost use Rattle.jpa_program.specs.Persons.{
  persons,
  persons_draft,
  person_draft,
  person_root,
  person_attributes,
  orders_draft,
  order_draft,
  order_key,
  order_attributes,
  person_of_draft,
};

use jpa_description::description::check;
use jpa_model::{
    Cascade, Draft, DraftAttribute, DraftColumn, DraftEntity, DraftOrigin, DraftRelation,
    DraftRoot, DraftSide, DraftVersion, Metamodel, Part, RelationKind,
};
use jpa_value::{Cause, Kind, Seq, Text};
use std::alloc::Global;

/// The root of persons: table 1, with a generated key and a version.
fn person_root(alloc: Global) -> Result<DraftRoot, Cause>
    ensures root { IfOk result (λ root. root ≡ person_root) }
    ensures err { IfErr result (λ cause. cause ≡ Cause.OutOfMemory) }
{
    let mut key = Seq::new(alloc);
    key.push(Part {
        name: Text::of(alloc, "id")?,
        kind: Kind::Int,
    })?;
    let name = Text::of(alloc, "version")?;
    Ok(DraftRoot {
        table: 1,
        key,
        embedded: None,
        generated: true,
        version: Some(DraftVersion { name, column: 1 }),
    })
}

fn person_attributes(alloc: Global) -> Result<Seq<DraftAttribute>, Cause>
    ensures attributes { IfOk result (λ attributes. attributes ≡ person_attributes) }
    ensures err { IfErr result (λ cause. cause ≡ Cause.OutOfMemory) }
{
    let mut attributes = Seq::new(alloc);
    attributes.push(DraftAttribute {
        name: Text::of(alloc, "name")?,
        kind: Kind::Text,
        column: 2,
        required: false,
        converter: None,
    })?;
    Ok(attributes)
}

/// The orders of a person, which go with her.
fn orders(alloc: Global) -> Result<DraftRelation, Cause>
    ensures orders { IfOk result (λ orders. orders ≡ orders_draft) }
    ensures err { IfErr result (λ cause. cause ≡ Cause.OutOfMemory) }
{
    let mut cascade = Seq::new(alloc);
    cascade.push(Cascade::All)?;
    let side = DraftSide::MappedBy(Text::of(alloc, "person")?);
    Ok(DraftRelation {
        name: Text::of(alloc, "orders")?,
        kind: RelationKind::OneToMany,
        target: Text::of(alloc, "Order")?,
        side,
        cascade,
        orphan_removal: true,
    })
}

fn person(alloc: Global) -> Result<DraftEntity, Cause>
    ensures person { IfOk result (λ person. person ≡ person_draft) }
    ensures err { IfErr result (λ cause. cause ≡ Cause.OutOfMemory) }
{
    let mut relations = Seq::new(alloc);
    relations.push(orders(alloc)?)?;
    Ok(DraftEntity {
        name: Text::of(alloc, "Person")?,
        origin: DraftOrigin::Root(person_root(alloc)?),
        discriminator: None,
        attributes: person_attributes(alloc)?,
        relations,
        listeners: Seq::new(alloc),
        callbacks: Seq::new(alloc),
        exclude_default: false,
        exclude_super: false,
    })
}

/// The root of orders: table 2, with a key that is assigned and no version.
fn order_root(alloc: Global) -> Result<DraftRoot, Cause>
    ensures root { IfOk result
        (λ root. root
        ≡ record {
          table = pos 2;
          key = order_key;
          embedded = None;
          generated = false;
          version = None;
        }) }
    ensures err { IfErr result (λ cause. cause ≡ Cause.OutOfMemory) }
{
    let mut key = Seq::new(alloc);
    key.push(Part {
        name: Text::of(alloc, "number")?,
        kind: Kind::Int,
    })?;
    Ok(DraftRoot {
        table: 2,
        key,
        embedded: None,
        generated: false,
        version: None,
    })
}

fn order_attributes(alloc: Global) -> Result<Seq<DraftAttribute>, Cause>
    ensures attributes { IfOk result (λ attributes. attributes ≡ order_attributes) }
    ensures err { IfErr result (λ cause. cause ≡ Cause.OutOfMemory) }
{
    let mut attributes = Seq::new(alloc);
    attributes.push(DraftAttribute {
        name: Text::of(alloc, "amount")?,
        kind: Kind::Int,
        column: 1,
        required: false,
        converter: None,
    })?;
    Ok(attributes)
}

/// The person of an order.
fn person_of(alloc: Global) -> Result<DraftRelation, Cause>
    ensures person { IfOk result (λ person. person ≡ person_of_draft) }
    ensures err { IfErr result (λ cause. cause ≡ Cause.OutOfMemory) }
{
    Ok(DraftRelation {
        name: Text::of(alloc, "person")?,
        kind: RelationKind::ManyToOne,
        target: Text::of(alloc, "Person")?,
        side: DraftSide::Column(DraftColumn {
            column: 2,
            required: false,
        }),
        cascade: Seq::new(alloc),
        orphan_removal: false,
    })
}

fn order(alloc: Global) -> Result<DraftEntity, Cause>
    ensures order { IfOk result (λ order. order ≡ order_draft) }
    ensures err { IfErr result (λ cause. cause ≡ Cause.OutOfMemory) }
{
    let mut relations = Seq::new(alloc);
    relations.push(person_of(alloc)?)?;
    Ok(DraftEntity {
        name: Text::of(alloc, "Order")?,
        origin: DraftOrigin::Root(order_root(alloc)?),
        discriminator: None,
        attributes: order_attributes(alloc)?,
        relations,
        listeners: Seq::new(alloc),
        callbacks: Seq::new(alloc),
        exclude_default: false,
        exclude_super: false,
    })
}

pub(crate) fn description(alloc: Global) -> Result<Draft, Cause>
    ensures draft { IfOk result (λ draft. draft ≡ persons_draft) }
    ensures err { IfErr result (λ cause. cause ≡ Cause.OutOfMemory) }
{
    let mut entities = Seq::new(alloc);
    entities.push(person(alloc)?)?;
    entities.push(order(alloc)?)?;
    Ok(Draft {
        revision: 1,
        listeners: Seq::new(alloc),
        entities,
    })
}

/// The unit that is served without a mapping file: persons with generated keys, versions and names,
/// and their orders, which go with them. `OutOfMemory` where a growth was refused.
pub fn first_unit(alloc: Global) -> Result<Metamodel, Cause>
    ensures unit { IfOk result (λ metamodel. metamodel ≡ persons) }
    ensures err { IfErr result (λ cause. cause ≡ Cause.OutOfMemory) }
{
    check(alloc, &description(alloc)?)
}
