//! Entities, and the whole description.
ghost use Rattle.serde_json.specs.View.{view};
ghost use Rattle.jpa_json.specs.readers.Outcome.{Gives, same};
ghost use Rattle.jpa_json.specs.mapping.DraftOf as drafts;

use crate::mapping::members::{Description, flag, list_at, only, optional, required};
use crate::readers::{Described, Unread};
use jpa_model::{Draft, DraftEntity, DraftOrigin, DraftRoot};
use serde_json::Value as Json;
use std::alloc::Global;

const SUBCLASS_MEMBERS: [&str; 9] = [
    "extends",
    "name",
    "discriminator",
    "attributes",
    "relations",
    "listeners",
    "callbacks",
    "excludeDefault",
    "excludeSuper",
];

const ROOT_MEMBERS: [&str; 14] = [
    "table",
    "key",
    "embedded",
    "generated",
    "version",
    "dropped",
    "name",
    "discriminator",
    "attributes",
    "relations",
    "listeners",
    "callbacks",
    "excludeDefault",
    "excludeSuper",
];

/// What the root of a hierarchy says for all its classes.
#[tactic(auto, unfolding(crate::specs::mapping::DraftOf::root_of))]
fn root_of(alloc: Global, json: &Json) -> Result<DraftOrigin, Unread>
    ensures { Gives same result (drafts.root_of (view json.now)) }
{
    only(json, &ROOT_MEMBERS)?;
    let table = required(alloc, json, "table")?;
    let key = required(alloc, json, "key")?;
    let embedded = optional(alloc, json, "embedded")?;
    let generated = flag(json, "generated")?;
    let version = optional(alloc, json, "version")?;
    Ok(DraftOrigin::Root(DraftRoot {
        table,
        key,
        embedded,
        generated,
        version,
    }))
}

/// Which entity a subclass extends.
#[tactic(auto, unfolding(crate::specs::mapping::DraftOf::subclass_of))]
fn subclass_of(alloc: Global, json: &Json) -> Result<DraftOrigin, Unread>
    ensures { Gives same result (drafts.subclass_of (view json.now)) }
{
    only(json, &SUBCLASS_MEMBERS)?;
    let name = required(alloc, json, "extends")?;
    Ok(DraftOrigin::Extends(name))
}

/// Where a class stands in its hierarchy: one that says `extends` is a subclass, and another one a
/// root.
fn origin_of(alloc: Global, json: &Json) -> Result<DraftOrigin, Unread>
    ensures { Gives same result (drafts.origin_of (view json.now)) }
{
    if json.get("extends").is_some() {
        subclass_of(alloc, json)
    } else {
        root_of(alloc, json)
    }
}

impl Described<Description> for DraftEntity {
    ghost meaning = { drafts.entity_of };

    #[tactic(auto, unfolding(crate::specs::mapping::DraftOf::entity_of))]
    fn read(alloc: Global, json: &Json) -> Result<DraftEntity, Unread> {
        let name = required(alloc, json, "name")?;
        let discriminator = optional(alloc, json, "discriminator")?;
        let attributes = list_at(alloc, json, "attributes")?;
        let relations = list_at(alloc, json, "relations")?;
        let listeners = list_at(alloc, json, "listeners")?;
        let callbacks = list_at(alloc, json, "callbacks")?;
        let exclude_default = flag(json, "excludeDefault")?;
        let exclude_super = flag(json, "excludeSuper")?;
        let origin = origin_of(alloc, json)?;
        Ok(DraftEntity {
            name,
            origin,
            discriminator,
            attributes,
            relations,
            listeners,
            callbacks,
            exclude_default,
            exclude_super,
        })
    }
}

impl Described<Description> for Draft {
    ghost meaning = { drafts.draft_of };

    #[tactic(auto, unfolding(crate::specs::mapping::DraftOf::draft_of))]
    fn read(alloc: Global, json: &Json) -> Result<Draft, Unread> {
        only(json, &["revision", "listeners", "entities", "functions"])?;
        let revision = required(alloc, json, "revision")?;
        let listeners = list_at(alloc, json, "listeners")?;
        let entities = required(alloc, json, "entities")?;
        Ok(Draft {
            revision,
            listeners,
            entities,
        })
    }
}
