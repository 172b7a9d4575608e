//! The parts of an entity: key parts, version, attributes, relations, listeners.
ghost use Rattle.std.specs.Prelude.{option_map};
ghost use Rattle.serde_json.specs.View.{view};
ghost use Rattle.jpa_json.specs.readers.Outcome.{Gives, same};
ghost use Rattle.jpa_json.specs.mapping.DraftOf as drafts;

use crate::mapping::members::{Description, flag, list_at, only, optional, required};
use crate::readers::{Described, Unread, str_of};
use jpa_model::{
    Cascade, DraftAttribute, DraftColumn, DraftListener, DraftRelation, DraftSide, DraftVersion,
    Part, RelationKind,
};
use jpa_value::Kind;
use serde_json::Value as Json;
use std::alloc::Global;

impl Described<Description> for Kind {
    ghost meaning = { drafts.kind_of };

    fn read(_alloc: Global, json: &Json) -> Result<Kind, Unread> {
        match str_of(json)? {
            "int" => Ok(Kind::Int),
            "text" => Ok(Kind::Text),
            "bytes" => Ok(Kind::Bytes),
            _ => Err(Unread::Form),
        }
    }
}

impl Described<Description> for RelationKind {
    ghost meaning = { drafts.relation_kind_of };

    fn read(_alloc: Global, json: &Json) -> Result<RelationKind, Unread> {
        match str_of(json)? {
            "manyToOne" => Ok(RelationKind::ManyToOne),
            "oneToMany" => Ok(RelationKind::OneToMany),
            "oneToOne" => Ok(RelationKind::OneToOne),
            "manyToMany" => Ok(RelationKind::ManyToMany),
            _ => Err(Unread::Form),
        }
    }
}

impl Described<Description> for Cascade {
    ghost meaning = { drafts.cascade_of };

    fn read(_alloc: Global, json: &Json) -> Result<Cascade, Unread> {
        match str_of(json)? {
            "PERSIST" => Ok(Cascade::Persist),
            "MERGE" => Ok(Cascade::Merge),
            "REMOVE" => Ok(Cascade::Remove),
            "REFRESH" => Ok(Cascade::Refresh),
            "DETACH" => Ok(Cascade::Detach),
            "ALL" => Ok(Cascade::All),
            _ => Err(Unread::Form),
        }
    }
}

impl Described<Description> for Part {
    ghost meaning = { drafts.part_of };

    #[tactic(auto, unfolding(crate::specs::mapping::DraftOf::part_of))]
    fn read(alloc: Global, json: &Json) -> Result<Part, Unread> {
        only(json, &["name", "type"])?;
        let name = required(alloc, json, "name")?;
        let kind = required(alloc, json, "type")?;
        Ok(Part { name, kind })
    }
}

impl Described<Description> for DraftVersion {
    ghost meaning = { drafts.version_of };

    #[tactic(auto, unfolding(crate::specs::mapping::DraftOf::version_of))]
    fn read(alloc: Global, json: &Json) -> Result<DraftVersion, Unread> {
        only(json, &["name", "column"])?;
        let name = required(alloc, json, "name")?;
        let column = required(alloc, json, "column")?;
        Ok(DraftVersion { name, column })
    }
}

const ATTRIBUTE_MEMBERS: [&str; 8] = [
    "name",
    "type",
    "column",
    "required",
    "converter",
    "since",
    "default",
    "was",
];

impl Described<Description> for DraftAttribute {
    ghost meaning = { drafts.attribute_of };

    #[tactic(auto, unfolding(crate::specs::mapping::DraftOf::attribute_of))]
    fn read(alloc: Global, json: &Json) -> Result<DraftAttribute, Unread> {
        only(json, &ATTRIBUTE_MEMBERS)?;
        let name = required(alloc, json, "name")?;
        let kind = required(alloc, json, "type")?;
        let column = required(alloc, json, "column")?;
        let not_null = flag(json, "required")?;
        let converter = optional(alloc, json, "converter")?;
        Ok(DraftAttribute {
            name,
            kind,
            column,
            required: not_null,
            converter,
        })
    }
}

impl Described<Description> for DraftRelation {
    ghost meaning = { drafts.relation_of };

    #[tactic(auto, unfolding(crate::specs::mapping::DraftOf::relation_of))]
    fn read(alloc: Global, json: &Json) -> Result<DraftRelation, Unread> {
        only(
            json,
            &[
                "name",
                "kind",
                "target",
                "column",
                "joinTable",
                "mappedBy",
                "required",
                "cascade",
                "orphanRemoval",
            ],
        )?;
        let name = required(alloc, json, "name")?;
        let kind = required(alloc, json, "kind")?;
        let target = required(alloc, json, "target")?;
        let side = side_of(alloc, json)?;
        let cascade = list_at(alloc, json, "cascade")?;
        let orphan_removal = flag(json, "orphanRemoval")?;
        Ok(DraftRelation {
            name,
            kind,
            target,
            side,
            cascade,
            orphan_removal,
        })
    }
}

/// Where a relation is kept: exactly one of `column`, `joinTable` and `mappedBy` tells, with
/// `required` beside the first alone.
#[tactic(auto, unfolding(crate::specs::mapping::DraftOf::side_of))]
fn side_of(alloc: Global, json: &Json) -> Result<DraftSide, Unread>
    ensures { Gives same result (drafts.side_at (view json.now)) }
{
    let says_required = json.get("required").is_some();
    match (
        json.get("column"),
        json.get("joinTable"),
        json.get("mappedBy"),
    ) {
        (Some(_), None, None) => {
            let column = required(alloc, json, "column")?;
            let not_null = flag(json, "required")?;
            Ok(DraftSide::Column(DraftColumn {
                column,
                required: not_null,
            }))
        }
        (None, Some(_), None) if !says_required => {
            let table = required(alloc, json, "joinTable")?;
            Ok(DraftSide::JoinTable(table))
        }
        (None, None, Some(_)) if !says_required => {
            let owner = required(alloc, json, "mappedBy")?;
            Ok(DraftSide::MappedBy(owner))
        }
        _ => Err(Unread::Form),
    }
}

impl Described<Description> for DraftListener {
    ghost meaning = { drafts.listener_of };

    #[tactic(auto, unfolding(crate::specs::mapping::DraftOf::listener_of))]
    fn read(alloc: Global, json: &Json) -> Result<DraftListener, Unread> {
        only(json, &["name", "events"])?;
        let name = required(alloc, json, "name")?;
        let events = required(alloc, json, "events")?;
        Ok(DraftListener { name, events })
    }
}
