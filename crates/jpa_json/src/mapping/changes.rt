//! What is said of changes since revision 1: members of attributes and of root entities.
ghost use Rattle.serde_json.specs.View.{view};
ghost use Rattle.jpa_json.specs.readers.Outcome.{Gives, same};
ghost use Rattle.jpa_json.specs.mapping.HistoryOf as histories;

use crate::mapping::members::{Description, list_at, optional, required};
use crate::readers::{Described, Unread, value_of};
use jpa_description::history::{DraftChange, DraftClassHistory, DraftHistory};
use jpa_value::Value;
use serde_json::Value as Json;
use std::alloc::Global;

impl Described<Description> for Value {
    ghost meaning = { histories.value_or_null };

    fn read(alloc: Global, json: &Json) -> Result<Value, Unread> {
        match json {
            Json::Null => Ok(Value::Null),
            _ => value_of(alloc, json),
        }
    }
}

impl Described<Description> for DraftChange {
    ghost meaning = { histories.change_of };

    #[tactic(auto, unfolding(crate::specs::mapping::HistoryOf::change_of))]
    fn read(alloc: Global, json: &Json) -> Result<DraftChange, Unread> {
        let since = optional(alloc, json, "since")?;
        let default = optional(alloc, json, "default")?;
        let was = optional(alloc, json, "was")?;
        Ok(DraftChange {
            since,
            default,
            was,
        })
    }
}

impl Described<Description> for DraftClassHistory {
    ghost meaning = { histories.class_history_of };

    #[tactic(auto, unfolding(crate::specs::mapping::HistoryOf::class_history_of))]
    fn read(alloc: Global, json: &Json) -> Result<DraftClassHistory, Unread> {
        let dropped = optional(alloc, json, "dropped")?;
        let changes = list_at(alloc, json, "attributes")?;
        Ok(DraftClassHistory { dropped, changes })
    }
}

impl Described<Description> for DraftHistory {
    ghost meaning = { histories.history_of };

    #[tactic(auto, unfolding(crate::specs::mapping::HistoryOf::history_of))]
    fn read(alloc: Global, json: &Json) -> Result<DraftHistory, Unread> {
        let classes = required(alloc, json, "entities")?;
        Ok(DraftHistory { classes })
    }
}
