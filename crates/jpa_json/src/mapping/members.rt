//! The members of a description's objects: those that may be absent, and those that are listed.
ghost use Rattle.std.specs.Prelude.{◌≡◌, map};
ghost use Rattle.serde_json.specs.View.{view, members_view};
ghost use Rattle.jpa_json.specs.readers.Outcome.{Gives, same, guard};
ghost use Rattle.jpa_json.specs.mapping.DraftOf as drafts;

use crate::readers::{Described, Unread, member};
use jpa_value::Seq;
use serde_json::{Map, Value as Json};
use std::alloc::Global;

/// The language of descriptions: what they are read as is `Described<Description>`.
pub(super) struct Description;

/// A member that must be there.
pub(super) fn required<T: Described<Description>>(
    alloc: Global,
    json: &Json,
    name: &str,
) -> Result<T, Unread>
    ensures { Gives same result (drafts.required T.meaning name.now (view json.now)) }
{
    T::read(alloc, member(json, name)?)
}

/// A member that may be there.
pub(super) fn optional<T: Described<Description>>(
    alloc: Global,
    json: &Json,
    name: &str,
) -> Result<Option<T>, Unread>
    ensures { Gives same result (drafts.optional T.meaning name.now (view json.now)) }
{
    match json.get(name) {
        Some(member) => Ok(Some(T::read(alloc, member)?)),
        None => Ok(None),
    }
}

/// A truth that is false where it is absent.
pub(super) fn flag(json: &Json, name: &str) -> Result<bool, Unread>
    ensures { Gives same result (drafts.flag name.now (view json.now)) }
{
    match json.get(name) {
        Some(member) => member.as_bool().ok_or(Unread::Form),
        None => Ok(false),
    }
}

/// A list that is empty where it is absent.
pub(super) fn list_at<T: Described<Description>>(
    alloc: Global,
    json: &Json,
    name: &str,
) -> Result<Seq<T>, Unread>
    ensures { Gives same result (drafts.list_at T.meaning name.now (view json.now)) }
{
    match json.get(name) {
        Some(member) => Seq::read(alloc, member),
        None => Ok(Seq::new(alloc)),
    }
}

/// Refuses what is no object, and an object with another member than these.
pub(super) fn only(json: &Json, names: &[&str]) -> Result<(), Unread>
    ensures { Gives same result (drafts.only (map (λ name. name.now) names.now) (view json.now)) }
{
    match json {
        Json::Object(members) => all_listed(members, names),
        _ => Err(Unread::Form),
    }
}

fn all_listed(members: &Map<String, Json>, names: &[&str]) -> Result<(), Unread>
    ensures { Gives same result
        (guard (drafts.are_listed (map (λ name. name.now) names.now)
        (members_view members.now.entries))) }
{
    for (name, _) in members.iter() {
        if !is_listed(names, name.as_str()) {
            return Err(Unread::Form);
        }
    }
    Ok(())
}

fn is_listed(names: &[&str], name: &str) -> bool
    ensures { result ≡ drafts.is_listed (map (λ name. name.now) names.now) name.now }
{
    names.contains(&name)
}
