//! The members of an object, found by their names.
ghost use Rattle.std.specs.Prelude.{◌≡◌, ◌==◌};
ghost use Rattle.serde_json.specs.Find.{get};
ghost use Rattle.serde_json.specs.View.{view};
ghost use Rattle.jpa_json.specs.readers.Members as members;
ghost use Rattle.jpa_json.specs.readers.Outcome.{Gives, same, guard};

use crate::readers::described::str_of;
use crate::readers::unread::Unread;
use jpa_value::Text;
use serde_json::Value as Json;
use std::alloc::Global;

/// Whether an object has this many members: where each of as many names is found, there is no
/// other. `Form` where it has more or fewer; what is no object has none.
pub fn only(json: &Json, count: usize) -> Result<(), Unread>
    ensures { Gives same result (guard (members.count_of (view json.now) == count)) }
{
    if count_of(json) == count {
        Ok(())
    } else {
        Err(Unread::Form)
    }
}

#[tactic(auto, using(crate::proofs::readers::Counts::counted))]
fn count_of(json: &Json) -> usize
    ensures { result ≡ members.count_of (view json.now) }
{
    match json.as_object() {
        Some(members) => members.len(),
        None => 0,
    }
}

/// A member that must be there; `Form` where it is not, or where there is no object.
pub fn member<'v>(json: &'v Json, name: &str) -> Result<&'v Json, Unread>
    ensures { Gives (λ v. view v.now) result (get name.now (view json.now)) }
{
    json.get(name).ok_or(Unread::Form)
}

/// A member that is a text, where it stands; `Form` where it is not there or is no text.
pub fn str_at<'v>(json: &'v Json, name: &str) -> Result<&'v str, Unread>
    ensures { Gives (λ s. s.now) result (members.text_at name.now (view json.now)) }
{
    str_of(member(json, name)?)
}

/// A copy of a member that is a text; `Form` where it is not there or is no text, `OutOfMemory`
/// where a growth was refused.
pub fn text_at(alloc: Global, json: &Json, name: &str) -> Result<Text, Unread>
    ensures { Gives same result (members.text_at name.now (view json.now)) }
{
    let text = str_at(json, name)?;
    Ok(Text::of(alloc, text)?)
}
