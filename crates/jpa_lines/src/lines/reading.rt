//! The call that a line means.
ghost use Rattle.std.specs.Prelude.{◌≡◌, ◌≤◌, ◌⊎◌, IfOk, IfErr, Ok, Err};
ghost use Rattle.std.specs.List.{list_all};
ghost use Rattle.serde_json.specs.View.{view, members_view};
ghost use Rattle.jpa_protocol.specs.declared.call.Call.{Call};
ghost use Rattle.jpa_value.specs.declared.refusal.Cause.TheVariants.{OutOfMemory};
ghost use Rattle.jpa_json.specs.readers.Members.{integer_of};
ghost use Rattle.jpa_json.specs.readers.Outcome.{Gives, same};
ghost use Rattle.jpa_lines.specs.lines.CallOf.{integer_at, hex_of, marked_of, given_of, em_of, create_of, new_of, set_of, get_of, by_member_of, em_and_object_of, of_em_and_object, lock_mode_of, lock_of, flush_mode_of, set_flush_mode_of, by_key_of, parameter_value, parameters, parameters_at, optional_integer_at, count_at, query_members_of, of_query_members, execute_update_of, values_of, restart_of, index_of, word_of, worded_call, is_single, parameters_of, speaks, call_of, text_call, meaning};

use jpa_json::readers::{Described, Unread, json_of, member, only, or_refuse, str_at, text_at};
use jpa_protocol::{Call, FlushMode, Given, LockMode, Parameter, ParameterValue};
use jpa_value::{ByteString, Cause, MOST_LINE_BYTES, Seq, Text, Value};
use jpql_trees::tree::Language;
use serde_json::{Map, Value as Json};
use std::alloc::Global;

/// The language of lines: what they are read as is `Described<Calls>`.
struct Calls;

/// The word that names a call.
#[derive(Clone, Copy)]
enum Word {
    CreateEntityManager,
    New,
    Set,
    Get,
    Add,
    TakeOut,
    Begin,
    Persist,
    Remove,
    Refresh,
    Detach,
    Merge,
    Lock,
    Contains,
    Clear,
    Close,
    Flush,
    SetFlushMode,
    Commit,
    Rollback,
    SetRollbackOnly,
    Find,
    GetReference,
    Query,
    QuerySingle,
    ExecuteUpdate,
    Values,
    Pending,
    Restart,
    Index,
}

/// The call that a line means in a language: a collection as a parameter is the wider one's alone.
/// A line that is longer than `MOST_LINE_BYTES` is refused as `Limit`, whatever it says, and another
/// one that is no call of the language as `BadLine`. Whether its numbers and names name anything is
/// not asked here.
pub fn read_call(alloc: Global, language: Language, line: &[u8]) -> Result<Call, Cause>
    ensures ok { IfOk result (λ call. meaning language line.now ≡ Ok call) }
    ensures err { IfErr result (λ cause. (cause ≡ OutOfMemory)
        ⊎ (meaning language line.now ≡ Err cause)) }
{
    if line.len() > MOST_LINE_BYTES {
        return Err(Cause::Limit);
    }
    or_refuse(call_of_text(alloc, language, line), Cause::BadLine)
}

#[tactic(auto, unfolding(crate::specs::lines::CallOf::text_call))]
fn call_of_text(alloc: Global, language: Language, line: &[u8]) -> Result<Call, Unread>
    ensures { Gives same result (text_call language line.now) }
{
    let json = json_of(alloc, line)?;
    call_of(alloc, language, &json)
}

#[tactic(auto, unfolding(crate::specs::lines::CallOf::call_of))]
fn call_of(alloc: Global, language: Language, json: &Json) -> Result<Call, Unread>
    ensures { Gives same result (call_of language (view json.now)) }
{
    let name = str_at(json, "call")?;
    let word = word_of(name)?;
    let call = worded_call(alloc, word, json)?;
    if speaks(language, &call) {
        Ok(call)
    } else {
        Err(Unread::Form)
    }
}

/// Whether a call is one of the language.
fn speaks(language: Language, call: &Call) -> bool
    ensures { result ≡ speaks language call.now }
{
    match language {
        Language::Wide => true,
        Language::Profile => are_single(parameters_of(call)),
    }
}

/// The parameters of a call, of which there are none where it has no query text.
fn parameters_of(call: &Call) -> &[Parameter]
    ensures { result.now ≡ parameters_of call.now }
{
    match call {
        Call::Query { parameters, .. } => parameters.as_slice(),
        Call::QuerySingle { parameters, .. } => parameters.as_slice(),
        Call::ExecuteUpdate { parameters, .. } => parameters.as_slice(),
        _ => &[],
    }
}

/// Whether one value or object is handed in for each parameter.
fn are_single(parameters: &[Parameter]) -> bool
    ensures { result ≡ list_all (λ p. is_single p.value) parameters.now }
{
    parameters
        .iter()
        .all(|parameter| is_single(&parameter.value))
}

/// Whether one value or object is handed in, and no collection.
fn is_single(value: &ParameterValue) -> bool
    ensures { result ≡ is_single value.now }
{
    matches!(value, ParameterValue::Single(_))
}

fn word_of(name: &str) -> Result<Word, Unread>
    ensures { Gives same result (word_of name.now) }
{
    match name {
        "createEntityManager" => Ok(Word::CreateEntityManager),
        "new" => Ok(Word::New),
        "set" => Ok(Word::Set),
        "get" => Ok(Word::Get),
        "add" => Ok(Word::Add),
        "takeOut" => Ok(Word::TakeOut),
        "begin" => Ok(Word::Begin),
        "persist" => Ok(Word::Persist),
        "remove" => Ok(Word::Remove),
        "refresh" => Ok(Word::Refresh),
        "detach" => Ok(Word::Detach),
        "merge" => Ok(Word::Merge),
        "lock" => Ok(Word::Lock),
        "contains" => Ok(Word::Contains),
        "clear" => Ok(Word::Clear),
        "close" => Ok(Word::Close),
        "flush" => Ok(Word::Flush),
        "setFlushMode" => Ok(Word::SetFlushMode),
        "commit" => Ok(Word::Commit),
        "rollback" => Ok(Word::Rollback),
        "setRollbackOnly" => Ok(Word::SetRollbackOnly),
        "find" => Ok(Word::Find),
        "getReference" => Ok(Word::GetReference),
        "query" => Ok(Word::Query),
        "querySingle" => Ok(Word::QuerySingle),
        "executeUpdate" => Ok(Word::ExecuteUpdate),
        "values" => Ok(Word::Values),
        "pending" => Ok(Word::Pending),
        "restart" => Ok(Word::Restart),
        "index" => Ok(Word::Index),
        _ => Err(Unread::Form),
    }
}

fn worded_call(alloc: Global, word: Word, json: &Json) -> Result<Call, Unread>
    ensures { Gives same result (worded_call word (view json.now)) }
{
    match word {
        Word::CreateEntityManager => create_of(json),
        Word::New => new_of(alloc, json),
        Word::Set => set_of(alloc, json),
        Word::Get => get_of(alloc, json),
        Word::Add => add_of(alloc, json),
        Word::TakeOut => take_out_of(alloc, json),
        Word::Begin => Ok(Call::Begin { em: em_of(json)? }),
        Word::Persist => persist_of(json),
        Word::Remove => remove_of(json),
        Word::Refresh => refresh_of(json),
        Word::Detach => detach_of(json),
        Word::Merge => merge_of(json),
        Word::Lock => lock_of(json),
        Word::Contains => contains_of(json),
        Word::Clear => Ok(Call::Clear { em: em_of(json)? }),
        Word::Close => Ok(Call::Close { em: em_of(json)? }),
        Word::Flush => Ok(Call::Flush { em: em_of(json)? }),
        Word::SetFlushMode => set_flush_mode_of(json),
        Word::Commit => Ok(Call::Commit { em: em_of(json)? }),
        Word::Rollback => Ok(Call::Rollback { em: em_of(json)? }),
        Word::SetRollbackOnly => Ok(Call::SetRollbackOnly { em: em_of(json)? }),
        Word::Find => find_of(alloc, json),
        Word::GetReference => get_reference_of(alloc, json),
        Word::Query => query_of(alloc, json),
        Word::QuerySingle => query_single_of(alloc, json),
        Word::ExecuteUpdate => execute_update_of(alloc, json),
        Word::Values => values_of(alloc, json),
        Word::Pending => Ok(Call::Pending { em: em_of(json)? }),
        Word::Restart => restart_of(json),
        Word::Index => index_of(alloc, json),
    }
}

#[tactic(auto, unfolding(crate::specs::lines::CallOf::create_of))]
fn create_of(json: &Json) -> Result<Call, Unread>
    ensures { Gives same result (create_of (view json.now)) }
{
    only(json, 1)?;
    Ok(Call::CreateEntityManager)
}

#[tactic(auto, unfolding(crate::specs::lines::CallOf::new_of))]
fn new_of(alloc: Global, json: &Json) -> Result<Call, Unread>
    ensures { Gives same result (new_of (view json.now)) }
{
    only(json, 2)?;
    let entity = text_at(alloc, json, "entity")?;
    Ok(Call::NewObject { entity })
}

#[tactic(auto, unfolding(crate::specs::lines::CallOf::set_of))]
fn set_of(alloc: Global, json: &Json) -> Result<Call, Unread>
    ensures { Gives same result (set_of (view json.now)) }
{
    only(json, 4)?;
    let object = integer_at(json, "object")?;
    let name = text_at(alloc, json, "name")?;
    let given = member(json, "value")?;
    let value = given_of(alloc, given)?;
    Ok(Call::SetValue {
        object,
        name,
        value,
    })
}

#[tactic(auto, unfolding(crate::specs::lines::CallOf::get_of))]
fn get_of(alloc: Global, json: &Json) -> Result<Call, Unread>
    ensures { Gives same result (get_of (view json.now)) }
{
    only(json, 3)?;
    let object = integer_at(json, "object")?;
    let name = text_at(alloc, json, "name")?;
    Ok(Call::Get { object, name })
}

#[tactic(auto, unfolding(crate::specs::lines::CallOf::by_member_of))]
fn add_of(alloc: Global, json: &Json) -> Result<Call, Unread>
    ensures { Gives same result (by_member_of Call.Add (view json.now)) }
{
    only(json, 4)?;
    let object = integer_at(json, "object")?;
    let name = text_at(alloc, json, "name")?;
    let member = integer_at(json, "member")?;
    Ok(Call::Add {
        object,
        name,
        member,
    })
}

#[tactic(auto, unfolding(crate::specs::lines::CallOf::by_member_of))]
fn take_out_of(alloc: Global, json: &Json) -> Result<Call, Unread>
    ensures { Gives same result (by_member_of Call.TakeOut (view json.now)) }
{
    only(json, 4)?;
    let object = integer_at(json, "object")?;
    let name = text_at(alloc, json, "name")?;
    let member = integer_at(json, "member")?;
    Ok(Call::TakeOut {
        object,
        name,
        member,
    })
}

/// The manager of a call that has no other member.
#[tactic(auto, unfolding(crate::specs::lines::CallOf::em_of))]
fn em_of(json: &Json) -> Result<i64, Unread>
    ensures { Gives same result (em_of (view json.now)) }
{
    only(json, 2)?;
    integer_at(json, "em")
}

/// The manager and the object of a call that has no other member.
#[tactic(auto, unfolding(crate::specs::lines::CallOf::em_and_object_of))]
fn em_and_object_of(json: &Json) -> Result<(i64, i64), Unread>
    ensures { Gives same result (em_and_object_of (view json.now)) }
{
    only(json, 3)?;
    let em = integer_at(json, "em")?;
    let object = integer_at(json, "object")?;
    Ok((em, object))
}

fn persist_of(json: &Json) -> Result<Call, Unread>
    ensures { Gives same result (of_em_and_object Call.Persist (view json.now)) }
{
    let (em, object) = em_and_object_of(json)?;
    Ok(Call::Persist { em, object })
}

fn remove_of(json: &Json) -> Result<Call, Unread>
    ensures { Gives same result (of_em_and_object Call.Remove (view json.now)) }
{
    let (em, object) = em_and_object_of(json)?;
    Ok(Call::Remove { em, object })
}

fn refresh_of(json: &Json) -> Result<Call, Unread>
    ensures { Gives same result (of_em_and_object Call.Refresh (view json.now)) }
{
    let (em, object) = em_and_object_of(json)?;
    Ok(Call::Refresh { em, object })
}

fn detach_of(json: &Json) -> Result<Call, Unread>
    ensures { Gives same result (of_em_and_object Call.Detach (view json.now)) }
{
    let (em, object) = em_and_object_of(json)?;
    Ok(Call::Detach { em, object })
}

fn merge_of(json: &Json) -> Result<Call, Unread>
    ensures { Gives same result (of_em_and_object Call.Merge (view json.now)) }
{
    let (em, object) = em_and_object_of(json)?;
    Ok(Call::Merge { em, object })
}

#[tactic(auto, unfolding(crate::specs::lines::CallOf::lock_of))]
fn lock_of(json: &Json) -> Result<Call, Unread>
    ensures { Gives same result (lock_of (view json.now)) }
{
    only(json, 4)?;
    let em = integer_at(json, "em")?;
    let object = integer_at(json, "object")?;
    let mode = lock_mode_of(str_at(json, "mode")?)?;
    Ok(Call::Lock { em, object, mode })
}

/// The lock that a word names. `READ` and `WRITE` mean the same as the newer words (Jakarta
/// Persistence 3.1, chapter 3.4.4.1).
fn lock_mode_of(name: &str) -> Result<LockMode, Unread>
    ensures { Gives same result (lock_mode_of name.now) }
{
    match name {
        "READ" | "OPTIMISTIC" => Ok(LockMode::Read),
        "WRITE" | "OPTIMISTIC_FORCE_INCREMENT" => Ok(LockMode::Write),
        _ => Err(Unread::Form),
    }
}

fn contains_of(json: &Json) -> Result<Call, Unread>
    ensures { Gives same result (of_em_and_object Call.Contains (view json.now)) }
{
    let (em, object) = em_and_object_of(json)?;
    Ok(Call::Contains { em, object })
}

#[tactic(auto, unfolding(crate::specs::lines::CallOf::by_key_of))]
fn get_reference_of(alloc: Global, json: &Json) -> Result<Call, Unread>
    ensures { Gives same result (by_key_of Call.GetReference (view json.now)) }
{
    only(json, 4)?;
    let em = integer_at(json, "em")?;
    let entity = text_at(alloc, json, "entity")?;
    let key = <Seq<Given> as Described<Calls>>::read(alloc, member(json, "key")?)?;
    Ok(Call::GetReference { em, entity, key })
}

#[tactic(auto, unfolding(crate::specs::lines::CallOf::by_key_of))]
fn find_of(alloc: Global, json: &Json) -> Result<Call, Unread>
    ensures { Gives same result (by_key_of Call.Find (view json.now)) }
{
    only(json, 4)?;
    let em = integer_at(json, "em")?;
    let entity = text_at(alloc, json, "entity")?;
    let key = <Seq<Given> as Described<Calls>>::read(alloc, member(json, "key")?)?;
    Ok(Call::Find { em, entity, key })
}

#[tactic(auto, unfolding(crate::specs::lines::CallOf::set_flush_mode_of))]
fn set_flush_mode_of(json: &Json) -> Result<Call, Unread>
    ensures { Gives same result (set_flush_mode_of (view json.now)) }
{
    only(json, 3)?;
    let em = integer_at(json, "em")?;
    let mode = flush_mode_of(str_at(json, "mode")?)?;
    Ok(Call::SetFlushMode { em, mode })
}

fn flush_mode_of(name: &str) -> Result<FlushMode, Unread>
    ensures { Gives same result (flush_mode_of name.now) }
{
    match name {
        "AUTO" => Ok(FlushMode::Auto),
        "COMMIT" => Ok(FlushMode::Commit),
        _ => Err(Unread::Form),
    }
}

/// The members of a query.
#[derive(Drop)]
struct QueryMembers {
    em: i64,
    text: Text,
    parameters: Seq<Parameter>,
    first: Option<i64>,
    max: Option<i64>,
}

#[tactic(auto, unfolding(crate::specs::lines::CallOf::query_members_of))]
fn query_members_of(alloc: Global, json: &Json) -> Result<QueryMembers, Unread>
    ensures { Gives same result (query_members_of (view json.now)) }
{
    let cut = count_at(json, "first") + count_at(json, "max");
    only(json, 3 + count_at(json, "params") + cut)?;
    let em = integer_at(json, "em")?;
    let text = text_at(alloc, json, "text")?;
    let parameters = parameters_at(alloc, json)?;
    let first = optional_integer_at(json, "first")?;
    let max = optional_integer_at(json, "max")?;
    Ok(QueryMembers {
        em,
        text,
        parameters,
        first,
        max,
    })
}

fn query_of(alloc: Global, json: &Json) -> Result<Call, Unread>
    ensures { Gives same result (of_query_members Call.Query (view json.now)) }
{
    let QueryMembers {
        em,
        text,
        parameters,
        first,
        max,
    } = query_members_of(alloc, json)?;
    Ok(Call::Query {
        em,
        text,
        parameters,
        first,
        max,
    })
}

fn query_single_of(alloc: Global, json: &Json) -> Result<Call, Unread>
    ensures { Gives same result (of_query_members Call.QuerySingle (view json.now)) }
{
    let QueryMembers {
        em,
        text,
        parameters,
        first,
        max,
    } = query_members_of(alloc, json)?;
    Ok(Call::QuerySingle {
        em,
        text,
        parameters,
        first,
        max,
    })
}

#[tactic(auto, unfolding(crate::specs::lines::CallOf::execute_update_of))]
fn execute_update_of(alloc: Global, json: &Json) -> Result<Call, Unread>
    ensures { Gives same result (execute_update_of (view json.now)) }
{
    only(json, 3 + count_at(json, "params"))?;
    let em = integer_at(json, "em")?;
    let text = text_at(alloc, json, "text")?;
    let parameters = parameters_at(alloc, json)?;
    Ok(Call::ExecuteUpdate {
        em,
        text,
        parameters,
    })
}

#[tactic(auto, unfolding(crate::specs::lines::CallOf::values_of))]
fn values_of(alloc: Global, json: &Json) -> Result<Call, Unread>
    ensures { Gives same result (values_of (view json.now)) }
{
    only(json, 2)?;
    let objects = <Seq<i64> as Described<Calls>>::read(alloc, member(json, "objects")?)?;
    Ok(Call::Values { objects })
}

#[tactic(auto, unfolding(crate::specs::lines::CallOf::restart_of))]
fn restart_of(json: &Json) -> Result<Call, Unread>
    ensures { Gives same result (restart_of (view json.now)) }
{
    only(json, 1)?;
    Ok(Call::Restart)
}

#[tactic(auto, unfolding(crate::specs::lines::CallOf::index_of))]
fn index_of(alloc: Global, json: &Json) -> Result<Call, Unread>
    ensures { Gives same result (index_of (view json.now)) }
{
    only(json, 3)?;
    let entity = text_at(alloc, json, "entity")?;
    let name = text_at(alloc, json, "name")?;
    Ok(Call::Index { entity, name })
}

/// How often the member stands there, which is once or not at all: for `only`, where a member may
/// be absent.
fn count_at(json: &Json, name: &str) -> usize
    ensures count { result ≡ count_at name.now (view json.now) }
    ensures small { result ≤ 1 }
{
    match json.get(name) {
        Some(_) => 1,
        None => 0,
    }
}

/// An integer that may be absent; null is none.
fn optional_integer_at(json: &Json, name: &str) -> Result<Option<i64>, Unread>
    ensures { Gives same result (optional_integer_at name.now (view json.now)) }
{
    match json.get(name) {
        Some(member) => Ok(Some(integer_of(member)?)),
        None => Ok(None),
    }
}

/// The parameters, of which there are none where the member is absent.
fn parameters_at(alloc: Global, json: &Json) -> Result<Seq<Parameter>, Unread>
    ensures { Gives same result (parameters_at (view json.now)) }
{
    match json.get("params") {
        Some(member) => read_parameters(alloc, member.as_object().ok_or(Unread::Form)?),
        None => Ok(Seq::new(alloc)),
    }
}

fn read_parameters(alloc: Global, members: &Map<String, Json>) -> Result<Seq<Parameter>, Unread>
    ensures { Gives same result (parameters (members_view members.now.entries)) }
{
    let mut list = Vec::new(alloc);
    for (key, member) in members.iter() {
        let name = Text::of(alloc, key.as_str())?;
        let value = parameter_value(alloc, member)?;
        list.push(Parameter { name, value })?;
    }
    Ok(Seq::of(list))
}

/// What is handed in for a parameter: a value, or a collection of values in an array.
#[tactic(auto, unfolding(crate::specs::lines::CallOf::parameter_value))]
fn parameter_value(alloc: Global, json: &Json) -> Result<ParameterValue, Unread>
    ensures { Gives same result (parameter_value (view json.now)) }
{
    match json {
        Json::Array(_) => {
            let all = <Seq<Given> as Described<Calls>>::read(alloc, json)?;
            Ok(ParameterValue::Collection(all))
        }
        _ => {
            let value = given_of(alloc, json)?;
            Ok(ParameterValue::Single(value))
        }
    }
}

impl Described<Calls> for Given {
    ghost meaning = { given_of };

    fn read(alloc: Global, json: &Json) -> Result<Given, Unread> {
        given_of(alloc, json)
    }
}

#[tactic(auto, unfolding(crate::specs::lines::CallOf::given_of))]
fn given_of(alloc: Global, json: &Json) -> Result<Given, Unread>
    ensures { Gives same result (given_of (view json.now)) }
{
    match json {
        Json::Null => Ok(Given::Plain(Value::Null)),
        Json::Bool(_) | Json::Array(_) => Err(Unread::Form),
        Json::Number(n) => match n.as_i64() {
            Some(n) => Ok(Given::Plain(Value::Int(n))),
            None => Err(Unread::Form),
        },
        Json::String(text) => {
            let text = Text::of(alloc, text.as_str())?;
            Ok(Given::Plain(Value::Text(text)))
        }
        Json::Object(_) => marked_of(alloc, json),
    }
}

/// A value that is written as an object of one member.
#[tactic(auto, unfolding(crate::specs::lines::CallOf::marked_of))]
fn marked_of(alloc: Global, json: &Json) -> Result<Given, Unread>
    ensures { Gives same result (marked_of (view json.now)) }
{
    only(json, 1)?;
    if let Some(object) = json.get("object") {
        let number = integer_of(object)?;
        return Ok(Given::Object(number));
    }
    let digits = str_at(json, "hex")?;
    let bytes = hex_of(alloc, digits)?;
    Ok(Given::Plain(Value::Bytes(bytes)))
}

#[tactic(auto, unfolding(crate::specs::lines::CallOf::hex_of))]
fn hex_of(alloc: Global, digits: &str) -> Result<ByteString, Unread>
    ensures { Gives same result (hex_of digits.now) }
{
    match hex::decode(alloc, digits) {
        Ok(bytes) => Ok(ByteString::of(bytes)?),
        Err(hex::FromHexError::OutOfMemory) => Err(Unread::OutOfMemory),
        Err(_) => Err(Unread::Form),
    }
}

fn integer_of(json: &Json) -> Result<i64, Unread>
    ensures { Gives same result (integer_of (view json.now)) }
{
    json.as_i64().ok_or(Unread::Form)
}

fn integer_at(json: &Json, name: &str) -> Result<i64, Unread>
    ensures { Gives same result (integer_at name.now (view json.now)) }
{
    integer_of(member(json, name)?)
}
