//! The statements that calls run over their store: what it counts after a run that has the call
//! last, beside the same run without it.
use super::{joined, opened};
use jpa_program::run;
use std::alloc::Global;
use std::process::Abort;
use std::test::Fail;

const PERSON_PERSISTED: [&str; 5] = [
    "{\"call\":\"createEntityManager\"}",
    "{\"call\":\"new\",\"entity\":\"Person\"}",
    "{\"call\":\"set\",\"object\":1,\"name\":\"name\",\"value\":\"Ada\"}",
    "{\"call\":\"begin\",\"em\":1}",
    "{\"call\":\"persist\",\"em\":1,\"object\":1}",
];

const PERSON_REFERRED_TO: [&str; 1] = [
    "{\"call\":\"getReference\",\"em\":1,\"entity\":\"Person\",\"key\":[1]}",
];

const PERSON_CHANGED_BY_ANOTHER: [&str; 4] = [
    "{\"call\":\"createEntityManager\"}",
    "{\"call\":\"find\",\"em\":2,\"entity\":\"Person\",\"key\":[1]}",
    "{\"call\":\"set\",\"object\":2,\"name\":\"name\",\"value\":\"Bob\"}",
    "{\"call\":\"begin\",\"em\":2}",
];

const BEGUN: [&str; 1] = ["{\"call\":\"begin\",\"em\":1}"];

const PERSON_WITH_ORDERS_REMOVED: [&str; 20] = [
    "{\"call\":\"createEntityManager\"}",
    "{\"call\":\"new\",\"entity\":\"Person\"}",
    "{\"call\":\"new\",\"entity\":\"Order\"}",
    "{\"call\":\"set\",\"object\":2,\"name\":\"number\",\"value\":10}",
    "{\"call\":\"set\",\"object\":2,\"name\":\"amount\",\"value\":5}",
    "{\"call\":\"set\",\"object\":2,\"name\":\"person\",\"value\":{\"object\":1}}",
    "{\"call\":\"new\",\"entity\":\"Order\"}",
    "{\"call\":\"set\",\"object\":3,\"name\":\"number\",\"value\":11}",
    "{\"call\":\"set\",\"object\":3,\"name\":\"amount\",\"value\":7}",
    "{\"call\":\"set\",\"object\":3,\"name\":\"person\",\"value\":{\"object\":1}}",
    "{\"call\":\"add\",\"object\":1,\"name\":\"orders\",\"member\":2}",
    "{\"call\":\"add\",\"object\":1,\"name\":\"orders\",\"member\":3}",
    "{\"call\":\"add\",\"object\":1,\"name\":\"orders\",\"member\":2}",
    "{\"call\":\"begin\",\"em\":1}",
    "{\"call\":\"persist\",\"em\":1,\"object\":1}",
    "{\"call\":\"commit\",\"em\":1}",
    "{\"call\":\"clear\",\"em\":1}",
    "{\"call\":\"find\",\"em\":1,\"entity\":\"Person\",\"key\":[1]}",
    "{\"call\":\"begin\",\"em\":1}",
    "{\"call\":\"remove\",\"em\":1,\"object\":4}",
];

const COMMIT: &str = "{\"call\":\"commit\",\"em\":1}";

const COMMIT_OF_ANOTHER: &str = "{\"call\":\"commit\",\"em\":2}";

const FIND: &str = "{\"call\":\"find\",\"em\":1,\"entity\":\"Person\",\"key\":[1]}";

/// The writes, and the statements in all, that the store counts after a run over these lines.
fn counted(alloc: Global, input: &str) -> Result<(u64, u64), Fail> {
    let mut writer = Vec::with_capacity(alloc, 4096)?;
    let mut provider = opened(alloc)?;
    let ended = run(alloc, &mut input.as_bytes(), &mut writer, &mut provider);
    let store = provider.into_rows().store;
    ended?;
    Ok((store.writes(), store.statements()))
}

/// After what was read before and these lines, the call runs so many statements, all of them
/// writes.
fn see_call(
    rt: &impl Abort,
    alloc: Global,
    input: &mut String,
    lines: &[&str],
    call: &str,
    writes: u64,
) -> Result<(), Fail> {
    input.push_str(joined(alloc, lines)?.as_str())?;
    let (writes_before, all_before) = counted(alloc, input.as_str())?;
    input.push_str(call)?;
    input.push('\n')?;
    let (writes_after, all_after) = counted(alloc, input.as_str())?;
    assert_eq!(rt;
        writes_after,
        writes_before.saturating_add(writes),
        "writes of {call}"
    );
    assert_eq!(rt;
        all_after,
        all_before.saturating_add(writes),
        "statements of {call}"
    );
    Ok(())
}

// A commit runs a DELETE for each row that it makes, changes or drops, and an INSERT for each cell
// of a new row: two rows with four cells are made, then one of three cells is changed, then nothing
// is. What is managed is found without a statement.
#[test]
fn statements_of_commits(rt: HostRuntime) -> Result<(), Fail> {
    let a = rt.alloc();
    let mut input = String::new(a);
    see_call(&rt, a, &mut input, &PERSON_PERSISTED, COMMIT, 6)?;
    see_call(&rt, a, &mut input, &PERSON_REFERRED_TO, FIND, 0)?;
    see_call(
        &rt,
        a,
        &mut input,
        &PERSON_CHANGED_BY_ANOTHER,
        COMMIT_OF_ANOTHER,
        4,
    )?;
    see_call(&rt, a, &mut input, &BEGUN, COMMIT, 0)
}

// Three rows are dropped: those of a person and of two orders.
#[test]
fn statements_of_a_removal(rt: HostRuntime) -> Result<(), Fail> {
    let a = rt.alloc();
    let mut input = String::new(a);
    see_call(&rt, a, &mut input, &PERSON_WITH_ORDERS_REMOVED, COMMIT, 3)
}
