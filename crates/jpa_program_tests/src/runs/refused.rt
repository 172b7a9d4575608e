//! Calls for which memory is refused.
use super::{FIRST_CALLS, FIRST_CELLS, FIRST_REPLIES, cells_in, joined, opened};
use jpa_lines::lines::{read_call, write_reply};
use jpa_protocol::{Call, PersistenceProvider, Reply};
use jpa_value::{Cause, Refusal};
use jpql_trees::tree::Language;
use std::alloc::Global;
use std::test::Fail;

/// The call on a line; it is read again where memory was refused.
fn read_again(alloc: Global, line: &str) -> Result<Call, Cause> {
    match read_call(alloc, Language::Profile, line.as_bytes()) {
        Err(Cause::OutOfMemory) => read_call(alloc, Language::Profile, line.as_bytes()),
        read => read,
    }
}

/// The reply's text; it is written again where memory was refused.
fn written_again(alloc: Global, reply: &Reply) -> Result<Vec<u8>, Cause> {
    match write_reply(alloc, reply) {
        Err(Cause::OutOfMemory) => write_reply(alloc, reply),
        written => written,
    }
}

/// Whether nothing but want of memory is told.
pub(super) fn is_refused_growth(reply: &Reply) -> bool {
    reply.events.is_empty() && matches!(reply.answer, Err(Refusal::Because(Cause::OutOfMemory)))
}

/// The reply to the call on a line; the call is made again where memory was refused.
fn served_again<P: PersistenceProvider>(
    alloc: Global,
    provider: &mut P,
    line: &str,
) -> Result<Vec<u8>, Cause> {
    let mut reply = provider.call(read_again(alloc, line)?);
    if is_refused_growth(&reply) {
        reply = provider.call(read_again(alloc, line)?);
    }
    written_again(alloc, &reply)
}

/// The replies to the calls of the first run, each made again where memory was refused.
fn first_replies<P: PersistenceProvider>(
    alloc: Global,
    provider: &mut P,
) -> Result<Vec<u8>, Cause> {
    let mut replies = Vec::new(alloc);
    for line in FIRST_CALLS {
        let reply = served_again(alloc, provider, line)?;
        replies.extend_from_slice(reply.as_slice())?;
    }
    Ok(replies)
}

// A call for which memory was refused changes nothing: made again, it is answered as if it were the
// first.
#[test]
fn calls_made_again(rt: HostRuntime) -> Result<(), Fail> {
    let a = rt.alloc();
    let mut provider = opened(a)?;
    let replies = first_replies(a, &mut provider);
    let cells = cells_in(a, provider.into_rows().store.into_connection())?;
    let want = joined(a, &FIRST_REPLIES)?;
    assert_eq!(rt; replies?.as_slice(), want.as_bytes());
    assert_eq!(rt; cells, joined(a, &FIRST_CELLS)?);
    Ok(())
}
