//! Texts of queries: the kinds `query`, `wide` (of the wider language), `repeated` and
//! `repeated-wide` (src/queries.rt) answer their trees, and `typed` (src/typed.rt) what the mapping
//! says of them. Each answers a line for each that is given; in a given line a backslash and two
//! hexadecimal digits stand for a character (src/given.rt).
use crate::stop::Stop;
use crate::told::Unit;
use crate::writer::Writer;
use crate::{queries, typed};
use jpql_trees::tree::Language;
use std::alloc::Global;

/// Adds the answer to an example of this kind.
fn add_answer(
    alloc: Global,
    unit: Unit<'_>,
    kind: &str,
    rows: &str,
    given: &str,
    out: &mut Writer,
) -> Result<(), Stop> {
    match kind {
        "query" => queries::query_answers(alloc, Language::Profile, rows, given, out),
        "wide" => queries::query_answers(alloc, Language::Wide, rows, given, out),
        "repeated" => queries::repeated_answer(alloc, Language::Profile, rows, given, out),
        "repeated-wide" => queries::repeated_answer(alloc, Language::Wide, rows, given, out),
        "typed" => typed::typed_answers(alloc, unit, rows, given, out),
        _ => Err(Stop::Form),
    }
}

/// The answer to an example of this kind.
pub(crate) fn statement_answer(
    alloc: Global,
    unit: Unit<'_>,
    kind: &str,
    rows: &str,
    given: &str,
) -> Result<String, Stop> {
    let mut out = Writer::new(alloc);
    add_answer(alloc, unit, kind, rows, given, &mut out)?;
    Ok(out.finish()?)
}
