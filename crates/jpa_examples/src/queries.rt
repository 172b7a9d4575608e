//! Texts of queries, which answer their trees or why they are refused.
use crate::given::{add_text, number, text_of};
use crate::shown::show;
use crate::stop::Stop;
use crate::writer::Writer;
use jpa_value::{Argument, Cause, Seq, Text};
use jpql_grammar::grammar::GivenList;
use jpql_text::text::{at_most_one_tree, read_query};
use jpql_trees::tree::{Language, Query};
use std::alloc::Global;

/// The name of a refusal that is an answer.
fn refusal(cause: Cause) -> Result<&'static str, Stop> {
    match cause {
        Cause::IllegalArgument(Argument::Syntax) => Ok("syntax\n"),
        Cause::Limit => Ok("limit\n"),
        cause => Err(Stop::Refused(cause)),
    }
}

/// Adds a query as a line.
fn add_query(query: &Query, out: &mut Writer) {
    show(out, query);
    out.add("\n");
}

/// Adds the name of a refusal.
fn add_refusal(cause: Cause, out: &mut Writer) -> Result<(), Stop> {
    out.add(refusal(cause)?);
    Ok(())
}

/// The tree of a text in a language where these collections are handed in, which has one at most, or
/// the name of its refusal.
fn query_answer(
    alloc: Global,
    language: Language,
    lists: &[GivenList],
    text: &str,
    out: &mut Writer,
) -> Result<(), Stop> {
    at_most_one_tree();
    match read_query(alloc, language, lists, text) {
        Ok(query) => {
            add_query(&query, out);
            drop(query);
            Ok(())
        }
        Err(cause) => add_refusal(cause, out),
    }
}

/// The tree of the text on a line, or the name of its refusal.
fn line_answer(
    alloc: Global,
    language: Language,
    lists: &[GivenList],
    line: &str,
    out: &mut Writer,
) -> Result<(), Stop> {
    let text = text_of(alloc, line)?;
    query_answer(alloc, language, lists, text.as_str(), out)
}

/// The collections on lines, each its parameter's name and how many values it has.
fn lists(alloc: Global, rows: &str) -> Result<Seq<GivenList>, Stop> {
    let mut lists = Seq::new(alloc);
    for line in rows.lines() {
        let Some((name, count)) = line.split_once(' ') else {
            return Err(Stop::Form);
        };
        let count = number(count)?;
        let name = Text::of(alloc, name)?;
        lists.push(GivenList { name, count })?;
    }
    Ok(lists)
}

/// Adds a line for each text of the language, where the collections on the rows are handed in.
pub(crate) fn query_answers(
    alloc: Global,
    language: Language,
    rows: &str,
    given: &str,
    out: &mut Writer,
) -> Result<(), Stop> {
    let lists = lists(alloc, rows)?;
    for line in given.lines() {
        line_answer(alloc, language, lists.as_slice(), line, out)?;
    }
    Ok(())
}

/// A text in which a part stands so many times between two others.
fn add_repeated(lines: &[&str], count: usize, out: &mut Writer) -> Result<(), Stop> {
    let [before, part, after] = lines else {
        return Err(Stop::Form);
    };
    add_text(before, out)?;
    for _ in 0..count {
        add_text(part, out)?;
    }
    add_text(after, out)
}

/// A text that is given by three lines and how often the middle one stands in it.
fn repeated(alloc: Global, count: usize, given: &str) -> Result<String, Stop> {
    let lines: Vec<&str> = given.lines().collect(alloc)?;
    let mut out = Writer::new(alloc);
    add_repeated(lines.as_slice(), count, &mut out)?;
    Ok(out.finish()?)
}

/// Adds the tree of a text that is given by three lines and how often the middle one stands in it,
/// or why it is refused.
pub(crate) fn repeated_answer(
    alloc: Global,
    language: Language,
    rows: &str,
    given: &str,
    out: &mut Writer,
) -> Result<(), Stop> {
    let text = repeated(alloc, number(rows)?, given)?;
    query_answer(alloc, language, &[], text.as_str(), out)
}
