//! Texts of queries, which answer whether a mapping gives them types.
use crate::given::{number, text_of};
use crate::stop::Stop;
use crate::told::Unit;
use crate::writer::Writer;
use jpa_json::mapping::read_mapping;
use jpa_model::Metamodel;
use jpa_value::{Argument, Cause, Kind, Seq, Text};
use jpql_text::text::read_query;
use jpql_trees::tree::Language;
use jpql_trees::typed::Typed;
use jpql_types::{ParamType, check_query};
use std::alloc::Global;

/// What a parameter is of: a kind, null, or an entity of the class of this number.
fn sort(word: &str) -> Result<ParamType, Stop> {
    match word {
        "int" => Ok(ParamType::Basic(Kind::Int)),
        "text" => Ok(ParamType::Basic(Kind::Text)),
        "null" => Ok(ParamType::Null),
        _ => Ok(ParamType::Entity(number(word)?)),
    }
}

/// The parameters on lines, each its name and what it is of.
fn parameters(alloc: Global, rows: &str) -> Result<Seq<(Text, ParamType)>, Stop> {
    let mut parameters = Seq::new(alloc);
    for line in rows.lines() {
        let Some((name, word)) = line.split_once(' ') else {
            return Err(Stop::Form);
        };
        let sort = sort(word)?;
        parameters.push((Text::of(alloc, name)?, sort))?;
    }
    Ok(parameters)
}

/// The typed tree of a text, with these parameters.
fn typed(
    alloc: Global,
    metamodel: &Metamodel,
    parameters: &[(Text, ParamType)],
    text: &str,
) -> Result<Typed, Cause> {
    let query = read_query(alloc, Language::Profile, &[], text)?;
    check_query(alloc, Language::Profile, metamodel, query, parameters)
}

/// The name of what is answered.
fn name<T: Drop>(answer: Result<T, Cause>) -> Result<&'static str, Stop> {
    match answer {
        Ok(_) => Ok("typed\n"),
        Err(Cause::IllegalArgument(Argument::Typing)) => Ok("typing\n"),
        Err(Cause::IllegalArgument(Argument::Parameter)) => Ok("parameter\n"),
        Err(Cause::IllegalArgument(Argument::Syntax)) => Ok("syntax\n"),
        Err(cause) => Err(Stop::Refused(cause)),
    }
}

/// Whether the text on a line is typed with these parameters, or why it isn't.
fn typed_answer(
    alloc: Global,
    metamodel: &Metamodel,
    parameters: &[(Text, ParamType)],
    line: &str,
) -> Result<&'static str, Stop> {
    let text = text_of(alloc, line)?;
    name(typed(alloc, metamodel, parameters, text.as_str()))
}

/// Whether the text on each line is typed with these parameters, or why it isn't.
fn add_answers(
    alloc: Global,
    metamodel: &Metamodel,
    parameters: &[(Text, ParamType)],
    given: &str,
    out: &mut Writer,
) -> Result<(), Stop> {
    for line in given.lines() {
        out.add(typed_answer(alloc, metamodel, parameters, line)?);
    }
    Ok(())
}

/// Adds whether each text is typed with the parameters on the rows, or why it isn't.
pub(crate) fn typed_answers(
    alloc: Global,
    unit: Unit<'_>,
    rows: &str,
    given: &str,
    out: &mut Writer,
) -> Result<(), Stop> {
    let parameters = parameters(alloc, rows)?;
    let mapping = read_mapping(alloc, unit.mapping.as_bytes())?;
    add_answers(alloc, &mapping.metamodel, parameters.as_slice(), given, out)
}
