//! Mappings: texts, which answer that they are read, or what is wrong with them.
use crate::stop::Stop;
use crate::texts::{filled, long_text};
use jpa_json::functions::read_functions;
use jpa_json::mapping::read_mapping;
use jpa_value::Cause;
use std::alloc::Global;

/// `read`, or what is wrong with a mapping that was read so.
fn read_word<T: Drop>(read: Result<T, Cause>) -> Result<&'static str, Stop> {
    match read {
        Ok(_) => Ok("read"),
        Err(Cause::Mapping(fault)) => Ok(fault.name()),
        Err(cause) => Err(Stop::Refused(cause)),
    }
}

/// A word on a line.
fn on_a_line(alloc: Global, word: &str) -> Result<String, Stop> {
    Ok(format!(in alloc; "{word}\n")?)
}

/// `read`, or what is wrong with the mapping that is given.
pub(crate) fn mapping_answer(alloc: Global, given: &str) -> Result<String, Stop> {
    let word = read_word(read_mapping(alloc, given.as_bytes()))?;
    on_a_line(alloc, word)
}

/// The same of the functions of the mapping.
pub(crate) fn functions_answer(alloc: Global, given: &str) -> Result<String, Stop> {
    let word = read_word(read_functions(alloc, given.as_bytes()))?;
    on_a_line(alloc, word)
}

/// The same of the mapping of a long text.
pub(crate) fn limit_answer(alloc: Global, given: &str) -> Result<String, Stop> {
    let text = long_text(alloc, given)?;
    mapping_answer(alloc, text.as_str())
}

/// `shape` where a mapping is refused for its shape, else `taken`.
fn shape_word(alloc: Global, mapping: &str) -> Result<&'static str, Stop> {
    match read_word(read_mapping(alloc, mapping.as_bytes()))? {
        "shape" => Ok("shape"),
        _ => Ok("taken"),
    }
}

/// A line that says so of a mapping with each of some values in place of its `#`; of one without a
/// `#` itself.
fn push_words(alloc: Global, mapping: &str, values: &str, out: &mut String) -> Result<(), Stop> {
    let values = if mapping.contains('#') { values } else { "" };
    let mut is_first = true;
    for value in values.split(' ') {
        if !is_first {
            out.push(' ')?;
        }
        let mapping = filled(alloc, mapping, '#', value)?;
        out.push_str(shape_word(alloc, mapping.as_str())?)?;
        is_first = false;
    }
    out.push('\n')?;
    Ok(())
}

/// For each line that is given: whether its shape is taken where it stands in place of the `@` of
/// the first row, with the values of the second.
pub(crate) fn members_answer(alloc: Global, rows: &str, given: &str) -> Result<String, Stop> {
    let Some((mapping, values)) = rows.trim_end().split_once('\n') else {
        return Err(Stop::Form);
    };
    let mut out = String::new(alloc);
    for line in given.lines() {
        let mapping = filled(alloc, mapping, '@', line)?;
        push_words(alloc, mapping.as_str(), values, &mut out)?;
    }
    Ok(out)
}
