//! What stands on given lines.
use crate::stop::Stop;
use crate::writer::Writer;
use std::alloc::Global;

/// The character that two hexadecimal digits stand for.
fn escaped(digits: &str) -> Result<char, Stop> {
    match u8::from_str_radix(digits, 16) {
        Ok(code) => Ok(char::from(code)),
        Err(_) => Err(Stop::Form),
    }
}

/// Adds the character that two hexadecimal digits stand for, and what is after them.
fn add_escaped(part: &str, out: &mut Writer) -> Result<(), Stop> {
    let Some((digits, rest)) = part.split_at_checked(2) else {
        return Err(Stop::Form);
    };
    out.show(&escaped(digits)?);
    out.add(rest);
    Ok(())
}

/// Adds the text of a line, in which a backslash and two hexadecimal digits stand for the character
/// of that number.
pub(crate) fn add_text(line: &str, out: &mut Writer) -> Result<(), Stop> {
    let mut is_escaped = false;
    for part in line.split('\\') {
        if is_escaped {
            add_escaped(part, out)?;
        } else {
            out.add(part);
        }
        is_escaped = true;
    }
    Ok(())
}

/// The text of a line.
pub(crate) fn text_of(alloc: Global, line: &str) -> Result<String, Stop> {
    let mut out = Writer::new(alloc);
    add_text(line, &mut out)?;
    Ok(out.finish()?)
}

/// The number on a line.
pub(crate) fn number(line: &str) -> Result<usize, Stop> {
    match line.trim().parse::<usize>() {
        Ok(number) => Ok(number),
        Err(_) => Err(Stop::Form),
    }
}
