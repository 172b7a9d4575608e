//! Texts with marks in place of other texts, and long texts.
use std::alloc::{AllocError, Global};

/// Adds a text with another one in place of its marks.
fn push_filled(text: &str, mark: char, by: &str, out: &mut String) -> Result<(), AllocError> {
    let mut is_first = true;
    for piece in text.split(mark) {
        if !is_first {
            out.push_str(by)?;
        }
        out.push_str(piece)?;
        is_first = false;
    }
    Ok(())
}

/// A text with another one in place of its marks.
pub(crate) fn filled(
    alloc: Global,
    text: &str,
    mark: char,
    by: &str,
) -> Result<String, AllocError> {
    let mut out = String::new(alloc);
    push_filled(text, mark, by, &mut out)?;
    Ok(out)
}

/// The first and the last of the numbers that a line begins with, and the piece after them.
fn numbers_on(line: &str) -> Option<(i64, i64, &str)> {
    let (numbers, piece) = line.split_once(' ')?;
    let (first, last) = numbers.split_once("..")?;
    match (first.parse::<i64>(), last.parse::<i64>()) {
        (Ok(first), Ok(last)) => Some((first, last, piece)),
        _ => None,
    }
}

/// Adds what a line of a long text stands for.
fn push_line(alloc: Global, line: &str, out: &mut String) -> Result<(), AllocError> {
    let Some((first, last, piece)) = numbers_on(line) else {
        return out.push_str(line);
    };
    for number in first..=last {
        let digits = format!(in alloc; "{number}")?;
        push_filled(piece, '#', digits.as_str(), out)?;
    }
    Ok(())
}

/// The text that lines stand for, with nothing between them. A line `FIRST..LAST PIECE` stands for
/// its piece once for each of the numbers from the first to the last, which stands in place of each
/// `#`.
pub(crate) fn long_text(alloc: Global, lines: &str) -> Result<String, AllocError> {
    let mut out = String::new(alloc);
    for line in lines.lines() {
        push_line(alloc, line, &mut out)?;
    }
    Ok(out)
}
