//! LIKE (chapter 4.6.10), in at most quadratic time.
//!
//! What stands before the first `%` has one place. Between two of them the leftmost place serves:
//! what comes after may then begin anywhere that it could begin after a later one.
ghost use Rattle.std.specs.Prelude.{◌≡◌, ◌∷◌, length, ◌≤◌, IfOk};
ghost use Rattle.jpql_meaning.specs.eval.Texts as texts;
ghost use Rattle.jpql_meaning.specs.eval.Fronts.{IsFront};

use crate::eval::texts::characters;
use jpa_value::Text;
use std::alloc::{AllocError, Global};

/// What stands in a pattern.
#[derive(Clone, Copy)]
pub enum Mark {
    /// This character.
    Plain(char),
    /// Any one character.
    One,
    /// Any number of characters.
    Many,
}

/// How the marks before the first `%` stand to the characters that a text begins with.
enum Front<'a> {
    /// They differ.
    Differs,
    /// The text ends before them.
    Short,
    /// There is no `%`, and they match the whole text.
    Whole,
    /// They match, and then comes a `%`: the marks after it, and the characters that are left.
    Open(&'a [Mark], &'a [char]),
}

fn mark_of(c: char) -> Mark
    ensures { result ≡ texts.mark_of c }
{
    match c {
        '_' => Mark::One,
        '%' => Mark::Many,
        _ => Mark::Plain(c),
    }
}

fn is_escape(escape: Option<char>, c: char) -> bool
    ensures { result ≡ texts.is_escape escape c }
{
    match escape {
        None => false,
        Some(escape) => c == escape,
    }
}

/// What a pattern's first character begins, and the characters after that.
fn first_mark(escape: Option<char>, c: char, after: &[char]) -> (Mark, &[char])
    ensures first { texts.marks escape (c ∷ after.now) ≡ result.0
        ∷ texts.marks escape result.1.now }
    ensures fewer { length result.1.now ≤ length after.now }
{
    if !is_escape(escape, c) {
        return (mark_of(c), after);
    }
    match after {
        [] => (Mark::Plain(c), after),
        [next, others @ ..] => (Mark::Plain(*next), others),
    }
}

/// The marks of a pattern.
fn marks(alloc: Global, escape: Option<char>, pattern: &[char]) -> Result<Vec<Mark>, AllocError>
    ensures { IfOk result (λ marks. marks.items ≡ texts.marks escape pattern.now) }
{
    let mut marks = Vec::with_capacity(alloc, pattern.len())?;
    let mut rest = pattern;
    while let [c, after @ ..] = rest {
        let (mark, others) = first_mark(escape, *c, after);
        marks.push(mark)?;
        rest = others;
    }
    Ok(marks)
}

/// How the marks before the first `%` stand to the characters that a text begins with.
fn front_of<'a>(marks: &'a [Mark], text: &'a [char]) -> Front<'a>
    ensures { IsFront marks.now text.now result }
{
    for (i, mark) in marks.iter().enumerate() {
        match mark {
            Mark::Many => return Front::Open(&marks[i + 1..], &text[i..]),
            Mark::One => {
                if i >= text.len() {
                    return Front::Short;
                }
            }
            Mark::Plain(c) => {
                if i >= text.len() {
                    return Front::Short;
                }
                if text[i] != *c {
                    return Front::Differs;
                }
            }
        }
    }
    if text.len() == marks.len() {
        Front::Whole
    } else {
        Front::Differs
    }
}

/// Whether the marks match what is left of a text after any front of it.
fn matches_later(marks: &[Mark], text: &[char]) -> bool
    ensures { result ≡ texts.any_rest (texts.is_matched marks.now) text.now }
{
    let mut left = marks;
    let mut rest = text;
    loop {
        match front_of(left, rest) {
            Front::Short => return false,
            Front::Whole => return true,
            Front::Open(marks, text) => {
                left = marks;
                rest = text;
            }
            Front::Differs => {
                let [_, others @ ..] = rest else {
                    return false;
                };
                rest = others;
            }
        }
    }
}

/// Whether the marks match a text.
fn is_matched(marks: &[Mark], text: &[char]) -> bool
    ensures { result ≡ texts.is_matched marks.now text.now }
{
    match front_of(marks, text) {
        Front::Differs | Front::Short => false,
        Front::Whole => true,
        Front::Open(marks, text) => matches_later(marks, text),
    }
}

/// The one character of an escape.
fn escape_of(alloc: Global, escape: &Option<Text>) -> Result<Option<char>, AllocError>
    ensures { IfOk result (λ found. found ≡ texts.escape_of escape.now) }
{
    let Some(escape) = escape else {
        return Ok(None);
    };
    let all = characters(alloc, escape.as_str())?;
    match all.as_slice() {
        [only] => Ok(Some(*only)),
        _ => Ok(None),
    }
}

/// Whether a text is like a pattern.
pub(super) fn is_like(
    alloc: Global,
    text: &str,
    pattern: &str,
    escape: &Option<Text>,
) -> Result<bool, AllocError>
    ensures { IfOk result (λ is_like. is_like ≡ texts.is_like text.now pattern.now escape.now) }
{
    let text = characters(alloc, text)?;
    let pattern = characters(alloc, pattern)?;
    let marks = marks(alloc, escape_of(alloc, escape)?, &pattern)?;
    Ok(is_matched(&marks, &text))
}
