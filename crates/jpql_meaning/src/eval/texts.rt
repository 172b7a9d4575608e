//! LENGTH, CONCAT, SUBSTRING and LOCATE (chapter 4.7.2). Characters are Unicode scalar values.
ghost use Rattle.std.specs.Prelude.{◌≡◌, pos, length, chars, encode_utf8_all, string_bytes, IfOk, int_le, ◌&&◌, ◌≤◌, ◌+◌};
ghost use Rattle.jpql_meaning.specs.eval.Texts as texts;

use jpa_value::Text;
use std::alloc::{AllocError, Global};

/// The characters of a text.
pub(super) fn characters(alloc: Global, text: &str) -> Result<Vec<char>, AllocError>
    ensures { IfOk result (λ all. all.items ≡ chars text.now) }
{
    let mut all = Vec::with_capacity(alloc, text.len())?;
    for c in text.chars() {
        all.push(c)?;
    }
    Ok(all)
}

/// How many characters a text has.
pub(super) fn length(text: &str) -> i64
    ensures { result ≡ pos (length (chars text.now)) }
{
    text.chars().count() as i64
}

/// The places, counted from 1, from one on, and if so up to so many further.
#[derive(Drop)]
struct Places {
    from: i64,
    count: Option<i64>,
}

impl Places {
    /// Whether this place is among them.
    fn has(&self, place: usize) -> bool
        ensures { result ≡ (int_le self.now.from (pos place)
            && texts.is_before (pos place) (texts.end_of self.now.from self.now.count)) }
    {
        let place = place as i128;
        let from = self.from as i128;
        match self.count {
            None => from <= place,
            Some(count) => from <= place && place < from + count as i128,
        }
    }
}

/// The characters at these places.
fn written(alloc: Global, all: &[char], places: &Places) -> Result<String, AllocError>
    ensures { IfOk result (λ part. string_bytes part
        ≡ encode_utf8_all (texts.those_from 1 places.now.from
        (texts.end_of places.now.from places.now.count) all.now)) }
{
    let mut part = String::new(alloc);
    for (i, c) in all.iter().enumerate() {
        if places.has(i + 1) {
            part.push(*c)?;
        }
    }
    Ok(part)
}

/// The characters at places, counted from 1, from one on, and if so up to so many places further.
pub(super) fn substring(
    alloc: Global,
    text: &str,
    from: i64,
    count: Option<i64>,
) -> Result<Text, AllocError>
    ensures { IfOk result (λ part. part ≡ texts.substring text.now from count) }
{
    let all = characters(alloc, text)?;
    let part = written(alloc, &all, &Places { from, count })?;
    Ok(Text::from_string(part)?)
}

/// The greater of a number and 1.
fn at_least_one(number: i64) -> usize
    ensures { result ≡ texts.at_least_one number }
{
    if number < 1 { 1 } else { number as usize }
}

/// The least place from one on, counted from 1, at which characters stand among others; 0 for none.
fn found_from(sought: &[char], text: &[char], from: usize) -> usize
    ensures found { result ≡ texts.found_from 1 from sought.now text.now }
    ensures within { result ≤ length text.now + 1 }
{
    for at in 0..=text.len() {
        if from <= at + 1 && text[at..].starts_with(sought) {
            return at + 1;
        }
    }
    0
}

/// The least place from one on, counted from 1, at which a text stands in another; 0 for none.
pub(super) fn locate(alloc: Global, sought: &str, text: &str, from: i64) -> Result<i64, AllocError>
    ensures { IfOk result (λ place. place ≡ pos (texts.locate sought.now text.now from)) }
{
    let sought = characters(alloc, sought)?;
    let text = characters(alloc, text)?;
    Ok(found_from(&sought, &text, at_least_one(from)) as i64)
}
