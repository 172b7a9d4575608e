//! The spans of a member's values that LIKE asks, where its pattern is known and begins with
//! characters that stand for themselves (chapter 4.6.10).
ghost use Rattle.std.specs.Prelude.{◌≡◌, ◌∷◌, [], ◌++◌, true, false, IfOk, IfSome};
ghost use Rattle.jpa_value.specs.declared.value.Value.{Value};
ghost use Rattle.jpql_trees.specs.declared.typed.typed.TypedCondition.TheVariants as variants;
ghost use Rattle.jpql_run.specs.Likes.{CoversBegun, CoversLike, IsBehind, IsFront, IsFrontOf, IsOther, IsPlain};
ghost use Rattle.jpql_run.specs.Spans as spans;
ghost use Rattle.jpql_run.specs.Spans.{AsksSpans};

use crate::ends::is_own;
use crate::known::constant;
use crate::run::Run;
use crate::spans::{alone, cut_at};
use crate::tuple::Tuple;
use jpa_model::Member;
use jpa_stored::ordered::{Cut, Span};
use jpa_value::{Text, Value};
use jpql_meaning::eval::Seen;
use jpql_trees::typed::TypedValue;
use std::alloc::{AllocError, Global};

/// Of a longer front these bytes are asked alone: each asks a span of its own.
const MOST_FRONT: usize = 64;

/// The last byte of ASCII. A text may be like a pattern and differ from its front by a byte from this
/// one on: nothing says here that texts are UTF-8, and other bytes may spell any character.
const LAST: u8 = 127;

/// Whether a byte isn't the escape character, where one is written in ASCII.
fn is_other(escape: &Option<Text>, byte: u8) -> bool
    ensures { result ≡ true → IsOther escape.now byte }
{
    match escape {
        None => true,
        Some(escape) => match escape.as_bytes() {
            [only] => *only <= LAST && *only != byte,
            _ => false,
        },
    }
}

/// Whether a byte of a pattern is a character of ASCII that stands for itself.
fn is_plain(escape: &Option<Text>, byte: u8) -> bool
    ensures { result ≡ true → IsPlain escape.now byte }
{
    byte < LAST && byte != b'%' && byte != b'_' && is_other(escape, byte)
}

/// The first bytes of a pattern that stand for themselves.
fn plain_front<'p>(escape: &Option<Text>, pattern: &'p [u8]) -> &'p [u8]
    ensures { IsFront escape.now pattern.now result.now }
{
    let most = pattern.len().min(MOST_FRONT);
    for i in 0..most {
        if !is_plain(escape, pattern[i]) {
            return &pattern[..i];
        }
    }
    &pattern[..most]
}

/// What a pattern begins with that is known and stands for itself, if there is any.
fn front_of<'a>(run: &Run<'a>, pattern: &'a TypedValue, escape: &Option<Text>) -> Option<&'a [u8]>
    ensures { IfSome result (λ front. IsFrontOf run.now pattern.now escape.now front.now) }
{
    match constant(run, pattern) {
        Some(Seen::Text(text)) => {
            let front = plain_front(escape, text.as_bytes());
            if front.is_empty() { None } else { Some(front) }
        }
        _ => None,
    }
}

/// Whether a pattern begins with what is known and stands for itself.
pub(crate) fn has_front(run: &Run<'_>, pattern: &TypedValue, escape: &Option<Text>) -> bool {
    front_of(run, pattern, escape).is_some()
}

/// The place before the objects that have these bytes as a text; none where they spell none.
fn cut_at_text(alloc: Global, bytes: Vec<u8>) -> Result<Option<Cut>, AllocError>
    ensures { IfOk result (λ cut. IfSome cut
        (λ at. at ≡ spans.cut_at (Value.Text bytes.items) false)) }
{
    match String::from_utf8(bytes) {
        Err(_) => Ok(None),
        Ok(text) => {
            let value = Value::Text(Text::from_string(text)?);
            Ok(Some(cut_at(alloc, value, false)))
        }
    }
}

/// The place before the texts that begin so and go on with this.
fn cut_before(alloc: Global, front: &[u8], next: &[u8]) -> Result<Option<Cut>, AllocError>
    ensures { IfOk result (λ cut. IfSome cut
        (λ at. at ≡ spans.cut_at (Value.Text (front.now ++ next.now)) false)) }
{
    let mut bytes = Vec::from_slice(alloc, front)?;
    bytes.extend_from_slice(next)?;
    cut_at_text(alloc, bytes)
}

/// The place behind all texts that begin so, where it is known.
fn cut_behind(alloc: Global, front: &[u8]) -> Result<Option<Cut>, AllocError>
    ensures { IfOk result (λ cut. IfSome cut (IsBehind front.now)) }
{
    match front {
        [before @ .., last] if *last < LAST => cut_before(alloc, before, &[*last + 1]),
        _ => Ok(None),
    }
}

/// The span of the texts that begin so, and go on with this or what is behind it.
fn span_begun(alloc: Global, front: &[u8], next: &[u8]) -> Result<Span, AllocError>
    ensures { IfOk result (λ span. CoversBegun front.now next.now (span ∷ [])) }
{
    let from = cut_before(alloc, front, next)?;
    let to = cut_behind(alloc, front)?;
    Ok(Span { from, to })
}

/// The spans of the texts that may be like a pattern with this front: those that begin with it, in
/// which an object that is found mostly lies, and then, byte by byte, those that differ from it by a
/// byte behind ASCII.
fn spans_of_front(alloc: Global, front: &[u8]) -> Result<Vec<Span>, AllocError>
    ensures { IfOk result (λ all. CoversLike front.now all.items) }
{
    let first = span_begun(alloc, front, &[])?;
    let mut all = alone(alloc, first)?;
    for i in 0..front.len() {
        all.push(span_begun(alloc, &front[..i], &[LAST])?)?;
    }
    Ok(all)
}

/// The spans that LIKE asks of a member, if its pattern has a front that is known.
pub(crate) fn spans_alike<'a>(
    alloc: Global,
    run: &Run<'a>,
    tuple: &Tuple<'a>,
    member: Member,
    value: &'a TypedValue,
    pattern: &'a TypedValue,
    escape: &Option<Text>,
) -> Result<Option<Vec<Span>>, AllocError>
    ensures { IfOk result (λ found. IfSome found (λ all. AsksSpans run.now
        (variants.Like value.now pattern.now escape.now ∷ []) tuple.now member all.items)) }
{
    if !is_own(value, tuple.len(), member) {
        return Ok(None);
    }
    match front_of(run, pattern, escape) {
        None => Ok(None),
        Some(front) => Ok(Some(spans_of_front(alloc, front)?)),
    }
}
