//! Functions (chapters 4.7.2 to 4.7.4), among them the tests inside a CASE, and LIKE.
ghost use Rattle.std.specs.Prelude.{◌≡◌, map, IfOk};
ghost use Rattle.jpql_meaning.specs.eval.Answers.{gives};
ghost use Rattle.jpql_meaning.specs.eval.Calls as calls;
ghost use Rattle.jpql_meaning.specs.eval.Finds.{Finds, same};
ghost use Rattle.jpql_meaning.specs.eval.Seen.{seen};

use crate::eval::cases::{chosen_of, is_among, matched, truth_in, truth_value};
use crate::eval::compare::{between, compared};
use crate::eval::datum::Truth;
use crate::eval::failure::Failure;
use crate::eval::numbers::{absolute, modulo};
use crate::eval::patterns::is_like;
use crate::eval::seen::Seen;
use crate::eval::texts::{length, locate, substring};
use crate::eval::trims::{lower, trimmed, upper};
use crate::eval::truths::{and3, not3, or3, truth_of};
use jpa_value::Text;
use jpql_trees::tree::{Comparison, Function, Trimmed};
use std::alloc::{AllocError, Global};

fn length_of<'a>(text: &Seen<'a>) -> Seen<'a>
    ensures { seen result ≡ calls.length_of (seen text.now) }
{
    match text.text() {
        None => Seen::Null,
        Some(text) => Seen::Int(length(text.as_str())),
    }
}

fn concat<'a>(alloc: Global, all: &[Seen<'a>]) -> Result<Seen<'a>, AllocError>
    ensures { IfOk result (λ found. seen found
        ≡ calls.of_one calls.text (calls.joined_texts (map seen all.now))) }
{
    let mut joined = String::new(alloc);
    for one in all {
        match one.text() {
            None => return Ok(Seen::Null),
            Some(text) => joined.push_str(text.as_str())?,
        }
    }
    Ok(Seen::Made(Text::from_string(joined)?))
}

fn substring_of<'a>(alloc: Global, text: &Seen<'a>, from: &Seen<'a>) -> Result<Seen<'a>, AllocError>
    ensures { IfOk result (λ found. seen found
        ≡ calls.substring_of (seen text.now) (seen from.now)) }
{
    let Some(text) = text.text() else {
        return Ok(Seen::Null);
    };
    let Some(from) = from.number() else {
        return Ok(Seen::Null);
    };
    Ok(Seen::Made(substring(alloc, text.as_str(), from, None)?))
}

fn substring_upto<'a>(
    alloc: Global,
    text: &Seen<'a>,
    from: &Seen<'a>,
    count: &Seen<'a>,
) -> Result<Seen<'a>, AllocError>
    ensures { IfOk result (λ found. seen found
        ≡ calls.substring_upto (seen text.now) (seen from.now) (seen count.now)) }
{
    let Some(text) = text.text() else {
        return Ok(Seen::Null);
    };
    let Some(from) = from.number() else {
        return Ok(Seen::Null);
    };
    let Some(count) = count.number() else {
        return Ok(Seen::Null);
    };
    Ok(Seen::Made(substring(alloc, text.as_str(), from, Some(count))?))
}

fn locate_from<'a>(
    alloc: Global,
    sought: &Seen<'a>,
    text: &Seen<'a>,
    from: &Seen<'a>,
) -> Result<Seen<'a>, AllocError>
    ensures { IfOk result (λ found. seen found
        ≡ calls.locate_from (seen sought.now) (seen text.now) (seen from.now)) }
{
    let Some(sought) = sought.text() else {
        return Ok(Seen::Null);
    };
    let Some(text) = text.text() else {
        return Ok(Seen::Null);
    };
    let Some(from) = from.number() else {
        return Ok(Seen::Null);
    };
    Ok(Seen::Int(locate(alloc, sought.as_str(), text.as_str(), from)?))
}

fn coalesce<'a>(alloc: Global, all: &[Seen<'a>]) -> Result<Seen<'a>, AllocError>
    ensures { IfOk result (λ found. seen found ≡ calls.coalesce (map seen all.now)) }
{
    for one in all {
        if !one.is_nothing() {
            return one.again(alloc);
        }
    }
    Ok(Seen::Null)
}

fn null_if<'a>(alloc: Global, left: &Seen<'a>, right: &Seen<'a>) -> Result<Seen<'a>, AllocError>
    ensures { IfOk result (λ found. seen found
        ≡ calls.null_if (seen left.now) (seen right.now)) }
{
    match compared(Comparison::Equal, left, right) {
        Truth::Yes => Ok(Seen::Null),
        Truth::No | Truth::Unknown => left.again(alloc),
    }
}

fn upper_of<'a>(alloc: Global, text: &Seen<'a>) -> Result<Seen<'a>, AllocError>
    ensures { IfOk result (λ found. seen found ≡ calls.upper_of (seen text.now)) }
{
    match text.text() {
        None => Ok(Seen::Null),
        Some(text) => Ok(Seen::Made(upper(alloc, text.as_str())?)),
    }
}

fn lower_of<'a>(alloc: Global, text: &Seen<'a>) -> Result<Seen<'a>, AllocError>
    ensures { IfOk result (λ found. seen found ≡ calls.lower_of (seen text.now)) }
{
    match text.text() {
        None => Ok(Seen::Null),
        Some(text) => Ok(Seen::Made(lower(alloc, text.as_str())?)),
    }
}

/// TRIM of a text that is there.
fn trim_by<'a>(
    alloc: Global,
    sides: Trimmed,
    text: &Seen<'a>,
    off: &str,
) -> Result<Seen<'a>, AllocError>
    ensures { IfOk result (λ found. seen found
        ≡ calls.trim_of sides (seen text.now) (calls.text off.now)) }
{
    match text.text() {
        None => Ok(Seen::Null),
        Some(text) => Ok(Seen::Made(Text::of(alloc, trimmed(sides, text.as_str(), off))?)),
    }
}

fn trim_of<'a>(
    alloc: Global,
    sides: Trimmed,
    text: &Seen<'a>,
    off: &Seen<'a>,
) -> Result<Seen<'a>, AllocError>
    ensures { IfOk result (λ found. seen found
        ≡ calls.trim_of sides (seen text.now) (seen off.now)) }
{
    match off.text() {
        None => Ok(Seen::Null),
        Some(off) => trim_by(alloc, sides, text, off.as_str()),
    }
}

/// The text that an operand is, copied.
fn copied_text<'a>(alloc: Global, one: &Seen<'a>) -> Result<Option<Text>, AllocError>
    ensures { IfOk result (λ text. text ≡ calls.text_in (seen one.now)) }
{
    match one.text() {
        None => Ok(None),
        Some(text) => Ok(Some(Text::of(alloc, text.as_str())?)),
    }
}

/// LIKE, where what escapes is an operand: of none and of more than one character none escapes.
fn like_escaped<'a>(
    alloc: Global,
    text: &Seen<'a>,
    pattern: &Seen<'a>,
    escape: &Seen<'a>,
) -> Result<Truth, Failure>
    ensures { Finds same result (gives (calls.like (calls.text_in (seen escape.now)) (seen text.now)
        (seen pattern.now))) }
{
    let escape = copied_text(alloc, escape)?;
    like(alloc, &escape, text, pattern)
}

fn of_operand<'a>(alloc: Global, function: Function, one: &Seen<'a>) -> Result<Seen<'a>, Failure>
    ensures { Finds seen result (calls.of_operand function (seen one.now)) }
{
    match function {
        Function::Length => Ok(length_of(one)),
        Function::Abs => absolute(one),
        Function::Upper => Ok(upper_of(alloc, one)?),
        Function::Lower => Ok(lower_of(alloc, one)?),
        Function::Trim(sides) => Ok(trim_by(alloc, sides, one, " ")?),
        Function::IsNull => Ok(truth_value(truth_of(one.is_nothing()))),
        Function::Not => Ok(truth_value(not3(truth_in(one)))),
        Function::Concat
        | Function::Substring
        | Function::Locate
        | Function::Mod
        | Function::Coalesce
        | Function::NullIf
        | Function::Case
        | Function::Match
        | Function::Test(_)
        | Function::IsBetween
        | Function::IsAmong
        | Function::IsLike
        | Function::And
        | Function::Or => Ok(Seen::Null),
    }
}

fn of_two<'a>(
    alloc: Global,
    function: Function,
    one: &Seen<'a>,
    two: &Seen<'a>,
) -> Result<Seen<'a>, Failure>
    ensures { Finds seen result (calls.of_two function (seen one.now) (seen two.now)) }
{
    match function {
        Function::Substring => Ok(substring_of(alloc, one, two)?),
        Function::Locate => Ok(locate_from(alloc, one, two, &Seen::Int(1))?),
        Function::Mod => Ok(modulo(one, two)),
        Function::NullIf => Ok(null_if(alloc, one, two)?),
        Function::Trim(sides) => Ok(trim_of(alloc, sides, one, two)?),
        Function::Test(comparison) => Ok(truth_value(compared(comparison, one, two))),
        Function::IsLike => Ok(truth_value(like(alloc, &None, one, two)?)),
        Function::And => Ok(truth_value(and3(truth_in(one), truth_in(two)))),
        Function::Or => Ok(truth_value(or3(truth_in(one), truth_in(two)))),
        Function::Length
        | Function::Concat
        | Function::Abs
        | Function::Coalesce
        | Function::Upper
        | Function::Lower
        | Function::Case
        | Function::Match
        | Function::IsBetween
        | Function::IsAmong
        | Function::IsNull
        | Function::Not => Ok(Seen::Null),
    }
}

fn of_three<'a>(
    alloc: Global,
    function: Function,
    one: &Seen<'a>,
    two: &Seen<'a>,
    three: &Seen<'a>,
) -> Result<Seen<'a>, Failure>
    ensures { Finds seen result (calls.of_three function (seen one.now) (seen two.now)
        (seen three.now)) }
{
    match function {
        Function::Substring => Ok(substring_upto(alloc, one, two, three)?),
        Function::Locate => Ok(locate_from(alloc, one, two, three)?),
        Function::IsBetween => Ok(truth_value(between(one, two, three))),
        Function::IsLike => Ok(truth_value(like_escaped(alloc, one, two, three)?)),
        Function::Length
        | Function::Concat
        | Function::Abs
        | Function::Mod
        | Function::Coalesce
        | Function::NullIf
        | Function::Upper
        | Function::Lower
        | Function::Trim(_)
        | Function::Case
        | Function::Match
        | Function::Test(_)
        | Function::IsAmong
        | Function::IsNull
        | Function::And
        | Function::Or
        | Function::Not => Ok(Seen::Null),
    }
}

fn of_some<'a>(alloc: Global, function: Function, all: &[Seen<'a>]) -> Result<Seen<'a>, Failure>
    ensures { Finds seen result (calls.of_some function (map seen all.now)) }
{
    match all {
        [] => Ok(Seen::Null),
        [one] => of_operand(alloc, function, one),
        [one, two] => of_two(alloc, function, one, two),
        [one, two, three] => of_three(alloc, function, one, two, three),
        [_, _, _, _, ..] => Ok(Seen::Null),
    }
}

/// A function of its operands. Of a null operand it is null, but for COALESCE, NULLIF, CASE and the
/// tests inside one.
///
/// `Overflow` where ABS is outside 64 bits; `Memory` where a growth was refused.
pub fn applied<'a>(alloc: Global, function: Function, all: &[Seen<'a>]) -> Result<Seen<'a>, Failure>
    ensures { Finds seen result (calls.applied function (map seen all.now)) }
{
    match function {
        Function::Concat => Ok(concat(alloc, all)?),
        Function::Coalesce => Ok(coalesce(alloc, all)?),
        Function::Case => Ok(matched(alloc, &truth_value(Truth::Yes), all)?),
        Function::Match => Ok(chosen_of(alloc, all)?),
        Function::IsAmong => Ok(is_among(all)),
        Function::Length
        | Function::Substring
        | Function::Locate
        | Function::Abs
        | Function::Mod
        | Function::NullIf
        | Function::Upper
        | Function::Lower
        | Function::Trim(_)
        | Function::Test(_)
        | Function::IsBetween
        | Function::IsLike
        | Function::IsNull
        | Function::And
        | Function::Or
        | Function::Not => of_some(alloc, function, all),
    }
}

/// LIKE: unknown where an operand is null. `Memory` where a growth was refused, and no other
/// refusal.
pub fn like<'a>(
    alloc: Global,
    escape: &Option<Text>,
    text: &Seen<'a>,
    pattern: &Seen<'a>,
) -> Result<Truth, Failure>
    ensures { Finds same result (gives (calls.like escape.now (seen text.now) (seen pattern.now))) }
{
    let Some(text) = text.text() else {
        return Ok(Truth::Unknown);
    };
    let Some(pattern) = pattern.text() else {
        return Ok(Truth::Unknown);
    };
    let is_like = is_like(alloc, text.as_str(), pattern.as_str(), escape)?;
    Ok(truth_of(is_like))
}
