//! Tests of values: their words, and what they are as conditions and as values of CASE.
ghost use Rattle.std.specs.Prelude.{◌≡◌, ◌∷◌, [], IfOk};
ghost use Rattle.jpql_grammar.specs.lexer.Gives.{Gives};
ghost use Rattle.jpql_grammar.specs.grammar.Tests as tests;
ghost use Rattle.jpql_grammar.specs.grammar.Values as spec;

use crate::conditions::lookahead::is_comparison;
use crate::grammar::{Keyword, Mark, Tested, Token};
use crate::lexer::ReadError;
use jpa_value::{Boxed, Seq, Text};
use jpql_trees::tree::{Comparison, Condition, Function, Value};
use std::alloc::{AllocError, Global};

/// A comparison.
#[tactic(auto, unfolding(crate::specs::grammar::Values::comparison_at))]
pub fn comparison(tokens: &[Token]) -> Result<(Comparison, &[Token]), ReadError>
    ensures { Gives (λ r. (r.0, r.1.now)) result (spec.comparison_at tokens.now) }
{
    match tokens {
        [Token::Mark(Mark::Equal), rest @ ..] => Ok((Comparison::Equal, rest)),
        [Token::Mark(Mark::Different), rest @ ..] => Ok((Comparison::Different, rest)),
        [Token::Mark(Mark::Less), rest @ ..] => Ok((Comparison::Less, rest)),
        [Token::Mark(Mark::AtMost), rest @ ..] => Ok((Comparison::AtMost, rest)),
        [Token::Mark(Mark::Greater), rest @ ..] => Ok((Comparison::Greater, rest)),
        [Token::Mark(Mark::AtLeast), rest @ ..] => Ok((Comparison::AtLeast, rest)),
        _ => Err(ReadError::Syntax),
    }
}

/// Whether a comparison comes next.
pub fn sees_comparison(tokens: &[Token]) -> bool
    ensures { result ≡ spec.sees_comparison tokens.now }
{
    match tokens {
        [Token::Mark(mark), ..] => is_comparison(*mark),
        _ => false,
    }
}

/// The text behind ESCAPE, where that comes next.
#[tactic(auto, unfolding(crate::specs::grammar::Values::escape_at))]
pub fn escape(alloc: Global, tokens: &[Token]) -> Result<(Option<Text>, &[Token]), ReadError>
    ensures { Gives (λ r. (r.0, r.1.now)) result (spec.escape_at tokens.now) }
{
    match tokens {
        [
            Token::Key(Keyword::Escape, _),
            Token::Quoted(text),
            rest @ ..,
        ] => { Ok((Some(Text::of(alloc, text.as_str())?), rest)) }
        [Token::Key(Keyword::Escape, _), ..] => Err(ReadError::Syntax),
        _ => Ok((None, tokens)),
    }
}

/// The NOT of a condition.
pub fn opposite(alloc: Global, test: Condition) -> Result<Condition, AllocError>
    ensures { IfOk result (λ c. c ≡ Condition.Not test) }
{
    Ok(Condition::Not(Boxed::new(alloc, test)?))
}

/// The condition, or its NOT.
pub fn negated_if(alloc: Global, negated: bool, test: Condition) -> Result<Condition, AllocError>
    ensures { IfOk result (λ c. c ≡ tests.negated_if negated test) }
{
    if negated {
        opposite(alloc, test)
    } else {
        Ok(test)
    }
}

/// The test as a condition.
pub fn condition_of(alloc: Global, test: Tested) -> Result<Condition, AllocError>
    ensures { IfOk result (λ c. c ≡ tests.condition_of test) }
{
    match test {
        Tested::Compare(operation, left, right) => Ok(Condition::Compare(operation, left, right)),
        Tested::Between(negated, tested, least, greatest) => {
            negated_if(alloc, negated, Condition::Between(tested, least, greatest))
        }
        Tested::In(negated, tested, all) => negated_if(alloc, negated, Condition::In(tested, all)),
        Tested::Like(negated, tested, pattern, escape) => {
            negated_if(alloc, negated, Condition::Like(tested, pattern, escape))
        }
        Tested::IsNull(negated, tested) => negated_if(alloc, negated, Condition::IsNull(tested)),
    }
}

fn one(alloc: Global, value: Value) -> Result<Seq<Value>, AllocError>
    ensures { IfOk result (λ l. l ≡ value ∷ []) }
{
    let mut all = Seq::new(alloc);
    all.push(value)?;
    Ok(all)
}

fn two(alloc: Global, left: Value, right: Value) -> Result<Seq<Value>, AllocError>
    ensures { IfOk result (λ l. l ≡ left ∷ right ∷ []) }
{
    let mut all = one(alloc, left)?;
    all.push(right)?;
    Ok(all)
}

/// A function of two values.
pub fn joined(
    alloc: Global,
    function: Function,
    left: Value,
    right: Value,
) -> Result<Value, AllocError>
    ensures { IfOk result (λ v. v ≡ Value.Call function (left ∷ right ∷ [])) }
{
    Ok(Value::Call(function, two(alloc, left, right)?))
}

/// The truth, or its NOT.
pub fn denied_if(alloc: Global, negated: bool, truth: Value) -> Result<Value, AllocError>
    ensures { IfOk result (λ v. v ≡ tests.denied_if negated truth) }
{
    if !negated {
        return Ok(truth);
    }
    Ok(Value::Call(Function::Not, one(alloc, truth)?))
}

fn between_truth(
    alloc: Global,
    tested: Value,
    least: Value,
    greatest: Value,
) -> Result<Value, AllocError>
    ensures { IfOk result
        (λ v. v ≡ Value.Call Function.IsBetween (tested ∷ least ∷ greatest ∷ [])) }
{
    let mut all = two(alloc, tested, least)?;
    all.push(greatest)?;
    Ok(Value::Call(Function::IsBetween, all))
}

fn among_truth(tested: Value, all: Seq<Value>) -> Result<Value, AllocError>
    ensures { IfOk result (λ v. v ≡ Value.Call Function.IsAmong (tested ∷ all)) }
{
    let mut items = all.into_vec();
    items.insert(0, tested)?;
    Ok(Value::Call(Function::IsAmong, Seq::of(items)))
}

fn like_truth(
    alloc: Global,
    tested: Value,
    pattern: Value,
    escape: Option<Text>,
) -> Result<Value, AllocError>
    ensures { IfOk result
        (λ v. v ≡ Value.Call Function.IsLike (tested ∷ pattern ∷ tests.escape_values escape)) }
{
    let mut all = two(alloc, tested, pattern)?;
    if let Some(text) = escape {
        all.push(Value::Text(text))?;
    }
    Ok(Value::Call(Function::IsLike, all))
}

fn null_truth(alloc: Global, tested: Value) -> Result<Value, AllocError>
    ensures { IfOk result (λ v. v ≡ Value.Call Function.IsNull (tested ∷ [])) }
{
    Ok(Value::Call(Function::IsNull, one(alloc, tested)?))
}

/// The test as a value of CASE.
pub fn value_of(alloc: Global, test: Tested) -> Result<Value, AllocError>
    ensures { IfOk result (λ v. v ≡ tests.value_of test) }
{
    match test {
        Tested::Compare(operation, left, right) => {
            joined(alloc, Function::Test(operation), left, right)
        }
        Tested::Between(negated, tested, least, greatest) => {
            let truth = between_truth(alloc, tested, least, greatest)?;
            denied_if(alloc, negated, truth)
        }
        Tested::In(negated, tested, all) => {
            let truth = among_truth(tested, all)?;
            denied_if(alloc, negated, truth)
        }
        Tested::Like(negated, tested, pattern, escape) => {
            let truth = like_truth(alloc, tested, pattern, escape)?;
            denied_if(alloc, negated, truth)
        }
        Tested::IsNull(negated, tested) => {
            let truth = null_truth(alloc, tested)?;
            denied_if(alloc, negated, truth)
        }
    }
}
