//! Values, and the tests that stand behind WHEN.
ghost use Rattle.std.specs.Prelude.{◌≡◌, ◌∷◌, [], length, IfOk};
ghost use Rattle.jpql_grammar.specs.lexer.Gives.{Gives};
ghost use Rattle.jpql_trees.specs.tree.Calls as calls;
ghost use Rattle.jpql_grammar.specs.grammar.Parts.{trimmed_value};
ghost use Rattle.jpql_grammar.specs.grammar.Values as spec;
ghost use Rattle.jpql_grammar.specs.grammar.Values.{value_at, when_at};

use crate::conditions::lookahead::opens_condition;
use crate::conditions::steps::{after, after_word, copied, is_word, optional_word, path, sees};
use crate::conditions::tested::{comparison, denied_if, escape, joined, sees_comparison, value_of};
use crate::grammar::{Callee, Keyword, Mark, Tested, Token};
use crate::lexer::ReadError;
use jpa_value::{Boxed, Seq};
use jpql_trees::tree::{Aggregate, Arithmetic, Function, Path, Sign, Trimmed, Value};
use std::alloc::{AllocError, Global};

fn callee_of(keyword: Keyword) -> Callee
    ensures { result ≡ spec.callee_of keyword }
{
    match keyword {
        Keyword::Length => Callee::Function(Function::Length),
        Keyword::Concat => Callee::Function(Function::Concat),
        Keyword::Substring => Callee::Function(Function::Substring),
        Keyword::Locate => Callee::Function(Function::Locate),
        Keyword::Abs => Callee::Function(Function::Abs),
        Keyword::Mod => Callee::Function(Function::Mod),
        Keyword::Size => Callee::Size,
        Keyword::Coalesce => Callee::Function(Function::Coalesce),
        Keyword::NullIf => Callee::Function(Function::NullIf),
        Keyword::Upper => Callee::Function(Function::Upper),
        Keyword::Lower => Callee::Function(Function::Lower),
        Keyword::Trim => Callee::Trim,
        Keyword::Count => Callee::Aggregate(Aggregate::Count),
        Keyword::Sum => Callee::Aggregate(Aggregate::Sum),
        Keyword::Min => Callee::Aggregate(Aggregate::Min),
        Keyword::Max => Callee::Aggregate(Aggregate::Max),
        _ => Callee::Other,
    }
}

fn takes(function: Function, count: usize) -> bool
    ensures { result ≡ calls.takes function count }
{
    match function {
        Function::Length | Function::Abs | Function::Upper | Function::Lower => count == 1,
        Function::IsNull | Function::Not => count == 1,
        Function::Trim(_) => count == 1 || count == 2,
        Function::Mod | Function::NullIf => count == 2,
        Function::Test(_) | Function::And | Function::Or => count == 2,
        Function::Substring | Function::Locate | Function::IsLike => count == 2 || count == 3,
        Function::IsBetween => count == 3,
        Function::Concat | Function::Coalesce => 2 <= count,
        Function::IsAmong => 1 <= count,
        Function::Case => 3 <= count && count % 2 == 1,
        Function::Match => 4 <= count && count % 2 == 0,
    }
}

/// What TRIM takes off, where a text or a parameter comes next, and the tokens after it.
fn taken(alloc: Global, tokens: &[Token]) -> Result<(Option<Value>, &[Token]), AllocError>
    ensures { IfOk result (λ r. (r.0, r.1.now) ≡ spec.taken_at tokens.now) }
{
    match tokens {
        [Token::Quoted(text), rest @ ..] => Ok((Some(Value::Text(copied(alloc, text)?)), rest)),
        [Token::Parameter(name), rest @ ..] => {
            Ok((Some(Value::Parameter(copied(alloc, name)?)), rest))
        }
        _ => Ok((None, tokens)),
    }
}

#[tactic(auto, unfolding(crate::specs::grammar::Values::sided_at))]
fn sided(
    alloc: Global,
    side: Trimmed,
    tokens: &[Token],
) -> Result<(Trimmed, Option<Value>, &[Token]), ReadError>
    ensures { Gives (λ r. ((r.0, r.1), r.2.now)) result (spec.sided_at side tokens.now) }
{
    let (off, rest) = taken(alloc, tokens)?;
    Ok((side, off, after_word(Keyword::From, rest)?))
}

#[tactic(auto, unfolding(crate::specs::grammar::Values::unsided_at))]
fn unsided(alloc: Global, tokens: &[Token]) -> Result<(Trimmed, Option<Value>, &[Token]), ReadError>
    ensures { Gives (λ r. ((r.0, r.1), r.2.now)) result (spec.unsided_at tokens.now) }
{
    let (off, rest) = taken(alloc, tokens)?;
    if off.is_some() && is_word(Keyword::From, rest) {
        Ok((Trimmed::Both, off, &rest[1..]))
    } else {
        Ok((Trimmed::Both, None, tokens))
    }
}

/// The side off which TRIM takes, and what it takes off where that is written.
#[tactic(auto, unfolding(crate::specs::grammar::Values::trimming_at))]
fn trimming(
    alloc: Global,
    tokens: &[Token],
) -> Result<(Trimmed, Option<Value>, &[Token]), ReadError>
    ensures { Gives (λ r. ((r.0, r.1), r.2.now)) result (spec.trimming_at tokens.now) }
{
    if is_word(Keyword::Leading, tokens) {
        sided(alloc, Trimmed::Leading, &tokens[1..])
    } else if is_word(Keyword::Trailing, tokens) {
        sided(alloc, Trimmed::Trailing, &tokens[1..])
    } else if is_word(Keyword::Both, tokens) {
        sided(alloc, Trimmed::Both, &tokens[1..])
    } else {
        unsided(alloc, tokens)
    }
}

/// TRIM of the value.
fn trimmed(
    alloc: Global,
    side: Trimmed,
    off: Option<Value>,
    value: Value,
) -> Result<Value, AllocError>
    ensures { IfOk result (λ r. r ≡ trimmed_value (side, off) value) }
{
    let mut all = Seq::new(alloc);
    all.push(value)?;
    if let Some(off) = off {
        all.push(off)?;
    }
    Ok(Value::Call(Function::Trim(side), all))
}

#[cycle(value)]
#[tactic(auto, unfolding(crate::specs::grammar::Values::unary_at))]
fn unary(alloc: Global, depth: usize, tokens: &[Token]) -> Result<(Value, &[Token]), ReadError>
    ensures { Gives (λ r. (r.0, r.1.now)) result
        (spec.unary_at (value_at depth) (when_at depth) tokens.now) }
{
    if sees(Mark::Plus, tokens) {
        let (operand, rest) = atom(alloc, depth, &tokens[1..])?;
        Ok((Value::Signed(Sign::Plus, Boxed::new(alloc, operand)?), rest))
    } else if sees(Mark::Minus, tokens) {
        let (operand, rest) = atom(alloc, depth, &tokens[1..])?;
        Ok((
            Value::Signed(Sign::Minus, Boxed::new(alloc, operand)?),
            rest,
        ))
    } else {
        atom(alloc, depth, tokens)
    }
}

#[cycle(value)]
#[tactic(auto, unfolding(crate::specs::grammar::Values::atom_at, crate::specs::grammar::Values::word_at))]
fn atom(alloc: Global, depth: usize, tokens: &[Token]) -> Result<(Value, &[Token]), ReadError>
    ensures { Gives (λ r. (r.0, r.1.now)) result
        (spec.atom_at (value_at depth) (when_at depth) tokens.now) }
{
    match tokens {
        [Token::Number(number), rest @ ..] => Ok((Value::Integer(*number), rest)),
        [Token::Quoted(text), rest @ ..] => Ok((Value::Text(copied(alloc, text)?), rest)),
        [Token::Parameter(name), rest @ ..] => Ok((Value::Parameter(copied(alloc, name)?), rest)),
        [Token::Word(_), ..] => {
            let (path, rest) = path(alloc, tokens)?;
            Ok((Value::Path(path), rest))
        }
        [Token::Mark(Mark::Open), rest @ ..] => nested(alloc, depth, rest),
        [Token::Key(keyword, _), rest @ ..] => {
            if Keyword::Case.is(*keyword) {
                case(alloc, depth, rest)
            } else {
                call(alloc, depth, callee_of(*keyword), after(Mark::Open, rest)?)
            }
        }
        _ => Err(ReadError::Syntax),
    }
}

#[cycle(value)]
#[tactic(auto, unfolding(crate::specs::grammar::Values::others_at))]
fn others(
    alloc: Global,
    depth: usize,
    first: Value,
    tokens: &[Token],
) -> Result<(Seq<Value>, &[Token]), ReadError>
    ensures { Gives (λ r. (r.0, r.1.now)) result
        (spec.others_at (value_at depth) (length tokens.now) (first ∷ []) tokens.now) }
{
    let mut found = Seq::new(alloc);
    found.push(first)?;
    let mut rest = tokens;
    for _turn in 0..tokens.len() {
        if !sees(Mark::Comma, rest) {
            return Ok((found, rest));
        }
        let (one, more) = value(alloc, depth, &rest[1..])?;
        found.push(one)?;
        rest = more;
    }
    Ok((found, rest))
}

/// The values of a list, and the parenthesis that closes it.
#[cycle(value)]
#[tactic(auto, unfolding(crate::specs::grammar::Values::list_at, crate::specs::grammar::Values::closed))]
pub fn value_list(
    alloc: Global,
    depth: usize,
    tokens: &[Token],
) -> Result<(Seq<Value>, &[Token]), ReadError>
    ensures { Gives (λ r. (r.0, r.1.now)) result
        (spec.closed (spec.list_at (value_at depth) tokens.now)) }
{
    let (first, rest) = value(alloc, depth, tokens)?;
    let (all, rest) = others(alloc, depth, first, rest)?;
    Ok((all, after(Mark::Close, rest)?))
}

#[cycle(value)]
#[tactic(auto, unfolding(crate::specs::grammar::Values::closed))]
fn nested(alloc: Global, depth: usize, tokens: &[Token]) -> Result<(Value, &[Token]), ReadError>
    ensures { Gives (λ r. (r.0, r.1.now)) result (spec.closed (value_at depth tokens.now)) }
{
    let (inner, rest) = value(alloc, depth, tokens)?;
    Ok((inner, after(Mark::Close, rest)?))
}

#[tactic(auto, unfolding(crate::specs::grammar::Values::closed))]
fn closed_path(alloc: Global, tokens: &[Token]) -> Result<(Path, &[Token]), ReadError>
    ensures { Gives (λ r. (r.0, r.1.now)) result (spec.closed (spec.path_at tokens.now)) }
{
    let (path, rest) = path(alloc, tokens)?;
    Ok((path, after(Mark::Close, rest)?))
}

#[cycle(value)]
#[tactic(auto, unfolding(crate::specs::grammar::Values::trim_at))]
fn trim(alloc: Global, depth: usize, tokens: &[Token]) -> Result<(Value, &[Token]), ReadError>
    ensures { Gives (λ r. (r.0, r.1.now)) result (spec.trim_at (value_at depth) tokens.now) }
{
    let (side, off, rest) = trimming(alloc, tokens)?;
    let (value, rest) = nested(alloc, depth, rest)?;
    Ok((trimmed(alloc, side, off, value)?, rest))
}

#[cycle(value)]
#[tactic(auto, unfolding(crate::specs::grammar::Values::call_at))]
fn call(
    alloc: Global,
    depth: usize,
    callee: Callee,
    tokens: &[Token],
) -> Result<(Value, &[Token]), ReadError>
    ensures { Gives (λ r. (r.0, r.1.now)) result
        (spec.call_at (value_at depth) callee tokens.now) }
{
    match callee {
        Callee::Function(function) => {
            let (all, rest) = value_list(alloc, depth, tokens)?;
            if takes(function, all.len()) {
                Ok((Value::Call(function, all), rest))
            } else {
                Err(ReadError::Syntax)
            }
        }
        Callee::Size => {
            let (path, rest) = closed_path(alloc, tokens)?;
            Ok((Value::Size(path), rest))
        }
        Callee::Aggregate(aggregate) => {
            let (is_distinct, rest) = optional_word(Keyword::Distinct, tokens);
            let (operand, rest) = nested(alloc, depth, rest)?;
            Ok((
                Value::Aggregate(aggregate, is_distinct, Boxed::new(alloc, operand)?),
                rest,
            ))
        }
        Callee::Trim => trim(alloc, depth, tokens),
        Callee::Other => Err(ReadError::Syntax),
    }
}

#[cycle(value)]
#[tactic(auto, unfolding(crate::specs::grammar::Values::times_at))]
fn times(
    alloc: Global,
    depth: usize,
    first: Value,
    tokens: &[Token],
) -> Result<(Value, &[Token]), ReadError>
    ensures { Gives (λ r. (r.0, r.1.now)) result
        (spec.times_at (value_at depth) (when_at depth) (length tokens.now) first tokens.now) }
{
    let mut found = first;
    let mut rest = tokens;
    for _turn in 0..tokens.len() {
        if !sees(Mark::Star, rest) {
            return Ok((found, rest));
        }
        let (operand, more) = unary(alloc, depth, &rest[1..])?;
        found = Value::Arithmetic(
            Arithmetic::Times,
            Boxed::new(alloc, found)?,
            Boxed::new(alloc, operand)?,
        );
        rest = more;
    }
    Ok((found, rest))
}

#[cycle(value)]
#[tactic(auto, unfolding(crate::specs::grammar::Values::product_at))]
fn product(alloc: Global, depth: usize, tokens: &[Token]) -> Result<(Value, &[Token]), ReadError>
    ensures { Gives (λ r. (r.0, r.1.now)) result
        (spec.product_at (value_at depth) (when_at depth) tokens.now) }
{
    let (first, rest) = unary(alloc, depth, tokens)?;
    times(alloc, depth, first, rest)
}

#[cycle(value)]
#[tactic(auto, unfolding(crate::specs::grammar::Values::level_at))]
fn level(alloc: Global, depth: usize, tokens: &[Token]) -> Result<(Value, &[Token]), ReadError>
    ensures { Gives (λ r. (r.0, r.1.now)) result
        (spec.level_at (value_at depth) (when_at depth) tokens.now) }
{
    let (first, rest) = product(alloc, depth, tokens)?;
    sums(alloc, depth, first, rest)
}

#[cycle(value)]
#[tactic(auto, unfolding(crate::specs::grammar::Values::sums_at))]
fn sums(
    alloc: Global,
    depth: usize,
    first: Value,
    tokens: &[Token],
) -> Result<(Value, &[Token]), ReadError>
    ensures { Gives (λ r. (r.0, r.1.now)) result
        (spec.sums_at (value_at depth) (when_at depth) (length tokens.now) first tokens.now) }
{
    let mut found = first;
    let mut rest = tokens;
    for _turn in 0..tokens.len() {
        let operation = if sees(Mark::Plus, rest) {
            Arithmetic::Plus
        } else if sees(Mark::Minus, rest) {
            Arithmetic::Minus
        } else {
            return Ok((found, rest));
        };
        let (operand, more) = product(alloc, depth, &rest[1..])?;
        found = Value::Arithmetic(
            operation,
            Boxed::new(alloc, found)?,
            Boxed::new(alloc, operand)?,
        );
        rest = more;
    }
    Ok((found, rest))
}

#[cycle(value)]
#[tactic(auto, unfolding(crate::specs::grammar::Values::compared_at))]
fn compared(
    alloc: Global,
    depth: usize,
    left: Value,
    tokens: &[Token],
) -> Result<(Tested, &[Token]), ReadError>
    ensures { Gives (λ r. (r.0, r.1.now)) result
        (spec.compared_at (value_at depth) left tokens.now) }
{
    let (operation, rest) = comparison(tokens)?;
    let (right, rest) = value(alloc, depth, rest)?;
    Ok((Tested::Compare(operation, left, right), rest))
}

#[cycle(value)]
#[tactic(auto, unfolding(crate::specs::grammar::Values::between_at))]
fn between(
    alloc: Global,
    depth: usize,
    negated: bool,
    tested: Value,
    tokens: &[Token],
) -> Result<(Tested, &[Token]), ReadError>
    ensures { Gives (λ r. (r.0, r.1.now)) result
        (spec.between_at (value_at depth) tested negated tokens.now) }
{
    let (least, rest) = value(alloc, depth, tokens)?;
    let rest = after_word(Keyword::And, rest)?;
    let (greatest, rest) = value(alloc, depth, rest)?;
    Ok((Tested::Between(negated, tested, least, greatest), rest))
}

#[cycle(value)]
#[tactic(auto, unfolding(crate::specs::grammar::Values::among_at))]
fn among(
    alloc: Global,
    depth: usize,
    negated: bool,
    tested: Value,
    tokens: &[Token],
) -> Result<(Tested, &[Token]), ReadError>
    ensures { Gives (λ r. (r.0, r.1.now)) result
        (spec.among_at (value_at depth) tested negated tokens.now) }
{
    let rest = after(Mark::Open, tokens)?;
    if sees(Mark::Close, rest) {
        return Ok((Tested::In(negated, tested, Seq::new(alloc)), &rest[1..]));
    }
    let (all, rest) = value_list(alloc, depth, rest)?;
    Ok((Tested::In(negated, tested, all), rest))
}

#[cycle(value)]
#[tactic(auto, unfolding(crate::specs::grammar::Values::like_at))]
fn like(
    alloc: Global,
    depth: usize,
    negated: bool,
    tested: Value,
    tokens: &[Token],
) -> Result<(Tested, &[Token]), ReadError>
    ensures { Gives (λ r. (r.0, r.1.now)) result
        (spec.like_at (value_at depth) tested negated tokens.now) }
{
    let (pattern, rest) = value(alloc, depth, tokens)?;
    let (escape, rest) = escape(alloc, rest)?;
    Ok((Tested::Like(negated, tested, pattern, escape), rest))
}

#[tactic(auto, unfolding(crate::specs::grammar::Values::null_at))]
fn null(depth: usize, tested: Value, tokens: &[Token]) -> Result<(Tested, &[Token]), ReadError>
    ensures { Gives (λ r. (r.0, r.1.now)) result
        (spec.null_at (value_at depth) tested tokens.now) }
{
    let (negated, rest) = optional_word(Keyword::Not, tokens);
    let rest = after_word(Keyword::Null, rest)?;
    Ok((Tested::IsNull(negated, tested), rest))
}

#[cycle(value)]
#[tactic(auto, unfolding(crate::specs::grammar::Values::worded_at))]
fn worded(
    alloc: Global,
    depth: usize,
    negated: bool,
    tested: Value,
    tokens: &[Token],
) -> Result<(Tested, &[Token]), ReadError>
    ensures { Gives (λ r. (r.0, r.1.now)) result
        (spec.worded_at (value_at depth) tested negated tokens.now) }
{
    if is_word(Keyword::Between, tokens) {
        between(alloc, depth, negated, tested, &tokens[1..])
    } else if is_word(Keyword::In, tokens) {
        among(alloc, depth, negated, tested, &tokens[1..])
    } else if is_word(Keyword::Like, tokens) {
        like(alloc, depth, negated, tested, &tokens[1..])
    } else {
        Err(ReadError::Syntax)
    }
}

/// What follows the first value of a test.
#[cycle(value)]
#[tactic(auto, unfolding(crate::specs::grammar::Values::tested_at))]
pub fn tested(
    alloc: Global,
    depth: usize,
    first: Value,
    tokens: &[Token],
) -> Result<(Tested, &[Token]), ReadError>
    ensures { Gives (λ r. (r.0, r.1.now)) result
        (spec.tested_at (value_at depth) first tokens.now) }
{
    if sees_comparison(tokens) {
        compared(alloc, depth, first, tokens)
    } else if is_word(Keyword::Is, tokens) {
        null(depth, first, &tokens[1..])
    } else {
        let (negated, rest) = optional_word(Keyword::Not, tokens);
        worded(alloc, depth, negated, first, rest)
    }
}

#[cycle(value)]
#[tactic(auto, unfolding(crate::specs::grammar::Values::when_test_at, crate::specs::grammar::Values::closed))]
fn when_test(alloc: Global, depth: usize, tokens: &[Token]) -> Result<(Value, &[Token]), ReadError>
    ensures { Gives (λ r. (r.0, r.1.now)) result
        (spec.when_test_at (value_at depth) (when_at depth) tokens.now) }
{
    if opens_condition(tokens) {
        let (inner, rest) = when(alloc, depth, &tokens[1..])?;
        return Ok((inner, after(Mark::Close, rest)?));
    }
    let (first, rest) = value(alloc, depth, tokens)?;
    let (test, rest) = tested(alloc, depth, first, rest)?;
    Ok((value_of(alloc, test)?, rest))
}

#[cycle(value)]
#[tactic(auto, unfolding(crate::specs::grammar::Values::when_not_at))]
fn when_not(alloc: Global, depth: usize, tokens: &[Token]) -> Result<(Value, &[Token]), ReadError>
    ensures { Gives (λ r. (r.0, r.1.now)) result
        (spec.when_not_at (value_at depth) (when_at depth) tokens.now) }
{
    if is_word(Keyword::Not, tokens) {
        let (inner, rest) = when_test(alloc, depth, &tokens[1..])?;
        Ok((denied_if(alloc, true, inner)?, rest))
    } else {
        when_test(alloc, depth, tokens)
    }
}

#[cycle(value)]
#[tactic(auto, unfolding(crate::specs::grammar::Values::when_ands_at))]
fn when_ands(
    alloc: Global,
    depth: usize,
    first: Value,
    tokens: &[Token],
) -> Result<(Value, &[Token]), ReadError>
    ensures { Gives (λ r. (r.0, r.1.now)) result
        (spec.when_ands_at (value_at depth) (when_at depth) (length tokens.now) first tokens.now) }
{
    let mut found = first;
    let mut rest = tokens;
    for _turn in 0..tokens.len() {
        if !is_word(Keyword::And, rest) {
            return Ok((found, rest));
        }
        let (operand, more) = when_not(alloc, depth, &rest[1..])?;
        found = joined(alloc, Function::And, found, operand)?;
        rest = more;
    }
    Ok((found, rest))
}

#[cycle(value)]
#[tactic(auto, unfolding(crate::specs::grammar::Values::when_and_at))]
fn when_and(alloc: Global, depth: usize, tokens: &[Token]) -> Result<(Value, &[Token]), ReadError>
    ensures { Gives (λ r. (r.0, r.1.now)) result
        (spec.when_and_at (value_at depth) (when_at depth) tokens.now) }
{
    let (first, rest) = when_not(alloc, depth, tokens)?;
    when_ands(alloc, depth, first, rest)
}

#[cycle(value)]
#[tactic(auto, unfolding(crate::specs::grammar::Values::when_ors_at))]
fn when_ors(
    alloc: Global,
    depth: usize,
    first: Value,
    tokens: &[Token],
) -> Result<(Value, &[Token]), ReadError>
    ensures { Gives (λ r. (r.0, r.1.now)) result
        (spec.when_ors_at (value_at depth) (when_at depth) (length tokens.now) first tokens.now) }
{
    let mut found = first;
    let mut rest = tokens;
    for _turn in 0..tokens.len() {
        if !is_word(Keyword::Or, rest) {
            return Ok((found, rest));
        }
        let (operand, more) = when_and(alloc, depth, &rest[1..])?;
        found = joined(alloc, Function::Or, found, operand)?;
        rest = more;
    }
    Ok((found, rest))
}

#[cycle(value)]
#[tactic(auto, unfolding(crate::specs::grammar::Values::when_level_at))]
fn when_level(alloc: Global, depth: usize, tokens: &[Token]) -> Result<(Value, &[Token]), ReadError>
    ensures { Gives (λ r. (r.0, r.1.now)) result
        (spec.when_level_at (value_at depth) (when_at depth) tokens.now) }
{
    let (first, rest) = when_and(alloc, depth, tokens)?;
    when_ors(alloc, depth, first, rest)
}

/// What stands behind WHEN, with fewer than `depth` parentheses and CASEs inside one another.
#[cycle(value)]
#[tactic(auto, unfolding(crate::specs::grammar::Values::when_at))]
fn when(alloc: Global, depth: usize, tokens: &[Token]) -> Result<(Value, &[Token]), ReadError>
    ensures { Gives (λ r. (r.0, r.1.now)) result (when_at depth tokens.now) }
{
    if depth == 0 {
        return Err(ReadError::Syntax);
    }
    when_level(alloc, depth - 1, tokens)
}

/// ELSE, its value and END, behind what was found.
#[cycle(value)]
#[tactic(auto, unfolding(crate::specs::grammar::Values::otherwise_at))]
fn otherwise(
    alloc: Global,
    depth: usize,
    found: Seq<Value>,
    tokens: &[Token],
) -> Result<(Seq<Value>, &[Token]), ReadError>
    ensures { Gives (λ r. (r.0, r.1.now)) result
        (spec.otherwise_at (value_at depth) found tokens.now) }
{
    let mut all = found;
    let (value, rest) = value(alloc, depth, after_word(Keyword::Else, tokens)?)?;
    all.push(value)?;
    Ok((all, after_word(Keyword::End, rest)?))
}

/// The branches of a CASE of tests, and what stands behind ELSE.
#[cycle(value)]
#[tactic(auto, unfolding(crate::specs::grammar::Values::branches_at))]
fn branches(
    alloc: Global,
    depth: usize,
    first: Seq<Value>,
    tokens: &[Token],
) -> Result<(Seq<Value>, &[Token]), ReadError>
    ensures { Gives (λ r. (r.0, r.1.now)) result
        (spec.branches_at (value_at depth) (when_at depth) (length tokens.now) first tokens.now) }
{
    let mut found = first;
    let mut rest = tokens;
    for _turn in 0..tokens.len() {
        if !is_word(Keyword::When, rest) {
            return otherwise(alloc, depth, found, rest);
        }
        let (test, more) = when(alloc, depth, &rest[1..])?;
        let (chosen, more) = value(alloc, depth, after_word(Keyword::Then, more)?)?;
        found.push(test)?;
        found.push(chosen)?;
        rest = more;
    }
    otherwise(alloc, depth, found, rest)
}

/// The branches of a CASE of a value, and what stands behind ELSE.
#[cycle(value)]
#[tactic(auto, unfolding(crate::specs::grammar::Values::branches_at))]
fn value_branches(
    alloc: Global,
    depth: usize,
    first: Seq<Value>,
    tokens: &[Token],
) -> Result<(Seq<Value>, &[Token]), ReadError>
    ensures { Gives (λ r. (r.0, r.1.now)) result
        (spec.branches_at (value_at depth) (value_at depth) (length tokens.now) first tokens.now) }
{
    let mut found = first;
    let mut rest = tokens;
    for _turn in 0..tokens.len() {
        if !is_word(Keyword::When, rest) {
            return otherwise(alloc, depth, found, rest);
        }
        let (test, more) = value(alloc, depth, &rest[1..])?;
        let (chosen, more) = value(alloc, depth, after_word(Keyword::Then, more)?)?;
        found.push(test)?;
        found.push(chosen)?;
        rest = more;
    }
    otherwise(alloc, depth, found, rest)
}

#[cycle(value)]
#[tactic(auto, unfolding(crate::specs::grammar::Values::match_at))]
fn matched(alloc: Global, depth: usize, tokens: &[Token]) -> Result<(Value, &[Token]), ReadError>
    ensures { Gives (λ r. (r.0, r.1.now)) result
        (spec.match_at (value_at depth) tokens.now) }
{
    let (first, rest) = value(alloc, depth, tokens)?;
    if !is_word(Keyword::When, rest) {
        return Err(ReadError::Syntax);
    }
    let mut found = Seq::new(alloc);
    found.push(first)?;
    let (all, rest) = value_branches(alloc, depth, found, rest)?;
    Ok((Value::Call(Function::Match, all), rest))
}

#[cycle(value)]
#[tactic(auto, unfolding(crate::specs::grammar::Values::case_at))]
fn case(alloc: Global, depth: usize, tokens: &[Token]) -> Result<(Value, &[Token]), ReadError>
    ensures { Gives (λ r. (r.0, r.1.now)) result
        (spec.case_at (value_at depth) (when_at depth) tokens.now) }
{
    if !is_word(Keyword::When, tokens) {
        return matched(alloc, depth, tokens);
    }
    let (all, rest) = branches(alloc, depth, Seq::new(alloc), tokens)?;
    Ok((Value::Call(Function::Case, all), rest))
}

/// A value, with fewer than `depth` parentheses and CASEs inside one another.
#[cycle(value)]
#[tactic(auto, unfolding(crate::specs::grammar::Values::value_at))]
pub fn value(alloc: Global, depth: usize, tokens: &[Token]) -> Result<(Value, &[Token]), ReadError>
    ensures { Gives (λ r. (r.0, r.1.now)) result (value_at depth tokens.now) }
{
    if depth == 0 {
        return Err(ReadError::Syntax);
    }
    level(alloc, depth - 1, tokens)
}
