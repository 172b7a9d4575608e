//! What stands beside the rows of a subquery: comparisons, quantifiers and aggregates.
ghost use Rattle.std.specs.Prelude.{◌≡◌};
ghost use Rattle.jpql_grammar.specs.lexer.Gives.{Gives};
ghost use Rattle.jpql_grammar.specs.grammar.Parts as parts;
ghost use Rattle.jpql_grammar.specs.grammar.Conditions as spec;

use crate::conditions::steps::{after, after_word, is_word, optional_word, sees};
use crate::conditions::tested::{comparison, sees_comparison};
use crate::conditions::values::value;
use crate::grammar::{Keyword, Mark, Token};
use crate::lexer::ReadError;
use jpql_trees::tree::{Against, Aggregate, Comparison, Value};
use std::alloc::Global;

/// Whether `"(" SELECT` comes next.
pub fn begins_rows(tokens: &[Token]) -> bool
    ensures { result ≡ spec.begins_rows tokens.now }
{
    sees(Mark::Open, tokens) && is_word(Keyword::Select, &tokens[1..])
}

/// The tokens after `"(" SELECT`, which comes next.
pub fn selected(tokens: &[Token]) -> Result<&[Token], ReadError>
    ensures { Gives (λ r. r.now) result (spec.selected tokens.now) }
{
    after_word(Keyword::Select, after(Mark::Open, tokens)?)
}

fn quantifies(tokens: &[Token]) -> bool
    ensures { result ≡ spec.quantifies tokens.now }
{
    is_word(Keyword::All, tokens) || is_word(Keyword::Any, tokens) || is_word(Keyword::Some, tokens)
}

/// Whether rows follow a value: behind a comparison, or behind IN.
pub fn rows_follow(tokens: &[Token]) -> bool
    ensures { result ≡ spec.rows_follow tokens.now }
{
    if sees_comparison(tokens) {
        quantifies(&tokens[1..]) || begins_rows(&tokens[1..])
    } else {
        let (_, rest) = optional_word(Keyword::Not, tokens);
        is_word(Keyword::In, rest) && begins_rows(&rest[1..])
    }
}

/// ALL, ANY or SOME.
#[tactic(auto, unfolding(crate::specs::grammar::Conditions::quantifier_at))]
pub fn quantifier(tokens: &[Token]) -> Result<(Against, &[Token]), ReadError>
    ensures { Gives (λ r. (r.0, r.1.now)) result (spec.quantifier_at tokens.now) }
{
    match tokens {
        [Token::Key(Keyword::All, _), rest @ ..] => Ok((Against::All, rest)),
        [Token::Key(Keyword::Any, _), rest @ ..] => Ok((Against::Any, rest)),
        [Token::Key(Keyword::Some, _), rest @ ..] => Ok((Against::Any, rest)),
        _ => Err(ReadError::Syntax),
    }
}

#[tactic(auto, unfolding(crate::specs::grammar::Conditions::aggregate_at))]
fn aggregate(tokens: &[Token]) -> Result<(Aggregate, &[Token]), ReadError>
    ensures { Gives (λ r. (r.0, r.1.now)) result (spec.aggregate_at tokens.now) }
{
    match tokens {
        [Token::Key(Keyword::Count, _), rest @ ..] => Ok((Aggregate::Count, rest)),
        [Token::Key(Keyword::Sum, _), rest @ ..] => Ok((Aggregate::Sum, rest)),
        [Token::Key(Keyword::Min, _), rest @ ..] => Ok((Aggregate::Min, rest)),
        [Token::Key(Keyword::Max, _), rest @ ..] => Ok((Aggregate::Max, rest)),
        _ => Err(ReadError::Syntax),
    }
}

#[tactic(auto, unfolding(crate::specs::grammar::Conditions::operand_at, crate::specs::grammar::Values::closed))]
fn operand(
    alloc: Global,
    depth: usize,
    tokens: &[Token],
) -> Result<((bool, Value), &[Token]), ReadError>
    ensures { Gives (λ r. (r.0, r.1.now)) result (spec.operand_at depth tokens.now) }
{
    let (is_distinct, rest) = optional_word(Keyword::Distinct, tokens);
    let (value, rest) = value(alloc, depth, rest)?;
    let rest = after(Mark::Close, rest)?;
    Ok(((is_distinct, value), rest))
}

/// An aggregate, and what it is of.
#[tactic(auto, unfolding(crate::specs::grammar::Conditions::aggregated_at))]
pub fn aggregated(
    alloc: Global,
    depth: usize,
    tokens: &[Token],
) -> Result<((Against, Value), &[Token]), ReadError>
    ensures { Gives (λ r. (r.0, r.1.now)) result (spec.aggregated_at depth tokens.now) }
{
    let (aggregate, rest) = aggregate(tokens)?;
    let ((is_distinct, value), rest) = operand(alloc, depth, after(Mark::Open, rest)?)?;
    Ok(((Against::One(aggregate, is_distinct), value), rest))
}

/// A comparison, and the value behind it.
#[tactic(auto, unfolding(crate::specs::grammar::Conditions::opposed_at))]
pub fn opposed(
    alloc: Global,
    depth: usize,
    tokens: &[Token],
) -> Result<((Comparison, Value), &[Token]), ReadError>
    ensures { Gives (λ r. (r.0, r.1.now)) result (spec.opposed_at depth tokens.now) }
{
    let (operation, rest) = comparison(tokens)?;
    let (value, rest) = value(alloc, depth, rest)?;
    Ok(((operation, value), rest))
}

/// The comparison, where its sides are turned round.
pub fn turned(operation: Comparison) -> Comparison
    ensures { result ≡ parts.turned operation }
{
    match operation {
        Comparison::Equal => Comparison::Equal,
        Comparison::Different => Comparison::Different,
        Comparison::Less => Comparison::Greater,
        Comparison::AtMost => Comparison::AtLeast,
        Comparison::Greater => Comparison::Less,
        Comparison::AtLeast => Comparison::AtMost,
    }
}
