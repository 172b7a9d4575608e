//! Tests of paths, tests of values as conditions, and TYPE.
ghost use Rattle.std.specs.Prelude.{◌≡◌, ◌∷◌, [], IfOk, length};
ghost use Rattle.jpql_grammar.specs.lexer.Gives.{Gives};
ghost use Rattle.jpql_grammar.specs.grammar.Values.{list_at, name_at};
ghost use Rattle.jpql_grammar.specs.grammar.Conditions as spec;

use crate::conditions::steps::{
    after, after_word, is_word, name, optional_word, path, sees, variable,
};
use crate::conditions::tested::{condition_of, negated_if};
use crate::conditions::values::tested;
use crate::grammar::{Keyword, Mark, Token};
use crate::lexer::ReadError;
use jpa_value::{Seq, Text};
use jpql_trees::tree::{Condition, Path, Value};
use std::alloc::{AllocError, Global};

/// Whether a variable comes next.
pub fn begins_variable(tokens: &[Token]) -> bool
    ensures { result ≡ spec.begins_variable tokens.now }
{
    match tokens {
        [Token::Word(_), ..] => true,
        _ => false,
    }
}

fn bare_path(bare: bool, value: Value) -> Result<Path, ReadError>
    ensures { Gives (λ p. p) result (spec.bare_path bare value) }
{
    if !bare {
        return Err(ReadError::Syntax);
    }
    match value {
        Value::Path(path) => Ok(path),
        _ => Err(ReadError::Syntax),
    }
}

/// Whether a test of a path follows a value: IS EMPTY or MEMBER.
pub fn path_follows(tokens: &[Token]) -> bool
    ensures { result ≡ spec.path_follows tokens.now }
{
    if is_word(Keyword::Is, tokens) {
        let (_, rest) = optional_word(Keyword::Not, &tokens[1..]);
        is_word(Keyword::Empty, rest)
    } else {
        let (_, rest) = optional_word(Keyword::Not, tokens);
        is_word(Keyword::Member, rest)
    }
}

#[tactic(auto, unfolding(crate::specs::grammar::Conditions::empty_at))]
fn empty(
    alloc: Global,
    tested: Value,
    bare: bool,
    tokens: &[Token],
) -> Result<(Condition, &[Token]), ReadError>
    ensures { Gives (λ r. (r.0, r.1.now)) result (spec.empty_at tested bare tokens.now) }
{
    let (negated, rest) = optional_word(Keyword::Not, tokens);
    let rest = after_word(Keyword::Empty, rest)?;
    let path = bare_path(bare, tested)?;
    Ok((negated_if(alloc, negated, Condition::IsEmpty(path))?, rest))
}

#[tactic(auto, unfolding(crate::specs::grammar::Conditions::member_at))]
fn member(
    alloc: Global,
    tested: Value,
    tokens: &[Token],
) -> Result<(Condition, &[Token]), ReadError>
    ensures { Gives (λ r. (r.0, r.1.now)) result (spec.member_at tested tokens.now) }
{
    let (negated, rest) = optional_word(Keyword::Not, tokens);
    let rest = after_word(Keyword::Member, rest)?;
    let (_, rest) = optional_word(Keyword::Of, rest);
    let (path, rest) = path(alloc, rest)?;
    Ok((
        negated_if(alloc, negated, Condition::Member(tested, path))?,
        rest,
    ))
}

/// A test of a path, which follows the value.
#[tactic(auto, unfolding(crate::specs::grammar::Conditions::path_tested_at))]
pub fn path_tested(
    alloc: Global,
    first: Value,
    bare: bool,
    tokens: &[Token],
) -> Result<(Condition, &[Token]), ReadError>
    ensures { Gives (λ r. (r.0, r.1.now)) result (spec.path_tested_at first bare tokens.now) }
{
    if is_word(Keyword::Is, tokens) {
        empty(alloc, first, bare, &tokens[1..])
    } else {
        member(alloc, first, tokens)
    }
}

/// A test of values behind its first value.
#[tactic(auto, unfolding(crate::specs::grammar::Conditions::value_tested_at))]
pub fn value_tested(
    alloc: Global,
    depth: usize,
    first: Value,
    tokens: &[Token],
) -> Result<(Condition, &[Token]), ReadError>
    ensures { Gives (λ r. (r.0, r.1.now)) result (spec.value_tested_at depth first tokens.now) }
{
    let (test, rest) = tested(alloc, depth, first, tokens)?;
    Ok((condition_of(alloc, test)?, rest))
}

#[tactic(auto, unfolding(crate::specs::grammar::Values::list_at, crate::specs::grammar::Values::others_at))]
fn names(alloc: Global, tokens: &[Token]) -> Result<(Seq<Text>, &[Token]), ReadError>
    ensures { Gives (λ r. (r.0, r.1.now)) result (list_at name_at tokens.now) }
{
    let (first, mut rest) = name(alloc, tokens)?;
    let mut found = Seq::new(alloc);
    found.push(first)?;
    for _turn in 0..rest.len() {
        if !sees(Mark::Comma, rest) {
            return Ok((found, rest));
        }
        let (one, more) = name(alloc, &rest[1..])?;
        found.push(one)?;
        rest = more;
    }
    Ok((found, rest))
}

fn one_name(alloc: Global, name: Text) -> Result<Seq<Text>, AllocError>
    ensures { IfOk result (λ l. l ≡ name ∷ []) }
{
    let mut names = Seq::new(alloc);
    names.push(name)?;
    Ok(names)
}

#[tactic(auto, unfolding(crate::specs::grammar::Conditions::entities_at, crate::specs::grammar::Values::closed))]
fn entities(
    alloc: Global,
    variable: Text,
    tokens: &[Token],
) -> Result<(Condition, &[Token]), ReadError>
    ensures { Gives (λ r. (r.0, r.1.now)) result (spec.entities_at variable tokens.now) }
{
    let (negated, rest) = optional_word(Keyword::Not, tokens);
    let rest = after(Mark::Open, after_word(Keyword::In, rest)?)?;
    let (entities, rest) = names(alloc, rest)?;
    let rest = after(Mark::Close, rest)?;
    let test = negated_if(alloc, negated, Condition::Type(variable, entities))?;
    Ok((test, rest))
}

#[tactic(auto, unfolding(crate::specs::grammar::Conditions::type_is_at))]
fn type_is(
    alloc: Global,
    negated: bool,
    variable: Text,
    tokens: &[Token],
) -> Result<(Condition, &[Token]), ReadError>
    ensures { Gives (λ r. (r.0, r.1.now)) result (spec.type_is_at negated variable tokens.now) }
{
    let (entity, rest) = name(alloc, tokens)?;
    let test = Condition::Type(variable, one_name(alloc, entity)?);
    Ok((negated_if(alloc, negated, test)?, rest))
}

#[tactic(auto, unfolding(crate::specs::grammar::Conditions::entity_at))]
fn entity(
    alloc: Global,
    variable: Text,
    tokens: &[Token],
) -> Result<(Condition, &[Token]), ReadError>
    ensures { Gives (λ r. (r.0, r.1.now)) result (spec.entity_at variable tokens.now) }
{
    if sees(Mark::Equal, tokens) {
        type_is(alloc, false, variable, &tokens[1..])
    } else if sees(Mark::Different, tokens) {
        type_is(alloc, true, variable, &tokens[1..])
    } else {
        entities(alloc, variable, tokens)
    }
}

/// What follows TYPE.
#[tactic(auto, unfolding(crate::specs::grammar::Conditions::typed_at))]
pub fn typed(alloc: Global, tokens: &[Token]) -> Result<(Condition, &[Token]), ReadError>
    ensures { Gives (λ r. (r.0, r.1.now)) result (spec.typed_at tokens.now) }
{
    let (variable, rest) = variable(alloc, after(Mark::Open, tokens)?)?;
    entity(alloc, variable, after(Mark::Close, rest)?)
}
