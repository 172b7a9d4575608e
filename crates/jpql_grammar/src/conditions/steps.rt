//! Marks, words, names and paths.
ghost use Rattle.std.specs.Prelude.{◌≡◌, ◌∷◌, ◌++◌, [], length, IfOk};
ghost use Rattle.jpql_grammar.specs.lexer.Gives.{Gives};
ghost use Rattle.jpql_grammar.specs.grammar.Values as spec;

use crate::grammar::{Keyword, Mark, Token};
use crate::lexer::ReadError;
use jpa_value::{Seq, Text};
use jpql_trees::tree::Path;
use std::alloc::{AllocError, Global};

/// Whether the token is this mark.
pub fn is_mark(mark: Mark, token: &Token) -> bool
    ensures { result ≡ spec.is_mark mark token.now }
{
    match token {
        Token::Mark(other) => mark.is(*other),
        _ => false,
    }
}

/// Whether this mark comes next.
pub fn sees(mark: Mark, tokens: &[Token]) -> bool
    ensures { result ≡ spec.sees mark tokens.now }
{
    match tokens {
        [] => false,
        [token, ..] => is_mark(mark, token),
    }
}

/// The tokens after this mark, which comes next.
pub fn after(mark: Mark, tokens: &[Token]) -> Result<&[Token], ReadError>
    ensures { Gives (λ r. r.now) result (spec.after mark tokens.now) }
{
    match tokens {
        [token, rest @ ..] if is_mark(mark, token) => Ok(rest),
        _ => Err(ReadError::Syntax),
    }
}

/// Whether this word of the grammar comes next.
pub fn is_word(keyword: Keyword, tokens: &[Token]) -> bool
    ensures { result ≡ spec.is_word keyword tokens.now }
{
    match tokens {
        [Token::Key(other, _), ..] => keyword.is(*other),
        _ => false,
    }
}

/// The tokens after this word, which comes next.
pub fn after_word(keyword: Keyword, tokens: &[Token]) -> Result<&[Token], ReadError>
    ensures { Gives (λ r. r.now) result (spec.after_word keyword tokens.now) }
{
    if is_word(keyword, tokens) {
        Ok(&tokens[1..])
    } else {
        Err(ReadError::Syntax)
    }
}

/// Whether this word comes next, which may be left out, and the tokens after it.
pub fn optional_word(keyword: Keyword, tokens: &[Token]) -> (bool, &[Token])
    ensures { (result.0, result.1.now) ≡ spec.optional_word keyword tokens.now }
{
    if is_word(keyword, tokens) {
        (true, &tokens[1..])
    } else {
        (false, tokens)
    }
}

/// The same text.
pub fn copied(alloc: Global, text: &Text) -> Result<Text, AllocError>
    ensures { IfOk result (λ t. t ≡ text.now) }
{
    Text::of(alloc, text.as_str())
}

/// A name, which may be a word of the grammar.
#[tactic(auto, unfolding(crate::specs::grammar::Values::name_at))]
pub fn name(alloc: Global, tokens: &[Token]) -> Result<(Text, &[Token]), ReadError>
    ensures { Gives (λ r. (r.0, r.1.now)) result (spec.name_at tokens.now) }
{
    match tokens {
        [Token::Word(text) | Token::Key(_, text), rest @ ..] => Ok((copied(alloc, text)?, rest)),
        _ => Err(ReadError::Syntax),
    }
}

/// A variable, which is no word of the grammar.
#[tactic(auto, unfolding(crate::specs::grammar::Values::variable_at))]
pub fn variable(alloc: Global, tokens: &[Token]) -> Result<(Text, &[Token]), ReadError>
    ensures { Gives (λ r. (r.0, r.1.now)) result (spec.variable_at tokens.now) }
{
    match tokens {
        [Token::Word(text), rest @ ..] => Ok((copied(alloc, text)?, rest)),
        _ => Err(ReadError::Syntax),
    }
}

#[tactic(auto, unfolding(crate::specs::grammar::Values::names_at))]
fn names(alloc: Global, tokens: &[Token]) -> Result<(Seq<Text>, &[Token]), ReadError>
    ensures { Gives (λ r. (r.0, r.1.now)) result
        (spec.names_at (length tokens.now) [] tokens.now) }
{
    let mut found = Seq::new(alloc);
    let mut rest = tokens;
    for _turn in 0..tokens.len() {
        if !sees(Mark::Dot, rest) {
            return Ok((found, rest));
        }
        let (one, more) = name(alloc, &rest[1..])?;
        found.push(one)?;
        rest = more;
    }
    Ok((found, rest))
}

/// A path: a variable, and the names after its dots.
#[tactic(auto, unfolding(crate::specs::grammar::Values::path_at))]
pub fn path(alloc: Global, tokens: &[Token]) -> Result<(Path, &[Token]), ReadError>
    ensures { Gives (λ r. (r.0, r.1.now)) result (spec.path_at tokens.now) }
{
    let (variable, rest) = variable(alloc, tokens)?;
    let (names, rest) = names(alloc, rest)?;
    Ok((Path { variable, names }, rest))
}
