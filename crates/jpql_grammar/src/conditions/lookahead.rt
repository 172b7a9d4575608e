//! What an open parenthesis begins.
ghost use Rattle.std.specs.Prelude.{◌≡◌};
ghost use Rattle.jpql_grammar.specs.grammar.Nesting.{past_close};
ghost use Rattle.jpql_grammar.specs.grammar.Values as spec;

use crate::conditions::steps::{is_mark, sees};
use crate::grammar::{Keyword, Mark, Token};

pub fn is_comparison(mark: Mark) -> bool
    ensures { result ≡ spec.is_comparison mark }
{
    match mark {
        Mark::Equal | Mark::Different | Mark::Less | Mark::AtMost | Mark::Greater | Mark::AtLeast =>
            true,
        _ => false,
    }
}

fn is_test_word(keyword: Keyword) -> bool
    ensures { result ≡ spec.is_test_word keyword }
{
    match keyword {
        Keyword::Not
        | Keyword::Is
        | Keyword::In
        | Keyword::Between
        | Keyword::Like
        | Keyword::Member => true,
        _ => false,
    }
}

fn is_test_mark(mark: Mark) -> bool
    ensures { result ≡ spec.is_test_mark mark }
{
    match mark {
        Mark::Plus | Mark::Minus | Mark::Star => true,
        _ => is_comparison(mark),
    }
}

/// Whether what comes next goes on a value, or a test behind its value.
fn goes_on(tokens: &[Token]) -> bool
    ensures { result ≡ spec.goes_on_at tokens.now }
{
    match tokens {
        [Token::Mark(mark), ..] => is_test_mark(*mark),
        [Token::Key(keyword, _), ..] => is_test_word(*keyword),
        _ => false,
    }
}

/// The tokens behind the parenthesis that closes, where those begin inside it.
fn behind_close(tokens: &[Token]) -> &[Token]
    ensures { result.now ≡ past_close 0 tokens.now }
{
    let mut depth: usize = 0;
    let mut rest = tokens;
    for _turn in 0..tokens.len() {
        match rest {
            [] => return rest,
            [token, more @ ..] => {
                if is_mark(Mark::Close, token) {
                    if depth == 0 {
                        return more;
                    }
                    depth -= 1;
                } else if is_mark(Mark::Open, token) {
                    depth += 1;
                }
                rest = more;
            }
        }
    }
    rest
}

/// Whether a condition begins with the parenthesis that comes next, and no value.
pub fn opens_condition(tokens: &[Token]) -> bool
    ensures { result ≡ spec.opens_condition tokens.now }
{
    sees(Mark::Open, tokens) && !goes_on(behind_close(&tokens[1..]))
}
