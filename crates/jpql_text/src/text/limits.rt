//! How deep parentheses nest in a text, and how many words CASE its tokens have.
ghost use Rattle.std.specs.Prelude.{◌≡◌, ◌≤◌, false, IfSome};
ghost use Rattle.jpql_grammar.specs.grammar.Limits as spec;
ghost use Rattle.jpql_text.specs.text.Together as together;

use jpa_value::MOST_OPEN_PARENTHESES;
use jpql_grammar::conditions::is_word;
use jpql_grammar::grammar::{Keyword, Token};

/// The most words CASE in one text (own limit): they nest without a parenthesis.
pub const MOST_CASES: usize = 64;

/// Whether the bytes after this one are inside quotes, and how many parentheses are open before
/// them; none where too many are.
fn after_byte(is_quoted: bool, opened: usize, byte: u8) -> Option<(bool, usize)>
    requires { opened ≤ 32 }
    ensures value { result ≡ spec.nest_step 32 is_quoted opened byte }
    ensures few { IfSome result (λ after. after.1 ≤ 32) }
{
    if byte == b'\'' {
        Some((!is_quoted, opened))
    } else if is_quoted {
        Some((is_quoted, opened))
    } else if byte == b'(' {
        if opened < MOST_OPEN_PARENTHESES {
            Some((is_quoted, opened + 1))
        } else {
            None
        }
    } else if byte == b')' {
        Some((is_quoted, opened.saturating_sub(1)))
    } else {
        Some((is_quoted, opened))
    }
}

/// Whether more than 32 parentheses are open at some place of the text outside quotes.
pub fn nests_over(text: &[u8]) -> bool
    ensures { result ≡ spec.nests_over 32 false 0 text.now }
{
    let mut opened = 0;
    let mut is_quoted = false;
    for byte in text {
        match after_byte(is_quoted, opened, *byte) {
            None => return true,
            Some((quoted_after, open_after)) => {
                is_quoted = quoted_after;
                opened = open_after;
            }
        }
    }
    false
}

/// Whether there are at most 64 words CASE in a text.
#[tactic(auto, unfolding(crate::specs::text::Together::cases_in))]
pub fn has_few_cases(tokens: &[Token]) -> bool
    ensures { result ≡ together.has_few_cases tokens.now }
{
    let mut room = MOST_CASES;
    let mut left = tokens;
    while let [_, rest @ ..] = left {
        if is_word(Keyword::Case, left) {
            if room == 0 {
                return false;
            }
            room -= 1;
        }
        left = rest;
    }
    true
}
