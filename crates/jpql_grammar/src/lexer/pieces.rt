//! Pieces of a text, and all of them.
ghost use Rattle.std.specs.Prelude.{◌≡◌, ◌∷◌, ◌++◌, [], length, OnOk, IfOk, false, true, Some, None, MatchOption, ◌<◌, if◌then◌else◌, Err, List, ℕ};
ghost use Rattle.jpql_grammar.specs.grammar.Text.{IsText};
ghost use Rattle.jpql_trees.specs.declared.tree.Language.{Language};
ghost use Rattle.jpql_grammar.specs.declared.grammar.token.Token.{Token};
ghost use Rattle.jpql_grammar.specs.declared.lexer.error.ReadError.TheVariants.{Syntax};
ghost use Rattle.std.specs.Char.{is_ascii_digit};
ghost use Rattle.std.specs.List.{list_all};
ghost use Rattle.std.specs.String.{string_bytes};
ghost use Rattle.jpql_grammar.specs.grammar.Text as text_spec;
ghost use Rattle.jpql_grammar.specs.grammar.Text.{begins, word_of};
ghost use Rattle.jpql_grammar.specs.grammar.Lexing as spec;
ghost use Rattle.jpql_grammar.specs.lexer.Classes.{as_tokens, one_if_any};
ghost use Rattle.jpql_grammar.specs.lexer.Gives.{Gives};

use crate::grammar::{Mark, Token};
use crate::lexer::cut::{Class, first, skip_one, split_run};
use crate::lexer::error::ReadError;
use crate::lexer::keywords::keyword_of;
use jpa_value::Text;
use jpql_trees::tree::Language;
use std::alloc::{AllocError, Global};

fn word_token(alloc: Global, language: Language, word: &str) -> Result<Token, AllocError>
    ensures { IfOk result (λ t. t ≡ word_of (text_spec.keyword_of language word.now) word.now) }
{
    let text = Text::of(alloc, word)?;
    match keyword_of(language, word) {
        None => Ok(Token::Word(text)),
        Some(keyword) => Ok(Token::Key(keyword, text)),
    }
}

#[tactic(auto, unfolding(crate::specs::grammar::Lexing::word_at))]
fn word(alloc: Global, language: Language, text: &str) -> Result<(Token, &str), ReadError>
    ensures { Gives (λ r. (r.0 ∷ [], r.1.now)) result
        (as_tokens language (spec.word_at text.now)) }
{
    let (word, rest) = split_run(Class::Word, text);
    Ok((word_token(alloc, language, word)?, rest))
}

fn number(digits: &str) -> Option<i64>
    requires some { begins is_ascii_digit digits.now ≡ true }
    requires all { list_all is_ascii_digit digits.now ≡ true }
    ensures { result ≡ spec.number_of digits.now }
{
    match digits.parse::<i64>() {
        Ok(number) => Some(number),
        Err(_) => None,
    }
}

#[tactic(auto, unfolding(crate::specs::grammar::Lexing::digits_at))]
fn digits(text: &str) -> Result<(Token, &str), ReadError>
    requires { begins is_ascii_digit text.now ≡ true }
    ensures { (l : Language) → Gives (λ r. (r.0 ∷ [], r.1.now)) result
        (as_tokens l (spec.digits_at text.now)) }
{
    let (digits, rest) = split_run(Class::Digit, text);
    match number(digits) {
        Some(number) => Ok((Token::Number(number), rest)),
        None => Err(ReadError::Syntax),
    }
}

/// The bytes up to the first quote, and the text after that quote.
fn until_quote(text: &str) -> Option<(&str, &str)>
    ensures { MatchOption result (spec.quoted_at false text.now ≡ None)
        (λ r. (length r.1.now < length text.now)
        × (spec.quoted_at false text.now
        ≡ spec.with_front r.0.now (spec.quoted_at true r.1.now))) }
{
    let (plain, rest) = split_run(Class::Unquoted, text);
    if rest.is_empty() {
        None
    } else {
        Some((plain, skip_one(rest)))
    }
}

/// The text after a second quote, where one follows the first.
fn after_second(text: &str) -> Option<&str>
    ensures { MatchOption result (spec.quoted_at true text.now ≡ Some ([], text.now))
        (λ r. (length r.now < length text.now)
        × (spec.quoted_at true text.now ≡ spec.with_front (39 ∷ [])
        (spec.quoted_at false r.now))) }
{
    if first(text) == b'\'' {
        Some(skip_one(text))
    } else {
        None
    }
}

/// The text between quotes, after the one that opens, and the text after the one that closes.
fn quoted(alloc: Global, text: &str) -> Result<(Text, &str), ReadError>
    ensures { Gives (λ r. (r.0, r.1.now)) result (spec.quoted_at false text.now) }
{
    let mut found = String::new(alloc);
    let mut rest = text;
    loop {
        let Some((plain, after)) = until_quote(rest) else {
            return Err(ReadError::Syntax);
        };
        found.push_str(plain)?;
        let Some(more) = after_second(after) else {
            return Ok((Text::from_string(found)?, after));
        };
        found.push_str("'")?;
        rest = more;
    }
}

#[tactic(auto, unfolding(crate::specs::grammar::Lexing::quotes_at))]
fn quotes(alloc: Global, text: &str) -> Result<(Token, &str), ReadError>
    ensures { (l : Language) → Gives (λ r. (r.0 ∷ [], r.1.now)) result
        (as_tokens l (spec.quotes_at text.now)) }
{
    let (text, rest) = quoted(alloc, text)?;
    Ok((Token::Quoted(text), rest))
}

fn begins_word(text: &str) -> bool
    ensures { result ≡ begins text_spec.begins_word text.now }
{
    let byte = first(text);
    byte.is_ascii_alphabetic() || byte == b'_'
}

fn begins_digits(text: &str) -> bool
    ensures { result ≡ begins is_ascii_digit text.now }
{
    first(text).is_ascii_digit()
}

#[tactic(auto, unfolding(crate::specs::grammar::Lexing::named_at))]
fn named(alloc: Global, text: &str) -> Result<(Token, &str), ReadError>
    ensures { (l : Language) → Gives (λ r. (r.0 ∷ [], r.1.now)) result
        (as_tokens l (spec.named_at text.now)) }
{
    if !begins_word(text) {
        return Err(ReadError::Syntax);
    }
    let (name, rest) = split_run(Class::Word, text);
    Ok((Token::Parameter(Text::of(alloc, name)?), rest))
}

#[tactic(auto, unfolding(crate::specs::grammar::Lexing::numbered_at))]
fn numbered(alloc: Global, text: &str) -> Result<(Token, &str), ReadError>
    ensures { (l : Language) → Gives (λ r. (r.0 ∷ [], r.1.now)) result
        (as_tokens l (spec.numbered_at text.now)) }
{
    if !begins_digits(text) || first(text) == b'0' {
        return Err(ReadError::Syntax);
    }
    let (number, rest) = split_run(Class::Digit, text);
    Ok((Token::Parameter(Text::of(alloc, number)?), rest))
}

fn mark_of(byte: u8, next: u8) -> Option<Mark>
    ensures { result ≡ spec.mark_of byte next }
{
    match byte {
        b',' => Some(Mark::Comma),
        b'.' => Some(Mark::Dot),
        b'(' => Some(Mark::Open),
        b')' => Some(Mark::Close),
        b'+' => Some(Mark::Plus),
        b'-' => Some(Mark::Minus),
        b'*' => Some(Mark::Star),
        b'=' => Some(Mark::Equal),
        b'<' => Some(less(next)),
        b'>' => Some(greater(next)),
        _ => None,
    }
}

fn less(next: u8) -> Mark
    ensures { result ≡ spec.less_of next }
{
    match next {
        b'=' => Mark::AtMost,
        b'>' => Mark::Different,
        _ => Mark::Less,
    }
}

fn greater(next: u8) -> Mark
    ensures { result ≡ spec.greater_of next }
{
    if next == b'=' {
        Mark::AtLeast
    } else {
        Mark::Greater
    }
}

fn is_long(mark: Mark) -> bool
    ensures { spec.mark_length mark ≡ (if result then 2 else 1) }
{
    match mark {
        Mark::AtMost | Mark::Different | Mark::AtLeast => true,
        _ => false,
    }
}

#[tactic(auto, unfolding(crate::specs::grammar::Lexing::mark_at))]
fn mark(text: &str) -> Result<(Token, &str), ReadError>
    requires { 0 < length text.now }
    ensures { (l : Language) → Gives (λ r. (r.0 ∷ [], r.1.now)) result
        (as_tokens l (spec.mark_at text.now)) }
{
    let byte = first(text);
    if byte >= 128 {
        return Err(ReadError::Syntax);
    }
    let rest = skip_one(text);
    let Some(mark) = mark_of(byte, first(rest)) else {
        return Err(ReadError::Syntax);
    };
    if is_long(mark) {
        Ok((Token::Mark(mark), skip_one(rest)))
    } else {
        Ok((Token::Mark(mark), rest))
    }
}

fn is_blank(byte: u8) -> bool
    ensures { result ≡ text_spec.is_blank byte }
{
    byte == b' ' || byte == b'\t' || byte == b'\r' || byte == b'\n'
}

/// The token that begins with this byte.
#[tactic(auto, unfolding(crate::specs::grammar::Lexing::piece_at))]
fn token(
    alloc: Global,
    language: Language,
    byte: u8,
    text: &str,
) -> Result<(Token, &str), ReadError>
    requires some { 0 < length text.now }
    requires first { byte ≡ spec.first text.now }
    requires solid { text_spec.is_blank byte ≡ false }
    ensures { Gives (λ r. (r.0 ∷ [], r.1.now)) result
        (as_tokens language (spec.piece_at text.now)) }
{
    if begins_word(text) {
        word(alloc, language, text)
    } else if byte.is_ascii_digit() {
        digits(text)
    } else if byte == b'\'' {
        quotes(alloc, skip_one(text))
    } else if byte == b':' {
        named(alloc, skip_one(text))
    } else if byte == b'?' {
        numbered(alloc, skip_one(text))
    } else {
        mark(text)
    }
}

#[tactic(auto, unfolding(crate::specs::grammar::Lexing::piece_at))]
fn piece(alloc: Global, language: Language, text: &str) -> Result<(Option<Token>, &str), ReadError>
    ensures { Gives (λ r. (one_if_any r.0, r.1.now)) result
        (as_tokens language (spec.piece_at text.now)) }
{
    if text.is_empty() {
        return Err(ReadError::Syntax);
    }
    let byte = first(text);
    if is_blank(byte) {
        return Ok((None, skip_one(text)));
    }
    let (token, rest) = token(alloc, language, byte, text)?;
    Ok((Some(token), rest))
}

fn add(found: &mut Vec<Token>, token: Option<Token>) -> Result<(), AllocError>
    ensures { OnOk result (found.new.items ≡ found.old.items ++ one_if_any token) }
{
    if let Some(token) = token {
        found.push(token)?;
    }
    Ok(())
}

/// The tokens of a text.
#[tactic(auto, unfolding(crate::specs::grammar::Lexing::tokens_at))]
fn cut(alloc: Global, language: Language, text: &str) -> Result<Vec<Token>, ReadError>
    ensures { Gives (λ found. found.items) result
        (spec.tokens_at language (length text.now) [] text.now) }
{
    let mut found = Vec::new(alloc);
    let mut rest = text;
    for _turn in 0..text.len() {
        if rest.is_empty() {
            return Ok(found);
        }
        let (token, more) = piece(alloc, language, rest)?;
        add(&mut found, token)?;
        rest = more;
    }
    Ok(found)
}

/// The tokens of a text in a language. `Memory` where a growth was refused; `Syntax` exactly where
/// the text has no tokens, which is so in both languages or in none: at a byte that begins none, an
/// integer above 9223372036854775807, a text whose quote doesn't close, or a parameter without a
/// name (Jakarta Persistence 3.1, chapters 4.4.1, 4.6.1 and 4.6.4).
pub fn tokens(alloc: Global, language: Language, text: &str) -> Result<Vec<Token>, ReadError>
    ensures found { IfOk result (λ found. IsText language text.now found.items) }
    ensures only { (tokens : List Token) → IsText language text.now tokens →
        Gives (λ found. found.items) result (Some tokens) }
    ensures none { result ≡ Err Syntax → (tokens : List Token) →
        IsText language text.now tokens → ⊥ }
{
    cut(alloc, language, text)
}

/// A text has at most one list of tokens in a language.
pub fn at_most_one_list()
    ensures { (l : Language) (text : List ℕ) (one other : List Token) → IsText l text one →
        IsText l text other → one ≡ other }
{}
