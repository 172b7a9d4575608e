//! Collections behind IN.
ghost use Rattle.std.specs.Prelude.{◌≡◌, ◌∷◌, ◌++◌, [], suc, ◌<◌, ◌-◌, ◌^◌, Some, OnOk};
ghost use Rattle.std.specs.Str.{bytes_eq};
ghost use Rattle.std.specs.Option.{option_and_then, option_copied};
ghost use Rattle.jpql_grammar.specs.lexer.Gives.{Gives};
ghost use Rattle.jpql_grammar.specs.declared.grammar.token.Mark.TheVariants as m;
ghost use Rattle.jpql_grammar.specs.declared.grammar.token.Token.TheVariants as t;
ghost use Rattle.jpql_grammar.specs.grammar.Values as values;
ghost use Rattle.jpql_grammar.specs.grammar.Lists as spec;
ghost use Rattle.jpql_text.specs.text.Together as together;

use jpql_grammar::conditions::sees;
use jpql_grammar::grammar::{Before, GivenList, Keyword, Mark, Token, value_name};
use jpql_grammar::lexer::ReadError;
use std::alloc::{AllocError, Global};
use std::collections::VecDeque;

/// The most values of one collection that is handed in for a parameter (chapter 4.6.9; own limit).
pub const MOST_LIST_VALUES: usize = 4_096;

/// The most values that all collections become in one text, together.
const MOST_VALUES_TOGETHER: usize = 65_536;

/// What stands before the token after this one.
fn behind(before: Before, token: &Token) -> Before
    ensures { result ≡ spec.behind before token.now }
{
    match token {
        Token::Key(Keyword::In, _) => Before::In,
        Token::Mark(Mark::Open) => match before {
            Before::In => Before::InParenthesis,
            Before::InParenthesis | Before::Other => Before::Other,
        },
        _ => Before::Other,
    }
}

/// Whether a parenthesis closes where nothing stands in it behind IN.
fn closes_nothing(before: Before, token: &Token) -> bool
    ensures { result ≡ spec.closes_nothing before token.now }
{
    match before {
        Before::InParenthesis => matches!(token, Token::Mark(Mark::Close)),
        Before::In | Before::Other => false,
    }
}

/// The parameter that a token is, if it is one.
fn parameter_in(token: &Token) -> Option<&str>
    ensures { option_copied result ≡ spec.parameter_in token.now }
{
    match token {
        Token::Parameter(name) => Some(name.as_str()),
        _ => None,
    }
}

/// The parameter that a token is where it stands alone behind IN, or alone in parentheses there.
fn lone_parameter(before: Before, token: &Token, closes: bool) -> Option<&str>
    ensures { option_copied result ≡ spec.lone_parameter before token.now closes }
{
    match before {
        Before::In => parameter_in(token),
        Before::InParenthesis if closes => parameter_in(token),
        Before::InParenthesis | Before::Other => None,
    }
}

/// Whether a list has this name.
fn has_name(list: &GivenList, name: &str) -> bool
    ensures { result ≡ bytes_eq list.now.name name.now }
{
    list.name.as_str() == name
}

/// The list of this name, if there is one.
fn list_named<'a>(lists: &'a [GivenList], name: &str) -> Option<&'a GivenList>
    ensures { option_copied result ≡ spec.list_named lists.now name.now }
{
    lists.iter().find(|list| has_name(list, name))
}

/// The list whose values stand in a token's place, if there is one.
fn list_in_place<'a>(
    lists: &'a [GivenList],
    before: Before,
    token: &Token,
    closes: bool,
) -> Option<&'a GivenList>
    ensures { option_copied result ≡ option_and_then (spec.list_named lists.now)
        (spec.lone_parameter before token.now closes) }
{
    match lone_parameter(before, token, closes) {
        Some(name) => list_named(lists, name),
        None => None,
    }
}

/// A value of a list, with a comma before it where it isn't the first.
fn add_value(
    alloc: Global,
    found: &mut Vec<Token>,
    name: &str,
    before: usize,
) -> Result<(), AllocError>
    requires { before < 2 ^ 64 - 1 }
    ensures { OnOk result (found.new.items ≡ found.old.items ++ spec.comma_behind before
        ++ t.Parameter (spec.value_name name.now (suc before)) ∷ []) }
{
    let value = Token::Parameter(value_name(alloc, name, before + 1)?);
    if before > 0 {
        found.push(Token::Mark(Mark::Comma))?;
    }
    found.push(value)?;
    Ok(())
}

/// The values of a list, with commas between them.
fn add_values(alloc: Global, found: &mut Vec<Token>, list: &GivenList) -> Result<(), AllocError>
    ensures { OnOk result (found.new.items ≡ found.old.items
        ++ spec.values_of list.now.name list.now.count) }
{
    for before in 0..list.count {
        add_value(alloc, found, list.name.as_str(), before)?;
    }
    Ok(())
}

/// The values of a list in the parentheses that stand there, or in new ones.
fn add_list(
    alloc: Global,
    found: &mut Vec<Token>,
    before: Before,
    list: &GivenList,
) -> Result<(), AllocError>
    ensures { OnOk result (found.new.items ≡ found.old.items
        ++ spec.in_parentheses before (spec.values_of list.now.name list.now.count)) }
{
    match before {
        Before::In => {
            found.push(Token::Mark(Mark::Open))?;
            add_values(alloc, found, list)?;
            found.push(Token::Mark(Mark::Close))?;
            Ok(())
        }
        Before::InParenthesis | Before::Other => add_values(alloc, found, list),
    }
}

/// What a token stands for, behind other tokens; `Syntax` where it closes a parenthesis behind IN
/// that has nothing in it.
fn with_token(
    alloc: Global,
    lists: &[GivenList],
    mut found: Vec<Token>,
    before: Before,
    token: Token,
    closes: bool,
) -> Result<Vec<Token>, ReadError>
    ensures { Gives (λ all. all.items) result
        (option_and_then (λ front. Some (found.items ++ front))
        (spec.spread_token lists.now before token closes)) }
{
    if closes_nothing(before, &token) {
        return Err(ReadError::Syntax);
    }
    match list_in_place(lists, before, &token, closes) {
        None => found.push(token)?,
        Some(list) => add_list(alloc, &mut found, before, list)?,
    }
    Ok(found)
}

/// Whether a parenthesis closes next.
fn closes_next(left: &VecDeque<Token>) -> bool
    ensures { result ≡ values.sees m.Close left.now.items }
{
    match left.front() {
        Some(Token::Mark(Mark::Close)) => true,
        _ => false,
    }
}

/// The tokens that a text's tokens stand for: the values of each collection behind IN, in
/// parentheses (chapter 4.6.9). `Syntax` where the text writes IN and parentheses with nothing in
/// them; `Memory` where a growth was refused.
pub fn spread(
    alloc: Global,
    lists: &[GivenList],
    tokens: Vec<Token>,
) -> Result<Vec<Token>, ReadError>
    ensures { Gives (λ found. found.items) result (spec.spread lists.now tokens.items) }
{
    let mut found = Vec::new(alloc);
    let mut before = Before::Other;
    let mut left = VecDeque::from(tokens);
    while let Some(token) = left.pop_front() {
        let after = behind(before, &token);
        found = with_token(alloc, lists, found, before, token, closes_next(&left))?;
        before = after;
    }
    Ok(found)
}

/// Whether the parameter that may be here has this name.
fn is_named(name: &str, here: Option<&str>) -> bool
    ensures { result ≡ spec.is_named name.now (option_copied here.entry) }
{
    match here {
        Some(own) => name == own,
        None => false,
    }
}

/// Whether a list of this name stands somewhere behind IN.
#[tactic(auto, unfolding(jpql_grammar::specs::grammar::Lists::stands_from))]
fn stands(name: &str, tokens: &[Token]) -> bool
    ensures { result ≡ spec.stands_from name.now Before.Other tokens.now }
{
    let mut before = Before::Other;
    let mut left = tokens;
    while let [token, rest @ ..] = left {
        let here = lone_parameter(before, token, sees(Mark::Close, rest));
        if is_named(name, here) {
            return true;
        }
        before = behind(before, token);
        left = rest;
    }
    false
}

/// Whether each list stands somewhere behind IN.
pub fn are_used(lists: &[GivenList], tokens: &[Token]) -> bool
    ensures { result ≡ spec.are_used lists.now tokens.now }
{
    lists.iter().all(|list| stands(list.name.as_str(), tokens))
}

/// How many values a list has, if there is one.
fn count_of(list: Option<&GivenList>) -> usize
    ensures { result ≡ together.count_of (option_copied list.entry) }
{
    match list {
        Some(list) => list.count,
        None => 0,
    }
}

/// Whether collections become at most 65,536 values in a text, counted at each place where one
/// stands behind IN. Nothing is written out for it.
#[tactic(auto, unfolding(crate::specs::text::Together::values_from))]
pub fn become_few(lists: &[GivenList], tokens: &[Token]) -> bool
    ensures { result ≡ together.become_few lists.now tokens.now }
{
    let mut room = MOST_VALUES_TOGETHER;
    let mut before = Before::Other;
    let mut left = tokens;
    while let [token, rest @ ..] = left {
        let closes = sees(Mark::Close, rest);
        let count = count_of(list_in_place(lists, before, token, closes));
        if count > room {
            return false;
        }
        room -= count;
        before = behind(before, token);
        left = rest;
    }
    true
}
