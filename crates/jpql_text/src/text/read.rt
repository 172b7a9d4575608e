//! Reads a whole text.
ghost use Rattle.std.specs.Prelude.{◌≡◌, ◌≤◌, ◌⊎◌, IfOk, IfErr, List, Ok, Err, false, length};
ghost use Rattle.jpa_value.specs.declared.refusal.Cause.TheVariants as cause;
ghost use Rattle.jpql_grammar.specs.declared.grammar.lists.GivenList.{GivenList};
ghost use Rattle.jpql_trees.specs.declared.tree.Language.{Language};
ghost use Rattle.jpql_trees.specs.declared.tree.Language.TheVariants as language;
ghost use Rattle.jpql_grammar.specs.declared.grammar.token.Token.{Token};
ghost use Rattle.jpql_trees.specs.declared.tree.Query.{Query};
ghost use Rattle.jpql_trees.specs.tree.Names.{Text};
ghost use Rattle.jpql_grammar.specs.grammar.Limits as limits;
ghost use Rattle.jpql_grammar.specs.grammar.Text.{IsText};
ghost use Rattle.jpql_grammar.specs.grammar.Queries.{IsQuery, KeepNames};
ghost use Rattle.jpql_grammar.specs.lexer.Gives.{Gives};
ghost use Rattle.jpql_text.specs.text.Answers.{IsAnswered, IsRead, IsRefused, UsesLists};
ghost use Rattle.jpql_text.specs.text.Answers.{cause_of, statement_in};
ghost use Rattle.jpql_text.specs.text.Together as together;

use crate::text::language::speaks;
use crate::text::limits::{has_few_cases, nests_over};
use crate::text::lists::{are_used, become_few, spread};
use crate::text::statements::statement_of;
use crate::text::variables::declared;
use jpa_value::{Argument, Cause, MOST_QUERY_BYTES, MOST_QUERY_VARIABLES};
use jpql_grammar::grammar::{GivenList, Token};
use jpql_grammar::lexer::{ReadError, tokens};
use jpql_trees::tree::{Language, Query};
use std::alloc::Global;

/// Why a text is refused that isn't read as a statement.
fn cause_of(error: ReadError) -> Cause
    ensures { result ≡ cause_of error }
{
    match error {
        ReadError::Memory => Cause::OutOfMemory,
        ReadError::Syntax => Cause::IllegalArgument(Argument::Syntax),
    }
}

/// The statement of a language that a text's tokens are, where lists stand for their values.
fn statement_in(
    alloc: Global,
    language: Language,
    lists: &[GivenList],
    written: Vec<Token>,
) -> Result<Query, ReadError>
    ensures { Gives (λ query. query) result (statement_in language lists.now written.items) }
{
    let tokens = spread(alloc, lists, written)?;
    let query = statement_of(alloc, tokens.as_slice())?;
    if speaks(language, &query) {
        Ok(query)
    } else {
        drop(query);
        Err(ReadError::Syntax)
    }
}

/// Whether collections become few enough values in a text, and its words CASE are few enough.
fn are_few(lists: &[GivenList], tokens: &[Token]) -> bool
    ensures { result ≡ together.are_few lists.now tokens.now }
{
    become_few(lists, tokens) && has_few_cases(tokens)
}

/// The tree of a text that has these tokens, and isn't too long and nests not too deep.
fn tree_of(
    alloc: Global,
    language: Language,
    lists: &[GivenList],
    written: Vec<Token>,
) -> Result<Query, Cause>
    ensures { (text : Text) → length text ≤ 16384 →
        limits.nests_over 32 false 0 text ≡ false → IsText language text written.items →
        IsAnswered language lists.now text result }
{
    if !are_few(lists, written.as_slice()) {
        drop(written);
        return Err(Cause::Limit);
    }
    match statement_in(alloc, language, lists, written) {
        Err(error) => Err(cause_of(error)),
        Ok(query) => {
            if declared(&query) > MOST_QUERY_VARIABLES {
                drop(query);
                Err(Cause::Limit)
            } else {
                Ok(query)
            }
        }
    }
}

/// The tree of a query's text in a language. The text is one of the grammar of Jakarta Persistence
/// 3.1, chapter 4, as far as `jpql_grammar`'s `specs/Grammar` has it; keywords are those of the
/// language and ignore ASCII case, and parentheses leave no node. The profile's ORDER BY sorts by
/// result variables and paths alone, the wide language's by any value; the wide language has CASE
/// (chapter 4.7.4), and compares values with the rows of subqueries too. A parameter that a
/// collection is handed in for stands behind IN alone, with parentheses around it or not, for the
/// parameters of its values (chapter 4.6.9), whose names `value_name` gives.
///
/// `Limit` for a text over 16,384 bytes, for one in which more than 32 parentheses are open at some
/// place outside quotes, for one in which collections become more than 65,536 values, counted at
/// each place where one stands behind IN, for one of the wide language with more than 64 words
/// CASE, and for a text of the grammar that declares more than 8 variables;
/// `IllegalArgument(Syntax)` for each other text outside the grammar; `OutOfMemory` where a growth
/// was refused.
pub fn read_query(
    alloc: Global,
    language: Language,
    lists: &[GivenList],
    text: &str,
) -> Result<Query, Cause>
    ensures read { IfOk result (IsRead language lists.now text.now) }
    ensures refused { IfErr result (IsRefused language lists.now text.now) }
    ensures only { (query : Query) → IsRead language lists.now text.now query →
        (result ≡ Ok query) ⊎ (result ≡ Err cause.OutOfMemory) }
{
    if text.len() > MOST_QUERY_BYTES || nests_over(text.as_bytes()) {
        return Err(Cause::Limit);
    }
    match tokens(alloc, language, text) {
        Err(error) => Err(cause_of(error)),
        Ok(written) => tree_of(alloc, language, lists, written),
    }
}

/// Whether each collection that is handed in stands somewhere behind IN in a text, as `read_query`
/// takes it; so it is where the text has no tokens. `OutOfMemory` where a growth was refused.
pub fn uses_lists(
    alloc: Global,
    language: Language,
    lists: &[GivenList],
    text: &str,
) -> Result<bool, Cause>
    ensures uses { IfOk result (UsesLists language lists.now text.now) }
    ensures memory { IfErr result (λ refusal. refusal ≡ cause.OutOfMemory) }
{
    if lists.is_empty() {
        return Ok(true);
    }
    match tokens(alloc, language, text) {
        Ok(written) => Ok(are_used(lists, written.as_slice())),
        Err(ReadError::Syntax) => Ok(true),
        Err(ReadError::Memory) => Err(Cause::OutOfMemory),
    }
}

/// A text has at most one tree in a language, where the same collections are handed in.
pub fn at_most_one_tree()
    ensures { (l : Language) (lists : List GivenList) (text : Text) (one other : Query) →
        IsQuery l lists text one → IsQuery l lists text other → one ≡ other }
{}

/// A text whose names are names in the wider language too has there the tree that it has in the
/// profile.
pub fn a_profile_text_is_wide()
    ensures { (lists : List GivenList) (text : Text) (tokens : List Token) (query : Query) →
        IsText language.Profile text tokens → KeepNames tokens →
        IsQuery language.Profile lists text query → IsQuery language.Wide lists text query }
{}
