//! Statements.
ghost use Rattle.std.specs.Prelude.{◌≡◌, ◌∷◌, [], length, IfOk, Some};
ghost use Rattle.jpql_grammar.specs.lexer.Gives.{Gives};
ghost use Rattle.jpql_grammar.specs.grammar.Values.{list_at, path_at};
ghost use Rattle.jpql_grammar.specs.grammar.Statements as spec;
ghost use Rattle.jpql_grammar.specs.grammar.Conditions.{item_at, begins_variable, bare_path};
ghost use Rattle.jpql_grammar.specs.grammar.Parts.{sorted_by};

use jpa_value::Seq;
use jpql_grammar::conditions::{
    after, after_word, begins_variable, clause, is_word, item, name, named, optional_name,
    optional_word, path, related, sees, sources, value,
};
use jpql_grammar::grammar::{Keyword, Mark, Token};
use jpql_grammar::lexer::ReadError;
use jpql_trees::tree::{Assignment, Item, Path, Query, Select, SortKey, Sorted, Value};
use std::alloc::Global;

fn direction(tokens: &[Token]) -> (bool, &[Token])
    ensures { (result.0, result.1.now) ≡ spec.direction_at tokens.now }
{
    if is_word(Keyword::Asc, tokens) {
        (false, &tokens[1..])
    } else {
        optional_word(Keyword::Desc, tokens)
    }
}

fn sorted_by_path(path: Path) -> Sorted
    ensures { result ≡ sorted_by (Some path) (Value.Path path) }
{
    if path.names.is_empty() {
        Sorted::Name(path.variable)
    } else {
        Sorted::Path(path)
    }
}

/// What a key sorts by, from its value and whether that begins with a variable.
fn sorted_by(begins_variable: bool, value: Value) -> Sorted
    ensures { result ≡ sorted_by (bare_path begins_variable value) value }
{
    if !begins_variable {
        return Sorted::Value(value);
    }
    match value {
        Value::Path(path) => sorted_by_path(path),
        other => Sorted::Value(other),
    }
}

#[tactic(auto, unfolding(jpql_grammar::specs::grammar::Statements::key_at))]
fn key(alloc: Global, depth: usize, tokens: &[Token]) -> Result<(SortKey, &[Token]), ReadError>
    ensures { Gives (λ r. (r.0, r.1.now)) result (spec.key_at depth tokens.now) }
{
    let (value, rest) = value(alloc, depth, tokens)?;
    let (is_descending, rest) = direction(rest);
    Ok((
        SortKey {
            by: sorted_by(begins_variable(tokens), value),
            is_descending,
        },
        rest,
    ))
}

#[tactic(auto, unfolding(jpql_grammar::specs::grammar::Values::list_at, jpql_grammar::specs::grammar::Values::others_at))]
fn keys(
    alloc: Global,
    depth: usize,
    tokens: &[Token],
) -> Result<(Seq<SortKey>, &[Token]), ReadError>
    ensures { Gives (λ r. (r.0, r.1.now)) result (list_at (spec.key_at depth) tokens.now) }
{
    let (first, mut rest) = key(alloc, depth, tokens)?;
    let mut found = Seq::new(alloc);
    found.push(first)?;
    for _turn in 0..rest.len() {
        if !sees(Mark::Comma, rest) {
            return Ok((found, rest));
        }
        let (one, more) = key(alloc, depth, &rest[1..])?;
        found.push(one)?;
        rest = more;
    }
    Ok((found, rest))
}

#[tactic(auto, unfolding(jpql_grammar::specs::grammar::Values::list_at, jpql_grammar::specs::grammar::Values::others_at))]
fn paths(alloc: Global, tokens: &[Token]) -> Result<(Seq<Path>, &[Token]), ReadError>
    ensures { Gives (λ r. (r.0, r.1.now)) result (list_at path_at tokens.now) }
{
    let (first, mut rest) = path(alloc, tokens)?;
    let mut found = Seq::new(alloc);
    found.push(first)?;
    for _turn in 0..rest.len() {
        if !sees(Mark::Comma, rest) {
            return Ok((found, rest));
        }
        let (one, more) = path(alloc, &rest[1..])?;
        found.push(one)?;
        rest = more;
    }
    Ok((found, rest))
}

#[tactic(auto, unfolding(jpql_grammar::specs::grammar::Values::list_at, jpql_grammar::specs::grammar::Values::others_at))]
fn items(alloc: Global, depth: usize, tokens: &[Token]) -> Result<(Seq<Item>, &[Token]), ReadError>
    ensures { Gives (λ r. (r.0, r.1.now)) result (list_at (item_at depth) tokens.now) }
{
    let (first, mut rest) = item(alloc, depth, tokens)?;
    let mut found = Seq::new(alloc);
    found.push(first)?;
    for _turn in 0..rest.len() {
        if !sees(Mark::Comma, rest) {
            return Ok((found, rest));
        }
        let (one, more) = item(alloc, depth, &rest[1..])?;
        found.push(one)?;
        rest = more;
    }
    Ok((found, rest))
}

#[tactic(auto, unfolding(jpql_grammar::specs::grammar::Statements::by_at))]
fn group_by(alloc: Global, tokens: &[Token]) -> Result<(Seq<Path>, &[Token]), ReadError>
    ensures { Gives (λ r. (r.0, r.1.now)) result (spec.by_at Keyword.Group path_at tokens.now) }
{
    if is_word(Keyword::Group, tokens) {
        paths(alloc, after_word(Keyword::By, &tokens[1..])?)
    } else {
        Ok((Seq::new(alloc), tokens))
    }
}

#[tactic(auto, unfolding(jpql_grammar::specs::grammar::Statements::by_at))]
fn order_by(
    alloc: Global,
    depth: usize,
    tokens: &[Token],
) -> Result<(Seq<SortKey>, &[Token]), ReadError>
    ensures { Gives (λ r. (r.0, r.1.now)) result
        (spec.by_at Keyword.Order (spec.key_at depth) tokens.now) }
{
    if is_word(Keyword::Order, tokens) {
        keys(alloc, depth, after_word(Keyword::By, &tokens[1..])?)
    } else {
        Ok((Seq::new(alloc), tokens))
    }
}

#[tactic(auto, unfolding(jpql_grammar::specs::grammar::Statements::select_at))]
fn select(alloc: Global, depth: usize, tokens: &[Token]) -> Result<(Query, &[Token]), ReadError>
    ensures { Gives (λ r. (r.0, r.1.now)) result (spec.select_at depth tokens.now) }
{
    let (is_distinct, rest) = optional_word(Keyword::Distinct, tokens);
    let (items, rest) = items(alloc, depth, rest)?;
    let rest = after_word(Keyword::From, rest)?;
    let (sources, rest) = sources(alloc, depth, false, rest)?;
    let (filter, rest) = clause(alloc, depth, Keyword::Where, rest)?;
    let (groups, rest) = group_by(alloc, rest)?;
    let (having, rest) = clause(alloc, depth, Keyword::Having, rest)?;
    let (order, rest) = order_by(alloc, depth, rest)?;
    Ok((
        Query::Select(Select {
            is_distinct,
            items,
            sources,
            filter,
            groups,
            having,
            order,
        }),
        rest,
    ))
}

#[tactic(auto, unfolding(jpql_grammar::specs::grammar::Statements::new_value_at))]
fn new_value(
    alloc: Global,
    depth: usize,
    tokens: &[Token],
) -> Result<(Option<Value>, &[Token]), ReadError>
    ensures { Gives (λ r. (r.0, r.1.now)) result (spec.new_value_at depth tokens.now) }
{
    if is_word(Keyword::Null, tokens) {
        Ok((None, &tokens[1..]))
    } else {
        let (value, rest) = value(alloc, depth, tokens)?;
        Ok((Some(value), rest))
    }
}

#[tactic(auto, unfolding(jpql_grammar::specs::grammar::Statements::assignment_at))]
fn assignment(
    alloc: Global,
    depth: usize,
    tokens: &[Token],
) -> Result<(Assignment, &[Token]), ReadError>
    ensures { Gives (λ r. (r.0, r.1.now)) result (spec.assignment_at depth tokens.now) }
{
    let ((variable, name), rest) = related(alloc, tokens)?;
    let (value, rest) = new_value(alloc, depth, after(Mark::Equal, rest)?)?;
    Ok((
        Assignment {
            variable,
            name,
            value,
        },
        rest,
    ))
}

#[tactic(auto, unfolding(jpql_grammar::specs::grammar::Values::list_at, jpql_grammar::specs::grammar::Values::others_at))]
fn assignments(
    alloc: Global,
    depth: usize,
    tokens: &[Token],
) -> Result<(Seq<Assignment>, &[Token]), ReadError>
    ensures { Gives (λ r. (r.0, r.1.now)) result (list_at (spec.assignment_at depth) tokens.now) }
{
    let (first, mut rest) = assignment(alloc, depth, tokens)?;
    let mut found = Seq::new(alloc);
    found.push(first)?;
    for _turn in 0..rest.len() {
        if !sees(Mark::Comma, rest) {
            return Ok((found, rest));
        }
        let (one, more) = assignment(alloc, depth, &rest[1..])?;
        found.push(one)?;
        rest = more;
    }
    Ok((found, rest))
}

#[tactic(auto, unfolding(jpql_grammar::specs::grammar::Statements::update_at))]
fn update(alloc: Global, depth: usize, tokens: &[Token]) -> Result<(Query, &[Token]), ReadError>
    ensures { Gives (λ r. (r.0, r.1.now)) result (spec.update_at depth tokens.now) }
{
    let (entity, rest) = name(alloc, tokens)?;
    let (variable, rest) = named(alloc, rest)?;
    let rest = after_word(Keyword::Set, rest)?;
    let (assignments, rest) = assignments(alloc, depth, rest)?;
    let (filter, rest) = clause(alloc, depth, Keyword::Where, rest)?;
    Ok((
        Query::Update {
            entity,
            variable,
            assignments,
            filter,
        },
        rest,
    ))
}

#[tactic(auto, unfolding(jpql_grammar::specs::grammar::Statements::delete_at))]
fn delete(alloc: Global, depth: usize, tokens: &[Token]) -> Result<(Query, &[Token]), ReadError>
    ensures { Gives (λ r. (r.0, r.1.now)) result (spec.delete_at depth tokens.now) }
{
    let (entity, rest) = name(alloc, after_word(Keyword::From, tokens)?)?;
    let (variable, rest) = optional_name(alloc, rest)?;
    let (filter, rest) = clause(alloc, depth, Keyword::Where, rest)?;
    Ok((
        Query::Delete {
            entity,
            variable,
            filter,
        },
        rest,
    ))
}

#[tactic(auto, unfolding(jpql_grammar::specs::grammar::Statements::statement_at))]
fn any_statement(
    alloc: Global,
    depth: usize,
    tokens: &[Token],
) -> Result<(Query, &[Token]), ReadError>
    ensures { Gives (λ r. (r.0, r.1.now)) result (spec.statement_at depth tokens.now) }
{
    if is_word(Keyword::Select, tokens) {
        select(alloc, depth, &tokens[1..])
    } else if is_word(Keyword::Update, tokens) {
        update(alloc, depth, &tokens[1..])
    } else if is_word(Keyword::Delete, tokens) {
        delete(alloc, depth, &tokens[1..])
    } else {
        Err(ReadError::Syntax)
    }
}

/// The statement that all the tokens are.
#[tactic(auto, unfolding(jpql_grammar::specs::grammar::Statements::whole_at))]
fn statement(alloc: Global, depth: usize, tokens: &[Token]) -> Result<Query, ReadError>
    ensures { Gives (λ q. q) result (spec.whole_at depth tokens.now) }
{
    let (query, rest) = any_statement(alloc, depth, tokens)?;
    match rest {
        [] => Ok(query),
        _ => {
            drop(query);
            Err(ReadError::Syntax)
        }
    }
}

/// The statement that these tokens are. No part of it nests deeper than there are tokens.
pub fn statement_of(alloc: Global, tokens: &[Token]) -> Result<Query, ReadError>
    ensures { Gives (λ q. q) result (spec.statement_of tokens.now) }
{
    statement(alloc, tokens.len() + 1, tokens)
}
