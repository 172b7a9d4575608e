//! Conditions, and the SELECTs nested in them.
ghost use Rattle.std.specs.Prelude.{◌≡◌, ◌∷◌, [], length, IfOk};
ghost use Rattle.jpql_grammar.specs.lexer.Gives.{Gives};
ghost use Rattle.jpql_grammar.specs.grammar.Values.{list_at, closed};
ghost use Rattle.jpql_grammar.specs.grammar.Conditions as spec;
ghost use Rattle.jpql_grammar.specs.grammar.Conditions.{cond_at};

use crate::conditions::lookahead::opens_condition;
use crate::conditions::predicates::{
    begins_variable, path_follows, path_tested, typed, value_tested,
};
use crate::conditions::rows::{
    aggregated, begins_rows, opposed, quantifier, rows_follow, selected, turned,
};
use crate::conditions::steps::{after, after_word, is_word, name, optional_word, sees, variable};
use crate::conditions::tested::{comparison, negated_if, opposite, sees_comparison};
use crate::conditions::values::value;
use crate::grammar::{Keyword, Mark, Token};
use crate::lexer::ReadError;
use jpa_value::{Boxed, Seq, Text};
use jpql_trees::tree::{Against, Block, Comparison, Condition, Item, Join, Origin, Source, Value};
use std::alloc::{AllocError, Global};

/// Two boxes, of what a condition joins.
fn boxed<T: Drop>(alloc: Global, left: T, right: T) -> Result<(Boxed<T>, Boxed<T>), AllocError>
    ensures { IfOk result (λ both. (both.0 ≡ left) × (both.1 ≡ right)) }
{
    let left = Boxed::new(alloc, left)?;
    let right = Boxed::new(alloc, right)?;
    Ok((left, right))
}

fn both(alloc: Global, left: Condition, right: Condition) -> Result<Condition, AllocError>
    ensures { IfOk result (λ c. c ≡ Condition.And left right) }
{
    let (left, right) = boxed(alloc, left, right)?;
    Ok(Condition::And(left, right))
}

fn either(alloc: Global, left: Condition, right: Condition) -> Result<Condition, AllocError>
    ensures { IfOk result (λ c. c ≡ Condition.Or left right) }
{
    let (left, right) = boxed(alloc, left, right)?;
    Ok(Condition::Or(left, right))
}

/// A variable or an item's name, before which AS may stand.
#[tactic(auto, unfolding(crate::specs::grammar::Conditions::named_at))]
pub fn named(alloc: Global, tokens: &[Token]) -> Result<(Text, &[Token]), ReadError>
    ensures { Gives (λ r. (r.0, r.1.now)) result (spec.named_at tokens.now) }
{
    let (_, rest) = optional_word(Keyword::As, tokens);
    variable(alloc, rest)
}

/// Such a name, where there is one.
#[tactic(auto, unfolding(crate::specs::grammar::Conditions::optional_name_at))]
pub fn optional_name(alloc: Global, tokens: &[Token]) -> Result<(Option<Text>, &[Token]), ReadError>
    ensures { Gives (λ r. (r.0, r.1.now)) result (spec.optional_name_at tokens.now) }
{
    if is_word(Keyword::As, tokens) || begins_variable(tokens) {
        let (name, rest) = named(alloc, tokens)?;
        Ok((Some(name), rest))
    } else {
        Ok((None, tokens))
    }
}

/// An item of SELECT.
#[tactic(auto, unfolding(crate::specs::grammar::Conditions::item_at))]
pub fn item(alloc: Global, depth: usize, tokens: &[Token]) -> Result<(Item, &[Token]), ReadError>
    ensures { Gives (λ r. (r.0, r.1.now)) result (spec.item_at depth tokens.now) }
{
    let (value, rest) = value(alloc, depth, tokens)?;
    let (name, rest) = optional_name(alloc, rest)?;
    Ok((Item { value, name }, rest))
}

fn begins_related(tokens: &[Token]) -> bool
    ensures { result ≡ spec.begins_related tokens.now }
{
    begins_variable(tokens) && sees(Mark::Dot, &tokens[1..])
}

/// A variable, and the name after its dot.
#[tactic(auto, unfolding(crate::specs::grammar::Conditions::related_at))]
pub fn related(alloc: Global, tokens: &[Token]) -> Result<((Text, Text), &[Token]), ReadError>
    ensures { Gives (λ r. (r.0, r.1.now)) result (spec.related_at tokens.now) }
{
    let (variable, rest) = variable(alloc, tokens)?;
    let (name, rest) = name(alloc, after(Mark::Dot, rest)?)?;
    Ok(((variable, name), rest))
}

#[tactic(auto, unfolding(crate::specs::grammar::Conditions::origin_at))]
fn origin(alloc: Global, is_nested: bool, tokens: &[Token]) -> Result<(Origin, &[Token]), ReadError>
    ensures { Gives (λ r. (r.0, r.1.now)) result (spec.origin_at is_nested tokens.now) }
{
    if is_nested && begins_related(tokens) {
        let ((variable, relation), rest) = related(alloc, tokens)?;
        Ok((Origin::Related(variable, relation), rest))
    } else {
        let (entity, rest) = name(alloc, tokens)?;
        Ok((Origin::Entity(entity), rest))
    }
}

fn begins_join(tokens: &[Token]) -> bool
    ensures { result ≡ spec.begins_join tokens.now }
{
    is_word(Keyword::Join, tokens)
        || is_word(Keyword::Inner, tokens)
        || is_word(Keyword::Left, tokens)
}

#[tactic(auto, unfolding(crate::specs::grammar::Conditions::side_at))]
fn side(tokens: &[Token]) -> Result<(bool, &[Token]), ReadError>
    ensures { Gives (λ r. (r.0, r.1.now)) result (spec.side_at tokens.now) }
{
    if is_word(Keyword::Left, tokens) {
        let (_, rest) = optional_word(Keyword::Outer, &tokens[1..]);
        Ok((true, after_word(Keyword::Join, rest)?))
    } else {
        let (_, rest) = optional_word(Keyword::Inner, tokens);
        Ok((false, after_word(Keyword::Join, rest)?))
    }
}

/// A condition after this word, where the word comes next.
#[cycle(cond)]
#[tactic(auto, unfolding(crate::specs::grammar::Conditions::clause_at))]
pub fn clause(
    alloc: Global,
    depth: usize,
    word: Keyword,
    tokens: &[Token],
) -> Result<(Option<Boxed<Condition>>, &[Token]), ReadError>
    ensures { Gives (λ r. (r.0, r.1.now)) result (spec.clause_at (cond_at depth) word tokens.now) }
{
    if !is_word(word, tokens) {
        return Ok((None, tokens));
    }
    let (condition, rest) = cond(alloc, depth, &tokens[1..])?;
    Ok((Some(Boxed::new(alloc, condition)?), rest))
}

#[cycle(cond)]
#[tactic(auto, unfolding(crate::specs::grammar::Conditions::join_at))]
fn join(alloc: Global, depth: usize, tokens: &[Token]) -> Result<(Join, &[Token]), ReadError>
    ensures { Gives (λ r. (r.0, r.1.now)) result (spec.join_at (cond_at depth) tokens.now) }
{
    let (is_left, rest) = side(tokens)?;
    let ((of, relation), rest) = related(alloc, rest)?;
    let (variable, rest) = named(alloc, rest)?;
    let (on, rest) = clause(alloc, depth, Keyword::On, rest)?;
    Ok((
        Join {
            is_left,
            of,
            relation,
            variable,
            on,
        },
        rest,
    ))
}

#[cycle(cond)]
#[tactic(auto, unfolding(crate::specs::grammar::Conditions::joins_at))]
fn joins(alloc: Global, depth: usize, tokens: &[Token]) -> Result<(Seq<Join>, &[Token]), ReadError>
    ensures { Gives (λ r. (r.0, r.1.now)) result
        (spec.joins_at (cond_at depth) (length tokens.now) [] tokens.now) }
{
    let mut found = Seq::new(alloc);
    let mut rest = tokens;
    for _turn in 0..tokens.len() {
        if !begins_join(rest) {
            return Ok((found, rest));
        }
        let (one, more) = join(alloc, depth, rest)?;
        found.push(one)?;
        rest = more;
    }
    Ok((found, rest))
}

#[cycle(cond)]
#[tactic(auto, unfolding(crate::specs::grammar::Conditions::source_at))]
fn source(
    alloc: Global,
    depth: usize,
    is_nested: bool,
    tokens: &[Token],
) -> Result<(Source, &[Token]), ReadError>
    ensures { Gives (λ r. (r.0, r.1.now)) result
        (spec.source_at (cond_at depth) is_nested tokens.now) }
{
    let (origin, rest) = origin(alloc, is_nested, tokens)?;
    let (variable, rest) = named(alloc, rest)?;
    let (joins, rest) = joins(alloc, depth, rest)?;
    Ok((
        Source {
            origin,
            variable,
            joins,
        },
        rest,
    ))
}

/// What stands after FROM; in a nested SELECT relations of variables too.
#[cycle(cond)]
#[tactic(auto, unfolding(crate::specs::grammar::Values::list_at, crate::specs::grammar::Values::others_at))]
pub fn sources(
    alloc: Global,
    depth: usize,
    is_nested: bool,
    tokens: &[Token],
) -> Result<(Seq<Source>, &[Token]), ReadError>
    ensures { Gives (λ r. (r.0, r.1.now)) result
        (list_at (spec.source_at (cond_at depth) is_nested) tokens.now) }
{
    let (first, mut rest) = source(alloc, depth, is_nested, tokens)?;
    let mut found = Seq::new(alloc);
    found.push(first)?;
    for _turn in 0..rest.len() {
        if !sees(Mark::Comma, rest) {
            return Ok((found, rest));
        }
        let (one, more) = source(alloc, depth, is_nested, &rest[1..])?;
        found.push(one)?;
        rest = more;
    }
    Ok((found, rest))
}

/// FROM, its ranges and WHERE, behind the item of a nested SELECT.
#[cycle(cond)]
#[tactic(auto, unfolding(crate::specs::grammar::Conditions::ranges_at))]
fn ranges(
    alloc: Global,
    depth: usize,
    tokens: &[Token],
) -> Result<((Seq<Source>, Option<Boxed<Condition>>), &[Token]), ReadError>
    ensures { Gives (λ r. (r.0, r.1.now)) result
        (spec.ranges_at depth (cond_at depth) tokens.now) }
{
    let rest = after_word(Keyword::From, tokens)?;
    let (sources, rest) = sources(alloc, depth, true, rest)?;
    let (filter, rest) = clause(alloc, depth, Keyword::Where, rest)?;
    Ok(((sources, filter), rest))
}

#[cycle(cond)]
#[tactic(auto, unfolding(crate::specs::grammar::Conditions::block_at))]
fn block(alloc: Global, depth: usize, tokens: &[Token]) -> Result<(Block, &[Token]), ReadError>
    ensures { Gives (λ r. (r.0, r.1.now)) result (spec.block_at depth (cond_at depth) tokens.now) }
{
    let (is_distinct, rest) = optional_word(Keyword::Distinct, tokens);
    let (item, rest) = item(alloc, depth, rest)?;
    let ((sources, filter), rest) = ranges(alloc, depth, rest)?;
    Ok((
        Block {
            is_distinct,
            item,
            sources,
            filter,
        },
        rest,
    ))
}

/// A nested SELECT of an aggregate: this, and the SELECT of what it is of.
#[cycle(cond)]
#[tactic(auto, unfolding(crate::specs::grammar::Conditions::scalar_at))]
fn scalar(
    alloc: Global,
    depth: usize,
    tokens: &[Token],
) -> Result<((Against, Block), &[Token]), ReadError>
    ensures { Gives (λ r. (r.0, r.1.now)) result
        (spec.scalar_at depth (cond_at depth) tokens.now) }
{
    let ((against, value), rest) = aggregated(alloc, depth, tokens)?;
    let ((sources, filter), rest) = ranges(alloc, depth, rest)?;
    let item = Item { value, name: None };
    let block = Block {
        is_distinct: false,
        item,
        sources,
        filter,
    };
    Ok(((against, block), rest))
}

#[cycle(cond)]
#[tactic(auto, unfolding(crate::specs::grammar::Conditions::subquery_at, crate::specs::grammar::Values::closed))]
fn subquery(
    alloc: Global,
    depth: usize,
    tokens: &[Token],
) -> Result<(Boxed<Block>, &[Token]), ReadError>
    ensures { Gives (λ r. (r.0, r.1.now)) result
        (spec.subquery_at depth (cond_at depth) tokens.now) }
{
    let (block, rest) = block(alloc, depth, selected(tokens)?)?;
    let rest = after(Mark::Close, rest)?;
    Ok((Boxed::new(alloc, block)?, rest))
}

#[cycle(cond)]
#[tactic(auto, unfolding(crate::specs::grammar::Conditions::enclosed_at, crate::specs::grammar::Values::closed))]
fn enclosed(
    alloc: Global,
    depth: usize,
    tokens: &[Token],
) -> Result<((Against, Boxed<Block>), &[Token]), ReadError>
    ensures { Gives (λ r. (r.0, r.1.now)) result
        (spec.enclosed_at depth (cond_at depth) tokens.now) }
{
    let ((against, block), rest) = scalar(alloc, depth, selected(tokens)?)?;
    let rest = after(Mark::Close, rest)?;
    Ok(((against, Boxed::new(alloc, block)?), rest))
}

#[cycle(cond)]
#[tactic(auto, unfolding(crate::specs::grammar::Conditions::exists_at))]
fn exists(alloc: Global, depth: usize, tokens: &[Token]) -> Result<(Condition, &[Token]), ReadError>
    ensures { Gives (λ r. (r.0, r.1.now)) result
        (spec.exists_at depth (cond_at depth) tokens.now) }
{
    let (block, rest) = subquery(alloc, depth, tokens)?;
    Ok((Condition::Exists(block), rest))
}

#[cycle(cond)]
#[tactic(auto, unfolding(crate::specs::grammar::Conditions::against_at))]
fn against(
    alloc: Global,
    depth: usize,
    tokens: &[Token],
) -> Result<((Against, Boxed<Block>), &[Token]), ReadError>
    ensures { Gives (λ r. (r.0, r.1.now)) result
        (spec.against_at depth (cond_at depth) tokens.now) }
{
    if begins_rows(tokens) {
        enclosed(alloc, depth, tokens)
    } else {
        let (against, rest) = quantifier(tokens)?;
        let (block, rest) = subquery(alloc, depth, rest)?;
        Ok(((against, block), rest))
    }
}

#[cycle(cond)]
#[tactic(auto, unfolding(crate::specs::grammar::Conditions::scalar_first_at))]
fn scalar_first(
    alloc: Global,
    depth: usize,
    tokens: &[Token],
) -> Result<(Condition, &[Token]), ReadError>
    ensures { Gives (λ r. (r.0, r.1.now)) result
        (spec.scalar_first_at depth (cond_at depth) tokens.now) }
{
    let ((against, block), rest) = enclosed(alloc, depth, tokens)?;
    match opposed(alloc, depth, rest) {
        Ok(((operation, value), rest)) => {
            Ok((
                Condition::Rows(against, turned(operation), value, block),
                rest,
            ))
        }
        Err(error) => {
            drop(block);
            Err(error)
        }
    }
}

#[cycle(cond)]
#[tactic(auto, unfolding(crate::specs::grammar::Conditions::beside_at))]
fn beside(
    alloc: Global,
    depth: usize,
    value: Value,
    tokens: &[Token],
) -> Result<(Condition, &[Token]), ReadError>
    ensures { Gives (λ r. (r.0, r.1.now)) result
        (spec.beside_at depth (cond_at depth) value tokens.now) }
{
    let (operation, rest) = comparison(tokens)?;
    let ((against, block), rest) = against(alloc, depth, rest)?;
    Ok((Condition::Rows(against, operation, value, block), rest))
}

#[cycle(cond)]
#[tactic(auto, unfolding(crate::specs::grammar::Conditions::among_rows_at))]
fn among_rows(
    alloc: Global,
    depth: usize,
    value: Value,
    tokens: &[Token],
) -> Result<(Condition, &[Token]), ReadError>
    ensures { Gives (λ r. (r.0, r.1.now)) result
        (spec.among_rows_at depth (cond_at depth) value tokens.now) }
{
    let (negated, rest) = optional_word(Keyword::Not, tokens);
    let (block, rest) = subquery(alloc, depth, after_word(Keyword::In, rest)?)?;
    let test = Condition::Rows(Against::Any, Comparison::Equal, value, block);
    Ok((negated_if(alloc, negated, test)?, rest))
}

/// What follows a value: rows, a test of a path, or a test of values.
#[cycle(cond)]
#[tactic(auto, unfolding(crate::specs::grammar::Conditions::follows_at))]
fn follows(
    alloc: Global,
    depth: usize,
    first: Value,
    bare: bool,
    tokens: &[Token],
) -> Result<(Condition, &[Token]), ReadError>
    ensures { Gives (λ r. (r.0, r.1.now)) result
        (spec.follows_at depth (cond_at depth) first bare tokens.now) }
{
    if !rows_follow(tokens) {
        if path_follows(tokens) {
            path_tested(alloc, first, bare, tokens)
        } else {
            value_tested(alloc, depth, first, tokens)
        }
    } else if sees_comparison(tokens) {
        beside(alloc, depth, first, tokens)
    } else {
        among_rows(alloc, depth, first, tokens)
    }
}

#[cycle(cond)]
#[tactic(auto, unfolding(crate::specs::grammar::Conditions::valued_at))]
fn valued(alloc: Global, depth: usize, tokens: &[Token]) -> Result<(Condition, &[Token]), ReadError>
    ensures { Gives (λ r. (r.0, r.1.now)) result
        (spec.valued_at depth (cond_at depth) tokens.now) }
{
    let (first, rest) = value(alloc, depth, tokens)?;
    follows(alloc, depth, first, begins_variable(tokens), rest)
}

#[cycle(cond)]
#[tactic(auto, unfolding(crate::specs::grammar::Conditions::simple_at))]
fn simple(alloc: Global, depth: usize, tokens: &[Token]) -> Result<(Condition, &[Token]), ReadError>
    ensures { Gives (λ r. (r.0, r.1.now)) result
        (spec.simple_at depth (cond_at depth) tokens.now) }
{
    if is_word(Keyword::Type, tokens) {
        typed(alloc, &tokens[1..])
    } else {
        valued(alloc, depth, tokens)
    }
}

// Here and in the loops below a condition is dropped by a call: one that goes out of scope takes
// minutes to prove.
#[cycle(cond)]
#[tactic(auto, unfolding(crate::specs::grammar::Values::closed))]
fn nested(alloc: Global, depth: usize, tokens: &[Token]) -> Result<(Condition, &[Token]), ReadError>
    ensures { Gives (λ r. (r.0, r.1.now)) result (closed (cond_at depth tokens.now)) }
{
    let (inner, rest) = cond(alloc, depth, tokens)?;
    match after(Mark::Close, rest) {
        Ok(rest) => Ok((inner, rest)),
        Err(error) => {
            drop(inner);
            Err(error)
        }
    }
}

#[cycle(cond)]
#[tactic(auto, unfolding(crate::specs::grammar::Conditions::test_at))]
fn test(alloc: Global, depth: usize, tokens: &[Token]) -> Result<(Condition, &[Token]), ReadError>
    ensures { Gives (λ r. (r.0, r.1.now)) result (spec.test_at depth (cond_at depth) tokens.now) }
{
    if begins_rows(tokens) {
        scalar_first(alloc, depth, tokens)
    } else if opens_condition(tokens) {
        nested(alloc, depth, &tokens[1..])
    } else if is_word(Keyword::Exists, tokens) {
        exists(alloc, depth, &tokens[1..])
    } else {
        simple(alloc, depth, tokens)
    }
}

#[cycle(cond)]
#[tactic(auto, unfolding(crate::specs::grammar::Conditions::not_at))]
fn negation(
    alloc: Global,
    depth: usize,
    tokens: &[Token],
) -> Result<(Condition, &[Token]), ReadError>
    ensures { Gives (λ r. (r.0, r.1.now)) result (spec.not_at depth (cond_at depth) tokens.now) }
{
    if is_word(Keyword::Not, tokens) {
        let (inner, rest) = test(alloc, depth, &tokens[1..])?;
        Ok((opposite(alloc, inner)?, rest))
    } else {
        test(alloc, depth, tokens)
    }
}

#[cycle(cond)]
#[tactic(auto, unfolding(crate::specs::grammar::Conditions::ands_at))]
fn ands(
    alloc: Global,
    depth: usize,
    first: Condition,
    tokens: &[Token],
) -> Result<(Condition, &[Token]), ReadError>
    ensures { Gives (λ r. (r.0, r.1.now)) result
        (spec.ands_at depth (cond_at depth) (length tokens.now) first tokens.now) }
{
    let mut found = first;
    let mut rest = tokens;
    for _turn in 0..tokens.len() {
        if !is_word(Keyword::And, rest) {
            return Ok((found, rest));
        }
        match negation(alloc, depth, &rest[1..]) {
            Ok((operand, more)) => {
                found = both(alloc, found, operand)?;
                rest = more;
            }
            Err(error) => {
                drop(found);
                return Err(error);
            }
        }
    }
    Ok((found, rest))
}

#[cycle(cond)]
#[tactic(auto, unfolding(crate::specs::grammar::Conditions::and_at))]
fn conjunction(
    alloc: Global,
    depth: usize,
    tokens: &[Token],
) -> Result<(Condition, &[Token]), ReadError>
    ensures { Gives (λ r. (r.0, r.1.now)) result (spec.and_at depth (cond_at depth) tokens.now) }
{
    let (first, rest) = negation(alloc, depth, tokens)?;
    ands(alloc, depth, first, rest)
}

#[cycle(cond)]
#[tactic(auto, unfolding(crate::specs::grammar::Conditions::ors_at))]
fn ors(
    alloc: Global,
    depth: usize,
    first: Condition,
    tokens: &[Token],
) -> Result<(Condition, &[Token]), ReadError>
    ensures { Gives (λ r. (r.0, r.1.now)) result
        (spec.ors_at depth (cond_at depth) (length tokens.now) first tokens.now) }
{
    let mut found = first;
    let mut rest = tokens;
    for _turn in 0..tokens.len() {
        if !is_word(Keyword::Or, rest) {
            return Ok((found, rest));
        }
        match conjunction(alloc, depth, &rest[1..]) {
            Ok((operand, more)) => {
                found = either(alloc, found, operand)?;
                rest = more;
            }
            Err(error) => {
                drop(found);
                return Err(error);
            }
        }
    }
    Ok((found, rest))
}

#[cycle(cond)]
#[tactic(auto, unfolding(crate::specs::grammar::Conditions::cond_level_at))]
fn disjunction(
    alloc: Global,
    depth: usize,
    tokens: &[Token],
) -> Result<(Condition, &[Token]), ReadError>
    ensures { Gives (λ r. (r.0, r.1.now)) result
        (spec.cond_level_at depth (cond_at depth) tokens.now) }
{
    let (first, rest) = conjunction(alloc, depth, tokens)?;
    ors(alloc, depth, first, rest)
}

/// A condition, with fewer than `depth` conditions inside one another.
#[cycle(cond)]
#[tactic(auto, unfolding(crate::specs::grammar::Conditions::cond_at))]
pub fn cond(
    alloc: Global,
    depth: usize,
    tokens: &[Token],
) -> Result<(Condition, &[Token]), ReadError>
    ensures { Gives (λ r. (r.0, r.1.now)) result (cond_at depth tokens.now) }
{
    if depth == 0 {
        return Err(ReadError::Syntax);
    }
    disjunction(alloc, depth - 1, tokens)
}
