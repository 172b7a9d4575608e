//! How many variables a query declares, as far as nine: more are not told apart.
ghost use Rattle.std.specs.Prelude.{◌≡◌, ◌≤◌, ◌+◌, min, map, sum};
ghost use Rattle.jpql_trees.specs.tree.Variables as spec;

use jpa_value::Boxed;
use jpql_trees::tree::{Block, Condition, Join, Query, Source};

fn total(one: usize, other: usize) -> usize
    requires few { one ≤ 9 }
    requires few_more { other ≤ 9 }
    ensures { result ≡ min 9 (one + other) }
{
    (one + other).min(9)
}

#[cycle(declared)]
fn in_condition(condition: &Condition) -> usize
    ensures { result ≡ min 9 (spec.in_condition condition.now) }
{
    match condition {
        Condition::Or(left, right) | Condition::And(left, right) => {
            total(in_condition(left.get()), in_condition(right.get()))
        }
        Condition::Not(inner) => in_condition(inner.get()),
        Condition::Exists(block) | Condition::Rows(_, _, _, block) => in_block(block.get()),
        _ => 0,
    }
}

#[cycle(declared)]
fn in_filter(filter: &Option<Boxed<Condition>>) -> usize
    ensures { result ≡ min 9 (spec.in_filter filter.now) }
{
    match filter {
        None => 0,
        Some(condition) => in_condition(condition.get()),
    }
}

#[cycle(declared)]
fn in_block(block: &Block) -> usize
    ensures { result ≡ min 9 (spec.in_block block.now) }
{
    total(
        in_sources(block.sources.as_slice()),
        in_filter(&block.filter),
    )
}

#[cycle(declared)]
fn in_join(join: &Join) -> usize
    ensures { result ≡ min 9 (spec.in_join join.now) }
{
    total(1, in_filter(&join.on))
}

#[cycle(declared)]
fn in_joins(joins: &[Join]) -> usize
    ensures { result ≡ min 9 (sum (map spec.in_join joins.now)) }
{
    let mut found = 0;
    for join in joins {
        found = total(found, in_join(join));
    }
    found
}

#[cycle(declared)]
fn in_source(source: &Source) -> usize
    ensures { result ≡ min 9 (spec.in_source source.now) }
{
    total(1, in_joins(source.joins.as_slice()))
}

#[cycle(declared)]
fn in_sources(sources: &[Source]) -> usize
    ensures { result ≡ min 9 (sum (map spec.in_source sources.now)) }
{
    let mut found = 0;
    for source in sources {
        found = total(found, in_source(source));
    }
    found
}

/// How many variables the query declares, as far as nine.
pub fn declared(query: &Query) -> usize
    ensures { result ≡ min 9 (spec.declared_variables query.now) }
{
    match query {
        Query::Select(select) => total(
            total(
                in_sources(select.sources.as_slice()),
                in_filter(&select.filter),
            ),
            in_filter(&select.having),
        ),
        Query::Update { filter, .. } => total(1, in_filter(filter)),
        Query::Delete {
            variable,
            filter,
            ..
        } => {
            let own = if variable.is_some() { 1 } else { 0 };
            total(own, in_filter(filter))
        }
    }
}
