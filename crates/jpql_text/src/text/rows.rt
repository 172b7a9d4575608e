//! Whether a query compares a value with the rows of a subquery.
ghost use Rattle.std.specs.Prelude.{◌≡◌, map};
ghost use Rattle.jpql_grammar.specs.grammar.Rows as spec;

use jpa_value::Boxed;
use jpql_trees::tree::{Block, Condition, Join, Query, Source};

#[cycle(rows)]
fn in_condition(condition: &Condition) -> bool
    ensures { result ≡ spec.has_rows condition.now }
{
    match condition {
        Condition::Or(left, right) | Condition::And(left, right) => {
            in_condition(left.get()) || in_condition(right.get())
        }
        Condition::Not(inner) => in_condition(inner.get()),
        Condition::Exists(block) => in_block(block.get()),
        Condition::Rows(_, _, _, _) => true,
        _ => false,
    }
}

#[cycle(rows)]
fn in_filter(filter: &Option<Boxed<Condition>>) -> bool
    ensures { result ≡ spec.filter_has_rows filter.now }
{
    match filter {
        None => false,
        Some(condition) => in_condition(condition.get()),
    }
}

#[cycle(rows)]
fn in_block(block: &Block) -> bool
    ensures { result ≡ spec.block_has_rows block.now }
{
    in_sources(block.sources.as_slice()) || in_filter(&block.filter)
}

#[cycle(rows)]
fn in_join(join: &Join) -> bool
    ensures { result ≡ spec.join_has_rows join.now }
{
    in_filter(&join.on)
}

#[cycle(rows)]
fn in_joins(joins: &[Join]) -> bool
    ensures { result ≡ spec.any_so (map spec.join_has_rows joins.now) }
{
    for join in joins {
        if in_join(join) {
            return true;
        }
    }
    false
}

#[cycle(rows)]
fn in_source(source: &Source) -> bool
    ensures { result ≡ spec.source_has_rows source.now }
{
    in_joins(source.joins.as_slice())
}

#[cycle(rows)]
fn in_sources(sources: &[Source]) -> bool
    ensures { result ≡ spec.any_so (map spec.source_has_rows sources.now) }
{
    for source in sources {
        if in_source(source) {
            return true;
        }
    }
    false
}

/// Whether the query compares a value with the rows of a subquery (chapters 4.6.9, 4.6.15 and
/// 4.6.16).
pub(super) fn has_rows(query: &Query) -> bool
    ensures { result ≡ spec.query_has_rows query.now }
{
    match query {
        Query::Select(select) => {
            in_sources(select.sources.as_slice())
                || in_filter(&select.filter)
                || in_filter(&select.having)
        }
        Query::Update { filter, .. } | Query::Delete { filter, .. } => in_filter(filter),
    }
}
