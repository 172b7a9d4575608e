//! What names no variable around it: then it is the same for all tuples of these variables (chapter
//! 4.6.16). `around` is how many there are.
ghost use Rattle.std.specs.Prelude.{◌≡◌, option_map};
ghost use Rattle.std.specs.List.{list_all};
ghost use Rattle.jpql_meaning.specs.plan.Alone as alone;

use jpa_value::Boxed;
use jpql_trees::typed::{
    TypedBlock, TypedCondition, TypedJoin, TypedOrigin, TypedSource, TypedValue,
};

/// Whether a value names none.
#[cycle(is_alone_value)]
fn is_alone_value(value: &TypedValue, around: usize) -> bool
    ensures { result ≡ alone.is_alone_value around value.now }
{
    match value {
        TypedValue::Integer(_) | TypedValue::Text(_) | TypedValue::Parameter(_) => true,
        TypedValue::Path(path) => around <= path.variable,
        TypedValue::Size(path) => around <= path.variable,
        TypedValue::Signed(_, one) => is_alone_value(one.get(), around),
        TypedValue::Arithmetic(_, left, right) => {
            is_alone_value(left.get(), around) && is_alone_value(right.get(), around)
        }
        TypedValue::Call(_, all) => are_alone_values(all.as_slice(), around),
        TypedValue::Aggregate(_, _, one) => is_alone_value(one.get(), around),
    }
}

#[cycle(is_alone_value)]
fn are_alone_values(values: &[TypedValue], around: usize) -> bool
    ensures { result ≡ list_all (alone.is_alone_value around) values.now }
{
    for value in values {
        if !is_alone_value(value, around) {
            return false;
        }
    }
    true
}

/// Whether a condition names none.
#[cycle(is_alone)]
fn is_alone(condition: &TypedCondition, around: usize) -> bool
    ensures { result ≡ alone.is_alone around condition.now }
{
    match condition {
        TypedCondition::Or(left, right) => {
            is_alone(left.get(), around) && is_alone(right.get(), around)
        }
        TypedCondition::And(left, right) => {
            is_alone(left.get(), around) && is_alone(right.get(), around)
        }
        TypedCondition::Not(inner) => is_alone(inner.get(), around),
        TypedCondition::Compare(_, left, right) => {
            is_alone_value(left, around) && is_alone_value(right, around)
        }
        TypedCondition::Between(middle, low, high) => {
            is_alone_value(middle, around)
                && (is_alone_value(low, around) && is_alone_value(high, around))
        }
        TypedCondition::In(one, all) => {
            is_alone_value(one, around) && are_alone_values(all.as_slice(), around)
        }
        TypedCondition::Like(text, pattern, _) => {
            is_alone_value(text, around) && is_alone_value(pattern, around)
        }
        TypedCondition::IsNull(one) => is_alone_value(one, around),
        TypedCondition::IsEmpty(path) => around <= path.variable,
        TypedCondition::Member(one, path) => {
            is_alone_value(one, around) && around <= path.variable
        }
        TypedCondition::Exists(block) => is_alone_block(block.get(), around),
        TypedCondition::Rows(_, _, one, block) => {
            is_alone_value(one, around) && is_alone_block(block.get(), around)
        }
        TypedCondition::Type(place, _) => around <= *place,
    }
}

/// Whether a condition does, where there is one.
#[cycle(is_alone)]
fn is_any_alone(condition: &Option<Boxed<TypedCondition>>, around: usize) -> bool
    ensures { result ≡ alone.is_any_alone (option_map (alone.is_alone around) condition.now) }
{
    match condition {
        None => true,
        Some(condition) => is_alone(condition.get(), around),
    }
}

/// Whether a nested block names none: its item, its FROM and its WHERE.
#[cycle(is_alone)]
pub(crate) fn is_alone_block(block: &TypedBlock, around: usize) -> bool
    ensures { result ≡ alone.is_alone_block around block.now }
{
    is_alone_value(&block.item, around)
        && (are_alone_sources(block.sources.as_slice(), around)
            && is_any_alone(&block.filter, around))
}

#[cycle(is_alone)]
fn is_alone_join(join: &TypedJoin, around: usize) -> bool
    ensures { result ≡ alone.is_alone_join around join.now }
{
    around <= join.of && is_any_alone(&join.on, around)
}

#[cycle(is_alone)]
fn are_alone_joins(joins: &[TypedJoin], around: usize) -> bool
    ensures { result ≡ list_all (alone.is_alone_join around) joins.now }
{
    for join in joins {
        if !is_alone_join(join, around) {
            return false;
        }
    }
    true
}

/// Whether that which a range ranges over names none.
fn is_alone_origin(origin: &TypedOrigin, around: usize) -> bool
    ensures { result ≡ alone.is_alone_origin around origin.now }
{
    match origin {
        TypedOrigin::Entity(_) => true,
        TypedOrigin::Related(of, _) => around <= *of,
    }
}

#[cycle(is_alone)]
fn is_alone_source(source: &TypedSource, around: usize) -> bool
    ensures { result ≡ alone.is_alone_source around source.now }
{
    is_alone_origin(&source.origin, around) && are_alone_joins(source.joins.as_slice(), around)
}

#[cycle(is_alone)]
fn are_alone_sources(sources: &[TypedSource], around: usize) -> bool
    ensures { result ≡ list_all (alone.is_alone_source around) sources.now }
{
    for source in sources {
        if !is_alone_source(source, around) {
            return false;
        }
    }
    true
}
