//! The names that stand in a statement.
ghost use Rattle.std.specs.Prelude.{◌≡◌, ◌++◌, ◌∷◌, [], IfOk, OnOk};
ghost use Rattle.std.specs.List.{flat_map};
ghost use Rattle.jpql_types.specs.Names as spec;

use jpa_value::{Boxed, Seq, Text};
use jpql_trees::tree::{
    Assignment, Block, Condition, Item, Join, Query, Select, SortKey, Sorted, Source, Value,
};
use std::alloc::{AllocError, Global};

/// Which names are listed.
#[derive(Clone, Copy)]
pub(crate) enum Names {
    /// The variables that FROM, joins, UPDATE and DELETE declare.
    Variables,
    /// The names of items.
    Items,
    /// The parameters of values.
    Parameters,
}

fn add(names: &mut Seq<Text>, name: &Text) -> Result<(), AllocError>
    ensures { OnOk result (names.new ≡ names.old ++ name.now ∷ []) }
{
    names.push(Text::of(names.allocator(), name.as_str())?)
}

// ---- values

#[cycle(add_parameters)]
fn add_parameters(names: &mut Seq<Text>, value: &Value) -> Result<(), AllocError>
    ensures { OnOk result (names.new ≡ names.old ++ spec.in_value Names.Parameters value.now) }
{
    match value {
        Value::Parameter(name) => add(names, name),
        Value::Signed(_, operand) | Value::Aggregate(_, _, operand) => {
            add_parameters(names, operand.get())
        }
        Value::Arithmetic(_, left, right) => {
            add_parameters(names, left.get())?;
            add_parameters(names, right.get())
        }
        Value::Call(_, arguments) => add_parameters_of_all(names, arguments.as_slice()),
        Value::Integer(_) | Value::Text(_) | Value::Path(_) | Value::Size(_) => Ok(()),
    }
}

#[cycle(add_parameters)]
fn add_parameters_of_all(names: &mut Seq<Text>, values: &[Value]) -> Result<(), AllocError>
    ensures { OnOk result (names.new ≡ names.old
        ++ flat_map (spec.in_value Names.Parameters) values.now) }
{
    for value in values {
        add_parameters(names, value)?;
    }
    Ok(())
}

fn add_in_value(names: &mut Seq<Text>, which: Names, value: &Value) -> Result<(), AllocError>
    ensures { OnOk result (names.new ≡ names.old ++ spec.in_value which value.now) }
{
    match which {
        Names::Parameters => add_parameters(names, value),
        _ => Ok(()),
    }
}

fn add_in_values(names: &mut Seq<Text>, which: Names, values: &[Value]) -> Result<(), AllocError>
    ensures { OnOk result (names.new ≡ names.old ++ flat_map (spec.in_value which) values.now) }
{
    for value in values {
        add_in_value(names, which, value)?;
    }
    Ok(())
}

fn add_variable(names: &mut Seq<Text>, which: Names, variable: &Text) -> Result<(), AllocError>
    ensures { OnOk result (names.new ≡ names.old ++ spec.of_variable which variable.now) }
{
    match which {
        Names::Variables => add(names, variable),
        _ => Ok(()),
    }
}

fn add_name(names: &mut Seq<Text>, which: Names, name: &Option<Text>) -> Result<(), AllocError>
    ensures { OnOk result (names.new ≡ names.old ++ spec.of_name which name.now) }
{
    match (which, name) {
        (Names::Items, Some(name)) => add(names, name),
        _ => Ok(()),
    }
}

fn add_in_item(names: &mut Seq<Text>, which: Names, item: &Item) -> Result<(), AllocError>
    ensures { OnOk result (names.new ≡ names.old ++ spec.in_item which item.now) }
{
    add_in_value(names, which, &item.value)?;
    add_name(names, which, &item.name)
}

// ---- conditions

#[cycle(add_in_condition)]
fn add_in_condition(
    names: &mut Seq<Text>,
    which: Names,
    condition: &Condition,
) -> Result<(), AllocError>
    ensures { OnOk result (names.new ≡ names.old ++ spec.in_condition which condition.now) }
{
    match condition {
        Condition::Or(left, right) | Condition::And(left, right) => {
            add_in_condition(names, which, left.get())?;
            add_in_condition(names, which, right.get())
        }
        Condition::Not(inner) => add_in_condition(names, which, inner.get()),
        Condition::Compare(_, left, right) | Condition::Like(left, right, _) => {
            add_in_value(names, which, left)?;
            add_in_value(names, which, right)
        }
        Condition::Between(value, low, high) => {
            add_in_value(names, which, value)?;
            add_in_value(names, which, low)?;
            add_in_value(names, which, high)
        }
        Condition::In(value, all) => {
            add_in_value(names, which, value)?;
            add_in_values(names, which, all.as_slice())
        }
        Condition::IsNull(value) | Condition::Member(value, _) => {
            add_in_value(names, which, value)
        }
        Condition::Exists(block) => add_in_block(names, which, block.get()),
        Condition::Rows(_, _, value, block) => {
            add_in_value(names, which, value)?;
            add_in_block(names, which, block.get())
        }
        Condition::IsEmpty(_) | Condition::Type(_, _) => Ok(()),
    }
}

#[cycle(add_in_condition)]
fn add_in_filter(
    names: &mut Seq<Text>,
    which: Names,
    filter: &Option<Boxed<Condition>>,
) -> Result<(), AllocError>
    ensures { OnOk result (names.new ≡ names.old ++ spec.in_filter which filter.now) }
{
    match filter {
        None => Ok(()),
        Some(condition) => add_in_condition(names, which, condition.get()),
    }
}

#[cycle(add_in_condition)]
fn add_in_block(names: &mut Seq<Text>, which: Names, block: &Block) -> Result<(), AllocError>
    ensures { OnOk result (names.new ≡ names.old ++ spec.in_block which block.now) }
{
    add_in_item(names, which, &block.item)?;
    add_in_sources(names, which, block.sources.as_slice())?;
    add_in_filter(names, which, &block.filter)
}

#[cycle(add_in_condition)]
fn add_in_join(names: &mut Seq<Text>, which: Names, join: &Join) -> Result<(), AllocError>
    ensures { OnOk result (names.new ≡ names.old ++ spec.in_join which join.now) }
{
    add_variable(names, which, &join.variable)?;
    add_in_filter(names, which, &join.on)
}

#[cycle(add_in_condition)]
fn add_in_joins(names: &mut Seq<Text>, which: Names, joins: &[Join]) -> Result<(), AllocError>
    ensures { OnOk result (names.new ≡ names.old ++ flat_map (spec.in_join which) joins.now) }
{
    for join in joins {
        add_in_join(names, which, join)?;
    }
    Ok(())
}

#[cycle(add_in_condition)]
fn add_in_source(names: &mut Seq<Text>, which: Names, source: &Source) -> Result<(), AllocError>
    ensures { OnOk result (names.new ≡ names.old ++ spec.in_source which source.now) }
{
    add_variable(names, which, &source.variable)?;
    add_in_joins(names, which, source.joins.as_slice())
}

#[cycle(add_in_condition)]
fn add_in_sources(names: &mut Seq<Text>, which: Names, sources: &[Source]) -> Result<(), AllocError>
    ensures { OnOk result (names.new ≡ names.old ++ flat_map (spec.in_source which) sources.now) }
{
    for source in sources {
        add_in_source(names, which, source)?;
    }
    Ok(())
}

// ---- statements

fn add_in_items(names: &mut Seq<Text>, which: Names, items: &[Item]) -> Result<(), AllocError>
    ensures { OnOk result (names.new ≡ names.old ++ flat_map (spec.in_item which) items.now) }
{
    for item in items {
        add_in_item(names, which, item)?;
    }
    Ok(())
}

fn add_in_assignment(
    names: &mut Seq<Text>,
    which: Names,
    assignment: &Assignment,
) -> Result<(), AllocError>
    ensures { OnOk result (names.new ≡ names.old ++ spec.in_assignment which assignment.now) }
{
    match &assignment.value {
        None => Ok(()),
        Some(value) => add_in_value(names, which, value),
    }
}

fn add_in_assignments(
    names: &mut Seq<Text>,
    which: Names,
    assignments: &[Assignment],
) -> Result<(), AllocError>
    ensures { OnOk result (names.new ≡ names.old
        ++ flat_map (spec.in_assignment which) assignments.now) }
{
    for assignment in assignments {
        add_in_assignment(names, which, assignment)?;
    }
    Ok(())
}

/// The names in a key of ORDER BY; one that isn't a value has none of its own.
fn add_in_key(names: &mut Seq<Text>, which: Names, key: &SortKey) -> Result<(), AllocError>
    ensures { OnOk result (names.new ≡ names.old ++ spec.in_key which key.now) }
{
    match &key.by {
        Sorted::Value(value) => add_in_value(names, which, value),
        Sorted::Name(_) | Sorted::Path(_) => Ok(()),
    }
}

fn add_in_keys(names: &mut Seq<Text>, which: Names, keys: &[SortKey]) -> Result<(), AllocError>
    ensures { OnOk result (names.new ≡ names.old ++ flat_map (spec.in_key which) keys.now) }
{
    for key in keys {
        add_in_key(names, which, key)?;
    }
    Ok(())
}

fn add_in_select(names: &mut Seq<Text>, which: Names, select: &Select) -> Result<(), AllocError>
    ensures { OnOk result (names.new ≡ names.old
        ++ spec.names_in which (Query.Select select.now)) }
{
    add_in_items(names, which, select.items.as_slice())?;
    add_in_sources(names, which, select.sources.as_slice())?;
    add_in_filter(names, which, &select.filter)?;
    add_in_filter(names, which, &select.having)?;
    add_in_keys(names, which, select.order.as_slice())
}

fn add_names(names: &mut Seq<Text>, which: Names, query: &Query) -> Result<(), AllocError>
    ensures { OnOk result (names.new ≡ names.old ++ spec.names_in which query.now) }
{
    match query {
        Query::Select(select) => add_in_select(names, which, select),
        Query::Update {
            variable,
            assignments,
            filter,
            ..
        } => {
            add_variable(names, which, variable)?;
            add_in_assignments(names, which, assignments.as_slice())?;
            add_in_filter(names, which, filter)
        }
        Query::Delete {
            variable,
            filter,
            ..
        } => {
            if let Some(variable) = variable {
                add_variable(names, which, variable)?;
            }
            add_in_filter(names, which, filter)
        }
    }
}

/// The names of a statement, each as often as it stands there.
pub(crate) fn names_in(alloc: Global, which: Names, query: &Query) -> Result<Seq<Text>, AllocError>
    ensures { IfOk result (λ names. names ≡ spec.names_in which query.now) }
{
    let mut names = Seq::new(alloc);
    add_names(&mut names, which, query)?;
    Ok(names)
}
