//! What SET sets members to (chapter 4.11).
ghost use Rattle.std.specs.Prelude.{◌≡◌, [], map, option_map, IfOk};
ghost use Rattle.std.specs.List.{list_all};
ghost use Rattle.jpa_model.specs.WellFormed.{is_some_that};
ghost use Rattle.jpql_types.specs.Gives.{IsJudged};
ghost use Rattle.jpql_types.specs.Sorts.{goes_with};
ghost use Rattle.jpql_types.specs.Statements as spec;
ghost use Rattle.jpql_types.specs.Trees as trees;
ghost use Rattle.jpql_types.specs.Within.{IsClass, IsScope};

use crate::context::Context;
use crate::ends::step_sort;
use crate::error::TypingError;
use crate::nodes::judged;
use crate::paths::{relation_of, step_from};
use crate::scope::{Clause, Variable};
use crate::sort::Sort;
use crate::values::typed_value;
use jpa_model::{Member, Metamodel};
use jpa_value::Seq;
use jpql_trees::tree::{Assignment, Value};
use jpql_trees::typed::{Step, TypedAssignment, TypedValue};
use std::alloc::Global;

fn is_settable(metamodel: &Metamodel, step: Step) -> bool
    requires { IsClass metamodel.now step.class }
    ensures { result ≡ spec.is_settable metamodel.now step }
{
    match step.member {
        Member::KeyPart(_) => false,
        Member::Version | Member::Attribute(_) => true,
        Member::Relation(_) => match relation_of(metamodel, step) {
            None => false,
            Some(relation) => relation.side.column().is_some(),
        },
    }
}

fn is_parameter(value: &Value) -> bool
    ensures { result ≡ spec.is_parameter value.now }
{
    matches!(value, Value::Parameter(_))
}

fn allows_value(member: Member, value: &Option<Value>) -> bool
    ensures { result ≡ spec.allows_value member value.now }
{
    match (member, value) {
        (Member::Version, value) => value.is_some(),
        (Member::Relation(_), Some(value)) => is_parameter(value),
        _ => true,
    }
}

/// Whether there is a sort that goes with this one.
fn is_of(asked: Option<Sort>, sort: Sort) -> bool
    ensures { result ≡ is_some_that (λ s. goes_with s sort) asked }
{
    match asked {
        None => false,
        Some(asked) => asked.goes_with(sort),
    }
}

/// A value that goes with a sort.
fn value_of(
    alloc: Global,
    context: &Context<'_>,
    scope: &[Variable],
    sort: Option<Sort>,
    value: &Value,
) -> Result<TypedValue, TypingError>
    requires scope { IsScope context.now.metamodel.now scope.now }
    requires groups { context.now.groups.now ≡ [] }
    ensures typed { IsJudged result (spec.is_value_of context.now.metamodel.now
        context.now.parameters.now scope.now sort value.now) }
    ensures tree { IfOk result (λ found. found ≡ trees.typed_value context.now.metamodel.now
        context.now.parameters.now scope.now value.now) }
{
    let (value, found) = typed_value(alloc, context, scope, Clause::Where, value)?;
    judged(is_of(sort, found), value)
}

/// What a step is set to.
fn new_value(
    alloc: Global,
    context: &Context<'_>,
    scope: &[Variable],
    step: Step,
    value: &Option<Value>,
) -> Result<Option<TypedValue>, TypingError>
    requires scope { IsScope context.now.metamodel.now scope.now }
    requires groups { context.now.groups.now ≡ [] }
    requires class { IsClass context.now.metamodel.now step.class }
    ensures typed { IsJudged result (spec.is_set_typed context.now.metamodel.now
        context.now.parameters.now scope.now value.now step) }
    ensures tree { IfOk result (λ found. found ≡ option_map
        (trees.typed_value context.now.metamodel.now context.now.parameters.now scope.now)
        value.now) }
{
    if !is_settable(context.metamodel, step) || !allows_value(step.member, value) {
        return Err(TypingError::Typing);
    }
    match value {
        None => Ok(None),
        Some(value) => {
            let sort = step_sort(context.metamodel, step);
            Ok(Some(value_of(alloc, context, scope, sort, value)?))
        }
    }
}

fn typed_assignment(
    alloc: Global,
    context: &Context<'_>,
    scope: &[Variable],
    assignment: &Assignment,
) -> Result<TypedAssignment, TypingError>
    requires scope { IsScope context.now.metamodel.now scope.now }
    requires groups { context.now.groups.now ≡ [] }
    ensures typed { IsJudged result (spec.is_assignment_typed context.now.metamodel.now
        context.now.parameters.now scope.now assignment.now) }
    ensures tree { IfOk result (λ found. found ≡ trees.typed_assignment context.now.metamodel.now
        context.now.parameters.now scope.now assignment.now) }
{
    let (_, step) = step_from(
        context.metamodel,
        scope,
        &assignment.variable,
        &assignment.name,
    )
    .ok_or(TypingError::Typing)?;
    let value = new_value(alloc, context, scope, step, &assignment.value)?;
    Ok(TypedAssignment {
        member: step.member,
        value,
    })
}

/// What an UPDATE sets, where each of it is well typed.
pub(crate) fn typed_assignments(
    alloc: Global,
    context: &Context<'_>,
    scope: &[Variable],
    assignments: &[Assignment],
) -> Result<Seq<TypedAssignment>, TypingError>
    requires scope { IsScope context.now.metamodel.now scope.now }
    requires groups { context.now.groups.now ≡ [] }
    ensures typed { IsJudged result
        (list_all (spec.is_assignment_typed context.now.metamodel.now context.now.parameters.now
        scope.now) assignments.now) }
    ensures trees { IfOk result (λ found. found ≡ map
        (trees.typed_assignment context.now.metamodel.now context.now.parameters.now scope.now)
        assignments.now) }
{
    let mut found = Seq::new(alloc);
    for assignment in assignments {
        found.push(typed_assignment(alloc, context, scope, assignment)?)?;
    }
    Ok(found)
}
