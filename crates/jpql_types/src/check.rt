//! What a check of a statement answers.
ghost use Rattle.std.specs.Prelude.{◌≡◌, [], not, map, if◌then◌else◌, Ok, Err, IfOk};
ghost use Rattle.jpa_model.specs.Described.{IsUnlessMemory};
ghost use Rattle.jpql_types.specs.Gives.{IsJudged};
ghost use Rattle.jpql_types.specs.Typing as typing;
ghost use Rattle.jpql_types.specs.Statements as spec;
ghost use Rattle.jpql_types.specs.Trees as trees;
ghost use Rattle.jpql_types.specs.Within.{IsScope};

use crate::conditions::typed_filter;
use crate::context::{Context, Groups, Parameters};
use crate::distinct::{are_distinct_assignments, are_given, has_distinct_names};
use crate::error::TypingError;
use crate::scope::{Clause, Variable};
use crate::select::typed_select;
use crate::setting::typed_assignments;
use crate::sort::ParamType;
use jpa_model::Metamodel;
use jpa_value::{Argument, Boxed, Cause, Seq, Text};
use jpql_trees::tree::{Assignment, Condition, Language, Path, Query};
use jpql_trees::typed::Typed;
use std::alloc::{AllocError, Global};

type Filter = Option<Boxed<Condition>>;

/// The scope of one variable.
fn scope_of(alloc: Global, variable: &Text, class: usize) -> Result<Seq<Variable>, AllocError>
    ensures { IfOk result (λ scope. scope ≡ typing.with_variable [] variable.now class) }
{
    let name = Text::of(alloc, variable.as_str())?;
    let mut scope = Seq::new(alloc);
    scope.push(Variable { name, class })?;
    Ok(scope)
}

/// The scope of a variable that may be left out.
fn scope_of_any(
    alloc: Global,
    variable: &Option<Text>,
    class: usize,
) -> Result<Seq<Variable>, AllocError>
    ensures { IfOk result (λ scope. scope ≡ typing.scope_of variable.now class) }
{
    match variable {
        None => Ok(Seq::new(alloc)),
        Some(variable) => scope_of(alloc, variable, class),
    }
}

/// An UPDATE of a class (chapter 4.11).
fn update_of(
    alloc: Global,
    context: &Context<'_>,
    class: usize,
    scope: &[Variable],
    assignments: &[Assignment],
    filter: &Filter,
) -> Result<Typed, TypingError>
    requires scope { IsScope context.now.metamodel.now scope.now }
    requires groups { context.now.groups.now ≡ [] }
    ensures typed { IsJudged result (spec.is_update_typed context.now.metamodel.now
        context.now.parameters.now assignments.now filter.now scope.now) }
    ensures tree { IfOk result (λ found. found ≡ Typed.Update class
        (map (trees.typed_assignment context.now.metamodel.now context.now.parameters.now scope.now)
        assignments.now) (trees.typed_filter context.now.metamodel.now context.now.parameters.now
        scope.now filter.now)) }
{
    if !are_distinct_assignments(alloc, assignments)? {
        return Err(TypingError::Typing);
    }
    let found = typed_assignments(alloc, context, scope, assignments)?;
    let filter = typed_filter(alloc, context, scope, Clause::Where, filter)?;
    Ok(Typed::Update {
        class,
        assignments: found,
        filter,
    })
}

fn typed_update(
    alloc: Global,
    context: &Context<'_>,
    entity: &Text,
    variable: &Text,
    assignments: &[Assignment],
    filter: &Filter,
) -> Result<Typed, TypingError>
    requires { context.now.groups.now ≡ [] }
    ensures typed { IsJudged result (spec.is_statement_typed context.now.metamodel.now
        context.now.parameters.now (Query.Update entity.now variable.now assignments.now
        filter.now)) }
    ensures tree { IfOk result (λ found. found ≡ trees.typed_statement context.now.metamodel.now
        context.now.parameters.now (Query.Update entity.now variable.now assignments.now
        filter.now)) }
{
    let class = context
        .metamodel
        .class_of(entity.as_str())
        .ok_or(TypingError::Typing)?;
    let scope = scope_of(alloc, variable, class)?;
    update_of(alloc, context, class, scope.as_slice(), assignments, filter)
}

fn typed_delete(
    alloc: Global,
    context: &Context<'_>,
    entity: &Text,
    variable: &Option<Text>,
    filter: &Filter,
) -> Result<Typed, TypingError>
    requires { context.now.groups.now ≡ [] }
    ensures typed { IsJudged result (spec.is_statement_typed context.now.metamodel.now
        context.now.parameters.now (Query.Delete entity.now variable.now filter.now)) }
    ensures tree { IfOk result (λ found. found ≡ trees.typed_statement context.now.metamodel.now
        context.now.parameters.now (Query.Delete entity.now variable.now filter.now)) }
{
    let class = context
        .metamodel
        .class_of(entity.as_str())
        .ok_or(TypingError::Typing)?;
    let scope = scope_of_any(alloc, variable, class)?;
    let filter = typed_filter(alloc, context, scope.as_slice(), Clause::Where, filter)?;
    Ok(Typed::Delete {
        class,
        is_named: variable.is_some(),
        filter,
    })
}

/// A statement, where it is well typed but for its names.
fn typed_statement(
    alloc: Global,
    metamodel: &Metamodel,
    parameters: &Parameters<'_>,
    query: &Query,
) -> Result<Typed, TypingError>
    ensures typed { IsJudged result (spec.is_statement_typed metamodel.now parameters.now
        query.now) }
    ensures tree { IfOk result (λ found. found ≡ trees.typed_statement metamodel.now
        parameters.now query.now) }
{
    let no_groups: &[Path] = &[];
    let groups = Groups::of(alloc, no_groups)?;
    let context = Context {
        metamodel,
        parameters,
        groups: &groups,
    };
    match query {
        Query::Select(select) => Ok(Typed::Select(typed_select(
            alloc, metamodel, parameters, select,
        )?)),
        Query::Update {
            entity,
            variable,
            assignments,
            filter,
        } => typed_update(
            alloc,
            &context,
            entity,
            variable,
            assignments.as_slice(),
            filter,
        ),
        Query::Delete {
            entity,
            variable,
            filter,
        } => typed_delete(alloc, &context, entity, variable, filter),
    }
}

/// A statement of a language, where it is well typed.
fn typed_query(
    alloc: Global,
    language: Language,
    metamodel: &Metamodel,
    parameters: &Parameters<'_>,
    query: &Query,
) -> Result<Typed, TypingError>
    ensures typed { IsJudged result (spec.is_typed metamodel.now parameters.now language
        query.now) }
    ensures tree { IfOk result (λ found. found ≡ trees.typed_statement metamodel.now
        parameters.now query.now) }
{
    if !has_distinct_names(alloc, language, query)? {
        return Err(TypingError::Typing);
    }
    typed_statement(alloc, metamodel, parameters, query)
}

// It holds for any tree, so that the check need not look into the one that is let go.
/// A tree, where each parameter of a statement is given, and no other.
fn with_parameters<T: Drop>(
    alloc: Global,
    parameters: &Parameters<'_>,
    query: &Query,
    tree: T,
) -> Result<T, Cause>
    ensures { IsUnlessMemory result (if not (spec.are_given parameters.now query.now) then Err
        (Cause.IllegalArgument Argument.Parameter) else Ok tree) }
{
    if are_given(alloc, parameters, query)? {
        Ok(tree)
    } else {
        Err(Cause::IllegalArgument(Argument::Parameter))
    }
}

fn checked_query(
    alloc: Global,
    language: Language,
    metamodel: &Metamodel,
    query: &Query,
    parameters: &[(Text, ParamType)],
) -> Result<Typed, Cause>
    ensures { IsUnlessMemory result (spec.checked language metamodel.now query.now
        parameters.now) }
{
    let parameters = Parameters::of(alloc, parameters)?;
    match typed_query(alloc, language, metamodel, &parameters, query) {
        Err(TypingError::Memory) => Err(Cause::OutOfMemory),
        Err(TypingError::Typing) => Err(Cause::IllegalArgument(Argument::Typing)),
        Ok(typed) => with_parameters(alloc, &parameters, query, typed),
    }
}

/// The typed tree of a statement of a language, whose parameters are of these sorts (chapters 4.2 to
/// 4.11).
///
/// `IllegalArgument(Typing)` where the statement isn't well typed, a parameter that isn't given
/// being of all sorts; else `IllegalArgument(Parameter)` where one of its parameters isn't given,
/// or one that is given isn't in it; `OutOfMemory` where a growth was refused.
pub fn check_query(
    alloc: Global,
    language: Language,
    metamodel: &Metamodel,
    query: Query,
    parameters: &[(Text, ParamType)],
) -> Result<Typed, Cause>
    ensures { IsUnlessMemory result (spec.checked language metamodel.now query parameters.now) }
{
    let checked = checked_query(alloc, language, metamodel, &query, parameters);
    drop(query);
    checked
}
