//! The variables that FROM brings into scope, each with where its objects come from (chapter 4.4).
ghost use Rattle.std.specs.Prelude.{◌≡◌, true, option_map, IfSome, IfOk};
ghost use Rattle.std.specs.List.{list_any};
ghost use Rattle.jpql_types.specs.Gives.{Gives, IsJudged};
ghost use Rattle.jpql_types.specs.Scope as scopes;
ghost use Rattle.jpql_types.specs.Typing as typing;
ghost use Rattle.jpql_types.specs.Trees as trees;
ghost use Rattle.jpql_types.specs.Within.{IsClass, IsScope};

use crate::context::Context;
use crate::error::TypingError;
use crate::paths::{is_same_variable, step_from, target};
use crate::scope::Variable;
use jpa_value::{Seq, Text};
use jpql_trees::tree::Origin;
use jpql_trees::typed::{Step, TypedOrigin};
use std::alloc::Global;

fn named(alloc: Global, name: &Text, class: usize) -> Result<Variable, TypingError>
    ensures memory { IsJudged result true }
    ensures variable { IfOk result (λ found. found ≡ record { name = name.now; class = class }) }
{
    let name = Text::of(alloc, name.as_str())?;
    Ok(Variable { name, class })
}

/// A copy of what is in scope, for a nested SELECT; fails for want of memory alone.
pub(crate) fn copied(alloc: Global, scope: &[Variable]) -> Result<Seq<Variable>, TypingError>
    ensures memory { IsJudged result true }
    ensures copy { IfOk result (λ found. found ≡ scope.now) }
{
    let mut found = Seq::new(alloc);
    for variable in scope {
        found.push(named(alloc, &variable.name, variable.class)?)?;
    }
    Ok(found)
}

fn is_in_scope(scope: &[Variable], name: &Text) -> bool
    ensures { result ≡ list_any (λ v. scopes.same_variable v.name name.now) scope.now }
{
    scope
        .iter()
        .any(|variable| is_same_variable(&variable.name, name))
}

/// Whether no variable of a name is in scope.
fn is_new(scope: &[Variable], name: &Text) -> bool
    ensures { result ≡ scopes.is_new scope.now name.now }
{
    !is_in_scope(scope, name)
}

/// One more variable in scope; fails for want of memory alone.
pub(crate) fn with_variable(
    alloc: Global,
    context: &Context<'_>,
    mut scope: Seq<Variable>,
    name: &Text,
    class: usize,
) -> Result<Seq<Variable>, TypingError>
    requires scope { IsScope context.now.metamodel.now scope }
    requires class { IsClass context.now.metamodel.now class }
    ensures memory { IsJudged result true }
    ensures scope { IfOk result (λ found. found ≡ typing.with_variable scope name.now class) }
    ensures within { IfOk result (λ found. IsScope context.now.metamodel.now found) }
{
    scope.push(named(alloc, name, class)?)?;
    Ok(scope)
}

/// A relation of a variable, and the class that it leads to.
fn related(
    context: &Context<'_>,
    scope: &[Variable],
    variable: &Text,
    name: &Text,
) -> Option<((usize, Step), usize)>
    requires { IsScope context.now.metamodel.now scope.now }
    ensures class { option_map (λ found. found.1) result
        ≡ typing.related_class context.now.metamodel.now scope.now variable.now name.now }
    ensures step { IfSome result (λ found. found.0
        ≡ trees.typed_step context.now.metamodel.now context.now.parameters.now scope.now
        variable.now name.now) }
    ensures to { IfSome result (λ found. found.1
        ≡ trees.place (scopes.target context.now.metamodel.now found.0.1)) }
    ensures within { IfSome result (λ found. IsClass context.now.metamodel.now found.1) }
{
    let found = step_from(context.metamodel, scope, variable, name)?;
    let class = target(context.metamodel, found.1)?;
    Some((found, class))
}

/// Where the objects of a variable come from, and their class.
fn typed_origin(
    context: &Context<'_>,
    scope: &[Variable],
    origin: &Origin,
) -> Option<(TypedOrigin, usize)>
    requires { IsScope context.now.metamodel.now scope.now }
    ensures class { option_map (λ found. found.1) result
        ≡ typing.origin_class context.now.metamodel.now scope.now origin.now }
    ensures origin { IfSome result (λ found. found
        ≡ trees.typed_origin context.now.metamodel.now context.now.parameters.now scope.now
        origin.now) }
    ensures within { IfSome result (λ found. IsClass context.now.metamodel.now found.1) }
{
    match origin {
        Origin::Entity(name) => {
            let class = context.metamodel.class_of(name.as_str())?;
            Some((TypedOrigin::Entity(class), class))
        }
        Origin::Related(variable, name) => {
            let ((place, step), class) = related(context, scope, variable, name)?;
            Some((TypedOrigin::Related(place, step), class))
        }
    }
}

/// The scope with the variable of a source, which is new there, and where its objects come from.
#[tactic(auto, unfolding(crate::specs::Typing::when_new))]
pub(crate) fn with_source(
    alloc: Global,
    context: &Context<'_>,
    scope: Seq<Variable>,
    origin: &Origin,
    variable: &Text,
) -> Result<(Seq<Variable>, TypedOrigin), TypingError>
    requires { IsScope context.now.metamodel.now scope }
    ensures scope { Gives (λ found. found.0) result
        (option_map (typing.with_variable scope variable.now)
        (typing.when_new scope variable.now
        (typing.origin_class context.now.metamodel.now scope origin.now))) }
    ensures origin { IfOk result (λ found. found.1
        ≡ (trees.typed_origin context.now.metamodel.now context.now.parameters.now scope
        origin.now).0) }
    ensures class { IfOk result (λ found. found.0
        ≡ typing.with_variable scope variable.now
        (trees.typed_origin context.now.metamodel.now context.now.parameters.now scope
        origin.now).1) }
    ensures within { IfOk result (λ found. IsScope context.now.metamodel.now found.0) }
{
    if !is_new(scope.as_slice(), variable) {
        return Err(TypingError::Typing);
    }
    let found = typed_origin(context, scope.as_slice(), origin);
    let (origin, class) = found.ok_or(TypingError::Typing)?;
    let scope = with_variable(alloc, context, scope, variable, class)?;
    Ok((scope, origin))
}

/// The scope with the variable of a join, which is new there, and the step that it goes along.
#[tactic(auto, unfolding(crate::specs::Typing::when_new))]
pub(crate) fn with_join(
    alloc: Global,
    context: &Context<'_>,
    scope: Seq<Variable>,
    of: &Text,
    relation: &Text,
    variable: &Text,
) -> Result<(Seq<Variable>, (usize, Step)), TypingError>
    requires { IsScope context.now.metamodel.now scope }
    ensures scope { Gives (λ found. found.0) result
        (option_map (typing.with_variable scope variable.now)
        (typing.when_new scope variable.now
        (typing.related_class context.now.metamodel.now scope of.now relation.now))) }
    ensures step { IfOk result (λ found. found.1
        ≡ trees.typed_step context.now.metamodel.now context.now.parameters.now scope of.now
        relation.now) }
    ensures class { IfOk result (λ found. found.0
        ≡ typing.with_variable scope variable.now
        (trees.place (scopes.target context.now.metamodel.now found.1.1))) }
    ensures within { IfOk result (λ found. IsScope context.now.metamodel.now found.0) }
{
    if !is_new(scope.as_slice(), variable) {
        return Err(TypingError::Typing);
    }
    let found = related(context, scope.as_slice(), of, relation);
    let (step, class) = found.ok_or(TypingError::Typing)?;
    let scope = with_variable(alloc, context, scope, variable, class)?;
    Ok((scope, step))
}
