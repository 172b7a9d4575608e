//! What paths mean from the variables in scope.
ghost use Rattle.std.specs.Prelude.{◌≡◌, ◌<◌, ◌++◌, [], ◌∷◌, length, option_map, IfSome, IfOk};
ghost use Rattle.std.specs.List.{list_any, position_from};
ghost use Rattle.std.specs.Option.{option_copied};
ghost use Rattle.jpa_model.specs.Chains.{same_name};
ghost use Rattle.jpql_types.specs.Gives.{Gives};
ghost use Rattle.jpql_types.specs.Scope as scopes;
ghost use Rattle.jpql_types.specs.Within.{IsClass, IsScope, IsPath, AreSteps};

use crate::context::{Context, Groups};
use crate::error::TypingError;
use crate::scope::{Clause, Variable};
use jpa_model::{Member, Metamodel, Part, Relation};
use jpa_value::{Seq, Text};
use jpql_trees::tree::Path;
use jpql_trees::typed::{Step, TypedPath};
use std::alloc::{AllocError, Global};

/// Whether two names are one.
#[tactic(auto, using(crate::proofs::SameName::same_names))]
pub(crate) fn is_same_name(a: &Text, b: &Text) -> bool
    ensures { result ≡ same_name a.now b.now }
{
    a.as_str() == b.as_str()
}

/// Whether two variables are one: they ignore the case of ASCII letters (chapter 4.4.1).
pub(crate) fn is_same_variable(a: &Text, b: &Text) -> bool
    ensures { result ≡ scopes.same_variable a.now b.now }
{
    a.as_str().eq_ignore_ascii_case(b.as_str())
}

/// The place of a variable among those in scope.
pub(crate) fn place_of(scope: &[Variable], name: &Text) -> Option<usize>
    ensures place { result ≡ scopes.place_of scope.now name.now }
    ensures within { IfSome result (λ place. place < length scope.now) }
{
    for (place, variable) in scope.iter().enumerate() {
        if is_same_variable(&variable.name, name) {
            return Some(place);
        }
    }
    None
}

/// The relation that a step goes along.
pub(crate) fn relation_of<'a>(metamodel: &'a Metamodel, step: Step) -> Option<&'a Relation>
    requires { IsClass metamodel.now step.class }
    ensures relation { option_copied result ≡ scopes.relation_of metamodel.now step }
    ensures within { IfSome result (λ r. IsClass metamodel.now r.now.target) }
{
    match step.member {
        Member::Relation(relation) => metamodel.relations_of(step.class).get(relation),
        _ => None,
    }
}

/// The class that a step leads to, to one object or many.
pub(crate) fn target(metamodel: &Metamodel, step: Step) -> Option<usize>
    requires { IsClass metamodel.now step.class }
    ensures target { result ≡ scopes.target metamodel.now step }
    ensures within { IfSome result (λ class. IsClass metamodel.now class) }
{
    Some(relation_of(metamodel, step)?.target)
}

/// The class that a step to one object leads to.
pub(crate) fn target_of_one(metamodel: &Metamodel, step: Step) -> Option<usize>
    requires { IsClass metamodel.now step.class }
    ensures target { result ≡ scopes.target_of_one metamodel.now step }
    ensures within { IfSome result (λ class. IsClass metamodel.now class) }
{
    let relation = relation_of(metamodel, step)?;
    if relation.side.is_to_one() {
        Some(relation.target)
    } else {
        None
    }
}

/// The class that a step to many objects leads to.
pub(crate) fn target_of_many(metamodel: &Metamodel, step: Step) -> Option<usize>
    requires { IsClass metamodel.now step.class }
    ensures target { result ≡ scopes.target_of_many metamodel.now step }
    ensures within { IfSome result (λ class. IsClass metamodel.now class) }
{
    let relation = relation_of(metamodel, step)?;
    if relation.side.is_to_one() {
        None
    } else {
        Some(relation.target)
    }
}

fn step_at(metamodel: &Metamodel, class: usize, name: &Text) -> Option<Step>
    requires { IsClass metamodel.now class }
    ensures step { result ≡ scopes.step_at metamodel.now class name.now }
    ensures within { IfSome result (λ s. IsClass metamodel.now s.class) }
{
    let member = metamodel.member_of(class, name.as_str())?;
    Some(Step { class, member })
}

/// A step from a variable, and the place of that.
pub(crate) fn step_from(
    metamodel: &Metamodel,
    scope: &[Variable],
    variable: &Text,
    name: &Text,
) -> Option<(usize, Step)>
    requires { IsScope metamodel.now scope.now }
    ensures step { result ≡ scopes.step_from metamodel.now scope.now variable.now name.now }
    ensures within { IfSome result (λ found. IsClass metamodel.now found.1.class) }
{
    let place = place_of(scope, variable)?;
    let step = step_at(metamodel, scope[place].class, name)?;
    Some((place, step))
}

fn is_embedded(metamodel: &Metamodel, class: usize, name: &Text) -> bool
    requires { IsClass metamodel.now class }
    ensures { result ≡ scopes.is_embedded metamodel.now class name.now }
{
    match &metamodel.root_of(class).embedded {
        None => false,
        Some(id) => is_same_name(id, name),
    }
}

fn part_at(metamodel: &Metamodel, class: usize, name: &Text) -> Option<Step>
    requires { IsClass metamodel.now class }
    ensures step { result ≡ scopes.part_at metamodel.now class name.now }
    ensures within { IfSome result (λ s. IsClass metamodel.now s.class) }
{
    let part = place_of_part(metamodel.root_of(class).key.as_slice(), name)?;
    Some(Step {
        class,
        member: Member::KeyPart(part),
    })
}

fn place_of_part(parts: &[Part], name: &Text) -> Option<usize>
    ensures { result ≡ position_from (λ part. same_name part.name name.now) 0 parts.now }
{
    for (place, part) in parts.iter().enumerate() {
        if is_same_name(&part.name, name) {
            return Some(place);
        }
    }
    None
}

fn is_last(metamodel: &Metamodel, class: usize, name: &Text, rest: &[Text]) -> bool
    requires { IsClass metamodel.now class }
    ensures { result ≡ scopes.is_last metamodel.now class name.now rest.now }
{
    rest.is_empty() || is_embedded(metamodel, class, name)
}

fn last_step(metamodel: &Metamodel, class: usize, name: &Text, rest: &[Text]) -> Option<Step>
    requires { IsClass metamodel.now class }
    ensures step { result ≡ scopes.last_step metamodel.now class name.now rest.now }
    ensures within { IfSome result (λ s. IsClass metamodel.now s.class) }
{
    match rest {
        [] => step_at(metamodel, class, name),
        [part] => part_at(metamodel, class, part),
        _ => None,
    }
}

fn with_step(mut steps: Seq<Step>, step: Option<Step>) -> Result<Seq<Step>, TypingError>
    ensures { Gives (λ found. found) result (option_map (λ s. steps ++ s ∷ []) step) }
{
    match step {
        None => Err(TypingError::Typing),
        Some(step) => {
            steps.push(step)?;
            Ok(steps)
        }
    }
}

/// The steps that names mean from a class, each but the last to one object.
pub(crate) fn steps_of(
    alloc: Global,
    metamodel: &Metamodel,
    class: usize,
    names: &[Text],
) -> Result<Seq<Step>, TypingError>
    requires { IsClass metamodel.now class }
    ensures steps { Gives (λ found. found) result (scopes.steps_of metamodel.now class names.now) }
    ensures within { IfOk result (λ steps. AreSteps metamodel.now steps) }
{
    let mut steps = Seq::new(alloc);
    let mut class = class;
    for (place, name) in names.iter().enumerate() {
        let rest = &names[place + 1..];
        if is_last(metamodel, class, name, rest) {
            return with_step(steps, last_step(metamodel, class, name, rest));
        }
        let step = step_at(metamodel, class, name).ok_or(TypingError::Typing)?;
        class = target_of_one(metamodel, step).ok_or(TypingError::Typing)?;
        steps.push(step)?;
    }
    Ok(steps)
}

/// What a path means.
fn path_of(
    alloc: Global,
    metamodel: &Metamodel,
    scope: &[Variable],
    path: &Path,
) -> Result<TypedPath, TypingError>
    requires { IsScope metamodel.now scope.now }
    ensures path { Gives (λ found. found) result
        (scopes.path_of metamodel.now scope.now path.now) }
    ensures within { IfOk result (λ p. IsPath metamodel.now p) }
{
    let variable = place_of(scope, &path.variable).ok_or(TypingError::Typing)?;
    let class = scope[variable].class;
    let steps = steps_of(alloc, metamodel, class, path.names.as_slice())?;
    Ok(TypedPath {
        variable,
        class,
        steps,
    })
}

fn allows_steps(clause: Clause, count: usize) -> bool
    ensures { result ≡ scopes.allows_steps clause count }
{
    match clause {
        Clause::On => count <= 1,
        _ => true,
    }
}

fn is_grouping_path(alloc: Global, groups: &Groups<'_>, path: &Path) -> Result<bool, AllocError>
    ensures { IfOk result (λ is. is ≡ list_any (scopes.same_path path.now) groups.now) }
{
    groups.has(alloc, &path.variable, path.names.as_slice())
}

fn allows_path(
    alloc: Global,
    clause: Clause,
    groups: &Groups<'_>,
    path: &Path,
) -> Result<bool, AllocError>
    ensures { IfOk result (λ allows. allows ≡ scopes.allows_path clause groups.now path.now) }
{
    match clause {
        Clause::Grouped | Clause::Having => is_grouping_path(alloc, groups, path),
        _ => Ok(true),
    }
}

/// What a path means where the clause allows it.
pub(crate) fn resolved(
    alloc: Global,
    context: &Context<'_>,
    scope: &[Variable],
    clause: Clause,
    path: &Path,
) -> Result<TypedPath, TypingError>
    requires { IsScope context.now.metamodel.now scope.now }
    ensures path { Gives (λ found. found) result
        (scopes.resolved context.now.metamodel.now context.now.groups.now scope.now clause
        path.now) }
    ensures meaning { IfOk result (λ p. scopes.path_of context.now.metamodel.now scope.now path.now
        ≡ Some p) }
    ensures within { IfOk result (λ p. IsPath context.now.metamodel.now p) }
{
    let found = path_of(alloc, context.metamodel, scope, path)?;
    let allows_path = allows_path(alloc, clause, context.groups, path)?;
    if allows_path && allows_steps(clause, found.steps.len()) {
        Ok(found)
    } else {
        Err(TypingError::Typing)
    }
}
