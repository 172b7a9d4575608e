//! Which names of a statement are distinct, and whether its parameters are given.
ghost use Rattle.std.specs.Prelude.{◌≡◌, not, map, IfOk};
ghost use Rattle.std.specs.List.{list_any, list_all};
ghost use Rattle.jpa_model.specs.Chains.{same_name};
ghost use Rattle.jpql_types.specs.Scope.{same_variable};
ghost use Rattle.jpql_types.specs.Statements as spec;

use crate::context::Parameters;
use crate::index::NameIndex;
use crate::names::{Names, names_in};
use crate::paths::is_same_variable;
use crate::sort::Sort;
use jpa_value::{Seq, Text};
use jpql_trees::tree::{Assignment, Language, Query};
use std::alloc::{AllocError, Global};
use std::collections::BTreeSet;

fn is_variable(name: &Text, variables: &[Text]) -> bool
    ensures { result ≡ list_any (same_variable name.now) variables.now }
{
    variables
        .iter()
        .any(|variable| is_same_variable(name, variable))
}

fn are_distinct_variables(variables: &[Text]) -> bool
    ensures { result ≡ spec.are_distinct same_variable variables.now }
{
    for (place, variable) in variables.iter().enumerate() {
        if is_variable(variable, &variables[place + 1..]) {
            return false;
        }
    }
    true
}

fn are_distinct_names(alloc: Global, names: &[Text]) -> Result<bool, AllocError>
    ensures { IfOk result (λ are. are ≡ spec.are_distinct same_name names.now) }
{
    let mut later = BTreeSet::new(alloc);
    let mut left = names.len();
    while left > 0 {
        left -= 1;
        if !later.insert(String::from_str(alloc, names[left].as_str())?)? {
            return Ok(false);
        }
    }
    Ok(true)
}

fn are_no_variables(names: &[Text], variables: &[Text]) -> bool
    ensures { result ≡ list_all (λ name. not (list_any (same_variable name) variables.now))
        names.now }
{
    names.iter().all(|name| !is_variable(name, variables))
}

/// Whether variables are distinct as the language asks: in the wide one their scopes tell.
fn are_variables_distinct(language: Language, variables: &[Text]) -> bool
    ensures { result ≡ spec.are_variables_distinct language variables.now }
{
    match language {
        Language::Profile => are_distinct_variables(variables),
        Language::Wide => true,
    }
}

/// Whether variables are distinct as the language asks, and no item is named twice or as a variable.
pub(crate) fn has_distinct_names(
    alloc: Global,
    language: Language,
    query: &Query,
) -> Result<bool, AllocError>
    ensures { IfOk result (λ has. has ≡ spec.has_distinct_names language query.now) }
{
    let variables = names_in(alloc, Names::Variables, query)?;
    let items = names_in(alloc, Names::Items, query)?;
    let are_distinct_items = are_distinct_names(alloc, items.as_slice())?;
    Ok(
        are_variables_distinct(language, variables.as_slice())
            && are_distinct_items
            && are_no_variables(items.as_slice(), variables.as_slice()),
    )
}

fn names_of(alloc: Global, assignments: &[Assignment]) -> Result<Seq<Text>, AllocError>
    ensures { IfOk result (λ names. names ≡ map (λ a. a.name) assignments.now) }
{
    let mut names = Seq::new(alloc);
    for assignment in assignments {
        names.push(Text::of(alloc, assignment.name.as_str())?)?;
    }
    Ok(names)
}

/// Whether no name is set twice; fails for want of memory alone.
pub(crate) fn are_distinct_assignments(
    alloc: Global,
    assignments: &[Assignment],
) -> Result<bool, AllocError>
    ensures { IfOk result (λ are.
        are ≡ spec.are_distinct same_name (map (λ a. a.name) assignments.now)) }
{
    let names = names_of(alloc, assignments)?;
    are_distinct_names(alloc, names.as_slice())
}

fn is_given(parameters: &Parameters<'_>, name: &Text) -> bool
    ensures { result ≡ list_any (λ p. same_name p.0 name.now) parameters.now }
{
    parameters.has(name)
}

fn are_all_given(names: &[Text], parameters: &Parameters<'_>) -> bool
    ensures { result ≡ list_all (λ name. list_any (λ p. same_name p.0 name) parameters.now)
        names.now }
{
    names.iter().all(|name| is_given(parameters, name))
}

fn is_used(names: &NameIndex<'_, Text>, name: &Text) -> bool
    ensures { result ≡ list_any (same_name name.now) names.now }
{
    names.has(name)
}

fn are_all_used(parameters: &[(Text, Sort)], names: &NameIndex<'_, Text>) -> bool
    ensures { result ≡ list_all (λ p. list_any (same_name p.0) names.now) parameters.now }
{
    parameters.iter().all(|(given, _)| is_used(names, given))
}

/// Whether each parameter of a statement is given, and no other (chapter 4.6.4).
pub(crate) fn are_given(
    alloc: Global,
    parameters: &Parameters<'_>,
    query: &Query,
) -> Result<bool, AllocError>
    ensures { IfOk result (λ given. given ≡ spec.are_given parameters.now query.now) }
{
    let names = names_in(alloc, Names::Parameters, query)?;
    let used = NameIndex::of(alloc, names.as_slice())?;
    Ok(are_all_given(names.as_slice(), parameters) && are_all_used(parameters.as_slice(), &used))
}
