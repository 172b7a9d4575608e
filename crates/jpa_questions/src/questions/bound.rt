//! What is bound to the parameters of a text (Jakarta Persistence 3.1, chapters 3.10.12 and 4.6.9).
ghost use Rattle.std.specs.Prelude.{◌≡◌, ◌++◌, IfOk, IfErr};
ghost use Rattle.std.specs.List.{list_all};
ghost use Rattle.jpa_value.specs.declared.refusal.Cause.{Cause};
ghost use Rattle.jpa_behaviour.specs.Behaviour as behaviour;
ghost use Rattle.jpa_questions.specs.questions.Questions as spec;

use crate::questions::parameter::{Parameter, ParameterValue};
use jpa_rows::rows::is_short;
use jpa_value::{Cause, Seq, Text, TryCopy, Value};
use jpql_grammar::grammar::{GivenList, value_name};
use jpql_text::text::MOST_LIST_VALUES;
use std::alloc::Global;

/// What is bound to a parameter of a text, by its name; a value of a collection has a name by its
/// place.
#[derive(Drop)]
pub struct Bound {
    pub name: Text,
    pub value: Value,
}

/// What is bound, with the values of a collection behind it. Fails for want of memory alone, with
/// `OutOfMemory`.
fn with_collection(
    alloc: Global,
    bound: Seq<Bound>,
    name: &Text,
    values: &[Value],
) -> Result<Seq<Bound>, Cause>
    ensures ok { IfOk result (λ all. all ≡ bound ++ spec.values_from name.now 1 values.now) }
    ensures err { IfErr result (λ cause. cause ≡ Cause.OutOfMemory) }
{
    let mut all = bound;
    for (place, value) in values.iter().enumerate() {
        all.push(Bound {
            name: value_name(alloc, name.as_str(), place + 1)?,
            value: value.try_copy()?,
        })?;
    }
    Ok(all)
}

/// What is bound, with what is bound for a parameter behind it. Fails for want of memory alone,
/// with `OutOfMemory`.
fn with_parameter(
    alloc: Global,
    bound: Seq<Bound>,
    parameter: &Parameter,
) -> Result<Seq<Bound>, Cause>
    ensures ok { IfOk result
        (λ all. all ≡ bound ++ spec.bound_by parameter.now.name parameter.now.value) }
    ensures err { IfErr result (λ cause. cause ≡ Cause.OutOfMemory) }
{
    match &parameter.value {
        ParameterValue::Single(value) => {
            let mut all = bound;
            all.push(Bound {
                name: parameter.name.try_copy()?,
                value: value.try_copy()?,
            })?;
            Ok(all)
        }
        ParameterValue::Collection(values) => {
            with_collection(alloc, bound, &parameter.name, values.as_slice())
        }
    }
}

/// What is bound for parameters: a value to its parameter's name, and those of a collection to the
/// names of their places. Fails for want of memory alone, with `OutOfMemory`.
pub fn bound_of(alloc: Global, parameters: &[Parameter]) -> Result<Seq<Bound>, Cause>
    ensures ok { IfOk result (λ bound. bound ≡ spec.bound_of parameters.now) }
    ensures err { IfErr result (λ cause. cause ≡ Cause.OutOfMemory) }
{
    let mut bound = Seq::new(alloc);
    for parameter in parameters {
        bound = with_parameter(alloc, bound, parameter)?;
    }
    Ok(bound)
}

/// The parameters that collections are handed in for, each with how many values it has. Fails for
/// want of memory alone, with `OutOfMemory`.
pub fn lists_of(alloc: Global, parameters: &[Parameter]) -> Result<Seq<GivenList>, Cause>
    ensures ok { IfOk result (λ lists. lists ≡ spec.lists_of parameters.now) }
    ensures err { IfErr result (λ cause. cause ≡ Cause.OutOfMemory) }
{
    let mut lists = Seq::new(alloc);
    for parameter in parameters {
        if let ParameterValue::Collection(values) = &parameter.value {
            lists.push(GivenList {
                name: parameter.name.try_copy()?,
                count: values.len(),
            })?;
        }
    }
    Ok(lists)
}

/// Whether each value of a collection is short enough.
fn are_short_values(values: &[Value]) -> bool
    ensures { result ≡ list_all behaviour.is_short values.now }
{
    values.iter().all(|value| is_short(value))
}

/// Whether what is handed in for a parameter is short enough: each value, and a collection of them.
fn is_short_value(value: &ParameterValue) -> bool
    ensures { result ≡ spec.is_short_value value.now }
{
    match value {
        ParameterValue::Single(value) => is_short(value),
        ParameterValue::Collection(values) => {
            values.len() <= MOST_LIST_VALUES && are_short_values(values.as_slice())
        }
    }
}

/// Whether each value has at most as many bytes as one may have, and each collection at most 4,096
/// values.
pub fn are_short(parameters: &[Parameter]) -> bool
    ensures { result ≡ spec.are_short parameters.now }
{
    parameters
        .iter()
        .all(|parameter| is_short_value(&parameter.value))
}

/// Whether a name has a comma.
fn has_comma(name: &str) -> bool
    ensures { result ≡ spec.has_comma name.now }
{
    name.as_bytes().iter().any(|byte| *byte == b',')
}

/// Whether a parameter has no comma in its name.
fn has_no_comma(parameter: &Parameter) -> bool
    ensures { result ≡ spec.has_no_comma parameter.now }
{
    !has_comma(parameter.name.as_str())
}

/// Whether no parameter has a comma in its name, as the values of collections have.
pub fn have_no_comma(parameters: &[Parameter]) -> bool
    ensures { result ≡ list_all spec.has_no_comma parameters.now }
{
    parameters.iter().all(has_no_comma)
}
