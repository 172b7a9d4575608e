//! What a call hands in for the parameters of its query (Jakarta Persistence 3.1, chapters 3.10.12,
//! 4.6.4 and 4.6.9).
ghost use Rattle.std.specs.Prelude.{◌≡◌, [], ◌∷◌, ◌++◌, length, IfErr, IfOk};
ghost use Rattle.std.specs.Option.{option_map};
ghost use Rattle.jpa_value.specs.declared.refusal.Cause.{Cause};
ghost use Rattle.jpa_work.specs.context.Steps.{Meets};
ghost use Rattle.jpa_work.specs.context.Undo.{now};
ghost use Rattle.jpa_asked.specs.Premises.{AreInHeap};
ghost use Rattle.jpa_machine.specs.machine.Querying as querying;

use crate::handing::{are_short, is_short_given, place_of};
use jpa_asked::Binding;
use jpa_protocol::{Given, Parameter, ParameterValue};
use jpa_value::{Cause, Seq, Text, TryCopy};
use jpa_work::context::UnitOfWork;
use jpa_work::heap::Handed;
use jpql_grammar::grammar::{GivenList, value_name};
use jpql_text::text::MOST_LIST_VALUES;
use std::alloc::Global;

/// What is handed in as a value; none where a number names no object.
fn handed_in(work: &UnitOfWork, given: &Given) -> Result<Option<Handed>, Cause>
    ensures ok { IfOk result
        (λ handed. handed ≡ querying.handed_in (length work.now.objects.now) given.now) }
    ensures err { IfErr result (λ cause. cause ≡ Cause.OutOfMemory) }
{
    match given {
        Given::Plain(value) => Ok(Some(Handed::Plain(value.try_copy()?))),
        Given::Object(number) => match place_of(work.objects.len(), *number) {
            Some(place) => Ok(Some(Handed::Object(place))),
            None => Ok(None),
        },
    }
}

/// The bindings with those of a collection's values behind them, each by its name; none where a
/// number names no object.
fn with_collection(
    alloc: Global,
    work: &UnitOfWork,
    bindings: Seq<Binding>,
    name: &Text,
    values: &[Given],
) -> Result<Option<Seq<Binding>>, Cause>
    ensures ok { IfOk result (λ all. all ≡ option_map (λ bs. bindings ++ bs) (querying.bindings_in
        (length work.now.objects.now) (querying.values_from name.now 1 values.now))) }
    ensures err { IfErr result (λ cause. cause ≡ Cause.OutOfMemory) }
{
    let mut all = bindings;
    for (place, given) in values.iter().enumerate() {
        match handed_in(work, given)? {
            Some(value) => all.push(Binding {
                name: value_name(alloc, name.as_str(), place + 1)?,
                value,
            })?,
            None => return Ok(None),
        }
    }
    Ok(Some(all))
}

/// The bindings with one of a value behind them; none where its number names no object.
fn with_given(
    work: &UnitOfWork,
    bindings: Seq<Binding>,
    name: &Text,
    given: &Given,
) -> Result<Option<Seq<Binding>>, Cause>
    ensures ok { IfOk result (λ all. all ≡ option_map (λ bs. bindings ++ bs)
        (querying.bindings_in (length work.now.objects.now) ((name.now, given.now) ∷ []))) }
    ensures err { IfErr result (λ cause. cause ≡ Cause.OutOfMemory) }
{
    let mut all = bindings;
    match handed_in(work, given)? {
        Some(value) => all.push(Binding {
            name: name.try_copy()?,
            value,
        })?,
        None => return Ok(None),
    }
    Ok(Some(all))
}

/// The bindings with those of a parameter behind them; none where a number names no object.
fn with_parameter(
    alloc: Global,
    work: &UnitOfWork,
    bindings: Seq<Binding>,
    parameter: &Parameter,
) -> Result<Option<Seq<Binding>>, Cause>
    ensures ok { IfOk result (λ all. all ≡ option_map (λ bs. bindings ++ bs) (querying.bindings_in
        (length work.now.objects.now)
        (querying.values_by_name parameter.now.name parameter.now.value))) }
    ensures err { IfErr result (λ cause. cause ≡ Cause.OutOfMemory) }
{
    match &parameter.value {
        ParameterValue::Single(given) => with_given(work, bindings, &parameter.name, given),
        ParameterValue::Collection(values) => {
            with_collection(alloc, work, bindings, &parameter.name, values.as_slice())
        }
    }
}

/// What is bound to parameters; none where a number names no object.
fn bindings_in(
    alloc: Global,
    work: &UnitOfWork,
    parameters: &[Parameter],
) -> Result<Option<Seq<Binding>>, Cause>
    ensures ok { IfOk result (λ bindings. bindings ≡ querying.bindings_in
        (length work.now.objects.now) (querying.values_of parameters.now)) }
    ensures err { IfErr result (λ cause. cause ≡ Cause.OutOfMemory) }
{
    let mut bindings = Seq::new(alloc);
    for parameter in parameters {
        match with_parameter(alloc, work, bindings, parameter)? {
            Some(more) => bindings = more,
            None => return Ok(None),
        }
    }
    Ok(Some(bindings))
}

/// Whether what is handed in for a parameter is short enough: each value, and a collection of them.
fn is_short_value(value: &ParameterValue) -> bool
    ensures { result ≡ querying.is_short_value value.now }
{
    match value {
        ParameterValue::Single(given) => is_short_given(given),
        ParameterValue::Collection(values) => {
            values.len() <= MOST_LIST_VALUES && are_short(values.as_slice())
        }
    }
}

/// Whether what is handed in for each parameter is short enough.
fn all_are_short(parameters: &[Parameter]) -> bool
    ensures { result ≡ querying.are_short parameters.now }
{
    for parameter in parameters {
        if !is_short_value(&parameter.value) {
            return false;
        }
    }
    true
}

/// What is bound to a call's parameters: `NoSuchObject` where a number names no object, then
/// `Limit` where a value is too long or a collection has too many; `OutOfMemory`.
#[tactic(auto, using(crate::proofs::Bound::bound_within))]
pub(crate) fn bound(
    alloc: Global,
    work: &UnitOfWork,
    parameters: &[Parameter],
) -> Result<Seq<Binding>, Cause>
    ensures meets { Meets result (now work.now) (querying.bound parameters.now (now work.now)) }
    ensures within { IfOk result (AreInHeap work.now.objects.now) }
{
    let Some(bindings) = bindings_in(alloc, work, parameters)? else {
        return Err(Cause::NoSuchObject);
    };
    if !all_are_short(parameters) {
        return Err(Cause::Limit);
    }
    Ok(bindings)
}

/// The parameters that collections are handed in for, each with how many values it has. Fails for
/// want of memory alone, with `OutOfMemory`.
pub(crate) fn lists_of(alloc: Global, parameters: &[Parameter]) -> Result<Seq<GivenList>, Cause>
    ensures ok { IfOk result (λ lists. lists ≡ querying.lists_of parameters.now) }
    ensures err { IfErr result (λ cause. cause ≡ Cause.OutOfMemory) }
{
    let mut lists = Seq::new(alloc);
    for parameter in parameters {
        if let ParameterValue::Collection(values) = &parameter.value {
            lists.push(GivenList {
                name: parameter.name.try_copy()?,
                count: values.len(),
            })?;
        }
    }
    Ok(lists)
}
