//! The question that a text asks.
ghost use Rattle.std.specs.Prelude.{◌≡◌, ◌⊎◌, ◌&&◌, IfOk, IfErr, map};
ghost use Rattle.std.specs.List.{list_all};
ghost use Rattle.jpa_value.specs.declared.refusal.Cause.{Cause};
ghost use Rattle.jpa_questions.specs.questions.Questions as spec;

use crate::questions::bound::{Bound, are_short, bound_of, have_no_comma, lists_of};
use crate::questions::parameter::Parameter;
use jpa_model::Metamodel;
use jpa_value::{Argument, Cause, Kind, Seq, State, Text, TryCopy, Value};
use jpql_meaning::eval::Datum;
use jpql_text::text::{read_query, uses_lists};
use jpql_trees::tree::Language;
use jpql_trees::typed::{Typed, TypedSelect};
use jpql_types::{ParamType, Sort, check_query};
use std::alloc::Global;

/// A SELECT, typed, with what stands for its parameters, by place.
#[derive(Drop)]
pub struct Question {
    pub select: TypedSelect,
    pub arguments: Seq<Datum>,
}

/// What a value is of.
fn sort_of(value: &Value) -> ParamType
    ensures { result ≡ spec.sort_of value.now }
{
    match value {
        Value::Null => Sort::Null,
        Value::Int(_) => Sort::Basic(Kind::Int),
        Value::Text(_) => Sort::Basic(Kind::Text),
        Value::Bytes(_) => Sort::Basic(Kind::Bytes),
    }
}

/// What is bound is of, by its names. Fails for want of memory alone, with `OutOfMemory`.
fn sorts_of(alloc: Global, bound: &[Bound]) -> Result<Seq<(Text, ParamType)>, Cause>
    ensures ok { IfOk result (λ sorts. sorts ≡ map spec.named_sort bound.now) }
    ensures err { IfErr result (λ cause. cause ≡ Cause.OutOfMemory) }
{
    let mut sorts = Seq::new(alloc);
    for one in bound {
        sorts.push((one.name.try_copy()?, sort_of(&one.value)))?;
    }
    Ok(sorts)
}

/// What stands for the parameters, by place. Fails for want of memory alone, with `OutOfMemory`.
fn arguments_of(alloc: Global, bound: &[Bound]) -> Result<Seq<Datum>, Cause>
    ensures ok { IfOk result (λ arguments. arguments ≡ map spec.argument_of bound.now) }
    ensures err { IfErr result (λ cause. cause ≡ Cause.OutOfMemory) }
{
    let mut arguments = Seq::new(alloc);
    for one in bound {
        arguments.push(Datum::Plain(one.value.try_copy()?))?;
    }
    Ok(arguments)
}

/// The SELECT that a statement is; `IllegalState(statement)` for any other.
fn select_in(typed: Typed) -> Result<TypedSelect, Cause>
    ensures { result ≡ spec.select_in typed }
{
    match typed {
        Typed::Select(select) => Ok(select),
        Typed::Update { .. } | Typed::Delete { .. } => Err(Cause::IllegalState(State::Statement)),
    }
}

/// The same, where each collection stands behind IN, and no parameter has a name that its values
/// have; `IllegalArgument(parameter)` else.
fn select_if(uses_lists: bool, parameters: &[Parameter], typed: Typed) -> Result<TypedSelect, Cause>
    ensures { result
        ≡ spec.select_if (uses_lists && list_all spec.has_no_comma parameters.now) typed }
{
    if uses_lists && have_no_comma(parameters) {
        select_in(typed)
    } else {
        drop(typed);
        Err(Cause::IllegalArgument(Argument::Parameter))
    }
}

/// The SELECT that a text asks with these parameters, of which this is bound; refused as
/// `read_question` refuses a text.
fn read_select(
    alloc: Global,
    metamodel: &Metamodel,
    language: Language,
    text: &str,
    parameters: &[Parameter],
    bound: &[Bound],
) -> Result<TypedSelect, Cause>
    requires { bound.now ≡ spec.bound_of parameters.now }
    ensures asked { IfOk result (spec.Selects metamodel.now language text.now parameters.now) }
    ensures refused { IfErr result (λ cause. (cause ≡ Cause.OutOfMemory)
        ⊎ spec.IsTextRefused metamodel.now language text.now parameters.now cause) }
{
    let lists = lists_of(alloc, parameters)?;
    let tree = read_query(alloc, language, lists.as_slice(), text)?;
    let uses = uses_lists(alloc, language, lists.as_slice(), text)?;
    let sorts = sorts_of(alloc, bound)?;
    let typed = check_query(alloc, language, metamodel, tree, sorts.as_slice())?;
    select_if(uses, parameters, typed)
}

/// The question that a text of a language asks with these parameters, judged as a provider's query
/// is (Jakarta Persistence 3.1, chapters 3.10.1, 3.10.12 and 4).
///
/// In this order: `Limit` for a value of more than 65,535 bytes or a collection of more than 4,096
/// values, then for a text that is too long, nests too deep, in which collections become too many
/// values, or that declares too many variables; `IllegalArgument` with `Syntax` for a text outside
/// the grammar, `Typing` for an ill-typed one, `Parameter` where a parameter isn't given, one is
/// given that isn't in the text, or a collection stands nowhere behind IN; `IllegalState(statement)`
/// for a statement that is no SELECT. `OutOfMemory` where a growth was refused.
pub fn read_question(
    alloc: Global,
    metamodel: &Metamodel,
    language: Language,
    text: &str,
    parameters: &[Parameter],
) -> Result<Question, Cause>
    ensures asked { IfOk result (spec.IsAsked metamodel.now language text.now parameters.now) }
    ensures refused { IfErr result (spec.IsUnasked metamodel.now language text.now
        parameters.now) }
{
    if !are_short(parameters) {
        return Err(Cause::Limit);
    }
    let bound = bound_of(alloc, parameters)?;
    let select = read_select(
        alloc,
        metamodel,
        language,
        text,
        parameters,
        bound.as_slice(),
    )?;
    let arguments = arguments_of(alloc, bound.as_slice())?;
    Ok(Question { select, arguments })
}
