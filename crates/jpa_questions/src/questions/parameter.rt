//! Parameters in the words of a command line.
ghost use Rattle.std.specs.Prelude.{◌≡◌, IfOk, IfErr, Some, option_map};
ghost use Rattle.serde_json.specs.View.{view};
ghost use Rattle.jpa_json.specs.readers.Outcome.{Gives, same};
ghost use Rattle.jpa_questions.specs.questions.Parameters as spec;

use jpa_json::readers::{Described, Unread, json_of, value_of};
use jpa_value::{Seq, Text, Value};
use jpql_trees::tree::Language;
use serde_json::Value as Json;
use std::alloc::Global;

/// The language of words: what they are read as is `Described<Words>`.
struct Words;

/// What is handed in for a parameter: a value, or a collection of values (Jakarta Persistence 3.1,
/// chapter 4.6.9).
#[derive(Drop)]
pub enum ParameterValue {
    Single(Value),
    Collection(Seq<Value>),
}

/// What stands for a parameter of a question (Jakarta Persistence 3.1, chapter 3.10.12), by its
/// name: `x` for `:x`, `1` for `?1`.
#[derive(Drop)]
pub struct Parameter {
    pub name: Text,
    pub value: ParameterValue,
}

/// Why words give no parameters.
#[derive(Drop)]
pub enum Misgiven {
    /// This word gives none, or one that another word before it gives.
    Word(Text),
    /// A growth was refused.
    OutOfMemory,
}

/// What stands before and behind the first `=` of a word.
fn cut(word: &str) -> Option<(&str, &str)>
    ensures { option_map (λ p. (p.0.now, p.1.now)) result ≡ spec.cut word.now }
{
    word.split_once('=')
}

/// A value as JSON says it, null among them.
fn plain_of(alloc: Global, json: &Json) -> Result<Value, Unread>
    ensures { Gives same result (spec.plain_of (view json.now)) }
{
    match json {
        Json::Null => Ok(Value::Null),
        _ => value_of(alloc, json),
    }
}

impl Described<Words> for Value {
    ghost meaning = { spec.plain_of };

    fn read(alloc: Global, json: &Json) -> Result<Value, Unread> {
        plain_of(alloc, json)
    }
}

/// What JSON says for a parameter: a value, or a collection of values in an array.
#[tactic(auto, unfolding(crate::specs::questions::Parameters::parameter_value))]
fn parameter_value(alloc: Global, json: &Json) -> Result<ParameterValue, Unread>
    ensures { Gives same result (spec.parameter_value (view json.now)) }
{
    match json {
        Json::Array(_) => {
            let all = <Seq<Value> as Described<Words>>::read(alloc, json)?;
            Ok(ParameterValue::Collection(all))
        }
        _ => {
            let value = plain_of(alloc, json)?;
            Ok(ParameterValue::Single(value))
        }
    }
}

/// Whether the language takes it: a collection is the wider one's alone.
fn speaks(language: Language, value: &ParameterValue) -> bool
    ensures { result ≡ spec.speaks language value.now }
{
    match (language, value) {
        (Language::Wide, _) | (Language::Profile, ParameterValue::Single(_)) => true,
        (Language::Profile, ParameterValue::Collection(_)) => false,
    }
}

#[tactic(auto, unfolding(crate::specs::questions::Parameters::value_in))]
fn value_in(alloc: Global, language: Language, text: &str) -> Result<ParameterValue, Unread>
    ensures { Gives same result (spec.value_in language text.now) }
{
    let json = json_of(alloc, text.as_bytes())?;
    let value = parameter_value(alloc, &json)?;
    if speaks(language, &value) {
        Ok(value)
    } else {
        drop(value);
        Err(Unread::Form)
    }
}

/// The parameter that a word gives.
fn parameter_of(alloc: Global, language: Language, word: &str) -> Result<Parameter, Unread>
    ensures { Gives same result (spec.parameter_of language word.now) }
{
    let (name, value) = cut(word).ok_or(Unread::Form)?;
    if name.is_empty() {
        return Err(Unread::Form);
    }
    let value = value_in(alloc, language, value)?;
    let name = Text::of(alloc, name)?;
    Ok(Parameter { name, value })
}

/// Whether a parameter of this name is among these.
fn is_given(parameters: &[Parameter], name: &str) -> bool
    ensures { result ≡ spec.is_given name.now parameters.now }
{
    parameters
        .iter()
        .any(|parameter| parameter.name.as_str() == name)
}

/// These parameters, and the one that a word gives.
fn with_word(
    alloc: Global,
    language: Language,
    mut parameters: Seq<Parameter>,
    word: &str,
) -> Result<Seq<Parameter>, Unread>
    ensures { Gives same result (spec.with_word language parameters word.now) }
{
    let parameter = parameter_of(alloc, language, word)?;
    if is_given(parameters.as_slice(), parameter.name.as_str()) {
        return Err(Unread::Form);
    }
    parameters.push(parameter)?;
    Ok(parameters)
}

/// The word that gives no parameter, told.
fn word_told(alloc: Global, word: &Text, unread: Unread) -> Misgiven
    ensures { spec.IsMisgiven unread word.now result }
{
    match unread {
        Unread::OutOfMemory => Misgiven::OutOfMemory,
        Unread::Form => match Text::of(alloc, word.as_str()) {
            Ok(word) => Misgiven::Word(word),
            Err(_) => Misgiven::OutOfMemory,
        },
    }
}

/// The parameters that words give in a language, in their order, each word as `NAME=VALUE`: a name
/// that isn't empty, once, and a value as JSON says it: null, an integer of 64 bits, a text, or
/// bytes as `{"hex":"0aff"}`; in the wider language also an array of such values, a collection.
///
/// `Word` for the first word that gives none, or one of a name that was given; `OutOfMemory` where
/// a growth was refused.
pub fn read_parameters(
    alloc: Global,
    language: Language,
    words: &[Text],
) -> Result<Seq<Parameter>, Misgiven>
    ensures ok { IfOk result
        (λ parameters. spec.parameters_of language words.now ≡ Some parameters) }
    ensures err { IfErr result (spec.Misgives language words.now) }
{
    let mut parameters = Seq::new(alloc);
    for word in words {
        parameters = match with_word(alloc, language, parameters, word.as_str()) {
            Ok(more) => more,
            Err(unread) => return Err(word_told(alloc, word, unread)),
        };
    }
    Ok(parameters)
}
