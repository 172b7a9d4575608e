//! The words of the command line.
ghost use Rattle.std.specs.Prelude.{◌≡◌, ◌⊎◌, [], ◌∷◌, None, IfOk, IfErr, OnOk, codes, map};
ghost use Rattle.std.specs.Prelude.{option_map, true, false, unwrap_or};
ghost use Rattle.std.specs.String.{string_bytes};
ghost use Rattle.clap.specs.Words.{app_of, kind_of, rule_of, takes};
ghost use Rattle.clap.specs.declared.error.kind.ErrorKind.{ErrorKind};
ghost use Rattle.jpa_value.specs.declared.refusal.Cause.{Cause};
ghost use Rattle.jpa_value.specs.declared.refusal.Refusal.{Refusal};
ghost use Rattle.jpa_lines.specs.declared.settings.stop.Stop.{Stop};
ghost use Rattle.jpa_lines.specs.settings.Words.{AreTaken, Tells, TellsOf, command, lack_of, said};
ghost use Rattle.jpa_lines.specs.settings.Words as words;

use crate::settings::stop::Stop;
use clap::error::ErrorKind;
use clap::{Arg, ArgAction, ArgMatches, Command, Error};
use jpa_value::{Cause, Refusal, Seq, Text};
use std::alloc::{AllocError, Global};

/// What the command line says.
#[derive(Debug, Drop)]
pub struct Settings {
    /// The file of the mapping.
    pub mapping: Option<Text>,
    /// The file of the store.
    pub db: Option<Text>,
    /// The one SELECT that is asked.
    pub query: Option<Text>,
    /// What is said of its parameters, each as `NAME=VALUE`.
    pub params: Seq<Text>,
    /// Whether its plan is asked, in place of its rows: of a store's file, or of a manager's.
    pub explain: bool,
    /// What a manager's plan has an index of, each as `ENTITY.NAME`.
    pub indexes: Seq<Text>,
    /// The language of queries, where it is said: `profile` or `wide`.
    pub language: Option<Text>,
    /// Whether its grammar is asked.
    pub grammar: bool,
}

/// The program with its files, as clap reads it.
fn with_files<'a>(alloc: Global) -> Result<Command<'a>, AllocError>
    ensures { IfOk result (λ c. app_of c ≡ words.with_files) }
{
    let mapping = Arg::new(alloc, "mapping")
        .long("mapping")
        .value_name("FILE")
        .help("The entities, as JSON; without it the program's own persons");
    let db = Arg::new(alloc, "db").long("db").value_name("FILE").help(
        "The store's file, made where there is none; without it the store is in memory",
    );
    let plain = Command::new(alloc, "jpa").version("0.2.0").about(
        "Answers entity manager calls on standard input, a JSON line each, on standard output",
    );
    let with_mapping = plain.arg(mapping)?;
    Ok(with_mapping.arg(db)?)
}

/// The option of the SELECT that is asked.
fn query_option<'a>(alloc: Global) -> Arg<'a>
    ensures rule { rule_of result ≡ words.option_rule (codes "query") }
    ensures local { result.global ≡ false }
{
    Arg::new(alloc, "query")
        .long("query")
        .value_name("TEXT")
        .help("Answers one SELECT off the store's file, a JSON line for each row; writes nothing")
}

/// The option of a parameter of the SELECT.
fn param_option<'a>(alloc: Global) -> Arg<'a>
    ensures rule { rule_of result ≡ words.repeated_rule (codes "param") }
    ensures local { result.global ≡ false }
{
    Arg::new(alloc, "param")
        .long("param")
        .value_name("NAME=VALUE")
        .action(ArgAction::Append)
        .help("The value of a parameter of the query, or a list of values, as JSON; once for each")
}

/// The flag that asks for the plan of the SELECT.
fn explain_flag<'a>(alloc: Global) -> Arg<'a>
    ensures rule { rule_of result ≡ words.flag_rule (codes "explain") }
    ensures local { result.global ≡ false }
{
    Arg::new(alloc, "explain")
        .long("explain")
        .action(ArgAction::SetTrue)
        .help("Tells how the query is answered, in place of its rows; without --db by a manager")
}

/// The option of what a manager's plan has an index of.
fn index_option<'a>(alloc: Global) -> Arg<'a>
    ensures rule { rule_of result ≡ words.repeated_rule (codes "index") }
    ensures local { result.global ≡ false }
{
    Arg::new(alloc, "index")
        .long("index")
        .value_name("ENTITY.NAME")
        .action(ArgAction::Append)
        .help("A part of a key or an attribute that a manager has an index of; once for each")
}

/// The option of the language of queries.
fn language_option<'a>(alloc: Global) -> Arg<'a>
    ensures rule { rule_of result ≡ words.option_rule (codes "language") }
    ensures local { result.global ≡ false }
{
    Arg::new(alloc, "language")
        .long("language")
        .value_name("NAME")
        .help("The language of queries: profile, or wide with UPPER, LOWER, TRIM and IN of a list")
}

/// The flag that asks for the language's grammar.
fn grammar_flag<'a>(alloc: Global) -> Arg<'a>
    ensures rule { rule_of result ≡ words.flag_rule (codes "grammar") }
    ensures local { result.global ≡ false }
{
    Arg::new(alloc, "grammar")
        .long("grammar")
        .action(ArgAction::SetTrue)
        .help("Prints the words, functions and limits of the language of queries as JSON, and ends")
}

/// The program with its files and with a question, as clap reads it.
fn with_question<'a>(alloc: Global) -> Result<Command<'a>, AllocError>
    ensures { IfOk result (λ c. app_of c ≡ words.with_question) }
{
    let query = query_option(alloc);
    let param = param_option(alloc);
    let explain = explain_flag(alloc);
    let index = index_option(alloc);
    let with_query = with_files(alloc)?.arg(query)?;
    let with_param = with_query.arg(param)?;
    let with_explain = with_param.arg(explain)?;
    Ok(with_explain.arg(index)?)
}

/// The command as clap reads it.
fn jpa<'a>(alloc: Global) -> Result<Command<'a>, AllocError>
    ensures { IfOk result (λ c. app_of c ≡ command) }
{
    let language = language_option(alloc);
    let grammar = grammar_flag(alloc);
    let with_language = with_question(alloc)?.arg(language)?;
    Ok(with_language.arg(grammar)?)
}

/// What clap answers in place of values: a request's text, or what it says of a fault.
fn stop_of(alloc: Global, error: Error) -> Stop
    ensures memory { kind_of error ≡ ErrorKind.OutOfMemory → result
        ≡ Stop.Refused (Refusal.Because Cause.OutOfMemory) }
    ensures told { Tells (kind_of error ∷ []) result }
{
    if error.kind() == ErrorKind::OutOfMemory {
        return Stop::Refused(Refusal::Because(Cause::OutOfMemory));
    }
    match format!(in alloc; "{error}") {
        Ok(text) if error.use_stderr() => Stop::Words(text),
        Ok(text) => Stop::Shown(text),
        Err(_) => Stop::Refused(Refusal::Because(Cause::OutOfMemory)),
    }
}

/// A text of its own for a value; none for none.
fn copied(alloc: Global, value: Option<&str>) -> Result<Option<Text>, Stop>
    ensures ok { IfOk result (λ text. text ≡ option_map (λ v. v.now) value.entry) }
    ensures err { IfErr result (λ stop. stop ≡ Stop.Refused
        (Refusal.Because Cause.OutOfMemory)) }
{
    match value {
        Some(value) => match Text::of(alloc, value) {
            Ok(text) => Ok(Some(text)),
            Err(_) => Err(Stop::Refused(Refusal::Because(Cause::OutOfMemory))),
        },
        None => Ok(None),
    }
}

/// Texts of their own for values. It fails for want of memory alone.
fn texts_of(alloc: Global, values: &[&str]) -> Result<Seq<Text>, AllocError>
    ensures { IfOk result (λ texts. texts ≡ map (λ v. v.now) values.now) }
{
    let mut texts = Seq::new(alloc);
    for value in values {
        texts.push(Text::of(alloc, value)?)?;
    }
    Ok(texts)
}

/// Texts of their own for an option's values; no texts for none.
fn copies(alloc: Global, values: Option<&[&str]>) -> Result<Seq<Text>, Stop>
    ensures ok { IfOk result (λ texts. texts
        ≡ unwrap_or (option_map (λ s. map (λ v. v.now) s.now) values.entry) []) }
    ensures err { IfErr result (λ stop. stop ≡ Stop.Refused
        (Refusal.Because Cause.OutOfMemory)) }
{
    match texts_of(alloc, values.unwrap_or(&[])) {
        Ok(texts) => Ok(texts),
        Err(_) => Err(Stop::Refused(Refusal::Because(Cause::OutOfMemory))),
    }
}

/// Whether a flag's value says that it stands there.
fn is_set(value: Option<&str>) -> bool
    ensures { result ≡ words.is_set (option_map (λ v. v.now) value.entry) }
{
    match value {
        Some(value) => value == "true",
        None => false,
    }
}

/// What clap found of the options.
fn settings_in(alloc: Global, matches: &ArgMatches<'_>) -> Result<Settings, Stop>
    ensures found { IfOk result (λ s. s ≡ words.found matches.now) }
    ensures err { IfErr result (λ stop. stop ≡ Stop.Refused
        (Refusal.Because Cause.OutOfMemory)) }
{
    Ok(Settings {
        mapping: copied(alloc, matches.get_str("mapping"))?,
        db: copied(alloc, matches.get_str("db"))?,
        query: copied(alloc, matches.get_str("query"))?,
        params: copies(alloc, matches.get_strs("param"))?,
        explain: is_set(matches.get_str("explain")),
        indexes: copies(alloc, matches.get_strs("index"))?,
        language: copied(alloc, matches.get_str("language"))?,
        grammar: is_set(matches.get_str("grammar")),
    })
}

const QUERY_NEEDS_DB: &str =
    "error: '--query <TEXT>' needs '--db <FILE>'\n\nFor more information, try '--help'.\n";

const PARAM_NEEDS_QUERY: &str =
    "error: '--param <NAME=VALUE>' needs '--query <TEXT>'\n\nFor more information, try '--help'.\n";

const EXPLAIN_NEEDS_QUERY: &str =
    "error: '--explain' needs '--query <TEXT>'\n\nFor more information, try '--help'.\n";

const INDEX_NEEDS_PLAN: &str =
    "error: '--index <ENTITY.NAME>' needs '--explain' without '--db <FILE>'\n\nFor more information, try '--help'.\n";

const GRAMMAR_STANDS_ALONE: &str =
    "error: '--grammar' stands alone, or with '--language <NAME>'\n\nFor more information, try '--help'.\n";

const LANGUAGE_IS_UNKNOWN: &str =
    "error: '--language <NAME>' is 'profile' or 'wide'\n\nFor more information, try '--help'.\n";

/// Whether this names a language of queries.
fn is_language(name: &str) -> bool
    ensures { result ≡ words.is_language name.now }
{
    name == "profile" || name == "wide"
}

/// What is said of a language that there isn't.
fn unknown(language: &Option<Text>) -> Option<&'static str>
    ensures { option_map (λ v. v.now) result ≡ words.unknown language.now }
{
    match language {
        Some(name) if !is_language(name.as_str()) => Some(LANGUAGE_IS_UNKNOWN),
        _ => None,
    }
}

/// What is said of parameters or of a plan without a query.
fn stray(settings: &Settings) -> Option<&'static str>
    ensures { option_map (λ v. v.now) result
        ≡ words.stray settings.now.params settings.now.explain }
{
    match settings.params.as_slice() {
        [_, ..] => Some(PARAM_NEEDS_QUERY),
        [] if settings.explain => Some(EXPLAIN_NEEDS_QUERY),
        [] => None,
    }
}

/// Whether nothing is said of what is served or asked.
fn is_bare(settings: &Settings) -> bool
    ensures { result ≡ words.is_bare settings.now }
{
    settings.mapping.is_none()
        && settings.db.is_none()
        && settings.query.is_none()
        && settings.params.as_slice().is_empty()
        && !settings.explain
        && settings.indexes.as_slice().is_empty()
}

/// What is said of an option that stands without the one that it needs, or of the grammar beside one
/// that it doesn't go with.
fn alone(settings: &Settings) -> Option<&'static str>
    ensures { option_map (λ v. v.now) result ≡ words.alone settings.now }
{
    if settings.grammar && !is_bare(settings) {
        return Some(GRAMMAR_STANDS_ALONE);
    }
    match (&settings.query, &settings.db) {
        (None, _) => stray(settings),
        (Some(_), Some(_)) => None,
        (Some(_), None) if settings.explain => None,
        (Some(_), None) => Some(QUERY_NEEDS_DB),
    }
}

/// What is said of an index that isn't one of a manager's plan.
fn stray_index(settings: &Settings) -> Option<&'static str>
    ensures { option_map (λ v. v.now) result ≡ words.stray_index settings.now }
{
    if settings.indexes.as_slice().is_empty() || settings.explain && settings.db.is_none() {
        None
    } else {
        Some(INDEX_NEEDS_PLAN)
    }
}

/// What is said of options that don't go together, or of a language that there isn't.
fn lacking(settings: &Settings) -> Option<&'static str>
    ensures { option_map (λ v. v.now) result ≡ words.lacking settings.now }
{
    if let Some(said) = alone(settings) {
        return Some(said);
    }
    match stray_index(settings) {
        Some(said) => Some(said),
        None => unknown(&settings.language),
    }
}

/// The end of a command line that is refused in these words.
fn refused(alloc: Global, said: &str) -> Stop
    ensures { (result ≡ Stop.Refused (Refusal.Because Cause.OutOfMemory))
        ⊎ words.SaysWords said.now result }
{
    match String::from_str(alloc, said) {
        Ok(text) => Stop::Words(text),
        Err(_) => Stop::Refused(Refusal::Because(Cause::OutOfMemory)),
    }
}

/// What the words of a command line say, of which the first is the program's own name: `--mapping
/// FILE`, `--db FILE`, `--query TEXT`, `--explain`, `--language NAME` and `--grammar`, each at most
/// once, and `--param NAME=VALUE` and `--index ENTITY.NAME` as often as they stand there, in any
/// order, as clap reads them.
///
/// `Ok` only where clap finds no fault in the words, and they lack no option: a query needs a
/// store's file or asks its plan, parameters and a plan need a query, an index needs a plan without
/// a store's file, the grammar goes with a language alone, and the language is one. Where clap finds a fault, that is the only one: `Shown` with the text that was
/// asked for, where the fault is a request for the help or the version, and `Words` with what clap
/// says of any other. `Words` also where an option lacks the one that it needs, for the grammar
/// beside another option, and for a language that there isn't. For want of memory it is `Refused`
/// with `OutOfMemory`, and so is each `Err` of words that clap takes and that lack no option.
pub fn read_settings(alloc: Global, words: &[String]) -> Result<Settings, Stop>
    ensures said { IfOk result (λ s. s ≡ said (map string_bytes words.now)) }
    ensures accepted { OnOk result (AreTaken (map string_bytes words.now)) }
    ensures told { IfErr result (TellsOf (map string_bytes words.now)) }
    ensures taken { takes command (map string_bytes words.now) ≡ true →
        lack_of (map string_bytes words.now) ≡ None →
        IfErr result (λ stop. stop ≡ Stop.Refused (Refusal.Because Cause.OutOfMemory)) }
{
    let command = match jpa(alloc) {
        Ok(command) => command,
        Err(_) => return Err(Stop::Refused(Refusal::Because(Cause::OutOfMemory))),
    };
    let settings = match command.try_get_matches_from(words) {
        Ok(matches) => settings_in(alloc, &matches)?,
        Err(error) => return Err(stop_of(alloc, error)),
    };
    match lacking(&settings) {
        None => Ok(settings),
        Some(said) => Err(refused(alloc, said)),
    }
}
