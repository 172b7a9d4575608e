//! The program: it serves the entities of a mapping over a store in memory or in a file, by the
//! calls on standard input, and writes the replies to standard output; or it answers one question
//! over a store's file, or prints what the grammar of a language of queries has.
#![tactic(auto)]

ghost use Rattle.std.specs.Prelude.{◌≡◌, ◌⊎◌, true, false, None, Ok, Err, option_copied, IsSome, IfOk, IfErr, IsErrAnd, OnOk};
ghost use Rattle.jpa_value.specs.declared.refusal.Cause.{Cause};
ghost use Rattle.jpa_value.specs.declared.refusal.MappingFault.{MappingFault};
ghost use Rattle.jpa_model.specs.Described.{IsUnlessMemory};
ghost use Rattle.jpa_cells.specs.meaning.Store.{IsOrderedIfFound};
ghost use Rattle.jpa_json.specs.functions.Known as known;
ghost use Rattle.jpa.specs.Served as spec;

use jpa_behaviour::{Registry, ServedUnit};
use jpa_cells::cells::{Holding, holding_of};
use jpa_description::history::History;
use jpa_json::functions::{ProgramFunctions, read_functions, registry_of};
use jpa_json::mapping::{Mapping, read_mapping};
use jpa_lines::lines::write_text;
use jpa_lines::settings::{Settings, Stop, read_settings, status};
use jpa_program::{first_unit, open, run};
use jpa_questions::questions::{
    Misgiven, Parameter, Question, Untold, check_unit, read_parameters, read_question, tell_rows,
    write_managed_plan, write_plan,
};
use jpa_value::{Cause, MappingFault, Refusal, Seq, Text, refusal_text};
use jpql_text::shapes::grammar_text;
use jpql_trees::tree::Language;
use sqlite::{Alter, Connection, Error, ErrorCode, Unknown};
use std::alloc::Global;
use std::io::ErrorKind;
use std::process::ExitCode;
use std::{env, fs, io};

/// The words of the command line, of which the first is the program's own name.
fn words(rt: &HostRuntime) -> io::Result<Vec<String>> {
    let mut words = Vec::new(rt.alloc());
    for word in env::args(rt)? {
        words.push(word)?;
    }
    Ok(words)
}

/// Why there are no words: for want of memory, or one of them is no text.
fn stop_of(alloc: Global, error: &io::Error) -> Stop {
    if error.kind() == ErrorKind::OutOfMemory {
        return Stop::Refused(Refusal::Because(Cause::OutOfMemory));
    }
    match format!(in alloc; "error: {error}\n") {
        Ok(text) => Stop::Words(text),
        Err(_) => Stop::Refused(Refusal::Because(Cause::OutOfMemory)),
    }
}

fn settings_of(rt: &HostRuntime) -> Result<Settings, Stop> {
    match words(rt) {
        Ok(words) => read_settings(rt.alloc(), words.as_slice()),
        Err(error) => Err(stop_of(rt.alloc(), &error)),
    }
}

/// The bytes of a mapping file; one that can't be read is no JSON.
fn mapping_file(rt: &HostRuntime, path: &Text) -> Result<Vec<u8>, Cause>
    ensures { IfErr result (λ cause. (cause ≡ Cause.OutOfMemory)
        ⊎ (cause ≡ Cause.Mapping MappingFault.Json)) }
{
    match fs::read(rt, path.as_str()) {
        Ok(bytes) => Ok(bytes),
        Err(error) if error.kind() == ErrorKind::OutOfMemory => Err(Cause::OutOfMemory),
        Err(_) => Err(Cause::Mapping(MappingFault::Json)),
    }
}

/// The bytes of the mapping that the settings name, and none where they name none.
fn mapping_bytes(rt: &HostRuntime, settings: &Settings) -> Result<Option<Vec<u8>>, Cause>
    ensures none { settings.now.mapping ≡ None → result ≡ Ok None }
    ensures some { IsSome settings.now.mapping → IfOk result IsSome }
    ensures refused { IfErr result (λ cause. (cause ≡ Cause.OutOfMemory)
        ⊎ (cause ≡ Cause.Mapping MappingFault.Json)) }
{
    match &settings.mapping {
        Some(path) => Ok(Some(mapping_file(rt, path)?)),
        None => Ok(None),
    }
}

/// The unit that a mapping's bytes describe, with what has changed of it since revision 1: its
/// entities are read before its functions.
fn described(
    alloc: Global,
    language: Language,
    bytes: &[u8],
) -> Result<(ServedUnit<ProgramFunctions>, History), Cause>
    ensures unit { IsUnlessMemory result (spec.unit_in language bytes.now) }
    ensures refused { IfErr result spec.IsMappingCause }
{
    let Mapping { metamodel, history } = read_mapping(alloc, bytes)?;
    let functions = read_functions(alloc, bytes)?;
    let registry = registry_of(alloc, language, functions)?;
    Ok((
        ServedUnit {
            metamodel,
            registry,
        },
        history,
    ))
}

/// The unit that is served without a mapping: the program's own persons with their orders, and no
/// function.
fn own_unit(alloc: Global, language: Language) -> Result<ServedUnit<ProgramFunctions>, Cause>
    ensures unit { IsUnlessMemory result (Ok (spec.own_unit language)) }
    ensures refused { IfErr result spec.IsMappingCause }
{
    Ok(ServedUnit {
        metamodel: first_unit(alloc)?,
        registry: Registry::new(alloc, language),
    })
}

/// The unit of a mapping's bytes: the one that they describe, and of no bytes the program's own, of
/// which nothing has changed.
fn unit_from(
    alloc: Global,
    language: Language,
    mapping: Option<&[u8]>,
) -> Result<(ServedUnit<ProgramFunctions>, History), Cause>
    ensures unit { IsUnlessMemory result
        (spec.unit_from language (option_copied mapping.entry)) }
    ensures refused { IfErr result spec.IsMappingCause }
{
    match mapping {
        Some(bytes) => described(alloc, language, bytes),
        None => {
            let unit = own_unit(alloc, language)?;
            let classes = Seq::new(alloc);
            Ok((unit, History { classes }))
        }
    }
}

/// Tells on standard error what a database holds, where it was refused since that is no store. So a
/// fault of the disk, which is told by its name alone, is told from it.
fn tell_holding<S: Alter>(rt: &HostRuntime, cause: &Cause, conn: &Connection<S>) {
    if !matches!(cause, Cause::StoreFault) {
        return;
    }
    let words = match holding_of(conn) {
        Holding::Nothing | Holding::Cells => return,
        Holding::CellsAndMore => "the database has other tables, indexes or views beside its cells",
        Holding::OtherCell => "the database has a table 'cell' that is no table of cells",
        Holding::Others => "the database has tables, indexes or views, and no table of cells",
    };
    let _told = eprintln!(rt; "jpa: {words}");
}

/// Answers the calls on standard input until it ends, over the cells of a connection, which is
/// handed back.
fn serve<S: Alter + Drop>(
    rt: &HostRuntime,
    conn: Connection<S>,
    unit: ServedUnit<ProgramFunctions>,
    history: &History,
) -> Result<(Stop, Connection<S>), Cause>
    requires { IsOrderedIfFound S.Store conn }
    ensures unknown { known.names_are_known unit.registry unit.metamodel ≡ false
        → IsErrAnd result (λ cause. cause ≡ Cause.Mapping MappingFault.Function) }
    ensures unservable { spec.is_servable unit history.now ≡ false
        → IsErrAnd result (λ cause. (cause ≡ Cause.Mapping MappingFault.Function)
        ⊎ (cause ≡ Cause.OutOfMemory)) }
    ensures served { OnOk result (spec.IsServable unit history.now) }
    ensures cells { IfOk result (λ served. spec.HoldsUnit S.Store unit served.1) }
{
    let mut provider = match open(rt.alloc(), conn, unit, history) {
        Ok(provider) => provider,
        Err((cause, refused)) => {
            tell_holding(rt, &cause, &refused);
            return Err(cause);
        }
    };
    let stop = match run(
        rt.alloc(),
        &mut rt.reader(),
        &mut io::writer(rt),
        &mut provider,
    ) {
        Ok(()) => Stop::End,
        Err(fault) => Stop::Run(fault),
    };
    Ok((stop, provider.into_rows().store.into_connection()))
}

fn serve_in_memory(
    rt: &HostRuntime,
    unit: ServedUnit<ProgramFunctions>,
    history: &History,
) -> Result<Stop, Cause>
    ensures { OnOk result (spec.IsServable unit history.now) }
{
    let conn = Connection::open_in_memory(rt.alloc())?;
    let (stop, _conn) = serve(rt, conn, unit, history)?;
    Ok(stop)
}

/// Why a store's file can't be opened.
fn cause_of(error: Error) -> Cause {
    match error {
        Error::SqliteFailure(ErrorCode::OutOfMemory) => Cause::OutOfMemory,
        _ => Cause::StoreFault,
    }
}

/// Serves over a store's file, which is made where there is none. What was committed stands in the
/// file and in the log beside it; where the closing can't bring the log into the file, both stay.
fn serve_file(
    rt: &HostRuntime,
    path: &Text,
    unit: ServedUnit<ProgramFunctions>,
    history: &History,
) -> Result<Stop, Cause>
    ensures { OnOk result (spec.IsServable unit history.now) }
{
    let conn = match Connection::open_from(rt, path.as_str(), false, Unknown) {
        Ok(conn) => conn,
        Err((error, _)) => return Err(cause_of(error)),
    };
    let (stop, conn) = serve(rt, conn, unit, history)?;
    let _closed = conn.close();
    Ok(stop)
}

/// Serves the unit of a mapping's bytes over the store's file that is named, or without one over a
/// store in memory.
fn serve_mapping(
    rt: &HostRuntime,
    language: Language,
    mapping: Option<&[u8]>,
    db: Option<&Text>,
) -> Result<Stop, Cause>
    ensures served { OnOk result (spec.GivesServable language (option_copied mapping.entry)) }
    ensures refused { spec.RefusesUnit language (option_copied mapping.entry) result }
{
    let (unit, history) = unit_from(rt.alloc(), language, mapping)?;
    match db {
        Some(path) => serve_file(rt, path, unit, &history),
        None => serve_in_memory(rt, unit, &history),
    }
}

/// The unit of a mapping's bytes, for which a question is judged.
fn unit_to_ask(
    alloc: Global,
    language: Language,
    mapping: Option<&[u8]>,
) -> Result<ServedUnit<ProgramFunctions>, Cause>
    ensures served { OnOk result (spec.GivesServable language (option_copied mapping.entry)) }
    ensures refused { spec.RefusesUnit language (option_copied mapping.entry) result }
{
    let (unit, history) = unit_from(alloc, language, mapping)?;
    check_unit(&unit, &history)?;
    Ok(unit)
}

/// Whether a file holds anything. An opening would make one that isn't there, and begin a database
/// in one that is empty.
fn is_filled(rt: &HostRuntime, path: &Text) -> bool {
    match fs::metadata(rt, path.as_str()) {
        Ok(found) => found.len() > 0,
        Err(_) => false,
    }
}

/// Prints the rows that a question finds in a store's file, which stays as it is.
fn print_rows(
    rt: &HostRuntime,
    path: &Text,
    unit: &ServedUnit<ProgramFunctions>,
    question: &Question,
) -> Result<Stop, Cause> {
    if !is_filled(rt, path) {
        return Err(Cause::StoreFault);
    }
    let conn = match Connection::open_from(rt, path.as_str(), false, Unknown) {
        Ok(conn) => conn,
        Err((error, _)) => return Err(cause_of(error)),
    };
    let mut lines = Vec::new(rt.alloc());
    let (told, conn) = tell_rows(rt.alloc(), conn, unit, question, &mut lines);
    if let Err(Untold::Refused(cause)) = &told {
        tell_holding(rt, cause, &conn);
    }
    // the log isn't brought into the file, which stays as it was; others may open it before who
    // reads the lines is done
    drop(conn.into_store().close());
    match told {
        Ok(()) => Ok(print_text(rt, lines.as_slice())),
        Err(Untold::Refused(cause)) => Err(cause),
        Err(Untold::Broken(_)) => Err(Cause::OutOfMemory),
    }
}

/// Prints a text.
fn print_text(rt: &HostRuntime, text: &[u8]) -> Stop {
    match write_text(&mut io::writer(rt), text) {
        Ok(()) => Stop::End,
        Err(fault) => Stop::Run(fault),
    }
}

/// Prints the rows that a question finds, or how it would find them: in the store's file that is
/// named, or without one in what a manager holds.
fn print_answer(
    rt: &HostRuntime,
    settings: &Settings,
    unit: &ServedUnit<ProgramFunctions>,
    question: &Question,
) -> Result<Stop, Cause> {
    let metamodel = &unit.metamodel;
    let plan = match &settings.db {
        Some(path) if !settings.explain => return print_rows(rt, path, unit, question),
        Some(_) => write_plan(rt.alloc(), metamodel, question)?,
        None => write_managed_plan(rt.alloc(), metamodel, question, settings.indexes.as_slice())?,
    };
    Ok(print_text(rt, plan.as_slice()))
}

/// Answers a question as the settings say: its mapping is refused before its text, and its text
/// before a store is opened.
fn answer(
    rt: &HostRuntime,
    mapping: Option<&[u8]>,
    settings: &Settings,
    language: Language,
    text: &Text,
    parameters: &[Parameter],
) -> Result<Stop, Cause>
    ensures served { OnOk result (spec.GivesServable language (option_copied mapping.entry)) }
    ensures refused { spec.RefusesUnit language (option_copied mapping.entry) result }
{
    let unit = unit_to_ask(rt.alloc(), language, mapping)?;
    let metamodel = &unit.metamodel;
    let question = read_question(rt.alloc(), metamodel, language, text.as_str(), parameters)?;
    let stop = print_answer(rt, settings, &unit, &question)?;
    Ok(stop)
}

/// The end for words that give no parameters.
fn no_parameters(alloc: Global, misgiven: &Misgiven) -> Stop {
    let Misgiven::Word(word) = misgiven else {
        return Stop::Refused(Refusal::Because(Cause::OutOfMemory));
    };
    let word = word.as_str();
    match format!(in alloc;
        "error: '{word}' gives no parameter as '--param <NAME=VALUE>', with its value as JSON and each name once\n\nFor more information, try '--help'.\n"
    ) {
        Ok(text) => Stop::Words(text),
        Err(_) => Stop::Refused(Refusal::Because(Cause::OutOfMemory)),
    }
}

/// The language of queries that the settings name.
fn language_of(settings: &Settings) -> Language
    ensures { result ≡ spec.language_named settings.now.language }
{
    match &settings.language {
        Some(name) if name.as_str() == "wide" => Language::Wide,
        _ => Language::Profile,
    }
}

/// Answers the question of the settings. Parameters are judged before any file is read.
fn ask_as_said(rt: &HostRuntime, settings: &Settings, query: &Text) -> Result<Stop, Cause> {
    let language = language_of(settings);
    let parameters = match read_parameters(rt.alloc(), language, settings.params.as_slice()) {
        Ok(parameters) => parameters,
        Err(misgiven) => return Ok(no_parameters(rt.alloc(), &misgiven)),
    };
    let mapping = mapping_bytes(rt, settings)?;
    answer(
        rt,
        mapping.as_deref(),
        settings,
        language,
        query,
        parameters.as_slice(),
    )
}

/// Serves what the settings say, answers their question, or prints the grammar; what is refused is
/// refused before the first line.
fn serve_as_said(rt: &HostRuntime, settings: &Settings) -> Result<Stop, Cause> {
    if settings.grammar {
        let text = grammar_text(language_of(settings));
        return Ok(print_text(rt, text.as_bytes()));
    }
    if let Some(query) = &settings.query {
        return ask_as_said(rt, settings, query);
    }
    let mapping = mapping_bytes(rt, settings)?;
    serve_mapping(
        rt,
        language_of(settings),
        mapping.as_deref(),
        settings.db.as_ref(),
    )
}

/// Serves, and answers why it ended.
fn serve_words(rt: &HostRuntime) -> Stop {
    let settings = match settings_of(rt) {
        Ok(settings) => settings,
        Err(stop) => return stop,
    };
    match serve_as_said(rt, &settings) {
        Ok(stop) => stop,
        Err(cause) => Stop::Refused(Refusal::Because(cause)),
    }
}

/// Tells a refusal on standard error: its text, or its name where memory is refused for the text.
fn tell_refusal(rt: &HostRuntime, refusal: &Refusal) -> io::Result<()> {
    match refusal_text(rt.alloc(), refusal) {
        Ok(text) => {
            let text = text.as_str();
            eprintln!(rt; "jpa: {text}")
        }
        Err(_) => {
            let name = refusal.name();
            eprintln!(rt; "jpa: {name}")
        }
    }
}

/// Tells why the program ends without reading calls, where it does.
fn tell(rt: &HostRuntime, stop: &Stop) -> io::Result<()> {
    match stop {
        Stop::End | Stop::Run(_) => Ok(()),
        Stop::Shown(text) => print!(rt; "{text}"),
        Stop::Words(text) => eprint!(rt; "{text}"),
        Stop::Refused(refusal) => tell_refusal(rt, refusal),
    }
}

fn main(rt: HostRuntime) -> ExitCode {
    let stop = serve_words(&rt);
    let _told = tell(&rt, &stop);
    ExitCode::from(status(&stop))
}
