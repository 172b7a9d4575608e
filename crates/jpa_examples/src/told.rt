//! Examples: their pieces, and what is told of them.
use crate::stop::Stop;
use std::alloc::{AllocError, Global};
use std::process::ExitCode;
use std::{env, fs, io};

/// The mapping of examples, and the text of the functions that they write with.
#[derive(Clone, Copy)]
pub struct Unit<'a> {
    pub mapping: &'a str,
    pub functions: &'a str,
}

/// What a program answers to examples.
pub trait Answers {
    /// What an example of this kind answers, each line with its line feed; `Form` where it is of no
    /// such kind.
    fn answer(
        &self,
        alloc: Global,
        unit: Unit<'_>,
        kind: &str,
        rows: &str,
        given: &str,
    ) -> Result<String, Stop>;
}

/// What stands after a mark on the lines of a piece, each with its line feed.
fn marked(alloc: Global, piece: &str, mark: &str) -> Result<String, AllocError> {
    let mut out = String::new(alloc);
    for line in piece.lines() {
        if let Some(text) = line.strip_prefix(mark) {
            out.push_str(text)?;
            out.push('\n')?;
        }
    }
    Ok(out)
}

/// What an example answers.
fn answer<A: Answers>(
    alloc: Global,
    answers: &A,
    unit: Unit<'_>,
    piece: &str,
) -> Result<String, Stop> {
    let rows = marked(alloc, piece, "= ")?;
    let given = marked(alloc, piece, "> ")?;
    match piece.split_once(' ') {
        Some((kind, _)) => answers.answer(alloc, unit, kind, rows.as_str(), given.as_str()),
        None => Err(Stop::Form),
    }
}

/// Whether an example is answered as it says; else what it answers is told.
fn is_as_said<A: Answers>(
    alloc: Global,
    answers: &A,
    unit: Unit<'_>,
    piece: &str,
    told: &mut String,
) -> Result<bool, Stop> {
    let found = answer(alloc, answers, unit, piece)?;
    let wanted = marked(alloc, piece, "< ")?;
    if found.as_str() == wanted.as_str() {
        return Ok(true);
    }
    told.push_str(piece)?;
    told.push_str("\nanswers\n")?;
    told.push_str(found.as_str())?;
    Ok(false)
}

/// Tells how many examples of a file are answered as they say, and of each other what it answers.
fn tell_examples<A: Answers>(
    alloc: Global,
    answers: &A,
    path: &str,
    text: &str,
    told: &mut String,
) -> Result<(), Stop> {
    let mut unit = Unit {
        mapping: "",
        functions: "",
    };
    let mut as_said = 0u64;
    for piece in text.split("\n\n") {
        if let Some(mapping) = piece.strip_prefix("unit\n") {
            unit = Unit {
                mapping,
                functions: mapping,
            };
        } else if let Some(functions) = piece.strip_prefix("functions\n") {
            unit.functions = functions;
        } else if is_as_said(alloc, answers, unit, piece, told)? {
            as_said = as_said.saturating_add(1);
        }
    }
    let line = format!(in alloc; "{path}: {as_said} examples are answered as they say\n")?;
    told.push_str(line.as_str())?;
    Ok(())
}

/// What is told of each file that the command line names.
fn told<A: Answers>(rt: &HostRuntime, answers: &A) -> Result<String, Stop> {
    let mut told = String::new(rt.alloc());
    for path in env::args(rt)?.skip(1) {
        let bytes = fs::read(rt, path.as_str())?;
        match String::from_utf8(bytes) {
            Ok(text) => tell_examples(
                rt.alloc(),
                answers,
                path.as_str(),
                text.as_str(),
                &mut told,
            )?,
            Err(_) => return Err(Stop::Form),
        }
    }
    Ok(told)
}

/// Prints what is told, or why nothing is.
fn print_told(rt: &HostRuntime, told: &Result<String, Stop>) -> io::Result<()> {
    match told {
        Ok(text) => print!(rt; "{text}"),
        Err(stop) => {
            let name = stop.name();
            print!(rt; "stopped: {name}\n")
        }
    }
}

/// Prints what is told of each file that the command line names. It fails where that can't be told
/// or printed.
pub fn tell<A: Answers>(rt: &HostRuntime, answers: &A) -> ExitCode {
    let told = told(rt, answers);
    match print_told(rt, &told) {
        Ok(()) if told.is_ok() => ExitCode::SUCCESS,
        _ => ExitCode::FAILURE,
    }
}
