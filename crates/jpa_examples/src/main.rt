//! Worked examples: the examples of each file that the command line names are held against what the
//! program answers to them. Whole runs are folders of `tests/runs`.
//!
//! A file is cut at its blank lines. A piece that begins with a line `unit` is the mapping of the
//! examples below it, and one that begins with `functions` gives them other functions. Any other
//! piece is an example: its first line is its kind and what it shows, then come lines with a mark:
//! `= ` what stands before, as rows, `> ` a line that is given, `< ` one that is answered.
//!
//! How many examples of each file are answered as they say is printed, and of each other what it
//! answers.
//!
//! The kinds are `store` (src/stores.rt); `mapping`, `members`, `limit` and `functions`
//! (src/mappings.rt); `query`, `wide`, `repeated`, `repeated-wide` and `typed` (src/statements.rt).
#![tactic(auto)]

mod given;
mod mappings;
mod queries;
mod shown;
mod statements;
mod stop;
mod stores;
mod texts;
mod told;
mod typed;
mod writer;

use mappings::{functions_answer, limit_answer, mapping_answer, members_answer};
use statements::statement_answer;
use std::alloc::Global;
use std::process::ExitCode;
use stop::Stop;
use stores::store_answer;
use told::{Answers, Unit, tell};

/// What this program answers.
struct Program;

impl Answers for Program {
    fn answer(
        &self,
        alloc: Global,
        unit: Unit<'_>,
        kind: &str,
        rows: &str,
        given: &str,
    ) -> Result<String, Stop> {
        match kind {
            "store" => store_answer(alloc, unit, rows),
            "mapping" => mapping_answer(alloc, given),
            "members" => members_answer(alloc, rows, given),
            "limit" => limit_answer(alloc, given),
            "functions" => functions_answer(alloc, given),
            _ => statement_answer(alloc, unit, kind, rows, given),
        }
    }
}

fn main(rt: HostRuntime) -> ExitCode {
    tell(&rt, &Program)
}
