//! The answer to a question, written.
ghost use Rattle.std.specs.Prelude.{List, Result};
ghost use Rattle.jpa_value.specs.declared.refusal.Cause.{Cause};
ghost use Rattle.jpa_rows.specs.rows.Tables.{schema_of};
ghost use Rattle.jpa_cells.specs.meaning.Store.{IsOrderedIfFound};
ghost use Rattle.jpql_meaning.specs.declared.eval.datum.Datum.{Datum};
ghost use Rattle.jpa_questions.specs.questions.Asking.{LeavesRows};
ghost use Rattle.jpa_questions.specs.questions.Telling.{IsFound, TellsAnswer};

use crate::questions::line::write_rows;
use crate::questions::question::Question;
use crate::questions::store::ask_store;
use jpa_behaviour::{Behaviour, ServedUnit};
use jpa_lines::lines::{RunFault, write_text};
use jpa_model::Metamodel;
use jpa_value::{Cause, Seq};
use jpql_meaning::eval::Datum;
use sqlite::{Alter, Connection};
use std::alloc::Global;
use std::io::Write;

/// Why a question isn't answered to its end.
#[derive(Debug, Drop)]
pub enum Untold {
    /// It is refused.
    Refused(Cause),
    /// The output failed.
    Broken(RunFault),
}

/// Writes what was found: its rows, a line each.
fn tell_answer<W: Write>(
    alloc: Global,
    metamodel: &Metamodel,
    answer: Result<Seq<Seq<Datum>>, Cause>,
    writer: &mut W,
) -> Result<(), Untold>
    ensures { TellsAnswer metamodel.now (W.contents writer.old) (W.contents writer.new) answer
        result }
{
    let rows = match answer {
        Ok(rows) => rows,
        Err(cause) => return Err(Untold::Refused(cause)),
    };
    let text = match write_rows(alloc, metamodel, rows.as_slice()) {
        Ok(text) => text,
        Err(cause) => return Err(Untold::Refused(cause)),
    };
    match write_text(writer, text.as_slice()) {
        Ok(()) => Ok(()),
        Err(fault) => Err(Untold::Broken(fault)),
    }
}

/// Writes the rows that a question finds in the store of a connection, as `ask_store` finds them: a
/// line for each, in their order, as `write_row` writes it, and nothing else. It answers the
/// connection too, which has the rows that it had; nothing is committed.
///
/// `Refused` as `ask_store` refuses, and with `OutOfMemory` where a growth for the lines was refused:
/// then nothing is written. `Broken` with `Write` where the output fails: a front of the lines is
/// written.
pub fn tell_rows<S: Alter + Drop, B: Behaviour, W: Write>(
    alloc: Global,
    conn: Connection<S>,
    unit: &ServedUnit<B>,
    question: &Question,
    writer: &mut W,
) -> (Result<(), Untold>, Connection<S>)
    requires ordered { IsOrderedIfFound S.Store conn }
    ensures told { (answer : Result (List (List Datum)) Cause)
        × IsFound S.Store B.meaning unit.now question.now conn result.1 answer
        × TellsAnswer unit.now.metamodel (W.contents writer.old) (W.contents writer.new) answer
        result.0 }
    ensures kept { LeavesRows S.Store (schema_of unit.now.metamodel) conn result.1 }
    ensures again { IsOrderedIfFound S.Store result.1 }
{
    let (answer, last) = ask_store(alloc, conn, unit, question);
    let told = tell_answer(alloc, &unit.metamodel, answer, writer);
    (told, last)
}
