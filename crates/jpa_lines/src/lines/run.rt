//! The run over lines.
ghost use Rattle.std.specs.Prelude.{◌≡◌, ◌≤◌, ◌∷◌, [], ◌++◌, ℕ, List, length, take, IfOk, IfErr, OnOk, OnErr};
ghost use Rattle.std.specs.Io.{StartsWith};
ghost use Rattle.std.specs.Io.KnownBytes.{Appends};
ghost use Rattle.jpa_lines.specs.declared.lines.run.RunFault.TheVariants.{Write as write_fault, Memory as memory_fault};
ghost use Rattle.jpa_lines.specs.lines.Run.{Answers, ServesLine, BreaksLine, GoesOn, BreaksOff, Finishes, FailsToFinish, Served, Broken, AnswersRead, IsNoRead, IsUnbroken, kept_len};

use crate::lines::reading::read_call;
use crate::lines::writing::write_reply;
use jpa_protocol::{PersistenceProvider, Reply};
use jpa_value::{Cause, Refusal, Seq};
use jpql_trees::tree::Language;
use memchr::memchr;
use std::alloc::Global;
use std::io::{Read, Write};
use thiserror::Error;

/// How many reads a run makes.
pub const MOST_READS: u64 = 1 << 40;

/// How much of a line is kept: enough to see that it is too long.
const KEPT_LEN: usize = 1_048_577;

const PIECE_LEN: usize = 8192;

/// Why a run broke off: the input or the output failed, or memory ran out for a line or a reply.
#[derive(Clone, Copy, Debug, PartialEq, Eq, Error)]
pub enum RunFault {
    #[error("read")]
    Read,
    #[error("write")]
    Write,
    #[error("memory")]
    Memory,
}

/// Answers each line of the input by a reply, until the input ends, as what it means in the language.
/// Of a line at most
/// `MOST_LINE_BYTES` + 1 bytes are kept; what is past them is skipped to its line feed. The output
/// is flushed whenever the lines that were read are answered.
///
/// Where a fault ends the run, the lines before it are answered and their replies written, but for
/// at most the last one, whose call is done: of its reply a front is written after `Write` and
/// nothing after `Memory`. After `Read` all whole lines that were read are answered, and their
/// replies written. More than `MOST_READS` reads are a `Read` fault.
///
/// What stands between calls stands at the end, whatever the input, also where the run breaks off.
pub fn run<R: Read, W: Write, P: PersistenceProvider>(
    alloc: Global,
    language: Language,
    reader: &mut R,
    writer: &mut W,
    provider: &mut P,
) -> Result<(), RunFault>
    ensures ok { OnOk result (Served language P.steps provider.old provider.new
        (R.remaining reader.old) (W.contents writer.old) (W.contents writer.new)) }
    ensures err { IfErr result (λ fault. Broken language P.steps provider.old provider.new fault
        (R.remaining reader.old) (W.contents writer.old) (W.contents writer.new)) }
    ensures read { IfErr result (λ fault. AnswersRead language P.steps provider.old
        provider.new fault (R.remaining reader.old) (R.remaining reader.new) (W.contents writer.old)
        (W.contents writer.new)) }
    ensures stands { P.stands provider.old → P.stands provider.new }
{
    answer_lines(alloc, language, reader, writer, provider)
}

fn answer_lines<R: Read, W: Write, P: PersistenceProvider>(
    alloc: Global,
    language: Language,
    reader: &mut R,
    writer: &mut W,
    provider: &mut P,
) -> Result<(), RunFault>
    ensures ok { OnOk result (Served language P.steps provider.old provider.new
        (R.remaining reader.old) (W.contents writer.old) (W.contents writer.new)) }
    ensures err { IfErr result (λ fault. Broken language P.steps provider.old provider.new fault
        (R.remaining reader.old) (W.contents writer.old) (W.contents writer.new)) }
    ensures read { IfErr result (λ fault. AnswersRead language P.steps provider.old
        provider.new fault (R.remaining reader.old) (R.remaining reader.new) (W.contents writer.old)
        (W.contents writer.new)) }
{
    let mut held = Vec::new(alloc);
    let mut piece = [0u8; PIECE_LEN];
    'reads: for _ in 0..MOST_READS {
        let Ok(count) = reader.read(&mut piece) else {
            return Err(RunFault::Read);
        };
        if count == 0 {
            return finish(alloc, language, held.as_slice(), writer, provider);
        }
        take_piece(
            alloc,
            language,
            &piece[..count],
            &mut held,
            writer,
            provider,
        )?;
        if writer.flush().is_err() {
            return Err(RunFault::Write);
        }
    }
    Err(RunFault::Read)
}

fn finish<W: Write, P: PersistenceProvider>(
    alloc: Global,
    language: Language,
    held: &[u8],
    writer: &mut W,
    provider: &mut P,
) -> Result<(), RunFault>
    ensures ok { OnOk result (Finishes language P.steps provider.old provider.new held.now
        (W.contents writer.old) (W.contents writer.new)) }
    ensures err { IfErr result (λ fault. FailsToFinish language P.steps provider.old provider.new
        fault held.now (W.contents writer.old) (W.contents writer.new)) }
    ensures no_read { IfErr result IsNoRead }
{
    if held.is_empty() {
        Ok(())
    } else {
        serve_last(alloc, language, held, writer, provider)
    }
}

/// Serves the line that ends the input, and flushes its reply.
fn serve_last<W: Write, P: PersistenceProvider>(
    alloc: Global,
    language: Language,
    line: &[u8],
    writer: &mut W,
    provider: &mut P,
) -> Result<(), RunFault>
    ensures ok { OnOk result (ServesLine language P.steps provider.old provider.new line.now
        (W.contents writer.old) (W.contents writer.new)) }
    ensures err { IfErr result (λ fault. BreaksLine language P.steps provider.old provider.new fault
        line.now (W.contents writer.old) (W.contents writer.new)) }
    ensures no_read { IfErr result IsNoRead }
{
    serve(alloc, language, line, writer, provider)?;
    if writer.flush().is_err() {
        return Err(RunFault::Write);
    }
    Ok(())
}

fn take_piece<W: Write, P: PersistenceProvider>(
    alloc: Global,
    language: Language,
    piece: &[u8],
    held: &mut Vec<u8>,
    writer: &mut W,
    provider: &mut P,
) -> Result<(), RunFault>
    ensures ok { OnOk result (GoesOn language P.steps provider.old provider.new held.old.items
        held.new.items piece.now (W.contents writer.old) (W.contents writer.new)) }
    ensures err { IfErr result (λ fault. BreaksOff language P.steps provider.old provider.new fault
        held.old.items piece.now (W.contents writer.old) (W.contents writer.new)) }
    ensures no_read { IfErr result IsNoRead }
{
    let mut done = 0;
    'lines: while let Some(len) = memchr(b'\n', &piece[done..]) {
        take_end(
            alloc,
            language,
            &piece[done..done + len],
            held,
            writer,
            provider,
        )?;
        done += len + 1;
    }
    hold(held, &piece[done..])
}

/// Takes the end of a line, of which the front is held.
fn take_end<W: Write, P: PersistenceProvider>(
    alloc: Global,
    language: Language,
    end: &[u8],
    held: &mut Vec<u8>,
    writer: &mut W,
    provider: &mut P,
) -> Result<(), RunFault>
    requires { IsUnbroken end.now }
    ensures ok { OnOk result (GoesOn language P.steps provider.old provider.new held.old.items
        held.new.items (end.now ++ 10 ∷ []) (W.contents writer.old) (W.contents writer.new)) }
    ensures err { IfErr result (λ fault. BreaksOff language P.steps provider.old provider.new fault
        held.old.items (end.now ++ 10 ∷ []) (W.contents writer.old) (W.contents writer.new)) }
    ensures no_read { IfErr result IsNoRead }
{
    hold(held, end)?;
    serve(alloc, language, held.as_slice(), writer, provider)?;
    held.clear();
    Ok(())
}

/// Holds the bytes too, of which those past what is kept of a line are skipped.
fn hold(held: &mut Vec<u8>, bytes: &[u8]) -> Result<(), RunFault>
    ensures ok { OnOk result (length held.old.items ≤ kept_len
        → held.new.items ≡ take kept_len (held.old.items ++ bytes.now)) }
    ensures no_read { IfErr result IsNoRead }
{
    let room = KEPT_LEN.saturating_sub(held.len());
    let kept = bytes.len().min(room);
    match held.extend_from_slice(&bytes[..kept]) {
        Ok(()) => Ok(()),
        Err(_) => Err(RunFault::Memory),
    }
}

fn serve<W: Write, P: PersistenceProvider>(
    alloc: Global,
    language: Language,
    line: &[u8],
    writer: &mut W,
    provider: &mut P,
) -> Result<(), RunFault>
    ensures ok { OnOk result (ServesLine language P.steps provider.old provider.new line.now
        (W.contents writer.old) (W.contents writer.new)) }
    ensures err { IfErr result (λ fault. BreaksLine language P.steps provider.old provider.new fault
        line.now (W.contents writer.old) (W.contents writer.new)) }
    ensures no_read { IfErr result IsNoRead }
{
    let reply = answer(alloc, language, line, provider)?;
    let Ok(text) = write_reply(alloc, &reply) else {
        return Err(RunFault::Memory);
    };
    write_text(writer, text.as_slice())
}

fn answer<P: PersistenceProvider>(
    alloc: Global,
    language: Language,
    line: &[u8],
    provider: &mut P,
) -> Result<Reply, RunFault>
    ensures ok { IfOk result (λ reply. Answers language P.steps provider.old line.now
        reply provider.new) }
    ensures err { IfErr result (λ fault. (fault ≡ memory_fault)
        × (provider.new ≡ provider.old)) }
{
    match read_call(alloc, language, line) {
        Ok(call) => Ok(provider.call(call)),
        Err(Cause::OutOfMemory) => Err(RunFault::Memory),
        Err(cause) => Ok(Reply {
            events: Seq::new(alloc),
            answer: Err(Refusal::Because(cause)),
        }),
    }
}

/// Writes a text. Fails with `Write` alone, where the output fails, of which a front of the text is
/// written then.
pub fn write_text<W: Write>(writer: &mut W, text: &[u8]) -> Result<(), RunFault>
    ensures ok { OnOk result (Appends (W.contents writer.old) (W.contents writer.new) text.now) }
    ensures err { IfErr result (λ fault. (fault ≡ write_fault)
        × ((part : List ℕ) × StartsWith text.now part
        × Appends (W.contents writer.old) (W.contents writer.new) part)) }
{
    let mut done = 0;
    while done < text.len() {
        match writer.write(&text[done..]) {
            Ok(count) if count > 0 => done += count,
            _ => return Err(RunFault::Write),
        }
    }
    Ok(())
}
