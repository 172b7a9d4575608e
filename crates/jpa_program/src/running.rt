//! The run over lines.
ghost use Rattle.jpa_provider.specs.Provided.{Steps, world_in};
ghost use Rattle.jpa_machine.specs.machine.Step.{Step};
ghost use Rattle.jpa_program.specs.Isolation.{IsolatesRuns};
ghost use Rattle.jpa_program.specs.Run.{EndsAs, HoldsCommitted, ServesSame, rows_over};

use jpa_behaviour::Behaviour;
use jpa_cells::rowspace::RowSpace;
use jpa_lines::lines::RunFault;
use jpa_lines::lines::run::run as run_lines;
use jpa_provider::Provider;
use sqlite::Alter;
use std::alloc::Global;
use std::io::{Read, Write};

/// Answers each line of the input by a reply, until the input ends, as what it means in the
/// provider's language. The replies are those of steps of the machine, and the machine at the end is
/// the one that the steps lead to.
///
/// Where a fault ends the run, the lines before it are answered and their replies written, but for
/// at most the last one, whose call is done: of its reply a front is written after `Write` and
/// nothing after `Memory`. After `Read` all whole lines that were read are answered, and their
/// replies written.
///
/// Each call between them keeps the promise of a call: only a commit that is accepted changes what
/// is committed, and writes just what differs; a crash at any moment leaves what was committed
/// before a call or after it; a fault of the store is told where there is one.
///
/// What is committed at the end is what was committed at first, with what the accepted commits
/// changed, in the order of their replies; no other line changes it, nor a call that gave up. Each
/// of these commits found what it changed, and what it held locked to be read, committed as it was
/// when its transaction began. What others did meanwhile a transaction didn't see.
///
/// However it ends, the cells of the store are those of the objects that were committed last, and
/// of the next numbers that were stored with them: no others, and all of them.
pub fn run<S: Alter, B: Behaviour, R: Read, W: Write>(
    alloc: Global,
    reader: &mut R,
    writer: &mut W,
    provider: &mut Provider<RowSpace<S>, B>,
) -> Result<(), RunFault>
    ensures machine { EndsAs provider.old.registry.language
        (Step (world_in B.meaning provider.old)) provider.old.machine provider.new.machine result
        (R.remaining reader.old) (R.remaining reader.new)
        (W.contents writer.old) (W.contents writer.new) }
    ensures calls { EndsAs provider.old.registry.language (Steps B.meaning (rows_over S.Store))
        provider.old provider.new result (R.remaining reader.old) (R.remaining reader.new)
        (W.contents writer.old) (W.contents writer.new) }
    ensures isolated { IsolatesRuns B.meaning (rows_over S.Store) provider.old }
    ensures unit { ServesSame provider.old provider.new }
    ensures cells { HoldsCommitted S.Store B.meaning provider.new }
{
    let ran = run_lines(alloc, provider.language(), reader, writer, provider);
    provider.stands();
    ran
}
