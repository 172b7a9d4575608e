//! Runs over a disk that stops at one of its calls: the commit that meets it answers `StoreFault`,
//! and what stands then is what stood before that commit, or after it.
ghost use Rattle.std.specs.Prelude.{IsTrue, IfOk};
ghost use Rattle.sqlite_disk.specs.Memory.{memory_is_usable};
ghost use Rattle.jpa_cells.specs.meaning.Store.{IsOrderedIfFound};

use super::refused::is_refused_growth;
use super::stages::{Answered, ORDERS, PERSON, Stage};
use super::{cells_in, joined, opened_over};
use jpa_lines::lines::{read_call, write_reply};
use jpa_protocol::PersistenceProvider;
use jpa_value::Cause;
use jpql_trees::tree::Language;
use sqlite::{Alter, Connection, Error, ErrorCode, Files, Options};
use sqlite_disk::{Disk, Fuse, Memory};
use std::alloc::{AllocError, Global};
use std::process::Abort;
use std::test::Fail;

type Device = Fuse<Memory>;

const NEVER: u64 = u64::MAX;

const FAULT: &str = r#"{"error":{"name":"StoreFault","no":2},"events":[]}"#;

// ---- the calls of a run

/// The reply to the call on a line, without its line feed; an error where memory was refused.
fn reply_to<P: PersistenceProvider>(
    alloc: Global,
    provider: &mut P,
    line: &str,
) -> Result<Vec<u8>, Cause> {
    let reply = provider.call(read_call(alloc, Language::Profile, line.as_bytes())?);
    if is_refused_growth(&reply) {
        return Err(Cause::OutOfMemory);
    }
    let mut text = write_reply(alloc, &reply)?;
    let _ = text.pop();
    Ok(text)
}

/// Each call is answered as it should be.
fn see_calls<P: PersistenceProvider>(
    rt: &impl Abort,
    alloc: Global,
    provider: &mut P,
    calls: &[Answered],
) -> Result<(), Fail> {
    for (call, wanted) in calls {
        let reply = reply_to(alloc, provider, call)?;
        assert_eq!(rt; reply.as_slice(), wanted.as_bytes(), "to {call}");
    }
    Ok(())
}

/// Whether the commit of a stage meets no stop. One that does answers `StoreFault` and changes
/// nothing.
fn ends_stage<P: PersistenceProvider>(
    rt: &impl Abort,
    alloc: Global,
    provider: &mut P,
    stage: &Stage,
) -> Result<bool, Fail> {
    see_calls(rt, alloc, provider, stage.calls)?;
    let (commit, wanted) = stage.commit;
    let reply = reply_to(alloc, provider, commit)?;
    if reply.as_slice() == FAULT.as_bytes() {
        see_calls(rt, alloc, provider, stage.left)?;
        return Ok(false);
    }
    assert_eq!(rt; reply.as_slice(), wanted.as_bytes(), "to {commit}");
    Ok(true)
}

/// How many steps are taken until the disk stops. The first step, the opening, is taken.
fn steps_of<P: PersistenceProvider>(
    rt: &impl Abort,
    alloc: Global,
    provider: &mut P,
    stages: &[Stage],
) -> Result<usize, Fail> {
    let mut steps = 1;
    for stage in stages {
        if !ends_stage(rt, alloc, provider, stage)? {
            return Ok(steps);
        }
        steps = steps.saturating_add(1);
    }
    Ok(steps)
}

// ---- a run over files

/// No step is taken where the opening of the store meets the stop, which is `StoreFault`.
fn refused(cause: Cause) -> Result<usize, Fail> {
    match cause {
        Cause::StoreFault => Ok(0),
        _ => Err(Fail::from(cause)),
    }
}

/// How many steps a run takes over a connection, and the connection.
fn served<S: Alter + Drop>(
    rt: &impl Abort,
    alloc: Global,
    conn: Connection<S>,
    stages: &[Stage],
) -> (Result<usize, Fail>, Connection<S>)
    requires { IsOrderedIfFound S.Store conn }
{
    match opened_over(alloc, conn) {
        Ok(mut provider) => {
            let steps = steps_of(rt, alloc, &mut provider, stages);
            (steps, provider.into_rows().store.into_connection())
        }
        Err((cause, conn)) => (refused(cause), conn),
    }
}

/// No step is taken where the disk stops at the opening of its files; an error where memory was
/// refused.
fn no_steps(error: &Error) -> Result<usize, Fail> {
    match error {
        Error::SqliteFailure(ErrorCode::OutOfMemory) => Err(Fail::from(Cause::OutOfMemory)),
        _ => Ok(0),
    }
}

/// Few pages are kept in memory, so that an opening is cheap. Each commit first copies the log of
/// those before it into the database, so that it meets the stops of both files.
fn options() -> Options {
    let mut options = Options::new(7);
    options.cache_pages = 8;
    options.checkpoint_frames = 1;
    options
}

/// How many steps a run takes over these files, and what it leaves of them.
fn run<D: Disk + Drop>(
    rt: &impl Abort,
    alloc: Global,
    files: Files<D>,
    stages: &[Stage],
) -> (Result<usize, Fail>, Files<D>)
    requires log { IsTrue (D.Disk.is_usable files.log) }
    requires db { IsTrue (D.Disk.is_usable files.db) }
{
    match Connection::open_files(alloc, files, options()) {
        Ok(conn) => {
            let (steps, conn) = served(rt, alloc, conn, stages);
            (steps, conn.into_store().close())
        }
        Err((error, rest)) => (no_steps(&error), rest.into_files()),
    }
}

// ---- what is left

fn copy(alloc: Global, device: &Device) -> Result<Memory, Fail>
    ensures { IfOk result (λ memory. IsTrue (memory_is_usable memory)) }
{
    let mut memory = Memory::new(alloc);
    memory.write_at(0, device.inner().bytes())?;
    Ok(memory)
}

fn copies(alloc: Global, files: &Files<Device>) -> Result<Files<Memory>, Fail>
    ensures { IfOk result (λ files. IsTrue (memory_is_usable files.log)
        × IsTrue (memory_is_usable files.db)) }
{
    Ok(Files {
        log: copy(alloc, &files.log)?,
        db: copy(alloc, &files.db)?,
    })
}

/// The cells that the next opening finds.
fn cells_of<D: Disk + Drop>(alloc: Global, files: Files<D>) -> Result<String, Fail>
    requires log { IsTrue (D.Disk.is_usable files.log) }
    requires db { IsTrue (D.Disk.is_usable files.db) }
{
    match Connection::open_files(alloc, files, options()) {
        Ok(conn) => cells_in(alloc, conn),
        Err((error, _)) => Err(Fail::from(error)),
    }
}

/// The cells after so many commits; after the last one, if there are not so many.
fn lines_after(stages: &[Stage], commits: usize) -> &'static [&'static str] {
    match stages[..commits.min(stages.len())].last() {
        Some(stage) => stage.cells,
        None => &[],
    }
}

/// Whether the cells are those after so many steps, or after the next one. The opening leaves none.
fn stands(
    alloc: Global,
    stages: &[Stage],
    steps: usize,
    cells: &String,
) -> Result<bool, AllocError> {
    let before = joined(alloc, lines_after(stages, steps.saturating_sub(1)))?;
    let after = joined(alloc, lines_after(stages, steps))?;
    Ok(*cells == before || *cells == after)
}

// ---- the test

/// How many steps a run takes over a disk that stops after so many calls of the log and of the
/// database. What it leaves is whole.
fn steps_until(
    rt: &impl Abort,
    alloc: Global,
    stages: &[Stage],
    log: u64,
    db: u64,
) -> Result<usize, Fail> {
    let files = Files {
        log: Fuse::new(Memory::new(alloc), log),
        db: Fuse::new(Memory::new(alloc), db),
    };
    let (steps, left) = run(rt, alloc, files, stages);
    let steps = steps?;
    let cells = cells_of(alloc, copies(alloc, &left)?)?;
    assert!(rt;
        stands(alloc, stages, steps, &cells)?,
        "after {log} calls of the log and {db} of the database"
    );
    Ok(steps)
}

/// Each call of the log, or of the database, stops a run in its turn, until none does: how many
/// commits answered `StoreFault`.
fn faults_of(
    rt: &impl Abort,
    alloc: Global,
    stages: &[Stage],
    of_log: bool,
) -> Result<usize, Fail> {
    let mut faults: usize = 0;
    for calls in 0..1000 {
        let (log, db) = if of_log {
            (calls, NEVER)
        } else {
            (NEVER, calls)
        };
        let steps = steps_until(rt, alloc, stages, log, db)?;
        if steps > stages.len() {
            return Ok(faults);
        }
        if steps > 0 {
            faults = faults.saturating_add(1);
        }
    }
    Err(Fail::from("each run was stopped"))
}

// What the log or the database refuses is met by an opening, which is refused, or by a commit.
#[test]
fn disks_stop(rt: HostRuntime) -> Result<(), Fail> {
    let a = rt.alloc();
    for stages in [PERSON, ORDERS] {
        assert!(rt; faults_of(&rt, a, stages, true)? > 20);
        assert!(rt; faults_of(&rt, a, stages, false)? > 5);
    }
    Ok(())
}
