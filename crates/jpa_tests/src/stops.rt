//! Disks that stop at one of their calls: what stands then is what stood before a commit, or after
//! it.
ghost use Rattle.std.specs.Prelude.{IsTrue, IfOk};
ghost use Rattle.sqlite_disk.specs.Memory.{memory_is_usable};
ghost use Rattle.jpa_cells.specs.meaning.Store.{IsOrderedIfFound};

use crate::cells::{FIRST, FIRST_CHANGES, Line, SECOND, SECOND_CHANGES, is_refused, shows};
use jpa_cells::cells::CellStore;
use jpa_value::Cause;
use sqlite::{Alter, Connection, Error, ErrorCode, FileStore, Files, Options};
use sqlite_disk::{Disk, Fuse, Memory};
use std::alloc::Global;
use std::process::Abort;
use std::test::Fail;

type Device = Fuse<Memory>;

/// How many steps of a run were acknowledged, whether the disk stopped, and the files that are
/// left.
#[derive(Drop)]
struct Left<D: Disk> {
    acknowledged: usize,
    stopped: bool,
    files: Files<D>,
}

/// Passes on that memory was refused; any other error is a stop of the disk.
fn stopped_by(error: &Error) -> Result<(), Fail> {
    match error {
        Error::SqliteFailure(ErrorCode::OutOfMemory) => Err(Fail::from(Cause::OutOfMemory)),
        _ => Ok(()),
    }
}

/// Closes the files, as far as the disk allows.
fn closed<D: Disk + Drop>(
    conn: Connection<FileStore<D>>,
    acknowledged: usize,
) -> Result<Left<D>, Fail> {
    match conn.close_files() {
        Ok(files) => Ok(Left {
            acknowledged,
            stopped: acknowledged < 3,
            files,
        }),
        Err((error, store)) => {
            let files = store.close();
            stopped_by(&error)?;
            Ok(Left {
                acknowledged,
                stopped: true,
                files,
            })
        }
    }
}

/// Writes the first cells and then the second, until the disk stops, and answers how many steps
/// were acknowledged.
fn write_steps<S: Alter>(alloc: Global, store: &mut CellStore<S>) -> Result<usize, Fail> {
    if is_refused(alloc, store, FIRST_CHANGES)? {
        return Ok(1);
    }
    if is_refused(alloc, store, SECOND_CHANGES)? {
        return Ok(2);
    }
    Ok(3)
}

/// The steps over a connection: how many were acknowledged, of which the opening is the first.
fn written<S: Alter + Drop>(
    alloc: Global,
    conn: Connection<S>,
) -> Result<(usize, Connection<S>), Fail>
    requires { IsOrderedIfFound S.Store conn }
{
    let mut store = match CellStore::open(alloc, conn) {
        Ok(store) => store,
        Err((Cause::StoreFault, conn)) => return Ok((0, conn)),
        Err((cause, _)) => return Err(Fail::from(cause)),
    };
    let steps = write_steps(alloc, &mut store)?;
    Ok((steps, store.into_connection()))
}

/// Opens, and writes the first cells and then the second, until the disk stops.
fn run<D: Disk + Drop>(alloc: Global, files: Files<D>) -> Result<Left<D>, Fail>
    requires log { IsTrue (D.Disk.is_usable files.log) }
    requires db { IsTrue (D.Disk.is_usable files.db) }
{
    match Connection::open_files(alloc, files, Options::new(7)) {
        Ok(conn) => {
            let (steps, conn) = written(alloc, conn)?;
            closed(conn, steps)
        }
        Err((error, rest)) => {
            let files = rest.into_files();
            stopped_by(&error)?;
            Ok(Left {
                acknowledged: 0,
                stopped: true,
                files,
            })
        }
    }
}

fn copy(alloc: Global, device: &Device) -> Result<Memory, Fail>
    ensures { IfOk result (λ memory. IsTrue (memory_is_usable memory)) }
{
    let mut memory = Memory::new(alloc);
    memory.write_at(0, device.inner().bytes())?;
    Ok(memory)
}

fn copies(alloc: Global, files: &Files<Device>) -> Result<Files<Memory>, Fail>
    ensures { IfOk result (λ files. IsTrue (memory_is_usable files.log)
        × IsTrue (memory_is_usable files.db)) }
{
    Ok(Files {
        log: copy(alloc, &files.log)?,
        db: copy(alloc, &files.db)?,
    })
}

/// The cells after so many steps.
fn lines(steps: usize) -> &'static [Line] {
    match steps {
        0 | 1 => &[],
        2 => FIRST,
        _ => SECOND,
    }
}

/// Whether the cells are those after so many steps, or after the next one.
fn stands<S: Alter>(store: &mut CellStore<S>, steps: usize) -> Result<bool, Cause> {
    if shows(store, lines(steps))? {
        return Ok(true);
    }
    shows(store, lines(steps.saturating_add(1)))
}

/// Opens the files again, and finds the cells of the last step that was acknowledged, or of the
/// next one.
fn is_whole<D: Disk + Drop>(
    alloc: Global,
    acknowledged: usize,
    files: Files<D>,
) -> Result<bool, Fail>
    requires log { IsTrue (D.Disk.is_usable files.log) }
    requires db { IsTrue (D.Disk.is_usable files.db) }
{
    let conn = match Connection::open_files(alloc, files, Options::new(7)) {
        Ok(conn) => conn,
        Err((error, _)) => return Err(Fail::from(error)),
    };
    is_whole_over(alloc, acknowledged, conn)
}

fn is_whole_over<S: Alter + Drop>(
    alloc: Global,
    acknowledged: usize,
    conn: Connection<S>,
) -> Result<bool, Fail>
    requires { IsOrderedIfFound S.Store conn }
{
    let mut store = match CellStore::open(alloc, conn) {
        Ok(store) => store,
        Err((cause, _)) => return Err(Fail::from(cause)),
    };
    Ok(stands(&mut store, acknowledged)?)
}

/// Whether a run that is stopped at these calls of the log and of the database was stopped; what it
/// leaves is whole.
fn stops_whole(alloc: Global, log_calls: u64, db_calls: u64) -> Result<bool, Fail> {
    let files = Files {
        log: Fuse::new(Memory::new(alloc), log_calls),
        db: Fuse::new(Memory::new(alloc), db_calls),
    };
    let left = run(alloc, files)?;
    let files = copies(alloc, &left.files)?;
    if !is_whole(alloc, left.acknowledged, files)? {
        return Err(Fail::from("a stop left cells in between"));
    }
    Ok(left.stopped)
}

/// The number of calls of the log, or of the database, of a run that isn't stopped; each one before
/// stops a run.
fn calls_of(alloc: Global, of_log: bool) -> Result<u64, Fail> {
    for calls in 0..1000 {
        let (log, db) = if of_log {
            (calls, u64::MAX)
        } else {
            (u64::MAX, calls)
        };
        if !stops_whole(alloc, log, db)? {
            return Ok(calls);
        }
    }
    Err(Fail::from("each run was stopped"))
}

#[test]
fn a_stop_leaves_what_was_before_or_after(rt: HostRuntime) -> Result<(), Fail> {
    assert!(rt; calls_of(rt.alloc(), true)? > 20);
    assert!(rt; calls_of(rt.alloc(), false)? > 2);
    Ok(())
}
