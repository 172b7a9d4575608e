//! Reads and writes that fail.
use super::{FIRST_CALLS, FIRST_CELLS, FIRST_REPLIES, joined, run_over};
use jpa_lines::lines::RunFault;
use std::alloc::{AllocError, Global};
use std::io;
use std::io::{Read, Write};
use std::test::Fail;

const NEVER: u64 = u64::MAX;

// ---- a reader and a writer that fail

/// Gives so many bytes a read, and fails at a given read.
#[derive(Drop)]
struct Reads<'a> {
    left: &'a [u8],
    most: usize,
    reads: u64,
    fails_at: u64,
}

impl Read for Reads<'_> {
    fn read(&mut self, buf: &mut [u8]) -> io::Result<usize> {
        if self.reads == self.fails_at {
            return Err(io::Error::from(io::ErrorKind::Other));
        }
        self.reads = self.reads.saturating_add(1);
        let most = buf.len().min(self.most);
        self.left.read(&mut buf[..most])
    }
}

/// Takes at most three bytes a write, and fails at a given write or flush.
#[derive(Drop)]
struct Writes {
    taken: Vec<u8>,
    writes: u64,
    fails_at: u64,
}

impl Writes {
    fn step(&mut self) -> io::Result<()> {
        if self.writes == self.fails_at {
            return Err(io::Error::from(io::ErrorKind::Other));
        }
        self.writes = self.writes.saturating_add(1);
        Ok(())
    }
}

impl Write for Writes {
    fn write(&mut self, buf: &[u8]) -> io::Result<usize> {
        self.step()?;
        let most = buf.len().min(3);
        self.taken.extend_from_slice(&buf[..most])?;
        Ok(most)
    }

    fn flush(&mut self) -> io::Result<()> {
        self.step()
    }
}

/// How a run ended, what it wrote, and the cells that it left; an error where memory was refused.
fn ran_with(
    alloc: Global,
    input: &[u8],
    most: usize,
    fails_at: (u64, u64),
) -> Result<(Result<(), RunFault>, Vec<u8>, String), Fail> {
    let mut reader = Reads {
        left: input,
        most,
        reads: 0,
        fails_at: fails_at.0,
    };
    let mut writer = Writes {
        taken: Vec::with_capacity(alloc, 4096)?,
        writes: 0,
        fails_at: fails_at.1,
    };
    let (ended, cells) = run_over(alloc, &mut reader, &mut writer)?;
    if ended == Err(RunFault::Memory) {
        ended?;
    }
    Ok((ended, writer.taken, cells))
}

/// The cells after the first so many calls were answered.
fn cells_after(alloc: Global, calls: usize) -> Result<String, AllocError> {
    if calls < 6 {
        return Ok(String::new(alloc));
    }
    joined(alloc, &FIRST_CELLS)
}

// ---- the tests

// Each read fails in turn: the lines that were read are answered, and what was committed stands.
#[test]
fn reads_fail(rt: HostRuntime) -> Result<(), Fail> {
    let a = rt.alloc();
    let text = joined(a, &FIRST_CALLS)?;
    for (read, answered) in [0, 1, 1, 2, 3, 4, 5, 6, 6, 7].into_iter().enumerate() {
        let (ended, written, cells) = ran_with(a, text.as_bytes(), 31, (read as u64, NEVER))?;
        assert_eq!(rt; ended, Err(RunFault::Read));
        let want = joined(a, &FIRST_REPLIES[..answered])?;
        assert_eq!(rt; written.as_slice(), want.as_bytes(), "at read {read}");
        assert_eq!(rt; cells, cells_after(a, answered)?);
    }
    Ok(())
}

// Each write fails in turn: a front of the replies is written, and the cells are those of a front
// of the calls.
#[test]
fn writes_fail(rt: HostRuntime) -> Result<(), Fail> {
    let a = rt.alloc();
    let text = joined(a, &FIRST_CALLS)?;
    let all = joined(a, &FIRST_REPLIES)?;
    let before_commit = joined(a, &FIRST_REPLIES[..5])?.len();
    for write in 0..82 {
        let (ended, written, cells) = ran_with(a, text.as_bytes(), 31, (NEVER, write))?;
        assert_eq!(rt; ended, Err(RunFault::Write), "at write {write}");
        assert!(rt;
            all.as_bytes().starts_with(written.as_slice()),
            "at write {write}"
        );
        let committed = cells == cells_after(a, 6)?;
        assert!(rt; committed || cells.is_empty(), "at write {write}");
        assert!(rt;
            committed || written.len() <= before_commit,
            "at write {write}"
        );
        assert!(rt;
            !committed || written.len() >= before_commit,
            "at write {write}"
        );
    }
    let (ended, written, cells) = ran_with(a, text.as_bytes(), 31, (NEVER, 82))?;
    assert_eq!(rt; ended, Ok(()));
    assert_eq!(rt; written.as_slice(), all.as_bytes());
    assert_eq!(rt; cells, cells_after(a, 6)?);
    Ok(())
}
