//! Runs of the program over a store in memory: reads and writes that fail, and memory that is
//! refused. Input that ends anywhere is tried over the built program (tests/input.py).
ghost use Rattle.std.specs.Prelude.{◌≡◌};
ghost use Rattle.jpa_cells.specs.meaning.Store.{IsOrderedIfFound};

use jpa_behaviour::{Registry, ServedUnit};
use jpa_cells::cells::{CellRow, CellStore};
use jpa_cells::rowspace::RowSpace;
use jpa_description::history::History;
use jpa_json::functions::ProgramFunctions;
use jpa_lines::lines::RunFault;
use jpa_program::{first_unit, open, run};
use jpa_provider::Provider;
use jpa_value::{Cause, Seq};
use jpql_trees::tree::Language;
use sqlite::{Alter, Connection, MemStore};
use std::alloc::{AllocError, Global};
use std::io::{Read, Write};
use std::process::Abort;
use std::test::Fail;

mod counts;
mod hostile;
mod refused;
mod stages;
mod stopped;

// ---- a person is persisted and found

const FIRST_CALLS: [&str; 7] = [
    "{\"call\":\"createEntityManager\"}",
    "{\"call\":\"new\",\"entity\":\"Person\"}",
    "{\"call\":\"set\",\"object\":1,\"name\":\"name\",\"value\":\"Ada\"}",
    "{\"call\":\"begin\",\"em\":1}",
    "{\"call\":\"persist\",\"em\":1,\"object\":1}",
    "{\"call\":\"commit\",\"em\":1}",
    "{\"call\":\"find\",\"em\":1,\"entity\":\"Person\",\"key\":[1]}",
];

const FIRST_REPLIES: [&str; 7] = [
    "{\"events\":[],\"ok\":1}",
    "{\"events\":[],\"ok\":{\"object\":1}}",
    "{\"events\":[],\"ok\":null}",
    "{\"events\":[],\"ok\":null}",
    "{\"events\":[[\"PrePersist\",1]],\"ok\":null}",
    "{\"events\":[[\"PostPersist\",1]],\"ok\":null}",
    "{\"events\":[],\"ok\":{\"object\":1}}",
];

const FIRST_CELLS: [&str; 4] = [
    "0, 018000000000000001, 0, 018000000000000002",
    "1, 018000000000000001, 0, 02506572736f6e",
    "1, 018000000000000001, 1, 018000000000000000",
    "1, 018000000000000001, 2, 02416461",
];

// ---- runs

/// A provider of persons with their orders over a store.
fn opened_over<S: Alter + Drop>(
    alloc: Global,
    conn: Connection<S>,
) -> Result<Provider<RowSpace<S>, ProgramFunctions>, (Cause, Connection<S>)>
    requires { IsOrderedIfFound S.Store conn }
{
    let metamodel = match first_unit(alloc) {
        Ok(metamodel) => metamodel,
        Err(cause) => return Err((cause, conn)),
    };
    let unit = ServedUnit {
        metamodel,
        registry: Registry::new(alloc, Language::Profile),
    };
    let history = History {
        classes: Seq::new(alloc),
    };
    open(alloc, conn, unit, &history)
}

/// A provider of persons with their orders over a store in memory.
fn opened(alloc: Global) -> Result<Provider<RowSpace<MemStore>, ProgramFunctions>, Fail> {
    match opened_over(alloc, Connection::open_in_memory(alloc)?) {
        Ok(provider) => Ok(provider),
        Err((cause, _)) => Err(Fail::from(cause)),
    }
}

/// One line for each cell of a row: table, row, column and value.
fn push_row(alloc: Global, table: i64, row: &CellRow, out: &mut String) -> Result<(), AllocError> {
    let key = hex::encode(alloc, row.row.as_slice())?;
    for cell in row.cells.as_slice() {
        let column = cell.column;
        let value = hex::encode(alloc, cell.value.as_slice())?;
        let line = format!(in alloc; "{table}, {key}, {column}, {value}\n")?;
        out.push_str(line.as_str())?;
    }
    Ok(())
}

/// The cells of the tables 0, 1 and 2.
fn cells_in<S: Alter + Drop>(alloc: Global, conn: Connection<S>) -> Result<String, Fail>
    requires { IsOrderedIfFound S.Store conn }
{
    let mut store = match CellStore::open(alloc, conn) {
        Ok(store) => store,
        Err((cause, _)) => return Err(Fail::from(cause)),
    };
    let mut out = String::new(alloc);
    for table in 0..3i64 {
        let rows = store.table(table)?;
        for row in rows.as_slice() {
            push_row(alloc, table, row, &mut out)?;
        }
    }
    Ok(out)
}

/// How a run ends, and the cells that it leaves.
fn run_over<R: Read, W: Write>(
    alloc: Global,
    reader: &mut R,
    writer: &mut W,
) -> Result<(Result<(), RunFault>, String), Fail> {
    let mut provider = opened(alloc)?;
    let ended = run(alloc, reader, writer, &mut provider);
    let cells = cells_in(alloc, provider.into_rows().store.into_connection())?;
    Ok((ended, cells))
}

/// The lines, each with its line feed.
fn joined(alloc: Global, lines: &[&str]) -> Result<String, AllocError> {
    let mut text = String::new(alloc);
    for line in lines {
        text.push_str(line)?;
        text.push('\n')?;
    }
    Ok(text)
}

// ---- the test

/// The run over the whole input ends well and writes the replies; the statements that the store
/// counts.
fn see_run<S: Alter + Drop>(
    rt: &impl Abort,
    alloc: Global,
    provider: &mut Provider<RowSpace<S>, ProgramFunctions>,
) -> Result<(), Fail> {
    let input = joined(alloc, &FIRST_CALLS)?;
    let mut writer = Vec::with_capacity(alloc, 4096)?;
    run(alloc, &mut input.as_bytes(), &mut writer, provider)?;
    assert_eq!(rt;
        writer.as_slice(),
        joined(alloc, &FIRST_REPLIES)?.as_bytes()
    );
    Ok(())
}

// The opening makes the table and looks at three tables; the commit writes two rows, the person and
// the next number.
#[test]
fn first_run(rt: HostRuntime) -> Result<(), Fail> {
    let a = rt.alloc();
    let mut provider = opened(a)?;
    let seen = see_run(&rt, a, &mut provider);
    let store = provider.into_rows().store;
    seen?;
    assert_eq!(rt;
        [store.selects(), store.writes(), store.statements()],
        [3u64, 6, 10]
    );
    assert_eq!(rt;
        cells_in(a, store.into_connection())?,
        joined(a, &FIRST_CELLS)?
    );
    Ok(())
}
