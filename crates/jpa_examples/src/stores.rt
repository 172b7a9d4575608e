//! Stores: rows, which answer how many objects they stand for, the next numbers, and the rows that
//! these are written as.
//!
//! A row is a line: its table, its bytes, and for each of its cells the column, a colon and the
//! bytes, all bytes in hexadecimal digits.
ghost use Rattle.std.specs.Prelude.{◌≡◌, true, IfOk};
ghost use Rattle.jpa_stored.specs.objects.Sets.{is_shaped, all_shaped};
ghost use Rattle.jpa_rows.specs.rows.Tables.{schema_of};

use crate::stop::Stop;
use crate::told::Unit;
use hex::FromHexError;
use jpa_behaviour::Registry;
use jpa_cells::cells::{Cell, CellChange, CellStore};
use jpa_cells::rowspace::RowSpace;
use jpa_description::history::History;
use jpa_json::functions::{ProgramFunctions, read_functions, registry_of};
use jpa_json::mapping::read_mapping;
use jpa_model::Metamodel;
use jpa_object_rows::mapper::to_rows;
use jpa_opening::reader::{Committed, open_store};
use jpa_rows::keys::encode_key;
use jpa_rows::rows::{Row, RowId, Schema, spell_row};
use jpa_stored::objects::{Stored, StoredSet};
use jpa_value::{Bytes, Cause, Identity, Seq};
use jpql_trees::tree::Language;
use sqlite::{Connection, MemStore};
use std::alloc::Global;

fn decoded(alloc: Global, digits: &str) -> Result<Bytes, Stop> {
    match hex::decode(alloc, digits) {
        Ok(bytes) => Ok(Bytes::of(bytes)),
        Err(FromHexError::OutOfMemory) => Err(Stop::Refused(Cause::OutOfMemory)),
        Err(_) => Err(Stop::Form),
    }
}

fn number(word: &str) -> Result<i64, Stop> {
    match word.parse::<i64>() {
        Ok(number) => Ok(number),
        Err(_) => Err(Stop::Form),
    }
}

fn cell_in(alloc: Global, word: &str) -> Result<Cell, Stop> {
    match word.split_once(':') {
        Some((column, value)) => Ok(Cell {
            column: number(column)?,
            value: decoded(alloc, value)?,
        }),
        None => Err(Stop::Form),
    }
}

/// The row on a line.
fn row_on(alloc: Global, line: &str) -> Result<CellChange, Stop> {
    let words: Vec<&str> = line.split(' ').collect(alloc)?;
    let (table, row, columns) = match words.as_slice() {
        [table, row, columns @ ..] => (number(table)?, decoded(alloc, row)?, columns),
        _ => return Err(Stop::Form),
    };
    let mut cells = Seq::new(alloc);
    for word in columns {
        cells.push(cell_in(alloc, word)?)?;
    }
    Ok(CellChange { table, row, cells })
}

fn write_rows(alloc: Global, store: &mut CellStore<MemStore>, rows: &str) -> Result<(), Stop> {
    for line in rows.lines() {
        let change = row_on(alloc, line)?;
        store.apply(&[change])?;
    }
    Ok(())
}

/// A store in memory with these rows.
pub(crate) fn store_of(alloc: Global, rows: &str) -> Result<CellStore<MemStore>, Stop> {
    let mut store = match CellStore::open(alloc, Connection::open_in_memory(alloc)?) {
        Ok(store) => store,
        Err((cause, _)) => return Err(Stop::Refused(cause)),
    };
    write_rows(alloc, &mut store, rows)?;
    Ok(store)
}

/// The objects that rows stand for by a mapping's functions, and the next numbers.
fn committed_of(
    alloc: Global,
    metamodel: &Metamodel,
    history: &History,
    functions: &str,
    rows: &str,
) -> Result<Committed, Stop>
    ensures { IfOk result (λ committed. all_shaped metamodel.now committed.set ≡ true) }
{
    let registry = registry_of(
        alloc,
        Language::Profile,
        read_functions(alloc, functions.as_bytes())?,
    )?;
    let schema = Schema::of(alloc, metamodel)?;
    let mut space = RowSpace::new(alloc, store_of(alloc, rows)?, schema);
    Ok(open_store(alloc, metamodel, &registry, history, &mut space)?)
}

/// How many objects there are, and the next number of each entity.
fn counted(alloc: Global, committed: &Committed) -> Result<String, Stop> {
    let objects = committed.set.len();
    let mut out = format!(in alloc; "{objects} objects;")?;
    for next in committed.numbers.as_slice() {
        let word = format!(in alloc; " {next}")?;
        out.push_str(word.as_str())?;
    }
    out.push('\n')?;
    Ok(out)
}

/// A row as its line.
fn push_row(alloc: Global, id: &RowId, row: &Row, out: &mut String) -> Result<(), Cause> {
    let table = id.table;
    let key = hex::encode(alloc, encode_key(alloc, &id.key)?.as_slice())?;
    write!(out, "{table} {key}")?;
    let cells = spell_row(alloc, row)?;
    for (column, value) in cells.as_slice() {
        let value = hex::encode(alloc, value.as_slice())?;
        write!(out, " {column}:{value}")?;
    }
    out.push('\n')?;
    Ok(())
}

/// The rows of an object.
fn push_object(
    alloc: Global,
    metamodel: &Metamodel,
    registry: &Registry<ProgramFunctions>,
    entry: &(Identity, Stored),
    out: &mut String,
) -> Result<(), Cause>
    requires { is_shaped metamodel.now entry.now.0 entry.now.1 ≡ true }
{
    let rows = to_rows(alloc, metamodel, registry, &entry.0, &entry.1)?;
    for (id, row) in rows.as_slice() {
        push_row(alloc, id, row, out)?;
    }
    Ok(())
}

/// The rows of a set of at most two objects; of a larger one none.
fn push_objects(
    alloc: Global,
    metamodel: &Metamodel,
    registry: &Registry<ProgramFunctions>,
    set: &StoredSet,
    out: &mut String,
) -> Result<(), Cause>
    requires { all_shaped metamodel.now set.now ≡ true }
{
    match set.entries() {
        [one] => push_object(alloc, metamodel, registry, one.get(), out),
        [one, other] => {
            push_object(alloc, metamodel, registry, one.get(), out)?;
            push_object(alloc, metamodel, registry, other.get(), out)
        }
        _ => Ok(()),
    }
}

/// The rows that a set is written as with the functions of a mapping.
fn written(
    alloc: Global,
    metamodel: &Metamodel,
    functions: &str,
    committed: &Committed,
) -> Result<String, Cause>
    requires { all_shaped metamodel.now committed.now.set ≡ true }
{
    let registry = registry_of(
        alloc,
        Language::Profile,
        read_functions(alloc, functions.as_bytes())?,
    )?;
    let mut out = String::new(alloc);
    push_objects(alloc, metamodel, &registry, &committed.set, &mut out)?;
    Ok(out)
}

/// What is answered, or the text of a refusal on a line; that memory was refused is no answer.
fn told(alloc: Global, answered: Result<String, Cause>) -> Result<String, Stop> {
    match answered {
        Ok(text) => Ok(text),
        Err(Cause::OutOfMemory) => Err(Stop::Refused(Cause::OutOfMemory)),
        Err(cause) => {
            let text = cause.text(alloc)?;
            let text = text.as_str();
            Ok(format!(in alloc; "{text}\n")?)
        }
    }
}

/// How many objects rows stand for, the next numbers, and the rows that at most two objects are
/// written as; or the refusal.
pub(crate) fn store_answer(alloc: Global, unit: Unit<'_>, rows: &str) -> Result<String, Stop> {
    let mapping = read_mapping(alloc, unit.mapping.as_bytes())?;
    let metamodel = &mapping.metamodel;
    let committed = match committed_of(alloc, metamodel, &mapping.history, unit.mapping, rows) {
        Ok(committed) => committed,
        Err(Stop::Refused(cause)) => return told(alloc, Err(cause)),
        Err(stop) => return Err(stop),
    };
    let mut out = counted(alloc, &committed)?;
    let rows = told(alloc, written(alloc, metamodel, unit.functions, &committed))?;
    out.push_str(rows.as_str())?;
    Ok(out)
}
