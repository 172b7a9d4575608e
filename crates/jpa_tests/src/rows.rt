//! Rows over cells, and changes over rows: example `removing-a-referenced-person`, person 1, to
//! whom order 10 leads.
ghost use Rattle.std.specs.Prelude.{◌≡◌, ◌∷◌, [], IfOk};
ghost use Rattle.jpa_value.specs.declared.value.Kind.{Kind};
ghost use Rattle.jpa_rows.specs.rows.Tables as tables;
ghost use Rattle.jpa_cells.specs.rowspace.Samples as samples;
ghost use Rattle.jpa_tests.specs.Samples.{drops_person};

use crate::cells::{Changed, Line, ONE, apply, in_memory, shows};
use jpa_cells::rowspace::RowSpace;
use jpa_rows::overlay::Overlay;
use jpa_rows::rows::{
    ColumnRule, Content, Field, Holds, Row, RowChange, RowId, RowReader, RowSink, Schema, TableRule,
};
use jpa_value::{Cause, Key, Kind, Seq, TryCopy, Value, is_same_identity};
use sqlite::{Alter, MemStore};
use std::alloc::{AllocError, Global};
use std::process::Abort;
use std::test::Fail;

const TEN: &[u8] = b"\x01\x80\x00\x00\x00\x00\x00\x00\x0a";

/// The cells of the example.
const WRITTEN: &[Changed] = &[
    (0, ONE, &[(0, b"\x01\x80\x00\x00\x00\x00\x00\x00\x02")]),
    (
        1,
        ONE,
        &[
            (0, b"\x02Person"),
            (1, b"\x01\x80\x00\x00\x00\x00\x00\x00\x00"),
        ],
    ),
    (
        2,
        TEN,
        &[
            (0, b"\x02Order"),
            (2, b"\x04\x01\x80\x00\x00\x00\x00\x00\x00\x01"),
        ],
    ),
];

/// The cells once the person is dropped.
const DROPPED: &[Line] = &[
    (0, ONE, 0, b"\x01\x80\x00\x00\x00\x00\x00\x00\x02"),
    (2, TEN, 0, b"\x02Order"),
    (2, TEN, 2, b"\x04\x01\x80\x00\x00\x00\x00\x00\x00\x01"),
];

// ---- the schema

fn rule(column: u32, holds: Holds) -> ColumnRule
    ensures { result ≡ record { column = column; holds = holds } }
{
    ColumnRule { column, holds }
}

/// A table whose rows are named by one integer.
fn table(alloc: Global, table: u32, columns: Vec<ColumnRule>) -> Result<TableRule, Cause>
    ensures { IfOk result (λ rule. rule ≡ record {
      table = table;
      key = Kind.Int
          ∷ [];
      columns = columns.items;
    }) }
{
    Ok(TableRule {
        table,
        key: Seq::of(vec![in alloc; Kind::Int]?),
        columns: Seq::of(columns),
    })
}

fn next_numbers(alloc: Global) -> Result<TableRule, Cause>
    ensures { IfOk result (λ rule. rule ≡ tables.next_numbers) }
{
    let columns = vec![in alloc; rule(0, Holds::Kind(Kind::Int))]?;
    table(alloc, 0, columns)
}

fn persons(alloc: Global) -> Result<TableRule, Cause>
    ensures { IfOk result (λ rule. rule ≡ samples.persons) }
{
    let columns = vec![in alloc;
        rule(0, Holds::Kind(Kind::Text)),
        rule(1, Holds::Kind(Kind::Int)),
        rule(2, Holds::Kind(Kind::Text)),
    ]?;
    table(alloc, 1, columns)
}

fn orders(alloc: Global) -> Result<TableRule, Cause>
    ensures { IfOk result (λ rule. rule ≡ samples.orders) }
{
    let person = Seq::of(vec![in alloc; Kind::Int]?);
    let columns = vec![in alloc;
        rule(0, Holds::Kind(Kind::Text)),
        rule(1, Holds::Kind(Kind::Int)),
        rule(2, Holds::Reference(person)),
    ]?;
    table(alloc, 2, columns)
}

fn shop(alloc: Global) -> Result<Schema, Cause>
    ensures { IfOk result (λ schema. schema ≡ samples.shop) }
{
    let mut tables = Seq::new(alloc);
    tables.push(next_numbers(alloc)?)?;
    tables.push(persons(alloc)?)?;
    tables.push(orders(alloc)?)?;
    Ok(Schema { tables })
}

fn key(alloc: Global, number: i64) -> Result<Key, Cause>
    ensures { IfOk result (λ key. key ≡ samples.key number) }
{
    let mut key = Key::new(alloc);
    key.push(Value::Int(number))?;
    Ok(key)
}

fn id(alloc: Global, table: u64, number: i64) -> Result<RowId, Cause>
    ensures { IfOk result (λ id. id ≡ record { table = table; key = samples.key number }) }
{
    Ok(RowId {
        table,
        key: key(alloc, number)?,
    })
}

/// The rows of the example.
fn opened(alloc: Global) -> Result<RowSpace<MemStore>, Fail>
    ensures { IfOk result (λ space. space.schema ≡ samples.shop) }
{
    let mut store = in_memory(alloc)?;
    apply(alloc, &mut store, WRITTEN)?;
    Ok(RowSpace::new(alloc, store, shop(alloc)?))
}

// ---- what is seen of rows

/// A field as its column and what it holds.
fn words_of(alloc: Global, field: &Field) -> Result<String, AllocError> {
    let column = field.column;
    match &field.content {
        Content::Value(Value::Int(number)) => format!(in alloc; "{column}={number};"),
        Content::Value(Value::Text(text)) => {
            let text = text.as_str();
            format!(in alloc; "{column}={text};")
        }
        Content::Value(_) => format!(in alloc; "{column} another value;"),
        Content::Reference(key) => match key.as_slice() {
            [Value::Int(number)] => format!(in alloc; "{column} to {number};"),
            _ => format!(in alloc; "{column} to another key;"),
        },
    }
}

/// A row as its columns, one by one.
fn shown(alloc: Global, row: &Option<Row>) -> Result<String, AllocError> {
    let Some(row) = row else {
        return String::from_str(alloc, "none");
    };
    let mut out = String::new(alloc);
    for field in row.as_slice() {
        let words = words_of(alloc, field)?;
        out.push_str(words.as_str())?;
    }
    Ok(out)
}

/// The row's columns are these.
fn see_row(rt: &impl Abort, alloc: Global, row: &Option<Row>, words: &str) -> Result<(), Fail> {
    assert_eq!(rt; shown(alloc, row)?.as_str(), words);
    Ok(())
}

/// A row of the space.
fn row_of<R: RowReader>(
    alloc: Global,
    source: &mut R,
    table: u64,
    number: i64,
) -> Result<Option<Row>, Cause> {
    let id = id(alloc, table, number)?;
    source.get(&id)
}

/// Counts rows.
#[derive(Drop)]
struct Counted {
    rows: usize,
}

impl RowSink for Counted {
    ghost use Rattle.std.specs.Prelude.{◌≡◌, ◌+◌, true, MatchResult};
    ghost use Rattle.jpa_value.specs.declared.refusal.Cause.{Cause};

    ghost takes = { λ counted e out after. MatchResult out (λ more. (after.rows ≡ counted.rows + 1) × (more ≡ true)) (λ cause. (after.rows ≡ counted.rows) × (cause ≡ Cause.Limit)) };

    fn row(&mut self, _id: RowId, _row: Row) -> Result<bool, Cause> {
        match self.rows.checked_add(1) {
            Some(rows) => {
                self.rows = rows;
                Ok(true)
            }
            None => Err(Cause::Limit),
        }
    }
}

/// How many rows a table has.
fn count<R: RowReader>(source: &mut R, table: u64) -> Result<usize, Cause> {
    let mut counted = Counted { rows: 0 };
    source.each(table, &mut counted)?;
    Ok(counted.rows)
}

/// The person and the order are seen.
fn see_rows<R: RowReader>(rt: &impl Abort, alloc: Global, source: &mut R) -> Result<(), Fail> {
    see_row(rt, alloc, &row_of(alloc, source, 1, 1)?, "0=Person;1=0;")?;
    see_row(rt, alloc, &row_of(alloc, source, 2, 10)?, "0=Order;2 to 1;")?;
    assert_eq!(rt; count(source, 1)?, 1);
    Ok(())
}

// ---- changes over rows

/// How many rows a table has under the changes.
fn count_over<R: RowReader>(overlay: &Overlay, source: &mut R, table: u64) -> Result<usize, Cause> {
    let mut counted = Counted { rows: 0 };
    overlay.each(source, table, &mut counted)?;
    Ok(counted.rows)
}

/// The person under the changes.
fn person_over<R: RowReader>(
    alloc: Global,
    overlay: &Overlay,
    source: &mut R,
) -> Result<Option<Row>, Cause> {
    let person = id(alloc, 1, 1)?;
    overlay.get(source, &person)
}

/// The changes are one drop of the person.
fn see_drop(rt: &impl Abort, alloc: Global, changes: &[RowChange]) -> Result<(), Fail> {
    let person = id(alloc, 1, 1)?;
    match changes {
        [change] => assert!(rt; is_same_identity(&change.id, &person) && change.row.is_none()),
        _ => return Err(Fail::from("the difference is not one drop")),
    }
    Ok(())
}

/// The rows are seen without the person, which is all that is to change.
fn see_dropped<R: RowReader>(
    rt: &impl Abort,
    alloc: Global,
    overlay: &Overlay,
    source: &mut R,
) -> Result<(), Fail> {
    assert!(rt; person_over(alloc, overlay, source)?.is_none());
    assert_eq!(rt; count_over(overlay, source, 1)?, 0);
    see_drop(rt, alloc, overlay.changes(source)?.as_slice())
}

/// The person as she stands, under her id.
fn standing<R: RowReader>(alloc: Global, source: &mut R) -> Result<Overlay, Cause> {
    let mut stood = Overlay::new(alloc);
    if let Some(row) = row_of(alloc, source, 1, 1)? {
        stood.put(id(alloc, 1, 1)?, row)?;
    }
    Ok(stood)
}

/// The overlay's copy has its one change, which is its difference from what stands.
fn see_copy(
    rt: &impl Abort,
    alloc: Global,
    overlay: &Overlay,
    stood: &Overlay,
) -> Result<(), Fail> {
    let difference = overlay.try_copy()?.into_difference(stood)?;
    see_drop(rt, alloc, difference.as_slice())
}

/// The order's row is put under another id, and then all changes are discarded.
fn see_put<R: RowReader>(
    rt: &impl Abort,
    alloc: Global,
    overlay: &mut Overlay,
    source: &mut R,
) -> Result<(), Fail> {
    if let Some(row) = row_of(alloc, source, 2, 10)? {
        overlay.put(id(alloc, 2, 11)?, row)?;
    }
    assert_eq!(rt; count_over(overlay, source, 2)?, 2);
    overlay.discard();
    assert!(rt; overlay.is_empty());
    Ok(())
}

/// The person is dropped over the rows, which stay as they are.
fn see_overlay<R: RowReader>(rt: &impl Abort, alloc: Global, source: &mut R) -> Result<(), Fail> {
    let mut overlay = Overlay::new(alloc);
    overlay.drop_row(id(alloc, 1, 1)?)?;
    see_dropped(rt, alloc, &overlay, source)?;
    see_copy(rt, alloc, &overlay, &standing(alloc, source)?)?;
    see_put(rt, alloc, &mut overlay, source)
}

// ---- the tests

/// The drop of the person, committed.
#[tactic(auto, using(crate::proofs::Samples::is_change))]
fn commit_drop<S: Alter>(space: &mut RowSpace<S>, change: RowChange) -> Result<(), Cause>
    requires schema { space.old.schema ≡ samples.shop }
    requires change { change ≡ drops_person }
{
    space.commit(&[change])
}

fn drop_of(alloc: Global) -> Result<RowChange, Cause>
    ensures { IfOk result (λ change. change ≡ drops_person) }
{
    Ok(RowChange {
        id: id(alloc, 1, 1)?,
        row: None,
    })
}

/// The person's drop is committed, and the store has the other cells.
fn see_commit<S: Alter>(rt: &impl Abort, alloc: Global, space: &mut RowSpace<S>) -> Result<(), Fail>
    requires { space.old.schema ≡ samples.shop }
{
    commit_drop(space, drop_of(alloc)?)?;
    assert!(rt; shows(&mut space.store, DROPPED)?);
    Ok(())
}

#[test]
fn a_referenced_person_is_dropped(rt: HostRuntime) -> Result<(), Fail> {
    let alloc = rt.alloc();
    let mut space = opened(alloc)?;
    see_commit(&rt, alloc, &mut space)
}

/// The rows of the space and of a table of it, and changes over them.
fn see_space<S: Alter>(
    rt: &impl Abort,
    alloc: Global,
    space: &mut RowSpace<S>,
) -> Result<(), Fail> {
    assert_eq!(rt; space.schema().tables.len(), 3);
    assert_eq!(rt; count(space, 2)?, 1);
    see_rows(rt, alloc, space)?;
    see_overlay(rt, alloc, space)
}

#[test]
fn a_referenced_person_is_dropped_over_the_space(rt: HostRuntime) -> Result<(), Fail> {
    let alloc = rt.alloc();
    let mut space = opened(alloc)?;
    see_space(&rt, alloc, &mut space)
}
