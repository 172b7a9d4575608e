//! Questions that ask one object by its key, over a store of rows: each runs one SELECT.
//!
//! The orders are those of the example `key-lookup-selects-once`; a base (class 0, table 1) has a
//! subclass that owns pairs (table 9).
use crate::cells::{Changed, ONE, apply, in_memory};
use jpa_behaviour::Registry;
use jpa_cells::rowspace::RowSpace;
use jpa_json::functions::ProgramFunctions;
use jpa_json::mapping::read_mapping;
use jpa_model::Metamodel;
use jpa_questions::row_queries::run;
use jpa_rows::overlay::Overlay;
use jpa_rows::rows::{RowReader, Schema};
use jpa_value::{Cause, Seq, Value};
use jpql_meaning::eval::Datum;
use jpql_text::text::read_query;
use jpql_trees::tree::Language;
use jpql_trees::typed::{Typed, TypedSelect};
use jpql_types::check_query;
use std::alloc::Global;
use std::process::Abort;
use std::test::Fail;

const ORDERS: &[u8] = b"{\"revision\":1,\"entities\":[
 {\"name\":\"Order\",\"table\":2,\"key\":[{\"name\":\"number\",\"type\":\"int\"}],
  \"attributes\":[{\"name\":\"amount\",\"type\":\"int\",\"column\":1}]}]}";

/// Order 10 with the amount 1, and order 11 with the amount 2.
const ORDERED: &[Changed] = &[
    (
        2,
        b"\x01\x80\x00\x00\x00\x00\x00\x00\x0a",
        &[
            (0, b"\x02Order"),
            (1, b"\x01\x80\x00\x00\x00\x00\x00\x00\x01"),
        ],
    ),
    (
        2,
        b"\x01\x80\x00\x00\x00\x00\x00\x00\x0b",
        &[
            (0, b"\x02Order"),
            (1, b"\x01\x80\x00\x00\x00\x00\x00\x00\x02"),
        ],
    ),
];

const TAGGED: &[u8] = b"{\"revision\":1,\"entities\":[
 {\"name\":\"Base\",\"table\":1,\"key\":[{\"name\":\"id\",\"type\":\"int\"}],
  \"attributes\":[{\"name\":\"a\",\"type\":\"int\",\"column\":1}]},
 {\"name\":\"Tagged\",\"extends\":\"Base\",
  \"relations\":[{\"name\":\"bases\",\"kind\":\"manyToMany\",\"target\":\"Base\",\"joinTable\":9}]}]}";

/// An object of the subclass with the key 1 and the value 7, which leads to itself.
const PAIRED: &[Changed] = &[
    (
        1,
        ONE,
        &[
            (0, b"\x02Tagged"),
            (1, b"\x01\x80\x00\x00\x00\x00\x00\x00\x07"),
        ],
    ),
    (
        9,
        b"\x01\x80\x00\x00\x00\x00\x00\x00\x01\x01\x80\x00\x00\x00\x00\x00\x00\x01",
        &[(0, b"\x01\x80\x00\x00\x00\x00\x00\x00\x01")],
    ),
];

/// The SELECT that a text is.
fn select_of(alloc: Global, metamodel: &Metamodel, text: &str) -> Result<TypedSelect, Fail> {
    let tree = read_query(alloc, Language::Profile, &[], text)?;
    match check_query(alloc, Language::Profile, metamodel, tree, &[])? {
        Typed::Select(select) => Ok(select),
        _ => Err(Fail::from("the text is no SELECT")),
    }
}

/// What a SELECT without parameters finds in rows.
fn found<R: RowReader>(
    alloc: Global,
    metamodel: &Metamodel,
    source: &mut R,
    select: &TypedSelect,
) -> Result<Seq<Seq<Datum>>, Cause> {
    let registry: Registry<ProgramFunctions> = Registry::new(alloc, Language::Profile);
    run(
        alloc,
        metamodel,
        &registry,
        &Overlay::new(alloc),
        source,
        &[],
        select,
    )
}

/// Whether one row is found, which is this integer.
fn is_number(rows: &[Seq<Datum>], number: i64) -> bool {
    match rows {
        [row] => match row.as_slice() {
            [Datum::Plain(Value::Int(found))] => *found == number,
            _ => false,
        },
        _ => false,
    }
}

/// A text finds this integer in cells of a mapping, by one SELECT.
fn see_one(
    rt: &impl Abort,
    alloc: Global,
    mapping: &[u8],
    cells: &[Changed],
    text: &str,
    number: i64,
) -> Result<(), Fail> {
    let mapping = read_mapping(alloc, mapping)?;
    let metamodel = &mapping.metamodel;
    let mut store = in_memory(alloc)?;
    apply(alloc, &mut store, cells)?;
    let mut space = RowSpace::new(alloc, store, Schema::of(alloc, metamodel)?);
    let select = select_of(alloc, metamodel, text)?;
    let rows = found(alloc, metamodel, &mut space, &select)?;
    assert!(rt; is_number(rows.as_slice(), number));
    assert_eq!(rt; space.store.selects(), 1);
    Ok(())
}

#[test]
fn a_key_is_looked_up_by_one_select(rt: HostRuntime) -> Result<(), Fail> {
    let text = "SELECT o.number FROM Order o WHERE o.number = 11";
    see_one(&rt, rt.alloc(), ORDERS, ORDERED, text, 11)
}

#[test]
fn a_key_is_looked_up_by_one_select_beside_pairs(rt: HostRuntime) -> Result<(), Fail> {
    let text = "SELECT s.a FROM Base s WHERE s.id = 1";
    see_one(&rt, rt.alloc(), TAGGED, PAIRED, text, 7)
}
