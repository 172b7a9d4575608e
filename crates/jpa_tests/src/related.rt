//! The members of a relation, without a run of the program.
//!
//! A person (class 0, table 1) has orders, the inverse of an order's person (class 1, table 2).
use jpa_json::mapping::read_mapping;
use jpa_model::Metamodel;
use jpa_stored::objects::{Stored, StoredSet, members};
use jpa_value::{Cause, Identity, Key, Seq, Value, is_same_identity};
use std::alloc::Global;
use std::process::Abort;
use std::test::Fail;

const UNIT: &[u8] = b"{\"revision\":1,\"entities\":[
 {\"name\":\"Person\",\"table\":1,\"key\":[{\"name\":\"id\",\"type\":\"int\"}],
  \"relations\":[{\"name\":\"orders\",\"kind\":\"oneToMany\",\"target\":\"Order\",\"mappedBy\":\"person\"}]},
 {\"name\":\"Order\",\"table\":2,\"key\":[{\"name\":\"id\",\"type\":\"int\"}],
  \"relations\":[{\"name\":\"person\",\"kind\":\"manyToOne\",\"target\":\"Person\",\"column\":1}]}]}";

/// An identity whose key is one integer.
fn identity(alloc: Global, table: u64, number: i64) -> Result<Identity, Cause> {
    let mut key = Key::new(alloc);
    key.push(Value::Int(number))?;
    Ok(Identity { table, key })
}

/// A link to a person.
fn link(alloc: Global, number: i64) -> Result<Seq<Identity>, Cause> {
    let mut ids = Seq::new(alloc);
    ids.push(identity(alloc, 1, number)?)?;
    Ok(ids)
}

/// An object of this class with a list of its own, which a person's orders aren't.
fn object(alloc: Global, class: usize, own: Seq<Identity>) -> Result<Stored, Cause> {
    let mut owned = Seq::new(alloc);
    owned.push(own)?;
    Ok(Stored {
        class,
        version: None,
        values: Seq::new(alloc),
        owned,
    })
}

fn put_person(alloc: Global, set: &mut StoredSet, number: i64) -> Result<(), Cause> {
    let person = object(alloc, 0, Seq::new(alloc))?;
    set.put(identity(alloc, 1, number)?, person)
}

fn put_order(alloc: Global, set: &mut StoredSet, number: i64, of: i64) -> Result<(), Cause> {
    let order = object(alloc, 1, link(alloc, of)?)?;
    set.put(identity(alloc, 2, number)?, order)
}

/// Orders 11 and 10 of person 1, and order 12 of person 2.
fn put_all(alloc: Global, set: &mut StoredSet) -> Result<(), Cause> {
    put_person(alloc, set, 1)?;
    put_person(alloc, set, 2)?;
    put_order(alloc, set, 11, 1)?;
    put_order(alloc, set, 12, 2)?;
    put_order(alloc, set, 10, 1)
}

/// Whether these are orders of these numbers.
fn are_orders(alloc: Global, found: &[Identity], numbers: &[i64]) -> Result<bool, Cause> {
    for (id, number) in found.iter().zip(numbers) {
        if !is_same_identity(id, &identity(alloc, 2, *number)?) {
            return Ok(false);
        }
    }
    Ok(found.len() == numbers.len())
}

fn see_orders(
    rt: &impl Abort,
    alloc: Global,
    metamodel: &Metamodel,
    set: &mut StoredSet,
) -> Result<(), Cause> {
    put_all(alloc, set)?;
    let person = identity(alloc, 1, 1)?;
    let found = members(metamodel, set, 0, &person, 0)?;
    assert!(rt; are_orders(alloc, found.as_slice(), &[10, 11])?);
    Ok(())
}

#[test]
fn the_orders_of_a_person(rt: HostRuntime) -> Result<(), Fail> {
    let mapping = read_mapping(rt.alloc(), UNIT)?;
    let metamodel = &mapping.metamodel;
    see_orders(&rt, rt.alloc(), metamodel, &mut StoredSet::new(rt.alloc()))?;
    Ok(())
}
