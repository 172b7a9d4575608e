//! Generated keys lie below the next number.
ghost use Rattle.std.specs.Prelude.{◌≡◌, ◌<◌, length, slice_index_or};
ghost use Rattle.jpa_model.specs.Chains as chains;
ghost use Rattle.jpa_rows.specs.rows.Cells as cells;
ghost use Rattle.jpa_opening.specs.reader.Read.{AreOfClasses};

use jpa_model::Metamodel;
use jpa_stored::objects::{Stored, StoredSet};
use jpa_value::{Identity, Value};

/// Whether a key is a number from 1 to below the next one.
fn is_given_before(next: u64, key: &[Value]) -> bool
    ensures { result ≡ cells.is_given_before next key.now }
{
    match key {
        [Value::Int(number)] => *number > 0 && (*number as u64) < next,
        _ => false,
    }
}

/// The next number of a class.
fn next_of(numbers: &[u64], class: usize) -> u64
    ensures { result ≡ slice_index_or numbers.now class 1 }
{
    match numbers.get(class) {
        Some(next) => *next,
        None => 1,
    }
}

fn is_key_given(metamodel: &Metamodel, numbers: &[u64], entry: &(Identity, Stored)) -> bool
    requires { entry.now.1.class < length metamodel.now.entities }
    ensures { result ≡ cells.key_given_by numbers.now
        (chains.root_class metamodel.now entry.now.1.class)
        (chains.root_of metamodel.now entry.now.1.class).generated entry.now.0.key }
{
    let class = entry.1.class;
    !metamodel.root_of(class).generated
        || is_given_before(
            next_of(numbers, metamodel.root_class(class)),
            entry.0.key.as_slice(),
        )
}

/// Whether the key of each object whose hierarchy has generated keys is one that its generator has
/// given.
pub(super) fn are_keys_given(metamodel: &Metamodel, set: &StoredSet, numbers: &[u64]) -> bool
    requires { AreOfClasses metamodel.now set.now }
    ensures { result ≡ cells.keys_given metamodel.now set.now numbers.now }
{
    for entry in set.entries() {
        if !is_key_given(metamodel, numbers, entry.get()) {
            return false;
        }
    }
    true
}
