//! The parts of the condition that each attribute and each entity meets or fails alone.
ghost use Rattle.std.specs.Prelude.{◌≡◌, ◌&&◌};
ghost use Rattle.std.specs.List.{list_all};
ghost use Rattle.jpa_rows.specs.keys.Keys.{is_part_of};
ghost use Rattle.jpa_behaviour.specs.Behaviour.{is_short};
ghost use Rattle.jpa_value.specs.declared.value.Kind.{Kind};
ghost use Rattle.jpa_value.specs.declared.value.Value.{Value};
ghost use Rattle.jpa_model.specs.WellFormed.{is_number, if_some};
ghost use Rattle.jpa_description.specs.history.Condition as condition;

use crate::history::described::listed;
use crate::history::draft::{DraftChange, DraftClassHistory};
use jpa_model::{Attribute, Entity};
use jpa_value::{Kind, MOST_BYTES, Value};

fn says_nothing(change: &DraftChange) -> bool
    ensures { result ≡ condition.says_nothing change.now }
{
    change.since.is_none() && change.default.is_none() && change.was.is_none()
}

fn all_say_nothing(changes: &[DraftChange]) -> bool
    ensures { result ≡ list_all condition.says_nothing changes.now }
{
    changes.iter().all(|change| says_nothing(change))
}

fn is_as_before(class: &DraftClassHistory) -> bool
    ensures { result ≡ condition.is_as_before class.now }
{
    class.dropped.is_none() && all_say_nothing(class.changes.as_slice())
}

/// Whether nothing is said of any class.
pub(super) fn are_as_before(classes: &[DraftClassHistory]) -> bool
    ensures { result ≡ list_all condition.is_as_before classes.now }
{
    classes.iter().all(|class| is_as_before(class))
}

// Every integer of 64 bits is one.
fn is_integer(number: i64) -> bool
    ensures { result ≡ (is_part_of Kind.Int (Value.Int number) && is_short (Value.Int number)) }
{
    let _number = number;
    true
}

fn is_short_text(text: &str) -> bool
    ensures { result ≡ (is_part_of Kind.Text (Value.Text text.now)
        && is_short (Value.Text text.now)) }
{
    text.len() <= MOST_BYTES
}

fn are_few_bytes(bytes: &[u8]) -> bool
    ensures { result ≡ (is_part_of Kind.Bytes (Value.Bytes bytes.now)
        && is_short (Value.Bytes bytes.now)) }
{
    bytes.len() <= MOST_BYTES
}

fn is_value_of(attribute: &Attribute, value: &Value) -> bool
    ensures { result ≡ condition.is_value_of attribute.now value.now }
{
    match (attribute.kind, value) {
        (Kind::Int, Value::Int(number)) => is_integer(*number),
        (Kind::Text, Value::Text(text)) => is_short_text(text.as_str()),
        (Kind::Bytes, Value::Bytes(bytes)) => are_few_bytes(bytes.as_slice()),
        _ => false,
    }
}

fn may_be_default(attribute: &Attribute, default: &Option<Value>) -> bool
    ensures { result ≡ if_some (condition.is_value_of attribute.now) default.now }
{
    match default {
        None => true,
        Some(value) => is_value_of(attribute, value),
    }
}

fn is_column(number: i64) -> bool
    ensures { result ≡ is_number number }
{
    1 <= number && number <= 1_000_000
}

fn are_columns(numbers: &[i64]) -> bool
    ensures { result ≡ list_all is_number numbers.now }
{
    numbers.iter().all(|number| is_column(*number))
}

fn is_changed_well(attribute: &Attribute, change: &DraftChange) -> bool
    ensures { result ≡ condition.is_changed_well attribute.now change.now }
{
    let is_new = change.since.is_some();
    let has_default = change.default.is_some();
    change.since.is_none_or(|revision| revision == 2)
        && may_be_default(attribute, &change.default)
        && change.was.is_none_or(|column| is_column(column))
        && (is_new || !has_default)
        && !(change.was.is_some() && is_new)
        && (!attribute.required || !is_new || has_default)
}

fn are_changed_well(attributes: &[Attribute], changes: &[DraftChange]) -> bool
    ensures { result ≡ condition.all_paired condition.is_changed_well attributes.now changes.now }
{
    for (attribute, change) in attributes.iter().zip(changes) {
        if !is_changed_well(attribute, change) {
            return false;
        }
    }
    true
}

fn is_class_changed_well(entity: &Entity, class: &DraftClassHistory) -> bool
    ensures { result ≡ condition.is_class_changed_well entity.now class.now }
{
    are_columns(listed(&class.dropped))
        && are_changed_well(entity.attributes.as_slice(), class.changes.as_slice())
}

/// Whether what is said of each attribute goes together, and dropped columns have numbers of
/// columns.
pub(super) fn are_classes_changed_well(entities: &[Entity], classes: &[DraftClassHistory]) -> bool
    ensures { result
        ≡ condition.all_paired condition.is_class_changed_well entities.now classes.now }
{
    for (entity, class) in entities.iter().zip(classes) {
        if !is_class_changed_well(entity, class) {
            return false;
        }
    }
    true
}
