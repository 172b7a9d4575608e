//! What the converters make of a value.
ghost use Rattle.std.specs.Prelude.{◌≡◌, IfOk, IfErr};
ghost use Rattle.std.specs.Option.{option_copied};
ghost use Rattle.jpa_value.specs.declared.refusal.Cause.{Cause};
ghost use Rattle.jpa_value.specs.Value.{same_value};
ghost use Rattle.jpa_json.specs.functions.Pairs as pairs;
ghost use Rattle.jpa_json.specs.functions.Functions as spec;

use crate::functions::make::{Converter, Pair};
use hex::FromHexError;
use jpa_value::{ByteString, Cause, Text, TryCopy, Value, order_values};
use std::alloc::Global;
use std::cmp::Ordering;

/// Whether two values are one.
pub(super) fn is_same(a: &Value, b: &Value) -> bool
    ensures { result ≡ same_value a.now b.now }
{
    matches!(order_values(a, b), Ordering::Equal)
}

fn flip(value: &Value) -> Option<Value>
    ensures { result ≡ spec.flip value.now }
{
    match value {
        Value::Int(number) => Some(Value::Int(-1 - *number)),
        _ => None,
    }
}

fn of_attribute<'p>(table: &'p [Pair], value: &Value) -> Option<&'p Pair>
    ensures { option_copied result ≡ pairs.with_attribute table.now value.now }
{
    table.iter().find(|pair| is_same(&pair.attribute, value))
}

fn of_column<'p>(table: &'p [Pair], value: &Value) -> Option<&'p Pair>
    ensures { option_copied result ≡ pairs.with_column table.now value.now }
{
    table.iter().find(|pair| is_same(&pair.column, value))
}

fn column_beside(table: &[Pair], value: &Value) -> Result<Option<Value>, Cause>
    ensures column { IfOk result (λ answer. answer ≡ pairs.column_beside table.now value.now) }
    ensures err { IfErr result (λ cause. cause ≡ Cause.OutOfMemory) }
{
    match of_attribute(table, value) {
        Some(pair) => Ok(Some(pair.column.try_copy()?)),
        None => Ok(None),
    }
}

fn attribute_beside(table: &[Pair], value: &Value) -> Result<Option<Value>, Cause>
    ensures attribute { IfOk result (λ answer. answer
        ≡ pairs.attribute_beside table.now value.now) }
    ensures err { IfErr result (λ cause. cause ≡ Cause.OutOfMemory) }
{
    match of_column(table, value) {
        Some(pair) => Ok(Some(pair.attribute.try_copy()?)),
        None => Ok(None),
    }
}

fn digits_of(alloc: Global, value: &Value) -> Result<Option<Value>, Cause>
    ensures digits { IfOk result (λ answer. answer ≡ spec.digits_of value.now) }
    ensures err { IfErr result (λ cause. cause ≡ Cause.OutOfMemory) }
{
    match value {
        Value::Bytes(bytes) => {
            let digits = hex::encode(alloc, bytes.as_slice())?;
            Ok(Some(Value::Text(Text::from_string(digits)?)))
        }
        _ => Ok(None),
    }
}

/// Bytes whose digits in lower case these are.
fn if_written_so(alloc: Global, digits: &str, bytes: Vec<u8>) -> Result<Option<Value>, Cause>
    ensures bytes { IfOk result (λ answer. answer ≡ spec.if_written_so digits.now bytes.items) }
    ensures err { IfErr result (λ cause. cause ≡ Cause.OutOfMemory) }
{
    let written = hex::encode(alloc, bytes.as_slice())?;
    if written.as_str() == digits {
        Ok(Some(Value::Bytes(ByteString::of(bytes)?)))
    } else {
        Ok(None)
    }
}

fn bytes_in(alloc: Global, digits: &str) -> Result<Option<Value>, Cause>
    ensures bytes { IfOk result (λ answer. answer ≡ spec.bytes_in digits.now) }
    ensures err { IfErr result (λ cause. cause ≡ Cause.OutOfMemory) }
{
    match hex::decode(alloc, digits) {
        Ok(bytes) => if_written_so(alloc, digits, bytes),
        Err(FromHexError::OutOfMemory) => Err(Cause::OutOfMemory),
        Err(_) => Ok(None),
    }
}

fn bytes_of(alloc: Global, value: &Value) -> Result<Option<Value>, Cause>
    ensures bytes { IfOk result (λ answer. answer ≡ spec.bytes_of value.now) }
    ensures err { IfErr result (λ cause. cause ≡ Cause.OutOfMemory) }
{
    match value {
        Value::Text(digits) => bytes_in(alloc, digits.as_str()),
        _ => Ok(None),
    }
}

/// What a converter makes of an attribute's value for its column, nothing where it throws;
/// `OutOfMemory` where a growth was refused.
pub(super) fn to_column(
    alloc: Global,
    converter: &Converter,
    value: &Value,
) -> Result<Option<Value>, Cause>
    ensures column { IfOk result (λ answer. answer ≡ spec.column_by converter.now value.now) }
    ensures err { IfErr result (λ cause. cause ≡ Cause.OutOfMemory) }
{
    match converter {
        Converter::Flip => Ok(flip(value)),
        Converter::Table(table) => column_beside(table.pairs.as_slice(), value),
        Converter::Hextext => digits_of(alloc, value),
    }
}

/// What a converter makes of a column's value for its attribute, nothing where it throws;
/// `OutOfMemory` where a growth was refused.
pub(super) fn to_attribute(
    alloc: Global,
    converter: &Converter,
    value: &Value,
) -> Result<Option<Value>, Cause>
    ensures attribute { IfOk result (λ answer. answer
        ≡ spec.attribute_by converter.now value.now) }
    ensures err { IfErr result (λ cause. cause ≡ Cause.OutOfMemory) }
{
    match converter {
        Converter::Flip => Ok(flip(value)),
        Converter::Table(table) => attribute_beside(table.pairs.as_slice(), value),
        Converter::Hextext => bytes_of(alloc, value),
    }
}
