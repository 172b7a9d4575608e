//! Arithmetic (chapter 4.7.1): with null it is null, and outside 64 bits it is Overflow.
ghost use Rattle.std.specs.Prelude.{◌≡◌};
ghost use Rattle.jpql_meaning.specs.eval.Answers.{gives};
ghost use Rattle.jpql_meaning.specs.eval.Numbers as numbers;
ghost use Rattle.jpql_meaning.specs.eval.Finds.{Finds};
ghost use Rattle.jpql_meaning.specs.eval.Seen.{seen};

use crate::eval::failure::Failure;
use crate::eval::seen::Seen;
use jpql_trees::tree::{Arithmetic, Sign};

/// A sum, a difference or a product.
pub fn arithmetic<'a>(
    operation: Arithmetic,
    left: &Seen<'a>,
    right: &Seen<'a>,
) -> Result<Seen<'a>, Failure>
    ensures { Finds seen result (numbers.arithmetic operation (seen left.now) (seen right.now)) }
{
    let (Seen::Int(left), Seen::Int(right)) = (left, right) else {
        return Ok(Seen::Null);
    };
    let found = match operation {
        Arithmetic::Plus => left.checked_add(*right),
        Arithmetic::Minus => left.checked_sub(*right),
        Arithmetic::Times => left.checked_mul(*right),
    };
    match found {
        None => Err(Failure::Overflow),
        Some(number) => Ok(Seen::Int(number)),
    }
}

/// A number with its sign.
pub fn signed<'a>(sign: Sign, operand: &Seen<'a>) -> Result<Seen<'a>, Failure>
    ensures { Finds seen result (numbers.signed sign (seen operand.now)) }
{
    let Seen::Int(number) = operand else {
        return Ok(Seen::Null);
    };
    let found = match sign {
        Sign::Plus => Some(*number),
        Sign::Minus => number.checked_neg(),
    };
    match found {
        None => Err(Failure::Overflow),
        Some(number) => Ok(Seen::Int(number)),
    }
}

/// ABS.
pub fn absolute<'a>(operand: &Seen<'a>) -> Result<Seen<'a>, Failure>
    ensures { Finds seen result (numbers.absolute (seen operand.now)) }
{
    let Seen::Int(number) = operand else {
        return Ok(Seen::Null);
    };
    match number.checked_abs() {
        None => Err(Failure::Overflow),
        Some(number) => Ok(Seen::Int(number)),
    }
}

/// MOD: the remainder has the dividend's sign, and by 0 it is null.
pub fn modulo<'a>(left: &Seen<'a>, right: &Seen<'a>) -> Seen<'a>
    ensures { numbers.modulo (seen left.now) (seen right.now) ≡ gives (seen result) }
{
    let (Seen::Int(left), Seen::Int(right)) = (left, right) else {
        return Seen::Null;
    };
    if *right == 0 {
        Seen::Null
    } else {
        Seen::Int(left.wrapping_rem(*right))
    }
}
