//! Values and conditions made of typed ones.
ghost use Rattle.std.specs.Prelude.{◌≡◌, true, [], ◌∷◌, IfOk};
ghost use Rattle.jpql_types.specs.Gives.{Gives, IsJudged};
ghost use Rattle.jpql_types.specs.Sorts as sorts;

use crate::error::TypingError;
use crate::sort::{Sort, aggregate_sort, arithmetic_sort, call_sort};
use jpa_value::{Boxed, Seq};
use jpql_trees::tree::{Aggregate, Arithmetic, Function, Sign};
use jpql_trees::typed::TypedValue;
use std::alloc::Global;

pub(crate) fn signed(
    alloc: Global,
    sign: Sign,
    operand: (TypedValue, Sort),
) -> Result<(TypedValue, Sort), TypingError>
    ensures sort { Gives (λ found. found.1) result (sorts.arithmetic_sort (operand.1 ∷ [])) }
    ensures tree { IfOk result (λ found. found.0 ≡ TypedValue.Signed sign operand.0) }
{
    let sort = arithmetic_sort(&[operand.1]);
    let operand = Boxed::new(alloc, operand.0)?;
    beside(TypedValue::Signed(sign, operand), sort)
}

pub(crate) fn arithmetic(
    alloc: Global,
    operation: Arithmetic,
    left: (TypedValue, Sort),
    right: (TypedValue, Sort),
) -> Result<(TypedValue, Sort), TypingError>
    ensures sort { Gives (λ found. found.1) result
        (sorts.arithmetic_sort (left.1 ∷ right.1 ∷ [])) }
    ensures tree { IfOk result (λ found. found.0
        ≡ TypedValue.Arithmetic operation left.0 right.0) }
{
    let sort = arithmetic_sort(&[left.1, right.1]);
    let (left, right) = boxed(alloc, left.0, right.0)?;
    beside(TypedValue::Arithmetic(operation, left, right), sort)
}

pub(crate) fn call(
    function: Function,
    arguments: Seq<TypedValue>,
    all: Seq<Sort>,
) -> Result<(TypedValue, Sort), TypingError>
    ensures sort { Gives (λ found. found.1) result (sorts.call_sort function all) }
    ensures tree { IfOk result (λ found. found.0 ≡ TypedValue.Call function arguments) }
{
    let sort = call_sort(function, all.as_slice());
    beside(TypedValue::Call(function, arguments), sort)
}

pub(crate) fn aggregate(
    alloc: Global,
    aggregate: Aggregate,
    is_distinct: bool,
    operand: (TypedValue, Sort),
) -> Result<(TypedValue, Sort), TypingError>
    ensures sort { Gives (λ found. found.1) result (sorts.aggregate_sort aggregate operand.1) }
    ensures tree { IfOk result (λ found. found.0
        ≡ TypedValue.Aggregate aggregate is_distinct operand.0) }
{
    let sort = aggregate_sort(aggregate, operand.1);
    let operand = Boxed::new(alloc, operand.0)?;
    beside(TypedValue::Aggregate(aggregate, is_distinct, operand), sort)
}

// These hold for any trees, so that the check need not look into those that are let go.
/// A tree beside what it is of, where that is known.
pub(crate) fn beside<T: Drop, S: Copy>(tree: T, of: Option<S>) -> Result<(T, S), TypingError>
    ensures of { Gives (λ found. found.1) result of }
    ensures tree { IfOk result (λ found. found.0 ≡ tree) }
{
    match of {
        None => Err(TypingError::Typing),
        Some(of) => Ok((tree, of)),
    }
}

/// A tree, where it is well typed.
pub(crate) fn judged<T: Drop>(is_typed: bool, tree: T) -> Result<T, TypingError>
    ensures typed { IsJudged result is_typed }
    ensures tree { IfOk result (λ found. found ≡ tree) }
{
    if is_typed {
        Ok(tree)
    } else {
        Err(TypingError::Typing)
    }
}

/// Two trees on the heap; fails for want of memory alone.
fn boxed<T: Drop>(alloc: Global, left: T, right: T) -> Result<(Boxed<T>, Boxed<T>), TypingError>
    ensures memory { IsJudged result true }
    ensures left { IfOk result (λ found. found.0 ≡ left) }
    ensures right { IfOk result (λ found. found.1 ≡ right) }
{
    let left = Boxed::new(alloc, left)?;
    let right = Boxed::new(alloc, right)?;
    Ok((left, right))
}

/// A tree on the heap beside what it is of; fails for want of memory alone.
pub(crate) fn on_heap<T: Drop, S: Copy>(
    alloc: Global,
    tree: (T, S),
) -> Result<(Boxed<T>, S), TypingError>
    ensures memory { IsJudged result true }
    ensures tree { IfOk result (λ found. found.0 ≡ tree.0) }
    ensures of { IfOk result (λ found. found.1 ≡ tree.1) }
{
    let (tree, of) = tree;
    let tree = Boxed::new(alloc, tree)?;
    Ok((tree, of))
}
