//! Three-valued logic (chapters 4.6.5 and 4.12).
ghost use Rattle.std.specs.Prelude.{◌≡◌};
ghost use Rattle.jpql_meaning.specs.eval.Truths as truths;

use crate::eval::datum::Truth;

/// Yes or no.
pub fn truth_of(holds: bool) -> Truth
    ensures { result ≡ truths.truth_of holds }
{
    if holds { Truth::Yes } else { Truth::No }
}

/// NOT: of unknown it is unknown.
pub fn not3(truth: Truth) -> Truth
    ensures { result ≡ truths.not3 truth }
{
    match truth {
        Truth::Yes => Truth::No,
        Truth::No => Truth::Yes,
        Truth::Unknown => Truth::Unknown,
    }
}

/// AND: no, where either is no.
pub fn and3(left: Truth, right: Truth) -> Truth
    ensures { result ≡ truths.and3 left right }
{
    match (left, right) {
        (Truth::No, _) => Truth::No,
        (Truth::Yes, _) => right,
        (Truth::Unknown, Truth::No) => Truth::No,
        (Truth::Unknown, _) => Truth::Unknown,
    }
}

/// OR: yes, where either is yes.
pub fn or3(left: Truth, right: Truth) -> Truth
    ensures { result ≡ truths.or3 left right }
{
    match (left, right) {
        (Truth::Yes, _) => Truth::Yes,
        (Truth::No, _) => right,
        (Truth::Unknown, Truth::Yes) => Truth::Yes,
        (Truth::Unknown, _) => Truth::Unknown,
    }
}
