//! UPPER, LOWER and TRIM (chapter 4.7.2).
ghost use Rattle.std.specs.Prelude.{◌≡◌, IfOk};
ghost use Rattle.std.specs.StrCase.Lower.{str_to_lowercase};
ghost use Rattle.std.specs.StrCase.Upper.{str_to_uppercase};
ghost use Rattle.jpql_meaning.specs.eval.Trims as trims;

use jpa_value::Text;
use jpql_trees::tree::Trimmed;
use std::alloc::{AllocError, Global};

/// A text in upper case, by Unicode's full mapping: `ß` is `SS`.
pub(super) fn upper(alloc: Global, text: &str) -> Result<Text, AllocError>
    ensures { IfOk result (λ upper. upper ≡ str_to_uppercase text.now) }
{
    Text::from_string(text.to_uppercase(alloc)?)
}

/// A text in lower case, by Unicode's full mapping: `Σ` that ends a word is `ς`.
pub(super) fn lower(alloc: Global, text: &str) -> Result<Text, AllocError>
    ensures { IfOk result (λ lower. lower ≡ str_to_lowercase text.now) }
{
    Text::from_string(text.to_lowercase(alloc)?)
}

/// A text without another at its front, as often as it stands there.
fn trimmed_front<'a>(text: &'a str, off: &str) -> &'a str
    ensures { result.now ≡ trims.trimmed_front off.now text.now }
{
    text.trim_start_matches(off)
}

/// A text without another at its end, as often as it stands there.
fn trimmed_end<'a>(text: &'a str, off: &str) -> &'a str
    ensures { result.now ≡ trims.trimmed_end off.now text.now }
{
    text.trim_end_matches(off)
}

/// A text without another at these sides, as often as it stands there; an empty one takes off
/// nothing.
pub(super) fn trimmed<'a>(sides: Trimmed, text: &'a str, off: &str) -> &'a str
    ensures { result.now ≡ trims.trimmed sides off.now text.now }
{
    match sides {
        Trimmed::Leading => trimmed_front(text, off),
        Trimmed::Trailing => trimmed_end(text, off),
        Trimmed::Both => trimmed_end(trimmed_front(text, off), off),
    }
}
