//! Names: their form, finding them, and whether they are distinct.
ghost use Rattle.std.specs.Prelude.{◌≡◌, ◌<◌, ◌++◌, List, ℕ, length, map, find, option_copied, OnOk, IfErr, IfSome};
ghost use Rattle.std.specs.List.{list_any, list_all, position_from};
ghost use Rattle.jpa_model.specs.Drafted as drafted;
ghost use Rattle.jpa_model.specs.Chains.{same_name};
ghost use Rattle.jpa_model.specs.WellFormed.{is_letter, is_letter_or_digit, begins_with_letter, is_name, if_some, are_distinct_by};
ghost use Rattle.jpa_value.specs.declared.refusal.Cause.{Cause};

use jpa_model::{DraftAttribute, DraftEntity, DraftListener, DraftRelation, Part};
use jpa_value::{Cause, Text};

/// What a description gives a name.
pub(super) trait Named {
    ghost name_of: { Self → List ℕ };

    fn name(&self) -> &Text
        ensures { result.now ≡ name_of self.now };
}

impl Named for Text {
    ghost name_of = { λ t. t };

    fn name(&self) -> &Text {
        self
    }
}

impl Named for &Text {
    ghost name_of = { λ t. t.now };

    fn name(&self) -> &Text {
        self
    }
}

impl Named for Part {
    ghost name_of = { λ part. part.name };

    fn name(&self) -> &Text {
        &self.name
    }
}

impl Named for DraftAttribute {
    ghost name_of = { λ a. a.name };

    fn name(&self) -> &Text {
        &self.name
    }
}

impl Named for DraftRelation {
    ghost name_of = { λ r. r.name };

    fn name(&self) -> &Text {
        &self.name
    }
}

impl Named for DraftListener {
    ghost name_of = { λ l. l.name };

    fn name(&self) -> &Text {
        &self.name
    }
}

impl Named for DraftEntity {
    ghost name_of = { λ e. e.name };

    fn name(&self) -> &Text {
        &self.name
    }
}

/// Whether two names are one.
#[tactic(auto, using(crate::proofs::description::SameName::same_names))]
pub(super) fn is_same_name(a: &Text, b: &Text) -> bool
    ensures { result ≡ same_name a.now b.now }
{
    a.as_str() == b.as_str()
}

fn letter(byte: u8) -> bool
    ensures { result ≡ is_letter byte }
{
    (byte >= b'A' && byte <= b'Z') || (byte >= b'a' && byte <= b'z') || byte == b'_'
}

fn letter_or_digit(byte: u8) -> bool
    ensures { result ≡ is_letter_or_digit byte }
{
    letter(byte) || (byte >= b'0' && byte <= b'9')
}

fn starts_with_letter(bytes: &[u8]) -> bool
    ensures { result ≡ begins_with_letter bytes.now }
{
    match bytes {
        [] => false,
        [first, ..] => letter(*first),
    }
}

fn are_letters_or_digits(bytes: &[u8]) -> bool
    ensures { result ≡ list_all is_letter_or_digit bytes.now }
{
    bytes.iter().all(|byte| letter_or_digit(*byte))
}

/// Whether a text has the form of a name: a letter of ASCII or `_`, then letters, digits or `_`, at
/// most 64 bytes.
pub(super) fn has_form_of_name(text: &Text) -> bool
    ensures { result ≡ is_name text.now }
{
    let bytes = text.as_bytes();
    starts_with_letter(bytes) && bytes.len() <= 64 && are_letters_or_digits(bytes)
}

/// Whether a text is absent or has the form of a name.
pub(super) fn may_stand_as_name(text: &Option<Text>) -> bool
    ensures { result ≡ if_some is_name text.now }
{
    match text {
        None => true,
        Some(text) => has_form_of_name(text),
    }
}

/// Whether the names of all items have the form of one.
pub(super) fn are_named<T: Named>(items: &[T]) -> bool
    ensures { result ≡ list_all (λ item. is_name (T.name_of item)) items.now }
{
    items.iter().all(|item| has_form_of_name(item.name()))
}

/// Whether an item has this name.
pub(super) fn has_name<T: Named>(items: &[T], name: &Text) -> bool
    ensures { result ≡ list_any (λ item. same_name name.now (T.name_of item)) items.now }
{
    items.iter().any(|item| is_same_name(name, item.name()))
}

/// Whether no name stands twice.
pub(super) fn are_distinct_names<T: Named>(items: &[T]) -> bool
    ensures { result ≡ are_distinct_by T.name_of items.now }
{
    for (i, item) in items.iter().enumerate() {
        if has_name(&items[i + 1..], item.name()) {
            return false;
        }
    }
    true
}

/// The place of the first item of this name.
pub(super) fn place_by_name<T: Named>(items: &[T], name: &Text) -> Option<usize>
    ensures place { result ≡ position_from (λ item. same_name (T.name_of item) name.now) 0
        items.now }
    ensures within { IfSome result (λ i. i < length items.now) }
{
    for (i, item) in items.iter().enumerate() {
        if is_same_name(item.name(), name) {
            return Some(i);
        }
    }
    None
}

/// The first item of this name.
pub(super) fn find_by_name<'a, T: Named>(items: &'a [T], name: &Text) -> Option<&'a T>
    ensures { option_copied result ≡ find (λ item. same_name (T.name_of item) name.now)
        items.now }
{
    for item in items {
        if is_same_name(item.name(), name) {
            return Some(item);
        }
    }
    None
}

/// The names of the items are added to the list.
pub(super) fn push_names<'a, T: Named>(
    names: &mut Vec<&'a Text>,
    items: &'a [T],
) -> Result<(), Cause>
    ensures added { OnOk result (drafted.names_in names.new.items
        ≡ drafted.names_in names.old.items ++ map T.name_of items.now) }
    ensures err { IfErr result (λ cause. cause ≡ Cause.OutOfMemory) }
{
    for item in items {
        names.push(item.name())?;
    }
    Ok(())
}
