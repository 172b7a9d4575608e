//! Lists in which a name is found without a walk.
ghost use Rattle.std.specs.Prelude.{◌≡◌, List, ℕ, Option, Some, find, string_bytes, if◌then◌else◌, OnOk, IfOk};
ghost use Rattle.std.specs.BTreeMap.{get_by_text};
ghost use Rattle.std.specs.List.{list_any, position_from};
ghost use Rattle.std.specs.Option.{option_copied};
ghost use Rattle.jpa_model.specs.Chains.{same_name};
ghost use Rattle.jpql_types.specs.Indexes.{has_name};

use crate::sort::Sort;
use jpa_value::Text;
use jpql_trees::tree::Item;
use std::alloc::{AllocError, Global};
use std::collections::BTreeMap;
use std::marker::Model;

/// What may have a name.
pub(crate) trait Named {
    ghost name_of: { Self → Option (List ℕ) };

    fn name(&self) -> Option<&Text>
        ensures { option_copied result ≡ name_of self.now };
}

impl Named for Text {
    ghost name_of = { λ name. Some name };

    fn name(&self) -> Option<&Text> {
        Some(self)
    }
}

/// A parameter.
impl Named for (Text, Sort) {
    ghost name_of = { λ parameter. Some parameter.0 };

    fn name(&self) -> Option<&Text> {
        Some(&self.0)
    }
}

impl Named for Item {
    ghost name_of = { λ item. item.name };

    fn name(&self) -> Option<&Text> {
        self.name.as_ref()
    }
}

/// A list beside the place of the first of each name in it, seen by contracts as the list.
#[derive(Drop)]
pub(crate) struct NameIndex<'a, T: Named> {
    items: &'a [T],
    places: BTreeMap<String, usize>,
}

impl<'a, T: Named> Model for NameIndex<'a, T> {
    ghost use Rattle.std.specs.Prelude.{◌≡◌, List, ℕ};
    ghost use Rattle.std.specs.BTreeMap.{get_by_text};
    ghost use Rattle.std.specs.Coded.{coded_list};
    ghost use Rattle.std.specs.List.{position_from};
    ghost use Rattle.jpql_types.specs.Indexes.{has_name};

    ghost Value = { List T };

    ghost coded = { coded_list T.code };

    ghost view = { λ index. index.items.now };

    ghost invariant = { λ index. (q : List ℕ) → get_by_text index.places q
        ≡ position_from (λ x. has_name q (T.name_of x)) 0 index.items.now };
}

/// A name gets this place.
fn put(places: &mut BTreeMap<String, usize>, name: String, place: usize) -> Result<(), AllocError>
    ensures { OnOk result ((q : List ℕ) → get_by_text places.new q
        ≡ (if same_name (string_bytes name) q then Some place else get_by_text places.old q)) }
{
    places.insert(name, place)?;
    Ok(())
}

/// The place of the first of each name.
fn places_of<T: Named>(alloc: Global, items: &[T]) -> Result<BTreeMap<String, usize>, AllocError>
    ensures { IfOk result (λ places. (q : List ℕ) → get_by_text places q
        ≡ position_from (λ x. has_name q (T.name_of x)) 0 items.now) }
{
    let mut places = BTreeMap::new(alloc);
    let mut left = items.len();
    while left > 0 {
        left -= 1;
        if let Some(name) = items[left].name() {
            put(&mut places, String::from_str(alloc, name.as_str())?, left)?;
        }
    }
    Ok(places)
}

impl<'a, T: Named> NameIndex<'a, T> {
    /// This list; fails for want of memory alone.
    pub(crate) fn of(alloc: Global, items: &'a [T]) -> Result<NameIndex<'a, T>, AllocError>
        ensures { IfOk result (λ index. index ≡ items.now) }
    {
        let places = places_of(alloc, items)?;
        Ok(NameIndex { items, places })
    }

    /// The list.
    pub(crate) fn as_slice(&self) -> &'a [T]
        ensures { result.now ≡ self.now }
    {
        self.items
    }

    /// The place of the first of a name.
    pub(crate) fn place(&self, name: &Text) -> Option<usize>
        ensures { result ≡ position_from (λ x. has_name name.now (T.name_of x)) 0 self.now }
    {
        self.places.get(name.as_str()).copied()
    }

    /// The first of a name.
    pub(crate) fn first(&self, name: &Text) -> Option<&'a T>
        ensures { option_copied result ≡ find (λ x. has_name name.now (T.name_of x)) self.now }
    {
        let place = self.place(name)?;
        self.items.get(place)
    }

    /// Whether one has a name.
    pub(crate) fn has(&self, name: &Text) -> bool
        ensures { result ≡ list_any (λ x. has_name name.now (T.name_of x)) self.now }
    {
        self.place(name).is_some()
    }
}
