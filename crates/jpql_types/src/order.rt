//! Keys of ORDER BY: items by their names, paths and other values (chapter 4.10).
ghost use Rattle.std.specs.Prelude.{◌≡◌, ◌&&◌, ◌||◌, not, map, Option, Some, option_map, IfSome, IfOk};
ghost use Rattle.std.specs.List.{list_any, list_all, position_from};
ghost use Rattle.jpa_model.specs.WellFormed.{is_some_that};
ghost use Rattle.jpql_types.specs.Gives.{IsJudged};
ghost use Rattle.jpql_types.specs.Keys.{AreItems};
ghost use Rattle.jpql_types.specs.Sorts.{is_basic};
ghost use Rattle.jpql_types.specs.Typing as typing;
ghost use Rattle.jpql_types.specs.Statements as spec;
ghost use Rattle.jpql_types.specs.Trees as trees;
ghost use Rattle.jpql_types.specs.Within.{IsScope};

use crate::context::Context;
use crate::error::TypingError;
use crate::groups::names_variable;
use crate::index::{NameIndex, PathIndex};
use crate::nodes::judged;
use crate::scope::{Clause, Variable};
use crate::sort::Sort;
use crate::values::{typed_path, typed_value};
use jpa_value::{Seq, Text};
use jpql_trees::tree::{Item, Path, Select, SortKey, Sorted, Value};
use jpql_trees::typed::{TypedKey, TypedSorted};
use std::alloc::{AllocError, Global};

/// The items of a SELECT, found by the names and by the paths that they have.
#[derive(Drop)]
struct Items<'a> {
    names: NameIndex<'a, Item>,
    paths: PathIndex<'a, Item>,
}

/// These items; fails for want of memory alone.
fn items_of<'a>(alloc: Global, items: &'a [Item]) -> Result<Items<'a>, AllocError>
    ensures names { IfOk result (λ found. found.names ≡ items.now) }
    ensures paths { IfOk result (λ found. found.paths ≡ items.now) }
{
    let names = NameIndex::of(alloc, items)?;
    let paths = PathIndex::of(alloc, items)?;
    Ok(Items { names, paths })
}

fn place_of_name(items: &NameIndex<'_, Item>, name: &Text) -> Option<usize>
    ensures { result ≡ position_from (trees.is_named name.now) 0 items.now }
{
    items.place(name)
}

/// Whether DISTINCT keeps a path of so many steps: it is an item, or one step from a variable that
/// is one.
fn is_kept(
    alloc: Global,
    items: &PathIndex<'_, Item>,
    path: &Path,
    steps: usize,
) -> Result<bool, AllocError>
    ensures { IfOk result (λ is. is
        ≡ list_any (λ i. spec.is_kept_by path.now steps i.value) items.now) }
{
    if items.has(alloc, &path.variable, path.names.as_slice())? {
        return Ok(true);
    }
    let has_variable = items.has(alloc, &path.variable, &[])?;
    Ok(has_variable && steps == 1)
}

/// The place of the item of a name, of items that are of these sorts, and its sort.
fn item_named(items: &NameIndex<'_, Item>, sorts: &[Sort], name: &Text) -> Option<(usize, Sort)>
    ensures sort { (sort : Item → Option Sort) → typing.all_some (map sort items.now)
        ≡ Some sorts.now → option_map (λ found. found.1) result
        ≡ spec.sort_named sort items.now name.now }
    ensures place { IfSome result (λ found. position_from (trees.is_named name.now) 0 items.now
        ≡ Some found.0) }
{
    let place = place_of_name(items, name)?;
    let sort = sorts.get(place)?;
    Some((place, *sort))
}

/// What a key that is a name sorts by.
fn by_name(
    items: &NameIndex<'_, Item>,
    sorts: &[Sort],
    name: &Text,
) -> Result<TypedSorted, TypingError>
    ensures typed { (sort : Item → Option Sort) → typing.all_some (map sort items.now)
        ≡ Some sorts.now → IsJudged result
        (is_some_that is_basic (spec.sort_named sort items.now name.now)) }
    ensures tree { IfOk result (λ found. found ≡ TypedSorted.Item
        (trees.place (position_from (trees.is_named name.now) 0 items.now))) }
{
    let (place, sort) = item_named(items, sorts, name).ok_or(TypingError::Typing)?;
    if sort.is_basic() {
        Ok(TypedSorted::Item(place))
    } else {
        Err(TypingError::Typing)
    }
}

/// Whether rows may be sorted by a path of so many steps to what is of this sort.
fn may_sort(
    alloc: Global,
    select: &Select,
    items: &PathIndex<'_, Item>,
    path: &Path,
    steps: usize,
    sort: Sort,
) -> Result<bool, AllocError>
    requires { items.now ≡ select.now.items }
    ensures { IfOk result (λ may. may ≡ (is_basic sort && (not select.now.is_distinct
        || list_any (λ i. spec.is_kept_by path.now steps i.value) select.now.items))) }
{
    if !sort.is_basic() {
        return Ok(false);
    }
    if !select.is_distinct {
        return Ok(true);
    }
    is_kept(alloc, items, path, steps)
}

/// What a key that is a path sorts by.
fn by_path(
    alloc: Global,
    context: &Context<'_>,
    scope: &[Variable],
    clause: Clause,
    select: &Select,
    items: &PathIndex<'_, Item>,
    path: &Path,
) -> Result<TypedSorted, TypingError>
    requires scope { IsScope context.now.metamodel.now scope.now }
    requires groups { context.now.groups.now ≡ select.now.groups }
    requires clause { clause ≡ spec.select_clause select.now }
    requires items { items.now ≡ select.now.items }
    ensures typed { IsJudged result (is_some_that is_basic
        (spec.sorted_sort context.now.metamodel.now context.now.parameters.now select.now scope.now
        (Sorted.Path path.now)) && (not select.now.is_distinct
        || spec.is_kept context.now.metamodel.now context.now.parameters.now select.now scope.now
        (Sorted.Path path.now))) }
    ensures tree { IfOk result (λ found. found ≡ TypedSorted.Path
        (trees.typed_path context.now.metamodel.now context.now.parameters.now scope.now
        path.now)) }
{
    let (found, sort) = typed_path(alloc, context, scope, clause, path)?;
    if !may_sort(alloc, select, items, path, found.steps.len(), sort)? {
        return Err(TypingError::Typing);
    }
    Ok(TypedSorted::Path(found))
}

/// What a key that is another value sorts by. DISTINCT keeps no such value, and by one that names
/// no variable rows would stand in no order.
fn by_value(
    alloc: Global,
    context: &Context<'_>,
    scope: &[Variable],
    clause: Clause,
    select: &Select,
    value: &Value,
) -> Result<TypedSorted, TypingError>
    requires scope { IsScope context.now.metamodel.now scope.now }
    requires groups { context.now.groups.now ≡ select.now.groups }
    requires clause { clause ≡ spec.select_clause select.now }
    ensures typed { IsJudged result (is_some_that is_basic
        (spec.sorted_sort context.now.metamodel.now context.now.parameters.now select.now scope.now
        (Sorted.Value value.now)) && (not select.now.is_distinct
        || spec.is_kept context.now.metamodel.now context.now.parameters.now select.now scope.now
        (Sorted.Value value.now))) }
    ensures tree { IfOk result (λ found. found ≡ TypedSorted.Value
        (trees.typed_value context.now.metamodel.now context.now.parameters.now scope.now
        value.now)) }
{
    if select.is_distinct || !names_variable(value) {
        return Err(TypingError::Typing);
    }
    let (found, sort) = typed_value(alloc, context, scope, clause, value)?;
    judged(sort.is_basic(), TypedSorted::Value(found))
}

fn typed_key(
    alloc: Global,
    context: &Context<'_>,
    scope: &[Variable],
    clause: Clause,
    select: &Select,
    items: &Items<'_>,
    sorts: &[Sort],
    key: &SortKey,
) -> Result<TypedKey, TypingError>
    requires scope { IsScope context.now.metamodel.now scope.now }
    requires groups { context.now.groups.now ≡ select.now.groups }
    requires clause { clause ≡ spec.select_clause select.now }
    requires items { AreItems context.now.metamodel.now context.now.parameters.now select.now
        scope.now items.now.names items.now.paths sorts.now }
    ensures typed { IsJudged result (spec.is_key_typed context.now.metamodel.now
        context.now.parameters.now select.now scope.now key.now) }
    ensures tree { IfOk result (λ found. found ≡ trees.typed_key context.now.metamodel.now
        context.now.parameters.now scope.now select.now.items key.now) }
{
    let by = match &key.by {
        Sorted::Name(name) => by_name(&items.names, sorts, name)?,
        Sorted::Path(path) => by_path(alloc, context, scope, clause, select, &items.paths, path)?,
        Sorted::Value(value) => by_value(alloc, context, scope, clause, select, value)?,
    };
    Ok(TypedKey {
        by,
        is_descending: key.is_descending,
    })
}

/// The keys of a SELECT whose items are of these sorts.
pub(crate) fn typed_keys(
    alloc: Global,
    context: &Context<'_>,
    scope: &[Variable],
    clause: Clause,
    select: &Select,
    sorts: &[Sort],
) -> Result<Seq<TypedKey>, TypingError>
    requires scope { IsScope context.now.metamodel.now scope.now }
    requires groups { context.now.groups.now ≡ select.now.groups }
    requires clause { clause ≡ spec.select_clause select.now }
    requires sorts { typing.all_some
        (map (spec.item_sort context.now.metamodel.now context.now.parameters.now select.now
        scope.now) select.now.items) ≡ Some sorts.now }
    ensures typed { IsJudged result
        (list_all (spec.is_key_typed context.now.metamodel.now context.now.parameters.now select.now
        scope.now) select.now.order) }
    ensures trees { IfOk result (λ found. found ≡ map
        (trees.typed_key context.now.metamodel.now context.now.parameters.now scope.now
        select.now.items) select.now.order) }
{
    let items = items_of(alloc, select.items.as_slice())?;
    let mut found = Seq::new(alloc);
    for key in select.order.as_slice() {
        found.push(typed_key(alloc, context, scope, clause, select, &items, sorts, key)?)?;
    }
    Ok(found)
}
