//! GROUP BY (chapter 4.8): tuples with the same key stand in one group, and groups in the order of
//! their first tuples.
ghost use Rattle.std.specs.BTreeMap.{get, Updates};
ghost use Rattle.std.specs.Prelude.{◌≡◌, ◌<◌, ◌≤◌, ◌++◌, ◌∷◌, [], length, map, take, slice_index_or, unwrap_or};
ghost use Rattle.std.specs.Prelude.{Some, true, All, OnOk, IfOk, IfSome};
ghost use Rattle.jpql_meaning.specs.eval.Data.{same_data, same_datum};
ghost use Rattle.jpql_meaning.specs.eval.Seen.{seen};
ghost use Rattle.jpql_meaning.specs.plan.Selection.{case_of, put_tuples};
ghost use Rattle.jpql_run.specs.Runs as runs;
ghost use Rattle.jpql_select.specs.select.Cases.{case_in};
ghost use Rattle.jpql_select.specs.select.Keys.{data_cmp};
ghost use Rattle.jpql_select.specs.select.Groups.{groups_in, add_at, begins_with, is_risen};
ghost use Rattle.jpql_select.specs.select.Selects as selects;

use crate::select::case::Case;
use crate::select::key::Key;
use jpql_meaning::eval::{Seen, is_same};
use jpql_run::{Run, Tuple, path};
use jpql_trees::typed::TypedPath;
use std::alloc::{AllocError, Global};
use std::collections::BTreeMap;

/// What a tuple is grouped by.
fn key_at<'a>(
    alloc: Global,
    run: &Run<'a>,
    paths: &[TypedPath],
    tuple: &Tuple<'a>,
) -> Result<Key<'a>, AllocError>
    ensures { IfOk result (λ key. key ≡ selects.group_key run.now paths.now tuple.now) }
{
    let mut found = Vec::with_capacity(alloc, paths.len())?;
    for one in paths {
        found.push(path(run, tuple, one))?;
    }
    Ok(Key { data: found })
}

/// One more in the group at a place.
fn add<'a>(
    groups: &mut Vec<Vec<Tuple<'a>>>,
    place: usize,
    tuple: Tuple<'a>,
) -> Result<(), AllocError>
    requires { place < length groups.old.items }
    ensures { OnOk result (groups_in groups.new.items
        ≡ add_at (groups_in groups.old.items) place tuple.entry) }
{
    groups[place].push(tuple)?;
    Ok(())
}

/// One more group, of one tuple.
fn begin<'a>(
    alloc: Global,
    groups: &mut Vec<Vec<Tuple<'a>>>,
    tuple: Tuple<'a>,
) -> Result<(), AllocError>
    ensures { OnOk result (groups_in groups.new.items
        ≡ groups_in groups.old.items ++ (tuple.entry ∷ []) ∷ []) }
{
    let mut group = Vec::new(alloc);
    group.push(tuple)?;
    groups.push(group)?;
    Ok(())
}

/// Whether two tuples are grouped by the same.
fn are_alike<'a>(run: &Run<'a>, paths: &[TypedPath], one: &Tuple<'a>, other: &Tuple<'a>) -> bool
    ensures { result ≡ same_data (selects.group_key run.now paths.now one.now)
        (selects.group_key run.now paths.now other.now) }
{
    for by in paths {
        if !is_same(&path(run, one, by), &path(run, other, by)) {
            return false;
        }
    }
    true
}

/// Whether the group at a place, if one is there, is the one that a tuple belongs to.
fn is_at<'a>(
    run: &Run<'a>,
    paths: &[TypedPath],
    groups: &[Vec<Tuple<'a>>],
    place: usize,
    tuple: &Tuple<'a>,
) -> bool
    ensures { let key = selects.group_key run.now paths.now in result
        ≡ begins_with key (key tuple.now) (slice_index_or (groups_in groups.now) place []) }
{
    match groups.get(place) {
        None => false,
        Some(group) => match group.as_slice() {
            [] => false,
            [first, ..] => are_alike(run, paths, first, tuple),
        },
    }
}

/// Whether a path leads a tuple to this datum.
fn leads_to<'a>(run: &Run<'a>, by: &TypedPath, datum: &Seen<'a>, tuple: &Tuple<'a>) -> bool
    ensures { result
        ≡ same_datum (seen datum.now) (runs.path_datum run.now tuple.now by.now) }
{
    is_same(datum, &path(run, tuple, by))
}

/// Whether a tuple is grouped by this key.
fn is_grouped_by<'a>(
    run: &Run<'a>,
    paths: &[TypedPath],
    key: &[Seen<'a>],
    tuple: &Tuple<'a>,
) -> bool
    ensures { result
        ≡ same_data (map seen key.now) (selects.group_key run.now paths.now tuple.now) }
{
    match paths {
        [] => match key {
            [] => true,
            [_, ..] => false,
        },
        [by, others @ ..] => match key {
            [] => false,
            [datum, rest @ ..] => {
                leads_to(run, by, datum, tuple) && is_grouped_by(run, others, rest, tuple)
            }
        },
    }
}

/// How many of these tuples, from the first on, have this key.
fn alike<'a>(run: &Run<'a>, paths: &[TypedPath], key: &Key<'a>, tuples: &[Tuple<'a>]) -> usize
    ensures at_most { result ≤ length tuples.now }
    ensures alike { All (λ t. same_data key.now (selects.group_key run.now paths.now t) ≡ true)
        (take result tuples.now) }
{
    let mut count = 0;
    for tuple in tuples {
        if !is_grouped_by(run, paths, &key.data, tuple) {
            return count;
        }
        count += 1;
    }
    count
}

/// Whether a key stands behind the one before it; the first one does.
fn is_above<'a>(before: &Option<Key<'a>>, key: &Key<'a>) -> bool
    ensures { result ≡ is_risen before.now key.now }
{
    match before {
        None => true,
        Some(before) => before.cmp(key).is_lt(),
    }
}

/// The groups of tuples by these paths, where they stand, if each stands in one place and their
/// keys rise from one to the next.
pub(super) fn rising<'t, 'a>(
    alloc: Global,
    run: &Run<'a>,
    paths: &[TypedPath],
    tuples: &'t [Tuple<'a>],
) -> Result<Option<Vec<Case<'t, 'a>>>, AllocError>
    ensures { IfOk result (λ found. IfSome found (λ cases. map case_in cases.items
        ≡ map case_of (put_tuples (selects.group_key run.now paths.now) [] tuples.now))) }
{
    let mut cases = Vec::new(alloc);
    let mut before = None;
    let mut place = 0;
    while place < tuples.len() {
        let (_, rest) = tuples.split_at(place);
        let [first, others @ ..] = rest else {
            return Ok(None);
        };
        let key = key_at(alloc, run, paths, first)?;
        if !is_above(&before, &key) {
            return Ok(None);
        }
        let count = alike(run, paths, &key, others);
        let (group, _) = rest.split_at(1 + count);
        cases.push(Case {
            tuple: first,
            group,
        })?;
        before = Some(key);
        place += 1 + count;
    }
    Ok(Some(cases))
}

/// The place of a key's group, which is this one where none is there yet; it is found by one walk.
fn place_or<'a>(
    places: &mut BTreeMap<Key<'a>, usize>,
    key: Key<'a>,
    free: usize,
) -> Result<usize, AllocError>
    ensures place { IfOk result (λ place.
        place ≡ unwrap_or (get data_cmp places.old key.entry) free) }
    ensures kept { IfOk result (λ place.
        Updates data_cmp places.old places.new key.entry (Some place)) }
{
    Ok(*places.entry(key)?.or_insert(free))
}

/// The groups of tuples by these paths. The group of the tuple before is tried first.
pub(super) fn grouped<'a>(
    alloc: Global,
    run: &Run<'a>,
    paths: &[TypedPath],
    tuples: Vec<Tuple<'a>>,
) -> Result<Vec<Vec<Tuple<'a>>>, AllocError>
    ensures { IfOk result (λ groups. groups_in groups.items
        ≡ put_tuples (selects.group_key run.now paths.now) [] tuples.entry.items) }
{
    let mut places = BTreeMap::new(alloc);
    let mut groups = Vec::new(alloc);
    let mut last = 0;
    for tuple in tuples {
        if is_at(run, paths, &groups, last, &tuple) {
            add(&mut groups, last, tuple)?;
            continue;
        }
        let key = key_at(alloc, run, paths, &tuple)?;
        last = place_or(&mut places, key, groups.len())?;
        if last < groups.len() {
            add(&mut groups, last, tuple)?;
        } else {
            begin(alloc, &mut groups, tuple)?;
        }
    }
    Ok(groups)
}
