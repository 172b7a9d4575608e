//! Lists in which a path is found without a walk.
ghost use Rattle.std.specs.Prelude.{◌≡◌, List, ℕ, Option, Some, IfOk};
ghost use Rattle.std.specs.BTreeSet.{contains};
ghost use Rattle.std.specs.List.{list_any};
ghost use Rattle.std.specs.Option.{option_copied};
ghost use Rattle.jpql_trees.specs.declared.tree.Path.{Path};
ghost use Rattle.jpql_types.specs.Indexes.{is_path, path_in, has_words, words_cmp};

use crate::index::path_key::PathKey;
use jpa_value::Text;
use jpql_trees::tree::{Item, Path, Value};
use std::alloc::{AllocError, Global};
use std::collections::BTreeSet;
use std::marker::Model;

/// What may be a path.
pub(crate) trait Pathed {
    ghost path_of: { Self → Option Path };

    fn path(&self) -> Option<&Path>
        ensures { option_copied result ≡ path_of self.now };
}

impl Pathed for Path {
    ghost path_of = { λ path. Some path };

    fn path(&self) -> Option<&Path> {
        Some(self)
    }
}

impl Pathed for Item {
    ghost path_of = { λ item. path_in item.value };

    fn path(&self) -> Option<&Path> {
        match &self.value {
            Value::Path(path) => Some(path),
            _ => None,
        }
    }
}

/// A list beside the paths in it, seen by contracts as the list.
#[derive(Drop)]
pub(crate) struct PathIndex<'a, T: Pathed> {
    items: &'a [T],
    paths: BTreeSet<PathKey>,
}

impl<'a, T: Pathed> Model for PathIndex<'a, T> {
    ghost use Rattle.std.specs.Prelude.{◌≡◌, List, ℕ};
    ghost use Rattle.std.specs.BTreeSet.{contains};
    ghost use Rattle.std.specs.Coded.{coded_list};
    ghost use Rattle.std.specs.List.{list_any};
    ghost use Rattle.jpql_types.specs.Indexes.{has_words, words_cmp};

    ghost Value = { List T };

    ghost coded = { coded_list T.code };

    ghost view = { λ index. index.items.now };

    ghost invariant = { λ index. (q : List (List ℕ)) → contains words_cmp index.paths q
        ≡ list_any (λ x. has_words q (T.path_of x)) index.items.now };
}

/// The paths among these.
fn paths_of<T: Pathed>(alloc: Global, items: &[T]) -> Result<BTreeSet<PathKey>, AllocError>
    ensures { IfOk result (λ paths. (q : List (List ℕ)) → contains words_cmp paths q
        ≡ list_any (λ x. has_words q (T.path_of x)) items.now) }
{
    let mut paths = BTreeSet::new(alloc);
    for item in items {
        if let Some(path) = item.path() {
            let names = path.names.as_slice();
            paths.insert(PathKey::of(alloc, &path.variable, names)?)?;
        }
    }
    Ok(paths)
}

impl<'a, T: Pathed> PathIndex<'a, T> {
    /// This list; fails for want of memory alone.
    pub(crate) fn of(alloc: Global, items: &'a [T]) -> Result<PathIndex<'a, T>, AllocError>
        ensures { IfOk result (λ index. index ≡ items.now) }
    {
        let paths = paths_of(alloc, items)?;
        Ok(PathIndex { items, paths })
    }

    /// Whether one is the path from a variable along these names; fails for want of memory alone.
    pub(crate) fn has(
        &self,
        alloc: Global,
        variable: &Text,
        names: &[Text],
    ) -> Result<bool, AllocError>
        ensures { IfOk result (λ has. has ≡ list_any (λ x. is_path
            (record { variable = variable.now; names = names.now }) (T.path_of x)) self.now) }
    {
        let key = PathKey::of(alloc, variable, names)?;
        Ok(self.paths.contains(&key))
    }
}
