//! What paths are found by.
ghost use Rattle.std.specs.Prelude.{◌≡◌, Some, refl, string_bytes, IfOk};
ghost use Rattle.std.specs.Cmp.{partial_equiv_from_equiv, eq_by_cmp_equiv, partial_order_from_agreeing_total};
ghost use Rattle.std.specs.Str.{str_to_ascii_lowercase};
ghost use Rattle.jpql_types.specs.Indexes.{words_of, words_cmp, same_words, words_total};

use jpa_value::Text;
use std::alloc::{AllocError, Global};
use std::cmp::Ordering;
use std::marker::Model;

/// What a path is found by: its variable in lower case, for the case of that is ignored, and its
/// names.
#[derive(Drop)]
pub(crate) struct PathKey {
    words: Vec<String>,
}

impl Model for PathKey {
    ghost use Rattle.std.specs.Prelude.{List, ℕ, map, string_bytes};

    ghost Value = { List (List ℕ) };

    ghost view = { λ key. map string_bytes key.words.items };
}

/// A text with ASCII's capitals in lower case.
fn lowercase(alloc: Global, text: &Text) -> Result<String, AllocError>
    ensures { IfOk result (λ found. string_bytes found ≡ str_to_ascii_lowercase text.now) }
{
    let mut found = String::from_str(alloc, text.as_str())?;
    found.make_ascii_lowercase();
    Ok(found)
}

impl PathKey {
    /// The key of a path from a variable along these names; fails for want of memory alone.
    pub(crate) fn of(alloc: Global, variable: &Text, names: &[Text]) -> Result<PathKey, AllocError>
        ensures { IfOk result (λ key.
            key ≡ words_of (record { variable = variable.now; names = names.now })) }
    {
        let mut words = Vec::new(alloc);
        words.push(lowercase(alloc, variable)?)?;
        for name in names {
            words.push(String::from_str(alloc, name.as_str())?)?;
        }
        Ok(PathKey { words })
    }
}

impl PartialEq for PathKey {
    ghost eq = { same_words };

    ghost laws = { partial_equiv_from_equiv (eq_by_cmp_equiv words_total) };

    fn eq(&self, other: &Self) -> bool {
        self.cmp(other).is_eq()
    }
}

impl Eq for PathKey {
    ghost laws = { eq_by_cmp_equiv words_total };
}

impl PartialOrd for PathKey {
    ghost partial_cmp = { λ x y. Some (words_cmp x y) };

    ghost laws = { partial_order_from_agreeing_total words_cmp words_total (λ x y. refl) (λ x y. refl) };

    fn partial_cmp(&self, other: &Self) -> Option<Ordering> {
        Some(self.cmp(other))
    }
}

impl Ord for PathKey {
    ghost cmp = { words_cmp };

    ghost total = { words_total };

    ghost matches_partial_cmp = { λ x y. refl };

    ghost matches_eq = { λ x y. refl };

    fn cmp(&self, other: &Self) -> Ordering {
        self.words.cmp(&other.words)
    }
}
