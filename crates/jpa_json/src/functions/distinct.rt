//! Lists in which nothing stands twice.
ghost use Rattle.std.specs.Prelude.{◌≡◌, Bool};
ghost use Rattle.std.specs.List.{list_any};
ghost use Rattle.jpa_json.specs.functions.Distinct as distinct;
ghost use Rattle.jpa_json.specs.functions.Pairs.{share_a_side};
ghost use Rattle.jpa_json.specs.functions.Sorts.{share_a_name};

use crate::functions::converting::is_same;
use crate::functions::make::{Function, Make, Pair};

/// What may meet another one in a list.
pub(super) trait Meets {
    /// Whether two of them meet.
    ghost meeting: { Self → Self → Bool };

    /// Whether it meets the other one.
    fn meets(&self, other: &Self) -> bool
        ensures { result ≡ meeting self.now other.now };
}

impl Meets for Function {
    ghost meeting = { share_a_name };

    /// Whether they are of one sort and of one name.
    #[tactic(auto, using(crate::proofs::functions::Names::same_names))]
    fn meets(&self, other: &Function) -> bool {
        match (&self.make, &other.make) {
            (Make::Listener(_), Make::Listener(_)) | (Make::Converter(_), Make::Converter(_)) => {
                self.name.as_str() == other.name.as_str()
            }
            _ => false,
        }
    }
}

impl Meets for Pair {
    ghost meeting = { share_a_side };

    /// Whether a side is the same.
    fn meets(&self, other: &Pair) -> bool {
        is_same(&self.attribute, &other.attribute) || is_same(&self.column, &other.column)
    }
}

fn meets_any<T: Meets>(item: &T, rest: &[T]) -> bool
    ensures { result ≡ list_any (T.meeting item.now) rest.now }
{
    rest.iter().any(|other| item.meets(other))
}

/// Whether no item meets a later one.
pub(super) fn none_meets<T: Meets>(items: &[T]) -> bool
    ensures { result ≡ distinct.none_meets T.meeting items.now }
{
    for (place, item) in items.iter().enumerate() {
        if meets_any(item, &items[place + 1..]) {
            return false;
        }
    }
    true
}
