//! Names of the values of collections among what is bound.
ghost use Rattle.std.specs.Prelude.{◌≡◌, ◌≤◌, length};
ghost use Rattle.jpa_asked.specs.Asking as asking;

use crate::asked::Binding;
use jpql_grammar::grammar::GivenList;

/// Whether a name has a comma.
fn has_comma(name: &str) -> bool
    ensures { result ≡ asking.has_comma name.now }
{
    name.as_bytes().iter().any(|byte| *byte == b',')
}

/// How many names have a comma.
fn values_bound(bindings: &[Binding]) -> usize
    ensures value { result ≡ asking.values_bound bindings.now }
{
    let mut count = 0;
    for binding in bindings {
        if has_comma(binding.name.as_str()) {
            count += 1;
        }
    }
    count
}

/// Whether the values of lists alone have names with a comma.
pub(crate) fn are_apart(lists: &[GivenList], bindings: &[Binding]) -> bool
    ensures { result ≡ asking.are_apart lists.now bindings.now }
{
    let mut left = values_bound(bindings);
    for list in lists {
        if list.count > left {
            return false;
        }
        left -= list.count;
    }
    left == 0
}
