//! The objects of a set in rising order, where they stand.
ghost use Rattle.std.specs.Prelude.{◌≡◌, ◌<◌, ◌≤◌, length, take, drop, slice_get, Some, IfOk};
ghost use Rattle.jpa_open.specs.Opened as opened;
ghost use Rattle.jpql_run.specs.Standing.{entries};

use crate::run::Run;
use jpa_open::Shared;
use jpa_stored::objects::Stored;
use jpa_value::Identity;
use std::alloc::{AllocError, Global};

/// Objects of a set with their identities, side by side and in rising order, where they stand.
#[derive(Drop)]
pub(crate) enum Standing<'a> {
    /// What is committed, with no layer of changes over it.
    Unlayered(&'a [Shared<(Identity, Stored)>]),
    /// What is seen through layers of changes.
    Layered(Vec<&'a (Identity, Stored)>),
}

/// The object at a place of what is committed.
fn committed_at(all: &[Shared<(Identity, Stored)>], place: usize) -> &(Identity, Stored)
    requires { place < length all.now }
    ensures { slice_get all.now place ≡ Some result.now }
{
    all[place].get()
}

impl<'a> Standing<'a> {
    /// All objects that the manager at work sees. It takes no memory where no layer of changes lies
    /// over what is committed, and else a pointer for each.
    pub(crate) fn of(alloc: Global, run: &Run<'a>) -> Result<Standing<'a>, AllocError>
        ensures { IfOk result (λ all. entries all ≡ opened.now run.now.set.now) }
    {
        match run.set.unlayered() {
            Some(all) => Ok(Standing::Unlayered(all)),
            None => Ok(Standing::Layered(run.set.entries(alloc)?)),
        }
    }

    /// How many there are.
    pub(crate) fn len(&self) -> usize
        ensures { result ≡ length (entries self.now) }
    {
        match self {
            Standing::Unlayered(all) => all.len(),
            Standing::Layered(all) => all.len(),
        }
    }

    /// The object at a place.
    pub(crate) fn at(&self, place: usize) -> &'a (Identity, Stored)
        requires { place < length (entries self.now) }
        ensures { slice_get (entries self.now) place ≡ Some result.now }
    {
        match self {
            Standing::Unlayered(all) => committed_at(all, place),
            Standing::Layered(all) => all[place],
        }
    }

    /// So many from the first one on.
    pub(crate) fn first(self, count: usize) -> Standing<'a>
        requires { count ≤ length (entries self) }
        ensures { entries result ≡ take count (entries self.entry) }
    {
        match self {
            Standing::Unlayered(all) => Standing::Unlayered(&all[..count]),
            Standing::Layered(all) => {
                let mut left = all;
                left.truncate(count);
                Standing::Layered(left)
            }
        }
    }

    /// Those behind the first so many.
    pub(crate) fn behind(self, count: usize) -> Standing<'a>
        requires { count ≤ length (entries self) }
        ensures { entries result ≡ drop count (entries self.entry) }
    {
        match self {
            Standing::Unlayered(all) => Standing::Unlayered(&all[count..]),
            Standing::Layered(all) => {
                let mut left = all;
                left.rotate_left(count);
                left.truncate(left.len() - count);
                Standing::Layered(left)
            }
        }
    }
}
