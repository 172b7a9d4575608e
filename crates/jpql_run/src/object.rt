//! Objects where they stand in a set.
ghost use Rattle.std.specs.Prelude.{◌≡◌, option_map};
ghost use Rattle.jpa_stored.specs.objects.Sets.{stored_at};
ghost use Rattle.jpa_open.specs.Opened as opened;
ghost use Rattle.jpql_run.specs.Objects.{entry};

use jpa_open::OpenSet;
use jpa_stored::objects::Stored;
use jpa_value::Identity;

/// An object of a set, where it stands.
#[derive(Clone, Copy)]
pub struct Object<'a> {
    /// Its identity, and what is stored of it.
    pub at: &'a (Identity, Stored),
}

/// The object under an identity, if one stands there.
pub fn object_of<'a>(set: &'a OpenSet, id: &Identity) -> Option<Object<'a>>
    ensures { option_map entry result
        ≡ option_map (λ x. (id.now, x)) (stored_at (opened.now set.now) id.now) }
{
    match set.entry_of(id) {
        None => None,
        Some(at) => Some(Object { at }),
    }
}
