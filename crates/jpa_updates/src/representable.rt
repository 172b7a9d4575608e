//! What a statement writes are values of the program: integers of 64 bits, texts in UTF-8 and
//! bytes. For contracts to cite; these functions read and do nothing.
ghost use Rattle.std.specs.Prelude.{◌≡◌, ◌&&◌, true};
ghost use Rattle.jpa_rows.specs.rows.Cells as cells;

use jpa_rows::rows::{identity_is_representable, object_is_representable};
use jpa_stored::objects::Stored;
use jpa_value::Identity;

fn entry_is_representable(object: &(Identity, Stored))
    ensures { cells.names_representable object.now.0 && cells.holds_representable object.now.1
        ≡ true }
{
    identity_is_representable(&object.0);
    object_is_representable(&object.1);
}

/// Objects, under their identities, hold values of the program.
pub(crate) fn objects_are_representable(objects: &[(Identity, Stored)])
    ensures { cells.all_representable objects.now ≡ true }
{
    for object in objects {
        entry_is_representable(object);
    }
}
