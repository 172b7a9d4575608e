//! What an object holds are values of the program: integers of 64 bits, texts in UTF-8 and bytes.
//! For contracts to cite; these functions read and do nothing.
ghost use Rattle.std.specs.Prelude.{◌≡◌, true};
ghost use Rattle.std.specs.List.{list_all};
ghost use Rattle.jpa_value.specs.Value.{is_representable};
ghost use Rattle.jpa_rows.specs.rows.Cells as cells;

use crate::rows::values::value_is_representable;
use jpa_stored::objects::Stored;
use jpa_value::{Identity, Seq, Value};

fn values_are_representable(values: &[Value])
    ensures { list_all is_representable values.now ≡ true }
{
    for value in values {
        value_is_representable(value);
    }
}

/// The law of versions, for contracts to cite: each is an integer of 64 bits. It reads and does
/// nothing.
pub fn version_is_representable(version: Option<i64>)
    ensures { cells.version_representable version ≡ true }
{
    if let Some(number) = version {
        let _number = number;
    }
}

/// The law of identities, for contracts to cite: they name by values of the program. It reads and
/// does nothing.
pub fn identity_is_representable(id: &Identity)
    ensures { cells.names_representable id.now ≡ true }
{
    values_are_representable(id.key.as_slice());
}

fn identities_are_representable(ids: &[Identity])
    ensures { list_all cells.names_representable ids.now ≡ true }
{
    for id in ids {
        identity_is_representable(id);
    }
}

fn owned_are_representable(owned: &[Seq<Identity>])
    ensures { list_all (list_all cells.names_representable) owned.now ≡ true }
{
    for ids in owned {
        identities_are_representable(ids.as_slice());
    }
}

/// The law of objects, for contracts to cite: they hold values of the program. It reads and does
/// nothing.
pub fn object_is_representable(object: &Stored)
    ensures { cells.holds_representable object.now ≡ true }
{
    version_is_representable(object.version);
    values_are_representable(object.values.as_slice());
    owned_are_representable(object.owned.as_slice());
}
