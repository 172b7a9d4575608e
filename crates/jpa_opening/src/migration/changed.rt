//! What attributes are beside revision 1.
ghost use Rattle.std.specs.Prelude.{◌≡◌};
ghost use Rattle.std.specs.Option.{option_copied};
ghost use Rattle.jpa_opening.specs.migration.Migration as migration;
ghost use Rattle.jpa_opening.specs.migration.Changed as changed;

use jpa_description::history::{Change, History};
use jpa_value::Value;

/// What is said of the attribute at a place of a class; nothing is said of one that is kept.
fn change_at(history: &History, class: usize, attribute: usize) -> Option<&Change>
    ensures { option_copied result ≡ changed.change_if history.now class attribute }
{
    match history.classes.as_slice().get(class) {
        Some(class) => class.changes.as_slice().get(attribute),
        None => None,
    }
}

/// The default of the attribute at a place of a class.
pub(super) fn default_at(history: &History, class: usize, attribute: usize) -> Option<&Value>
    ensures { option_copied result
        ≡ migration.default_in (changed.change_at history.now class attribute) }
{
    match change_at(history, class, attribute) {
        Some(Change::New(Some(default))) => Some(default),
        _ => None,
    }
}

/// The column that the attribute at a place of a class had.
pub(super) fn column_before(history: &History, class: usize, attribute: usize) -> Option<u64>
    ensures { result ≡ changed.column_before (changed.change_at history.now class attribute) }
{
    match change_at(history, class, attribute) {
        Some(Change::Moved(was)) => Some(*was),
        _ => None,
    }
}

/// Whether revision 1 has nothing in the column of the attribute at a place of a class.
pub(super) fn is_new_at(history: &History, class: usize, attribute: usize) -> bool
    ensures { result ≡ migration.is_new (changed.change_at history.now class attribute) }
{
    match change_at(history, class, attribute) {
        Some(Change::New(_)) => true,
        Some(Change::Moved(_)) => true,
        _ => false,
    }
}
