//! What a commit keeps back for the transactions of other managers.
ghost use Rattle.std.specs.Prelude.{◌≡◌, ◌≢◌, ◌<◌, ℕ, length, slice_set, OnOk, IfErr};
ghost use Rattle.jpa_value.specs.declared.refusal.Cause.{Cause};
ghost use Rattle.jpa_open.specs.Opened as opened;
ghost use Rattle.jpa_open.specs.Opened.{IsKeptBack};
ghost use Rattle.jpa_provider.specs.Beside.{AreHeld, AreTold, CanKeepBack, HasRoom, IsTold, SeeStill};
ghost use Rattle.jpa_provider.specs.Serving.{manager_in, open_places};

use crate::session::{EntityManager, status_of};
use jpa_open::OpenSet;
use jpa_value::{Cause, Identity};

/// What stands under these identities is kept back for a manager: its transaction sees what it saw.
fn keep_back_at(
    managers: &mut Vec<EntityManager>,
    place: usize,
    view: &OpenSet,
    ids: &[Identity],
) -> Result<(), Cause>
    requires { place < length managers.old.items }
    ensures set { managers.new.items ≡ slice_set managers.old.items place
        (record (manager_in managers.old.items place)
        { layers = (manager_in managers.new.items place).layers }) }
    ensures same { opened.begun_over (manager_in managers.new.items place).layers view.now.committed
        ≡ opened.begun_over (manager_in managers.old.items place).layers view.now.committed }
    ensures written { ((manager_in managers.new.items place).layers).written
        ≡ ((manager_in managers.old.items place).layers).written }
    ensures told { OnOk result
        (IsKeptBack ((manager_in managers.new.items place).layers).back ids.now) }
    ensures err { IfErr result (λ cause. cause ≡ Cause.OutOfMemory) }
{
    managers[place].layers.keep_back(view, ids)
}

/// And for the manager at a place, unless it is the one at work or has no transaction open.
fn keep_back_if_begun(
    managers: &mut Vec<EntityManager>,
    place: usize,
    manager: usize,
    view: &OpenSet,
    ids: &[Identity],
) -> Result<(), Cause>
    requires { place < length managers.old.items }
    ensures held { AreHeld view.now.committed managers.old.items manager
        view.now.committed managers.new.items }
    ensures elsewhere { (k : ℕ) → k ≢ place
        → manager_in managers.new.items k ≡ manager_in managers.old.items k }
    ensures told { OnOk result (IsTold manager managers.new.items ids.now place) }
    ensures err { IfErr result (λ cause. cause ≡ Cause.OutOfMemory) }
{
    if place != manager && status_of(managers, place).is_begun() {
        keep_back_at(managers, place, view, ids)?;
    }
    Ok(())
}

/// And for each manager but one whose transaction is open; the open managers stand at these places,
/// and no other is looked at. For want of memory, which is the only refusal, all see what they saw
/// too.
fn keep_back_others(
    managers: &mut Vec<EntityManager>,
    places: &[usize],
    manager: usize,
    view: &OpenSet,
    ids: &[Identity],
) -> Result<(), Cause>
    requires { places.now ≡ open_places 0 managers.old.items }
    ensures held { AreHeld view.now.committed managers.old.items manager
        view.now.committed managers.new.items }
    ensures told { OnOk result (AreTold manager managers.new.items ids.now) }
    ensures err { IfErr result (λ cause. cause ≡ Cause.OutOfMemory) }
{
    for place in places {
        keep_back_if_begun(managers, *place, manager, view, ids)?;
    }
    Ok(())
}

/// Before what the manager at work sees is committed: what it changes is kept back for the others,
/// and there is room for it. The open managers stand at these places. A commit takes no memory
/// then, and the others see what they saw. `OutOfMemory` is the only refusal.
pub(crate) fn make_room(
    managers: &mut Vec<EntityManager>,
    places: &[usize],
    manager: usize,
    view: &mut OpenSet,
    ids: &[Identity],
) -> Result<(), Cause>
    requires counted { places.now ≡ open_places 0 managers.old.items }
    requires changed { CanKeepBack view.old ids.now }
    ensures still { SeeStill manager managers.old.items view.old managers.new.items view.new }
    ensures ok { OnOk result (HasRoom manager managers.new.items view.new) }
    ensures err { IfErr result (λ cause. cause ≡ Cause.OutOfMemory) }
{
    keep_back_others(managers, places, manager, view, ids)?;
    view.prepare()
}
