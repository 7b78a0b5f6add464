//! The commands that store another state: another active slot, and the lock.
ghost use Rattle.std.specs.Prelude.{◌≡◌, not, true, IsTrue};
ghost use Rattle.fb_message.specs.CommandText.{SetActive, Lock};
ghost use Rattle.dev_model.specs.Partitions.{has_slots, is_fastboot};
ghost use Rattle.wire_model.specs.Says.{Loaded};
ghost use Rattle.dev_store.specs.Held.{IsWhole, DiskKept};
ghost use Rattle.device_engine.specs.Working.{ordered, activated_state, Worked};

use crate::working::{NotDone, ended, is_locked};
use dev_disk::disk::Disk;
use dev_model::device::SlotFlags;
use dev_model::refusal::Refusal;
use dev_store::state::State;
use dev_store::store::Store;
use fb_frame::slot::Slot;

/// The flags of a slot that was made active.
const FRESH: SlotFlags = SlotFlags {
    successful: false,
    unbootable: false,
    retries: 7,
};

/// The state with another active slot, whose flags are those of a slot that was never booted.
fn activated(state: State, slot: Slot) -> State
    ensures activated { result ≡ activated_state slot state }
{
    let [a, b] = state.flags;
    let flags = match slot {
        Slot::A => [FRESH, b],
        Slot::B => [a, FRESH],
    };
    State {
        active: slot,
        flags,
        ..state
    }
}

/// The state of a device that is locked.
fn locked(state: State) -> State
    ensures locked { result ≡ record state { locked = true } }
{
    State {
        locked: true,
        ..state
    }
}

/// Whether the device has no second set of partitions.
fn lacks_slots<K: Disk>(store: &Store<K>) -> bool
    ensures slots { result ≡ not (has_slots store.now.device) }
{
    store.slots() != 2
}

/// Makes a slot active (fastboot README, set_active).
pub(crate) fn set_active<K: Disk>(store: &mut Store<K>, slot: Slot) -> Result<(), NotDone>
    requires whole { IsWhole K.told store.old }
    requires fastboot { IsTrue (is_fastboot store.old.device.mode) }
    ensures worked { (loaded : Loaded) →
        Worked K.told store.old store.new (ordered loaded (SetActive slot)) result }
    ensures kept { DiskKept K.told K.lent store.old.disk store.new.disk }
{
    if is_locked(store) {
        return Err(NotDone::Refused(Refusal::Locked));
    }
    if lacks_slots(store) {
        return Err(NotDone::Refused(Refusal::NoSlots));
    }
    let state = activated(store.state(), slot);
    ended(store.set_state(&state))
}

/// Locks the device (fastboot README, flashing lock).
pub(crate) fn lock<K: Disk>(store: &mut Store<K>) -> Result<(), NotDone>
    requires whole { IsWhole K.told store.old }
    requires fastboot { IsTrue (is_fastboot store.old.device.mode) }
    ensures worked { (loaded : Loaded) → Worked K.told store.old store.new (ordered loaded Lock) result }
    ensures kept { DiskKept K.told K.lent store.old.disk store.new.disk }
{
    if is_locked(store) {
        return Err(NotDone::Refused(Refusal::AlreadyLocked));
    }
    let state = locked(store.state());
    ended(store.set_state(&state))
}
