//! What unlocking does to an open image.
ghost use Rattle.std.specs.Prelude.{◌≡◌, ℕ, length, codes, false, IsTrue, IsFalse, OnOk, OnErr, IfOk, IfErr};
ghost use Rattle.fb_frame.specs.Causes.{Rose};
ghost use Rattle.dev_model.specs.Partitions.{is_fastboot};
ghost use Rattle.dev_store.specs.Faults.{IsHonest};
ghost use Rattle.dev_store.specs.Held.{IsSound, IsWhole, DiskKept, image_of};
ghost use Rattle.dev_store.specs.StoreCalls.{StandsAround};
ghost use Rattle.device_jobs.specs.Printed.{unlocked_line};
ghost use Rattle.device_jobs.specs.Unlocking.{IsPartlyWiped, IsWiped, without_lock, LeavesStore, EndsUnlocked};
ghost use Rattle.device_jobs.specs.Working.{IsReadStop};

use crate::job::JobError;
use crate::lines::unlocked_line;
use dev_disk::disk::{Disk, DiskFault};
use dev_store::store::Store;
use fb_frame::name::Name;
use std::alloc::Global;

/// The partition of the user's data.
fn userdata() -> Name
    ensures { result ≡ codes "userdata" }
{
    Name::read(b"userdata").unwrap()
}

/// Fills `userdata` with 0xFF, where there is such a partition, and waits until that is kept.
fn wipe<K: Disk>(store: &mut Store<K>) -> Result<(), DiskFault>
    requires whole { IsWhole K.told store.old }
    ensures wiped { OnOk result (IsWiped (image_of K.told store.new) store.old.device store.new.device) }
    ensures mode { OnOk result (store.new.device.mode ≡ store.old.device.mode) }
    ensures whole { OnOk result (IsWhole K.told store.new) }
    ensures left { IsPartlyWiped (image_of K.told store.new) store.old.device store.new.device }
    ensures sound { IsSound K.told store.new }
    ensures kept { DiskKept K.told K.lent store.old.disk store.new.disk }
    ensures cause { OnErr result (Rose (K.told store.old.disk).faults (K.told store.new.disk).faults) }
{
    let name = userdata();
    let Some(size) = store.length(&name) else {
        return Ok(());
    };
    let Ok(()) = store.fill_part(&name, 0, size, [0xFF; 4]) else {
        return Err(DiskFault);
    };
    let Ok(()) = store.sync() else {
        return Err(DiskFault);
    };
    Ok(())
}

/// Stores that the device is unlocked.
fn store_unlocked<K: Disk>(store: &mut Store<K>) -> Result<(), DiskFault>
    requires whole { IsWhole K.told store.old }
    requires fastboot { IsTrue (is_fastboot store.old.device.mode) }
    ensures stored { OnOk result (store.new.device ≡ without_lock store.old.device) }
    ensures around { OnErr result (IsHonest (K.told store.new.disk).torn →
        StandsAround (image_of K.told store.new) store.old.device (without_lock store.old.device)) }
    ensures whole { OnOk result (IsWhole K.told store.new) }
    ensures kept { DiskKept K.told K.lent store.old.disk store.new.disk }
    ensures cause { OnErr result (Rose (K.told store.old.disk).faults (K.told store.new.disk).faults) }
{
    let mut state = store.state();
    state.locked = false;
    let Ok(()) = store.set_state(&state) else {
        return Err(DiskFault);
    };
    Ok(())
}

/// Wipes the user's data of a locked device, and then stores that it is unlocked.
fn wipe_and_unlock<K: Disk>(store: &mut Store<K>) -> Result<(), DiskFault>
    requires whole { IsWhole K.told store.old }
    requires fastboot { IsTrue (is_fastboot store.old.device.mode) }
    requires locked { IsTrue store.old.device.locked }
    ensures done { OnOk result (EndsUnlocked (image_of K.told store.new) store.old.device) }
    ensures left { IsHonest (K.told store.new.disk).torn →
        LeavesStore (image_of K.told store.new) store.old.device }
    ensures kept { DiskKept K.told K.lent store.old.disk store.new.disk }
    ensures cause { OnErr result (Rose (K.told store.old.disk).faults (K.told store.new.disk).faults) }
{
    let Ok(()) = wipe(store) else {
        return Err(DiskFault);
    };
    let Ok(()) = store_unlocked(store) else {
        return Err(DiskFault);
    };
    Ok(())
}

/// Unlocks a device that is locked.
fn unlock_device<K: Disk>(store: &mut Store<K>) -> Result<(), DiskFault>
    requires whole { IsWhole K.told store.old }
    requires fastboot { IsTrue (is_fastboot store.old.device.mode) }
    ensures done { OnOk result (EndsUnlocked (image_of K.told store.new) store.old.device) }
    ensures left { IsHonest (K.told store.new.disk).torn →
        LeavesStore (image_of K.told store.new) store.old.device }
    ensures kept { DiskKept K.told K.lent store.old.disk store.new.disk }
    ensures cause { OnErr result (Rose (K.told store.old.disk).faults (K.told store.new.disk).faults) }
{
    if !store.state().locked {
        return Ok(());
    }
    wipe_and_unlock(store)
}

/// Unlocks a device that is locked, and answers the line that says so. The line is made first.
pub(crate) fn unlock_store<K: Disk>(
    alloc: Global,
    store: &mut Store<K>,
) -> Result<Vec<u8>, JobError>
    requires whole { IsWhole K.told store.old }
    requires fastboot { IsTrue (is_fastboot store.old.device.mode) }
    ensures text { IfOk result (λ text. text.items ≡ unlocked_line store.old.device.locked) }
    ensures stops { IfErr result
        (IsReadStop (Rose (K.told store.old.disk).faults (K.told store.new.disk).faults)) }
    ensures done { OnOk result (EndsUnlocked (image_of K.told store.new) store.old.device) }
    ensures left { IsHonest (K.told store.new.disk).torn →
        LeavesStore (image_of K.told store.new) store.old.device }
    ensures kept { DiskKept K.told K.lent store.old.disk store.new.disk }
{
    let line = unlocked_line(alloc, store.state().locked)?;
    let Ok(()) = unlock_device(store) else {
        return Err(JobError::Disk);
    };
    Ok(line)
}
