//! The commands that write the bytes of a partition.
ghost use Rattle.std.specs.Prelude.{◌≡◌, ◌^◌, ◌<◌, length, nat_lt, Some, IsTrue, IsFalse, OnOk, OnErr};
ghost use Rattle.fb_frame.specs.Causes.{Rose};
ghost use Rattle.dev_disk.specs.Disks.{FilesKept};
ghost use Rattle.dev_model.specs.declared.step.Step.TheVariants.{Put, Wipe};
ghost use Rattle.dev_model.specs.Partitions.{is_fastboot, is_target};
ghost use Rattle.dev_model.specs.Steps.{apply};
ghost use Rattle.fb_message.specs.CommandText.{Flash, Erase};
ghost use Rattle.wire_model.specs.Says.{Loaded as LoadedValue};
ghost use Rattle.sparse_image.specs.Runs.{IsImage};
ghost use Rattle.dev_store.specs.Held.{IsSound, IsWhole, DiskKept};
ghost use Rattle.dev_store.specs.StoreCalls.{Changes, part_bytes};
ghost use Rattle.device_engine.specs.Putting.{is_target_by, HasRoom, IsTornOver, IsTornUnder};
ghost use Rattle.device_engine.specs.Running.{order};
ghost use Rattle.device_engine.specs.Working.{ordered, Worked};

use crate::device::Loaded;
use crate::put_runs::{put_fill, put_runs};
use crate::working::{NotDone, is_locked, loaded_bytes};
use dev_disk::disk::{Disk, DiskFault};
use dev_model::refusal::Refusal;
use dev_store::store::Store;
use fb_frame::name::Name;
use sparse_image::image_runs::runs;
use sparse_image::runs::Runs;

/// Whether a partition is flashed and erased, by its kind, where there is one, and by what runs.
fn by_kind(logical: Option<bool>, userspace: bool) -> bool
    ensures target { result ≡ is_target_by logical userspace }
{
    match logical {
        None => false,
        Some(false) => true,
        Some(true) => userspace,
    }
}

/// Whether the device flashes and erases the partition of a name in its mode: the logical ones in userspace
/// alone.
fn is_target<K: Disk>(store: &Store<K>, name: &Name) -> bool
    requires whole { IsWhole K.told store.now }
    ensures target { result ≡ is_target store.now.device name.now }
{
    by_kind(store.is_logical(name), store.state().userspace)
}

/// How many bytes the partition of a name has, none where there is no such partition.
fn size_of<K: Disk>(store: &Store<K>, name: &Name) -> u64
    ensures size { result ≡ length (part_bytes name.now store.now.device) }
{
    match store.length(name) {
        Some(length) => length,
        None => 0,
    }
}

/// Waits until what was written is kept.
fn keep<K: Disk>(store: &mut Store<K>) -> Result<(), DiskFault>
    requires usable { IsFalse store.old.broken }
    ensures device { store.new.device ≡ store.old.device }
    ensures whole { OnOk result (IsWhole K.told store.new) }
    ensures sound { IsSound K.told store.new }
    ensures cause { OnErr result (Rose (K.told store.old.disk).faults (K.told store.new.disk).faults) }
    ensures files { FilesKept (K.told store.old.disk) (K.told store.new.disk) }
    ensures same { K.lent store.new.disk ≡ K.lent store.old.disk }
{
    let Ok(()) = store.sync() else {
        return Err(DiskFault);
    };
    Ok(())
}

/// Writes 0xFF over all bytes of a partition, and waits until they are kept.
fn wipe<K: Disk>(store: &mut Store<K>, name: &Name) -> Result<(), DiskFault>
    requires whole { IsWhole K.told store.old }
    requires there { IsTrue (is_target store.old.device name.now) }
    ensures wiped { OnOk result (Changes K.told (apply (Wipe name.now)) store.old store.new) }
    ensures whole { OnOk result (IsWhole K.told store.new) }
    ensures torn { OnErr result (IsTornOver K.told name.now store.old store.new) }
    ensures kept { DiskKept K.told K.lent store.old.disk store.new.disk }
{
    let size = size_of(store, name);
    let Ok(()) = put_fill(store, name, 0, size, [255; 4]) else {
        return Err(DiskFault);
    };
    keep(store)
}

/// Erases a partition: each byte becomes 0xFF (fastboot README, erase).
pub(crate) fn erase<K: Disk>(store: &mut Store<K>, name: &Name) -> Result<(), NotDone>
    requires whole { IsWhole K.told store.old }
    requires fastboot { IsTrue (is_fastboot store.old.device.mode) }
    ensures worked { (loaded : LoadedValue) →
        Worked K.told store.old store.new (ordered loaded (Erase name.now)) result }
    ensures kept { DiskKept K.told K.lent store.old.disk store.new.disk }
{
    if is_locked(store) {
        return Err(NotDone::Refused(Refusal::Locked));
    }
    if !is_target(store, name) {
        return Err(NotDone::Refused(Refusal::NoSuchPartition));
    }
    let Ok(()) = wipe(store, name) else {
        return Err(NotDone::Disk);
    };
    Ok(())
}

/// Whether an image is longer than what it is put over.
fn is_longer(size: u64, image: u64) -> bool
    ensures longer { result ≡ nat_lt size image }
{
    size < image
}

/// Puts an image over a partition, and waits until it is kept.
fn put_image<K: Disk>(
    store: &mut Store<K>,
    name: &Name,
    runs: &mut Runs<'_>,
) -> Result<(), DiskFault>
    requires image { IsImage (Some runs.old.cells) runs.old }
    requires small { runs.old.len < 2 ^ 64 }
    requires room { HasRoom K.told name.now runs.old.len store.old }
    ensures put { OnOk result (Changes K.told (apply (Put name.now runs.old.cells)) store.old store.new) }
    ensures whole { OnOk result (IsWhole K.told store.new) }
    ensures torn { OnErr result (IsTornUnder K.told name.now runs.old.cells store.old store.new) }
    ensures kept { DiskKept K.told K.lent store.old.disk store.new.disk }
{
    let Ok(()) = put_runs(store, name, runs) else {
        return Err(DiskFault);
    };
    keep(store)
}

/// Puts the image of a file over a partition.
fn flash_file<K: Disk>(store: &mut Store<K>, name: &Name, file: &[u8]) -> Result<(), NotDone>
    requires whole { IsWhole K.told store.old }
    requires unlocked { IsFalse store.old.device.locked }
    ensures worked { Worked K.told store.old store.new (ordered (Some file.now) (Flash name.now)) result }
    ensures kept { DiskKept K.told K.lent store.old.disk store.new.disk }
{
    if !is_target(store, name) {
        return Err(NotDone::Refused(Refusal::NoSuchPartition));
    }
    let Ok(mut runs) = runs(file) else {
        return Err(NotDone::Refused(Refusal::BadImage));
    };
    if is_longer(size_of(store, name), runs.len()) {
        return Err(NotDone::Refused(Refusal::ImageTooLarge));
    }
    let Ok(()) = put_image(store, name, &mut runs) else {
        return Err(NotDone::Disk);
    };
    Ok(())
}

/// Puts the image that was downloaded over a partition (fastboot README, flash).
pub(crate) fn flash<K: Disk>(
    store: &mut Store<K>,
    name: &Name,
    loaded: &Loaded<'_>,
) -> Result<(), NotDone>
    requires whole { IsWhole K.told store.old }
    requires fastboot { IsTrue (is_fastboot store.old.device.mode) }
    ensures worked { Worked K.told store.old store.new (order loaded.now (Flash name.now)) result }
    ensures kept { DiskKept K.told K.lent store.old.disk store.new.disk }
{
    if is_locked(store) {
        return Err(NotDone::Refused(Refusal::Locked));
    }
    match loaded_bytes(loaded) {
        Some(file) => flash_file(store, name, file),
        None => Err(NotDone::Refused(Refusal::NothingDownloaded)),
    }
}
