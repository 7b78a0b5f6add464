//! The commands that change the table of the logical partitions, which a device takes in userspace.
ghost use Rattle.std.specs.Prelude.{◌≡◌, option_map, Some, None, IsTrue};
ghost use Rattle.dev_model.specs.Partitions.{is_fastboot, is_super};
ghost use Rattle.dev_model.specs.RefusalTexts.{text_of};
ghost use Rattle.fb_message.specs.CommandText.{Create, Delete, Resize, UpdateSuper};
ghost use Rattle.wire_model.specs.Says.{Loaded as LoadedValue};
ghost use Rattle.dev_store.specs.Held.{IsWhole, DiskKept};
ghost use Rattle.device_engine.specs.Running.{order};
ghost use Rattle.device_engine.specs.Working.{ordered, Worked, userspace_bar};

use crate::device::Loaded;
use crate::working::{NotDone, ended, loaded_bytes};
use dev_disk::disk::Disk;
use dev_model::refusal::Refusal;
use dev_store::store::Store;
use fb_frame::name::Name;

/// Why no command changes the table: the device is locked, or runs the bootloader.
fn bar<K: Disk>(store: &Store<K>) -> Option<Refusal>
    ensures bar { option_map text_of result ≡ userspace_bar store.now.device }
{
    let state = store.state();
    if state.locked {
        return Some(Refusal::Locked);
    }
    if !state.userspace {
        return Some(Refusal::UserspaceOnly);
    }
    None
}

/// Makes a logical partition (fastbootd, create-logical-partition).
pub(crate) fn create<K: Disk>(store: &mut Store<K>, name: &Name, size: u64) -> Result<(), NotDone>
    requires whole { IsWhole K.told store.old }
    requires fastboot { IsTrue (is_fastboot store.old.device.mode) }
    ensures worked { (loaded : LoadedValue) →
        Worked K.told store.old store.new (ordered loaded (Create name.now size)) result }
    ensures kept { DiskKept K.told K.lent store.old.disk store.new.disk }
{
    match bar(store) {
        Some(refusal) => Err(NotDone::Refused(refusal)),
        None => ended(store.create(name, size)),
    }
}

/// Takes a logical partition away (fastbootd, delete-logical-partition).
pub(crate) fn delete<K: Disk>(store: &mut Store<K>, name: &Name) -> Result<(), NotDone>
    requires whole { IsWhole K.told store.old }
    requires fastboot { IsTrue (is_fastboot store.old.device.mode) }
    ensures worked { (loaded : LoadedValue) →
        Worked K.told store.old store.new (ordered loaded (Delete name.now)) result }
    ensures kept { DiskKept K.told K.lent store.old.disk store.new.disk }
{
    match bar(store) {
        Some(refusal) => Err(NotDone::Refused(refusal)),
        None => ended(store.delete(name)),
    }
}

/// Gives a logical partition another length (fastbootd, resize-logical-partition).
pub(crate) fn resize<K: Disk>(store: &mut Store<K>, name: &Name, size: u64) -> Result<(), NotDone>
    requires whole { IsWhole K.told store.old }
    requires fastboot { IsTrue (is_fastboot store.old.device.mode) }
    ensures worked { (loaded : LoadedValue) →
        Worked K.told store.old store.new (ordered loaded (Resize name.now size)) result }
    ensures kept { DiskKept K.told K.lent store.old.disk store.new.disk }
{
    match bar(store) {
        Some(refusal) => Err(NotDone::Refused(refusal)),
        None => ended(store.resize(name, size)),
    }
}

/// Whether super has the name.
fn is_super<K: Disk>(store: &Store<K>, name: &Name) -> bool
    ensures named { result ≡ is_super store.now.device name.now }
{
    match store.super_name() {
        Some(own) => own == *name,
        None => false,
    }
}

/// Installs the table of a file in a super of the name.
fn install<K: Disk>(
    store: &mut Store<K>,
    name: &Name,
    wipe: bool,
    file: &[u8],
) -> Result<(), NotDone>
    requires whole { IsWhole K.told store.old }
    requires free { userspace_bar store.old.device ≡ None }
    ensures worked { Worked K.told store.old store.new
        (ordered (Some file.now) (UpdateSuper name.now wipe)) result }
    ensures kept { DiskKept K.told K.lent store.old.disk store.new.disk }
{
    if is_super(store, name) {
        ended(store.install_table(file, wipe))
    } else {
        Err(NotDone::Refused(Refusal::NoSuchPartition))
    }
}

/// Installs the table of what was downloaded.
fn install_loaded<K: Disk>(
    store: &mut Store<K>,
    name: &Name,
    wipe: bool,
    loaded: &Loaded<'_>,
) -> Result<(), NotDone>
    requires whole { IsWhole K.told store.old }
    requires free { userspace_bar store.old.device ≡ None }
    ensures worked { Worked K.told store.old store.new (order loaded.now (UpdateSuper name.now wipe)) result }
    ensures kept { DiskKept K.told K.lent store.old.disk store.new.disk }
{
    match loaded_bytes(loaded) {
        Some(file) => install(store, name, wipe, file),
        None => Err(NotDone::Refused(Refusal::NothingDownloaded)),
    }
}

/// Installs the table of what was downloaded, and takes the old partitions away where all are wiped
/// (fastbootd, update-super).
pub(crate) fn update_super<K: Disk>(
    store: &mut Store<K>,
    name: &Name,
    wipe: bool,
    loaded: &Loaded<'_>,
) -> Result<(), NotDone>
    requires whole { IsWhole K.told store.old }
    requires fastboot { IsTrue (is_fastboot store.old.device.mode) }
    ensures worked { Worked K.told store.old store.new (order loaded.now (UpdateSuper name.now wipe)) result }
    ensures kept { DiskKept K.told K.lent store.old.disk store.new.disk }
{
    match bar(store) {
        Some(refusal) => Err(NotDone::Refused(refusal)),
        None => install_loaded(store, name, wipe, loaded),
    }
}
