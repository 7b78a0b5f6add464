ghost use Rattle.std.specs.Prelude.{IfOk, IfSome, IsFalse, IsTrue};

use crate::layout_text::layout_text;
use dev_disk::memory::MemoryDisk;
use dev_model::device::{Dev, Logical, Mode, Physical};
use dev_store::layout::read_layout;
use dev_store::make::make;
use dev_store::store::Store;
use fb_frame::name::Name;
use std::alloc::Global;

/// Where images lie on their disks.
const PATH: &str = "image";

/// The device of a disk's image.
fn open(alloc: Global, disk: MemoryDisk) -> Option<Store<MemoryDisk>>
    ensures usable { IfSome result (λ store. IsFalse store.broken) }
{
    let _ = alloc;
    match Store::open(alloc, disk, PATH) {
        Ok(store) => Some(store),
        Err(_) => None,
    }
}

/// A disk that holds these bytes as the image, and whose call of a number fails; none of its calls at 0.
pub fn disk_of(alloc: Global, image: &[u8], call: u64) -> anyhow::Result<MemoryDisk> {
    let mut disk = MemoryDisk::new(alloc, vec![in alloc; call]?)?;
    disk.add(alloc, PATH, image)?;
    Ok(disk)
}

/// How many calls of its disk opening an image takes, of at most 63.
pub fn opening_calls(alloc: Global, image: &[u8]) -> anyhow::Result<u64> {
    for call in 1..64 {
        if open(alloc, disk_of(alloc, image, call)?).is_some() {
            return Ok(call - 1);
        }
    }
    Ok(0)
}

/// The mode in which a disk's image opens over a disk that doesn't fail. None where it stands for no device.
pub fn mode_in(alloc: Global, disk: &MemoryDisk) -> anyhow::Result<Option<Mode>> {
    let image = bytes_of(alloc, disk)?;
    let Some(store) = open(alloc, disk_of(alloc, image.as_slice(), 0)?) else {
        return Ok(None);
    };
    match store.state().userspace {
        true => Ok(Some(Mode::Userspace)),
        false => Ok(Some(Mode::Bootloader)),
    }
}

/// The bytes of a disk's image.
fn bytes_of(alloc: Global, disk: &MemoryDisk) -> anyhow::Result<Vec<u8>> {
    Ok(Vec::from_slice(alloc, disk.file(PATH).unwrap_or(b""))?)
}

/// A new device of the layout, unlocked, on a disk. None where no image can be made of it.
fn new_disk(alloc: Global, dev: &Dev) -> anyhow::Result<Option<MemoryDisk>> {
    let text = layout_text(alloc, dev)?;
    let Ok(layout) = read_layout(alloc, text.as_slice()) else {
        return Ok(None);
    };
    let mut disk = MemoryDisk::new(alloc, Vec::new(alloc))?;
    match make(alloc, &mut disk, PATH, &layout, true) {
        Ok(()) => Ok(Some(disk)),
        Err(_) => Ok(None),
    }
}

/// Writes what each partition holds.
fn write_parts(store: &mut Store<MemoryDisk>, parts: &[Physical]) -> bool
    requires usable { IsFalse store.old.broken }
    ensures usable { IsTrue result → IsFalse store.new.broken }
{
    for part in parts {
        let Ok(()) = store.write_part(&part.name, 0, part.bytes.as_slice()) else {
            return false;
        };
    }
    true
}

/// Stores the device's mode, lock, active slot and flags.
fn store_state(store: &mut Store<MemoryDisk>, dev: &Dev) -> bool
    requires usable { IsFalse store.old.broken }
{
    let mut state = store.state();
    state.userspace = dev.mode == Mode::Userspace;
    state.locked = dev.locked;
    state.active = dev.active;
    state.flags = [dev.flags.a, dev.flags.b];
    state.fits(store.slots()) && store.set_state(&state).is_ok()
}

/// The bytes of an image that stands for the device. None where no image does: a new one can be made of its
/// layout, but has no logical partitions, and one group.
pub fn image_of(alloc: Global, dev: &Dev) -> anyhow::Result<Option<Vec<u8>>> {
    let Some(disk) = new_disk(alloc, dev)? else {
        return Ok(None);
    };
    let Some(mut store) = open(alloc, disk) else {
        return Ok(None);
    };
    if write_parts(&mut store, dev.physical.as_slice()) && store_state(&mut store, dev) {
        Ok(Some(bytes_of(alloc, &store.into_disk())?))
    } else {
        Ok(None)
    }
}

/// Whether a store's partition holds exactly these bytes.
fn holds(
    alloc: Global,
    store: &mut Store<MemoryDisk>,
    name: &Name,
    bytes: &[u8],
) -> anyhow::Result<bool>
    requires usable { IsFalse store.old.broken }
    ensures usable { IfOk result (λ _. IsFalse store.new.broken) }
{
    if store.length(name) != Some(bytes.len() as u64) {
        return Ok(false);
    }
    let mut read = vec![in alloc; 0; bytes.len()]?;
    match store.read_part(name, 0, &mut read) {
        Ok(()) => Ok(read.as_slice() == bytes),
        Err(_) => Ok(false),
    }
}

fn holds_physical(
    alloc: Global,
    store: &mut Store<MemoryDisk>,
    parts: &[Physical],
) -> anyhow::Result<bool>
    requires usable { IsFalse store.old.broken }
    ensures usable { IfOk result (λ _. IsFalse store.new.broken) }
{
    for part in parts {
        if !holds(alloc, store, &part.name, part.bytes.as_slice())? {
            return Ok(false);
        }
    }
    Ok(true)
}

fn holds_logical(
    alloc: Global,
    store: &mut Store<MemoryDisk>,
    parts: &[Logical],
) -> anyhow::Result<bool>
    requires usable { IsFalse store.old.broken }
{
    for part in parts {
        if !holds(alloc, store, &part.name, part.bytes.as_slice())? {
            return Ok(false);
        }
    }
    Ok(true)
}

/// Whether a state is the device's.
fn has_state(store: &Store<MemoryDisk>, dev: &Dev) -> bool {
    let state = store.state();
    state.locked == dev.locked
        && state.active == dev.active
        && state.userspace == (dev.mode == Mode::Userspace)
}

/// Whether a disk's image stands for the device, as far as its partitions, its lock, its active slot and the mode in
/// which it starts tell.
pub fn stands_for(alloc: Global, disk: MemoryDisk, dev: &Dev) -> anyhow::Result<bool> {
    let Some(mut store) = open(alloc, disk) else {
        return Ok(false);
    };
    Ok(
        has_state(&store, dev)
            && holds_physical(alloc, &mut store, dev.physical.as_slice())?
            && holds_logical(alloc, &mut store, dev.logical.as_slice())?,
    )
}
