use dev_disk::memory::MemoryDisk;
use dev_store::store::Store;
use fb_frame::memory::Memory;
use std::alloc::Global;

/// Where the image lies, and another file, which is to stay as it is.
pub const IMAGE: &str = "image";

const OTHER: &str = "other";

const KEPT: &[u8] = b"kept";

/// A disk with the other file alone, whose call of this number fails; none does where that is 0.
pub fn disk_without(alloc: Global, call: u64) -> Result<MemoryDisk, Memory> {
    let mut fails = Vec::new(alloc);
    fails.push(call).map_err(|_| Memory)?;
    let mut disk = MemoryDisk::new(alloc, fails)?;
    disk.add(alloc, OTHER, KEPT)?;
    Ok(disk)
}

/// A disk with the image too.
pub fn disk_with(alloc: Global, image: &[u8], call: u64) -> Result<MemoryDisk, Memory> {
    let mut disk = disk_without(alloc, call)?;
    disk.add(alloc, IMAGE, image)?;
    Ok(disk)
}

/// The image of a disk, empty where there is none.
pub fn image_of(disk: &MemoryDisk) -> &[u8] {
    disk.file(IMAGE).unwrap_or(b"")
}

/// Whether the other file is as it was.
pub fn keeps_other(disk: &MemoryDisk) -> bool {
    disk.file(OTHER) == Some(KEPT)
}

/// Whether the image is opened where the disk's call of this number fails.
fn opens(alloc: Global, image: &[u8], call: u64) -> Result<bool, Memory> {
    let disk = disk_with(alloc, image, call)?;
    Ok(Store::open(alloc, disk, IMAGE).is_ok())
}

/// How many calls of its disk the opening of an image takes, up to 31: it fails with each of them and with
/// no later one.
pub fn opening_calls(alloc: Global, image: &[u8]) -> Result<u64, Memory> {
    let mut calls: u64 = 0;
    for step in [16, 8, 4, 2, 1] {
        let call = calls.saturating_add(step);
        if !opens(alloc, image, call)? {
            calls = call;
        }
    }
    Ok(calls)
}
