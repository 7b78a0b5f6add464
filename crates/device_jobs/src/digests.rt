//! The digest of a partition's bytes, read by windows.
ghost use Rattle.std.specs.Prelude.{◌≡◌, ◌+◌, ◌<◌, ◌≤◌, length, IsTrue, IsFalse, IfOk, OnOk, OnErr};
ghost use Rattle.fb_frame.specs.Causes.{Rose};
ghost use Rattle.dev_model.specs.Partitions.{is_partition};
ghost use Rattle.dev_store.specs.Held.{image_of};
ghost use Rattle.dev_store.specs.StoreCalls.{part_bytes};
ghost use Rattle.device_jobs.specs.Working.{HasHashed, IsDigest, IsReadOn};

use dev_disk::disk::{Disk, DiskFault};
use dev_store::store::Store;
use fb_frame::name::Name;
use sha2::{Digest, Sha256};
use std::cmp::min;

/// Reads a piece of a partition, and adds it to what was hashed.
fn hash_piece<K: Disk>(
    store: &mut Store<K>,
    name: &Name,
    at: u64,
    piece: &mut [u8],
    hasher: &mut Sha256,
) -> Result<(), DiskFault>
    requires usable { IsFalse store.old.broken }
    requires there { IsTrue (is_partition store.old.device name.now) }
    requires inside { at + length piece.old ≤ length (part_bytes name.now store.old.device) }
    ensures hashed { OnOk result
        (HasHashed (image_of K.told store.old) (part_bytes name.now store.old.device) at hasher.old →
        HasHashed (image_of K.told store.old) (part_bytes name.now store.old.device) (at + length piece.old)
        hasher.new) }
    ensures read { IsReadOn K.told K.lent store.old store.new }
    ensures cause { OnErr result (Rose (K.told store.old.disk).faults (K.told store.new.disk).faults) }
{
    let Ok(()) = store.read_part(name, at, piece) else {
        return Err(DiskFault);
    };
    hasher.update(piece);
    Ok(())
}

/// The SHA-256 of a partition's bytes (FIPS 180-4).
pub(crate) fn digest_part<K: Disk>(
    store: &mut Store<K>,
    name: &Name,
    size: u64,
    window: &mut [u8],
) -> Result<[u8; 32], DiskFault>
    requires usable { IsFalse store.old.broken }
    requires there { IsTrue (is_partition store.old.device name.now) }
    requires size { size ≡ length (part_bytes name.now store.old.device) }
    requires room { 0 < length window.old }
    ensures digest { IfOk result
        (IsDigest (image_of K.told store.old) (part_bytes name.now store.old.device)) }
    ensures read { IsReadOn K.told K.lent store.old store.new }
    ensures cause { OnErr result (Rose (K.told store.old.disk).faults (K.told store.new.disk).faults) }
    ensures room { length window.new ≡ length window.old }
{
    let mut hasher = Sha256::new();
    let mut at = 0;
    while at < size {
        let count = min(size - at, window.len() as u64) as usize;
        let Ok(()) = hash_piece(store, name, at, &mut window[..count], &mut hasher) else {
            return Err(DiskFault);
        };
        at += count as u64;
    }
    Ok(hasher.finalize())
}
