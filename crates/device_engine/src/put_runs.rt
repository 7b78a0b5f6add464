//! The runs of an image over the bytes of a partition.
ghost use Rattle.std.specs.Prelude.{◌≡◌, ◌+◌, ◌^◌, ◌<◌, ◌≤◌, ◌%◌, length, replicate, Some, OnOk, OnErr};
ghost use Rattle.dev_model.specs.declared.step.Step.TheVariants.{Put};
ghost use Rattle.dev_model.specs.Steps.{apply};
ghost use Rattle.sparse_image.specs.Runs.{run_at, run_len, HasFours, IsImage};
ghost use Rattle.dev_store.specs.Changes.{put_at, repeated};
ghost use Rattle.dev_store.specs.Held.{IsWhole, DiskKept};
ghost use Rattle.dev_store.specs.StoreCalls.{Changes};
ghost use Rattle.device_engine.specs.Putting.{run_bytes, HasRoom, IsTorn, IsTornUnder};

use dev_disk::disk::{Disk, DiskFault};
use dev_store::store::Store;
use fb_frame::name::Name;
use sparse_image::runs::{Run, Runs};

/// How many bytes are written at once.
const PIECE: usize = 65_536;

/// How many zeros are written at once.
const ZEROS: usize = 4096;

/// How many of the bytes that are left are written at once.
fn piece_len(left: u64, most: usize) -> usize
    requires left { 0 < left }
    requires room { 0 < most }
    ensures some { 0 < result }
    ensures within { result ≤ left }
    ensures most { result ≤ most }
{
    left.min(most as u64) as usize
}

/// Writes a piece over a partition's bytes from a place on.
fn put_piece<K: Disk>(
    store: &mut Store<K>,
    name: &Name,
    at: u64,
    bytes: &[u8],
) -> Result<(), DiskFault>
    requires room { HasRoom K.told name.now (at + length bytes.now) store.old }
    ensures put { OnOk result (Changes K.told (put_at name.now at bytes.now) store.old store.new) }
    ensures whole { OnOk result (IsWhole K.told store.new) }
    ensures torn { OnErr result (IsTorn K.told name.now at (length bytes.now) store.old store.new) }
    ensures kept { DiskKept K.told K.lent store.old.disk store.new.disk }
{
    match store.write_part(name, at, bytes) {
        Ok(()) => Ok(()),
        Err(_) => Err(DiskFault),
    }
}

/// Writes bytes over a partition's from a place on, in pieces.
fn put_bytes<K: Disk>(
    store: &mut Store<K>,
    name: &Name,
    at: u64,
    bytes: &[u8],
) -> Result<(), DiskFault>
    requires room { HasRoom K.told name.now (at + length bytes.now) store.old }
    requires small { at + length bytes.now < 2 ^ 64 }
    ensures put { OnOk result (Changes K.told (put_at name.now at bytes.now) store.old store.new) }
    ensures whole { OnOk result (IsWhole K.told store.new) }
    ensures torn { OnErr result (IsTorn K.told name.now at (length bytes.now) store.old store.new) }
    ensures kept { DiskKept K.told K.lent store.old.disk store.new.disk }
{
    let mut done = 0;
    while done < bytes.len() {
        let count = piece_len((bytes.len() - done) as u64, PIECE);
        let Ok(()) = put_piece(store, name, at + done as u64, &bytes[done..done + count]) else {
            return Err(DiskFault);
        };
        done += count;
    }
    Ok(())
}

/// Writes zeros over a partition's bytes from a place on, in pieces as long as these zeros at most.
fn put_zeros_by<K: Disk>(
    store: &mut Store<K>,
    name: &Name,
    at: u64,
    total: u64,
    zeros: &[u8],
) -> Result<(), DiskFault>
    requires room { HasRoom K.told name.now (at + total) store.old }
    requires small { at + total < 2 ^ 64 }
    requires some { 0 < length zeros.now }
    requires zeros { zeros.now ≡ replicate (length zeros.now) 0 }
    ensures put { OnOk result
        (Changes K.told (put_at name.now at (replicate total 0)) store.old store.new) }
    ensures whole { OnOk result (IsWhole K.told store.new) }
    ensures torn { OnErr result (IsTorn K.told name.now at total store.old store.new) }
    ensures kept { DiskKept K.told K.lent store.old.disk store.new.disk }
{
    let mut done = 0;
    while done < total {
        let count = piece_len(total - done, zeros.len());
        let Ok(()) = put_piece(store, name, at + done, &zeros[..count]) else {
            return Err(DiskFault);
        };
        done += count as u64;
    }
    Ok(())
}

/// Writes zeros over a partition's bytes from a place on.
fn put_zeros<K: Disk>(
    store: &mut Store<K>,
    name: &Name,
    at: u64,
    total: u64,
) -> Result<(), DiskFault>
    requires room { HasRoom K.told name.now (at + total) store.old }
    requires small { at + total < 2 ^ 64 }
    ensures put { OnOk result
        (Changes K.told (put_at name.now at (replicate total 0)) store.old store.new) }
    ensures whole { OnOk result (IsWhole K.told store.new) }
    ensures torn { OnErr result (IsTorn K.told name.now at total store.old store.new) }
    ensures kept { DiskKept K.told K.lent store.old.disk store.new.disk }
{
    put_zeros_by(store, name, at, total, &[0; ZEROS])
}

/// Writes four bytes over and over, over a partition's from a place on.
pub(crate) fn put_fill<K: Disk>(
    store: &mut Store<K>,
    name: &Name,
    at: u64,
    total: u64,
    pattern: [u8; 4],
) -> Result<(), DiskFault>
    requires room { HasRoom K.told name.now (at + total) store.old }
    requires place { at % 4 ≡ 0 }
    requires fours { total % 4 ≡ 0 }
    ensures put { OnOk result
        (Changes K.told (put_at name.now at (repeated total pattern)) store.old store.new) }
    ensures whole { OnOk result (IsWhole K.told store.new) }
    ensures torn { OnErr result
        (IsTorn K.told name.now at (length (repeated total pattern)) store.old store.new) }
    ensures kept { DiskKept K.told K.lent store.old.disk store.new.disk }
{
    match store.fill_part(name, at, total, pattern) {
        Ok(()) => Ok(()),
        Err(_) => Err(DiskFault),
    }
}

/// Writes a run over a partition's bytes, at its place.
fn put_run<K: Disk>(store: &mut Store<K>, name: &Name, run: &Run<'_>) -> Result<(), DiskFault>
    requires room { HasRoom K.told name.now (run_at run.now + run_len run.now) store.old }
    requires fours { HasFours run.now }
    requires small { run_at run.now + run_len run.now < 2 ^ 64 }
    ensures put { OnOk result
        (Changes K.told (put_at name.now (run_at run.now) (run_bytes run.now)) store.old store.new) }
    ensures whole { OnOk result (IsWhole K.told store.new) }
    ensures torn { OnErr result
        (IsTorn K.told name.now (run_at run.now) (length (run_bytes run.now)) store.old store.new) }
    ensures kept { DiskKept K.told K.lent store.old.disk store.new.disk }
{
    match run {
        Run::Copy { at, bytes } => put_bytes(store, name, *at, bytes),
        Run::Fill {
            at,
            length,
            pattern,
        } => put_fill(store, name, *at, *length, *pattern),
        Run::Zeros { at, length } => put_zeros(store, name, *at, *length),
    }
}

/// Puts the runs of a whole image over a partition's bytes.
pub(crate) fn put_runs<K: Disk>(
    store: &mut Store<K>,
    name: &Name,
    runs: &mut Runs<'_>,
) -> Result<(), DiskFault>
    requires image { IsImage (Some runs.old.cells) runs.old }
    requires small { runs.old.len < 2 ^ 64 }
    requires room { HasRoom K.told name.now runs.old.len store.old }
    ensures put { OnOk result
        (Changes K.told (apply (Put name.now runs.old.cells)) store.old store.new) }
    ensures whole { OnOk result (IsWhole K.told store.new) }
    ensures torn { OnErr result (IsTornUnder K.told name.now runs.old.cells store.old store.new) }
    ensures kept { DiskKept K.told K.lent store.old.disk store.new.disk }
{
    while let Some(run) = runs.next() {
        let Ok(()) = put_run(store, name, &run) else {
            return Err(DiskFault);
        };
    }
    Ok(())
}
