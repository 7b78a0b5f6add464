//! The lines of partitions.
ghost use Rattle.std.specs.Prelude.{◌≡◌, ◌<◌, ◌++◌, length, unwrap_or, IsTrue, IsFalse, IfErr, OnOk};
ghost use Rattle.std.specs.List.{flat_map};
ghost use Rattle.fb_frame.specs.Causes.{Rose};
ghost use Rattle.dev_model.specs.Partitions.{is_partition};
ghost use Rattle.dev_store.specs.Held.{image_of};
ghost use Rattle.dev_store.specs.StoreCalls.{part_bytes, names_of, kind_of};
ghost use Rattle.device_jobs.specs.Printed.{digest_text, part_text};
ghost use Rattle.device_jobs.specs.Working.{AddsText, IsReadOn, IsReadStop, is_kind, label, part_line};

use crate::digests::digest_part;
use crate::job::JobError;
use dev_disk::disk::Disk;
use dev_store::store::Store;
use fb_frame::name::Name;
use itoa::Buffer;
use std::alloc::{AllocError, Global};

/// Whether the partition of a name is of this kind.
fn is_kind<K: Disk>(store: &Store<K>, name: &Name, logical: bool) -> bool
    ensures { result ≡ is_kind logical (kind_of store.now.device name.now) }
{
    match store.is_logical(name) {
        None => false,
        Some(kind) => { if logical { kind } else { !kind } }
    }
}

/// Adds what stands before a partition's bytes.
fn add_label<K: Disk>(
    store: &Store<K>,
    name: &Name,
    logical: bool,
    text: &mut Vec<u8>,
) -> Result<(), AllocError>
    ensures { OnOk result
        (text.new.items ≡ text.old.items ++ label store.now.device logical name.now) }
{
    if !logical {
        text.extend_from_slice(b"partition ")?;
        text.extend_from_slice(name.bytes())?;
        return text.extend_from_slice(b" ");
    }
    text.extend_from_slice(b"logical ")?;
    text.extend_from_slice(name.bytes())?;
    text.extend_from_slice(b" ")?;
    if let Some(group) = store.group_of(name) {
        text.extend_from_slice(group.bytes())?;
    }
    text.extend_from_slice(b" ")
}

/// Adds how many bytes these are, and their digest.
fn add_digest(
    alloc: Global,
    size: u64,
    digest: &[u8; 32],
    text: &mut Vec<u8>,
) -> Result<(), AllocError>
    ensures { OnOk result (text.new.items ≡ text.old.items ++ digest_text size digest.now) }
{
    let mut digits = Buffer::new();
    text.extend_from_slice(digits.format(size).as_bytes())?;
    text.extend_from_slice(b" ")?;
    let shown = hex::encode(alloc, digest)?;
    text.extend_from_slice(shown.as_bytes())?;
    text.extend_from_slice(b"\n")
}

/// Adds how many bytes a partition has, and their digest.
fn add_bytes<K: Disk>(
    alloc: Global,
    store: &mut Store<K>,
    name: &Name,
    window: &mut [u8],
    text: &mut Vec<u8>,
) -> Result<(), JobError>
    requires usable { IsFalse store.old.broken }
    requires there { IsTrue (is_partition store.old.device name.now) }
    requires room { 0 < length window.old }
    ensures added { OnOk result (AddsText (image_of K.told store.old)
        (part_text (part_bytes name.now store.old.device)) text.old.items text.new.items) }
    ensures stops { IfErr result
        (IsReadStop (Rose (K.told store.old.disk).faults (K.told store.new.disk).faults)) }
    ensures read { IsReadOn K.told K.lent store.old store.new }
    ensures room { length window.new ≡ length window.old }
{
    let size = store.length(name).unwrap_or(0);
    let Ok(digest) = digest_part(store, name, size, window) else {
        return Err(JobError::Disk);
    };
    add_digest(alloc, size, &digest, text)?;
    Ok(())
}

/// Adds the line of a partition, where it is of this kind.
fn add_part<K: Disk>(
    alloc: Global,
    store: &mut Store<K>,
    name: &Name,
    logical: bool,
    window: &mut [u8],
    text: &mut Vec<u8>,
) -> Result<(), JobError>
    requires usable { IsFalse store.old.broken }
    requires room { 0 < length window.old }
    ensures added { OnOk result (AddsText (image_of K.told store.old)
        (part_line store.old.device logical name.now) text.old.items text.new.items) }
    ensures stops { IfErr result
        (IsReadStop (Rose (K.told store.old.disk).faults (K.told store.new.disk).faults)) }
    ensures read { IsReadOn K.told K.lent store.old store.new }
    ensures room { length window.new ≡ length window.old }
{
    if !is_kind(store, name, logical) {
        return Ok(());
    }
    add_label(store, name, logical, text)?;
    add_bytes(alloc, store, name, window, text)
}

/// Adds the lines of all partitions of this kind, in their order.
pub(crate) fn add_parts<K: Disk>(
    alloc: Global,
    store: &mut Store<K>,
    logical: bool,
    window: &mut [u8],
    text: &mut Vec<u8>,
) -> Result<(), JobError>
    requires usable { IsFalse store.old.broken }
    requires room { 0 < length window.old }
    ensures added { OnOk result (AddsText (image_of K.told store.old)
        (flat_map (part_line store.old.device logical) (names_of store.old.device))
        text.old.items text.new.items) }
    ensures stops { IfErr result
        (IsReadStop (Rose (K.told store.old.disk).faults (K.told store.new.disk).faults)) }
    ensures read { IsReadOn K.told K.lent store.old store.new }
    ensures room { length window.new ≡ length window.old }
{
    let mut place = 0;
    while let Some(name) = store.name_at(place) {
        add_part(alloc, store, &name, logical, window, text)?;
        place += 1;
    }
    Ok(())
}
