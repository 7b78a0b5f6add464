ghost use Rattle.std.specs.Prelude.{◌≡◌, IfOk, map, if◌then◌else◌};
ghost use Rattle.dev_model.specs.Changes.{changed};
ghost use Rattle.dev_model.specs.Partitions.{physical_changed, logical_changed};
ghost use Rattle.dev_model.specs.Steps.{cut_or_padded, wiped};

use crate::cells::{ByteList, Cell};
use crate::copies::copy_bytes;
use crate::device::{Logical, Physical};
use crate::images::over;
use fb_frame::items::Items;
use fb_frame::memory::Memory;
use std::alloc::Global;

/// What is done with the bytes of a partition.
#[derive(Clone, Copy, Debug)]
pub enum Change<'a> {
    /// An image is put over them.
    Put(&'a [Cell]),
    /// Each becomes 0xFF.
    Wipe,
    /// They are cut to this length, or zeros are added up to it.
    Resize(u128),
}

#[tactic(auto, using(crate::proofs::ChunkLemmas::wiped_turns))]
fn wiped(alloc: Global, old: &[u8]) -> Result<ByteList, Memory>
    ensures { IfOk result (λ bytes. bytes ≡ wiped old.now) }
{
    let mut bytes = Vec::new(alloc);
    for i in 0..old.len() {
        bytes.push(0xFF).map_err(|_| Memory)?;
    }
    Ok(Items::from_vec(bytes))
}

/// The first bytes, and zeros where there are too few.
fn cut_or_padded(alloc: Global, size: u128, old: &[u8]) -> Result<ByteList, Memory>
    ensures { IfOk result (λ bytes. bytes ≡ cut_or_padded size old.now) }
{
    if size > usize::MAX as u128 {
        return Err(Memory);
    }
    let mut bytes = Vec::from_slice(alloc, old).map_err(|_| Memory)?;
    bytes.resize(size as usize, 0).map_err(|_| Memory)?;
    Ok(Items::from_vec(bytes))
}

/// The bytes after the change.
fn changed(alloc: Global, change: &Change, old: &[u8]) -> Result<ByteList, Memory>
    ensures { IfOk result (λ bytes. bytes ≡ changed change.now old.now) }
{
    match change {
        Change::Put(cells) => over(alloc, cells, old),
        Change::Wipe => wiped(alloc, old),
        Change::Resize(size) => cut_or_padded(alloc, *size, old),
    }
}

/// The bytes of a partition, changed where it has the name.
fn changed_where(
    alloc: Global,
    named: bool,
    change: &Change,
    old: &[u8],
) -> Result<ByteList, Memory>
    ensures { IfOk result (λ bytes. bytes ≡ (if named then changed change.now else λ bytes. bytes) old.now) }
{
    if named {
        changed(alloc, change, old)
    } else {
        copy_bytes(alloc, old)
    }
}

/// The physical partitions, with the change in the one of the name.
pub fn changed_physical(
    alloc: Global,
    name: &[u8],
    change: &Change,
    parts: &[Physical],
) -> Result<Items<Physical>, Memory>
    ensures { IfOk result (λ copy. copy ≡ map (physical_changed name.now (changed change.now)) parts.now) }
{
    let mut copied = Items::new(alloc);
    for part in parts {
        let bytes = changed_where(
            alloc,
            part.name.bytes() == name,
            change,
            part.bytes.as_slice(),
        )?;
        let name = part.name;
        copied.push(Physical { name, bytes }).map_err(|_| Memory)?;
    }
    Ok(copied)
}

/// The logical partitions, with the change in the one of the name.
pub fn changed_logical(
    alloc: Global,
    name: &[u8],
    change: &Change,
    parts: &[Logical],
) -> Result<Items<Logical>, Memory>
    ensures { IfOk result (λ copy. copy ≡ map (logical_changed name.now (changed change.now)) parts.now) }
{
    let mut copied = Items::new(alloc);
    for part in parts {
        let bytes = changed_where(
            alloc,
            part.name.bytes() == name,
            change,
            part.bytes.as_slice(),
        )?;
        let entry = Logical {
            name: part.name,
            attributes: part.attributes,
            group: part.group,
            bytes,
        };
        copied.push(entry).map_err(|_| Memory)?;
    }
    Ok(copied)
}
