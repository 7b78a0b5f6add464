ghost use Rattle.std.specs.Prelude.{◌≡◌, ◌++◌, ◌∷◌, [], not, filter, replicate, bytes_eq, codes, if◌then◌else◌, IfOk, OnOk};
ghost use Rattle.dev_model.specs.Images.{round_up};
ghost use Rattle.dev_model.specs.Steps.{created, deleted, relocked};

use crate::cells::ByteList;
use crate::copies::{copy_dev, copy_entry};
use crate::device::{Dev, Logical};
use crate::sizes::round_up;
use fb_frame::items::Items;
use fb_frame::memory::Memory;
use fb_frame::name::Name;
use std::alloc::Global;

/// The group that a partition joins when it is created.
pub fn default_group() -> Name
    ensures { result ≡ codes "default" }
{
    Name::read(b"default".as_slice()).unwrap()
}

/// So many zeros. A length that doesn't fit the memory's own numbers is want of memory.
fn zeros(alloc: Global, len: u128) -> Result<ByteList, Memory>
    ensures { IfOk result (λ bytes. bytes ≡ replicate len 0) }
{
    if len > usize::MAX as u128 {
        return Err(Memory);
    }
    let mut bytes = Vec::new(alloc);
    bytes.resize(len as usize, 0).map_err(|_| Memory)?;
    Ok(Items::from_vec(bytes))
}

/// The device with a new last logical partition of zeros, rounded up to a block, in the group `default`.
pub fn created(alloc: Global, name: &Name, size: u64, dev: &Dev) -> Result<Dev, Memory>
    ensures { IfOk result (λ after. after ≡ created name.now size dev.now) }
{
    let bytes = zeros(alloc, round_up(size))?;
    let mut after = copy_dev(alloc, dev)?;
    let entry = Logical {
        name: *name,
        attributes: 0,
        group: default_group(),
        bytes,
    };
    after.logical.push(entry).map_err(|_| Memory)?;
    Ok(after)
}

fn push_other(
    alloc: Global,
    name: &[u8],
    part: &Logical,
    entries: &mut Items<Logical>,
) -> Result<(), Memory>
    ensures { OnOk result (entries.new ≡ entries.old
        ++ (if bytes_eq part.now.name name.now then [] else part.now ∷ [])) }
{
    if part.name.bytes() == name {
        return Ok(());
    }
    let entry = copy_entry(alloc, part)?;
    entries.push(entry).map_err(|_| Memory)?;
    Ok(())
}

fn others(alloc: Global, name: &[u8], parts: &[Logical]) -> Result<Items<Logical>, Memory>
    ensures { IfOk result (λ entries. entries ≡ filter (λ p. not (bytes_eq p.name name.now)) parts.now) }
{
    let mut entries = Items::new(alloc);
    for part in parts {
        push_other(alloc, name, part, &mut entries)?;
    }
    Ok(entries)
}

/// The device without the logical partition of the name.
pub fn deleted(alloc: Global, name: &Name, dev: &Dev) -> Result<Dev, Memory>
    ensures { IfOk result (λ after. after ≡ deleted name.now dev.now) }
{
    let mut after = copy_dev(alloc, dev)?;
    after.logical = others(alloc, name.bytes(), dev.logical.as_slice())?;
    Ok(after)
}

/// The device locked.
pub fn relocked(alloc: Global, dev: &Dev) -> Result<Dev, Memory>
    ensures { IfOk result (λ after. after ≡ relocked dev.now) }
{
    let mut after = copy_dev(alloc, dev)?;
    after.locked = true;
    Ok(after)
}
