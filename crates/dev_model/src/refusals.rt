ghost use Rattle.std.specs.Prelude.{◌≡◌, ◌++◌, ◌∷◌, [], List, ℕ, Option, is_some, IfOk, option_map};
ghost use Rattle.dev_model.specs.RefusalTexts.{text_of};
ghost use Rattle.dev_model.specs.Refusals.{flash_refusal, erase_refusal, active_refusal, download_refusal, lock_refusal, created_size, create_refusal, delete_refusal, resize_refusal, room_refusal, update_refusal};
ghost use Rattle.dev_model.specs.Sizes.{sizes_of, resized};

use crate::device::Dev;
use crate::editing::default_group;
use crate::partitions::{has_slots, is_logical, is_partition, is_super, is_target, is_userspace};
use crate::refusal::Refusal;
use crate::sizes::{
    added_groups_fit, added_units_fit, resized_groups_fit, resized_units_fit, round_up,
};
use crate::sparse::image;
use crate::steps::is_too_large;
use crate::tables::{is_group, table_refusal};
use fb_frame::memory::Memory;
use fb_frame::name::Name;
use fb_frame::tables::Tables;
use std::alloc::Global;

/// Why the device doesn't flash what was downloaded, None where it does.
pub fn flash_refusal(
    alloc: Global,
    dev: &Dev,
    downloaded: Option<&[u8]>,
    name: &Name,
) -> Result<Option<Refusal>, Memory>
    ensures { IfOk result (λ refusal. option_map text_of refusal
        ≡ flash_refusal dev.now (option_map (λ file. file.now) downloaded.entry) name.now) }
{
    if dev.locked {
        return Ok(Some(Refusal::Locked));
    }
    let Some(file) = downloaded else {
        return Ok(Some(Refusal::NothingDownloaded));
    };
    if !is_target(dev, name.bytes()) {
        return Ok(Some(Refusal::NoSuchPartition));
    }
    let Some(cells) = image(alloc, file)? else {
        return Ok(Some(Refusal::BadImage));
    };
    if is_too_large(cells.as_slice(), dev, name.bytes()) {
        return Ok(Some(Refusal::ImageTooLarge));
    }
    Ok(None)
}

/// Why the device doesn't erase the partition, None where it does.
pub fn erase_refusal(dev: &Dev, name: &Name) -> Option<Refusal>
    ensures { option_map text_of result ≡ erase_refusal dev.now name.now }
{
    if dev.locked {
        Some(Refusal::Locked)
    } else if !is_target(dev, name.bytes()) {
        Some(Refusal::NoSuchPartition)
    } else {
        None
    }
}

/// Why the device doesn't make a slot active, None where it does.
pub fn active_refusal(dev: &Dev) -> Option<Refusal>
    ensures { option_map text_of result ≡ active_refusal dev.now }
{
    if dev.locked {
        Some(Refusal::Locked)
    } else if !has_slots(dev) {
        Some(Refusal::NoSlots)
    } else {
        None
    }
}

/// Why the device doesn't take a download of so many bytes, None where it does.
pub fn download_refusal(dev: &Dev, count: u32) -> Option<Refusal>
    ensures { option_map text_of result ≡ download_refusal dev.now count }
{
    if dev.max < count {
        Some(Refusal::DownloadTooLarge)
    } else {
        None
    }
}

/// Why the device isn't locked by a command, None where it is.
pub fn lock_refusal(dev: &Dev) -> Option<Refusal>
    ensures { option_map text_of result ≡ lock_refusal dev.now }
{
    if dev.locked {
        Some(Refusal::AlreadyLocked)
    } else {
        None
    }
}

/// Why there is no room for one more partition of so many bytes, None where there is.
#[tactic(auto, using(crate::proofs::RoomLemmas::added_rooms))]
fn added_refusal(dev: &Dev, name: &Name, size: u64) -> Option<Refusal>
    ensures { option_map text_of result ≡ room_refusal dev.now (sizes_of dev.now.logical
        ++ created_size name.now size ∷ []) }
{
    if !added_units_fit(dev, round_up(size)) {
        Some(Refusal::NotEnoughSpace)
    } else if !added_groups_fit(dev, default_group().bytes(), round_up(size)) {
        Some(Refusal::GroupFull)
    } else {
        None
    }
}

/// Why the device doesn't create the partition, None where it does. The size is rounded up to a block.
pub fn create_refusal(dev: &Dev, name: &Name, size: u64) -> Option<Refusal>
    ensures { option_map text_of result ≡ create_refusal dev.now name.now size }
{
    if dev.locked {
        Some(Refusal::Locked)
    } else if !is_userspace(dev.mode) {
        Some(Refusal::UserspaceOnly)
    } else if is_partition(dev, name.bytes()) || is_super(dev, name.bytes()) {
        Some(Refusal::NameTaken)
    } else if 128 <= dev.logical.len() {
        Some(Refusal::TooManyPartitions)
    } else if !is_group(dev.groups.as_slice(), default_group().bytes()) {
        Some(Refusal::NoSuchGroup)
    } else {
        added_refusal(dev, name, size)
    }
}

/// Why the device doesn't delete the partition, None where it does.
pub fn delete_refusal(dev: &Dev, name: &Name) -> Option<Refusal>
    ensures { option_map text_of result ≡ delete_refusal dev.now name.now }
{
    if dev.locked {
        Some(Refusal::Locked)
    } else if !is_userspace(dev.mode) {
        Some(Refusal::UserspaceOnly)
    } else if !is_logical(dev, name.bytes()) {
        Some(Refusal::NoSuchPartition)
    } else {
        None
    }
}

fn resized_refusal(dev: &Dev, name: &Name, bytes: u128) -> Option<Refusal>
    ensures { option_map text_of result ≡ room_refusal dev.now
        (resized name.now bytes (sizes_of dev.now.logical)) }
{
    if !resized_units_fit(dev, name.bytes(), bytes) {
        Some(Refusal::NotEnoughSpace)
    } else if !resized_groups_fit(dev, name.bytes(), bytes) {
        Some(Refusal::GroupFull)
    } else {
        None
    }
}

/// Why the device doesn't resize the partition, None where it does. The size is rounded up to a block.
pub fn resize_refusal(dev: &Dev, name: &Name, size: u64) -> Option<Refusal>
    ensures { option_map text_of result ≡ resize_refusal dev.now name.now size }
{
    match delete_refusal(dev, name) {
        Some(refusal) => Some(refusal),
        None => resized_refusal(dev, name, round_up(size)),
    }
}

/// Why the device doesn't update super with the tables of what was downloaded, None where it does.
pub fn update_refusal(
    dev: &Dev,
    downloaded: bool,
    tables: Option<&Tables>,
    name: &Name,
    wipe: bool,
) -> Option<Refusal>
    ensures { (file : Option (List ℕ)) → is_some file ≡ downloaded →
        option_map text_of result
        ≡ update_refusal dev.now file (option_map (λ t. t.now) tables.entry) name.now wipe }
{
    if dev.locked {
        return Some(Refusal::Locked);
    }
    if !is_userspace(dev.mode) {
        return Some(Refusal::UserspaceOnly);
    }
    if !downloaded {
        return Some(Refusal::NothingDownloaded);
    }
    if !is_super(dev, name.bytes()) {
        return Some(Refusal::NoSuchPartition);
    }
    match tables {
        None => Some(Refusal::BadTable),
        Some(tables) => table_refusal(tables, wipe, dev),
    }
}
