ghost use Rattle.std.specs.Prelude.{◌≡◌, ◌%◌, length, not, nat_le, nat_lt, nat_eq, ◌&&◌, ◌||◌, ◌==◌, option_map, bytes_eq, if◌then◌else◌};
ghost use Rattle.std.specs.List.{list_any, ends_with};
ghost use Rattle.fb_frame.specs.Slots.{suffix};
ghost use Rattle.dev_model.specs.Partitions.{has_slots, is_physical, is_super};
ghost use Rattle.dev_model.specs.RefusalTexts.{text_of};
ghost use Rattle.dev_model.specs.Sizes.{size_of, sizes_of, share_of, group_bytes, groups_fit, less};
ghost use Rattle.dev_model.specs.Tables.{is_group, is_listed, is_kept, is_left_over, kept, kept_bytes, listed, left_over, merged, is_bad_table, table_refusal};

use crate::device::{Dev, Logical};
use crate::partitions::{has_slots, is_physical, is_super};
use crate::refusal::Refusal;
use crate::sizes::{less, share};
use fb_frame::tables::{TableGroup, TablePartition, Tables};

/// Whether a group of the name is in the list.
pub fn is_group(groups: &[TableGroup], name: &[u8]) -> bool
    ensures { result ≡ is_group groups.now name.now }
{
    groups.iter().any(|g| g.name.bytes() == name)
}

/// Whether a partition of the name is in the list.
fn is_listed(partitions: &[TablePartition], name: &[u8]) -> bool
    ensures { result ≡ is_listed partitions.now name.now }
{
    partitions.iter().any(|p| p.name.bytes() == name)
}

fn is_of_active_slot(dev: &Dev, name: &[u8]) -> bool
    ensures { result ≡ (has_slots dev.now && ends_with nat_eq name.now (suffix dev.now.active)) }
{
    has_slots(dev) && name.ends_with([b'_', dev.active.letter()].as_slice())
}

/// Whether a partition is kept under a product's table.
fn is_kept(dev: &Dev, wipe: bool, part: &Logical) -> bool
    ensures { result ≡ is_kept dev.now wipe part.now }
{
    let name = part.name.bytes();
    !wipe && name != b"scratch".as_slice() && !is_of_active_slot(dev, name)
}

/// The bytes of the kept partition of the name, or none.
pub fn kept_bytes<'a>(dev: &'a Dev, wipe: bool, name: &[u8]) -> &'a [u8]
    ensures { result.now ≡ kept_bytes name.now (kept dev.now wipe) }
{
    for part in dev.logical.as_slice() {
        if is_kept(dev, wipe, part) && part.name.bytes() == name {
            return part.bytes.as_slice();
        }
    }
    &[]
}

/// Whether a partition is kept that the table doesn't list.
pub fn is_left_over(tables: &Tables, wipe: bool, dev: &Dev, part: &Logical) -> bool
    ensures { result ≡ is_left_over tables.now wipe dev.now part.now }
{
    is_kept(dev, wipe, part) && !is_listed(tables.partitions.as_slice(), part.name.bytes())
}

/// How many partitions are kept that the table doesn't list.
fn left_over_count(tables: &Tables, wipe: bool, dev: &Dev) -> usize
    ensures { result ≡ length (left_over tables.now (kept dev.now wipe)) }
{
    let mut count = 0;
    for part in dev.logical.as_slice() {
        if is_left_over(tables, wipe, dev, part) {
            count += 1;
        }
    }
    count
}

fn has_group(tables: &Tables, part: &Logical) -> bool
    ensures { result ≡ is_group tables.now.groups part.now.group }
{
    is_group(tables.groups.as_slice(), part.group.bytes())
}

/// Whether a kept partition that the table doesn't list has a group that it lacks.
fn lacks_group(tables: &Tables, wipe: bool, dev: &Dev) -> bool
    ensures { result ≡ list_any (λ p. not (is_group tables.now.groups p.group))
        (left_over tables.now (kept dev.now wipe)) }
{
    for part in dev.logical.as_slice() {
        if is_left_over(tables, wipe, dev, part) && !has_group(tables, part) {
            return true;
        }
    }
    false
}

/// What a listed partition takes of a group's limit.
fn listed_share(dev: &Dev, wipe: bool, part: &TablePartition, group: &[u8]) -> u128
    ensures { result ≡ (if bytes_eq part.now.group group.now
        then length (kept_bytes part.now.name (kept dev.now wipe)) else 0) }
{
    if part.group.bytes() == group {
        kept_bytes(dev, wipe, part.name.bytes()).len() as u128
    } else {
        0
    }
}

/// What the listed partitions leave of a group's limit.
fn listed_left(tables: &Tables, wipe: bool, dev: &Dev, group: &TableGroup) -> Option<u128>
    ensures { result ≡ less (group_bytes group.now.name (sizes_of (listed tables.now (kept dev.now wipe))))
        group.now.limit }
{
    let mut left = group.limit as u128;
    for part in tables.partitions.as_slice() {
        left = less(listed_share(dev, wipe, part, group.name.bytes()), left)?;
    }
    Some(left)
}

/// What the partitions that are left over leave of a room.
fn left_over_left(
    tables: &Tables,
    wipe: bool,
    dev: &Dev,
    group: &TableGroup,
    room: u128,
) -> Option<u128>
    ensures { result ≡ less (group_bytes group.now.name
        (sizes_of (left_over tables.now (kept dev.now wipe)))) room }
{
    let mut left = room;
    for part in dev.logical.as_slice() {
        if is_left_over(tables, wipe, dev, part) {
            left = less(share(part, group.name.bytes()), left)?;
        }
    }
    Some(left)
}

fn merged_group_fits(tables: &Tables, wipe: bool, dev: &Dev, group: &TableGroup) -> bool
    ensures { result ≡ (group.now.limit == 0 || nat_le
        (group_bytes group.now.name (sizes_of (merged tables.now wipe dev.now))) group.now.limit) }
{
    if group.limit == 0 {
        return true;
    }
    match listed_left(tables, wipe, dev, group) {
        None => false,
        Some(room) => left_over_left(tables, wipe, dev, group, room).is_some(),
    }
}

/// Whether each group's limit holds of the new entries.
fn merged_groups_fit(tables: &Tables, wipe: bool, dev: &Dev) -> bool
    ensures { result ≡ groups_fit tables.now.groups (sizes_of (merged tables.now wipe dev.now)) }
{
    let groups = tables.groups.as_slice();
    groups
        .iter()
        .all(|group| merged_group_fits(tables, wipe, dev, group))
}

fn is_taken(dev: &Dev, part: &TablePartition) -> bool
    ensures { result ≡ (is_physical dev.now part.now.name || is_super dev.now part.now.name) }
{
    is_physical(dev, part.name.bytes()) || is_super(dev, part.name.bytes())
}

fn has_taken_name(tables: &Tables, dev: &Dev) -> bool
    ensures { result ≡ list_any (λ p. is_physical dev.now p.name
        || is_super dev.now p.name) tables.now.partitions }
{
    tables
        .partitions
        .as_slice()
        .iter()
        .any(|p| is_taken(dev, p))
}

fn has_other_geometry(tables: &Tables, dev: &Dev) -> bool
    ensures { result ≡ not (tables.now.geometry.max_size == dev.now.geometry.max_size
        && tables.now.geometry.slots == dev.now.geometry.slots) }
{
    tables.geometry != dev.geometry
}

fn is_misfit(tables: &Tables, dev: &Dev) -> bool
    ensures { result ≡ (not (is_super dev.now tables.now.device.name)
        || not (tables.now.device.size == dev.now.super_size) || tables.now.device.alignment == 0
        || not (dev.now.unit % tables.now.device.alignment == 0) || not (tables.now.device.offset == 0)) }
{
    !is_super(dev, tables.device.name.bytes())
        || tables.device.size != dev.super_size
        || tables.device.alignment == 0
        || dev.unit % tables.device.alignment != 0
        || tables.device.offset != 0
}

/// Whether the table isn't made for this device's super.
fn is_bad_table(tables: &Tables, dev: &Dev) -> bool
    ensures { result ≡ is_bad_table tables.now dev.now }
{
    has_other_geometry(tables, dev)
        || tables.groups.len() > 64
        || has_taken_name(tables, dev)
        || is_misfit(tables, dev)
}

fn are_too_many(tables: &Tables, wipe: bool, dev: &Dev) -> bool
    ensures { result ≡ nat_lt 128 (length (merged tables.now wipe dev.now)) }
{
    let listed = tables.partitions.len();
    listed > 128 || left_over_count(tables, wipe, dev) > 128 - listed
}

/// Why the device refuses a table, None where it takes it.
pub fn table_refusal(tables: &Tables, wipe: bool, dev: &Dev) -> Option<Refusal>
    ensures { option_map text_of result ≡ table_refusal tables.now wipe dev.now }
{
    if is_bad_table(tables, dev) {
        Some(Refusal::BadTable)
    } else if are_too_many(tables, wipe, dev) {
        Some(Refusal::TooManyPartitions)
    } else if lacks_group(tables, wipe, dev) {
        Some(Refusal::NoSuchGroup)
    } else if !merged_groups_fit(tables, wipe, dev) {
        Some(Refusal::GroupFull)
    } else {
        None
    }
}
