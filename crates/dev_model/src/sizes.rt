ghost use Rattle.std.specs.Prelude.{◌≡◌, ◌+◌, ◌||◌, ◌==◌, nat_le, bytes_eq, if◌then◌else◌};
ghost use Rattle.std.specs.List.{list_all};
ghost use Rattle.dev_model.specs.Images.{round_up};
ghost use Rattle.dev_model.specs.Sizes.{size_of, sizes_of, size_changed, resized, units_for, units_of, units_fit, group_bytes, groups_fit, less, share_of};

use crate::device::{Dev, Logical};
use fb_frame::tables::TableGroup;

/// The number rounded up to a multiple of 4,096, which may pass 64 bits.
pub fn round_up(size: u64) -> u128
    ensures { result ≡ round_up size }
{
    (size as u128).next_multiple_of(4096)
}

/// How many units hold so many bytes.
fn units_for(unit: u32, bytes: u128) -> u128
    ensures { result ≡ units_for unit bytes }
{
    if unit == 0 {
        bytes.min(1)
    } else {
        bytes.div_ceil(unit as u128)
    }
}

/// What is left of a room when so much is taken, None where there is less.
pub fn less(taken: u128, room: u128) -> Option<u128>
    ensures { result ≡ less taken room }
{
    room.checked_sub(taken)
}

/// The length of a partition once the one of the name has so many bytes.
fn new_length(part: &Logical, name: &[u8], bytes: u128) -> u128
    ensures { result ≡ (size_changed name.now bytes (size_of part.now)).bytes }
{
    if part.name.bytes() == name {
        bytes
    } else {
        part.bytes.len() as u128
    }
}

/// What a partition takes of a group's limit once the one of the name has so many bytes.
fn new_share(part: &Logical, group: &[u8], name: &[u8], bytes: u128) -> u128
    ensures { result ≡ share_of group.now (size_changed name.now bytes (size_of part.now)) }
{
    if part.group.bytes() == group {
        new_length(part, name, bytes)
    } else {
        0
    }
}

/// What a partition takes of a group's limit.
pub fn share(part: &Logical, group: &[u8]) -> u128
    ensures { result ≡ share_of group.now (size_of part.now) }
{
    if part.group.bytes() == group {
        part.bytes.len() as u128
    } else {
        0
    }
}

/// The units that are left once the logical partition of the name has so many bytes.
fn resized_units_left(dev: &Dev, name: &[u8], bytes: u128) -> Option<u128>
    ensures { result ≡ less (units_of dev.now.unit (resized name.now bytes (sizes_of dev.now.logical)))
        dev.now.units }
{
    let mut left = dev.units as u128;
    for part in dev.logical.as_slice() {
        left = less(units_for(dev.unit, new_length(part, name, bytes)), left)?;
    }
    Some(left)
}

/// What is left of a group's limit once the logical partition of the name has so many bytes.
fn resized_group_left(
    parts: &[Logical],
    group: &TableGroup,
    name: &[u8],
    bytes: u128,
) -> Option<u128>
    ensures { result ≡ less (group_bytes group.now.name (resized name.now bytes (sizes_of parts.now)))
        group.now.limit }
{
    let mut left = group.limit as u128;
    for part in parts {
        left = less(new_share(part, group.name.bytes(), name, bytes), left)?;
    }
    Some(left)
}

/// The units that no partition takes.
fn units_left(dev: &Dev) -> Option<u128>
    ensures { result ≡ less (units_of dev.now.unit (sizes_of dev.now.logical)) dev.now.units }
{
    let mut left = dev.units as u128;
    for part in dev.logical.as_slice() {
        left = less(units_for(dev.unit, part.bytes.len() as u128), left)?;
    }
    Some(left)
}

/// What no partition of the group takes of its limit.
fn group_left(parts: &[Logical], group: &TableGroup) -> Option<u128>
    ensures { result ≡ less (group_bytes group.now.name (sizes_of parts.now)) group.now.limit }
{
    let mut left = group.limit as u128;
    for part in parts {
        left = less(share(part, group.name.bytes()), left)?;
    }
    Some(left)
}

/// Whether there are units enough once the logical partition of the name has so many bytes.
pub fn resized_units_fit(dev: &Dev, name: &[u8], bytes: u128) -> bool
    ensures { result ≡ units_fit dev.now.unit dev.now.units
        (resized name.now bytes (sizes_of dev.now.logical)) }
{
    resized_units_left(dev, name, bytes).is_some()
}

fn resized_group_fits(dev: &Dev, group: &TableGroup, name: &[u8], bytes: u128) -> bool
    ensures { result ≡ (group.now.limit == 0 || nat_le
        (group_bytes group.now.name (resized name.now bytes (sizes_of dev.now.logical))) group.now.limit) }
{
    group.limit == 0 || resized_group_left(dev.logical.as_slice(), group, name, bytes).is_some()
}

/// Whether each group's limit holds once the logical partition of the name has so many bytes.
pub fn resized_groups_fit(dev: &Dev, name: &[u8], bytes: u128) -> bool
    ensures { result ≡ groups_fit dev.now.groups (resized name.now bytes (sizes_of dev.now.logical)) }
{
    let groups = dev.groups.as_slice();
    groups
        .iter()
        .all(|group| resized_group_fits(dev, group, name, bytes))
}

/// Whether there are units enough for one more partition of so many bytes.
pub fn added_units_fit(dev: &Dev, bytes: u128) -> bool
    ensures { result ≡ nat_le (units_of dev.now.unit
        (sizes_of dev.now.logical) + units_for dev.now.unit bytes) dev.now.units }
{
    match units_left(dev) {
        None => false,
        Some(left) => units_for(dev.unit, bytes) <= left,
    }
}

fn added_group_fits(dev: &Dev, group: &TableGroup, into: &[u8], bytes: u128) -> bool
    ensures { result ≡ (group.now.limit == 0 || nat_le
        (group_bytes group.now.name (sizes_of dev.now.logical) + (if bytes_eq into.now group.now.name
        then bytes else 0)) group.now.limit) }
{
    if group.limit == 0 {
        return true;
    }
    let taken = if into == group.name.bytes() { bytes } else { 0 };
    match group_left(dev.logical.as_slice(), group) {
        None => false,
        Some(left) => taken <= left,
    }
}

/// Whether each group's limit holds with one more partition of so many bytes in the group of the name.
pub fn added_groups_fit(dev: &Dev, into: &[u8], bytes: u128) -> bool
    ensures { result ≡ list_all (λ g. g.limit == 0
        || nat_le (group_bytes g.name (sizes_of dev.now.logical) + (if bytes_eq into.now g.name then bytes
        else 0)) g.limit) dev.now.groups }
{
    let groups = dev.groups.as_slice();
    groups
        .iter()
        .all(|group| added_group_fits(dev, group, into, bytes))
}
