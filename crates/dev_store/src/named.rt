//! What is asked of a partition by its name.
ghost use Rattle.std.specs.Prelude.{◌≡◌, ◌<◌, ◌^◌, length, find, position, slice_get, bytes_eq, nat_lt, true};
ghost use Rattle.std.specs.Prelude.{option_map, option_and_then};
ghost use Rattle.std.specs.List.{list_all, AllByRecursion};
ghost use Rattle.dev_model.specs.Partitions.{bytes_of};
ghost use Rattle.super_meta.specs.Contents.{content};
ghost use Rattle.super_meta.specs.Held.{group_name};
ghost use Rattle.dev_store.specs.Supers.{bytes_in};
ghost use Rattle.dev_store.specs.StoreCalls.{kind_of};
ghost use Rattle.dev_store.specs.ToldRows.{told_device, part_extents, AreSummed};

use crate::layout::PhysicalPart;
use crate::units::extents_of;
use crate::variables_find::{has_logical, has_part, size_of};
use crate::variables_row::Facts;
use fb_frame::name::Name;
use super_meta::table::{Extent, Group, Partition, Table};

/// Whether the partition of a name is a logical one; none where there is no such partition.
pub fn kind_of(facts: &Facts, name: &[u8]) -> Option<bool>
    ensures { result ≡ kind_of (told_device facts.now) name.now }
{
    if has_part(facts, name, b"") {
        Some(has_logical(facts.logical, name, b""))
    } else {
        None
    }
}

fn find_physical<'a>(parts: &'a [PhysicalPart], name: &[u8]) -> Option<&'a PhysicalPart>
    ensures { option_map (λ p. p.now) result ≡ find (λ p. bytes_eq p.name name.now) parts.now }
{
    parts.iter().find(|p| p.name.bytes() == name)
}

fn find_logical<'a>(parts: &'a [Partition], name: &[u8]) -> Option<&'a Partition>
    ensures { option_map (λ p. p.now) result ≡ find (λ p. bytes_eq p.name name.now) parts.now }
{
    parts.iter().find(|p| p.name.bytes() == name)
}

/// How many bytes the physical partition of a name has.
fn physical_length(parts: &[PhysicalPart], name: &[u8]) -> Option<u64>
    ensures { result ≡ option_map (λ p. p.size) (find (λ p. bytes_eq p.name name.now) parts.now) }
{
    match find_physical(parts, name) {
        None => None,
        Some(part) => Some(part.size),
    }
}

/// How many bytes the logical partition of a name has.
fn logical_length(parts: &[Partition], extents: &[Extent], name: &[u8]) -> Option<u64>
    requires summed { AllByRecursion (λ p. bytes_in (part_extents extents.now p) < 2 ^ 64) parts.now }
    ensures { result ≡ option_map (λ p. bytes_in (part_extents extents.now p))
        (find (λ p. bytes_eq p.name name.now) parts.now) }
{
    match find_logical(parts, name) {
        None => None,
        Some(part) => Some(size_of(extents_of(extents, part))),
    }
}

/// How many bytes the partition of a name has.
pub fn length_of(facts: &Facts, name: &[u8]) -> Option<u64>
    requires summed { AreSummed facts.now }
    ensures { result ≡ option_map length (bytes_of (told_device facts.now) name.now) }
{
    match physical_length(facts.physical, name) {
        Some(length) => Some(length),
        None => logical_length(facts.logical, facts.extents, name),
    }
}

/// The place of the partition of a name.
pub fn place_of(parts: &[Partition], name: &[u8]) -> Option<usize>
    ensures { result ≡ position (λ p. bytes_eq p.name name.now) parts.now }
{
    parts.iter().position(|p| p.name.bytes() == name)
}

/// What stands in a list at the place of the partition of a name.
pub fn part_of(partitions: &[Partition], parts: &[u32], name: &[u8]) -> Option<u32>
    ensures { result ≡ option_and_then (slice_get parts.now)
        (position (λ p. bytes_eq p.name name.now) partitions.now) }
{
    match place_of(partitions, name) {
        None => None,
        Some(place) => parts.get(place).copied(),
    }
}

/// The name of the group at a place.
fn group_at(groups: &[Group], place: u32) -> Name
    requires { place < length groups.now }
    ensures { result ≡ group_name groups.now place }
{
    groups[place as usize].name
}

/// The group of the partition of a name.
pub fn group_of(table: &Table, name: &[u8]) -> Option<Name>
    requires there { list_all (λ p. nat_lt p.group (length (content table.now).groups))
        (content table.now).partitions ≡ true }
    ensures { result ≡ option_map (λ p. group_name (content table.now).groups p.group)
        (find (λ p. bytes_eq p.name name.now) (content table.now).partitions) }
{
    match find_logical(&table.partitions, name) {
        None => None,
        Some(partition) => Some(group_at(&table.groups, partition.group)),
    }
}
