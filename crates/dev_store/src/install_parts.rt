//! The parts of the map of units where a table is installed: kept partitions keep theirs, and all others get
//! parts without units.
ghost use Rattle.std.specs.Prelude.{◌≡◌, ◌==◌, ◌+◌, ◌≤◌, ◌<◌, ◌++◌, length, map, filter, nat_lt, slice_set};
ghost use Rattle.std.specs.Prelude.{IsTrue, IsFalse, vec_capacity};
ghost use Rattle.std.specs.List.{list_all, list_any};
ghost use Rattle.unit_alloc.specs.Owning.{OneOwner};
ghost use Rattle.super_meta.specs.Contents.{content};
ghost use Rattle.dev_store.specs.Installing.{is_left};
ghost use Rattle.dev_store.specs.InstallTests.{merged_count};
ghost use Rattle.dev_store.specs.InstallParts.{kept_part, chosen_parts, released, IsFilled, AreAllTaken};

use crate::named::part_of;
use crate::table_install::Keeps;
use super_meta::table::Table;
use unit_alloc::Owners;

/// How many parts the map of units has. This number stands for no part.
const NO_PART: u32 = 128;

impl Keeps {
    /// The part of the kept partition of a name, 128 where there is none.
    fn kept_part(self, table: &Table, parts: &[u32], name: &[u8]) -> u32
        ensures { result ≡ kept_part self (content table.now) parts.now name.now }
    {
        if !self.keeps(name) {
            return NO_PART;
        }
        part_of(&table.partitions, parts, name).unwrap_or(NO_PART)
    }

    /// Frees the units of all partitions that aren't kept.
    pub(crate) fn release_others(self, table: &Table, parts: &[u32], owners: &mut Owners)
        requires many { length parts.now ≡ length (content table.now).partitions }
        requires there { IsTrue (list_all (λ part. nat_lt part (length owners.old.parts)) parts.now) }
        requires one { OneOwner owners.old }
        ensures released { owners.new
            ≡ released self (content table.now).partitions parts.now owners.old }
        ensures one { OneOwner owners.new }
    {
        for place in 0..parts.len() {
            if !self.keeps(table.partitions[place].name.bytes()) {
                owners.release(parts[place]);
            }
        }
    }

    /// Appends the parts of the kept partitions of the names that a table lists.
    fn add_listed(self, new: &Table, table: &Table, parts: &[u32], chosen: &mut Vec<u32>)
        requires room { length chosen.old.items + length (content new.now).partitions
            ≤ vec_capacity chosen.old }
        ensures parts { chosen.new.items ≡ chosen.old.items
            ++ map (λ p. kept_part self (content table.now) parts.now p.name) (content new.now).partitions }
        ensures room { vec_capacity chosen.new ≡ vec_capacity chosen.old }
    {
        for partition in &new.partitions {
            chosen.push_reserved(self.kept_part(table, parts, partition.name.bytes()));
        }
    }

    /// Appends the parts of those that are left over.
    fn add_left(self, new: &Table, table: &Table, parts: &[u32], chosen: &mut Vec<u32>)
        requires room { length chosen.old.items
            + length (filter (is_left self (content new.now)) (content table.now).partitions)
            ≤ vec_capacity chosen.old }
        ensures parts { chosen.new.items ≡ chosen.old.items
            ++ map (λ p. kept_part self (content table.now) parts.now p.name)
            (filter (is_left self (content new.now)) (content table.now).partitions) }
        ensures room { vec_capacity chosen.new ≡ vec_capacity chosen.old }
    {
        for partition in &table.partitions {
            if self.is_left(new, partition) {
                chosen.push_reserved(self.kept_part(table, parts, partition.name.bytes()));
            }
        }
    }

    /// Puts the part of each entry in the place of the old ones: that of the kept partition of its name, 128
    /// where there is none.
    pub(crate) fn choose_parts(self, new: &Table, table: &Table, parts: &mut Vec<u32>)
        requires few { length parts.old.items ≤ 128 }
        requires listed { merged_count self (content new.now) (content table.now) ≤ 128 }
        requires room { 128 ≤ vec_capacity parts.old }
        ensures parts { parts.new.items
            ≡ chosen_parts self (content new.now) (content table.now) parts.old.items }
        ensures room { vec_capacity parts.new ≡ vec_capacity parts.old }
    {
        let mut old = [0; 128];
        let count = parts.len();
        old[..count].copy_from_slice(parts);
        parts.clear();
        self.add_listed(new, table, &old[..count], parts);
        self.add_left(new, table, &old[..count], parts);
    }
}

/// Whether a part is among these.
fn is_taken(parts: &[u32], part: u32) -> bool
    ensures { result ≡ list_any (λ p. p == part) parts.now }
{
    parts.iter().any(|p| *p == part)
}

/// The first part that isn't among these.
fn free_part(parts: &[u32]) -> u32
    requires left { AreAllTaken parts.now → ⊥ }
    ensures there { result < 128 }
    ensures free { IsFalse (list_any (λ p. p == result) parts.now) }
{
    for part in 0..NO_PART {
        if !is_taken(parts, part) {
            return part;
        }
    }
    unreachable!()
}

/// Puts a part in a place.
fn set_part(parts: &mut Vec<u32>, place: usize, part: u32)
    requires { place < length parts.old.items }
    ensures items { parts.new.items ≡ slice_set parts.old.items place part }
    ensures room { vec_capacity parts.new ≡ vec_capacity parts.old }
{
    parts[place] = part;
}

/// Puts a part that isn't among these in the place of each 128.
pub(crate) fn fill_parts(parts: &mut Vec<u32>)
    requires few { length parts.old.items ≤ 128 }
    requires small { IsTrue (list_all (λ part. nat_lt part 129) parts.old.items) }
    ensures filled { IsFilled parts.old.items parts.new.items }
    ensures room { vec_capacity parts.new ≡ vec_capacity parts.old }
{
    for place in 0..parts.len() {
        if parts[place] == NO_PART {
            let part = free_part(parts);
            set_part(parts, place, part);
        }
    }
}
