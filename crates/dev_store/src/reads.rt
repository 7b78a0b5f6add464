ghost use Rattle.std.specs.Prelude.{◌≡◌, ℕ, ◌<◌, List, length, option_map, slice_get, IfSome, IsFalse};
ghost use Rattle.super_meta.specs.Contents.{content};
ghost use Rattle.super_meta.specs.Held.{limited};
ghost use Rattle.dev_store.specs.Reading.{table_within};
ghost use Rattle.dev_store.specs.ToldRows.{told_device, AreTellable};
ghost use Rattle.dev_model.specs.Partitions.{bytes_of};
ghost use Rattle.dev_model.specs.Validity.{IsValid};
ghost use Rattle.dev_model.specs.Variables.{value, all_rows};
ghost use Rattle.dev_store.specs.States.{kept_state};
ghost use Rattle.dev_store.specs.StoreCalls.{Shows, started_in, info_text, names_of, kind_of};
ghost use Rattle.dev_store.specs.StoreCalls.{group_of};
ghost use Rattle.dev_store.specs.Held.{part_of};

use crate::named::{group_of, kind_of, length_of, part_of};
use crate::state::State;
use crate::store::Store;
use crate::super_read::SuperRead;
use crate::variables_all::show_variable;
use crate::variables_base::name_at;
use crate::variables_facts::{facts_of, super_name};
use crate::variables_row::Facts;
use crate::variables_show::show_value;
use dev_disk::disk::Disk;
use fb_frame::name::Name;
use fb_message::line::Line;
use super_meta::table::{Group, Table};
use unit_alloc::Owners;

impl<K: Disk> Store<K> {
    /// The longest download that is taken, in bytes.
    #[tactic(auto, unfolding(crate::specs::Held::device_held))]
    pub fn max_download(&self) -> u32
        ensures max { result ≡ self.now.device.max }
        ensures valid { IsValid self.now.device }
    {
        self.layout.max_download()
    }

    /// How many slots the device has: 0 or 2.
    #[tactic(auto, unfolding(crate::specs::Held::device_held))]
    pub fn slots(&self) -> u8
        ensures slots { result ≡ self.now.device.slots }
    {
        self.layout.slots()
    }

    /// The state.
    #[tactic(auto, unfolding(crate::specs::Held::device_held))]
    pub fn state(&self) -> State
        ensures state { result ≡ kept_state self.now.device }
        ensures valid { IsValid self.now.device }
    {
        self.state
    }

    /// Minor version and flags of the table.
    #[tactic(auto, unfolding(crate::specs::Held::device_held))]
    pub fn table_version(&self) -> (u16, u32)
        ensures version { (result.0 ≡ self.now.device.table_minor)
            × (result.1 ≡ self.now.device.table_flags) }
    {
        match &self.within {
            None => (0, 0),
            Some(within) => (within.table.minor, within.table.flags),
        }
    }

    /// The name of super; none without one.
    #[tactic(auto, unfolding(crate::specs::Held::device_held))]
    pub fn super_name(&self) -> Option<Name>
        ensures name { result ≡ self.now.device.super_name }
    {
        super_name(&self.layout.super_part())
    }

    /// The map of units; none without super.
    pub fn owners(&self) -> Option<&Owners>
        ensures owners { option_map (λ owners. owners.now) result ≡ self.now.owning }
    {
        match &self.within {
            None => None,
            Some(within) => Some(&within.owners),
        }
    }

    /// What the variables tell of, in the bootloader or in userspace.
    fn facts(&self, userspace: bool) -> Facts<'_>
        ensures value { (name : List ℕ) → value (told_device result) name
            ≡ value (started_in userspace self.now.device) name }
        ensures all { all_rows (told_device result) ≡ all_rows (started_in userspace self.now.device) }
        ensures names { names_of (told_device result) ≡ names_of self.now.device }
        ensures kinds { (name : List ℕ) → kind_of (told_device result) name ≡ kind_of self.now.device name }
        ensures lengths { (name : List ℕ) → option_map length (bytes_of (told_device result) name)
            ≡ option_map length (bytes_of self.now.device name) }
        ensures tellable { AreTellable result }
    {
        facts_of(&self.layout, &self.state, table_of(&self.within), userspace)
    }

    /// The text of a variable, in the bootloader or in userspace. Says whether there is one.
    pub fn value(&self, name: &[u8], userspace: bool, line: &mut Line) -> bool
        ensures text { Shows (value (started_in userspace self.now.device) name.now) result line.old
            line.new }
    {
        show_value(&self.facts(userspace), name, line)
    }

    /// A variable by its place in the order of `all`, as `name:value`. Says whether there is one.
    pub fn variable(&self, place: u32, userspace: bool, line: &mut Line) -> bool
        ensures text { Shows (option_map info_text
            (slice_get (all_rows (started_in userspace self.now.device)) place)) result line.old line.new }
    {
        show_variable(&self.facts(userspace), place as usize, line)
    }

    /// The name of a partition: the physical ones in the layout's order, and then the logical ones in the
    /// table's.
    pub fn name_at(&self, place: u32) -> Option<Name>
        ensures name { result ≡ slice_get (names_of self.now.device) place }
        ensures valid { IsValid self.now.device }
    {
        let _ = &self.disk;
        name_at(&self.facts(false), place as usize).copied()
    }

    /// Whether a partition is a logical one; none where there is no partition of the name.
    pub fn is_logical(&self, name: &Name) -> Option<bool>
        ensures kind { result ≡ kind_of self.now.device name.now }
    {
        kind_of(&self.facts(false), name.bytes())
    }

    /// How many bytes a partition has.
    pub fn length(&self, name: &Name) -> Option<u64>
        ensures length { result ≡ option_map length (bytes_of self.now.device name.now) }
        ensures valid { IsValid self.now.device }
    {
        let _ = &self.disk;
        length_of(&self.facts(false), name.bytes())
    }

    /// The part of a logical partition in the map of units.
    pub fn place(&self, name: &Name) -> Option<u32>
        ensures part { result ≡ part_of self.now name.now }
        ensures bound { IsFalse self.now.broken → IfSome result (λ part.
            IfSome self.now.owning (λ owning. part < length owning.parts)) }
    {
        match &self.within {
            None => None,
            Some(within) => part_of(&within.table.partitions, &within.parts, name.bytes()),
        }
    }

    /// The group of a logical partition.
    pub fn group_of(&self, name: &Name) -> Option<Name>
        ensures group { result ≡ group_of self.now.device name.now }
    {
        match &self.within {
            None => None,
            Some(within) => group_of(&within.table, name.bytes()),
        }
    }

    /// A group, in the table's order.
    #[tactic(auto, unfolding(crate::specs::Held::device_held))]
    pub fn group(&self, place: u32) -> Option<Group>
        ensures group { option_map limited result ≡ slice_get self.now.device.groups place }
    {
        match &self.within {
            None => None,
            Some(within) => group_at(&within.table.groups, place as usize),
        }
    }
}

/// The table of super.
fn table_of<'a>(within: &'a Option<SuperRead>) -> Option<&'a Table>
    ensures { option_map (λ t. content t.now) result ≡ table_within within.now }
{
    match within {
        None => None,
        Some(within) => Some(&within.table),
    }
}

fn group_at(groups: &[Group], place: usize) -> Option<Group>
    ensures { result ≡ slice_get groups.now place }
{
    groups.get(place).copied()
}
