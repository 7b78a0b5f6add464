ghost use Rattle.std.specs.Prelude.{◌≡◌, option_map};
ghost use Rattle.super_meta.specs.Contents.{content};
ghost use Rattle.dev_store.specs.States.{both_flags};
ghost use Rattle.dev_store.specs.ToldRows.{AreFactsOf, partitions_in, extents_in};

use crate::layout::{Layout, SuperPart};
use crate::state::State;
use crate::variables_row::Facts;
use dev_model::device::BothFlags;
use fb_frame::name::Name;
use super_meta::table::{Extent, Partition, Table};

fn both_flags(state: &State) -> BothFlags
    ensures { result ≡ both_flags state.now.flags }
{
    BothFlags {
        a: state.flags[0],
        b: state.flags[1],
    }
}

/// The name of super; none without one.
pub fn super_name(part: &Option<SuperPart>) -> Option<Name>
    ensures { result ≡ option_map (λ s. s.name) part.now }
{
    match part {
        None => None,
        Some(part) => Some(part.name),
    }
}

fn partitions_in<'a>(table: Option<&'a Table>) -> &'a [Partition]
    ensures { result.now ≡ partitions_in (option_map (λ t. content t.now) table.entry) }
{
    match table {
        None => {
            let none: &[Partition] = &[];
            none
        }
        Some(table) => table.partitions.as_slice(),
    }
}

fn extents_in<'a>(table: Option<&'a Table>) -> &'a [Extent]
    ensures { result.now ≡ extents_in (option_map (λ t. content t.now) table.entry) }
{
    match table {
        None => [].as_slice(),
        Some(table) => table.extents.as_slice(),
    }
}

/// What variables tell of a device of this layout, state and table, in userspace or in the bootloader.
pub fn facts_of<'a>(
    layout: &'a Layout,
    state: &State,
    table: Option<&'a Table>,
    userspace: bool,
) -> Facts<'a>
    ensures { AreFactsOf layout.now state.now (option_map (λ t. content t.now) table.entry) userspace result }
{
    Facts {
        product: layout.product(),
        serial: layout.serial(),
        vars: layout.vars(),
        slots: layout.slots(),
        max: layout.max_download(),
        super_name: super_name(&layout.super_part()),
        physical: layout.physical(),
        active: state.active,
        flags: both_flags(state),
        locked: state.locked,
        userspace,
        logical: partitions_in(table),
        extents: extents_in(table),
    }
}
