//! Room for later tables: no call after opening takes memory.
ghost use Rattle.std.specs.Prelude.{◌≡◌, IfOk, OnOk};
ghost use Rattle.super_meta.specs.Contents.{content};
ghost use Rattle.dev_store.specs.LayoutLines.{unit_count};
ghost use Rattle.dev_store.specs.SuperBounds.{IsBounded};
ghost use Rattle.dev_store.specs.SuperReads.{HasRoom};

use crate::layout::SuperPart;
use fb_frame::memory::Memory;
use std::alloc::Global;
use super_meta::image::TableRoom;
use super_meta::table::Table;

/// How many logical partitions and groups a device has at most.
const PARTITIONS: usize = 128;

const GROUPS: usize = 64;

/// Makes room in a table for that many more partitions and groups, and for an extent of each unit.
fn make_room(table: &mut Table, units: usize) -> Result<(), Memory>
    ensures same { content table.new ≡ content table.old }
    ensures room { OnOk result (HasRoom units table.new) }
{
    let Ok(()) = table.partitions.reserve(PARTITIONS) else {
        return Err(Memory);
    };
    let Ok(()) = table.groups.reserve(GROUPS) else {
        return Err(Memory);
    };
    let Ok(()) = table.extents.reserve(units) else {
        return Err(Memory);
    };
    Ok(())
}

/// A table of the same block device with empty lists, which have such room.
fn next_table(alloc: Global, table: &Table, units: usize) -> Result<Table, Memory>
    ensures room { IfOk result (λ next. HasRoom units next) }
{
    let mut next = Table {
        minor: table.minor,
        flags: table.flags,
        partitions: Vec::new(alloc),
        extents: Vec::new(alloc),
        groups: Vec::new(alloc),
        device: table.device,
    };
    make_room(&mut next, units)?;
    Ok(next)
}

/// Makes room in the table of a super, and takes a second one, and a room for the tables of a file.
pub(crate) fn take_rooms(
    alloc: Global,
    s: &SuperPart,
    table: &mut Table,
) -> Result<(Table, TableRoom), Memory>
    requires bounded { IsBounded s.now }
    ensures same { content table.new ≡ content table.old }
    ensures room { OnOk result (HasRoom (unit_count s.now) table.new) }
    ensures next { IfOk result (λ rooms. HasRoom (unit_count s.now) rooms.0) }
{
    let units = s.unit_count() as usize;
    make_room(table, units)?;
    let next = next_table(alloc, table, units)?;
    let room = TableRoom::new(alloc)?;
    Ok((next, room))
}
