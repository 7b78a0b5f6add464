//! The blocks of a new image.
ghost use Rattle.std.specs.Prelude.{◌≡◌, length, codes, IfOk, IsTrue, Some, Ok};
ghost use Rattle.fb_frame.specs.Bytes.{zeros};
ghost use Rattle.super_meta.specs.Contents.{content};
ghost use Rattle.dev_store.specs.Laid.{is_good_super};
ghost use Rattle.dev_store.specs.Layouts.{layout_of};
ghost use Rattle.dev_store.specs.NewDevice.{new_flags, new_state, new_table, filled_up};
ghost use Rattle.dev_store.specs.Making.{geometry_block, table_block};

use crate::layout::{Layout, SuperPart};
use crate::record::{BLOCK, put};
use crate::state::State;
use dev_model::device::SlotFlags;
use fb_frame::name::Name;
use fb_frame::slot::Slot;
use std::alloc::{AllocError, Global};
use super_meta::geometry::{Geometry, write_geometry};
use super_meta::table::{BlockDevice, Group, Table};
use super_meta::writing::write_table;

/// The flags of a new slot.
fn new_flags(slots: u8) -> SlotFlags
    ensures { result ≡ new_flags slots }
{
    SlotFlags {
        successful: false,
        unbootable: false,
        retries: if slots == 2 { 7 } else { 0 },
    }
}

/// The state of a new device.
pub fn new_state(layout: &Layout, unlocked: bool) -> State
    ensures { result ≡ new_state layout.now unlocked }
{
    let flags = new_flags(layout.slots());
    State {
        locked: !unlocked,
        active: Slot::A,
        flags: [flags, flags],
        userspace: false,
    }
}

/// The first block: the layout's text, and zeros up to its end.
pub fn text_block(layout: &Layout) -> [u8; 4096]
    ensures block { result ≡ filled_up 4096 layout.now.text }
    ensures laid { layout_of layout.now.text ≡ Ok layout.now }
    ensures length { length result ≡ 4096 }
{
    let text = layout.text();
    let mut block = [0; BLOCK];
    put(&mut block, 0, text);
    block
}

/// A block of the geometry, and zeros up to its end.
pub fn geometry_block(s: &SuperPart) -> [u8; 4096]
    requires good { IsTrue (is_good_super (Some s.now)) }
    ensures block { result ≡ geometry_block s.now }
    ensures length { length result ≡ 4096 }
{
    let geometry = Geometry {
        max_size: s.max_size,
        slots: s.slots,
        block_size: BLOCK as u32,
    };
    let mut block = [0; 4096];
    write_geometry(&geometry, &mut block);
    block
}

/// The group that each new super has.
fn default_group() -> Group
    ensures { result ≡ record { name = codes "default"; limit = 0 } }
{
    let Some(name) = Name::read(b"default") else {
        unreachable!()
    };
    Group { name, limit: 0 }
}

/// The table of a new super: one group without a limit, and no partition.
fn new_table(alloc: Global, s: &SuperPart) -> Result<Table, AllocError>
    requires good { IsTrue (is_good_super (Some s.now)) }
    ensures table { IfOk result (λ table. content table ≡ new_table s.now) }
{
    let mut groups = Vec::new(alloc);
    groups.push(default_group())?;
    Ok(Table {
        minor: 0,
        flags: 0,
        partitions: Vec::new(alloc),
        extents: Vec::new(alloc),
        groups,
        device: BlockDevice {
            first_sector: s.first_unit() / 512,
            alignment: s.unit,
            offset: 0,
            size: s.size,
            name: s.name,
        },
    })
}

/// Writes the table of a new super over a copy's room of zeros.
fn fill_table(s: &SuperPart, table: &Table, block: &mut [u8])
    requires good { IsTrue (is_good_super (Some s.now)) }
    requires table { content table.now ≡ new_table s.now }
    requires zeros { block.old ≡ zeros s.now.max_size }
    ensures block { block.new ≡ table_block s.now }
    ensures length { length block.new ≡ s.now.max_size }
{
    let Ok(_) = write_table(table, block) else {
        unreachable!()
    };
}

/// A copy's room of zeros.
#[tactic(auto, unfolding(fb_frame::specs::Bytes::zeros))]
fn make_room(alloc: Global, size: u32) -> Result<Vec<u8>, AllocError>
    ensures zeros { IfOk result (λ room. room.items ≡ zeros size) }
    ensures length { IfOk result (λ room. length room.items ≡ size) }
{
    let mut room = Vec::new(alloc);
    room.resize(size as usize, 0)?;
    Ok(room)
}

/// A copy of a new super's table, and zeros up to the end of its room.
pub fn table_block(alloc: Global, s: &SuperPart) -> Result<Vec<u8>, AllocError>
    requires good { IsTrue (is_good_super (Some s.now)) }
    ensures block { IfOk result (λ block. block.items ≡ table_block s.now) }
    ensures length { IfOk result (λ block. length block.items ≡ s.now.max_size) }
{
    let table = new_table(alloc, s)?;
    let mut block = make_room(alloc, s.max_size)?;
    fill_table(s, &table, block.as_mut_slice());
    Ok(block)
}
