//! The writes of a new image, over a file of zeros.
ghost use Rattle.std.specs.Prelude.{◌≡◌, ◌+◌, ◌*◌, ◌^◌, ◌<◌, length, OnOk, OnErr, IsTrue, Some, Ok};
ghost use Rattle.std.specs.Result.{IsErrOf};
ghost use Rattle.fb_frame.specs.Causes.{Rose};
ghost use Rattle.fb_frame.specs.Told.{Both};
ghost use Rattle.dev_disk.specs.Files.{IsInside};
ghost use Rattle.dev_disk.specs.Disks.{open_bytes, OpenKept, Writes};
ghost use Rattle.dev_model.specs.Images.{copies};
ghost use Rattle.dev_store.specs.Layouts.{layout_of, image_size, parts_end};
ghost use Rattle.dev_store.specs.Laid.{is_good_super};
ghost use Rattle.dev_store.specs.Making.{image_front, super_front, SuperWrites, Fills};
ghost use Rattle.dev_store.specs.TableWrites.{AreSomeWritten};

use crate::layout::{Layout, SuperPart};
use crate::making_blocks::{geometry_block, new_state, table_block, text_block};
use crate::record::{BLOCK, write_record};
use dev_disk::disk::{CreateError, Disk, DiskFault};
use std::alloc::Global;

/// Writes a block `count` times in a row, from the place `at` on.
pub fn write_copies<K: Disk>(
    disk: &mut K,
    at: u64,
    block: &[u8],
    count: u32,
) -> Result<(), DiskFault>
    requires inside { IsInside (K.told disk.old).open_length at (count * length block.now) }
    requires small { at + count * length block.now < 2 ^ 64 }
    ensures writes { OnOk result (Writes (K.told disk.old) (K.told disk.new) at (copies count block.now)) }
    ensures left { OnErr result (Both (AreSomeWritten (K.told disk.new).torn at count block.now)
        (open_bytes (K.told disk.old)) (open_bytes (K.told disk.new))) }
    ensures kept { OpenKept (K.told disk.old) (K.told disk.new) }
    ensures cause { OnErr result (Rose (K.told disk.old).faults (K.told disk.new).faults) }
    ensures same { K.lent disk.new ≡ K.lent disk.old }
{
    let mut place = at;
    for _copy in 0..count {
        let Ok(()) = disk.write_at(place, block) else {
            return Err(DiskFault);
        };
        place += block.len() as u64;
    }
    Ok(())
}

/// Writes the layout's text and both records of the new device.
fn write_front<K: Disk>(disk: &mut K, layout: &Layout, unlocked: bool) -> Result<(), DiskFault>
    requires inside { IsInside (K.told disk.old).open_length 0 12288 }
    ensures writes { OnOk result
        (Writes (K.told disk.old) (K.told disk.new) 0 (image_front layout.now unlocked)) }
    ensures laid { layout_of layout.now.text ≡ Ok layout.now }
    ensures kept { OpenKept (K.told disk.old) (K.told disk.new) }
    ensures cause { OnErr result (Rose (K.told disk.old).faults (K.told disk.new).faults) }
    ensures same { K.lent disk.new ≡ K.lent disk.old }
{
    let text = text_block(layout);
    let Ok(()) = write_copies(disk, 0, &text, 1) else {
        return Err(DiskFault);
    };
    let mut record = [0; BLOCK];
    write_record(&new_state(layout, unlocked), &mut record);
    let Ok(()) = write_copies(disk, 4096, &record, 2) else {
        return Err(DiskFault);
    };
    Ok(())
}

/// Writes both blocks of the geometry and all copies of the table of a new super, which begins at the
/// place `at`.
fn write_super<K: Disk>(
    alloc: Global,
    disk: &mut K,
    s: &SuperPart,
    at: u64,
) -> Result<(), CreateError>
    requires inside { IsInside (K.told disk.old).open_length at s.now.size }
    requires good { IsTrue (is_good_super (Some s.now)) }
    requires small { at + s.now.size < 2 ^ 64 }
    ensures writes { OnOk result
        (Writes (K.told disk.old) (K.told disk.new) (at + 4096) (super_front s.now)) }
    ensures kept { OpenKept (K.told disk.old) (K.told disk.new) }
    ensures cause { IsErrOf result CreateError.Disk →
        Rose (K.told disk.old).faults (K.told disk.new).faults }
    ensures same { K.lent disk.new ≡ K.lent disk.old }
{
    let Ok(table) = table_block(alloc, s) else {
        return Err(CreateError::Memory);
    };
    let geometry = geometry_block(s);
    let Ok(()) = write_copies(disk, at + 4096, &geometry, 2) else {
        return Err(CreateError::Disk);
    };
    let Ok(()) = write_copies(disk, at + 12288, table.as_slice(), 2 * s.slots) else {
        return Err(CreateError::Disk);
    };
    Ok(())
}

/// Writes what of a new super isn't zeros, where the layout has one.
fn write_any_super<K: Disk>(alloc: Global, disk: &mut K, layout: &Layout) -> Result<(), CreateError>
    requires inside { IsInside (K.told disk.old).open_length 0 (image_size layout.now) }
    requires laid { layout_of layout.now.text ≡ Ok layout.now }
    ensures writes { OnOk result (SuperWrites layout.now.super_part (parts_end layout.now.physical)
        (K.told disk.old) (K.told disk.new)) }
    ensures kept { OpenKept (K.told disk.old) (K.told disk.new) }
    ensures cause { IsErrOf result CreateError.Disk →
        Rose (K.told disk.old).faults (K.told disk.new).faults }
    ensures same { K.lent disk.new ≡ K.lent disk.old }
{
    let Some(s) = layout.super_part() else {
        return Ok(());
    };
    write_super(alloc, disk, &s, layout.image_size() - s.size)
}

/// Writes the image of a new device over a file of zeros, and waits until it is kept.
pub fn write_image<K: Disk>(
    alloc: Global,
    disk: &mut K,
    layout: &Layout,
    unlocked: bool,
) -> Result<(), CreateError>
    requires inside { IsInside (K.told disk.old).open_length 0 (image_size layout.now) }
    ensures fills { OnOk result (Fills layout.now unlocked (K.told disk.old) (K.told disk.new)) }
    ensures kept { OpenKept (K.told disk.old) (K.told disk.new) }
    ensures cause { IsErrOf result CreateError.Disk →
        Rose (K.told disk.old).faults (K.told disk.new).faults }
    ensures same { K.lent disk.new ≡ K.lent disk.old }
{
    let Ok(()) = write_front(disk, layout, unlocked) else {
        return Err(CreateError::Disk);
    };
    write_any_super(alloc, disk, layout)?;
    let Ok(()) = disk.sync() else {
        return Err(CreateError::Disk);
    };
    Ok(())
}
