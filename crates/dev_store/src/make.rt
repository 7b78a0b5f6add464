//! Making the image of a new device.
ghost use Rattle.std.specs.Prelude.{◌≡◌, ◌⊎◌, ◌≤◌, OnOk, OnErr};
ghost use Rattle.std.specs.Result.{IsErrOf};
ghost use Rattle.fb_frame.specs.Causes.{Rose};
ghost use Rattle.dev_disk.specs.Files.{KeepsOthers, StaysTorn};
ghost use Rattle.dev_store.specs.Opening.{Makes};

use crate::errors::OpenError;
use crate::layout::Layout;
use crate::making::write_image;
use dev_disk::disk::{CreateError, Disk};
use std::alloc::Global;

/// Makes the file and writes the image.
fn make_image<K: Disk>(
    alloc: Global,
    disk: &mut K,
    path: &str,
    layout: &Layout,
    unlocked: bool,
) -> Result<(), CreateError>
    ensures made { OnOk result (Makes (K.told disk.new).files path.now layout.now unlocked) }
    ensures others { KeepsOthers (K.told disk.old).files (K.told disk.new).files path.now }
    ensures cause { IsErrOf result CreateError.Disk →
        Rose (K.told disk.old).faults (K.told disk.new).faults }
    ensures later { (K.told disk.old).faults ≤ (K.told disk.new).faults }
    ensures torn { StaysTorn (K.told disk.old).torn (K.told disk.new).torn }
    ensures same { K.lent disk.new ≡ K.lent disk.old }
{
    disk.create(alloc, path, layout.image_size())?;
    write_image(alloc, disk, layout, unlocked)
}

/// Makes the image of a new device, in place of any file of the path, and leaves it open. An `Err` may
/// leave any file of the path, or none.
pub fn make<K: Disk>(
    alloc: Global,
    disk: &mut K,
    path: &str,
    layout: &Layout,
    unlocked: bool,
) -> Result<(), OpenError>
    ensures made { OnOk result (Makes (K.told disk.new).files path.now layout.now unlocked) }
    ensures others { KeepsOthers (K.told disk.old).files (K.told disk.new).files path.now }
    ensures only { OnErr result (IsErrOf result OpenError.Disk ⊎ IsErrOf result OpenError.Memory) }
    ensures cause { IsErrOf result OpenError.Disk →
        Rose (K.told disk.old).faults (K.told disk.new).faults }
    ensures later { (K.told disk.old).faults ≤ (K.told disk.new).faults }
    ensures torn { StaysTorn (K.told disk.old).torn (K.told disk.new).torn }
    ensures same { K.lent disk.new ≡ K.lent disk.old }
{
    match make_image(alloc, disk, path, layout, unlocked) {
        Ok(()) => Ok(()),
        Err(CreateError::Disk) => Err(OpenError::Disk),
        Err(CreateError::Memory) => Err(OpenError::Memory),
    }
}
