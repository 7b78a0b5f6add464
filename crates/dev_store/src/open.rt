ghost use Rattle.std.specs.Prelude.{◌≡◌, ◌⊎◌, ◌≤◌, length, Some, IfSome, IfOk, OnOk, OnErr};
ghost use Rattle.std.specs.Result.{IsErrOf};
ghost use Rattle.fb_frame.specs.Causes.{Rose};
ghost use Rattle.dev_model.specs.declared.bad_image.BadImage.{BadImage};
ghost use Rattle.dev_disk.specs.Files.{StaysTorn};
ghost use Rattle.dev_disk.specs.Disks.{open_bytes};
ghost use Rattle.dev_store.specs.Layouts.{image_size};
ghost use Rattle.dev_store.specs.Faults.{IsHonest};
ghost use Rattle.dev_store.specs.Opening.{IsAbsent, IsBadImage, OpensImage, LeavesImage};
ghost use Rattle.dev_store.specs.Opening.{OthersKept};
ghost use Rattle.dev_store.specs.Held.{IsWhole};
ghost use Rattle.dev_store.specs.Reading.{IsImageRead, IsReadSound, IsFileOpen, IsStored, held_of};

use crate::errors::OpenError;
use crate::image_read::{ImageRead, read_image};
use crate::image_repair::repair_image;
use dev_disk::disk::Disk;
use std::alloc::Global;

/// An image that was read, and room for the bytes that later calls write: 126,976 of them, as many as
/// a copy of a table may have.
#[derive(Drop)]
pub struct Opened {
    pub read: ImageRead,
    pub buffer: Vec<u8>,
}

/// Opens the file of the path, and waits until what was written to it is kept. It answers the length.
fn find<K: Disk>(disk: &mut K, path: &str) -> Result<u64, OpenError>
    ensures length { IfOk result (λ size. (K.told disk.new).open_length ≡ Some size) }
    ensures open { OnOk result (IsFileOpen (K.told disk.new) path.now) }
    ensures absent { IsErrOf result OpenError.Absent → IsAbsent (K.told disk.old).files path.now }
    ensures good { (bad : BadImage) → IsErrOf result (OpenError.Bad bad) → ⊥ }
    ensures files { (K.told disk.new).files ≡ (K.told disk.old).files }
    ensures later { (K.told disk.old).faults ≤ (K.told disk.new).faults }
    ensures torn { StaysTorn (K.told disk.old).torn (K.told disk.new).torn }
    ensures cause { IsErrOf result OpenError.Disk → Rose (K.told disk.old).faults (K.told disk.new).faults }
    ensures same { K.lent disk.new ≡ K.lent disk.old }
{
    let Ok(found) = disk.open(path) else {
        return Err(OpenError::Disk);
    };
    let Some(size) = found else {
        return Err(OpenError::Absent);
    };
    let Ok(()) = disk.sync() else {
        return Err(OpenError::Disk);
    };
    Ok(size)
}

/// Reads the image of the path, and takes all memory that a store needs.
fn read_path<K: Disk>(alloc: Global, disk: &mut K, path: &str) -> Result<Opened, OpenError>
    ensures read { IfOk result (λ opened. IfSome (open_bytes (K.told disk.new)) (IsImageRead opened.read)) }
    ensures sound { IfOk result (λ opened. IsReadSound opened.read) }
    ensures room { IfOk result (λ opened. length opened.buffer.items ≡ 126976) }
    ensures long { IfOk result (λ opened. (K.told disk.new).open_length
        ≡ Some (image_size opened.read.layout)) }
    ensures open { OnOk result (IsFileOpen (K.told disk.new) path.now) }
    ensures absent { IsErrOf result OpenError.Absent → IsAbsent (K.told disk.old).files path.now }
    ensures bad { (bad : BadImage) → IsErrOf result (OpenError.Bad bad) →
        IsBadImage (K.told disk.old).files path.now bad }
    ensures files { (K.told disk.new).files ≡ (K.told disk.old).files }
    ensures later { (K.told disk.old).faults ≤ (K.told disk.new).faults }
    ensures torn { StaysTorn (K.told disk.old).torn (K.told disk.new).torn }
    ensures cause { IsErrOf result OpenError.Disk → Rose (K.told disk.old).faults (K.told disk.new).faults }
    ensures same { K.lent disk.new ≡ K.lent disk.old }
{
    let size = match find(disk, path) {
        Ok(size) => size,
        Err(e) => return Err(e),
    };
    let Ok(mut buffer) = vec![in alloc; 0; 126976] else {
        return Err(OpenError::Memory);
    };
    match read_image(alloc, disk, size, &mut buffer) {
        Ok(read) => Ok(Opened { read, buffer }),
        Err(e) => Err(e),
    }
}

/// Opens the device image of the path, and writes each copy anew that can't be read, differs or is old.
pub fn open_image<K: Disk>(alloc: Global, disk: &mut K, path: &str) -> Result<Opened, OpenError>
    ensures opens { IfOk result (λ opened. OpensImage (K.told disk.old) (K.told disk.new)
        path.now (held_of K.told disk.new opened.read).device) }
    ensures whole { IfOk result (λ opened. IsWhole K.told (held_of K.told disk.new opened.read)) }
    ensures stored { IfOk result (λ opened. IsStored K.told (held_of K.told disk.new opened.read)
        opened.read.layout opened.read.found.state opened.read.within opened.buffer.items) }
    ensures sound { IfOk result (λ opened. IsReadSound opened.read) }
    ensures room { IfOk result (λ opened. length opened.buffer.items ≡ 126976) }
    ensures long { IfOk result (λ opened. (K.told disk.new).open_length
        ≡ Some (image_size opened.read.layout)) }
    ensures absent { IsErrOf result OpenError.Absent → IsAbsent (K.told disk.old).files path.now }
    ensures bad { (bad : BadImage) → IsErrOf result (OpenError.Bad bad) →
        IsBadImage (K.told disk.old).files path.now bad }
    ensures unwritten { (bad : BadImage) →
        IsErrOf result OpenError.Absent ⊎ IsErrOf result (OpenError.Bad bad) →
        (K.told disk.new).files ≡ (K.told disk.old).files }
    ensures spared { (bad : BadImage) → IsBadImage (K.told disk.old).files path.now bad →
        OnErr result ((K.told disk.new).files ≡ (K.told disk.old).files) }
    ensures left { OnErr result (IsHonest (K.told disk.new).torn →
        LeavesImage (K.told disk.old) (K.told disk.new) path.now) }
    ensures others { OnErr result (OthersKept (K.told disk.old) (K.told disk.new) path.now) }
    ensures cause { IsErrOf result OpenError.Disk → Rose (K.told disk.old).faults (K.told disk.new).faults }
    ensures same { K.lent disk.new ≡ K.lent disk.old }
{
    let mut opened = match read_path(alloc, disk, path) {
        Ok(opened) => opened,
        Err(e) => return Err(e),
    };
    let Ok(()) = repair_image(disk, &opened.read, &mut opened.buffer) else {
        return Err(OpenError::Disk);
    };
    Ok(opened)
}
