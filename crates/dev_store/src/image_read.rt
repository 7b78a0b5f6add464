ghost use Rattle.std.specs.Prelude.{◌≡◌, ◌≤◌, length, None, Some, Err, IfSome, IfOk};
ghost use Rattle.std.specs.Result.{IsErrOf};
ghost use Rattle.fb_frame.specs.Causes.{Rose};
ghost use Rattle.dev_model.specs.declared.bad_image.BadImage.{BadImage};
ghost use Rattle.dev_model.specs.declared.bad_image.BadImage.TheVariants.{BadLayout};
ghost use Rattle.dev_disk.specs.Files.{IsInside};
ghost use Rattle.dev_disk.specs.Disks.{open_bytes, FilesKept};
ghost use Rattle.dev_store.specs.Laid.{IsLaid};
ghost use Rattle.dev_store.specs.Layouts.{image_size, layout_in, text_in};
ghost use Rattle.dev_store.specs.Stand.{stand, super_found};
ghost use Rattle.dev_store.specs.Reading.{IsFront, IsWithinRead, IsWithinSound, IsImageRead, IsReadSound};

use crate::errors::OpenError;
use crate::layout::{Layout, LayoutFail, read_layout};
use crate::states_read::{StateRead, read_states};
use crate::super_read::{SuperRead, read_super};
use dev_disk::disk::Disk;
use dev_model::bad_image::BadImage;
use std::alloc::Global;

/// How many bytes lie before the partitions: the layout and two state records, a block each.
const FRONT: u64 = 12288;

/// What opening reads of an image.
#[derive(Drop)]
pub struct ImageRead {
    pub layout: Layout,
    pub found: StateRead,
    pub within: Option<SuperRead>,
}

/// The text of a block: all of it but the zeros at its end.
fn text_in(block: &[u8]) -> &[u8]
    ensures { result.now ≡ text_in block.now }
{
    let mut end = block.len();
    while end > 0 && block[end - 1] == 0 {
        end -= 1;
    }
    &block[..end]
}

/// The layout in the first block of the open file.
fn read_first<K: Disk>(alloc: Global, disk: &mut K) -> Result<Layout, OpenError>
    requires inside { IsInside (K.told disk.old).open_length 0 12288 }
    ensures read { IfOk result (λ layout. IfSome (open_bytes (K.told disk.old))
        (λ file. layout_in file ≡ Some layout)) }
    ensures laid { IfOk result IsLaid }
    ensures bad { (bad : BadImage) → IsErrOf result (OpenError.Bad bad) →
        (bad ≡ BadLayout) × IfSome (open_bytes (K.told disk.old)) (λ file. layout_in file ≡ None) }
    ensures absent { IsErrOf result OpenError.Absent → ⊥ }
    ensures kept { FilesKept (K.told disk.old) (K.told disk.new) }
    ensures cause { IsErrOf result OpenError.Disk → Rose (K.told disk.old).faults (K.told disk.new).faults }
    ensures same { K.lent disk.new ≡ K.lent disk.old }
{
    let mut block = [0; 4096];
    disk.read_at(0, &mut block)?;
    match read_layout(alloc, text_in(&block)) {
        Ok(layout) => Ok(layout),
        Err(LayoutFail::Bad(_)) => Err(OpenError::Bad(BadImage::BadLayout)),
        Err(LayoutFail::Memory) => Err(OpenError::Memory),
    }
}

/// The layout of the open file, which is as long as the layout says.
fn read_front<K: Disk>(alloc: Global, disk: &mut K, size: u64) -> Result<Layout, OpenError>
    requires open { (K.told disk.old).open_length ≡ Some size }
    ensures read { IfOk result (λ layout. IfSome (open_bytes (K.told disk.old)) (IsFront layout)) }
    ensures laid { IfOk result IsLaid }
    ensures long { IfOk result (λ layout. size ≡ image_size layout) }
    ensures enough { IfOk result (λ layout. 12288 ≤ size) }
    ensures bad { (bad : BadImage) → IsErrOf result (OpenError.Bad bad) →
        IfSome (open_bytes (K.told disk.old)) (λ file. stand file ≡ Err bad) }
    ensures absent { IsErrOf result OpenError.Absent → ⊥ }
    ensures kept { FilesKept (K.told disk.old) (K.told disk.new) }
    ensures cause { IsErrOf result OpenError.Disk → Rose (K.told disk.old).faults (K.told disk.new).faults }
    ensures same { K.lent disk.new ≡ K.lent disk.old }
{
    if size < FRONT {
        return Err(OpenError::Bad(BadImage::ShortFile));
    }
    let layout = match read_first(alloc, disk) {
        Ok(layout) => layout,
        Err(e) => return Err(e),
    };
    if size != layout.image_size() {
        return Err(OpenError::Bad(BadImage::BadLength));
    }
    Ok(layout)
}

/// What stands in super, where the layout has one.
fn read_within<K: Disk>(
    alloc: Global,
    disk: &mut K,
    layout: &Layout,
    buffer: &mut [u8],
) -> Result<Option<SuperRead>, OpenError>
    requires open { (K.told disk.old).open_length ≡ Some (image_size layout.now) }
    requires laid { IsLaid layout.now }
    requires room { 126976 ≤ length buffer.old }
    ensures read { IfOk result (λ within. IfSome (open_bytes (K.told disk.old))
        (IsWithinRead layout.now layout.now.super_part within)) }
    ensures sound { IfOk result (IsWithinSound layout.now layout.now.super_part) }
    ensures bad { (bad : BadImage) → IsErrOf result (OpenError.Bad bad) →
        IfSome (open_bytes (K.told disk.old))
        (λ file. super_found layout.now layout.now.super_part file ≡ Err bad) }
    ensures absent { IsErrOf result OpenError.Absent → ⊥ }
    ensures kept { FilesKept (K.told disk.old) (K.told disk.new) }
    ensures cause { IsErrOf result OpenError.Disk → Rose (K.told disk.old).faults (K.told disk.new).faults }
    ensures same { K.lent disk.new ≡ K.lent disk.old }
{
    let Some(part) = layout.super_part() else {
        return Ok(None);
    };
    let at = layout.parts_end();
    match read_super(alloc, disk, &part, at, layout.physical(), buffer) {
        Ok(within) => Ok(Some(within)),
        Err(e) => Err(e),
    }
}

/// Reads all that the open file says of a device but the partitions' bytes.
pub fn read_image<K: Disk>(
    alloc: Global,
    disk: &mut K,
    size: u64,
    buffer: &mut [u8],
) -> Result<ImageRead, OpenError>
    requires open { (K.told disk.old).open_length ≡ Some size }
    requires room { 126976 ≤ length buffer.old }
    ensures read { IfOk result (λ r. IfSome (open_bytes (K.told disk.old)) (IsImageRead r)) }
    ensures sound { IfOk result IsReadSound }
    ensures long { IfOk result (λ r. size ≡ image_size r.layout) }
    ensures enough { IfOk result (λ r. 12288 ≤ size) }
    ensures bad { (bad : BadImage) → IsErrOf result (OpenError.Bad bad) →
        IfSome (open_bytes (K.told disk.old)) (λ file. stand file ≡ Err bad) }
    ensures absent { IsErrOf result OpenError.Absent → ⊥ }
    ensures kept { FilesKept (K.told disk.old) (K.told disk.new) }
    ensures cause { IsErrOf result OpenError.Disk → Rose (K.told disk.old).faults (K.told disk.new).faults }
    ensures same { K.lent disk.new ≡ K.lent disk.old }
{
    let layout = match read_front(alloc, disk, size) {
        Ok(layout) => layout,
        Err(e) => return Err(e),
    };
    let found = match read_states(disk, layout.slots()) {
        Ok(found) => found,
        Err(e) => return Err(e),
    };
    let within = match read_within(alloc, disk, &layout, buffer) {
        Ok(within) => within,
        Err(e) => return Err(e),
    };
    Ok(ImageRead {
        layout,
        found,
        within,
    })
}
