ghost use Rattle.std.specs.Prelude.{◌≡◌, length};
ghost use Rattle.dev_disk.specs.Disks.{OpenKept};
ghost use Rattle.dev_disk.specs.Memory.{memory_told};
ghost use Rattle.dev_disk.specs.Twins.{IsTwin};

use crate::disk::Disk;
use crate::memory::MemoryDisk;
use crate::twin::Twin;
use std::test::Fail;

/// Writes a copy of a block on a disk that is handed in, and hands it back.
fn written<K: Disk>(disk: K, twin: Twin, block: &[u8]) -> (K, bool)
    requires twin { IsTwin twin (K.told disk).open_length }
    requires size { length block.now ≡ twin.size }
    ensures kept { OpenKept (K.told disk) (K.told result.0) }
    ensures same { K.lent result.0 ≡ K.lent disk }
{
    let mut disk = disk;
    let wrote = twin.write_copy(&mut disk, true, block).is_ok();
    (disk, wrote)
}

/// A caller that lends its disk knows by `same` what its own disk is afterwards.
fn writes_on_a_loan(disk: &mut MemoryDisk, twin: Twin, block: &[u8]) -> bool
    requires twin { IsTwin twin (memory_told disk.old).open_length }
    requires size { length block.now ≡ twin.size }
    ensures kept { OpenKept (memory_told disk.old) (memory_told disk.new) }
{
    let (_lent, wrote) = written(&mut *disk, twin, block);
    wrote
}

#[test]
fn lends_a_disk(rt: HostRuntime) -> Result<(), Fail> {
    let mut disk = MemoryDisk::new(rt.alloc(), Vec::new(rt.alloc()))?;
    disk.add(rt.alloc(), "image", b"0123456")?;
    assert_eq!(rt; disk.open("image")?, Some(7));
    let twin = Twin {
        first: 1,
        second: 4,
        size: 2,
    };
    assert!(rt; writes_on_a_loan(&mut disk, twin, b"ab"));
    assert!(rt; disk.file("image") == Some(b"0123ab6".as_slice()));
    Ok(())
}
