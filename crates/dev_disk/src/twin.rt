ghost use Rattle.std.specs.Prelude.{◌≡◌, length, OnOk, OnErr};
ghost use Rattle.fb_frame.specs.Causes.{Rose};
ghost use Rattle.dev_disk.specs.Files.{IsInside, IsRead};
ghost use Rattle.dev_disk.specs.Disks.{open_bytes, FilesKept, Writes};
ghost use Rattle.dev_disk.specs.Twins.{FailsCopy};

use crate::disk::{Disk, DiskFault};

/// Two places of a file, in bytes, that hold one block of `size` bytes.
#[derive(Clone, Copy, Debug)]
pub struct Twin {
    pub first: u64,
    pub second: u64,
    pub size: u32,
}

/// Writes the bytes, and waits until they are kept.
fn write_synced<K: Disk>(disk: &mut K, at: u64, bytes: &[u8]) -> Result<(), DiskFault>
    requires inside { IsInside (K.told disk.old).open_length at (length bytes.now) }
    ensures writes { OnOk result (Writes (K.told disk.old) (K.told disk.new) at bytes.now) }
    ensures fails { OnErr result (FailsCopy (K.told disk.old) (K.told disk.new) at bytes.now) }
    ensures same { K.lent disk.new ≡ K.lent disk.old }
{
    let Ok(()) = disk.write_at(at, bytes) else {
        return Err(DiskFault);
    };
    let Ok(()) = disk.sync() else {
        return Err(DiskFault);
    };
    Ok(())
}

impl Twin {
    ghost use Rattle.dev_disk.specs.Twins.{IsTwin, copy_place, WritesTwin, FailsTwin};

    /// The place of the first copy, or of the second one where `which` is true.
    fn place(&self, which: bool) -> u64
        ensures { result ≡ copy_place self.now which }
    {
        if which { self.second } else { self.first }
    }

    /// Writes the block over the first copy and syncs, and then over the second and syncs.
    pub fn write<K: Disk>(&self, disk: &mut K, block: &[u8]) -> Result<(), DiskFault>
        requires twin { IsTwin self.now (K.told disk.old).open_length }
        requires size { length block.now ≡ self.now.size }
        ensures writes { OnOk result (WritesTwin self.now block.now (K.told disk.old) (K.told disk.new)) }
        ensures fails { OnErr result (FailsTwin self.now block.now (K.told disk.old) (K.told disk.new)) }
        ensures same { K.lent disk.new ≡ K.lent disk.old }
    {
        let Ok(()) = write_synced(disk, self.first, block) else {
            return Err(DiskFault);
        };
        let Ok(()) = write_synced(disk, self.second, block) else {
            return Err(DiskFault);
        };
        Ok(())
    }

    /// Writes the block over the first copy, or over the second one where `which` is true, and syncs.
    pub fn write_copy<K: Disk>(
        &self,
        disk: &mut K,
        which: bool,
        block: &[u8],
    ) -> Result<(), DiskFault>
        requires twin { IsTwin self.now (K.told disk.old).open_length }
        requires size { length block.now ≡ self.now.size }
        ensures writes { OnOk result
            (Writes (K.told disk.old) (K.told disk.new) (copy_place self.now which) block.now) }
        ensures fails { OnErr result
            (FailsCopy (K.told disk.old) (K.told disk.new) (copy_place self.now which) block.now) }
        ensures same { K.lent disk.new ≡ K.lent disk.old }
    {
        write_synced(disk, self.place(which), block)
    }

    /// Reads the first copy, or the second one where `which` is true.
    pub fn read<K: Disk>(
        &self,
        disk: &mut K,
        which: bool,
        block: &mut [u8],
    ) -> Result<(), DiskFault>
        requires twin { IsTwin self.now (K.told disk.old).open_length }
        requires size { length block.old ≡ self.now.size }
        ensures read { OnOk result
            (IsRead (open_bytes (K.told disk.old)) (copy_place self.now which) block.new) }
        ensures kept { FilesKept (K.told disk.old) (K.told disk.new) }
        ensures cause { OnErr result (Rose (K.told disk.old).faults (K.told disk.new).faults) }
        ensures same { K.lent disk.new ≡ K.lent disk.old }
    {
        disk.read_at(self.place(which), block)?;
        Ok(())
    }
}

#[cfg(test)]
mod tests {
    use super::*;
    use crate::disk::CreateError;
    use crate::memory::MemoryDisk;
    use std::alloc::Global;
    use std::test::Fail;

    #[derive(PartialEq, Debug, Drop)]
    enum Call {
        Open,
        Create,
        Read(u64),
        Write(u64),
        Sync,
    }

    /// A disk that keeps a list of the calls on it.
    #[derive(Drop)]
    struct Recorder<K> {
        disk: K,
        calls: Vec<Call>,
    }

    impl<K: Disk> Disk for Recorder<K> {
        ghost Lent = { K.Lent };

        ghost lent = { λ recorder. K.lent recorder.disk };

        ghost told = { λ recorder. K.told recorder.disk };

        fn open(&mut self, path: &str) -> Result<Option<u64>, DiskFault> {
            let _ = self.calls.push(Call::Open);
            self.disk.open(path)
        }

        fn create(&mut self, alloc: Global, path: &str, size: u64) -> Result<(), CreateError> {
            let _ = self.calls.push(Call::Create);
            self.disk.create(alloc, path, size)
        }

        fn read_at(&mut self, at: u64, buf: &mut [u8]) -> Result<(), DiskFault> {
            let _ = self.calls.push(Call::Read(at));
            self.disk.read_at(at, buf)
        }

        fn write_at(&mut self, at: u64, bytes: &[u8]) -> Result<(), DiskFault> {
            let _ = self.calls.push(Call::Write(at));
            self.disk.write_at(at, bytes)
        }

        fn sync(&mut self) -> Result<(), DiskFault> {
            let _ = self.calls.push(Call::Sync);
            self.disk.sync()
        }

        ghost agrees = { λ recorder. K.agrees recorder.disk };
    }

    const TWIN: Twin = Twin {
        first: 1,
        second: 4,
        size: 2,
    };

    #[test]
    fn syncs_after_each_copy(rt: HostRuntime) -> Result<(), Fail> {
        let mut disk = MemoryDisk::new(rt.alloc(), Vec::new(rt.alloc()))?;
        disk.add(rt.alloc(), "image", b"0123456")?;
        let mut recorder = Recorder {
            disk,
            calls: Vec::new(rt.alloc()),
        };
        assert_eq!(rt; recorder.open("image")?, Some(7));
        TWIN.write(&mut recorder, b"ab")?;
        let want = [
            Call::Open,
            Call::Write(1),
            Call::Sync,
            Call::Write(4),
            Call::Sync,
        ];
        assert_eq!(rt; recorder.calls.as_slice(), want.as_slice());
        let mut block = [0; 2];
        TWIN.read(&mut recorder, true, &mut block)?;
        assert_eq!(rt; block.as_slice(), b"ab".as_slice());
        assert!(rt; recorder.disk.file("image") == Some(b"0ab3ab6".as_slice()));
        Ok(())
    }

    /// The file after a write whose call of this number fails.
    #[test]
    fn leaves_one_copy_whole(rt: HostRuntime) -> Result<(), Fail> {
        for (call, want) in [
            (2, b"0123456"),
            (3, b"0ab3456"),
            (4, b"0ab3456"),
            (5, b"0ab3ab6"),
        ] {
            let mut disk = MemoryDisk::new(rt.alloc(), vec![in rt.alloc(); call]?)?;
            disk.add(rt.alloc(), "image", b"0123456")?;
            assert_eq!(rt; disk.open("image")?, Some(7));
            assert!(rt; TWIN.write(&mut disk, b"ab").is_err());
            assert!(rt; disk.file("image") == Some(want.as_slice()), "call {call}");
        }
        Ok(())
    }
}
