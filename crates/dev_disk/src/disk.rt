ghost use Rattle.std.specs.Prelude.{◌≡◌, ℕ, List, length, Option, IsSome, OnOk, OnErr, IfOk};
ghost use Rattle.std.specs.Result.{IsErrOf};
ghost use Rattle.fb_frame.specs.Causes.{Rose};
ghost use Rattle.dev_disk.specs.Files.{IsInside, IsRead};
ghost use Rattle.dev_disk.specs.Calls.{Agrees};
ghost use Rattle.dev_disk.specs.Disks.{DiskTold, open_bytes, FilesKept, FailsStill};
ghost use Rattle.dev_disk.specs.Disks.{Opens, Creates, FailsCreate, Writes, FailsWrite};

use fb_frame::failures::Failed;
use std::alloc::Global;
use thiserror::Error;

/// The outside refused a call on a disk.
#[derive(Debug, Drop, Error)]
#[error("the disk failed")]
pub struct DiskFault;

impl From<Failed> for DiskFault {
    fn from(_: Failed) -> DiskFault {
        DiskFault
    }
}

/// Why a file wasn't made.
#[derive(Debug, Drop, Error)]
pub enum CreateError {
    #[error("the disk failed")]
    Disk,
    #[error("out of memory")]
    Memory,
}

/// Files by their paths, at most one of them open.
pub trait Disk {
    /// What no call changes, as which disk is borrowed.
    ghost Lent: { Type 0 } = { Unit {0} };

    ghost lent: { Self → Self.Lent };

    /// All that the disk tells: its files, the open one, its count of faults, and what failed writes
    /// left.
    ghost told: { Self → DiskTold };

    /// Opens the file of the path, and answers its length in bytes. `None` says that the disk tells
    /// its files and has none of the path. After `None` and after an `Err` the file that was open
    /// before is open.
    fn open(&mut self, path: &str) -> Result<Option<u64>, DiskFault>
        ensures opens { IfOk result (λ size. Opens (told self.old) (told self.new) path.now size) }
        ensures fails { OnErr result (FailsStill (told self.old) (told self.new)) }
        ensures same { Self.lent self.new ≡ Self.lent self.old };

    /// Makes a file of `size` zeros, in place of any file of the path, and leaves it open. An `Err`
    /// may leave any file of the path, or none.
    fn create(&mut self, alloc: Global, path: &str, size: u64) -> Result<(), CreateError>
        ensures creates { OnOk result (Creates (told self.old) (told self.new) path.now size) }
        ensures fails { OnErr result (FailsCreate (told self.old) (told self.new) path.now) }
        ensures cause { IsErrOf result CreateError.Disk → Rose (told self.old).faults (told self.new).faults }
        ensures same { Self.lent self.new ≡ Self.lent self.old };

    /// Fills the buffer with the bytes of the open file from the place `at` on.
    fn read_at(&mut self, at: u64, buf: &mut [u8]) -> Result<(), DiskFault>
        requires inside { IsInside (told self.old).open_length at (length buf.old) }
        ensures read { OnOk result (IsRead (open_bytes (told self.old)) at buf.new) }
        ensures kept { FilesKept (told self.old) (told self.new) }
        ensures cause { OnErr result (Rose (told self.old).faults (told self.new).faults) }
        ensures same { Self.lent self.new ≡ Self.lent self.old };

    /// Writes the bytes over those of the open file from the place `at` on. An `Err` may leave any
    /// bytes in that range; they are told among what failed writes left.
    fn write_at(&mut self, at: u64, bytes: &[u8]) -> Result<(), DiskFault>
        requires inside { IsInside (told self.old).open_length at (length bytes.now) }
        ensures writes { OnOk result (Writes (told self.old) (told self.new) at bytes.now) }
        ensures fails { OnErr result (FailsWrite (told self.old) (told self.new) at bytes.now) }
        ensures same { Self.lent self.new ≡ Self.lent self.old };

    /// Waits until what was written to the open file is kept.
    fn sync(&mut self) -> Result<(), DiskFault>
        requires open { IsSome (told self.old).open_length }
        ensures kept { FilesKept (told self.old) (told self.new) }
        ensures cause { OnErr result (Rose (told self.old).faults (told self.new).faults) }
        ensures same { Self.lent self.new ≡ Self.lent self.old };

    /// How the meanings hang together.
    ghost agrees: { (disk : Self) → Agrees (told disk).files (told disk).open_path (told disk).open_length };
}

impl<K: Disk> Disk for &mut K {
    ghost use Rattle.std.specs.Borrow.{GName};

    ghost Lent = { GName × K.Lent };

    ghost lent = { λ disk. (disk.ghost_name, K.lent disk.now) };

    ghost told = { λ disk. K.told disk.now };

    fn open(&mut self, path: &str) -> Result<Option<u64>, DiskFault> {
        (**self).open(path)
    }

    fn create(&mut self, alloc: Global, path: &str, size: u64) -> Result<(), CreateError> {
        (**self).create(alloc, path, size)
    }

    fn read_at(&mut self, at: u64, buf: &mut [u8]) -> Result<(), DiskFault> {
        (**self).read_at(at, buf)
    }

    fn write_at(&mut self, at: u64, bytes: &[u8]) -> Result<(), DiskFault> {
        (**self).write_at(at, bytes)
    }

    fn sync(&mut self) -> Result<(), DiskFault> {
        (**self).sync()
    }

    ghost agrees = { λ disk. K.agrees disk.now };
}
