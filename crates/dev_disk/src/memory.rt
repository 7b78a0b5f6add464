ghost use Rattle.std.specs.Prelude.{◌≡◌, ◌↔◌, ◌≤◌, ℕ, List, length, is_err, OnOk, OnErr, IfOk, IsSome, IsTrue};
ghost use Rattle.std.specs.Prelude.{Option, Some, None, option_map};
ghost use Rattle.std.specs.Option.{ForSome};
ghost use Rattle.std.specs.Result.{IsErrOf};
ghost use Rattle.fb_frame.specs.Causes.{HasCause, Rose};
ghost use Rattle.dev_disk.specs.Calls.{OpensLength, OpensPath};
ghost use Rattle.fb_frame.specs.Bytes.{zeros};
ghost use Rattle.dev_disk.specs.Files.{content, HasOthers, IsInside, IsRead, Wrote, KeepsUnopened};
ghost use Rattle.dev_disk.specs.MemoryFiles.{IsFirst};

use crate::disk::{CreateError, Disk, DiskFault};
use crate::memory_files::{MemoryFile, bytes_at, find_place, overwrite_at, put};
use fb_frame::failures::Failures;
use fb_frame::memory::Memory;
use std::alloc::{AllocError, Global};

/// Files in memory. It tells all of them, and fails at the calls whose numbers it was made with; such
/// a call changes nothing.
#[derive(Drop)]
pub struct MemoryDisk {
    files: Vec<MemoryFile>,
    opened: Option<usize>,
    failures: Failures,
    ghost opened_is_there: { ForSome opened (IsFirst files.items) },
}

/// Zeros of this length.
#[tactic(auto, unfolding(fb_frame::specs::Bytes::zeros))]
fn make_zeros(alloc: Global, size: usize) -> Result<Vec<u8>, AllocError>
    ensures zeros { IfOk result (λ bytes. bytes.items ≡ zeros size) }
    ensures length { IfOk result (λ bytes. length bytes.items ≡ size) }
{
    let mut bytes = Vec::new(alloc);
    bytes.resize(size, 0)?;
    Ok(bytes)
}

impl MemoryDisk {
    ghost use Rattle.dev_disk.specs.Memory.{memory_files, memory_path, memory_length, memory_failing};

    /// A disk without files. `fails` has the numbers, from 1, of the calls that fail.
    pub fn new(alloc: Global, fails: Vec<u64>) -> Result<MemoryDisk, Memory>
        ensures empty { IfOk result (λ disk. (path : List ℕ) → memory_files disk path ≡ None) }
        ensures shut { IfOk result (λ disk. memory_path disk ≡ None) }
        ensures counts { IfOk result (λ disk. memory_failing disk ≡
            record { fails = fails.items; room = None; calls = 0; faults = 0 }) }
    {
        Ok(MemoryDisk {
            files: Vec::new(alloc),
            opened: None,
            failures: Failures::new(fails),
        })
    }

    /// Adds a file, in place of any one of its path.
    pub fn add(&mut self, alloc: Global, path: &str, bytes: &[u8]) -> Result<(), Memory>
        ensures added { OnOk result (memory_files self.new path.now ≡ Some bytes.now) }
        ensures others { HasOthers path.now (memory_files self.old) (memory_files self.new) }
        ensures same { OnErr result (memory_files self.new ≡ memory_files self.old) }
        ensures path { memory_path self.new ≡ memory_path self.old }
        ensures counts { memory_failing self.new ≡ memory_failing self.old }
    {
        let path = Vec::from_slice(alloc, path.as_bytes()).map_err(|_| Memory)?;
        let bytes = Vec::from_slice(alloc, bytes).map_err(|_| Memory)?;
        put(&mut self.files, path, bytes).map_err(|_| Memory)?;
        Ok(())
    }

    /// The bytes of the file of the path.
    pub fn file(&self, path: &str) -> Option<&[u8]>
        ensures { option_map (λ bytes. bytes.now) result ≡ memory_files self.now path.now }
    {
        match find_place(&self.files, path.as_bytes()) {
            Some(place) => Some(bytes_at(&self.files, place)),
            None => None,
        }
    }
}

impl Disk for MemoryDisk {
    ghost use Rattle.dev_disk.specs.Memory.{memory_files, memory_path, memory_bytes, memory_length};
    ghost use Rattle.dev_disk.specs.Memory.{memory_told, memory_faults, must_fail, Counts, KeepsFiles};
    ghost use Rattle.dev_disk.specs.MemoryLaws.{agree};

    ghost lent = { λ _. tt };

    ghost told = { memory_told };

    fn open(&mut self, path: &str) -> Result<Option<u64>, DiskFault>
        ensures fails { is_err result ≡ must_fail self.old 0 }
        ensures counts { Counts self.old self.new 0 }
        ensures kept { OnErr result (KeepsFiles self.old self.new) }
        ensures found { IfOk result (λ size. size ≡ option_map length (memory_files self.old path.now)) }
        ensures length { IfOk result (λ size.
            OpensLength (memory_length self.old) (memory_length self.new) size) }
        ensures path { IfOk result (λ size. OpensPath (Some (memory_files self.old))
            (memory_path self.old) (memory_path self.new) path.now size) }
        ensures files { memory_files self.new ≡ memory_files self.old }
        ensures cause { HasCause (memory_faults self.old) (memory_faults self.new) result }
    {
        self.failures.pass(0)?;
        let Some(place) = find_place(&self.files, path.as_bytes()) else {
            return Ok(None);
        };
        let size = bytes_at(&self.files, place).len() as u64;
        self.opened = Some(place);
        Ok(Some(size))
    }

    fn create(&mut self, alloc: Global, path: &str, size: u64) -> Result<(), CreateError>
        ensures fails { IsErrOf result CreateError.Disk ↔ IsTrue (must_fail self.old 0) }
        ensures counts { Counts self.old self.new 0 }
        ensures kept { OnErr result (KeepsFiles self.old self.new) }
        ensures zeros { OnOk result (memory_files self.new path.now ≡ Some (zeros size)) }
        ensures length { OnOk result (memory_length self.new ≡ Some size) }
        ensures path { OnOk result (memory_path self.new ≡ Some path.now) }
        ensures others { HasOthers path.now (memory_files self.old) (memory_files self.new) }
        ensures disk { IsErrOf result CreateError.Disk →
            Rose (memory_faults self.old) (memory_faults self.new) }
        ensures later { memory_faults self.old ≤ memory_faults self.new }
    {
        let Ok(()) = self.failures.pass(0) else {
            return Err(CreateError::Disk);
        };
        let path = Vec::from_slice(alloc, path.as_bytes()).map_err(|_| CreateError::Memory)?;
        let bytes = make_zeros(alloc, size as usize).map_err(|_| CreateError::Memory)?;
        let place = put(&mut self.files, path, bytes).map_err(|_| CreateError::Memory)?;
        self.opened = Some(place);
        Ok(())
    }

    fn read_at(&mut self, at: u64, buf: &mut [u8]) -> Result<(), DiskFault>
        requires inside { IsInside (memory_length self.old) at (length buf.old) }
        ensures fails { is_err result ≡ must_fail self.old 0 }
        ensures counts { Counts self.old self.new 0 }
        ensures kept { KeepsFiles self.old self.new }
        ensures read { OnOk result (IsRead (memory_bytes self.old) at buf.new) }
        ensures cause { HasCause (memory_faults self.old) (memory_faults self.new) result }
    {
        self.failures.pass(0)?;
        let Some(place) = self.opened else {
            unreachable!()
        };
        let bytes = bytes_at(&self.files, place);
        let start = at as usize;
        buf.copy_from_slice(&bytes[start..start + buf.len()]);
        Ok(())
    }

    fn write_at(&mut self, at: u64, bytes: &[u8]) -> Result<(), DiskFault>
        requires inside { IsInside (memory_length self.old) at (length bytes.now) }
        ensures fails { is_err result ≡ must_fail self.old (length bytes.now) }
        ensures counts { Counts self.old self.new (length bytes.now) }
        ensures kept { OnErr result (KeepsFiles self.old self.new) }
        ensures wrote { OnOk result (Wrote (memory_bytes self.old) (memory_bytes self.new) at bytes.now) }
        ensures length { memory_length self.new ≡ memory_length self.old }
        ensures path { memory_path self.new ≡ memory_path self.old }
        ensures others { KeepsUnopened (Some (memory_files self.old)) (Some (memory_files self.new))
            (memory_path self.old) }
        ensures cause { HasCause (memory_faults self.old) (memory_faults self.new) result }
    {
        self.failures.pass(bytes.len() as u64)?;
        let Some(place) = self.opened else {
            unreachable!()
        };
        overwrite_at(&mut self.files, place, at as usize, bytes);
        Ok(())
    }

    fn sync(&mut self) -> Result<(), DiskFault>
        requires open { IsSome (memory_length self.old) }
        ensures fails { is_err result ≡ must_fail self.old 0 }
        ensures counts { Counts self.old self.new 0 }
        ensures kept { KeepsFiles self.old self.new }
        ensures cause { HasCause (memory_faults self.old) (memory_faults self.new) result }
    {
        self.failures.pass(0)?;
        Ok(())
    }

    ghost agrees = { λ disk. agree disk.files.items disk.opened disk.opened_is_there };
}

#[cfg(test)]
mod tests {
    use super::*;
    use std::test::Fail;

    #[test]
    fn keeps_files_by_their_paths(rt: HostRuntime) -> Result<(), Fail> {
        let mut disk = MemoryDisk::new(rt.alloc(), Vec::new(rt.alloc()))?;
        disk.add(rt.alloc(), "a", b"old")?;
        disk.add(rt.alloc(), "b", b"other")?;
        disk.add(rt.alloc(), "a", b"12345")?;
        assert_eq!(rt; disk.open("c")?, None);
        assert_eq!(rt; disk.open("a")?, Some(5));
        disk.write_at(1, b"xy")?;
        disk.sync()?;
        let mut three = [0; 3];
        disk.read_at(2, &mut three)?;
        assert_eq!(rt; three.as_slice(), b"y45".as_slice());
        disk.create(rt.alloc(), "c", 2)?;
        disk.write_at(1, b"z")?;
        assert!(rt; disk.file("a") == Some(b"1xy45".as_slice()));
        assert!(rt; disk.file("b") == Some(b"other".as_slice()));
        assert!(rt; disk.file("c") == Some(b"\0z".as_slice()));
        assert!(rt; disk.file("d").is_none());
        Ok(())
    }

    #[test]
    fn fails_at_the_given_calls(rt: HostRuntime) -> Result<(), Fail> {
        let mut disk = MemoryDisk::new(rt.alloc(), vec![in rt.alloc(); 2, 4]?)?;
        disk.add(rt.alloc(), "a", b"abc")?;
        assert_eq!(rt; disk.open("a")?, Some(3));
        assert!(rt; disk.write_at(0, b"x").is_err());
        disk.sync()?;
        let made = disk.create(rt.alloc(), "a", 9);
        assert!(rt; matches!(made, Err(CreateError::Disk)));
        disk.sync()?;
        assert!(rt; disk.file("a") == Some(b"abc".as_slice()));
        assert_eq!(rt; disk.failures.faults(), 2);
        Ok(())
    }
}
