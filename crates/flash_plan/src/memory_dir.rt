ghost use Rattle.std.specs.Prelude.{◌≡◌, ◌+◌, ◌-◌, ◌<◌, ◌≤◌, min, [], length, take, drop, Some, None, false};
ghost use Rattle.std.specs.Prelude.{IfOk, is_err, MatchOption, string_bytes};
ghost use Rattle.fb_frame.specs.Causes.{Rose, HasCause};
ghost use Rattle.flash_plan.specs.Files.{IsThere, HasSize, MayRead, IsRead};
ghost use Rattle.fb_frame.specs.Failing.{fails_next};
ghost use Rattle.flash_plan.specs.MemoryFiles.{file_of, after_call, after_enter, after_read};

use crate::dir::{DirFault, EnterError, ProductDir};
use fb_frame::failures::Failures;
use fb_frame::memory::Memory;
use std::alloc::Global;
use std::marker::Model;

/// A file of a folder in memory.
#[derive(Debug, Drop)]
pub struct DirFile {
    pub name: String,
    pub bytes: Vec<u8>,
}

/// A folder in memory, which tells its path and its files. Of two files of one name it shows the first.
#[derive(Debug, Drop)]
pub struct MemoryDir {
    path: String,
    files: Vec<DirFile>,
    failures: Failures,
    entered: bool,
    longest: u32,
}

impl Model for MemoryDir {
    ghost use Rattle.std.specs.Prelude.{string_bytes};
    ghost use Rattle.flash_plan.specs.MemoryFiles.{MemoryFolder};

    ghost Value = { MemoryFolder };

    ghost view = { λ dir. record {
      path = string_bytes dir.path;
      files = dir.files.items;
      failing = dir.failures;
      entered = dir.entered;
      longest = dir.longest;
    } };
}

impl MemoryDir {
    /// A folder of this path with these files. `fails` are the numbers, from 1, of the calls of
    /// `ProductDir` that fail.
    pub fn new(
        alloc: Global,
        path: &str,
        files: Vec<DirFile>,
        fails: Vec<u64>,
    ) -> Result<MemoryDir, Memory>
        ensures { IfOk result (λ dir.
            dir ≡ record {
              path = path.now;
              files = files.items;
              failing = record { fails = fails.items; room = None; calls = 0; faults = 0 };
              entered = false;
              longest = 0;
            }) }
    {
        let path = path.to_string(alloc).map_err(|_| Memory)?;
        Ok(MemoryDir {
            path,
            files,
            failures: Failures::new(fails),
            entered: false,
            longest: 0,
        })
    }

    /// The most bytes that a read asked for at once.
    pub fn longest(&self) -> u32
        ensures { result ≡ self.now.longest }
    {
        self.longest
    }

    /// Counts a call of the trait, which may be one that fails.
    fn count(&mut self) -> Result<(), DirFault>
        ensures after { self.new ≡ after_call self.old }
        ensures fails { is_err result ≡ fails_next self.old.failing 0 }
        ensures cause { HasCause self.old.failing.faults self.new.failing.faults result }
    {
        match self.failures.pass(0) {
            Ok(()) => Ok(()),
            Err(_) => Err(DirFault),
        }
    }
}

/// The bytes of the first file of this name.
fn file_at<'a>(files: &'a [DirFile], name: &[u8]) -> Option<&'a [u8]>
    ensures { MatchOption result (file_of files.now name.now ≡ None) (λ bytes.
        file_of files.now name.now ≡ Some bytes.now) }
{
    for file in files {
        if file.name.as_bytes() == name {
            return Some(file.bytes.as_slice());
        }
    }
    None
}

/// Copies what is there from this place on into the front of the buffer.
fn copy_part(bytes: &[u8], at: usize, buf: &mut [u8]) -> usize
    requires { at ≤ length bytes.now }
    ensures count { result ≡ min (length bytes.now - at) (length buf.new) }
    ensures part { take result buf.new ≡ take result (drop at bytes.now) }
{
    let n = buf.len().min(bytes.len() - at);
    buf[..n].copy_from_slice(&bytes[at..at + n]);
    n
}

impl ProductDir for MemoryDir {
    ghost use Rattle.std.specs.Prelude.{Some};
    ghost use Rattle.flash_plan.specs.MemoryFiles.{file_of};

    ghost told_path = { λ dir. Some dir.path };

    ghost files = { λ dir. Some (file_of dir.files) };

    ghost entered = { λ dir. dir.entered };

    ghost faults = { λ dir. dir.failing.faults };

    ghost lent = { λ dir. tt };

    fn enter(&mut self, _alloc: Global, path: &str) -> Result<bool, EnterError>
        ensures entered { IfOk result (λ there. self.new.entered ≡ there) }
        ensures there { IfOk result (λ there. IsThere (Some self.old.path) path.now there) }
        ensures fails { is_err result ≡ fails_next self.old.failing 0 }
        ensures after { self.new ≡ after_enter self.old path.now }
        ensures cause { HasCause self.old.failing.faults self.new.failing.faults result }
    {
        self.entered = false;
        let Ok(()) = self.count() else {
            return Err(EnterError::Dir);
        };
        self.entered = self.path.as_bytes() == path.as_bytes();
        Ok(self.entered)
    }

    fn size(&mut self, name: &[u8]) -> Result<Option<u64>, DirFault>
        ensures size { IfOk result (λ size. HasSize (Some (file_of self.old.files)) name.now size) }
        ensures fails { is_err result ≡ fails_next self.old.failing 0 }
        ensures after { self.new ≡ after_call self.old }
        ensures cause { HasCause self.old.failing.faults self.new.failing.faults result }
    {
        self.count()?;
        match file_at(self.files.as_slice(), name) {
            Some(bytes) => Ok(Some(bytes.len() as u64)),
            None => Ok(None),
        }
    }

    fn read_at(&mut self, name: &[u8], at: u64, buf: &mut [u8]) -> Result<usize, DirFault>
        requires { MayRead (Some (file_of self.old.files)) name.now at }
        ensures within { IfOk result (λ n. n ≤ length buf.new) }
        ensures some { IfOk result (λ n. 0 < length buf.new → 0 < n) }
        ensures read { IfOk result (λ n.
            IsRead (Some (file_of self.old.files)) name.now at (take n buf.new)) }
        ensures fails { is_err result ≡ fails_next self.old.failing 0 }
        ensures after { self.new ≡ after_read self.old (length buf.old) }
        ensures cause { HasCause self.old.failing.faults self.new.failing.faults result }
    {
        let asked = buf.len().min(u32::MAX as usize) as u32;
        self.longest = self.longest.max(asked);
        self.count()?;
        let bytes = file_at(self.files.as_slice(), name).unwrap();
        let n = copy_part(bytes, at as usize, buf);
        Ok(n)
    }
}
