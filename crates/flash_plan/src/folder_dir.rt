ghost use Rattle.std.specs.Prelude.{◌≡◌, ◌<◌, ◌≤◌, length, None, false, is_some, IfOk};

use crate::dir::{DirFault, EnterError, ProductDir};
use crate::folder_path::FolderPath;
use std::alloc::Global;
use std::fs;
use std::fs::File;
use std::io::{ErrorKind, Read, Seek, SeekFrom};
use std::rt::Files;

/// A folder of the system. It tells neither its path nor its files.
///
/// An absent folder, what is no file, and a read that gives nothing are faults.
#[derive(Drop)]
pub struct FolderDir<R> {
    system: R,
    folder: Option<FolderPath>,
    faults: u64,
}

impl<R: Files> FolderDir<R> {
    /// A folder of this file system, not entered yet.
    pub fn new(system: R) -> FolderDir<R>
        ensures entered { ⟦<FolderDir<R> as ProductDir>⟧.entered result ≡ false }
        ensures faults { ⟦<FolderDir<R> as ProductDir>⟧.faults result ≡ 0 }
    {
        FolderDir {
            system,
            folder: None,
            faults: 0,
        }
    }
}

impl<R: Files> ProductDir for FolderDir<R> {
    ghost use Rattle.std.specs.Prelude.{None, is_some};

    ghost told_path = { λ _. None };

    ghost files = { λ _. None };

    ghost entered = { λ dir. is_some dir.folder };

    ghost faults = { λ dir. dir.faults };

    ghost lent = { λ dir. tt };

    fn enter(&mut self, alloc: Global, path: &str) -> Result<bool, EnterError> {
        self.folder = None;
        let Ok(folder) = FolderPath::new(alloc, path) else {
            return Err(EnterError::Memory);
        };
        if !is_folder(&self.system, path) {
            self.faults = self.faults.saturating_add(1);
            return Err(EnterError::Dir);
        }
        self.folder = Some(folder);
        Ok(true)
    }

    fn size(&mut self, name: &[u8]) -> Result<Option<u64>, DirFault> {
        let folder = self.folder.as_mut().unwrap();
        let size = file_size(&self.system, folder, name);
        if size.is_err() {
            self.faults = self.faults.saturating_add(1);
        }
        size
    }

    fn read_at(&mut self, name: &[u8], at: u64, buf: &mut [u8]) -> Result<usize, DirFault> {
        let folder = self.folder.as_mut().unwrap();
        let count = read_part(&self.system, folder, name, at, buf);
        if count.is_err() {
            self.faults = self.faults.saturating_add(1);
        }
        count
    }
}

fn is_folder<R: Files>(system: &R, path: &str) -> bool {
    match fs::metadata(system, path) {
        Ok(about) => about.is_dir(),
        Err(_) => false,
    }
}

/// The length of a file, None where there is none of this name.
fn file_size<R: Files>(
    system: &R,
    folder: &mut FolderPath,
    name: &[u8],
) -> Result<Option<u64>, DirFault> {
    let Some(path) = folder.path_of(name) else {
        return Err(DirFault);
    };
    match fs::metadata(system, path) {
        Ok(about) if about.is_file() => Ok(Some(about.len())),
        Err(error) if error.kind() == ErrorKind::NotFound => Ok(None),
        _ => Err(DirFault),
    }
}

/// Reads bytes of a file from this place on, at least one into a buffer that isn't empty.
fn read_part<R: Files>(
    system: &R,
    folder: &mut FolderPath,
    name: &[u8],
    at: u64,
    buf: &mut [u8],
) -> Result<usize, DirFault>
    ensures within { IfOk result (λ n. n ≤ length buf.new) }
    ensures some { IfOk result (λ n. 0 < length buf.new → 0 < n) }
{
    let Some(path) = folder.path_of(name) else {
        return Err(DirFault);
    };
    let Ok(mut file) = File::open(system, path) else {
        return Err(DirFault);
    };
    let Ok(_) = file.seek(SeekFrom::Start(at)) else {
        return Err(DirFault);
    };
    match file.read(buf) {
        Ok(0) if !buf.is_empty() => Err(DirFault),
        Ok(count) => Ok(count),
        Err(_) => Err(DirFault),
    }
}
