ghost use Rattle.std.specs.Prelude.{◌≡◌, None, IfOk, refl};
ghost use Rattle.std.specs.Result.{result_ok};
ghost use Rattle.fb_frame.specs.Causes.{HasCause};
ghost use Rattle.dev_disk.specs.RealFiles.{file_length, file_faults};

use crate::disk::{CreateError, Disk, DiskFault};
use std::alloc::Global;
use std::fs::{File, OpenFile, OpenOptions};
use std::io;
use std::os::unix::fs::FileExt;
use std::rt::Files;

#[derive(Drop)]
struct OpenedFile {
    file: File,
    size: u64,
}

/// Real files. It tells nothing of what they hold, and a file that isn't there is a fault.
#[derive(Drop)]
pub struct FileDisk<R> {
    runtime: R,
    opened: Option<OpenedFile>,
    faults: u64,
}

/// Opens a file that is there, to read and write it.
fn open_file<R: Files<File = File>>(runtime: &R, path: &str) -> io::Result<OpenedFile> {
    let file = OpenOptions::new()
        .read(true)
        .write(true)
        .open(runtime, path)?;
    let size = file.metadata()?.len();
    Ok(OpenedFile { file, size })
}

/// Makes a file of zeros, in place of any one of the path.
fn create_file<R: Files<File = File>>(runtime: &R, path: &str, size: u64) -> io::Result<OpenedFile>
    ensures { IfOk result (λ opened. opened.size ≡ size) }
{
    let file = OpenOptions::new()
        .read(true)
        .write(true)
        .create(true)
        .truncate(true)
        .open(runtime, path)?;
    file.set_len(size)?;
    Ok(OpenedFile { file, size })
}

/// Raises the count of faults where there was an error.
fn count<T>(faults: &mut u64, outcome: io::Result<T>) -> Result<T, DiskFault>
    ensures value { result_ok result ≡ result_ok outcome }
    ensures cause { HasCause faults.old faults.new result }
{
    match outcome {
        Ok(value) => Ok(value),
        Err(_) => {
            *faults = faults.saturating_add(1);
            Err(DiskFault)
        }
    }
}

impl<R> FileDisk<R> {
    /// Real files by the runtime's calls, none of them open yet.
    pub fn new(runtime: R) -> FileDisk<R>
        ensures shut { file_length result ≡ None }
        ensures faults { file_faults result ≡ 0 }
    {
        FileDisk {
            runtime,
            opened: None,
            faults: 0,
        }
    }
}

#[tactic(auto, unfolding(crate::specs::Files::content))]
impl<R: Files<File = File>> Disk for FileDisk<R> {
    ghost use Rattle.dev_disk.specs.RealFiles.{file_told};

    ghost lent = { λ _. tt };

    ghost told = { file_told };

    fn open(&mut self, path: &str) -> Result<Option<u64>, DiskFault> {
        let opened = count(&mut self.faults, open_file(&self.runtime, path))?;
        let size = opened.size;
        self.opened = Some(opened);
        Ok(Some(size))
    }

    fn create(&mut self, _alloc: Global, path: &str, size: u64) -> Result<(), CreateError> {
        self.opened = None;
        let made = create_file(&self.runtime, path, size);
        let Ok(opened) = count(&mut self.faults, made) else {
            return Err(CreateError::Disk);
        };
        self.opened = Some(opened);
        Ok(())
    }

    fn read_at(&mut self, at: u64, buf: &mut [u8]) -> Result<(), DiskFault> {
        let Some(opened) = &self.opened else {
            unreachable!()
        };
        count(&mut self.faults, opened.file.read_exact_at(buf, at))
    }

    fn write_at(&mut self, at: u64, bytes: &[u8]) -> Result<(), DiskFault> {
        let Some(opened) = &self.opened else {
            unreachable!()
        };
        count(&mut self.faults, opened.file.write_all_at(bytes, at))
    }

    fn sync(&mut self) -> Result<(), DiskFault> {
        let Some(opened) = &self.opened else {
            unreachable!()
        };
        count(&mut self.faults, opened.file.sync_all())
    }

    ghost agrees = { λ _. refl };
}

#[cfg(test)]
mod tests {
    use super::*;
    use std::fs;
    use std::test::Fail;

    #[test]
    fn keeps_what_was_written(rt: HostRuntime) -> Result<(), Fail> {
        fs::create_dir_all(&rt, "kept")?;
        let mut disk = FileDisk::new(&rt);
        disk.create(rt.alloc(), "kept/image", 6)?;
        disk.write_at(2, b"abc")?;
        disk.sync()?;
        assert_eq!(rt;
            fs::read(&rt, "kept/image")?.as_slice(),
            b"\0\0abc\0".as_slice()
        );
        assert_eq!(rt; disk.open("kept/image")?, Some(6));
        let mut four = [9; 4];
        disk.read_at(1, &mut four)?;
        assert_eq!(rt; four.as_slice(), b"\0abc".as_slice());
        assert_eq!(rt; disk.faults, 0);
        fs::remove_dir_all(&rt, "kept")?;
        Ok(())
    }

    #[test]
    fn faults_where_there_is_no_file(rt: HostRuntime) -> Result<(), Fail> {
        fs::create_dir_all(&rt, "missing/folder")?;
        let mut disk = FileDisk::new(&rt);
        assert!(rt; disk.open("missing/image").is_err());
        assert!(rt; disk.open("missing/folder").is_err());
        assert!(rt; disk.create(rt.alloc(), "missing/folder", 1).is_err());
        assert_eq!(rt; disk.faults, 3);
        fs::remove_dir_all(&rt, "missing")?;
        Ok(())
    }

    #[test]
    fn faults_where_a_file_became_shorter(rt: HostRuntime) -> Result<(), Fail> {
        fs::create_dir_all(&rt, "shorter")?;
        let mut disk = FileDisk::new(&rt);
        disk.create(rt.alloc(), "shorter/image", 4)?;
        fs::write(&rt, "shorter/image", "ab")?;
        let mut four = [0; 4];
        assert!(rt; disk.read_at(0, &mut four).is_err());
        assert_eq!(rt; disk.faults, 1);
        fs::remove_dir_all(&rt, "shorter")?;
        Ok(())
    }
}
