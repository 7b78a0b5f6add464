ghost use Rattle.std.specs.Prelude.{◌≡◌, ℕ, ◌+◌, ◌≤◌, ◌<◌, List, length, take, Option, Some, None, Bool, IsTrue, OnOk, IfOk};
ghost use Rattle.std.specs.Result.{IsErrOf};
ghost use Rattle.fb_frame.specs.Causes.{Rose, HasCause};
ghost use Rattle.flash_plan.specs.Files.{HasSize, IsFile, IsAbsent, IsLonger, IsFileName};

use crate::dir::{DirFault, ProductDir};
use fb_frame::items::Items;
use std::alloc::Global;
use thiserror::Error;

/// Why a file isn't read whole.
#[derive(Debug, Drop, Error)]
pub enum ReadError {
    #[error("there is no file of this name")]
    Absent,
    #[error("the file is too long")]
    TooLong,
    #[error("the folder can't be read")]
    Dir,
    #[error("out of memory")]
    Memory,
}

/// The most bytes that are asked for at once.
const MOST_READ: usize = 65_536;

/// Fills the buffer with the whole of a file, which has as many bytes.
#[tactic(auto, using(crate::proofs::ReadLemmas::reads_all))]
pub fn read_all<D: ProductDir>(dir: &mut D, name: &[u8], buf: &mut [u8]) -> Result<(), DirFault>
    requires entered { IsTrue (D.entered dir.old) }
    requires name { IsFileName name.now }
    requires size { HasSize (D.files dir.old) name.now (Some (length buf.old)) }
    ensures file { OnOk result (IsFile (D.files dir.old) name.now (Some buf.new)) }
    ensures entered { D.entered dir.new ≡ D.entered dir.old }
    ensures path { D.told_path dir.new ≡ D.told_path dir.old }
    ensures files { D.files dir.new ≡ D.files dir.old }
    ensures same { D.lent dir.new ≡ D.lent dir.old }
    ensures cause { HasCause (D.faults dir.old) (D.faults dir.new) result }
{
    let mut at = 0;
    while at < buf.len() {
        let most = (buf.len() - at).min(MOST_READ);
        at += dir.read_at(name, at as u64, &mut buf[at..at + most])?;
    }
    Ok(())
}

/// Reads a whole file of at most so many bytes.
pub fn read_file<D: ProductDir>(
    alloc: Global,
    dir: &mut D,
    name: &[u8],
    most: usize,
) -> Result<Items<u8>, ReadError>
    requires entered { IsTrue (D.entered dir.old) }
    requires name { IsFileName name.now }
    ensures file { IfOk result (λ file. IsFile (D.files dir.old) name.now (Some file)) }
    ensures short { IfOk result (λ file. length file ≤ most) }
    ensures absent { IsErrOf result ReadError.Absent → IsAbsent (D.files dir.old) name.now }
    ensures long { IsErrOf result ReadError.TooLong → IsLonger (D.files dir.old) name.now most }
    ensures dir { IsErrOf result ReadError.Dir → Rose (D.faults dir.old) (D.faults dir.new) }
    ensures entered { D.entered dir.new ≡ D.entered dir.old }
    ensures path { D.told_path dir.new ≡ D.told_path dir.old }
    ensures files { D.files dir.new ≡ D.files dir.old }
    ensures same { D.lent dir.new ≡ D.lent dir.old }
    ensures later { D.faults dir.old ≤ D.faults dir.new }
{
    let size = match dir.size(name) {
        Ok(Some(size)) => size,
        Ok(None) => return Err(ReadError::Absent),
        Err(DirFault) => return Err(ReadError::Dir),
    };
    if size > most as u64 {
        return Err(ReadError::TooLong);
    }
    let mut bytes = Vec::new(alloc);
    if bytes.resize(size as usize, 0).is_err() {
        return Err(ReadError::Memory);
    }
    let Ok(()) = read_all(dir, name, bytes.as_mut_slice()) else {
        return Err(ReadError::Dir);
    };
    Ok(Items::from_vec(bytes))
}
