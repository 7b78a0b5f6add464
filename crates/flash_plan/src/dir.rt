ghost use Rattle.std.specs.Prelude.{◌≡◌, ℕ, ◌<◌, ◌≤◌, List, length, take, Option, Bool, IsTrue, IsFalse, OnErr, IfOk};
ghost use Rattle.std.specs.List.{list_all};
ghost use Rattle.std.specs.Result.{IsErrOf};
ghost use Rattle.fb_frame.specs.Causes.{Rose, HasCause};
ghost use Rattle.flash_plan.specs.Files.{Files, IsThere, HasSize, MayRead, IsRead, IsFileName, is_shown, is_file_name};

use std::alloc::Global;
use thiserror::Error;

/// The most bytes of a file's name.
pub(crate) const MOST_NAME: usize = 64;

/// A printable byte of ASCII that is no blank.
fn is_shown(b: u8) -> bool
    ensures { result ≡ is_shown b }
{
    (0x21..=0x7e).contains(&b)
}

fn are_shown(name: &[u8]) -> bool
    ensures { result ≡ list_all is_shown name.now }
{
    name.iter().all(|b| is_shown(*b))
}

/// Whether these bytes are the name of a file of a folder: 1 to 64 printable bytes of ASCII, none a blank.
pub fn is_file_name(name: &[u8]) -> bool
    ensures { result ≡ is_file_name name.now }
{
    !name.is_empty() && name.len() <= MOST_NAME && are_shown(name)
}

/// The outside refused a call on a folder.
#[derive(Debug, Drop, Error)]
#[error("the folder can't be read")]
pub struct DirFault;

/// Why a folder isn't entered.
#[derive(Debug, Drop, Error)]
pub enum EnterError {
    #[error("the folder can't be read")]
    Dir,
    #[error("out of memory")]
    Memory,
}

/// The folder of a product, whose files are read by name.
pub trait ProductDir {
    /// The path of the folder, where it tells it. No call changes it.
    ghost told_path: { Self → Option (List ℕ) };

    /// The bytes of each file, where the folder tells them. No call changes them.
    ghost files: { Self → Option Files };

    /// Whether the last `enter` answered true.
    ghost entered: { Self → Bool };

    /// The count of faults.
    ghost faults: { Self → ℕ };

    /// What no call changes, as which folder a value borrows.
    ghost Lent: { Type 0 } = { Unit {0} };

    ghost lent: { Self → Self.Lent };

    /// Turns to the folder of this path, and answers whether it is there.
    fn enter(&mut self, alloc: Global, path: &str) -> Result<bool, EnterError>
        ensures entered { IfOk result (λ there. entered self.new ≡ there) }
        ensures astray { OnErr result (IsFalse (entered self.new)) }
        ensures there { IfOk result (λ there. IsThere (told_path self.old) path.now there) }
        ensures path { told_path self.new ≡ told_path self.old }
        ensures files { files self.new ≡ files self.old }
        ensures same { Self.lent self.new ≡ Self.lent self.old }
        ensures later { faults self.old ≤ faults self.new }
        ensures cause { IsErrOf result EnterError.Dir → Rose (faults self.old) (faults self.new) };

    /// The length of a file in bytes, None where there is no file of this name.
    fn size(&mut self, name: &[u8]) -> Result<Option<u64>, DirFault>
        requires entered { IsTrue (entered self.old) }
        requires name { IsFileName name.now }
        ensures size { IfOk result (λ size. HasSize (files self.old) name.now size) }
        ensures entered { entered self.new ≡ entered self.old }
        ensures path { told_path self.new ≡ told_path self.old }
        ensures files { files self.new ≡ files self.old }
        ensures same { Self.lent self.new ≡ Self.lent self.old }
        ensures cause { HasCause (faults self.old) (faults self.new) result };

    /// Reads bytes of a file from this place on into the front of the buffer, and answers how many.
    fn read_at(&mut self, name: &[u8], at: u64, buf: &mut [u8]) -> Result<usize, DirFault>
        requires entered { IsTrue (entered self.old) }
        requires name { IsFileName name.now }
        requires there { MayRead (files self.old) name.now at }
        ensures within { IfOk result (λ n. n ≤ length buf.new) }
        ensures some { IfOk result (λ n. 0 < length buf.new → 0 < n) }
        ensures read { IfOk result (λ n. IsRead (files self.old) name.now at (take n buf.new)) }
        ensures entered { entered self.new ≡ entered self.old }
        ensures path { told_path self.new ≡ told_path self.old }
        ensures files { files self.new ≡ files self.old }
        ensures same { Self.lent self.new ≡ Self.lent self.old }
        ensures cause { HasCause (faults self.old) (faults self.new) result };
}

impl<D: ProductDir> ProductDir for &mut D {
    ghost use Rattle.std.specs.Borrow.{GName};

    ghost told_path = { λ dir. D.told_path dir.now };

    ghost files = { λ dir. D.files dir.now };

    ghost entered = { λ dir. D.entered dir.now };

    ghost faults = { λ dir. D.faults dir.now };

    ghost Lent = { GName × D.Lent };

    ghost lent = { λ dir. (dir.ghost_name, D.lent dir.now) };

    fn enter(&mut self, alloc: Global, path: &str) -> Result<bool, EnterError> {
        (**self).enter(alloc, path)
    }

    fn size(&mut self, name: &[u8]) -> Result<Option<u64>, DirFault> {
        (**self).size(name)
    }

    fn read_at(&mut self, name: &[u8], at: u64, buf: &mut [u8]) -> Result<usize, DirFault> {
        (**self).read_at(name, at, buf)
    }
}
