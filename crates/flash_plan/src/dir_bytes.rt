ghost use Rattle.std.specs.Prelude.{◌≡◌, Some, IsTrue};
ghost use Rattle.flash_plan.specs.Files.{HasSize, HasSize-prop, IsFileName};

use crate::dir::ProductDir;
use fb_frame::word::Word;
use sparse_image::source::{Bytes, BytesFault};

/// A file of a folder that was entered, as a source of bytes.
#[derive(Drop)]
pub struct DirBytes<'a, D: ProductDir> {
    dir: &'a mut D,
    name: &'a Word,
    len: u64,
    ghost entered: { IsTrue (D.entered dir.now) },
    ghost sized: { HasSize (D.files dir.now) name.now (Some len) } by { HasSize-prop (D.files dir.now) name.now (Some len) },
    ghost named: { IsFileName name.now },
}

impl<'a, D: ProductDir> DirBytes<'a, D> {
    /// The file of this name, of `len` bytes.
    pub fn new(dir: &'a mut D, name: &'a Word, len: u64) -> DirBytes<'a, D>
        requires entered { IsTrue (D.entered dir.old) }
        requires name { IsFileName name.now }
        requires size { HasSize (D.files dir.old) name.now (Some len) }
        ensures same_reference { result.dir.ghost_name ≡ dir.entry.ghost_name }
        ensures dir { result.dir.now ≡ dir.old }
        ensures name { result.name.now ≡ name.now }
        ensures len { result.len ≡ len }
    {
        DirBytes { dir, name, len }
    }
}

#[tactic(auto, using(crate::proofs::DirBytesLemmas::sources))]
impl<D: ProductDir> Bytes for DirBytes<'_, D> {
    ghost use Rattle.std.specs.Prelude.{ℕ, Bool, List, Option};
    ghost use Rattle.std.specs.Borrow.{GName};
    ghost use Rattle.flash_plan.specs.Files.{Files, file_in};

    ghost content = { λ s. file_in (D.files s.dir.now) s.name.now };

    ghost size = { λ s. s.len };

    ghost faults = { λ s. D.faults s.dir.now };

    ghost Lent = { GName × Bool × Option (List ℕ) × Option Files × D.Lent };

    ghost lent = { λ s. (
      s.dir.ghost_name,
      D.entered s.dir.now,
      D.told_path s.dir.now,
      D.files s.dir.now,
      D.lent s.dir.now,
    ) };

    fn len(&self) -> u64 {
        self.len
    }

    fn read_at(&mut self, at: u64, buf: &mut [u8]) -> Result<usize, BytesFault> {
        if at >= self.len {
            return Ok(0);
        }
        let most = (self.len - at).min(buf.len() as u64) as usize;
        match self.dir.read_at(self.name.bytes(), at, &mut buf[..most]) {
            Ok(n) => Ok(n),
            Err(_) => Err(BytesFault),
        }
    }
}
