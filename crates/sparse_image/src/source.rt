ghost use Rattle.std.specs.Prelude.{◌≡◌, ℕ, List, ◌-◌, ◌<◌, ◌≤◌, length, Option, Some, Ok, IfOk};
ghost use Rattle.fb_frame.specs.Causes.{HasCause};
ghost use Rattle.sparse_image.specs.Outside.{HasLength, IsRead};

use std::marker::Model;

/// A source couldn't be read.
#[derive(Debug, Drop)]
pub struct BytesFault;

/// A list of bytes that is read by places, and that no call changes.
pub trait Bytes {
    /// The whole list, where the source tells it.
    ghost content: { Self → Option (List ℕ) };

    /// How many bytes there are.
    ghost size: { Self → ℕ };

    /// The count of faults.
    ghost faults: { Self → ℕ };

    /// What no call changes, as which value a source borrows.
    ghost Lent: { Type 0 } = { Unit {0} };

    ghost lent: { Self → Self.Lent };

    /// How many bytes there are.
    fn len(&self) -> u64
        ensures size { result ≡ size self.now }
        ensures told { HasLength (content self.now) (size self.now) };

    /// Reads bytes from the place `at` on into the front of the buffer, and answers how many: at
    /// least one, unless the buffer is empty or the list ends before the place.
    fn read_at(&mut self, at: u64, buf: &mut [u8]) -> Result<usize, BytesFault>
        ensures fits { IfOk result (λ n. n ≤ length buf.new) }
        ensures within { IfOk result (λ n. n ≤ size self.old - at) }
        ensures end { size self.old ≤ at → result ≡ Ok 0 }
        ensures some { at < size self.old → 0 < length buf.old → IfOk result (λ n. 0 < n) }
        ensures read { IfOk result (λ n. IsRead (content self.old) at buf.new n) }
        ensures content { content self.new ≡ content self.old }
        ensures size { size self.new ≡ size self.old }
        ensures same { Self.lent self.new ≡ Self.lent self.old }
        ensures cause { HasCause (faults self.old) (faults self.new) result };
}

/// A source over bytes in memory. It tells its list and never fails.
#[derive(Debug, Drop)]
pub struct MemoryBytes<'a> {
    bytes: &'a [u8],
}

impl<'a> Model for MemoryBytes<'a> {
    ghost use Rattle.std.specs.Prelude.{ℕ, List};

    ghost Value = { List ℕ };

    ghost view = { λ source. source.bytes.now };
}

impl<'a> MemoryBytes<'a> {
    /// The source of these bytes.
    pub fn new(bytes: &'a [u8]) -> MemoryBytes<'a>
        ensures { result ≡ bytes.now }
    {
        MemoryBytes { bytes }
    }
}

impl Bytes for MemoryBytes<'_> {
    ghost content = { λ source. Some source };

    ghost size = { λ source. length source };

    ghost faults = { λ source. 0 };

    ghost lent = { λ source. tt };

    fn len(&self) -> u64 {
        self.bytes.len() as u64
    }

    fn read_at(&mut self, at: u64, buf: &mut [u8]) -> Result<usize, BytesFault> {
        let bytes = self.bytes;
        let len = bytes.len() as u64;
        if at >= len {
            return Ok(0);
        }
        let left = &bytes[at as usize..];
        let n = left.len().min(buf.len());
        buf[..n].copy_from_slice(&left[..n]);
        Ok(n)
    }
}
