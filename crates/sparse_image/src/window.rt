ghost use Rattle.std.specs.Prelude.{◌≡◌, ◌+◌, ◌-◌, ◌<◌, ◌≤◌, min, take, length, OnOk, OnErr};
ghost use Rattle.fb_frame.specs.Causes.{HasCause};
ghost use Rattle.sparse_image.specs.Outside.{IsRead};
ghost use Rattle.sparse_image.specs.Windows.{IsRead-prop};

use crate::source::{Bytes, BytesFault};

/// How many bytes are read ahead.
pub const AHEAD: usize = 16_384;

/// A source of which short reads are answered from bytes that were read ahead.
#[derive(Drop)]
pub struct Window<'a, B: Bytes> {
    source: &'a mut B,
    room: &'a mut [u8],
    at: u64,
    have: usize,
    ghost some: { 0 < length room.now },
    ghost fits: { have ≤ length room.now },
    ghost within: { have ≤ B.size source.now - at },
    ghost read: { IsRead (B.content source.now) at room.now have } by { IsRead-prop (B.content source.now) at room.now have },
}

/// Copies as many bytes as both have, from the front of one to the front of the other.
pub fn copy_front(from: &[u8], buf: &mut [u8]) -> usize
    ensures count { result ≡ min (length from.now) (length buf.old) }
    ensures front { take result buf.new ≡ take result from.now }
    ensures length { length buf.new ≡ length buf.old }
{
    let n = from.len().min(buf.len());
    buf[..n].copy_from_slice(&from[..n]);
    n
}

#[tactic(auto, using(crate::proofs::WindowLemmas::nears))]
impl<'a, B: Bytes> Window<'a, B> {
    /// A window over a source, which reads ahead into this room.
    pub fn new(source: &'a mut B, room: &'a mut [u8]) -> Window<'a, B>
        requires some { 0 < length room.old }
        ensures same_reference { result.source.ghost_name ≡ source.entry.ghost_name }
        ensures source { result.source.now ≡ source.old }
    {
        Window {
            source,
            room,
            at: 0,
            have: 0,
        }
    }

    /// Moves the window to a place, unless the byte there was read already.
    fn reach(&mut self, at: u64) -> Result<(), BytesFault>
        ensures before { OnOk result (self.new.at ≤ at) }
        ensures there { OnOk result (at - self.new.at ≤ self.new.have) }
        ensures some { at < B.size self.old.source.now → OnOk result (at - self.new.at < self.new.have) }
        ensures end { B.size self.old.source.now ≤ at → OnErr result ⊥ }
        ensures content { B.content self.new.source.now ≡ B.content self.old.source.now }
        ensures same { B.lent self.new.source.now ≡ B.lent self.old.source.now }
        ensures same_reference { self.new.source.ghost_name ≡ self.old.source.ghost_name }
        ensures size { B.size self.new.source.now ≡ B.size self.old.source.now }
        ensures cause { HasCause (B.faults self.old.source.now) (B.faults self.new.source.now) result }
    {
        if at >= self.at && at - self.at < self.have as u64 {
            return Ok(());
        }
        self.have = 0;
        self.at = at;
        self.have = self.source.read_at(at, self.room)?;
        Ok(())
    }

    /// Copies what the window has from a place on, and answers how many bytes.
    fn copy(&self, at: u64, buf: &mut [u8]) -> usize
        requires before { self.now.at ≤ at }
        requires there { at - self.now.at ≤ self.now.have }
        ensures count { result ≡ min (self.now.have - (at - self.now.at)) (length buf.old) }
        ensures read { IsRead (B.content self.now.source.now) at buf.new result }
        ensures length { length buf.new ≡ length buf.old }
    {
        let skip = (at - self.at) as usize;
        copy_front(&self.room[..self.have][skip..], buf)
    }
}

impl<B: Bytes> Bytes for Window<'_, B> {
    ghost use Rattle.std.specs.Borrow.{GName};

    ghost content = { λ w. B.content w.source.now };

    ghost size = { λ w. B.size w.source.now };

    ghost faults = { λ w. B.faults w.source.now };

    ghost Lent = { GName × B.Lent };

    ghost lent = { λ w. (w.source.ghost_name, B.lent w.source.now) };

    fn len(&self) -> u64 {
        self.source.len()
    }

    fn read_at(&mut self, at: u64, buf: &mut [u8]) -> Result<usize, BytesFault> {
        if buf.len() >= self.room.len() {
            return self.source.read_at(at, buf);
        }
        self.reach(at)?;
        Ok(self.copy(at, buf))
    }
}
