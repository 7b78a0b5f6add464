ghost use Rattle.std.specs.Prelude.{◌≡◌, ◌+◌, ◌^◌, ◌<◌, ◌≤◌, length, replicate, OnOk, IfSome};
ghost use Rattle.fb_frame.specs.Causes.{HasCause};
ghost use Rattle.sparse_image.specs.Outside.{IsRead};
ghost use Rattle.sparse_image.specs.Puts.{padded_part};

use crate::source::{Bytes, BytesFault};

/// Fills the buffer with the bytes of a source from a place on.
#[tactic(auto, using(crate::proofs::ReadLemmas::reads))]
pub fn read_exact<B: Bytes>(source: &mut B, at: u64, buf: &mut [u8]) -> Result<(), BytesFault>
    requires within { at + length buf.old ≤ B.size source.old }
    requires fits { at + length buf.old < 2 ^ 64 }
    ensures read { OnOk result (IsRead (B.content source.old) at buf.new (length buf.new)) }
    ensures content { B.content source.new ≡ B.content source.old }
    ensures same { B.lent source.new ≡ B.lent source.old }
    ensures size { B.size source.new ≡ B.size source.old }
    ensures cause { HasCause (B.faults source.old) (B.faults source.new) result }
{
    let mut have = 0;
    while have < buf.len() {
        have += source.read_at(at + have as u64, &mut buf[have..])?;
    }
    Ok(())
}

/// Fills the buffer with zeros.
fn clear(buf: &mut [u8])
    ensures { buf.new ≡ replicate (length buf.old) 0 }
{
    buf.fill(0);
}

/// Fills the buffer with the bytes of a source from a place on, and zeros behind their end.
#[tactic(auto, using(crate::proofs::PaddedLemmas::paddings))]
pub fn read_padded<B: Bytes>(source: &mut B, at: u64, buf: &mut [u8]) -> Result<(), BytesFault>
    ensures read { OnOk result (IfSome (B.content source.old) (λ file. buf.new ≡ padded_part at
        (length buf.old) file)) }
    ensures content { B.content source.new ≡ B.content source.old }
    ensures same { B.lent source.new ≡ B.lent source.old }
    ensures size { B.size source.new ≡ B.size source.old }
    ensures cause { HasCause (B.faults source.old) (B.faults source.new) result }
{
    let len = source.len();
    let place = at.min(len);
    let have = (len - place).min(buf.len() as u64) as usize;
    read_exact(source, place, &mut buf[..have])?;
    clear(&mut buf[have..]);
    Ok(())
}
