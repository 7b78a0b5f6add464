ghost use Rattle.std.specs.Prelude.{◌≡◌, ℕ, ◌+◌, ◌≤◌, ◌++◌, length, take, drop};
ghost use Rattle.fb_frame.specs.Bytes.{zeros};
ghost use Rattle.super_meta.specs.Sealed.{sealed};

use crate::sealed::digest_around;

/// Writes bytes at a place, and answers the place after them.
#[tactic(auto, using(crate::proofs::PutLemmas::puts))]
pub fn put(buf: &mut [u8], at: usize, bytes: &[u8]) -> usize
    requires { at + length bytes.now ≤ length buf.old }
    ensures at { result ≡ at + length bytes.now }
    ensures front { take result buf.new ≡ take at buf.old ++ bytes.now }
    ensures rest { (n : ℕ) → result ≤ n → drop n buf.new ≡ drop n buf.old }
{
    let end = at + bytes.len();
    buf[at..end].copy_from_slice(bytes);
    end
}

/// Writes a front and a back with the digest of both between them, and answers the place after them.
pub fn put_sealed(buf: &mut [u8], at: usize, front: &[u8], back: &[u8]) -> usize
    requires { at + (length front.now + 32 + length back.now) ≤ length buf.old }
    ensures at { result ≡ at + (length front.now + 32 + length back.now) }
    ensures front { take result buf.new ≡ take at buf.old ++ sealed front.now back.now }
    ensures rest { (n : ℕ) → result ≤ n → drop n buf.new ≡ drop n buf.old }
{
    let at = put(buf, at, front);
    let at = put(buf, at, &digest_around(front, back));
    put(buf, at, back)
}

/// Fills a buffer with zeros.
#[tactic(auto, unfolding(fb_frame::specs::Bytes::zeros))]
pub fn clear(buf: &mut [u8])
    ensures { buf.new ≡ zeros (length buf.old) }
{
    buf.fill(0);
}

/// Writes `count` zeros at a place, and answers the place after them.
#[tactic(auto, using(crate::proofs::PutLemmas::puts), unfolding(fb_frame::specs::Bytes::zeros))]
pub fn put_zeros(buf: &mut [u8], at: usize, count: usize) -> usize
    requires { at + count ≤ length buf.old }
    ensures at { result ≡ at + count }
    ensures front { take result buf.new ≡ take at buf.old ++ zeros count }
    ensures rest { (n : ℕ) → result ≤ n → drop n buf.new ≡ drop n buf.old }
{
    let end = at + count;
    buf[at..end].fill(0);
    end
}
