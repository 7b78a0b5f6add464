ghost use Rattle.std.specs.Prelude.{◌≡◌};
ghost use Rattle.fb_frame.specs.Bytes.{zeros};
ghost use Rattle.super_meta.specs.Sealed.{digest_around};

use sha2::{Digest, Sha256};

/// The SHA-256 digest of a structure in whose midst the digest itself stands, as zeros (FIPS 180-4).
#[tactic(auto, unfolding(crate::specs::Sealed::digest_around, fb_frame::specs::Bytes::zeros))]
pub fn digest_around(front: &[u8], back: &[u8]) -> [u8; 32]
    ensures { result ≡ digest_around front.now back.now }
{
    let mut hasher = Sha256::new();
    hasher.update(front);
    hasher.update(&[0; 32]);
    hasher.update(back);
    hasher.finalize()
}
