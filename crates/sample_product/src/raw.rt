//! Raw images: a zero, and drawn bytes after it.
ghost use Rattle.std.specs.Prelude.{◌≡◌, ◌≤◌, IfOk, OnOk};
ghost use Rattle.sample_product.specs.Images.{IsLength, size_of, after_size, raw_image, after_raw};

use crate::draws::Draws;
use std::alloc::{AllocError, Global};

/// How long a raw image is.
#[derive(Clone, Copy, Debug)]
pub enum Length {
    /// This many bytes.
    Bytes(u32),
    /// As many blocks of 4,096 bytes as a draw says, from 1 up to a number.
    Blocks(u32),
}

impl Length {
    /// How many bytes these are, by a draw where one decides.
    fn size(&self, draws: &mut Draws) -> u32
        requires { IsLength self.now }
        ensures size { result ≡ size_of self.now draws.old.state }
        ensures some { 1 ≤ result }
        ensures after { draws.new.state ≡ after_size self.now draws.old.state }
    {
        match self {
            Length::Bytes(size) => *size,
            Length::Blocks(most) => 4096 * draws.count(*most),
        }
    }
}

/// A raw image. It begins with 0, so that it is no sparse one.
pub fn raw_image(alloc: Global, draws: &mut Draws, length: Length) -> Result<Vec<u8>, AllocError>
    requires { IsLength length }
    ensures image { IfOk result (λ bytes. bytes.items ≡ raw_image length draws.old.state) }
    ensures after { OnOk result (draws.new.state ≡ after_raw length draws.old.state) }
{
    let size = length.size(draws);
    let mut bytes = Vec::with_capacity(alloc, size as usize)?;
    bytes.push(0)?;
    draws.put_bytes(size - 1, &mut bytes)?;
    Ok(bytes)
}
