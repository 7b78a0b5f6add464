//! Numbers and bytes drawn one after another by a linear congruential generator.
ghost use Rattle.std.specs.Prelude.{◌≡◌, ◌<◌, ◌^◌, ◌++◌, ◌%◌, OnOk};
ghost use Rattle.sample_product.specs.Draws.{next, draw, count, after};
ghost use Rattle.sample_product.specs.Draws as draws;

use std::alloc::AllocError;

const FACTOR: u64 = 6_364_136_223_846_793_005;

const SUMMAND: u64 = 1_442_695_040_888_963_407;

/// Where the draws stand: the number that they began with, or what the last one left.
#[derive(Debug, Drop)]
pub struct Draws {
    pub state: u64,
}

impl Draws {
    /// The draws that begin with a number.
    pub fn new(number: u32) -> Draws
        ensures { result.state ≡ number }
    {
        Draws {
            state: number as u64,
        }
    }

    /// Draws a number of 31 bits.
    #[tactic(auto, unfolding(crate::specs::Draws::next))]
    pub fn draw(&mut self) -> u32
        ensures drawn { result ≡ draw self.old.state }
        ensures small { result < 2 ^ 31 }
        ensures after { self.new.state ≡ next self.old.state }
    {
        self.state = self.state.wrapping_mul(FACTOR).wrapping_add(SUMMAND);
        (self.state / 0x2_0000_0000) as u32
    }

    /// Draws a number from 1 up to `most`.
    pub fn count(&mut self, most: u32) -> u32
        requires { 0 < most }
        ensures count { result ≡ count most self.old.state }
        ensures after { self.new.state ≡ next self.old.state }
    {
        1 + self.draw() % most
    }

    /// Draws a byte.
    fn byte(&mut self) -> u8
        ensures byte { result ≡ draw self.old.state % 256 }
        ensures after { self.new.state ≡ next self.old.state }
    {
        (self.draw() % 256) as u8
    }

    /// Draws bytes, and puts them after those that are there.
    pub fn put_bytes(&mut self, count: u32, bytes: &mut Vec<u8>) -> Result<(), AllocError>
        ensures put { OnOk result (bytes.new.items ≡ bytes.old.items ++ draws.bytes count self.old.state) }
        ensures after { OnOk result (self.new.state ≡ after count self.old.state) }
    {
        for _byte in 0..count {
            bytes.push(self.byte())?;
        }
        Ok(())
    }
}
