//! The port of a session in the same process.
use crate::pair::PairPort;
use dev_disk::disk::Disk;
use fb_link::port::{AimError, LinkFault, Port, Target};
use std::alloc::Global;

impl<K: Disk> Port for PairPort<K> {
    ghost use Rattle.pair_port.specs.Pairs.{disk_of, pair_told};

    ghost Lent = { K.Lent };

    ghost lent = { λ p. K.lent (disk_of p.end) };

    ghost told = { λ p. pair_told K.told p };

    fn aim(&mut self, alloc: Global, target: &Target<'_>) -> Result<(), AimError> {
        match target {
            Target::Image(path) => self.open(alloc, path),
            Target::Tcp(_, _) => {
                self.leave();
                Err(AimError::NoTarget)
            }
        }
    }

    fn connect(&mut self) -> Result<(), LinkFault> {
        self.begin()
    }

    fn send(&mut self, bytes: &[u8]) -> Result<usize, LinkFault> {
        self.pass(bytes)
    }

    fn recv(&mut self, buf: &mut [u8]) -> Result<usize, LinkFault> {
        self.hear(buf)
    }

    fn hang_up(&mut self) {
        self.end();
    }
}
