ghost use Rattle.std.specs.Prelude.{◌≡◌, IfOk, IsFalse};

use fb_link::port::{AimError, LinkFault, Port, Target};
use fb_link::script_port::ScriptPort;
use fb_link::tcp_port::TcpPort;
use std::alloc::Global;
use std::marker::Model;
use std::net::Net;

/// A port that tells of no target what it stands for.
pub trait Untold: Port {
    ghost use Rattle.std.specs.Prelude.{◌≡◌, None};
    ghost use Rattle.wire_told.specs.Places.{Place};

    ghost untold: { (p : Self) (place : Place) → (Self.told p).stands place ≡ None };
}

impl<R: Net + Drop> Untold for TcpPort<R> {
    ghost use Rattle.std.specs.Prelude.{refl};

    ghost untold = { λ p place. refl };
}

impl Untold for ScriptPort {
    ghost use Rattle.std.specs.Prelude.{refl};

    ghost untold = { λ p place. refl };
}

/// The way to a target.
#[derive(Clone, Copy, Debug)]
pub enum Way {
    Address,
    Image,
}

/// A port that goes to addresses by one port and to images by another. An `aim` takes the way of its target,
/// and ends the connection that is up on the other way. What an address stands for isn't told, nor which
/// bytes were sent and heard; both ports' faults and ends are counted.
#[derive(Drop)]
pub struct AnyPort<A: Untold, I: Port> {
    addresses: A,
    images: I,
    way: Way,
}

impl<A: Untold, I: Port> Model for AnyPort<A, I> {
    ghost use Rattle.pair_port.specs.Ways.{Ways, IsAlone};

    ghost Value = { Ways A I };

    ghost view = { λ p. record { addresses = p.addresses; images = p.images; way = p.way } };

    ghost invariant = { λ p. IsAlone p.way (A.told p.addresses) (I.told p.images) };
}

impl<A: Untold, I: Port> AnyPort<A, I> {
    /// A port over both. Until it is aimed it is what the port to images is.
    pub fn new(addresses: A, images: I) -> AnyPort<A, I>
        requires down { IsFalse (A.told addresses).up }
        ensures addresses { result.addresses ≡ addresses }
        ensures images { result.images ≡ images }
        ensures way { result.way ≡ Way.Image }
    {
        AnyPort {
            addresses,
            images,
            way: Way::Image,
        }
    }

    /// Gives both ports back.
    pub fn into_ports(self) -> (A, I)
        ensures addresses { result.0 ≡ self.addresses }
        ensures images { result.1 ≡ self.images }
    {
        (self.addresses, self.images)
    }
}

impl<A: Untold, I: Port> Port for AnyPort<A, I> {
    ghost use Rattle.pair_port.specs.Ways.{told_on};

    ghost Lent = { A.Lent × I.Lent };

    ghost lent = { λ p. (A.lent p.addresses, I.lent p.images) };

    ghost told = { λ p. told_on p.way (A.told p.addresses) (I.told p.images) };

    fn aim(&mut self, alloc: Global, target: &Target<'_>) -> Result<(), AimError> {
        match target {
            Target::Tcp(..) => {
                // to the port to images this is a target as others, so it turns from the last one
                let _ = self.images.aim(alloc, target);
                self.way = Way::Address;
                self.addresses.aim(alloc, target)
            }
            Target::Image(_) => {
                self.addresses.hang_up();
                self.way = Way::Image;
                self.images.aim(alloc, target)
            }
        }
    }

    fn connect(&mut self) -> Result<(), LinkFault> {
        match self.way {
            Way::Address => self.addresses.connect(),
            Way::Image => self.images.connect(),
        }
    }

    #[tactic(auto, using(crate::proofs::WayLemmas::ways))]
    fn send(&mut self, bytes: &[u8]) -> Result<usize, LinkFault> {
        match self.way {
            Way::Address => self.addresses.send(bytes),
            Way::Image => self.images.send(bytes),
        }
    }

    fn recv(&mut self, buf: &mut [u8]) -> Result<usize, LinkFault> {
        match self.way {
            Way::Address => self.addresses.recv(buf),
            Way::Image => self.images.recv(buf),
        }
    }

    fn hang_up(&mut self) {
        match self.way {
            Way::Address => self.addresses.hang_up(),
            Way::Image => self.images.hang_up(),
        }
    }
}

#[cfg(test)]
mod tests {
    use super::*;
    use fb_link::link_error::LinkError;
    use fb_link::states::Lost;
    use std::test::Fail;

    /// A port whose one connection gives these bytes.
    fn script(alloc: Global, bytes: &[u8]) -> Result<ScriptPort, Fail>
        ensures { IfOk result (λ p. IsFalse (⟦<ScriptPort as Port>⟧.told p).up) }
    {
        let mut connections = Vec::new(alloc);
        connections.push(bytes.to_vec(alloc)?)?;
        let sizes = Vec::new(alloc);
        let fails = Vec::new(alloc);
        Ok(ScriptPort::new(alloc, connections, sizes, fails, 100)?)
    }

    /// Turns to the target and exchanges the handshakes, and says what came.
    #[tactic(auto, using(crate::proofs::AimLemmas::aimed_sound))]
    fn greet<P: Port>(alloc: Global, port: &mut P, target: &Target<'_>) -> &'static str {
        let Ok(()) = port.aim(alloc, target) else {
            return "astray";
        };
        match Lost::new(port).connect() {
            Ok(ready) => {
                ready.hang_up();
                "opened"
            }
            Err((_lost, LinkError::BadHandshake(_))) => "bad handshake",
            Err((_lost, _error)) => "broken",
        }
    }

    #[test]
    fn goes_the_way_of_its_target(rt: HostRuntime) -> Result<(), Fail> {
        let alloc = rt.alloc();
        let mut port = AnyPort::new(script(alloc, b"FB01")?, script(alloc, b"FB00")?);
        for (target, want) in [
            (Target::Image("image"), "bad handshake"),
            (Target::Tcp("host", 5554), "opened"),
            (Target::Tcp("host", 5554), "broken"),
            (Target::Image("image"), "broken"),
        ] {
            assert_eq!(rt; greet(alloc, &mut port, &target), want);
        }
        assert_eq!(rt; port.addresses.sent(0), b"FB01".as_slice());
        assert_eq!(rt; port.images.sent(0), b"FB01".as_slice());
        Ok(())
    }
}
