ghost use Rattle.std.specs.Prelude.{◌≡◌, ◌+◌, ◌++◌, ◌≤◌, [], length, take};

use fb_link::port::{AimError, LinkFault, Port, Target};
use std::alloc::Global;
use std::marker::Model;

/// A port that tells what its port tells, and besides it a log of the bytes sent over all connections, which
/// stands in a buffer. Contracts see the port, the log, how many bytes the buffer has, which buffer it is,
/// and how many sends were refused for want of room.
#[derive(Drop)]
pub struct LogPort<'a, P: Port> {
    port: P,
    buffer: &'a mut [u8],
    have: usize,
    refused: u64,
}

impl<'a, P: Port> Model for LogPort<'a, P> {
    ghost use Rattle.std.specs.Prelude.{◌≤◌, take, length};
    ghost use Rattle.host_driver.specs.Logs.{Logged};

    ghost Value = { Logged P };

    ghost view = { λ p. record {
      port = p.port;
      log = take p.have p.buffer.now;
      room = length p.buffer.now;
      buffer = p.buffer.ghost_name;
      refused = p.refused;
    } };

    ghost invariant = { λ p. p.have ≤ length p.buffer.now };
}

/// Writes bytes into a buffer from a place on.
#[tactic(auto, using(crate::proofs::LogLemmas::logs))]
fn write_after(buffer: &mut [u8], have: usize, bytes: &[u8])
    requires { have + length bytes.now ≤ length buffer.old }
    ensures front { take (have + length bytes.now) buffer.new ≡ take have buffer.old ++ bytes.now }
    ensures length { length buffer.new ≡ length buffer.old }
{
    buffer[have..have + bytes.len()].copy_from_slice(bytes);
}

impl<'a, P: Port> LogPort<'a, P> {
    /// A port over this one, whose log is empty and may have as many bytes as the buffer.
    pub fn new(port: P, buffer: &'a mut [u8]) -> LogPort<'a, P>
        ensures port { result.port ≡ port }
        ensures log { result.log ≡ [] }
        ensures room { result.room ≡ length buffer.old }
        ensures buffer { result.buffer ≡ buffer.entry.ghost_name }
        ensures refused { result.refused ≡ 0 }
    {
        LogPort {
            port,
            buffer,
            have: 0,
            refused: 0,
        }
    }

    /// The log.
    pub fn sent(&self) -> &[u8]
        ensures { result.now ≡ self.now.log }
    {
        &self.buffer[..self.have]
    }
}

impl<P: Port> Port for LogPort<'_, P> {
    ghost use Rattle.std.specs.Prelude.{Some, ◌+◌};
    ghost use Rattle.std.specs.Borrow.{GName};

    ghost Lent = { GName × P.Lent };

    ghost lent = { λ p. (p.buffer, P.lent p.port) };

    ghost told = { λ p. record (P.told p.port) {
      log = Some p.log;
      faults = (P.told p.port).faults + p.refused;
    } };

    fn aim(&mut self, alloc: Global, target: &Target<'_>) -> Result<(), AimError> {
        self.port.aim(alloc, target)
    }

    fn connect(&mut self) -> Result<(), LinkFault> {
        self.port.connect()
    }

    #[tactic(auto, using(crate::proofs::LogLemmas::logs, wire_told::proofs::PortLemmas::port_fronts))]
    fn send(&mut self, bytes: &[u8]) -> Result<usize, LinkFault> {
        if bytes.len() > self.buffer.len() - self.have {
            self.port.hang_up();
            self.refused = self.refused.saturating_add(1);
            return Err(LinkFault);
        }
        let n = match self.port.send(bytes) {
            Ok(n) => n,
            Err(fault) => return Err(fault),
        };
        write_after(self.buffer, self.have, &bytes[..n]);
        self.have += n;
        Ok(n)
    }

    fn recv(&mut self, buf: &mut [u8]) -> Result<usize, LinkFault> {
        self.port.recv(buf)
    }

    fn hang_up(&mut self) {
        self.port.hang_up();
    }
}
