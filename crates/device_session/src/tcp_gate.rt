ghost use Rattle.std.specs.Prelude.{◌≡◌, None, Some, is_some, IsFalse};

use crate::gate::{Gate, GateFault};
use std::io::{Read, Write};
use std::net::{Ipv4Addr, Net, OpenListener, SocketAddr};

/// A gate over TCP, on every IPv4 address of the machine: the trusted edge. It tells the port, and nothing
/// of its connections.
#[derive(Drop)]
pub struct TcpGate<R: Net + Drop> {
    net: R,
    listener: Option<R::Listener>,
    stream: Option<R::Stream>,
    port: Option<u16>,
    faults: u64,
    unaccepted: u64,
}

impl<R: Net + Drop> TcpGate<R> {
    /// A gate that doesn't listen yet.
    pub fn new(net: R) -> TcpGate<R>
        ensures deaf { IsFalse (⟦<TcpGate<R> as Gate>⟧.told result).listening }
        ensures down { IsFalse (⟦<TcpGate<R> as Gate>⟧.told result).up }
        ensures port { (⟦<TcpGate<R> as Gate>⟧.told result).port ≡ Some None }
        ensures faults { (⟦<TcpGate<R> as Gate>⟧.told result).faults ≡ 0 }
        ensures unaccepted { (⟦<TcpGate<R> as Gate>⟧.told result).unaccepted ≡ 0 }
    {
        TcpGate {
            net,
            listener: None,
            stream: None,
            port: None,
            faults: 0,
            unaccepted: 0,
        }
    }
}

impl<R: Net + Drop> Gate for TcpGate<R> {
    ghost lent = { λ _. tt };

    ghost told = { λ g. record {
      listening = is_some g.listener;
      up = is_some g.stream;
      port = Some g.port;
      connections = None;
      faults = g.faults;
      unaccepted = g.unaccepted;
    } };

    fn listen(&mut self, port: u16) -> Result<(), GateFault> {
        self.listener = None;
        self.port = Some(port);
        let address = SocketAddr::from((Ipv4Addr::UNSPECIFIED, port));
        let Ok(listener) = self.net.bind(address) else {
            self.faults = self.faults.saturating_add(1);
            self.unaccepted = self.unaccepted.saturating_add(1);
            return Err(GateFault);
        };
        self.listener = Some(listener);
        Ok(())
    }

    fn accept(&mut self) -> Result<bool, GateFault> {
        let Some(listener) = &self.listener else {
            unreachable!()
        };
        let Ok((stream, _)) = listener.accept() else {
            self.faults = self.faults.saturating_add(1);
            self.unaccepted = self.unaccepted.saturating_add(1);
            return Err(GateFault);
        };
        self.stream = Some(stream);
        Ok(true)
    }

    fn read(&mut self, buf: &mut [u8]) -> Result<usize, GateFault> {
        let Some(stream) = &mut self.stream else {
            unreachable!()
        };
        if let Ok(n) = stream.read(buf) {
            return Ok(n);
        }
        self.stream = None;
        self.faults = self.faults.saturating_add(1);
        Err(GateFault)
    }

    fn write(&mut self, bytes: &[u8]) -> Result<usize, GateFault> {
        let Some(stream) = &mut self.stream else {
            unreachable!()
        };
        if let Ok(n) = stream.write(bytes) {
            if n > 0 || bytes.is_empty() {
                return Ok(n);
            }
        }
        self.stream = None;
        self.faults = self.faults.saturating_add(1);
        Err(GateFault)
    }

    fn hang_up(&mut self) {
        self.stream = None;
    }
}

#[cfg(test)]
mod tests {
    use super::*;
    use crate::tests::{begin, hear, tell};
    use std::net::TcpStream;
    use std::test::Fail;
    use std::time::Duration;

    /// A connection to a port of this machine, which waits for bytes no longer than ten seconds.
    fn connect<R: Net<Stream = TcpStream>>(net: &R, port: u16) -> Result<TcpStream, Fail> {
        let stream = TcpStream::connect(net, (Ipv4Addr::LOCALHOST, port))?;
        stream.set_read_timeout(Some(Duration::from_secs(10)))?;
        Ok(stream)
    }

    /// The port at which a gate listens.
    fn port_of<R: Net + Drop>(gate: &TcpGate<R>) -> Result<u16, Fail> {
        let Some(listener) = &gate.listener else {
            return Err(Fail::from("no listener"));
        };
        Ok(listener.local_addr()?.port())
    }

    #[test]
    fn carries_bytes_over_loopback(rt: HostRuntime) -> Result<(), Fail> {
        let mut gate = TcpGate::new(&rt);
        gate.listen(0)?;
        let port = port_of(&gate)?;

        // what a host sends is read, and what is written arrives
        let mut host = connect(&rt, port)?;
        begin(&mut gate)?;
        host.write_all(b"FB01")?;
        hear(&mut gate, b"FB01")?;
        tell(&mut gate, b"FB02")?;
        let mut heard = [0; 4];
        host.read_exact(&mut heard)?;
        assert_eq!(rt; heard, *b"FB02");

        // the host's end is an end, and no fault
        drop(host);
        hear(&mut gate, b"")?;
        assert_eq!(rt; (gate.faults, gate.unaccepted), (0, 0));

        // the next connection takes the place of this one, and a host meets its end
        let mut next = connect(&rt, port)?;
        begin(&mut gate)?;
        gate.hang_up();
        assert_eq!(rt; next.read(&mut heard)?, 0);

        // a port that is taken
        let mut second = TcpGate::new(&rt);
        assert!(rt; second.listen(port).is_err());
        assert_eq!(rt; (second.faults, second.unaccepted), (1, 1));
        Ok(())
    }
}
