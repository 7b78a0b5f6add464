ghost use Rattle.std.specs.Prelude.{◌≡◌, ◌<◌, ◌≤◌, length, take, IsTrue, IsFalse, OnOk, OnErr, IfOk};
ghost use Rattle.device_session.specs.Gates.{GateTold, IsAllRead};
ghost use Rattle.device_session.specs.Gates.{IsReadOn, IsReadFailed, IsWrittenOn, IsWriteFailed};
ghost use Rattle.device_session.specs.Gates.{Listens, FailsListen, Accepts, FindsNone, FailsAccept};
ghost use Rattle.device_session.specs.Gates.{GoesOn, BreaksOff, HangsUp};

use fb_frame::failures::Failed;
use thiserror::Error;

/// The outside refused a call on a gate.
#[derive(Debug, Drop, Error)]
#[error("the gate failed")]
pub struct GateFault;

impl From<Failed> for GateFault {
    fn from(_: Failed) -> GateFault {
        GateFault
    }
}

/// Connections that come in, at most one at a time.
pub trait Gate {
    /// What no call changes, as which gate is borrowed.
    ghost Lent: { Type 0 } = { Unit {0} };

    ghost lent: { Self → Self.Lent };

    /// All that the gate tells: where it listens, its connections, and its counts of faults.
    ghost told: { Self → GateTold };

    /// Waits for connections at a port from here on. It neither begins nor ends one.
    fn listen(&mut self, port: u16) -> Result<(), GateFault>
        ensures listens { OnOk result (Listens (told self.old) (told self.new) port) }
        ensures fails { OnErr result (FailsListen (told self.old) (told self.new) port) }
        ensures same { Self.lent self.new ≡ Self.lent self.old };

    /// Takes the next connection, in place of the one before; false only where no told one is left.
    fn accept(&mut self) -> Result<bool, GateFault>
        requires listening { IsTrue (told self.old).listening }
        ensures accepts { IfOk result (λ more. IsTrue more → Accepts (told self.old) (told self.new)) }
        ensures none { IfOk result (λ more. IsFalse more → FindsNone (told self.old) (told self.new)) }
        ensures fails { OnErr result (FailsAccept (told self.old) (told self.new)) }
        ensures same { Self.lent self.new ≡ Self.lent self.old };

    /// Gives the next bytes of the connection, and none of them only at its end.
    fn read(&mut self, buf: &mut [u8]) -> Result<usize, GateFault>
        requires up { IsTrue (told self.old).up }
        ensures within { IfOk result (λ n. n ≤ length buf.new) }
        ensures reads { IfOk result (λ n. GoesOn (IsReadOn (take n buf.new)) (told self.old)
            (told self.new)) }
        ensures end { IfOk result (λ n. n ≡ 0 → 0 < length buf.new → IsAllRead (told self.old).connections) }
        ensures fails { OnErr result (BreaksOff IsReadFailed (told self.old) (told self.new)) }
        ensures same { Self.lent self.new ≡ Self.lent self.old };

    /// Takes the first bytes of the piece, at least one of a piece that isn't empty.
    fn write(&mut self, bytes: &[u8]) -> Result<usize, GateFault>
        requires up { IsTrue (told self.old).up }
        ensures within { IfOk result (λ n. n ≤ length bytes.now) }
        ensures some { IfOk result (λ n. 0 < length bytes.now → 0 < n) }
        ensures writes { IfOk result (λ n. GoesOn (IsWrittenOn (take n bytes.now)) (told self.old)
            (told self.new)) }
        ensures fails { OnErr result (BreaksOff (IsWriteFailed bytes.now) (told self.old) (told self.new)) }
        ensures same { Self.lent self.new ≡ Self.lent self.old };

    /// Ends the connection.
    fn hang_up(&mut self)
        ensures hangs_up { HangsUp (told self.old) (told self.new) }
        ensures same { Self.lent self.new ≡ Self.lent self.old };
}

impl<G: Gate> Gate for &mut G {
    ghost use Rattle.std.specs.Borrow.{GName};

    ghost Lent = { GName × G.Lent };

    ghost lent = { λ gate. (gate.ghost_name, G.lent gate.now) };

    ghost told = { λ gate. G.told gate.now };

    fn listen(&mut self, port: u16) -> Result<(), GateFault> {
        (**self).listen(port)
    }

    fn accept(&mut self) -> Result<bool, GateFault> {
        (**self).accept()
    }

    fn read(&mut self, buf: &mut [u8]) -> Result<usize, GateFault> {
        (**self).read(buf)
    }

    fn write(&mut self, bytes: &[u8]) -> Result<usize, GateFault> {
        (**self).write(bytes)
    }

    fn hang_up(&mut self) {
        (**self).hang_up()
    }
}
