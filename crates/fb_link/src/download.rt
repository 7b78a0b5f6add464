//! The data of a download, frame by frame.
ghost use Rattle.std.specs.Prelude.{◌≡◌, ◌-◌, ◌<◌, ◌≤◌, length, IsTrue, OnOk, OnErr};
ghost use Rattle.fb_frame.specs.Framing.{frame};
ghost use Rattle.wire_told.specs.Answered.{Downloading, Sound, Wrote};
ghost use Rattle.wire_told.specs.Ports.{Sends, SendFails};
ghost use Rattle.wire_told.specs.Told.{HungUp};

use crate::loops::send_all;
use crate::port::{LinkFault, Port};

/// Sends the head of a frame and its bytes.
#[tactic(auto, using(wire_told::proofs::PortLemmas::port_data))]
fn send_bytes<P: Port>(port: &mut P, left: u32, bytes: &[u8]) -> Result<(), LinkFault>
    requires up { IsTrue (P.told port.old).up }
    requires sending { Downloading left (P.told port.old).peer }
    requires some { 0 < length bytes.now }
    requires within { length bytes.now ≤ left }
    requires small { length bytes.now ≤ 65536 }
    ensures same { P.lent port.new ≡ P.lent port.old }
    ensures sends { OnOk result (Sends (P.told port.old) (P.told port.new) (frame bytes.now)) }
    ensures fails { OnErr result (SendFails (P.told port.old) (P.told port.new) (frame bytes.now)) }
{
    let head = (bytes.len() as u64).to_be_bytes();
    send_all(port, &head)?;
    send_all(port, bytes)?;
    Ok(())
}

/// Sends the next bytes of a download in one frame: 1 to 65,536, and no more than are left.
#[tactic(auto, using(crate::proofs::TypedLemmas::writes))]
pub fn send_chunk<P: Port>(port: &mut P, left: u32, bytes: &[u8]) -> Result<(), LinkFault>
    requires up { IsTrue (P.told port.old).up }
    requires sending { Downloading left (P.told port.old).peer }
    requires some { 0 < length bytes.now }
    requires within { length bytes.now ≤ left }
    requires small { length bytes.now ≤ 65536 }
    ensures same { P.lent port.new ≡ P.lent port.old }
    ensures sends { OnOk result (Sends (P.told port.old) (P.told port.new) (frame bytes.now)) }
    ensures wrote { OnOk result (Wrote (P.told port.old).peer (P.told port.new).peer bytes.now) }
    ensures sending { OnOk result (Downloading (left - length bytes.now) (P.told port.new).peer) }
    ensures fails { OnErr result (SendFails (P.told port.old) (P.told port.new) (frame bytes.now)) }
    ensures hung { OnErr result (HungUp (P.told port.old).peer (P.told port.new).peer) }
    ensures sound { OnErr result (Sound (P.told port.new).peer) }
{
    match send_bytes(port, left, bytes) {
        Ok(()) => Ok(()),
        Err(fault) => Err(fault),
    }
}
