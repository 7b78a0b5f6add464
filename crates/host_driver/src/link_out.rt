ghost use Rattle.std.specs.Prelude.{◌≡◌, ◌-◌, ◌<◌, ◌≤◌, [], ◌++◌, length, take, true, false, IfOk, IfErr, OnOk};
ghost use Rattle.std.specs.Prelude.{OnErr, IsTrue, None};
ghost use Rattle.fb_frame.specs.Causes.{HasCause, Rose};
ghost use Rattle.wire_told.specs.Ports.{Drops};
ghost use Rattle.wire_told.specs.Answered.{Downloading};
ghost use Rattle.sparse_image.specs.Outside.{Grew, HasRoom, Fell};
ghost use Rattle.host_driver.specs.LinkOuts.{IsSending, HasFailed, HasGivenUp, SendsAll, IsFull};
ghost use Rattle.host_driver.specs.LinkOuts.{data_by, put_by, room_by};

use crate::before::Before;
use fb_link::download::send_chunk;
use fb_link::link_error::LinkError;
use fb_link::port::{LinkFault, Port};
use fb_link::states::{InParts, Lost, Sending};
use sparse_image::out::{Out, OutFault};
use std::marker::{Model, PhantomData};

/// How many bytes a frame of data has.
const FRAME: usize = 65_536;

/// Sends one full frame of a download that began with what `F` says.
#[tactic(auto, using(crate::proofs::LinkOutLemmas::frames))]
fn send_full<P: Port, F: Before>(port: &mut P, left: u32, bytes: &[u8]) -> Result<(), LinkFault>
    requires sending { IsSending F.before (P.told port.old) left }
    requires full { length bytes.now ≡ 65536 }
    requires within { length bytes.now ≤ left }
    ensures same { P.lent port.new ≡ P.lent port.old }
    ensures sending { OnOk result (IsSending F.before (P.told port.new) (left - length bytes.now)) }
    ensures data { OnOk result (data_by F.before.peer (P.told port.new).peer [] ≡
        data_by F.before.peer (P.told port.old).peer bytes.now) }
    ensures failed { OnErr result (HasFailed F.before (P.told port.new)) }
    ensures cause { HasCause (P.told port.old).faults (P.told port.new).faults result }
{
    match send_chunk(port, left, bytes) {
        Ok(()) => Ok(()),
        Err(fault) => Err(fault),
    }
}

/// Sends the rest of the data in one frame.
#[tactic(auto, using(crate::proofs::LinkOutLemmas::ends))]
fn send_rest<P: Port, F: Before>(port: &mut P, left: u32, bytes: &[u8]) -> Result<(), LinkFault>
    requires sending { IsSending F.before (P.told port.old) left }
    requires some { 0 < length bytes.now }
    requires small { length bytes.now ≤ 65536 }
    requires rest { length bytes.now ≡ left }
    ensures same { P.lent port.new ≡ P.lent port.old }
    ensures up { OnOk result (IsTrue (P.told port.new).up) }
    ensures sending { OnOk result (Downloading 0 (P.told port.new).peer) }
    ensures sent { OnOk result (SendsAll (data_by F.before.peer (P.told port.old).peer bytes.now)
        F.before (P.told port.new)) }
    ensures failed { OnErr result (HasFailed F.before (P.told port.new)) }
    ensures cause { HasCause (P.told port.old).faults (P.told port.new).faults result }
{
    match send_chunk(port, left, bytes) {
        Ok(()) => Ok(()),
        Err(fault) => Err(fault),
    }
}

/// An out over the data of a download, with a buffer of 65,536 bytes, which is sent as a frame when it is
/// full and more bytes come. From a fault on its connection is gone, and it takes nothing any more. `F` says
/// what the port told when the download began.
#[derive(Drop)]
pub struct LinkOut<P: Port, F: Before> {
    port: P,
    up: bool,
    left: u32,
    lines: u32,
    buffer: [u8; 65536],
    have: usize,
    since: PhantomData<F>,
}

impl<P: Port, F: Before> Model for LinkOut<P, F> {
    ghost use Rattle.std.specs.Prelude.{◌≤◌, take};
    ghost use Rattle.host_driver.specs.LinkOuts.{Buffered, IsBuffered};

    ghost Value = { Buffered P };

    ghost view = { λ o. record {
      port = o.port;
      up = o.up;
      left = o.left;
      lines = o.lines;
      buffer = take o.have o.buffer;
    } };

    ghost invariant = { λ o. IsBuffered P F.before (P.told o.port) (record {
      port = o.port;
      up = o.up;
      left = o.left;
      lines = o.lines;
      buffer = take o.have o.buffer;
    }) × (o.have ≤ 65536) };
}

impl<P: Port, F: Before> LinkOut<P, F> {
    /// An out for all that is left to send of a download.
    pub fn new(parts: InParts<P>) -> LinkOut<P, F>
        requires begun { IsSending F.before (P.told parts.port) parts.left }
        requires few { parts.lines < 10000 }
        ensures { result ≡ record {
          port = parts.port;
          up = true;
          left = parts.left;
          lines = parts.lines;
          buffer = [];
        } }
    {
        LinkOut {
            port: parts.port,
            up: true,
            left: parts.left,
            lines: parts.lines,
            buffer: [0; FRAME],
            have: 0,
            since: PhantomData,
        }
    }

    /// Sends the full buffer.
    fn send(&mut self) -> Result<(), OutFault>
        requires up { self.old.up ≡ true }
        requires full { length self.old.buffer ≡ 65536 }
        ensures up { OnOk result (self.new.up ≡ true) }
        ensures left { OnOk result (self.new.left ≡ self.old.left - length self.old.buffer) }
        ensures buffer { OnOk result (self.new.buffer ≡ []) }
        ensures lines { self.new.lines ≡ self.old.lines }
        ensures data { OnOk result (data_by F.before.peer (P.told self.new.port).peer [] ≡
            data_by F.before.peer (P.told self.old.port).peer self.old.buffer) }
        ensures same { P.lent self.new.port ≡ P.lent self.old.port }
        ensures down { OnErr result (self.new.up ≡ false) }
        ensures cause { HasCause (P.told self.old.port).faults (P.told self.new.port).faults result }
    {
        match send_full::<P, F>(&mut self.port, self.left, &self.buffer[..self.have]) {
            Ok(()) => {
                self.left -= self.have as u32;
                self.have = 0;
                Ok(())
            }
            Err(LinkFault) => {
                self.up = false;
                Err(OutFault)
            }
        }
    }

    /// Makes room for at least one byte in the buffer.
    fn make_room(&mut self) -> Result<(), OutFault>
        requires up { self.old.up ≡ true }
        ensures up { OnOk result (self.new.up ≡ true) }
        ensures short { OnOk result (length self.new.buffer < 65536) }
        ensures left { OnOk result (self.new.left - length self.new.buffer ≡
            self.old.left - length self.old.buffer) }
        ensures lines { self.new.lines ≡ self.old.lines }
        ensures data { OnOk result (
            data_by F.before.peer (P.told self.new.port).peer self.new.buffer ≡
            data_by F.before.peer (P.told self.old.port).peer self.old.buffer) }
        ensures same { P.lent self.new.port ≡ P.lent self.old.port }
        ensures down { OnErr result (self.new.up ≡ false) }
        ensures cause { HasCause (P.told self.old.port).faults (P.told self.new.port).faults result }
    {
        if self.have < FRAME {
            return Ok(());
        }
        self.send()
    }

    /// Holds some of the bytes, at least one, and answers how many.
    fn hold(&mut self, bytes: &[u8]) -> usize
        requires up { self.old.up ≡ true }
        requires some { 0 < length bytes.now }
        requires short { length self.old.buffer < 65536 }
        requires room { length bytes.now ≤ self.old.left - length self.old.buffer }
        ensures some { 0 < result }
        ensures within { result ≤ length bytes.now }
        ensures up { self.new.up ≡ true }
        ensures port { self.new.port ≡ self.old.port }
        ensures left { self.new.left ≡ self.old.left }
        ensures lines { self.new.lines ≡ self.old.lines }
        ensures buffer { self.new.buffer ≡ self.old.buffer ++ take result bytes.now }
    {
        let n = (FRAME - self.have).min(bytes.len());
        let end = self.have + n;
        self.buffer[self.have..end].copy_from_slice(&bytes[..n]);
        self.have = end;
        n
    }

    /// Takes some of the bytes, at least one, and answers how many.
    #[tactic(auto, using(crate::proofs::LinkOutLemmas::puts))]
    fn take_some(&mut self, bytes: &[u8]) -> Result<usize, OutFault>
        requires some { 0 < length bytes.now }
        requires room { HasRoom (room_by self.old.up self.old.left (length self.old.buffer))
            (length bytes.now) }
        ensures some { IfOk result (λ n. 0 < n) }
        ensures within { IfOk result (λ n. n ≤ length bytes.now) }
        ensures put { IfOk result (λ n. Grew
            (put_by self.old.up F.before.peer (P.told self.old.port).peer self.old.buffer)
            (put_by self.new.up F.before.peer (P.told self.new.port).peer self.new.buffer)
            (take n bytes.now)) }
        ensures room { IfOk result (λ n. Fell (room_by self.old.up self.old.left (length self.old.buffer))
            (room_by self.new.up self.new.left (length self.new.buffer)) n) }
        ensures lines { self.new.lines ≡ self.old.lines }
        ensures same { P.lent self.new.port ≡ P.lent self.old.port }
        ensures down { OnErr result
            (put_by self.new.up F.before.peer (P.told self.new.port).peer self.new.buffer ≡ None) }
        ensures cause { HasCause (P.told self.old.port).faults (P.told self.new.port).faults result }
    {
        self.make_room()?;
        let n = self.hold(bytes);
        Ok(n)
    }

    /// Sends what is left in the buffer as one frame, where anything is left. After a put that failed it
    /// sends nothing and gives the port back.
    #[tactic(auto, using(crate::proofs::LinkOutLemmas::ends))]
    pub fn finish(self) -> Result<Sending<P>, (Lost<P>, LinkError)>
        requires all { IsFull self }
        ensures up { IfOk result (λ s. self.up ≡ true) }
        ensures left { IfOk result (λ s. s.left ≡ 0) }
        ensures lines { IfOk result (λ s. s.lines ≡ self.lines) }
        ensures sent { IfOk result (λ s.
            SendsAll (put_by self.up F.before.peer (P.told self.port).peer self.buffer)
            F.before (P.told s.port)) }
        ensures same { IfOk result (λ s. P.lent s.port ≡ P.lent self.port) }
        ensures link { IfErr result (λ e. e.1 ≡ LinkError.Link) }
        ensures failed { IfErr result (λ e. HasFailed F.before (P.told e.0)) }
        ensures same_lost { IfErr result (λ e. P.lent e.0 ≡ P.lent self.port) }
        ensures cause { IfErr result (λ e.
            self.up ≡ true → Rose (P.told self.port).faults (P.told e.0).faults) }
        ensures spent { IfErr result (λ e. self.up ≡ false → e.0 ≡ self.port) }
    {
        let LinkOut {
            mut port,
            up,
            left,
            lines,
            buffer,
            have,
            ..
        } = self;
        if !up {
            return Err((Lost::new(port), LinkError::Link));
        }
        if have == 0 {
            return Ok(Sending::from_parts(port, left, lines));
        }
        match send_rest::<P, F>(&mut port, left, &buffer[..have]) {
            Ok(()) => Ok(Sending::from_parts(port, 0, lines)),
            Err(LinkFault) => Err((Lost::new(port), LinkError::Link)),
        }
    }

    /// Gives up the connection, and sends nothing.
    pub fn abandon(self) -> Lost<P>
        ensures drops { Drops (P.told self.port) (P.told result) }
        ensures given_up { HasGivenUp F.before (P.told result) }
        ensures faults { (P.told result).faults ≡ (P.told self.port).faults }
        ensures same { P.lent result ≡ P.lent self.port }
    {
        let LinkOut { mut port, .. } = self;
        port.hang_up();
        Lost::new(port)
    }
}

#[tactic(auto, using(crate::proofs::LinkOutLemmas::puts))]
impl<P: Port, F: Before> Out for LinkOut<P, F> {
    ghost use Rattle.std.specs.Prelude.{ℕ, length};
    ghost use Rattle.host_driver.specs.LinkOuts.{put_by, room_by};

    ghost put_so_far = { λ o. put_by o.up F.before.peer (P.told o.port).peer o.buffer };

    ghost room = { λ o. room_by o.up o.left (length o.buffer) };

    ghost faults = { λ o. (P.told o.port).faults };

    ghost Lent = { ℕ × P.Lent };

    ghost lent = { λ o. (o.lines, P.lent o.port) };

    ghost whole = { λ o. tt };

    fn put(&mut self, bytes: &[u8]) -> Result<(), OutFault> {
        let mut at = 0;
        while at < bytes.len() {
            at += self.take_some(&bytes[at..])?;
        }
        Ok(())
    }
}
