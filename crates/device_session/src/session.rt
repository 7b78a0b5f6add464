ghost use Rattle.std.specs.Prelude.{◌≡◌, ◌↔◌, ◌+◌, ◌<◌, ◌≤◌, length, take, drop, IsTrue};
ghost use Rattle.dev_model.specs.Partitions.{is_fastboot};
ghost use Rattle.wire_model.specs.Wire.{fresh};
ghost use Rattle.dev_store.specs.Held.{IsWhole};
ghost use Rattle.device_engine.specs.Running.{held_of, IsTyped, IsInOrder, StaysLocked};
ghost use Rattle.device_session.specs.Lives.{OneSession, LockedSession};
ghost use Rattle.device_session.specs.Living.{wire_of, is_full, is_over, StopsAtItem, Feeds, SessionKept};

use crate::inlet::{Inlet, LIMIT};
use crate::outbox::Outbox;
use crate::responder::Responder;
use crate::room::Room;
use dev_disk::disk::Disk;
use device_engine::device::Device;
use std::marker::Model;

/// One connection with a device. It takes the bytes that come in and holds what is answered; each command
/// runs once, when its last byte has come. No call takes memory.
#[derive(Drop)]
pub struct Session<K: Disk> {
    responder: Responder<K>,
    inlet: Inlet,
    closed: bool,
}

impl<K: Disk> Model for Session<K> {
    ghost use Rattle.device_engine.specs.Running.{IsTyped};
    ghost use Rattle.device_session.specs.Living.{Live, live_of, IsAlive};

    ghost Value = { Live K };

    ghost view = { λ s. live_of s.responder s.inlet s.closed };

    ghost invariant = { λ s. IsTyped s.responder.device
        × IsAlive K.told (live_of s.responder s.inlet s.closed) };
}

/// Whether a connection that took this many bytes is over.
fn is_over(closes: bool, taken: u64) -> bool
    ensures over { result ≡ is_over closes taken }
{
    closes || taken >= LIMIT
}

impl<K: Disk> Session<K> {
    /// Begins a connection, with the handshake in the outbox.
    pub fn start(device: Device<K>, room: Room) -> Session<K>
        requires typed { IsTyped device }
        requires whole { IsWhole K.told (held_of device) }
        requires fastboot { IsTrue (is_fastboot (held_of device).device.mode) }
        requires room { (held_of device).device.max ≤ room }
        ensures fresh { wire_of result ≡ fresh (held_of device).device }
        ensures held { result.held ≡ held_of device }
        ensures room { result.room ≡ room }
    {
        let Room {
            command,
            download,
            replies,
            max_download,
        } = room;
        Session {
            responder: Responder {
                device,
                outbox: Outbox::greet(replies),
            },
            inlet: Inlet::new(command, download, max_download),
            closed: false,
        }
    }

    /// Takes a front of the piece, and answers how long it is. It stops at the end of the handshake and of
    /// each frame, and takes nothing before the answer to a frame was drained.
    pub fn feed(&mut self, piece: &[u8]) -> usize
        ensures within { result ≤ length piece.now }
        ensures full { result ≡ 0 ↔ IsTrue (is_full (wire_of self.old) piece.now) }
        ensures still { result ≡ 0 → self.new ≡ self.old }
        ensures stops { StopsAtItem (wire_of self.old) (take result piece.now) }
        ensures feeds { 0 < result → Feeds K.told self.old self.new (take result piece.now) }
        ensures taken { self.new.taken ≡ self.old.taken + result }
        ensures kept { SessionKept K.told K.lent self.old self.new }
        ensures locked { 0 < result → StaysLocked K.told self.old.held self.new.held }
    {
        if self.is_full(piece) {
            return 0;
        }
        let (n, came) = self.inlet.take(piece);
        let closes = self.responder.hear(&mut self.inlet, came);
        self.closed = is_over(closes, self.inlet.taken());
        n
    }

    /// Whether nothing of the piece is taken now.
    fn is_full(&self, piece: &[u8]) -> bool
        ensures full { result ≡ is_full (wire_of self.now) piece.now }
    {
        self.closed
            || piece.is_empty()
            || (!self.inlet.is_shaking() && !self.responder.outbox.bytes().is_empty())
    }

    /// What was answered and isn't given on yet.
    pub fn outbox(&self) -> &[u8]
        ensures out { result.now ≡ self.now.out }
    {
        self.responder.outbox.bytes()
    }

    /// Takes a front of the outbox away.
    pub fn drain(&mut self, count: usize)
        requires there { count ≤ length self.old.out }
        ensures drained { self.new ≡ record self.old { out = drop count self.old.out } }
    {
        self.responder.outbox.drain(count);
    }

    /// Whether the connection is closed: nothing more is taken, and what is in the outbox is the last.
    pub fn closed(&self) -> bool
        ensures closed { result ≡ self.now.closed }
    {
        self.closed
    }

    /// Ends the connection, and gives the device and the memory back.
    pub fn finish(self) -> (Device<K>, Room)
        ensures held { held_of result.0 ≡ self.held }
        ensures typed { IsTyped result.0 }
        ensures in_order { IsInOrder K.told self.held }
        ensures room { result.1 ≡ self.room }
    {
        let Session {
            responder,
            inlet,
            ..
        } = self;
        let Responder { device, outbox } = responder;
        let max_download = inlet.room();
        let (command, download) = inlet.into_buffers();
        let room = Room {
            command,
            download,
            replies: outbox.into_replies(),
            max_download,
        };
        (device, room)
    }
}

/// Laws of a session's calls.
pub fn session_laws<K: Disk>()
    ensures one_session { OneSession K.told K.lent }
    ensures locked_session { LockedSession K.told K.lent }
{}
