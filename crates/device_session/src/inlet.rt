//! The bytes of a connection on their way in, up to the next item that is whole.
ghost use Rattle.std.specs.Prelude.{◌≡◌, ◌+◌, ◌^◌, ◌<◌, ◌≤◌, [], ◌++◌, length, take, None, is_some};
ghost use Rattle.std.specs.Prelude.{vec_capacity, IfSome, IsSome, option_map};
ghost use Rattle.fb_frame.specs.Greeting.{read_handshake};
ghost use Rattle.wire_model.specs.Wire as wire;
ghost use Rattle.device_session.specs.Inlets.{ComesTo, IsData, IsReceived, is_shaking};

use crate::framer::{Heard, take_frame};
use fb_frame::deframer::Deframer;
use fb_frame::greeting::read_handshake;
use std::marker::Model;

/// The most bytes of a command.
pub const LONGEST_COMMAND: u64 = 4096;

/// The most bytes that a connection takes.
pub const LIMIT: u64 = 0x4000_0000_0000_0000;

/// What a connection awaits: the handshake, a command, or the data of a download of so many bytes.
#[derive(Clone, Copy, Debug)]
pub enum Awaits {
    Shake,
    Command,
    Data(u32),
}

/// What bytes completed.
#[derive(Clone, Copy, Debug)]
pub enum Came {
    /// Nothing yet.
    More,
    /// A handshake, and whether it is a good one.
    Greeting(bool),
    /// A head that gives more bytes than may follow.
    TooLong,
    /// A command.
    Command,
    /// A frame of data, and whether all of the download came with it.
    Data(bool),
}

/// What a session keeps of the bytes of its connection. It takes no memory.
#[derive(Drop)]
pub struct Inlet {
    awaits: Awaits,
    deframer: Deframer,
    command: Vec<u8>,
    download: Vec<u8>,
    got: usize,
    loaded: bool,
    taken: u64,
    room: u32,
}

impl Model for Inlet {
    ghost use Rattle.std.specs.Prelude.{take, drop};
    ghost use Rattle.device_session.specs.Inlets.{Inflow, phase_of, loaded_of, rest_of};

    ghost Value = { Inflow };

    ghost view = { λ s. record {
      loaded = loaded_of s.loaded s.download.items;
      phase = phase_of s.awaits (take s.got s.download.items);
      rest = rest_of s.awaits s.deframer s.command.items (drop s.got s.download.items);
      command = s.command.items;
      taken = s.taken;
      room = s.room;
    } };

    ghost use Rattle.device_session.specs.InletKept.{IsRoomy};

    ghost invariant = { IsRoomy };
}

/// Takes a front of the piece that is of a handshake, and answers how long it is, and whether the handshake
/// is a good one, once it is whole.
fn take_greeting(four: &mut Vec<u8>, piece: &[u8]) -> (usize, Option<bool>)
    requires short { length four.old.items < 4 }
    requires room { 4 ≤ vec_capacity four.old }
    ensures within { result.0 ≤ length piece.now }
    ensures some { 0 < length piece.now → 0 < result.0 }
    ensures part { result.1 ≡ None → length four.new.items < 4 }
    ensures kept { result.1 ≡ None → four.new.items ≡ four.old.items ++ take result.0 piece.now }
    ensures whole { IsSome result.1 → length (four.old.items ++ take result.0 piece.now) ≡ 4 }
    ensures good { IfSome result.1 (λ good.
        good ≡ is_some (read_handshake (four.old.items ++ take result.0 piece.now))) }
    ensures empty { IsSome result.1 → four.new.items ≡ [] }
    ensures capacity { vec_capacity four.old ≤ vec_capacity four.new }
{
    let n = piece.len().min(4 - four.len());
    match four.extend_from_slice(&piece[..n]) {
        Ok(()) => {}
        Err(_) => unreachable!(),
    }
    let Some(whole) = four.as_slice().first_chunk::<4>() else {
        return (n, None);
    };
    let good = read_handshake(whole).is_ok();
    four.clear();
    (n, Some(good))
}

impl Inlet {
    /// The inlet of a connection that begins, with buffers for a command and for downloads of at most `room`
    /// bytes.
    pub fn new(command: Vec<u8>, download: Vec<u8>, room: u32) -> Inlet
        requires spells { 4096 ≤ vec_capacity command }
        requires holds { room ≤ vec_capacity download }
        ensures begins { result ≡ record {
          loaded = None;
          phase = wire.Shake;
          rest = [];
          command = [];
          taken = 0;
          room = room;
        } }
    {
        let mut command = command;
        command.clear();
        Inlet {
            awaits: Awaits::Shake,
            deframer: Deframer::new(),
            command,
            download,
            got: 0,
            loaded: false,
            taken: 0,
            room,
        }
    }

    /// The buffers again, for the next connection.
    pub fn into_buffers(self) -> (Vec<u8>, Vec<u8>)
        ensures spells { 4096 ≤ vec_capacity result.0 }
        ensures holds { self.room ≤ vec_capacity result.1 }
    {
        let Inlet {
            command,
            download,
            ..
        } = self;
        (command, download)
    }

    /// Takes a front of the piece, up to the end of the handshake or of a frame, and answers how long it is
    /// and what it completes.
    pub fn take(&mut self, piece: &[u8]) -> (usize, Came)
        requires open { self.old.taken < 2 ^ 62 }
        ensures within { result.0 ≤ length piece.now }
        ensures some { 0 < length piece.now → 0 < result.0 }
        ensures limit { self.new.taken ≤ 2 ^ 62 }
        ensures comes { ComesTo self.old (take result.0 piece.now) result.1 self.new }
    {
        let most = LIMIT - self.taken;
        let piece = &piece[..(piece.len() as u64).min(most) as usize];
        match self.awaits {
            Awaits::Shake => self.take_shake(piece),
            Awaits::Command => self.take_command(piece),
            Awaits::Data(_) => self.take_data(piece),
        }
    }

    /// Takes a front of the piece that is of the handshake.
    fn take_shake(&mut self, piece: &[u8]) -> (usize, Came)
        requires shake { self.old.phase ≡ wire.Shake }
        requires limit { self.old.taken + length piece.now ≤ 2 ^ 62 }
        ensures within { result.0 ≤ length piece.now }
        ensures some { 0 < length piece.now → 0 < result.0 }
        ensures comes { ComesTo self.old (take result.0 piece.now) result.1 self.new }
    {
        let (n, good) = take_greeting(&mut self.command, piece);
        self.taken += n as u64;
        let Some(good) = good else {
            return (n, Came::More);
        };
        if good {
            self.awaits = Awaits::Command;
        }
        (n, Came::Greeting(good))
    }

    /// Takes a front of the piece that is of a command.
    fn take_command(&mut self, piece: &[u8]) -> (usize, Came)
        requires command { self.old.phase ≡ wire.Command }
        requires limit { self.old.taken + length piece.now ≤ 2 ^ 62 }
        ensures within { result.0 ≤ length piece.now }
        ensures some { 0 < length piece.now → 0 < result.0 }
        ensures comes { ComesTo self.old (take result.0 piece.now) result.1 self.new }
    {
        let (n, heard) = take_frame(
            &mut self.deframer,
            &mut self.command,
            0,
            LONGEST_COMMAND,
            piece,
        );
        self.taken += n as u64;
        match heard {
            Heard::More => (n, Came::More),
            Heard::TooLong => (n, Came::TooLong),
            Heard::Whole => (n, Came::Command),
        }
    }

    /// Takes a front of the piece that is of data.
    fn take_data(&mut self, piece: &[u8]) -> (usize, Came)
        requires data { IsData self.old.phase }
        requires limit { self.old.taken + length piece.now ≤ 2 ^ 62 }
        ensures within { result.0 ≤ length piece.now }
        ensures some { 0 < length piece.now → 0 < result.0 }
        ensures comes { ComesTo self.old (take result.0 piece.now) result.1 self.new }
    {
        let Awaits::Data(count) = self.awaits else {
            unreachable!()
        };
        let most = count as u64 - self.got as u64;
        let (n, heard) = take_frame(
            &mut self.deframer,
            &mut self.download,
            self.got,
            most,
            piece,
        );
        self.taken += n as u64;
        match heard {
            Heard::More => (n, Came::More),
            Heard::TooLong => (n, Came::TooLong),
            Heard::Whole => {
                self.got = self.download.len();
                let whole = self.got == count as usize;
                if whole {
                    self.loaded = true;
                    self.awaits = Awaits::Command;
                }
                (n, Came::Data(whole))
            }
        }
    }

    /// Awaits the data of a download of this many bytes; true where none are due, so that it is loaded at
    /// once.
    pub fn await_data(&mut self, count: u32) -> bool
        requires command { self.old.phase ≡ wire.Command }
        requires nothing { self.old.rest ≡ [] }
        requires room { count ≤ self.old.room }
        ensures received { IsReceived count [] (record self.old { loaded = None }) self.new result }
        ensures taken { self.new.taken ≡ self.old.taken }
        ensures room { self.new.room ≡ self.old.room }
    {
        self.deframer = Deframer::new();
        self.download.clear();
        self.got = 0;
        self.loaded = count == 0;
        if count > 0 {
            self.awaits = Awaits::Data(count);
        }
        self.loaded
    }

    /// The payload of the command that came last.
    pub fn command(&self) -> &[u8]
        ensures command { result.now ≡ self.now.command }
    {
        self.command.as_slice()
    }

    /// What was downloaded last.
    pub fn loaded(&self) -> Option<&[u8]>
        ensures loaded { option_map (λ bytes. bytes.now) result ≡ self.now.loaded }
    {
        if self.loaded {
            Some(self.download.as_slice())
        } else {
            None
        }
    }

    /// The longest download that there is room for.
    pub fn room(&self) -> u32
        ensures room { result ≡ self.now.room }
    {
        self.room
    }

    /// Whether the handshake is awaited.
    pub fn is_shaking(&self) -> bool
        ensures shaking { result ≡ is_shaking self.now.phase }
    {
        match self.awaits {
            Awaits::Shake => true,
            Awaits::Command | Awaits::Data(_) => false,
        }
    }

    /// Why a head is refused that gives too much.
    pub fn excess(&self) -> &'static [u8]
        ensures text { result.now ≡ wire.too_long self.now.phase }
        ensures short { length result.now ≤ 252 }
    {
        match self.awaits {
            Awaits::Shake | Awaits::Command => b"command too long",
            Awaits::Data(_) => b"too much data",
        }
    }

    /// How many bytes were taken.
    pub fn taken(&self) -> u64
        ensures taken { result ≡ self.now.taken }
    {
        self.taken
    }
}
