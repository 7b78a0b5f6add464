ghost use Rattle.std.specs.Prelude.{◌≡◌, ◌≤◌, [], length};
ghost use Rattle.fb_frame.specs.Stages.{Feeds, Head};

use crate::framing::head_length;
use std::marker::Model;

/// What a deframer tells of the bytes that it took.
#[derive(Clone, Copy, Debug, PartialEq, Eq)]
pub enum Event {
    /// The whole piece was taken and lies inside a head, or it is empty and no payload ends.
    More,
    /// The bytes complete a head, which tells the length of the payload.
    Length(u64),
    /// The bytes, at least one, are of the payload.
    Bytes,
    /// Nothing was taken, and the payload is complete.
    End,
}

/// Cuts a stream that comes in any pieces into frames, each a length of eight big-endian bytes and a
/// payload (fastboot README, TCP).
///
/// It keeps at most the eight bytes of a head; payloads aren't copied. Contracts see the bytes of a
/// head that isn't whole yet, or how many bytes of a payload are still to come.
#[derive(Debug, Drop)]
pub struct Deframer {
    head: [u8; 8],
    have: usize,
    left: u64,
}

impl Model for Deframer {
    ghost use Rattle.std.specs.Prelude.{◌≤◌, take, if◌then◌else◌, nat_lt};
    ghost use Rattle.fb_frame.specs.Stages.{Stage, Head, Left};

    ghost Value = { Stage };

    ghost view = { λ d. if nat_lt d.have 8 then Head (take d.have d.head) else Left d.left };

    ghost invariant = { λ d. d.have ≤ 8 };
}

impl Deframer {
    /// A deframer before the first frame.
    pub fn new() -> Deframer
        ensures { result ≡ Head [] }
    {
        Deframer {
            head: [0; 8],
            have: 0,
            left: 0,
        }
    }

    /// Takes bytes of the piece's front, and answers how many and what they are. The caller feeds
    /// what remains of the piece next. A frame of length 0 gives `Length(0)` and then `End`.
    pub fn feed(&mut self, piece: &[u8]) -> (usize, Event)
        ensures feeds { Feeds self.old piece.now result.0 result.1 self.new }
        ensures within { result.0 ≤ length piece.now }
    {
        if self.have < 8 {
            let taken = piece.len().min(8 - self.have);
            self.head[self.have..self.have + taken].copy_from_slice(&piece[..taken]);
            self.have += taken;
            if self.have < 8 {
                return (taken, Event::More);
            }
            self.left = head_length(&self.head);
            return (taken, Event::Length(self.left));
        }
        if self.left == 0 {
            self.have = 0;
            return (0, Event::End);
        }
        if piece.is_empty() {
            return (0, Event::More);
        }
        let taken = (piece.len() as u64).min(self.left);
        self.left -= taken;
        (taken as usize, Event::Bytes)
    }
}
