ghost use Rattle.std.specs.Prelude.{◌≡◌, ◌+◌, ◌<◌, ◌≤◌, ◌++◌, length, vec_len, vec_capacity, IfOk};
ghost use Rattle.device_engine.specs.Replied.{none_framed, with_reply};

use fb_frame::framing::frame_head;
use fb_frame::memory::Memory;
use fb_message::packet::Packet;
use fb_message::reply::{Reply, write_reply};
use std::alloc::Global;
use std::marker::Model;

/// How many replies a command has at most.
const MOST: usize = 1024;

/// How many bytes the frame of a reply has at most: its head, its four letters and its text.
const ROOM: usize = 264;

/// The replies to one command, as frames.
#[derive(Debug, Drop)]
pub struct Replies {
    frames: Vec<u8>,
    count: u32,
}

impl Model for Replies {
    ghost use Rattle.std.specs.Prelude.{◌*◌, ◌≤◌, vec_len, vec_capacity};
    ghost use Rattle.device_engine.specs.Replied.{Framed};

    ghost Value = { Framed };

    ghost view = { λ r. record { frames = r.frames.items; count = r.count } };

    ghost invariant = { λ r. (r.count ≤ 1024) × (vec_len r.frames ≤ 264 * r.count)
        × (270336 ≤ vec_capacity r.frames) };
}

impl Replies {
    /// Takes the memory for as many replies as a command can have.
    pub fn new(alloc: Global) -> Result<Replies, Memory>
        ensures none { IfOk result (λ replies. replies ≡ none_framed) }
    {
        let frames = Vec::with_capacity(alloc, MOST * ROOM).map_err(|_| Memory)?;
        Ok(Replies { frames, count: 0 })
    }

    /// Adds the frame of a reply.
    pub fn push(&mut self, reply: &Reply)
        requires room { self.old.count < 1024 }
        ensures pushed { self.new ≡ with_reply self.old reply.now }
    {
        let mut packet = Packet::new();
        write_reply(reply, &mut packet);
        let payload = packet.bytes();
        append(&mut self.frames, &frame_head(payload.len() as u64));
        append(&mut self.frames, payload);
        self.count += 1;
    }

    /// The frames, one after another.
    pub fn bytes(&self) -> &[u8]
        ensures frames { result.now ≡ self.now.frames }
        ensures short { length self.now.frames ≤ 270336 }
    {
        self.frames.as_slice()
    }

    /// Takes all replies away.
    pub fn clear(&mut self)
        ensures none { self.new ≡ none_framed }
    {
        self.frames.clear();
        self.count = 0;
    }
}

/// Appends bytes to a buffer that has room for them.
fn append(buffer: &mut Vec<u8>, bytes: &[u8])
    requires room { vec_len buffer.old + length bytes.now ≤ vec_capacity buffer.old }
    ensures bytes { buffer.new.items ≡ buffer.old.items ++ bytes.now }
    ensures capacity { vec_capacity buffer.old ≤ vec_capacity buffer.new }
{
    let Ok(()) = buffer.extend_from_slice(bytes) else {
        unreachable!();
    };
}
