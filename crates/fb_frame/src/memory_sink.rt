ghost use Rattle.std.specs.Prelude.{◌≡◌, ◌↔◌, [], IfOk, OnOk, OnErr, IsTrue, Some};
ghost use Rattle.std.specs.Result.{IsOk};
ghost use Rattle.fb_frame.specs.Causes.{HasCause};
ghost use Rattle.fb_frame.specs.Sinks.{Grew, GrewPart};
ghost use Rattle.fb_frame.specs.MemoryText.{MemoryText, has_room, after_put};

use crate::memory::Memory;
use crate::sink::{Sink, SinkFault};
use std::alloc::Global;
use std::marker::Model;

/// A sink that keeps its text in memory, up to a room that it takes at once.
#[derive(Debug, Drop)]
pub struct MemorySink {
    bytes: Vec<u8>,
    limit: usize,
    failed: u64,
}

impl Model for MemorySink {
    ghost use Rattle.std.specs.Prelude.{◌≤◌, vec_len, vec_capacity};
    ghost use Rattle.fb_frame.specs.MemoryText.{MemoryText};

    ghost Value = { MemoryText };

    ghost view = { λ s. record { put = s.bytes.items; room = s.limit; faults = s.failed } };

    ghost invariant = { λ s. (vec_len s.bytes ≤ s.limit) × (s.limit ≤ vec_capacity s.bytes) };
}

impl MemorySink {
    /// An empty sink that takes at most `room` bytes in all.
    pub fn new(alloc: Global, room: usize) -> Result<MemorySink, Memory>
        ensures { IfOk result (λ s. s ≡ record { put = []; room = room; faults = 0 }) }
    {
        let bytes = Vec::with_capacity(alloc, room)?;
        Ok(MemorySink {
            bytes,
            limit: room,
            failed: 0,
        })
    }

    /// The text so far.
    pub fn text(&self) -> &[u8]
        ensures { result.now ≡ self.now.put }
    {
        self.bytes.as_slice()
    }
}

impl Sink for MemorySink {
    ghost text = { λ s. Some s.put };

    ghost faults = { λ s. s.faults };

    /// Adds all the bytes where they have room, and else none.
    fn put(&mut self, bytes: &[u8]) -> Result<(), SinkFault>
        ensures ok { OnOk result (Grew (Some self.old.put) (Some self.new.put) bytes.now) }
        ensures part { OnErr result (GrewPart (Some self.old.put) (Some self.new.put) bytes.now) }
        ensures cause { HasCause self.old.faults self.new.faults result }
        ensures answer { IsOk result ↔ IsTrue (has_room self.old bytes.now) }
        ensures after { self.new ≡ after_put self.old bytes.now }
    {
        if bytes.len() <= self.limit - self.bytes.len() {
            match self.bytes.extend_from_slice(bytes) {
                Ok(()) => Ok(()),
                Err(_) => unreachable!(),
            }
        } else {
            self.failed = self.failed.saturating_add(1);
            Err(SinkFault)
        }
    }
}
