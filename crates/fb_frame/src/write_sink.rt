ghost use Rattle.std.specs.Prelude.{◌≡◌, None, IsTrue};
ghost use Rattle.std.specs.Io.KnownBytes.{Appends};

use crate::sink::{Sink, SinkFault};
use std::io::Write;

/// A sink over a writer of std. It tells nothing of its text.
///
/// Each put is written and flushed whole. An error of the writer, or a write that takes nothing,
/// is a fault.
#[derive(Drop)]
pub struct WriteSink<W> {
    writer: W,
    faults: u64,
}

impl<W: Write> WriteSink<W> {
    /// A sink over the writer, with no fault so far.
    pub fn new(writer: W) -> WriteSink<W>
        ensures { ⟦<WriteSink<W> as Sink>⟧.faults result ≡ 0 }
    {
        WriteSink { writer, faults: 0 }
    }
}

impl<W: Write> Sink for WriteSink<W> {
    ghost text = { λ _. None };

    ghost faults = { λ s. s.faults };

    fn put(&mut self, bytes: &[u8]) -> Result<(), SinkFault> {
        if write_whole(&mut self.writer, bytes) {
            Ok(())
        } else {
            self.faults = self.faults.saturating_add(1);
            Err(SinkFault)
        }
    }
}

/// Writes all the bytes and flushes; false where the writer failed or took nothing.
fn write_whole<W: Write>(writer: &mut W, bytes: &[u8]) -> bool
    ensures { IsTrue result → Appends (W.contents writer.old) (W.contents writer.new) bytes.now }
{
    let mut at = 0;
    while at < bytes.len() {
        match writer.write(&bytes[at..]) {
            Ok(0) | Err(_) => return false,
            Ok(count) => at += count,
        }
    }
    writer.flush().is_ok()
}
