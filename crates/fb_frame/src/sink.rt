ghost use Rattle.std.specs.Prelude.{ℕ, List, Option, OnOk, OnErr};
ghost use Rattle.fb_frame.specs.Causes.{HasCause};
ghost use Rattle.fb_frame.specs.Sinks.{Grew, GrewPart};

use thiserror::Error;

/// A sink took less than what was put into it.
#[derive(Debug, Drop, Error)]
#[error("the output can't be written")]
pub struct SinkFault;

/// Where text goes: standard output, a file or memory.
pub trait Sink {
    /// The text so far; None where the sink doesn't tell it.
    ghost text: { Self → Option (List ℕ) };

    /// The count of faults, which never falls.
    ghost faults: { Self → ℕ };

    /// Adds all the bytes to the text. A fault adds a front of them that lacks at least one byte.
    fn put(&mut self, bytes: &[u8]) -> Result<(), SinkFault>
        ensures ok { OnOk result (Grew (text self.old) (text self.new) bytes.now) }
        ensures part { OnErr result (GrewPart (text self.old) (text self.new) bytes.now) }
        ensures cause { HasCause (faults self.old) (faults self.new) result };
}

impl<S: Sink> Sink for &mut S {
    ghost text = { λ s. S.text s.now };

    ghost faults = { λ s. S.faults s.now };

    fn put(&mut self, bytes: &[u8]) -> Result<(), SinkFault> {
        (**self).put(bytes)
    }
}
