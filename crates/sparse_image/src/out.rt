ghost use Rattle.std.specs.Prelude.{◌≡◌, ℕ, List, [], length, Option, Some, IfOk, OnOk, OnErr};
ghost use Rattle.fb_frame.specs.Causes.{HasCause};
ghost use Rattle.sparse_image.specs.Outside.{Grew, GrewInPart, HasRoom, Fell};

use fb_frame::memory::Memory;
use std::alloc::Global;
use std::marker::Model;

/// An out couldn't take bytes.
#[derive(Debug, Drop)]
pub struct OutFault;

/// Something that takes bytes, one piece after another.
pub trait Out {
    /// All the bytes that were put, where the out tells them.
    ghost put_so_far: { Self → Option (List ℕ) };

    /// How many bytes the out still takes; None where it takes nothing any more.
    ghost room: { Self → Option ℕ };

    /// The count of faults.
    ghost faults: { Self → ℕ };

    /// What no call changes, as which value an out borrows.
    ghost Lent: { Type 0 } = { Unit {0} };

    ghost lent: { Self → Self.Lent };

    /// What only a fault changes.
    ghost Whole: { Type 0 } = { Unit {0} };

    ghost whole: { Self → Self.Whole };

    /// Puts all the bytes. After a fault a front of them was put that lacks at least one, where the out
    /// still tells what was put.
    fn put(&mut self, bytes: &[u8]) -> Result<(), OutFault>
        requires fits { HasRoom (room self.old) (length bytes.now) }
        ensures all { OnOk result (Grew (put_so_far self.old) (put_so_far self.new) bytes.now) }
        ensures part { OnErr result (GrewInPart (put_so_far self.old) (put_so_far self.new) bytes.now) }
        ensures room { OnOk result (Fell (room self.old) (room self.new) (length bytes.now)) }
        ensures same { Self.lent self.new ≡ Self.lent self.old }
        ensures whole { OnOk result (Self.whole self.new ≡ Self.whole self.old) }
        ensures cause { HasCause (faults self.old) (faults self.new) result };
}

/// An out in memory, with room for so many bytes. It tells what was put and never fails.
#[derive(Debug, Drop)]
pub struct MemoryOut {
    bytes: Vec<u8>,
    room: usize,
}

impl Model for MemoryOut {
    ghost use Rattle.std.specs.Prelude.{◌+◌, ◌≤◌, vec_len, vec_capacity};
    ghost use Rattle.sparse_image.specs.Outside.{Held};

    ghost Value = { Held };

    ghost view = { λ out. record { bytes = out.bytes.items; room = out.room } };

    ghost invariant = { λ out. vec_len out.bytes + out.room ≤ vec_capacity out.bytes };
}

impl MemoryOut {
    /// An out with room for so many bytes, all of which is taken now.
    pub fn new(alloc: Global, room: usize) -> Result<MemoryOut, Memory>
        ensures { IfOk result (λ out. out ≡ record { bytes = []; room = room }) }
    {
        let bytes = Vec::with_capacity(alloc, room).map_err(|_| Memory)?;
        Ok(MemoryOut { bytes, room })
    }

    /// What was put.
    pub fn bytes(&self) -> &[u8]
        ensures { result.now ≡ self.now.bytes }
    {
        self.bytes.as_slice()
    }
}

impl Out for MemoryOut {
    ghost put_so_far = { λ out. Some out.bytes };

    ghost room = { λ out. Some out.room };

    ghost faults = { λ out. 0 };

    ghost lent = { λ out. tt };

    ghost whole = { λ out. tt };

    fn put(&mut self, bytes: &[u8]) -> Result<(), OutFault> {
        self.bytes.extend_from_slice(bytes).map_err(|_| OutFault)?;
        self.room -= bytes.len();
        Ok(())
    }
}
