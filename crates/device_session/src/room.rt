ghost use Rattle.std.specs.Prelude.{◌≡◌, IfOk};

use crate::inlet::LONGEST_COMMAND;
use device_engine::replies::Replies;
use fb_frame::memory::Memory;
use std::alloc::Global;
use std::marker::Model;

/// The memory of a session, taken once: for a command, for a download of at most so many bytes, and for
/// replies. Contracts see the longest download that it has room for.
#[derive(Drop)]
pub struct Room {
    pub(crate) command: Vec<u8>,
    pub(crate) download: Vec<u8>,
    pub(crate) replies: Replies,
    pub(crate) max_download: u32,
}

impl Model for Room {
    ghost use Rattle.std.specs.Prelude.{ℕ, ◌≤◌, vec_capacity};

    ghost Value = { ℕ };

    ghost view = { λ r. r.max_download };

    ghost invariant = { λ r. (4096 ≤ vec_capacity r.command) × (r.max_download ≤ vec_capacity r.download) };
}

impl Room {
    /// Memory for sessions with downloads of at most this many bytes.
    pub fn new(alloc: Global, max_download: u32) -> Result<Room, Memory>
        ensures room { IfOk result (λ room. room ≡ max_download) }
    {
        let command = Vec::with_capacity(alloc, LONGEST_COMMAND as usize).map_err(|_| Memory)?;
        let download = Vec::with_capacity(alloc, max_download as usize).map_err(|_| Memory)?;
        let replies = Replies::new(alloc)?;
        Ok(Room {
            command,
            download,
            replies,
            max_download,
        })
    }
}
