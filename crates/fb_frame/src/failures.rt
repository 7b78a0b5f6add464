ghost use Rattle.std.specs.Prelude.{◌≡◌, ◌-◌, is_err, None, Some, option_map};
ghost use Rattle.fb_frame.specs.Causes.{HasCause};
ghost use Rattle.fb_frame.specs.Failing.{has_room, fails_next, counted};

use std::marker::Model;
use thiserror::Error;

/// A call that was to fail.
#[derive(Debug, Drop, Error)]
#[error("the call was to fail")]
pub struct Failed;

/// Which calls of an object for tests fail, and how many calls and faults there were.
#[derive(Debug, Drop)]
pub struct Failures {
    fails: Vec<u64>,
    room: Option<u64>,
    calls: u64,
    faults: u64,
}

impl Model for Failures {
    ghost use Rattle.fb_frame.specs.Failing.{Failing};

    ghost Value = { Failing };

    ghost view = { λ f. record { fails = f.fails.items; room = f.room; calls = f.calls; faults = f.faults } };
}

impl Failures {
    /// Lets the calls of these numbers, from 1, fail.
    pub fn new(fails: Vec<u64>) -> Failures
        ensures { result ≡ record { fails = fails.items; room = None; calls = 0; faults = 0 } }
    {
        Failures {
            fails,
            room: None,
            calls: 0,
            faults: 0,
        }
    }

    /// Lets each call fail too that writes more bytes than are left of this many.
    pub fn with_room(fails: Vec<u64>, room: u64) -> Failures
        ensures { result ≡ record { fails = fails.items; room = Some room; calls = 0; faults = 0 } }
    {
        Failures {
            fails,
            room: Some(room),
            calls: 0,
            faults: 0,
        }
    }

    /// How many calls failed.
    pub fn faults(&self) -> u64
        ensures { result ≡ self.now.faults }
    {
        self.faults
    }

    /// Counts one more call, which writes this many bytes (0 for one that writes none).
    #[tactic(auto, unfolding(crate::specs::Failing::fails_next))]
    pub fn pass(&mut self, bytes: u64) -> Result<(), Failed>
        ensures fails { is_err result ≡ fails_next self.old bytes }
        ensures counts { self.new ≡ counted self.old bytes }
        ensures cause { HasCause self.old.faults self.new.faults result }
    {
        self.calls = self.calls.saturating_add(1);
        if self.fails.contains(&self.calls) || !has_room(self.room, bytes) {
            self.faults = self.faults.saturating_add(1);
            return Err(Failed);
        }
        self.room = less_room(self.room, bytes);
        Ok(())
    }
}

/// Whether the bytes have room.
fn has_room(room: Option<u64>, bytes: u64) -> bool
    ensures { result ≡ has_room room bytes }
{
    match room {
        Some(room) => bytes <= room,
        None => true,
    }
}

/// The room that the bytes leave.
fn less_room(room: Option<u64>, bytes: u64) -> Option<u64>
    ensures { result ≡ option_map (λ room. room - bytes) room }
{
    match room {
        Some(room) => Some(room.saturating_sub(bytes)),
        None => None,
    }
}
