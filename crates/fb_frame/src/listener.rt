ghost use Rattle.std.specs.Prelude.{◌≡◌, ◌≢◌, List, ℕ, ◌++◌, [], flat_map, Option, Some};
ghost use Rattle.fb_frame.specs.Stages.{Head, Left};
ghost use Rattle.fb_frame.specs.Gathered.{Gathered, Notes, ReadsTold, CutsTold, nothing};

use crate::deframer::{Deframer, Event};

/// Who hears what a deframer tells of a stream.
pub trait Listener {
    /// What was heard so far; None where the listener doesn't tell it, or not any more.
    ghost told: { Self → Option Gathered };

    /// Hears an event, and the bytes that it took.
    fn note(&mut self, event: Event, taken: &[u8])
        ensures { Notes event taken.now (told self.old) (told self.new) };
}

/// Feeds all pieces in turn, each of them whole.
///
/// From the start of a stream, the listener has then heard the payloads and the lengths of the frames
/// that the joined pieces are cut into, however they were cut into pieces.
pub fn feed_all<L: Listener>(deframer: &mut Deframer, pieces: &[&[u8]], listener: &mut L)
    ensures cut { deframer.old ≡ Head [] → L.told listener.old ≡ Some nothing
        → CutsTold (flat_map (λ p. p.now) pieces.now) (L.told listener.new) deframer.new }
    ensures reads { (bytes : List ℕ) → ReadsTold bytes (L.told listener.old) deframer.old
        → ReadsTold (bytes ++ flat_map (λ p. p.now) pieces.now) (L.told listener.new) deframer.new }
{
    for piece in pieces {
        feed_piece(deframer, piece, listener);
    }
}

/// Feeds a piece until all of it was taken and no payload's end is due.
pub fn feed_piece<L: Listener>(deframer: &mut Deframer, piece: &[u8], listener: &mut L)
    ensures ended { deframer.new ≢ Left 0 }
    ensures reads { (bytes : List ℕ) → ReadsTold bytes (L.told listener.old) deframer.old
        → ReadsTold (bytes ++ piece.now) (L.told listener.new) deframer.new }
{
    let mut at = 0;
    loop {
        let (taken, event) = deframer.feed(&piece[at..]);
        listener.note(event, &piece[at..at + taken]);
        at += taken;
        if event == Event::More {
            return;
        }
    }
}
