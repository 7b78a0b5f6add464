//! Bytes that pass to a session and from it.
ghost use Rattle.std.specs.Prelude.{◌≡◌, ◌<◌, ◌≤◌, ◌++◌, length, take, drop};
ghost use Rattle.pair_port.specs.Calls.{Takes, IsStopped};
ghost use Rattle.pair_port.specs.Pairs.{wire_at};
ghost use Rattle.pair_port.specs.Ready.{IsReady, Runs};

use crate::left::{Left, Seen};
use dev_disk::disk::Disk;
use device_session::session::Session;
use std::marker::Brand;

/// Lets a session take a front of the piece, up to the end of what stands at its front. What is told of a
/// device whose disk failed in it is what the session says there is.
fn feed_once<K: Disk>(session: &mut Session<K>, left: &mut Left, piece: &[u8]) -> usize
    requires ready { IsReady K.told session.old.held session.old.room left.old.device }
    requires runs { Runs session.old }
    ensures within { result ≤ length piece.now }
    ensures none { 0 < length piece.now → result ≡ 0 → IsStopped session.old }
    ensures still { result ≡ 0 → session.new ≡ session.old }
    ensures left_still { result ≡ 0 → left.new.device ≡ left.old.device }
    ensures takes { 0 < result → Takes K.told session.old session.new
        (wire_at session.old left.old.device) (wire_at session.new left.new.device)
        (take result piece.now) }
    ensures ready { IsReady K.told session.new.held session.new.room left.new.device }
    ensures runs { Runs session.new }
    ensures same { K.lent session.new.held.disk ≡ K.lent session.old.held.disk }
{
    let before = Seen::of(session);
    let n = session.feed(piece);
    if n > 0 {
        *left = Left::choose::<(Seen<Session<K>>, &[u8]), Session<K>, Brand>(
            &(before, &piece[..n]),
            session,
        );
    }
    n
}

/// Lets a session take the piece, as far as it goes without being given what it answers.
pub fn feed<K: Disk>(session: &mut Session<K>, left: &mut Left, piece: &[u8]) -> usize
    requires ready { IsReady K.told session.old.held session.old.room left.old.device }
    requires runs { Runs session.old }
    ensures within { result ≤ length piece.now }
    ensures none { 0 < length piece.now → result ≡ 0 → IsStopped session.old }
    ensures still { result ≡ 0 → session.new ≡ session.old }
    ensures left_still { result ≡ 0 → left.new.device ≡ left.old.device }
    ensures takes { 0 < result → Takes K.told session.old session.new
        (wire_at session.old left.old.device) (wire_at session.new left.new.device)
        (take result piece.now) }
    ensures stops { result < length piece.now → IsStopped session.new }
    ensures ready { IsReady K.told session.new.held session.new.room left.new.device }
    ensures runs { Runs session.new }
    ensures same { K.lent session.new.held.disk ≡ K.lent session.old.held.disk }
{
    let mut at = 0;
    while at < piece.len() {
        let n = feed_once(session, left, &piece[at..]);
        if n == 0 {
            return at;
        }
        at += n;
    }
    at
}

/// Gives the next n bytes of the outbox.
pub fn give<K: Disk>(session: &mut Session<K>, n: usize, buf: &mut [u8])
    requires there { n ≤ length session.old.out }
    requires fits { n ≤ length buf.old }
    ensures gave { session.old.out ≡ take n buf.new ++ drop n session.old.out }
    ensures left { session.new ≡ record session.old { out = drop n session.old.out } }
    ensures same_length { length buf.new ≡ length buf.old }
{
    buf[..n].copy_from_slice(&session.outbox()[..n]);
    session.drain(n);
}
