//! One connection of a gate with a session.
ghost use Rattle.std.specs.Prelude.{◌≡◌, ℕ, ◌+◌, ◌<◌, ◌≤◌, ◌^◌, List, [], ◌++◌, length, drop, IsTrue, IsFalse};
ghost use Rattle.dev_model.specs.Partitions.{is_fastboot};
ghost use Rattle.device_session.specs.Talking.{TalksOn, TalksUp, TalksOut, GateCalm, IsKept};

use crate::gate::Gate;
use crate::session::Session;
use dev_disk::disk::Disk;

/// How many bytes are read at a time.
const PIECE: usize = 4096;

/// Writes all that stands in the outbox. False where a write fails.
fn give<K: Disk, G: Gate>(session: &mut Session<K>, gate: &mut G) -> bool
    requires up { IsTrue (G.told gate.old).up }
    ensures up { IsTrue result → IsTrue (G.told gate.new).up }
    ensures talks { IsTrue result → (left : List ℕ) → TalksOn K.told session.old left (G.told gate.old)
        session.new left (G.told gate.new) }
    ensures ends { IsFalse result → (left : List ℕ) → TalksOut K.told session.old left (G.told gate.old)
        session.new (G.told gate.new) }
    ensures given { IsTrue result → session.new.out ≡ [] }
    ensures same { session.new ≡ record session.old { out = session.new.out } }
    ensures calm { GateCalm (G.told gate.old) (G.told gate.new) }
    ensures lent { G.lent gate.new ≡ G.lent gate.old }
{
    while !session.outbox().is_empty() {
        if !give_part(session, gate) {
            return false;
        }
    }
    true
}

/// Writes a front of the outbox. False where the write fails.
fn give_part<K: Disk, G: Gate>(session: &mut Session<K>, gate: &mut G) -> bool
    requires up { IsTrue (G.told gate.old).up }
    requires some { 0 < length session.old.out }
    ensures up { IsTrue result → IsTrue (G.told gate.new).up }
    ensures talks { IsTrue result → (left : List ℕ) → TalksOn K.told session.old left (G.told gate.old)
        session.new left (G.told gate.new) }
    ensures ends { IsFalse result → (left : List ℕ) → TalksOut K.told session.old left (G.told gate.old)
        session.new (G.told gate.new) }
    ensures less { IsTrue result → length session.new.out < length session.old.out }
    ensures same { session.new ≡ record session.old { out = session.new.out } }
    ensures calm { GateCalm (G.told gate.old) (G.told gate.new) }
    ensures lent { G.lent gate.new ≡ G.lent gate.old }
{
    match gate.write(session.outbox()) {
        Ok(count) => {
            session.drain(count);
            true
        }
        Err(_) => false,
    }
}

/// Takes a front of what was read, and writes what was answered. Answers how long it is, and false where a
/// write fails.
fn feed_on<K: Disk, G: Gate>(session: &mut Session<K>, gate: &mut G, piece: &[u8]) -> (usize, bool)
    requires up { IsTrue (G.told gate.old).up }
    requires running { IsFalse session.old.closed }
    requires given { session.old.out ≡ [] }
    requires runs { IsTrue (is_fastboot session.old.held.device.mode) }
    requires some { 0 < length piece.now }
    ensures within { result.0 ≤ length piece.now }
    ensures more { 0 < result.0 }
    ensures up { IsTrue result.1 → IsTrue (G.told gate.new).up }
    ensures talks { IsTrue result.1 → TalksOn K.told session.old piece.now (G.told gate.old)
        session.new (drop result.0 piece.now) (G.told gate.new) }
    ensures ends { IsFalse result.1 → TalksOut K.told session.old piece.now (G.told gate.old)
        session.new (G.told gate.new) }
    ensures given { IsTrue result.1 → session.new.out ≡ [] }
    ensures taken { session.new.taken ≡ session.old.taken + result.0 }
    ensures kept { IsKept K.told K.lent session.old session.new }
    ensures calm { GateCalm (G.told gate.old) (G.told gate.new) }
    ensures lent { G.lent gate.new ≡ G.lent gate.old }
{
    let n = session.feed(piece);
    let given = give(session, gate);
    (n, given)
}

/// Takes what was read, up to where the connection closes, and writes what is answered. False where a write
/// fails.
fn take_in<K: Disk, G: Gate>(session: &mut Session<K>, gate: &mut G, piece: &[u8]) -> bool
    requires up { IsTrue (G.told gate.old).up }
    requires running { IsFalse session.old.closed }
    requires given { session.old.out ≡ [] }
    requires runs { IsTrue (is_fastboot session.old.held.device.mode) }
    requires limit { session.old.taken < 2 ^ 62 }
    requires some { 0 < length piece.now }
    ensures up { IsTrue result → IsTrue (G.told gate.new).up }
    ensures talks { IsTrue result → TalksUp K.told session.old piece.now (G.told gate.old)
        session.new (G.told gate.new) }
    ensures ends { IsFalse result → TalksOut K.told session.old piece.now (G.told gate.old)
        session.new (G.told gate.new) }
    ensures given { IsTrue result → session.new.out ≡ [] }
    ensures more { IsTrue result → session.old.taken < session.new.taken }
    ensures kept { IsKept K.told K.lent session.old session.new }
    ensures calm { GateCalm (G.told gate.old) (G.told gate.new) }
    ensures lent { G.lent gate.new ≡ G.lent gate.old }
{
    let mut at = 0;
    while at < piece.len() && !session.closed() {
        let (n, given) = feed_on(session, gate, &piece[at..]);
        at += n;
        if !given {
            return false;
        }
    }
    true
}

/// Reads the next bytes of the connection and takes them. False where a call fails or the connection ended.
fn exchange<K: Disk, G: Gate>(session: &mut Session<K>, gate: &mut G) -> bool
    requires up { IsTrue (G.told gate.old).up }
    requires running { IsFalse session.old.closed }
    requires given { session.old.out ≡ [] }
    requires runs { IsTrue (is_fastboot session.old.held.device.mode) }
    requires limit { session.old.taken < 2 ^ 62 }
    ensures up { IsTrue result → IsTrue (G.told gate.new).up }
    ensures talks { IsTrue result → TalksUp K.told session.old [] (G.told gate.old)
        session.new (G.told gate.new) }
    ensures ends { IsFalse result → TalksOut K.told session.old [] (G.told gate.old)
        session.new (G.told gate.new) }
    ensures given { IsTrue result → session.new.out ≡ [] }
    ensures more { IsTrue result → session.old.taken < session.new.taken }
    ensures kept { IsKept K.told K.lent session.old session.new }
    ensures calm { GateCalm (G.told gate.old) (G.told gate.new) }
    ensures lent { G.lent gate.new ≡ G.lent gate.old }
{
    let mut piece = [0; PIECE];
    let Ok(n) = gate.read(&mut piece) else {
        return false;
    };
    if n == 0 {
        return false;
    }
    take_in(session, gate, &piece[..n])
}

/// Carries the bytes of the connection that was accepted last, until the session closes, all that it gives was
/// taken, or a call fails.
pub fn talk<K: Disk, G: Gate>(session: &mut Session<K>, gate: &mut G)
    requires up { IsTrue (G.told gate.old).up }
    requires running { IsFalse session.old.closed }
    requires runs { IsTrue (is_fastboot session.old.held.device.mode) }
    requires limit { session.old.taken < 2 ^ 62 }
    ensures ends { TalksOut K.told session.old [] (G.told gate.old) session.new (G.told gate.new) }
    ensures kept { IsKept K.told K.lent session.old session.new }
    ensures calm { GateCalm (G.told gate.old) (G.told gate.new) }
    ensures lent { G.lent gate.new ≡ G.lent gate.old }
{
    if !give(session, gate) {
        return;
    }
    while !session.closed() {
        if !exchange(session, gate) {
            return;
        }
    }
}
