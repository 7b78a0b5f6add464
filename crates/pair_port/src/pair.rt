//! A port whose other end is a session in the same process.
ghost use Rattle.std.specs.Prelude.{◌≡◌, ◌⊎◌, ◌<◌, ◌≤◌, length, take, min, All, IfOk, IsOk};
ghost use Rattle.std.specs.Prelude.{OnOk, OnErr, IsTrue, []};
ghost use Rattle.std.specs.Result.{IsErrOf};
ghost use Rattle.fb_frame.specs.Causes.{Rose};
ghost use Rattle.dev_model.specs.declared.bad_image.BadImage.{BadImage};
ghost use Rattle.dev_store.specs.Faults.{IsHonest};
ghost use Rattle.dev_store.specs.Opening.{IsAbsent, IsBadImage};
ghost use Rattle.pair_port.specs.Calls.{ended, OpensEnd, MissesEnd, ConnectsPair, RefusesPair, SendsPair};
ghost use Rattle.pair_port.specs.Calls.{FeedsPair, GivesPair, HearsPair, MeetsEnd, BreaksPair, GivesUp};
ghost use Rattle.pair_port.specs.Calls.{OfLive, IsStopped, IsMute};
ghost use Rattle.pair_port.specs.Counters.{new_counters, broken_once, refused_once};
ghost use Rattle.pair_port.specs.Pairs.{Alone, disk_of, is_aimed, is_up, stands_in, pair_told};
ghost use Rattle.pair_port.specs.Stood.{HoldsDevice, IsUnhalted};

use crate::feeding::{feed, give};
use crate::left::Left;
use crate::meter::Meter;
use crate::other::Other;
use core::mem::replace_with;
use dev_disk::disk::Disk;
use fb_link::port::{AimError, LinkFault};
use std::alloc::Global;
use std::marker::{Brand, Model};

/// A port over the images of a disk. Its other end is a session with the device of the image that it was
/// aimed at last, over connections that are cut and break as it was made.
#[derive(Drop)]
pub struct PairPort<K: Disk> {
    other: Other<K>,
    left: Left,
    meter: Meter,
}

impl<K: Disk> Model for PairPort<K> {
    ghost use Rattle.pair_port.specs.Pairs.{Pair};
    ghost use Rattle.pair_port.specs.Ready.{end_of, IsTypedEnd, IsReadyEnd};

    ghost Value = { Pair K };

    ghost view = { λ p. record { end = end_of p.other; left = p.left.device; counters = p.meter } };

    ghost invariant = { λ p. IsTypedEnd p.other × IsReadyEnd K.told (end_of p.other) p.left.device };
}

impl<K: Disk> PairPort<K> {
    /// A port that isn't aimed. The sizes bound what each `send` or `recv` passes, in turn and from the front
    /// again; no sizes bound nothing. The entry k of `breaks`, from 0, is the number of bytes, in both
    /// directions together, after which connection k breaks.
    pub fn new(disk: K, sizes: Vec<u32>, breaks: Vec<Option<u64>>) -> PairPort<K>
        requires sizes { All (λ size. 1 ≤ size) sizes.items }
        ensures alone { result.end ≡ Alone disk }
        ensures counters { result.counters ≡ new_counters sizes.items breaks.items }
    {
        PairPort {
            other: Other::Alone(disk),
            left: Left::choose::<(), (), Brand>(&(), &()),
            meter: Meter::new(sizes, breaks),
        }
    }

    /// Gives the disk back. The image that the port was aimed at last stands for the device that it tells; of
    /// a device that halted only where what failed writes left is honest.
    pub fn into_disk(self) -> K
        ensures disk { result ≡ disk_of self.end }
        ensures running { IsUnhalted (pair_told K.told self).peer → HoldsDevice (pair_told K.told self) }
        ensures honest { IsHonest (K.told result).torn → HoldsDevice (pair_told K.told self) }
        ensures stands { (pair_told K.told self).stands ≡ stands_in (K.told result).files }
    {
        self.other.into_disk()
    }

    /// How many calls met a break, at most the last number of 64 bits.
    pub fn broken(&self) -> u64
        ensures broken { result ≡ self.now.counters.broken }
    {
        self.meter.broken()
    }

    /// Whether there is a device at the other end.
    pub fn is_aimed(&self) -> bool
        ensures aimed { result ≡ is_aimed self.now.end }
    {
        match &self.other {
            Other::Alone(_) => false,
            Other::Down(_, _) | Other::Up(_) => true,
        }
    }

    /// Whether a connection is up.
    pub fn is_up(&self) -> bool
        ensures up { result ≡ is_up self.now.end }
    {
        match &self.other {
            Other::Up(_) => true,
            Other::Alone(_) | Other::Down(_, _) => false,
        }
    }

    /// Opens the image of a path, with all the memory that its device needs.
    pub fn open(&mut self, alloc: Global, path: &str) -> Result<(), AimError>
        ensures opens { OnOk result (OpensEnd K.told self.old.end self.new.end path.now) }
        ensures misses { OnErr result (MissesEnd K.told self.old.end self.new.end path.now) }
        ensures counters { self.new.counters ≡ self.old.counters }
        ensures absent { IsErrOf result AimError.NoTarget →
            IsAbsent (K.told (disk_of self.old.end)).files path.now }
        ensures bad { (bad : BadImage) → IsErrOf result (AimError.BadDevice bad) →
            IsBadImage (K.told (disk_of self.old.end)).files path.now bad }
        ensures link { IsErrOf result AimError.Link →
            Rose (K.told (disk_of self.old.end)).faults (K.told (disk_of self.new.end)).faults }
        ensures same { K.lent (disk_of self.new.end) ≡ K.lent (disk_of self.old.end) }
    {
        replace_with(&mut self.other, (alloc, path), Other::aim)
    }

    /// Leaves the device.
    pub fn leave(&mut self)
        ensures alone { self.new.end ≡ Alone (disk_of self.old.end) }
        ensures counters { self.new.counters ≡ self.old.counters }
    {
        replace_with(&mut self.other, (), Other::leave)
    }

    /// Begins a connection, in place of the one that may be up, exactly where the device is in a mode for it.
    pub fn begin(&mut self) -> Result<(), LinkFault>
        requires aimed { IsTrue (is_aimed self.old.end) }
        ensures connects { OnOk result (ConnectsPair self.old self.new) }
        ensures refuses { OnErr result (RefusesPair self.old self.new) }
    {
        self.end();
        if !replace_with(&mut self.other, (), Other::up) {
            self.meter.refuse();
            return Err(LinkFault);
        }
        self.meter.begin();
        Ok(())
    }

    /// Ends the connection.
    pub fn end(&mut self)
        ensures ends { self.new ≡ ended (λ c. c) self.old }
    {
        replace_with(&mut self.other, (), Other::down)
    }

    /// Passes a front of the bytes to the session. A call with bytes to pass fails exactly where the
    /// connection breaks before them or the session takes none.
    pub fn pass(&mut self, bytes: &[u8]) -> Result<usize, LinkFault>
        requires up { IsTrue (is_up self.old.end) }
        ensures within { IfOk result (λ n. n ≤ length bytes.now) }
        ensures some { IfOk result (λ n. 0 < length bytes.now → 0 < n) }
        ensures none { IfOk result (λ n. n ≡ 0 → self.new ≡ self.old) }
        ensures sends { IfOk result (λ n. 0 < n →
            SendsPair K.told self.old self.new (length bytes.now) (take n bytes.now)) }
        ensures fails { OnErr result (BreaksPair self.old self.new
            ⊎ GivesUp IsStopped self.old self.new) }
        ensures same { K.lent (disk_of self.new.end) ≡ K.lent (disk_of self.old.end) }
    {
        if bytes.is_empty() {
            return Ok(0);
        }
        if self.meter.is_spent() {
            self.break_off();
            return Err(LinkFault);
        }
        let most = self.meter.most(bytes.len());
        let n = self.feed(&bytes[..most]);
        if n == 0 {
            self.give_up();
            return Err(LinkFault);
        }
        self.meter.pass(n);
        Ok(n)
    }

    /// Gives the next bytes of the session on, and none only at the connection's end. A call with room fails
    /// exactly where the connection breaks before them or the session, which isn't closed, has none.
    pub fn hear(&mut self, buf: &mut [u8]) -> Result<usize, LinkFault>
        requires up { IsTrue (is_up self.old.end) }
        ensures within { IfOk result (λ n. n ≤ length buf.new) }
        ensures unasked { length buf.new ≡ 0 → IsOk result × (self.new ≡ self.old) }
        ensures hears { IfOk result (λ n. 0 < n →
            HearsPair self.old self.new (length buf.new) (take n buf.new)) }
        ensures meets { IfOk result (λ n. n ≡ 0 → 0 < length buf.new → MeetsEnd self.old self.new) }
        ensures fails { OnErr result (BreaksPair self.old self.new ⊎ GivesUp IsMute self.old self.new) }
    {
        if buf.is_empty() {
            return Ok(0);
        }
        if self.meter.is_spent() {
            self.break_off();
            return Err(LinkFault);
        }
        let waiting = self.waiting();
        if waiting == 0 {
            return self.quiet();
        }
        let n = self.meter.most(waiting.min(buf.len()));
        self.give(n, buf);
        self.meter.pass(n);
        Ok(n)
    }

    /// Answers a call that finds nothing to give.
    fn quiet(&mut self) -> Result<usize, LinkFault>
        requires quiet { OfLive (λ live. live.out ≡ []) self.old.end }
        ensures meets { IfOk result (λ n. (n ≡ 0) × MeetsEnd self.old self.new) }
        ensures fails { OnErr result (GivesUp IsMute self.old self.new) }
    {
        if self.is_closed() {
            self.meter.end();
            return Ok(0);
        }
        self.give_up();
        Err(LinkFault)
    }

    /// How many bytes wait in the outbox.
    fn waiting(&self) -> usize
        requires up { IsTrue (is_up self.now.end) }
        ensures waiting { OfLive (λ live. result ≡ length live.out) self.now.end }
    {
        match &self.other {
            Other::Up(session) => session.outbox().len(),
            Other::Alone(_) | Other::Down(_, _) => unreachable!(),
        }
    }

    /// Whether the connection is closed.
    fn is_closed(&self) -> bool
        requires up { IsTrue (is_up self.now.end) }
        ensures closed { OfLive (λ live. result ≡ live.closed) self.now.end }
    {
        match &self.other {
            Other::Up(session) => session.closed(),
            Other::Alone(_) | Other::Down(_, _) => unreachable!(),
        }
    }

    /// Lets the session take a front of the piece.
    fn feed(&mut self, piece: &[u8]) -> usize
        requires up { IsTrue (is_up self.old.end) }
        ensures within { result ≤ length piece.now }
        ensures none { 0 < length piece.now → result ≡ 0 → OfLive IsStopped self.old.end }
        ensures still { result ≡ 0 → self.new ≡ self.old }
        ensures feeds { 0 < result → FeedsPair K.told self.old self.new (take result piece.now) }
        ensures stops { result < length piece.now → OfLive IsStopped self.new.end }
        ensures counters { self.new.counters ≡ self.old.counters }
        ensures same { K.lent (disk_of self.new.end) ≡ K.lent (disk_of self.old.end) }
    {
        match &mut self.other {
            Other::Up(session) => feed(session, &mut self.left, piece),
            Other::Alone(_) | Other::Down(_, _) => unreachable!(),
        }
    }

    /// Gives the next n bytes of the session.
    fn give(&mut self, n: usize, buf: &mut [u8])
        requires there { OfLive (λ live. n ≤ length live.out) self.old.end }
        requires fits { n ≤ length buf.old }
        ensures gives { GivesPair self.old self.new (take n buf.new) }
        ensures counters { self.new.counters ≡ self.old.counters }
        ensures same_length { length buf.new ≡ length buf.old }
    {
        match &mut self.other {
            Other::Up(session) => give(session, n, buf),
            Other::Alone(_) | Other::Down(_, _) => unreachable!(),
        }
    }

    /// Ends the connection, which breaks.
    fn break_off(&mut self)
        ensures ends { self.new ≡ ended broken_once self.old }
    {
        self.end();
        self.meter.fail();
    }

    /// Ends the connection, in which a call wasn't in turn.
    fn give_up(&mut self)
        ensures ends { self.new ≡ ended refused_once self.old }
    {
        self.end();
        self.meter.refuse();
    }
}
