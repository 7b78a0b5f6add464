//! What bounds and counts the calls on a port.
ghost use Rattle.std.specs.Prelude.{◌≡◌, ◌<◌, ◌≤◌, All, IfSome, IsFalse, length};
ghost use Rattle.pair_port.specs.Counters.{new_counters, bounded, next_turn, most, is_spent};
ghost use Rattle.pair_port.specs.Counters.{begun_once, passed, ended_once, broken_once, refused_once};

use std::marker::Model;

/// Sizes and breaks, how far a port is in them, and what was counted.
#[derive(Drop)]
pub struct Meter {
    sizes: Vec<u32>,
    turn: usize,
    breaks: Vec<Option<u64>>,
    begun: u64,
    remaining: Option<u64>,
    broken: u64,
    refused: u64,
    ended: u64,
}

impl Model for Meter {
    ghost use Rattle.std.specs.Prelude.{◌≤◌, length, All};
    ghost use Rattle.pair_port.specs.Counters.{Counters};

    ghost Value = { Counters };

    ghost view = { λ m. record {
      sizes = m.sizes.items;
      turn = m.turn;
      breaks = m.breaks.items;
      begun = m.begun;
      remaining = m.remaining;
      broken = m.broken;
      refused = m.refused;
      ended = m.ended;
    } };

    ghost invariant = { λ m. All (λ size. 1 ≤ size) m.sizes.items × (m.turn ≤ length m.sizes.items) };
}

/// The smaller of a number and a bound, where there is one.
fn bounded(bound: Option<u64>, n: usize) -> usize
    ensures { result ≡ bounded bound n }
{
    match bound {
        Some(bound) => bound.min(n as u64) as usize,
        None => n,
    }
}

/// The next size, and from the front again.
fn next_turn(sizes: &[u32], turn: usize) -> usize
    requires within { turn ≤ length sizes.now }
    ensures turn { result ≡ next_turn sizes.now turn }
    ensures within { result ≤ length sizes.now }
{
    if turn + 1 < sizes.len() { turn + 1 } else { 0 }
}

impl Meter {
    /// Sizes and breaks from their beginning.
    pub fn new(sizes: Vec<u32>, breaks: Vec<Option<u64>>) -> Meter
        requires some { All (λ size. 1 ≤ size) sizes.items }
        ensures new { result ≡ new_counters sizes.items breaks.items }
    {
        Meter {
            sizes,
            turn: 0,
            breaks,
            begun: 0,
            remaining: None,
            broken: 0,
            refused: 0,
            ended: 0,
        }
    }

    /// How many calls met a break, at most the last number of 64 bits.
    pub fn broken(&self) -> u64
        ensures broken { result ≡ self.now.broken }
    {
        self.broken
    }

    /// Whether no byte may pass any more.
    pub fn is_spent(&self) -> bool
        ensures spent { result ≡ is_spent self.now.remaining }
    {
        match self.remaining {
            Some(count) => count == 0,
            None => false,
        }
    }

    /// How many of n bytes the next call passes at most.
    pub fn most(&self, n: usize) -> usize
        ensures most { result ≡ most self.now n }
        ensures within { result ≤ n }
        ensures some { 0 < n → IsFalse (is_spent self.now.remaining) → 0 < result }
    {
        let n = bounded(self.remaining, n);
        match self.sizes.get(self.turn) {
            Some(size) => bounded(Some(*size as u64), n),
            None => n,
        }
    }

    /// Counts a connection that began.
    pub fn begin(&mut self)
        ensures begun { self.new ≡ begun_once self.old }
    {
        self.remaining = match self.breaks.get(self.begun as usize) {
            Some(entry) => *entry,
            None => None,
        };
        self.begun = self.begun.saturating_add(1);
    }

    /// Counts n bytes that passed in a call.
    pub fn pass(&mut self, n: usize)
        requires within { IfSome self.old.remaining (λ remaining. n ≤ remaining) }
        ensures passed { self.new ≡ passed n self.old }
    {
        self.turn = next_turn(&self.sizes, self.turn);
        if let Some(remaining) = self.remaining {
            self.remaining = Some(remaining - n as u64);
        }
    }

    /// Counts the end of a connection.
    pub fn end(&mut self)
        ensures ended { self.new ≡ ended_once self.old }
    {
        self.ended = self.ended.saturating_add(1);
    }

    /// Counts a call that met a break.
    pub fn fail(&mut self)
        ensures broken { self.new ≡ broken_once self.old }
    {
        self.broken = self.broken.saturating_add(1);
    }

    /// Counts a call that wasn't in turn, or began no connection.
    pub fn refuse(&mut self)
        ensures refused { self.new ≡ refused_once self.old }
    {
        self.refused = self.refused.saturating_add(1);
    }
}
