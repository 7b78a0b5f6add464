ghost use Rattle.std.specs.Prelude.{◌≡◌, ◌+◌, ◌-◌, ◌<◌, ◌≤◌, [], ◌∷◌, ◌++◌, length, take, drop, map, All};
ghost use Rattle.std.specs.Prelude.{None, IfOk, OnOk, OnErr, IsTrue, IsFalse, is_err, false};
ghost use Rattle.std.specs.Prelude.{vec_capacity, slice_index_or};
ghost use Rattle.fb_frame.specs.Failing.{fails_next, counted};
ghost use Rattle.device_session.specs.Gates.{IsAllRead, IsReadOn, IsReadFailed, IsWrittenOn, IsWriteFailed};
ghost use Rattle.device_session.specs.Gates.{Listens, FailsListen, Accepts, FindsNone, FailsAccept};
ghost use Rattle.device_session.specs.Gates.{GoesOn, BreaksOff, HangsUp};
ghost use Rattle.device_session.specs.Scripts.{told_of, written_at};

use crate::gate::{Gate, GateFault};
use fb_frame::failures::Failures;
use fb_frame::memory::Memory;
use std::alloc::Global;
use std::marker::Model;

/// What is kept of a connection that was accepted: how many bytes were read of it, where the bytes that were
/// written in it begin among all that were written, how many those are, and whether a call failed.
#[derive(Clone, Copy)]
struct Passage {
    read: usize,
    from: usize,
    size: usize,
    failed: bool,
}

/// A gate whose connections give bytes that were written down before, for tests. It tells all that a gate
/// may tell.
#[derive(Drop)]
pub struct ScriptGate {
    script: Vec<Vec<u8>>,
    passages: Vec<Passage>,
    sizes: Vec<u32>,
    turn: usize,
    written: Vec<u8>,
    listening: bool,
    up: bool,
    port: Option<u16>,
    failures: Failures,
    unaccepted: u64,
}

impl Model for ScriptGate {
    ghost use Rattle.std.specs.Prelude.{map};
    ghost use Rattle.device_session.specs.Scripts.{Scripted, split_at};

    ghost Value = { Scripted };

    ghost view = { λ g. record {
      listening = g.listening;
      up = g.up;
      port = g.port;
      connections = split_at (map (λ v. v.items) g.script.items) g.passages.items g.written.items;
      failing = g.failures;
      unaccepted = g.unaccepted;
    } };

    ghost use Rattle.device_session.specs.ScriptKept.{IsKept};

    ghost invariant = { IsKept };
}

/// The last of the passages.
#[tactic(auto, using(crate::proofs::ScriptLemmas::last_reads))]
fn last_of(passages: &Vec<Passage>) -> Passage
    requires { 0 < length passages.now.items }
    ensures { passages.now.items ≡ take (length passages.now.items - 1) passages.now.items ++ result ∷ [] }
{
    passages[passages.len() - 1]
}

/// Puts a passage in place of the last one.
#[tactic(auto, using(crate::proofs::ScriptLemmas::last_sets))]
fn put_last(passages: &mut Vec<Passage>, passage: Passage)
    requires { 0 < length passages.old.items }
    ensures put { passages.new.items
        ≡ take (length passages.old.items - 1) passages.old.items ++ passage ∷ [] }
    ensures capacity { vec_capacity passages.new ≡ vec_capacity passages.old }
{
    let last = passages.len() - 1;
    passages[last] = passage;
}

/// What the connection of a number gives.
#[tactic(auto, using(crate::proofs::ScriptLemmas::gives_reads))]
fn given(script: &Vec<Vec<u8>>, k: usize) -> &[u8]
    requires { k < length script.now.items }
    ensures { result.now ≡ slice_index_or (map (λ v. v.items) script.now.items) k [] }
{
    script[k].as_slice()
}

/// The next bound of what is given.
fn next_size(sizes: &[u32], turn: &mut usize) -> usize
    requires { All (λ n. 1 ≤ n) sizes.now }
    ensures { 1 ≤ result }
{
    if sizes.is_empty() {
        return usize::MAX;
    }
    if *turn >= sizes.len() {
        *turn = 0;
    }
    let size = sizes[*turn] as usize;
    *turn += 1;
    size
}

/// Gives n bytes from a place on.
fn give(bytes: &[u8], at: usize, n: usize, buf: &mut [u8])
    requires there { at + n ≤ length bytes.now }
    requires fits { n ≤ length buf.old }
    ensures { take n buf.new ≡ take n (drop at bytes.now) }
{
    buf[..n].copy_from_slice(&bytes[at..at + n]);
}

impl ScriptGate {
    /// A gate with these connections. `sizes` bound what each `read` gives, in turn and from the front again;
    /// `fails` has the numbers, from 1, of the calls of `listen`, `accept`, `read` and `write` that fail. It
    /// keeps at most `room` written bytes, and a write past them fails.
    pub fn new(
        alloc: Global,
        connections: Vec<Vec<u8>>,
        sizes: Vec<u32>,
        fails: Vec<u64>,
        room: usize,
    ) -> Result<ScriptGate, Memory>
        requires sizes { All (λ n. 1 ≤ n) sizes.items }
        ensures deaf { IfOk result (λ gate. gate.listening ≡ false) }
        ensures down { IfOk result (λ gate. gate.up ≡ false) }
        ensures port { IfOk result (λ gate. gate.port ≡ None) }
        ensures accepted { IfOk result (λ gate. gate.connections.accepted ≡ []) }
        ensures coming { IfOk result (λ gate.
            gate.connections.coming ≡ map (λ v. v.items) connections.items) }
        ensures failing { IfOk result (λ gate. gate.failing ≡
            record { fails = fails.items; room = Some room; calls = 0; faults = 0 }) }
        ensures unaccepted { IfOk result (λ gate. gate.unaccepted ≡ 0) }
    {
        let written = Vec::with_capacity(alloc, room).map_err(|_| Memory)?;
        let passages = Vec::with_capacity(alloc, connections.len()).map_err(|_| Memory)?;
        Ok(ScriptGate {
            script: connections,
            passages,
            sizes,
            turn: 0,
            written,
            listening: false,
            up: false,
            port: None,
            failures: Failures::with_room(fails, room as u64),
            unaccepted: 0,
        })
    }

    /// The bytes written in that connection, counted from 0; none where there wasn't one.
    pub fn written(&self, connection: u32) -> &[u8]
        ensures { result.now ≡ written_at self.now connection }
    {
        let k = connection as usize;
        if k >= self.passages.len() {
            return &[];
        }
        let passage = self.passages[k];
        &self.written[passage.from..passage.from + passage.size]
    }
}

impl Gate for ScriptGate {
    ghost use Rattle.device_session.specs.Scripts.{told_of};

    ghost lent = { λ _. tt };

    ghost told = { told_of };

    fn listen(&mut self, port: u16) -> Result<(), GateFault>
        ensures listens { OnOk result (Listens (told_of self.old) (told_of self.new) port) }
        ensures fails { OnErr result (FailsListen (told_of self.old) (told_of self.new) port) }
        ensures failing { is_err result ≡ fails_next self.old.failing 0 }
        ensures counts { self.new.failing ≡ counted self.old.failing 0 }
    {
        self.listening = false;
        self.port = Some(port);
        if self.failures.pass(0).is_err() {
            self.unaccepted = self.unaccepted.saturating_add(1);
            return Err(GateFault);
        }
        self.listening = true;
        Ok(())
    }

    fn accept(&mut self) -> Result<bool, GateFault>
        ensures accepts { IfOk result (λ more. IsTrue more → Accepts (told_of self.old) (told_of self.new)) }
        ensures none { IfOk result (λ more. IsFalse more → FindsNone (told_of self.old) (told_of self.new)) }
        ensures fails { OnErr result (FailsAccept (told_of self.old) (told_of self.new)) }
        ensures failing { is_err result ≡ fails_next self.old.failing 0 }
        ensures counts { self.new.failing ≡ counted self.old.failing 0 }
    {
        if self.failures.pass(0).is_err() {
            self.unaccepted = self.unaccepted.saturating_add(1);
            return Err(GateFault);
        }
        if self.passages.len() == self.script.len() {
            return Ok(false);
        }
        let passage = Passage {
            read: 0,
            from: self.written.len(),
            size: 0,
            failed: false,
        };
        match self.passages.push(passage) {
            Ok(()) => {}
            Err(_) => unreachable!(),
        }
        self.up = true;
        Ok(true)
    }

    fn read(&mut self, buf: &mut [u8]) -> Result<usize, GateFault>
        requires up { IsTrue self.old.up }
        ensures within { IfOk result (λ n. n ≤ length buf.new) }
        ensures reads { IfOk result (λ n. GoesOn (IsReadOn (take n buf.new)) (told_of self.old)
            (told_of self.new)) }
        ensures end { IfOk result (λ n. n ≡ 0 → 0 < length buf.new →
            IsAllRead (told_of self.old).connections) }
        ensures fails { OnErr result (BreaksOff IsReadFailed (told_of self.old) (told_of self.new)) }
        ensures failing { is_err result ≡ fails_next self.old.failing 0 }
        ensures counts { self.new.failing ≡ counted self.old.failing 0 }
    {
        let passage = last_of(&self.passages);
        if self.failures.pass(0).is_err() {
            self.up = false;
            let failed = Passage {
                failed: true,
                ..passage
            };
            put_last(&mut self.passages, failed);
            return Err(GateFault);
        }
        let gives = given(&self.script, self.passages.len() - 1);
        let size = next_size(self.sizes.as_slice(), &mut self.turn);
        let n = (gives.len() - passage.read).min(buf.len()).min(size);
        give(gives, passage.read, n, buf);
        let read = Passage {
            read: passage.read + n,
            ..passage
        };
        put_last(&mut self.passages, read);
        Ok(n)
    }

    fn write(&mut self, bytes: &[u8]) -> Result<usize, GateFault>
        requires up { IsTrue self.old.up }
        ensures within { IfOk result (λ n. n ≤ length bytes.now) }
        ensures some { IfOk result (λ n. 0 < length bytes.now → 0 < n) }
        ensures whole { IfOk result (λ n. n ≡ length bytes.now) }
        ensures writes { IfOk result (λ n. GoesOn (IsWrittenOn (take n bytes.now)) (told_of self.old)
            (told_of self.new)) }
        ensures fails { OnErr result (BreaksOff (IsWriteFailed bytes.now) (told_of self.old)
            (told_of self.new)) }
        ensures failing { is_err result ≡ fails_next self.old.failing (length bytes.now) }
        ensures counts { self.new.failing ≡ counted self.old.failing (length bytes.now) }
    {
        let passage = last_of(&self.passages);
        if self.failures.pass(bytes.len() as u64).is_err() {
            self.up = false;
            let failed = Passage {
                failed: true,
                ..passage
            };
            put_last(&mut self.passages, failed);
            return Err(GateFault);
        }
        match self.written.extend_from_slice(bytes) {
            Ok(()) => {}
            Err(_) => unreachable!(),
        }
        let wrote = Passage {
            size: passage.size + bytes.len(),
            ..passage
        };
        put_last(&mut self.passages, wrote);
        Ok(bytes.len())
    }

    fn hang_up(&mut self)
        ensures hangs_up { HangsUp (told_of self.old) (told_of self.new) }
        ensures failing { self.new.failing ≡ self.old.failing }
    {
        self.up = false;
    }
}
