use crate::cuttings::{Cutting, answers_of};
use crate::device_lines::mode_of;
use crate::image::{disk_of, mode_in, opening_calls, stands_for};
use crate::payloads::payload_of;
use crate::steps::{lead, step_of};
use dev_model::device::{Dev, Mode};
use dev_model::step::Step;
use fb_frame::framing::frame_head;
use fb_frame::memory::Memory;
use std::alloc::{AllocError, Global};
use std::fs;
use std::rt::Files;
use wire_model::served::Served1;
use wire_model::serves::serves;

/// What either end says first (fastboot README, TCP).
const HANDSHAKE: &[u8] = b"FB01";

/// A session: what a host sends, and what the device answers, is and holds after it.
#[derive(Drop)]
pub struct Session {
    pub title: String,
    sent: Vec<u8>,
    answered: Vec<u8>,
    closes: bool,
    waits: bool,
    mode: Option<Mode>,
    left: Option<Vec<u8>>,
    steps: Vec<Step>,
    fails: Option<u64>,
    opens: Option<Mode>,
}

fn add_frame(stream: &mut Vec<u8>, payload: &[u8]) -> Result<(), AllocError> {
    let head = frame_head(payload.len() as u64);
    stream.extend_from_slice(head.as_slice())?;
    stream.extend_from_slice(payload)?;
    Ok(())
}

impl Session {
    /// A session of handshakes alone, after which the connection is open.
    pub fn new(alloc: Global, title: &str) -> Result<Session, AllocError> {
        Ok(Session {
            title: String::from_str(alloc, title)?,
            sent: Vec::from_slice(alloc, HANDSHAKE)?,
            answered: Vec::from_slice(alloc, HANDSHAKE)?,
            closes: false,
            waits: false,
            mode: None,
            left: None,
            steps: Vec::new(alloc),
            fails: None,
            opens: None,
        })
    }

    /// Takes a line of a session into it. False where it's none.
    pub fn take<R: Files + Alloc<A = Global>>(
        &mut self,
        rt: &R,
        word: &str,
        text: &str,
    ) -> anyhow::Result<bool> {
        if let Some(payload) = payload_of(rt, word, text)? {
            add_frame(&mut self.sent, payload.as_slice())?;
            return Ok(true);
        }
        if let Some(step) = step_of(rt, word, text)? {
            self.steps.push(step)?;
            return Ok(true);
        }
        match word {
            "handshake" => return self.shake(rt.alloc(), text),
            "answers" => add_frame(&mut self.answered, text.as_bytes())?,
            "leaves-file" => self.left = Some(fs::read(rt, text)?),
            "leaves-mode" => return Ok(self.leave_mode(text)),
            "fails" | "opens-in" => return Ok(self.fail(word, text)),
            _ => return Ok(self.mark(word, text)),
        }
        Ok(true)
    }

    /// Another handshake of the host's, before all else that it sends.
    fn shake(&mut self, alloc: Global, text: &str) -> anyhow::Result<bool> {
        if self.sent.as_slice() != HANDSHAKE {
            return Ok(false);
        }
        self.sent = Vec::from_slice(alloc, text.as_bytes())?;
        Ok(true)
    }

    fn leave_mode(&mut self, text: &str) -> bool {
        self.mode = mode_of(text);
        self.mode.is_some()
    }

    /// Takes a line of a session whose disk fails.
    fn fail(&mut self, word: &str, text: &str) -> bool {
        if word == "fails" {
            self.fails = text.parse().ok();
            return self.fails.is_some();
        }
        self.opens = mode_of(text);
        self.opens.is_some()
    }

    /// Takes a line of one word.
    fn mark(&mut self, word: &str, text: &str) -> bool {
        match (word, text) {
            ("closes", "") => self.closes = true,
            ("waits", "") => self.waits = true,
            _ => return false,
        }
        true
    }

    /// What isn't as the session says, with the device as it is before it, and the image that stands for it.
    pub fn flaw(
        &self,
        alloc: Global,
        dev: &Dev,
        image: Option<&[u8]>,
    ) -> anyhow::Result<Option<&'static str>> {
        if let Some(call) = self.fails {
            return self.flaw_failing(alloc, image.unwrap_or(b""), call);
        }
        if self.waits && !waits(alloc, dev, self.sent.as_slice())? {
            return Ok(Some("the device doesn't wait for the last byte"));
        }
        let served = serves(alloc, dev, self.sent.as_slice())?;
        let steps = self.steps.as_slice();
        if !steps.is_empty() && !lead(alloc, steps, dev, &served.after)? {
            return Ok(Some("the steps lead elsewhere"));
        }
        match (self.flaw_of(&served), image) {
            (None, Some(image)) => self.flaw_over(alloc, image, &served),
            (flaw, _) => Ok(flaw),
        }
    }

    /// What a device over the image does otherwise than it should, however the bytes are cut.
    fn flaw_over(
        &self,
        alloc: Global,
        image: &[u8],
        served: &Served1,
    ) -> anyhow::Result<Option<&'static str>> {
        if !self.is_answered(alloc, image, served, Cutting::Whole)? {
            return Ok(Some("the device over an image answers otherwise"));
        }
        if !self.is_answered(alloc, image, served, Cutting::Bytes)? {
            return Ok(Some("the device over an image answers otherwise byte by byte"));
        }
        if !self.is_answered(alloc, image, served, Cutting::Drawn(2026))? {
            return Ok(Some("the device over an image answers otherwise in pieces"));
        }
        Ok(None)
    }

    /// What a device over the image does otherwise than it should, where a call of its disk fails: the one of this
    /// number behind those that opening takes.
    fn flaw_failing(
        &self,
        alloc: Global,
        image: &[u8],
        call: u64,
    ) -> anyhow::Result<Option<&'static str>> {
        let call = opening_calls(alloc, image)?.saturating_add(call);
        let disk = disk_of(alloc, image, call)?;
        let Some(outcome) = answers_of(alloc, disk, self.sent.as_slice(), Cutting::Whole)? else {
            return Ok(Some("there is no device over an image"));
        };
        if outcome.out.as_slice() != self.answered.as_slice() {
            return Ok(Some("the device answers otherwise"));
        }
        if outcome.closed != self.closes {
            return Ok(Some("the connection ends otherwise"));
        }
        if mode_in(alloc, &outcome.disk)? != self.opens {
            return Ok(Some("the image opens otherwise"));
        }
        Ok(None)
    }

    /// Whether a device over the image answers the bytes, cut in this way, as the device that is defined, and
    /// leaves the same.
    fn is_answered(
        &self,
        alloc: Global,
        image: &[u8],
        served: &Served1,
        cutting: Cutting,
    ) -> anyhow::Result<bool> {
        let disk = disk_of(alloc, image, 0)?;
        match answers_of(alloc, disk, self.sent.as_slice(), cutting)? {
            None => Ok(false),
            Some(answered) => Ok(
                answered.out.as_slice() == served.out.as_slice()
                    && answered.closed == served.closed
                    && stands_for(alloc, answered.disk, &served.after)?,
            ),
        }
    }

    fn flaw_of(&self, served: &Served1) -> Option<&'static str> {
        if served.out.as_slice() != self.answered.as_slice() {
            return Some("the device answers otherwise");
        }
        if self.closes && !served.closed {
            return Some("the connection stays open");
        }
        if served.closed && !self.closes {
            return Some("the connection is closed");
        }
        if !self.mode.is_none_or(|mode| mode == served.after.mode) {
            return Some("the device is in another mode");
        }
        if !self.is_left(&served.after) {
            return Some("the partition holds other bytes");
        }
        None
    }

    /// Whether the device's one partition holds what the session says.
    fn is_left(&self, dev: &Dev) -> bool {
        match (&self.left, dev.physical.as_slice()) {
            (None, _) => true,
            (Some(left), [part]) => part.bytes.as_slice() == left.as_slice(),
            _ => false,
        }
    }
}

/// Whether the device answers its handshake alone to each front of these bytes.
fn waits(alloc: Global, dev: &Dev, sent: &[u8]) -> Result<bool, Memory> {
    for n in 0..sent.len() {
        let served = serves(alloc, dev, &sent[..n])?;
        if served.out.as_slice() != HANDSHAKE {
            return Ok(false);
        }
    }
    Ok(true)
}
