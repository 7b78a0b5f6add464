ghost use Rattle.std.specs.Prelude.{◌≤◌, All, IfOk};

use fb_frame::framing::frame_head;
use fb_frame::memory::Memory;
use fb_link::script_port::ScriptPort;
use std::alloc::{AllocError, Global};

/// How many bytes of a host are kept.
const KEPT: usize = 1_000;

/// A word with a number.
#[derive(Clone, Copy)]
enum Numbered {
    Head(u32),
    Lines(u32),
    Cut(u32),
    Size(u32),
    Fails(u32),
    Room(u32),
}

/// Reads a word with a number.
fn read(word: &str) -> Option<Numbered> {
    let (kind, number) = word.split_once(":")?;
    let number = number.parse().ok()?;
    match kind {
        "head" => Some(Numbered::Head(number)),
        "lines" => Some(Numbered::Lines(number)),
        "cut" => Some(Numbered::Cut(number)),
        "size" => Some(Numbered::Size(number)),
        "fails" => Some(Numbered::Fails(number)),
        "room" => Some(Numbered::Room(number)),
        _ => None,
    }
}

/// What the peer of a case does: the bytes of each connection, how they are cut, which calls fail, and the room
/// for lines.
#[derive(Drop)]
pub struct Script {
    pub connections: Vec<Vec<u8>>,
    pub room: usize,
    current: Vec<u8>,
    sizes: Vec<u32>,
    fails: Vec<u64>,
}

fn add_frame(bytes: &mut Vec<u8>, payload: &[u8]) -> Result<(), AllocError> {
    bytes.extend_from_slice(&frame_head(payload.len() as u64))?;
    bytes.extend_from_slice(payload)
}

/// Frames of a line as many times.
fn add_lines(bytes: &mut Vec<u8>, count: u32) -> Result<(), AllocError> {
    for _ in 0..count {
        add_frame(bytes, b"INFOx")?;
    }
    Ok(())
}

/// The sizes, each at least 1.
fn bounds(alloc: Global, sizes: &[u32]) -> Result<Vec<u32>, AllocError>
    ensures { IfOk result (λ bounds. All (λ size. 1 ≤ size) bounds.items) }
{
    let mut bounds = Vec::new(alloc);
    for size in sizes {
        bounds.push((*size).max(1))?;
    }
    Ok(bounds)
}

impl Script {
    /// A peer that says nothing.
    pub fn new(alloc: Global) -> Script {
        Script {
            connections: Vec::new(alloc),
            room: 100_000,
            current: Vec::new(alloc),
            sizes: Vec::new(alloc),
            fails: Vec::new(alloc),
        }
    }

    /// Takes a word of what the peer does.
    pub fn take(&mut self, alloc: Global, word: &str) -> Result<(), AllocError> {
        if word == "next" {
            return self.end(alloc);
        }
        match (read(word), word.strip_prefix("+")) {
            (Some(numbered), _) => self.take_number(numbered),
            (None, Some(text)) => self.current.extend_from_slice(text.as_bytes()),
            (None, None) => add_frame(&mut self.current, word.as_bytes()),
        }
    }

    fn take_number(&mut self, word: Numbered) -> Result<(), AllocError> {
        match word {
            Numbered::Head(count) => self
                .current
                .extend_from_slice(&frame_head(u64::from(count))),
            Numbered::Lines(count) => add_lines(&mut self.current, count),
            Numbered::Size(size) => self.sizes.extend_from_slice(&[size]),
            Numbered::Fails(call) => self.fails.extend_from_slice(&[u64::from(call)]),
            Numbered::Cut(count) => {
                self.current.truncate(count as usize);
                Ok(())
            }
            Numbered::Room(count) => {
                self.room = count as usize;
                Ok(())
            }
        }
    }

    /// Ends the connection whose bytes were told last.
    pub fn end(&mut self, alloc: Global) -> Result<(), AllocError> {
        let bytes = self.current.as_slice().to_vec(alloc)?;
        self.current.clear();
        self.connections.push(bytes)?;
        Ok(())
    }

    /// The port of these connections.
    pub fn into_port(self, alloc: Global) -> Result<ScriptPort, Memory> {
        let sizes = bounds(alloc, self.sizes.as_slice()).map_err(|_| Memory)?;
        ScriptPort::new(alloc, self.connections, sizes, self.fails, KEPT)
    }
}
