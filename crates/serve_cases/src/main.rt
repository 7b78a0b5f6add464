//! Calls of fbdevice over real files, with connections that were written down before. A line of the input is one
//! of these:
//!
//! - `connection ITEM..`: one more connection, which gives these bytes. `FB01` and other words of four bytes that
//!   begin with `FB` stand for themselves, `+TEXT` for the bytes of the text, `head:N` for the head of a frame of
//!   N bytes, and every other item for a frame of its bytes, in which `_` is a space
//! - `fails N..`: these calls of the gate fail, counted from 1 in the next call of fbdevice
//! - every other line: the words of a call of fbdevice, with the connections and failures that stand before it
//!
//! After each call stand its status and, for each connection, what was answered in it.
#![tactic(auto)]

#[cfg(test)]
mod tests;

use dev_disk::file::FileDisk;
use device_session::script_gate::ScriptGate;
use device_top::device::device_main;
use fb_frame::framing::frame_head;
use fb_frame::shown::add_shown;
use fb_frame::write_sink::WriteSink;
use std::alloc::{AllocError, Global};
use std::io::{BufRead, BufReader};

/// How many bytes a gate keeps that are written.
const ROOM: usize = 65_536;

/// Adds the bytes of an item.
fn add_item(item: &str, bytes: &mut Vec<u8>) -> Result<(), AllocError> {
    if let Some(text) = item.strip_prefix("+") {
        return bytes.extend_from_slice(text.as_bytes());
    }
    if item.len() == 4 && item.starts_with("FB") {
        return bytes.extend_from_slice(item.as_bytes());
    }
    if let Some(count) = item.strip_prefix("head:") {
        let count = count.parse::<u64>().unwrap_or(0);
        return bytes.extend_from_slice(&frame_head(count));
    }
    bytes.extend_from_slice(&frame_head(item.len() as u64))?;
    for byte in item.bytes() {
        bytes.push(if byte == b'_' { b' ' } else { byte })?;
    }
    Ok(())
}

/// What is written down for the next call.
#[derive(Drop)]
struct Script {
    connections: Vec<Vec<u8>>,
    fails: Vec<u64>,
}

impl Script {
    fn new(alloc: Global) -> Script {
        Script {
            connections: Vec::new(alloc),
            fails: Vec::new(alloc),
        }
    }

    /// Takes the items of a connection.
    fn connect(&mut self, alloc: Global, items: &str) -> Result<(), AllocError> {
        let mut bytes = Vec::new(alloc);
        for item in items.split(' ') {
            add_item(item, &mut bytes)?;
        }
        self.connections.push(bytes)?;
        Ok(())
    }

    /// Takes the numbers of calls that fail.
    fn fail(&mut self, numbers: &str) -> Result<(), AllocError> {
        for number in numbers.split(' ') {
            if let Ok(number) = number.parse::<u64>() {
                self.fails.push(number)?;
            }
        }
        Ok(())
    }
}

/// The words of a line.
fn words_of(alloc: Global, line: &str) -> Result<Vec<String>, AllocError> {
    let mut words = Vec::new(alloc);
    for word in line.split(' ') {
        words.push(word.to_string(alloc)?)?;
    }
    Ok(words)
}

/// Shows what was answered in each connection.
fn show(rt: &HostRuntime, gate: &ScriptGate, count: usize) -> anyhow::Result<()> {
    for k in 0..count {
        let mut line = Vec::new(rt.alloc());
        add_shown(&mut line, gate.written(u32::try_from(k)?))?;
        let text = String::from_utf8(line)?;
        println!(rt; "{k}: {text}")?;
    }
    Ok(())
}

/// Calls fbdevice with the words of a line.
fn call(rt: &HostRuntime, line: &str, script: Script) -> anyhow::Result<()> {
    let alloc = rt.alloc();
    let words = words_of(alloc, line)?;
    let count = script.connections.len();
    let mut gate = ScriptGate::new(
        alloc,
        script.connections,
        Vec::new(alloc),
        script.fails,
        ROOM,
    )?;
    let mut disk = FileDisk::new(rt);
    let mut out = WriteSink::new(rt.stdout());
    let status = device_main(alloc, words.as_slice(), &mut disk, &mut gate, &mut out);
    println!(rt; "{status}")?;
    show(rt, &gate, count)
}

fn main(rt: HostRuntime) -> anyhow::Result<()> {
    let alloc = rt.alloc();
    let mut script = Script::new(alloc);
    for line in BufReader::new(alloc, rt.reader())?.lines(alloc) {
        let line = line?;
        println!(rt; "> {line}")?;
        let text = line.as_str();
        if let Some(items) = text.strip_prefix("connection ") {
            script.connect(alloc, items)?;
        } else if let Some(numbers) = text.strip_prefix("fails ") {
            script.fail(numbers)?;
        } else {
            call(&rt, text, script)?;
            script = Script::new(alloc);
        }
    }
    Ok(())
}
