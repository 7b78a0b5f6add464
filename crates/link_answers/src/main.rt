//! Says what a host meets over links that are written down. A line of the input is a case: what the peer does, ` / `
//! and the calls of the host, all with one space between them; or `loopback`, a connection over TCP on this
//! machine; or a title after `#`.
//!
//! What the peer does, where the first connection is the one that its first bytes are of:
//!
//! - `+TEXT`: these bytes; `head:N`: the head of a frame of N bytes; `lines:N`: N frames of `INFOx`; every other
//!   word is a frame of its bytes
//! - `cut:N`: the connection gives its first N bytes alone, and ends
//! - `next`: these were all bytes of the connection, and those of the next one follow
//! - `size:N`: at most so many bytes come at once; several sizes hold in turn
//! - `fails:N`: this call of the port fails; each `connect` takes two, to aim and to connect, then the handshake
//!   is sent and heard, and a command and each reply take two, for the head and for the payload
//! - `room:N`: the lines that are shown have room for N bytes, 100,000 where it isn't said
//!
//! The calls: `connect`, `getvar:NAME`, `download:N`, `write:TEXT`, `apart:TEXT` (a frame of data over the port
//! itself), `finish`, `hang-up`, `abandon`, and `load:TEXT` (a connection, two questions and a download at once).
//! One that isn't due in the connection's state is `unfit`.
//!
//! Each call's answer is a line; then stand the lines that were shown, and for each connection the bytes that
//! were sent in it. A byte that isn't printed stands as `\x` with its two digits.
#![tactic(auto)]

mod call;
mod caller;
mod came;
mod case;
mod escaped;
mod host;
mod loopback;
mod script;

use crate::case::Case;
use crate::script::Script;
use anyhow::bail;
use std::alloc::{AllocError, Global};
use std::io::{BufRead, BufReader};

/// The script that words tell.
fn script_of(alloc: Global, words: &str) -> Result<Script, AllocError> {
    let mut script = Script::new(alloc);
    for word in words.split(' ') {
        script.take(alloc, word)?;
    }
    script.end(alloc)?;
    Ok(script)
}

/// Makes the calls over a script, and prints what came of them.
fn run_case<R: Print + Alloc<A = Global>>(rt: &R, peer: &str, calls: &str) -> anyhow::Result<()> {
    let script = script_of(rt.alloc(), peer)?;
    let mut case = Case::new(rt.alloc(), script)?;
    case.take_all(rt, calls)?;
    case.print_shown(rt)?;
    case.print_sent(rt)
}

/// Does what a line says.
fn run_line(rt: &HostRuntime, line: &str) -> anyhow::Result<()> {
    if line == "loopback" {
        return loopback::run(rt);
    }
    match line.split_once(" / ") {
        Some((peer, calls)) => run_case(rt, peer, calls),
        None if line.starts_with("#") => Ok(()),
        None => bail!("no case"),
    }
}

fn main(rt: HostRuntime) -> anyhow::Result<()> {
    let alloc = rt.alloc();
    for line in BufReader::new(alloc, rt.reader())?.lines(alloc) {
        let line = line?;
        println!(rt; "> {line}")?;
        run_line(&rt, line.as_str())?;
    }
    Ok(())
}
