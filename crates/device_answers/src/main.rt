//! Holds sessions that stand in tables: what a device answers to what a host sends.
//!
//! The words of the command line are tables: texts whose lines, but empty ones and those that begin with
//! `#`, say a word and what belongs to it. First they describe a device, a field each:
//!
//! - `product TEXT`, `serial TEXT`, `variable NAME TEXT`, `max-download-size BYTES`
//! - `mode MODE`: bootloader, userspace, system or recovery
//! - `slots COUNT`, `retries COUNT` (of each slot)
//! - `physical NAME BYTES`: a partition, which is full of 0xEE
//! - `super NAME`, `super-size BYTES`, `unit BYTES`, `units COUNT`, `table-size BYTES`, `table-slots COUNT`
//! - `group NAME BYTES`: the most that the group's partitions may have, 0 without such a bound
//! - `locked`: without this line the device is unlocked
//! - `image`, behind all of these: an image in memory stands for the device as well, and each session is held by
//!   it too, by a device's session over it, with the bytes whole, one by one, and in pieces of drawn lengths
//!
//! Each `session TITLE` after them meets the device as it was described. Its lines:
//!
//! - `handshake TEXT`: what the host sends first, `FB01` where it isn't said
//! - `sends TEXT`, `sends-times COUNT BYTE`, `sends-file FILE`, `sends-sized FILE COUNT`,
//!   `sends-spoilt FILE PLACE BYTE`: a frame from the host, with the text, a byte so often, a file, a file
//!   cut or filled up with zeros to so many bytes, or a file with another byte at a place
//! - `answers TEXT`: a frame of this payload from the device. No others may come
//! - `closes`: the connection is closed at the end, and else it's open
//! - `waits`: until the last byte, the device says its handshake alone
//! - `leaves-mode MODE`, `leaves-file FILE`: the device's mode, and its one partition's bytes, at the end
//! - `fails COUNT`: of the device over an image alone, whose disk fails once, at its call of this number after opening; and then
//!   `opens-in MODE`: in which mode the image opens that is left
//! - `puts NAME FILE`, `wipes NAME`, `resizes NAME BYTES`, `boots MODE`: a step of an installation; these steps, run
//!   over the device as it was, lead to the device that the session leaves
#![tactic(auto)]

mod cuttings;
mod device_lines;
mod image;
mod layout_text;
mod payloads;
mod session;
mod steps;
mod table;

use crate::table::Table;
use std::alloc::Global;
use std::rt::{Env, Files};
use std::{env, fs};

/// Holds the sessions of a file, and prints how many are held.
fn hold<R: Files + Print + Alloc<A = Global>>(rt: &R, file: &str) -> anyhow::Result<()> {
    let text = fs::read_to_string(rt, file)?;
    let mut table = Table::new(rt.alloc(), file);
    for line in text.lines() {
        table.take(rt, line)?;
    }
    table.end(rt)?;
    println!(rt; "{table}")?;
    Ok(())
}

fn main(rt: HostRuntime) -> anyhow::Result<()> {
    for file in env::args(&rt)?.skip(1) {
        hold(&rt, file.as_str())?;
    }
    Ok(())
}
