//! Rehearses both programs on files, and shows what each call prints and its status. A line of the input is one
//! call, or changes a file:
//!
//! - `fbdevice WORDS..`, `fbflash WORDS..`: the program's top call with these words
//! - `sizes COUNT..`: at most so many bytes pass at once in the connections of the next call of fbflash, in turn
//! - `breaks COUNT..`: its connections break after so many bytes, the first count for its first connection; `-`
//!   for one that doesn't break
//! - `append FILE COUNT BYTE`: so many times the byte is put behind what the file holds, or into a new one
//! - `text FILE WORDS..`: a line of text is put there
//! - `each FIRST LAST STEP FRESH IMAGE WORDS..`: fbflash with these words on a copy of an image, once for each
//!   number of bytes after which its first connection breaks, from the first one by steps to the last; each
//!   outcome is shown once, with the device that it leaves
//! - `served COUNT IMAGE WORDS..`: fbdevice serves the image over TCP to so many connections; the first only waits
//!   until it does, and the others are those of fbflash with these words, in a process of its own
//! - `spoil FILE PLACE BYTE`, `cut FILE COUNT`, `copy FILE OTHER`, `remove FILE`: the file gets another byte at
//!   a place, is cut to so many bytes, is copied, or is gone
//!
//! With words of its own the program is that process: fbflash with these words, over TCP.
#![tactic(auto)]

mod calls;
mod cutting;
mod each;
mod files;
mod over_tcp;

use crate::calls::{run_device, run_host};
use crate::cutting::{Cutting, breaks_of, sizes_of};
use crate::each::{Range, run_each};
use crate::over_tcp::{run_flash, run_served};
use fb_frame::write_sink::WriteSink;
use std::alloc::{AllocError, Global};
use std::io::{BufRead, BufReader};
use word_rules::arguments;

/// The words of a line.
fn words_of(alloc: Global, line: &str) -> Result<Vec<String>, AllocError> {
    let mut words = Vec::new(alloc);
    for word in line.split(' ') {
        words.push(word.to_string(alloc)?)?;
    }
    Ok(words)
}

/// An installation that breaks after each number of bytes.
fn run_breaks(rt: &HostRuntime, words: &[String]) -> anyhow::Result<()> {
    let [first, last, step, fresh, image, words @ ..] = words else {
        return Ok(());
    };
    let range = Range {
        first: first.as_str().parse::<u64>()?,
        last: last.as_str().parse::<u64>()?,
        step: step.as_str().parse::<u64>()?,
    };
    run_each(rt, fresh.as_str(), image.as_str(), words, &range)
}

/// An installation over TCP.
fn serve(rt: &HostRuntime, words: &[String]) -> anyhow::Result<()> {
    let [count, image, words @ ..] = words else {
        return Ok(());
    };
    run_served(rt, count.as_str(), image.as_str(), words)
}

/// Does what a line says.
fn run_line(rt: &HostRuntime, words: &[String], cutting: &mut Cutting) -> anyhow::Result<()> {
    let alloc = rt.alloc();
    let Some((first, rest)) = words.split_first() else {
        return Ok(());
    };
    match first.as_str() {
        "fbdevice" => {
            let status = run_device(rt, rest, &mut WriteSink::new(rt.stdout()))?;
            println!(rt; "{status}")?;
        }
        "fbflash" => {
            let status = run_host(rt, rest, cutting, &mut WriteSink::new(rt.stdout()))?;
            println!(rt; "{status}")?;
        }
        "each" => run_breaks(rt, rest)?,
        "served" => serve(rt, rest)?,
        "sizes" => cutting.sizes = sizes_of(alloc, rest)?,
        "breaks" => cutting.breaks = breaks_of(alloc, rest)?,
        word => files::change(rt, word, rest)?,
    }
    Ok(())
}

fn main(rt: HostRuntime) -> anyhow::Result<()> {
    let alloc = rt.alloc();
    let own = arguments::words_of(&rt)?;
    if !own.is_empty() {
        return run_flash(&rt, own.as_slice());
    }
    let mut cutting = Cutting::new(alloc);
    for line in BufReader::new(alloc, rt.reader())?.lines(alloc) {
        let line = line?;
        println!(rt; "> {line}")?;
        let words = words_of(alloc, line.as_str())?;
        run_line(&rt, words.as_slice(), &mut cutting)?;
    }
    Ok(())
}
