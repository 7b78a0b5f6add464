//! An installation over a connection that breaks after each number of bytes.

use crate::calls::{run_device, run_host};
use crate::cutting::Cutting;
use fb_frame::memory_sink::MemorySink;
use std::fs;

/// How many bytes the programs print at most.
const ROOM: usize = 65_536;

/// Where an installation breaks: after these numbers of bytes of its first connection.
#[derive(Clone, Copy)]
pub struct Range {
    pub first: u64,
    pub last: u64,
    pub step: u64,
}

/// What an installation on a copy of an image prints where its first connection breaks after so many bytes, and
/// what is shown of the device that it leaves.
fn tried(
    rt: &HostRuntime,
    fresh: &str,
    image: &str,
    words: &[String],
    place: u64,
) -> anyhow::Result<MemorySink> {
    let alloc = rt.alloc();
    fs::copy(rt, fresh, image)?;
    let mut cutting = Cutting::new(alloc);
    cutting.breaks.push(Some(place))?;
    let mut out = MemorySink::new(alloc, ROOM)?;
    let _status = run_host(rt, words, &mut cutting, &mut out)?;
    let mut show = Vec::new(alloc);
    show.push("show".to_string(alloc)?)?;
    show.push(image.to_string(alloc)?)?;
    let _status = run_device(rt, show.as_slice(), &mut out)?;
    Ok(out)
}

/// Shows what comes of an installation, each outcome once with the numbers of bytes that it comes of.
pub fn run_each(
    rt: &HostRuntime,
    fresh: &str,
    image: &str,
    words: &[String],
    range: &Range,
) -> anyhow::Result<()> {
    let step = range.step.max(1);
    let mut begun = range.first;
    let mut text = tried(rt, fresh, image, words, begun)?;
    let mut place = range.first;
    while place < range.last {
        let next = place.saturating_add(step).min(range.last);
        let other = tried(rt, fresh, image, words, next)?;
        if other.text() != text.text() {
            show(rt, begun, place, &text)?;
            text = other;
            begun = next;
        }
        place = next;
    }
    show(rt, begun, place, &text)
}

/// Shows one outcome, with the first and the last number of bytes that it comes of.
fn show(rt: &HostRuntime, first: u64, last: u64, text: &MemorySink) -> anyhow::Result<()> {
    println!(rt; "{first} to {last}")?;
    for line in text.text().split(|byte| *byte == b'\n') {
        let Ok(line) = str::from_utf8(line) else {
            continue;
        };
        if !line.is_empty() {
            println!(rt; "  {line}")?;
        }
    }
    Ok(())
}
