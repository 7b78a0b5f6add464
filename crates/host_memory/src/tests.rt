ghost use Rattle.std.specs.Prelude.{◌≤◌, All, IfOk};

use crate::rehearse::{Rehearsed, rehearse};
use dev_disk::memory::MemoryDisk;
use dev_store::layout::read_layout;
use dev_store::make::make;
use fb_frame::memory_sink::MemorySink;
use flash_plan::memory_dir::{DirFile, MemoryDir};
use std::alloc::{AllocError, Global};
use std::test::Fail;

/// A disk with the image of a plain device, unlocked.
fn plain_disk(alloc: Global) -> Result<MemoryDisk, Fail> {
    let mut disk = MemoryDisk::new(alloc, Vec::new(alloc))?;
    let text =
        b"fbdevice 1\nproduct falcon\nserialno S1\nslots 0\nmax-download 131072\npartition boot 16384\n";
    let Ok(layout) = read_layout(alloc, text) else {
        return Err(Fail::from("a layout"));
    };
    make(alloc, &mut disk, "DEV", &layout, true)?;
    Ok(disk)
}

fn file(alloc: Global, name: &str, bytes: &[u8]) -> Result<DirFile, AllocError> {
    Ok(DirFile {
        name: name.to_string(alloc)?,
        bytes: bytes.to_vec(alloc)?,
    })
}

/// A folder `out` of a product that flashes `boot`.
fn folder(alloc: Global) -> Result<MemoryDir, Fail> {
    let mut files = Vec::new(alloc);
    files.push(file(alloc, "android-info.txt", b"")?)?;
    files.push(file(alloc, "fastboot-info.txt", b"version 1\nflash boot\n")?)?;
    files.push(file(alloc, "boot.img", &[0x11; 4096])?)?;
    Ok(MemoryDir::new(alloc, "out", files, Vec::new(alloc))?)
}

fn threes(alloc: Global) -> Result<Vec<u32>, Fail>
    ensures { IfOk result (λ sizes. All (λ size. 1 ≤ size) sizes.items) }
{
    let mut sizes = Vec::new(alloc);
    sizes.push(3)?;
    Ok(sizes)
}

/// A rehearsal by these words, in threes of bytes, whose first connection breaks after so many bytes.
fn rehearsed(
    alloc: Global,
    words: &str,
    bound: Option<u64>,
    out: &mut MemorySink,
) -> Result<Rehearsed, Fail> {
    let mut list = Vec::new(alloc);
    for word in words.split(' ') {
        list.push(word.to_string(alloc)?)?;
    }
    let mut breaks = Vec::new(alloc);
    breaks.push(bound)?;
    let mut dir = folder(alloc)?;
    let disk = plain_disk(alloc)?;
    Ok(rehearse(
        alloc,
        list.as_slice(),
        &mut dir,
        disk,
        threes(alloc)?,
        breaks,
        out,
    ))
}

/// The status, how many calls met a break, and the text.
fn report(alloc: Global, words: &str, bound: Option<u64>) -> Result<String, Fail> {
    let mut out = MemorySink::new(alloc, 1000)?;
    let done = rehearsed(alloc, words, bound, &mut out)?;
    let Ok(text) = str::from_utf8(out.text()) else {
        return Err(Fail::from("no text"));
    };
    Ok(format!(in alloc; "{} {} {text}", done.status, done.broken)?)
}

#[test]
fn installs_in_memory(rt: HostRuntime) -> Result<(), Fail> {
    let alloc = rt.alloc();
    for (words, bound, expected) in [
        (
            "-s image:DEV flashall out",
            None,
            "0 0 flash boot 4096\nreboot system\ndone 2\n",
        ),
        ("-s image:DEV flashall out", Some(300), "6 1 error link\n"),
        (
            "-s image:DEV --retries 1 flashall out",
            Some(300),
            "0 1 retry 1\nflash boot 4096\nreboot system\ndone 2\n",
        ),
        ("-s image:DEV flashall in", None, "3 0 error directory in\n"),
        ("-s image:OTHER flashall out", None, "6 0 error link\n"),
        ("-s tcp:localhost flashall out", None, "6 0 error link\n"),
    ] {
        assert_eq!(rt; report(alloc, words, bound)?.as_str(), expected);
    }
    Ok(())
}
