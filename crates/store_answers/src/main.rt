//! Holds cases that stand in tables: what becomes of a device image, and what a store over it answers.
//!
//! The words of the command line are tables: texts whose lines, but empty ones and those that begin with
//! `#`, say a word and what belongs to it. `place NAME NUMBER` gives a place in images a name, and
//! `case TITLE` begins a case. Each other line does what its word says and answers; what it has to answer
//! stands after ` -> `, with ` or ` between what it may answer, and is `Ok` where nothing stands there. A
//! case begins without a layout and with an empty file. What a case keeps, later ones may begin with, in
//! later tables as well.
//!
//! A NUMBER is a sum as `units+4096`, of decimal numbers and names of places. BYTES are pieces, each after
//! one space: hexadecimal digits, `'` and a text, `u32:NUMBER` or `u64:NUMBER` with the lowest byte first,
//! or `COUNT*DIGITS` for the same bytes again and again.
//!
//! - `keeps NAME`, `from NAME`: keeps the layout and the file, begins with those that were kept
//! - `layout TEXT`, `layout-bytes BYTES`, `layout-lines COUNT WORD END`: a line of the layout, its bytes as
//!   they stand, or lines with a word, a name of their own and an end
//! - `layout-length`, `reads-layout`, `layout-says`: how many bytes the layout has, and what reading it
//!   answers: the image's length, or what it says; else the first bad line
//! - `make LOCK`: makes the image, `locked` or `unlocked`. `make-real LOCK PLACE BYTES`: makes it as a real
//!   file that holds the bytes at the place, and answers how long that is
//! - `blank COUNT`, `put PLACE BYTES`, `turn PLACE`, `cut COUNT`: the file is so many zeros, holds the bytes
//!   there, has one bit of a byte turned, ends after so many bytes
//! - `copy FROM COUNT TO`, `take NAME FROM COUNT`, `sum FROM COUNT TO`: puts bytes of the file elsewhere in
//!   it, those of a file that was kept at the same place, or their SHA-256 digest elsewhere
//! - `seal PLACE`: both digests of the table of logical partitions that begins there are made anew
//! - `holds PLACE BYTES`, `is NAME`, `length`, `digest`: looks at the file. `holds` answers `other bytes`
//!   where it doesn't, and `is` where the file first differs from the one that was kept
//! - `open`, `open-path PATH`, `close`: opens a store over the file, closes it. What uses the file closes it
//!   too, and so does a fault of the disk, but for one in a read; a store that isn't open answers `shut`
//! - `reads NAME AT BYTES`, `write NAME AT BYTES`, `fill NAME AT LENGTH BYTES`: of a partition. `reads`
//!   answers `other bytes` where it reads others; a fill is of four bytes, from a multiple of four on and for
//!   one, and else `unfit`, as a state is that the device can't have
//! - `create NAME SIZE`, `resize NAME SIZE`, `delete NAME`, `install NAME HOW`: of the table; installed is
//!   the file that was kept so, and HOW is `keep` or `wipe`. `create-many COUNT NAME`: so many of no bytes
//! - `set-state LOCK SLOT A B MODE`, `state`, `sync`: A and B are the flags of the slots, as `su7` where all
//!   are set, or `--0`; MODE is `bootloader` or `userspace`
//! - `size NAME`, `kind NAME`, `part NAME`, `group-of NAME`, `name PLACE`, `group PLACE`, `slots`,
//!   `max-download`, `table-version`, `free`, `value MODE NAME`, `variable MODE PLACE`: what a store tells
//! - `fails CALLS`, `fails-later CALLS`: the case is met once for each of these calls, as `3` or `1-12`. The
//!   disk of what is made or opened next fails in that one, counted from its first call, or from that after
//!   the opening
//!
//! Beside the image each disk holds another file, which no case may change.
#![tactic(auto)]

mod bytes;
mod calls;
mod case;
mod disks;
mod file_words;
mod kept;
mod layout_words;
mod making;
mod numbers;
mod open_store;
mod queries;
mod states;
mod table;
mod world;

use crate::kept::Kept;
use crate::table::Table;
use std::alloc::Global;
use std::fs::File;
use std::rt::{Env, Files};
use std::{env, fs};

/// Holds the cases of a file, and prints how many are held.
fn hold<R: Files<File = File> + Print + Alloc<A = Global>>(
    rt: &R,
    kept: &mut Kept,
    file: &str,
) -> anyhow::Result<()> {
    let text = fs::read_to_string(rt, file)?;
    let mut table = Table::new(rt.alloc(), file);
    for line in text.lines() {
        table.take(rt, kept, line)?;
    }
    table.end(rt, kept)?;
    println!(rt; "{table}")?;
    Ok(())
}

fn main(rt: HostRuntime) -> anyhow::Result<()> {
    let mut kept = Kept::new(rt.alloc());
    for file in env::args(&rt)?.skip(1) {
        hold(&rt, &mut kept, file.as_str())?;
    }
    Ok(())
}
