//! Holds cases of super's geometry and tables that stand in tables: what bytes are read as.
//!
//! The words of the command line are tables: texts whose lines, but empty ones and those that begin with `#`,
//! say a word and what belongs to it. Each case begins with its title and has some bytes:
//!
//! - `case TITLE`
//! - `file FILE`: the bytes are those of a file
//! - `from PLACE`, `long COUNT`: without those before a place; cut, or filled up with zeros, to so many
//! - `put PLACE HEX`: other bytes at a place
//! - `seal-geometry`: the geometry's digest is made anew
//! - `seal-header PLACE SIZE`, `seal-table PLACE SIZE`: the digest of the header of so many bytes of a table from
//!   a place on is made anew, and before it that of its lists too
//!
//! and what is read of them:
//!
//! - `geometry WHAT`, `table WHAT`, `image WHAT`, `tables WHAT`: a geometry, a table, an image of an empty super,
//!   the tables that such an image holds; `ok`, or the name of the first flaw
//! - `line TEXT`: the next line of what was read last is this one
//! - `end`: there is no further line
//!
//! A table that is read is sound, and written again it has the same bytes; in less room it isn't written.
#![tactic(auto)]

mod bytes;
mod case;
mod lines;
mod read;
mod table;
mod written;

use crate::table::Table;
use std::alloc::Global;
use std::rt::{Env, Files};
use std::{env, fs};

/// Holds the cases of a file, and prints how many are held.
fn hold<R: Files + Print + Alloc<A = Global>>(rt: &R, file: &str) -> anyhow::Result<()> {
    let text = fs::read_to_string(rt, file)?;
    let mut table = Table::new(file);
    for line in text.lines() {
        table.take(rt, line)?;
    }
    println!(rt; "{table}")?;
    Ok(())
}

fn main(rt: HostRuntime) -> anyhow::Result<()> {
    for file in env::args(&rt)?.skip(1) {
        hold(&rt, file.as_str())?;
    }
    Ok(())
}
