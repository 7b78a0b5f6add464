use crate::lines::Lines;
use crate::written::gives;
use fb_frame::tables::Tables;
use std::alloc::Global;
use super_meta::errors::{MetaError, ReadError};
use super_meta::geometry::{Geometry, read_geometry, write_geometry};
use super_meta::held::{tables_flaw, tables_of_image};
use super_meta::image::{TableRoom, read_empty_image};
use super_meta::reading::read_table;
use super_meta::table::Table;

/// What became of reading bytes.
#[derive(Clone, Copy)]
pub enum Verdict {
    Good,
    Flaw(MetaError),
    /// Two readings differ, or what was read isn't written as it was.
    Otherwise,
}

impl Verdict {
    fn of(is_good: bool) -> Verdict {
        if is_good {
            Verdict::Good
        } else {
            Verdict::Otherwise
        }
    }

    /// Whether a text tells it: `ok`, or the flaw's name.
    pub fn is(&self, alloc: Global, text: &str) -> anyhow::Result<bool> {
        match self {
            Verdict::Good => Ok(text == "ok"),
            Verdict::Flaw(flaw) => {
                let name = format!(in alloc; "{flaw}")?;
                Ok(name.as_str() == text)
            }
            Verdict::Otherwise => Ok(false),
        }
    }
}

/// Whether a geometry is written as these bytes, and zeros behind them.
fn gives_geometry(geometry: &Geometry, bytes: &[u8]) -> bool {
    let mut block = [0xEE; 4096];
    if !geometry.is_good() {
        return false;
    }
    write_geometry(geometry, &mut block);
    match block.as_slice().split_at_checked(bytes.len()) {
        Some((front, rest)) => front == bytes && rest.iter().all(|b| *b == 0),
        None => false,
    }
}

/// Reads a geometry.
pub fn geometry(bytes: &[u8], lines: &mut Lines) -> anyhow::Result<Verdict> {
    match read_geometry(bytes) {
        Err(flaw) => Ok(Verdict::Flaw(flaw)),
        Ok(geometry) => {
            lines.add_geometry(&geometry)?;
            Ok(Verdict::of(gives_geometry(&geometry, bytes)))
        }
    }
}

/// Reads a table.
pub fn table(alloc: Global, bytes: &[u8], lines: &mut Lines) -> anyhow::Result<Verdict> {
    match read_table(alloc, bytes) {
        Err(ReadError::Bad(flaw)) => Ok(Verdict::Flaw(flaw)),
        Err(ReadError::Memory) => Ok(Verdict::Otherwise),
        Ok(table) => {
            lines.add_table(&table)?;
            Ok(Verdict::of(gives(alloc, &table, bytes)?))
        }
    }
}

/// Whether an image is read into a room as it was read by itself.
fn fills_room(
    alloc: Global,
    bytes: &[u8],
    geometry: &Geometry,
    table: &Table,
) -> anyhow::Result<bool> {
    let mut room = TableRoom::new(alloc)?;
    if bytes.len() > 131_072 {
        return Ok(true);
    }
    match room.read(bytes) {
        Ok(read) => Ok(read == *geometry && room.table().says_same(table)),
        Err(_) => Ok(false),
    }
}

/// Whether reading an image into a room finds the same flaw.
fn finds_in_room(alloc: Global, bytes: &[u8], flaw: MetaError) -> anyhow::Result<bool> {
    let mut room = TableRoom::new(alloc)?;
    if bytes.len() > 131_072 {
        return Ok(true);
    }
    Ok(room.read(bytes) == Err(flaw))
}

/// Reads an image of an empty super, by itself and into a room.
pub fn image(alloc: Global, bytes: &[u8], lines: &mut Lines) -> anyhow::Result<Verdict> {
    match read_empty_image(alloc, bytes) {
        Err(ReadError::Memory) => Ok(Verdict::Otherwise),
        Err(ReadError::Bad(flaw)) => match finds_in_room(alloc, bytes, flaw)? {
            true => Ok(Verdict::Flaw(flaw)),
            false => Ok(Verdict::Otherwise),
        },
        Ok((geometry, table)) => {
            lines.add_geometry(&geometry)?;
            lines.add_table(&table)?;
            Ok(Verdict::of(fills_room(alloc, bytes, &geometry, &table)?))
        }
    }
}

fn add_tables(tables: &Tables, lines: &mut Lines) -> anyhow::Result<()> {
    for part in tables.partitions.as_slice() {
        lines.add_listed(part.name.bytes(), part.group.bytes())?;
    }
    for group in tables.groups.as_slice() {
        lines.add_limit(group.name.bytes(), group.limit)?;
    }
    lines.add_sizes(tables)
}

/// Reads the tables that an image of an empty super holds.
pub fn tables(alloc: Global, bytes: &[u8], lines: &mut Lines) -> anyhow::Result<Verdict> {
    match (tables_of_image(alloc, bytes)?, tables_flaw(alloc, bytes)?) {
        (Some(tables), None) => {
            add_tables(&tables, lines)?;
            Ok(Verdict::Good)
        }
        (None, Some(flaw)) => Ok(Verdict::Flaw(flaw)),
        (_, _) => Ok(Verdict::Otherwise),
    }
}
