ghost use Rattle.std.specs.Prelude.{◌≡◌, ◌<◌, ◌≤◌, length, OnOk, OnErr, IfOk, IfErr, Ok, Err, vec_capacity};
ghost use Rattle.std.specs.Result.{IsErrOf, result_err};
ghost use Rattle.super_meta.specs.declared.errors.MetaError.{MetaError};
ghost use Rattle.super_meta.specs.declared.geometry.Geometry.{Geometry};
ghost use Rattle.super_meta.specs.Contents.{Content, content};
ghost use Rattle.super_meta.specs.TableText.{table_of, table_size};
ghost use Rattle.super_meta.specs.ImageText.{block_geometry, image_of};
ghost use Rattle.super_meta.specs.ImageBytes.{ImageBytes};

use crate::errors::{MetaError, ReadError};
use crate::geometry::{BLOCK, Geometry, read_geometry};
use crate::header::{EXTENT, GROUP, Header, PARTITION};
use crate::reading::read_table;
use crate::table::Table;
use fb_frame::memory::Memory;
use std::alloc::Global;
use std::marker::Model;

/// How many bytes an image of an empty super has at most, for which a room is made.
pub const LONGEST: usize = 131_072;

/// The geometry in the first block of an image.
fn block_geometry(bytes: &[u8]) -> Result<Geometry, MetaError>
    ensures geometry { result ≡ block_geometry bytes.now }
    ensures long { OnOk result (4096 ≤ length bytes.now) }
{
    if bytes.len() < BLOCK {
        return Err(MetaError::ShortInput);
    }
    let geometry = read_geometry(&bytes[..BLOCK])?;
    Ok(geometry)
}

/// The geometry and the table of an image of an empty super, or the first thing that is wrong with it.
fn image_in(alloc: Global, bytes: &[u8]) -> Result<(Geometry, Table), ReadError>
    ensures image { IfOk result (λ image. image_of bytes.now ≡ Ok (image.0, content image.1)) }
    ensures flaw { (flaw : MetaError) → IsErrOf result (ReadError.Bad flaw) → image_of bytes.now ≡ Err flaw }
{
    let geometry = match block_geometry(bytes) {
        Ok(geometry) => geometry,
        Err(flaw) => return Err(ReadError::Bad(flaw)),
    };
    let rest = &bytes[BLOCK..];
    let table = match read_table(alloc, rest) {
        Ok(table) => table,
        Err(error) => return Err(error),
    };
    if rest.len() != table.size() {
        return Err(ReadError::Bad(MetaError::BadSize));
    }
    Ok((geometry, table))
}

/// The geometry and the table of an image of an empty super, or the first thing that is wrong with it, in
/// the order of the errors' numbers, where a length other than that of both parts comes last.
pub fn read_empty_image(alloc: Global, bytes: &[u8]) -> Result<(Geometry, Table), ReadError>
    ensures image { IfOk result (λ image. image_of bytes.now ≡ Ok (image.0, content image.1)) }
    ensures flaw { (flaw : MetaError) → IsErrOf result (ReadError.Bad flaw) → image_of bytes.now ≡ Err flaw }
    ensures found { IfOk result (λ image. ImageBytes image.0 (content image.1) bytes.now) }
    ensures only { (flaw : MetaError) → IsErrOf result (ReadError.Bad flaw)
        → (g : Geometry) (c : Content) → ¬ ImageBytes g c bytes.now }
{
    image_in(alloc, bytes)
}

/// Room for the geometry and the table of any image of an empty super of at most 131,072 bytes.
/// Contracts see what the table in it says.
#[derive(Debug, Drop)]
pub struct TableRoom {
    table: Table,
}

impl Model for TableRoom {
    ghost use Rattle.std.specs.Prelude.{◌≤◌, vec_capacity};
    ghost use Rattle.super_meta.specs.Contents.{Content, content};

    ghost Value = { Content };

    ghost view = { λ room. content room.table };

    ghost invariant = { λ room.
        (2520 ≤ vec_capacity room.table.partitions) × (5461 ≤ vec_capacity room.table.extents)
        × (2730 ≤ vec_capacity room.table.groups) };
}

impl Table {
    /// Reads the table with which the bytes begin into the lists, which have room for it.
    fn read_from(&mut self, bytes: &[u8]) -> Result<(), MetaError>
        requires short { length bytes.now ≤ 131072 }
        requires partitions { 2520 ≤ vec_capacity self.old.partitions }
        requires extents { 5461 ≤ vec_capacity self.old.extents }
        requires groups { 2730 ≤ vec_capacity self.old.groups }
        ensures flaw { result_err result ≡ result_err (table_of bytes.now) }
        ensures table { OnOk result (table_of bytes.now ≡ Ok (content self.new)) }
        ensures end { OnOk result (table_size (content self.new) ≤ length bytes.now) }
        ensures partitions { vec_capacity self.new.partitions ≡ vec_capacity self.old.partitions }
        ensures extents { vec_capacity self.new.extents ≡ vec_capacity self.old.extents }
        ensures groups { vec_capacity self.new.groups ≡ vec_capacity self.old.groups }
    {
        let header = Header::read(bytes)?;
        self.take_from(bytes, &header)?;
        Ok(())
    }
}

impl TableRoom {
    /// An empty room.
    pub fn new(alloc: Global) -> Result<TableRoom, Memory> {
        let partitions = LONGEST / PARTITION;
        let extents = LONGEST / EXTENT;
        let groups = LONGEST / GROUP;
        let table = Table::with_room(alloc, partitions, extents, groups).map_err(|_| Memory)?;
        Ok(TableRoom { table })
    }

    /// Reads an image into the room.
    fn take_image(&mut self, bytes: &[u8]) -> Result<Geometry, MetaError>
        requires short { length bytes.now ≤ 131072 }
        ensures table { IfOk result (λ geometry. image_of bytes.now ≡ Ok (geometry, self.new)) }
        ensures flaw { result_err result ≡ result_err (image_of bytes.now) }
    {
        let geometry = block_geometry(bytes)?;
        let rest = &bytes[BLOCK..];
        self.table.read_from(rest)?;
        if rest.len() != self.table.size() {
            return Err(MetaError::BadSize);
        }
        Ok(geometry)
    }

    /// Reads an image of an empty super of at most 131,072 bytes, as `read_empty_image` does, without
    /// taking memory.
    pub fn read(&mut self, bytes: &[u8]) -> Result<Geometry, MetaError>
        requires short { length bytes.now ≤ 131072 }
        ensures table { IfOk result (λ geometry. image_of bytes.now ≡ Ok (geometry, self.new)) }
        ensures flaw { result_err result ≡ result_err (image_of bytes.now) }
        ensures found { IfOk result (λ geometry. ImageBytes geometry self.new bytes.now) }
        ensures only { OnErr result ((g : Geometry) (c : Content) → ¬ ImageBytes g c bytes.now) }
    {
        self.take_image(bytes)
    }

    /// The table that was read last.
    pub fn table(&self) -> &Table
        ensures { content result.now ≡ self.now }
    {
        &self.table
    }
}
