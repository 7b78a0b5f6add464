//! The image of an empty super, with two groups of three partitions.
ghost use Rattle.std.specs.Prelude.{◌≡◌, [], ◌∷◌, IfOk, IsTrue, Some};
ghost use Rattle.fb_frame.specs.NameText.{name_of, is_name};
ghost use Rattle.super_meta.specs.Contents.{content};
ghost use Rattle.sample_product.specs.Metadata as metadata;
ghost use Rattle.sample_product.specs.Metadata.{sample_table, super_image};

use fb_frame::name::Name;
use std::alloc::{AllocError, Global};
use super_meta::geometry::{Geometry, write_geometry};
use super_meta::table::{BlockDevice, Group, Partition, Table};
use super_meta::writing::write_table;

/// The most bytes that the partitions of a slot may have together.
const LIMIT: u64 = 50_331_648;

fn name(text: &[u8]) -> Name
    requires { IsTrue (is_name text.now) }
    ensures { result ≡ text.now }
{
    let Some(name) = Name::read(text) else {
        unreachable!()
    };
    name
}

/// A partition without extents, in a group.
fn partition(text: &[u8], group: u32) -> Partition
    requires { IsTrue (is_name text.now) }
    ensures { result ≡ metadata.partition text.now group }
{
    Partition {
        name: name(text),
        attributes: 1,
        first: 0,
        count: 0,
        group,
    }
}

fn partitions(alloc: Global) -> Result<Vec<Partition>, AllocError>
    ensures { IfOk result (λ partitions. partitions.items ≡ sample_table.partitions) }
{
    [
        partition(b"system_a", 1),
        partition(b"vendor_a", 1),
        partition(b"product_a", 1),
        partition(b"system_b", 2),
        partition(b"vendor_b", 2),
        partition(b"product_b", 2),
    ]
    .to_vec(alloc)
}

fn group(text: &[u8], limit: u64) -> Group
    requires { IsTrue (is_name text.now) }
    ensures { result ≡ metadata.group text.now limit }
{
    Group {
        name: name(text),
        limit,
    }
}

fn groups(alloc: Global) -> Result<Vec<Group>, AllocError>
    ensures { IfOk result (λ groups. groups.items ≡ sample_table.groups) }
{
    [
        group(b"default", 0),
        group(b"main_a", LIMIT),
        group(b"main_b", LIMIT),
    ]
    .to_vec(alloc)
}

fn table(alloc: Global) -> Result<Table, AllocError>
    ensures { IfOk result (λ table. content table ≡ sample_table) }
{
    Ok(Table {
        minor: 0,
        flags: 0,
        partitions: partitions(alloc)?,
        extents: Vec::new(alloc),
        groups: groups(alloc)?,
        device: BlockDevice {
            first_sector: 640,
            alignment: 65_536,
            offset: 0,
            size: 67_108_864,
            name: name(b"super"),
        },
    })
}

/// The image: a block with the geometry, and the table.
pub fn super_image(alloc: Global) -> Result<Vec<u8>, AllocError>
    ensures { IfOk result (λ bytes. bytes.items ≡ super_image) }
{
    let geometry = Geometry {
        max_size: 65_536,
        slots: 2,
        block_size: 4096,
    };
    let mut block = [0; 4096];
    write_geometry(&geometry, &mut block);
    let mut rest = [0; 648];
    let Ok(_) = write_table(&table(alloc)?, &mut rest) else {
        unreachable!()
    };
    let mut bytes = Vec::new(alloc);
    bytes.extend_from_slice(&block)?;
    bytes.extend_from_slice(&rest)?;
    Ok(bytes)
}
