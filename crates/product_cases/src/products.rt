use fb_frame::name::Name;
use flash_plan::dir::ProductDir;
use flash_plan::inspect::inspect;
use flash_plan::memory_dir::{DirFile, MemoryDir};
use flash_plan::product::{Flaw, Product, ProductError};
use product_info::info::InfoKind;
use sparse_image::errors::{SparseError, SparseKind};
use std::alloc::{AllocError, Global};
use std::test::Fail;
use super_meta::errors::MetaError;
use super_meta::geometry::{Geometry, write_geometry};
use super_meta::table::{BlockDevice, Extent, Group, Partition, Table};
use super_meta::writing::write_table;

const TASKS: &str = "# fastboot-info for falcon
version 1
flash bootloader
flash radio
reboot bootloader
flash boot
flash --apply-vbmeta vbmeta
reboot fastboot
update-super
flash system
flash vendor
flash product
flash --slot-other system system_other.img
if-wipe erase userdata
";

/// A sparse file of four blocks of 4,096 bytes, of 4,164 bytes.
fn sparse_file(alloc: Global) -> Result<Vec<u8>, AllocError> {
    let mut file = Vec::new(alloc);
    file.extend_from_slice(
        b"\x3a\xff\x26\xed\x01\0\0\0\x1c\0\x0c\0\0\x10\0\0\x04\0\0\0\x03\0\0\0\0\0\0\0",
    )?;
    file.extend_from_slice(b"\xc1\xca\0\0\x01\0\0\0\x0c\x10\0\0")?;
    file.resize(4136, 0x33)?;
    file.extend_from_slice(b"\xc2\xca\0\0\x02\0\0\0\x10\0\0\0\xaa\xbb\xcc\xdd")?;
    file.extend_from_slice(b"\xc3\xca\0\0\x01\0\0\0\x0c\0\0\0")?;
    Ok(file)
}

/// The same with a checksum as its third chunk.
fn crc_file(alloc: Global) -> Result<Vec<u8>, AllocError> {
    let mut file = sparse_file(alloc)?;
    file.truncate(4152);
    file.extend_from_slice(b"\xc4\xca\0\0\x01\0\0\0\x0c\0\0\0")?;
    Ok(file)
}

fn name(text: &str) -> Result<Name, Fail> {
    Ok(Name::read(text.as_bytes()).ok_or("a name")?)
}

/// The tables of the falcon's empty super, with this extent for its first partition.
fn falcon_table(alloc: Global, extent: Option<Extent>) -> Result<Table, Fail> {
    let mut table = Table {
        minor: 0,
        flags: 0,
        partitions: Vec::new(alloc),
        extents: Vec::new(alloc),
        groups: Vec::new(alloc),
        device: BlockDevice {
            first_sector: 640,
            alignment: 65_536,
            offset: 0,
            size: 4_194_304,
            name: name("super")?,
        },
    };
    let mut count = 0;
    if let Some(extent) = extent {
        table.extents.push(extent)?;
        count = 1;
    }
    let partitions = [
        ("system_a", 0, count, 1),
        ("vendor_a", count, 0, 1),
        ("product_a", count, 0, 1),
        ("system_b", count, 0, 2),
        ("vendor_b", count, 0, 2),
        ("product_b", count, 0, 2),
    ];
    for (text, first, count, group) in partitions {
        table.partitions.push(Partition {
            name: name(text)?,
            attributes: 0,
            first,
            count,
            group,
        })?;
    }
    for (text, limit) in [("default", 0), ("main_a", 1_048_576), ("main_b", 1_048_576)] {
        table.groups.push(Group {
            name: name(text)?,
            limit,
        })?;
    }
    Ok(table)
}

/// The falcon's super_empty.img, with this extent.
fn super_empty(alloc: Global, extent: Option<Extent>) -> Result<Vec<u8>, Fail> {
    let geometry = Geometry {
        max_size: 65_536,
        slots: 2,
        block_size: 4096,
    };
    let mut block = [0; 4096];
    if geometry.is_good() {
        write_geometry(&geometry, &mut block);
    }
    let table = falcon_table(alloc, extent)?;
    let mut room = [0; 4096];
    let size = if table.is_sound() {
        write_table(&table, &mut room)
            .ok()
            .ok_or("room for a table")?
    } else {
        0
    };
    let mut file = block.to_vec(alloc)?;
    file.extend_from_slice(room.get(..size).ok_or("a table")?)?;
    Ok(file)
}

/// A file of the falcon's folder.
fn add(files: &mut Vec<DirFile>, alloc: Global, name: &str, bytes: Vec<u8>) -> Result<(), Fail> {
    let name = name.to_string(alloc)?;
    files.push(DirFile { name, bytes })?;
    Ok(())
}

/// The falcon's folder, with this file in place of the one of its name, or without it.
fn falcon(
    alloc: Global,
    changed: &str,
    bytes: Option<&[u8]>,
    fails: &[u64],
) -> Result<MemoryDir, Fail> {
    let mut files = Vec::new(alloc);
    if let Some(bytes) = bytes {
        add(&mut files, alloc, changed, bytes.to_vec(alloc)?)?;
    }
    let texts = [
        ("android-info.txt", "require version-bootloader=1.2*|2.0"),
        ("fastboot-info.txt", TASKS),
    ];
    for (name, text) in texts {
        if name != changed {
            add(&mut files, alloc, name, text.as_bytes().to_vec(alloc)?)?;
        }
    }
    let raw = [
        ("bootloader.img", 8192),
        ("radio.img", 4096),
        ("boot.img", 163_840),
        ("vbmeta.img", 4096),
        ("system.img", 200_704),
        ("vendor.img", 65_536),
        ("system_other.img", 4097),
    ];
    for (name, len) in raw {
        if name != changed {
            let mut bytes = Vec::new(alloc);
            bytes.resize(len, 0x11)?;
            add(&mut files, alloc, name, bytes)?;
        }
    }
    if changed != "product.img" {
        add(&mut files, alloc, "product.img", sparse_file(alloc)?)?;
    }
    if changed != "super_empty.img" {
        add(
            &mut files,
            alloc,
            "super_empty.img",
            super_empty(alloc, None)?,
        )?;
    }
    Ok(MemoryDir::new(alloc, "out", files, fails.to_vec(alloc)?)?)
}

/// There is an error, of this file, with this flaw, or of the folder.
fn says(error: Option<&ProductError>, name: &str, flaw: Option<&Flaw>) -> bool {
    match (error, flaw) {
        (Some(ProductError::Bad(file, why)), Some(flaw)) => {
            file.bytes() == name.as_bytes() && why == flaw
        }
        (Some(ProductError::Directory(file)), None) => file.bytes() == name.as_bytes(),
        _ => false,
    }
}

/// The folder is entered, and no product is answered of it: this file has this flaw, or the folder failed
/// at this file.
fn refuses<D: ProductDir>(alloc: Global, dir: &mut D, name: &str, flaw: Option<&Flaw>) -> bool {
    if !dir.enter(alloc, "out").unwrap_or(false) {
        return false;
    }
    let error = inspect(alloc, dir, false).err();
    says(error.as_ref(), name, flaw)
}

#[test]
fn inspects_the_falcon(rt: HostRuntime) -> Result<(), Fail> {
    let alloc = rt.alloc();
    for (wipe, tasks) in [(false, 11), (true, 12)] {
        let mut dir = falcon(alloc, "", None, &[])?;
        assert!(rt; dir.enter(alloc, "out")?);
        let product = inspect(alloc, &mut dir, wipe)?;
        assert_eq!(rt; product.requirements.len(), 1);
        assert_eq!(rt; product.tasks.len(), tasks);
        let mut lens = Vec::new(alloc);
        for index in product.images.as_slice() {
            lens.push(index.len())?;
        }
        assert_eq!(rt;
            lens.as_slice(),
            [8192, 4096, 163_840, 4096, 200_704, 65_536, 16_384, 8192].as_slice()
        );
        let empty = product.empty.as_ref().ok_or("super_empty.img")?;
        assert_eq!(rt; empty.len(), 4744);
        assert!(rt; dir.longest() <= 65_536, "{}", dir.longest());
    }
    Ok(())
}

/// The falcon's folder with this file, or without it, is refused for it, and no read was a long one.
fn is_flawed(alloc: Global, name: &str, bytes: Option<&[u8]>, flaw: Flaw) -> Result<bool, Fail> {
    let mut dir = falcon(alloc, name, bytes, &[])?;
    let refused = refuses(alloc, &mut &mut dir, name, Some(&flaw));
    Ok(refused && dir.longest() <= 65_536)
}

/// A file of zeros.
fn zeros(alloc: Global, len: usize) -> Result<Vec<u8>, AllocError> {
    let mut file = Vec::new(alloc);
    file.resize(len, 0)?;
    Ok(file)
}

#[test]
fn refuses_flawed_info_files(rt: HostRuntime) -> Result<(), Fail> {
    let alloc = rt.alloc();
    let long = zeros(alloc, 65_537)?;
    let form = info(1, InfoKind::BadLine);
    let version = info(1, InfoKind::NoVersion);
    assert!(rt; is_flawed(alloc, "android-info.txt", None, Flaw::Absent)?);
    assert!(rt; is_flawed(alloc, "android-info.txt", Some(&long), Flaw::TooLong)?);
    assert!(rt; is_flawed(alloc, "android-info.txt", Some(b"require =1"), form)?);
    assert!(rt; is_flawed(alloc, "fastboot-info.txt", None, Flaw::Absent)?);
    assert!(rt; is_flawed(alloc, "fastboot-info.txt", Some(&long), Flaw::TooLong)?);
    assert!(rt; is_flawed(alloc, "fastboot-info.txt", Some(b""), version)?);
    Ok(())
}

#[test]
fn refuses_flawed_images(rt: HostRuntime) -> Result<(), Fail> {
    let alloc = rt.alloc();
    let checksum = crc_file(alloc)?;
    let empty = image(SparseKind::Empty, 0);
    let chunk = image(SparseKind::CrcChunk, 4152);
    assert!(rt; is_flawed(alloc, "boot.img", None, Flaw::Absent)?);
    assert!(rt; is_flawed(alloc, "boot.img", Some(b""), empty)?);
    assert!(rt; is_flawed(alloc, "product.img", Some(&checksum), chunk)?);
    assert!(rt; is_flawed(alloc, "system_other.img", None, Flaw::Absent)?);
    Ok(())
}

#[test]
fn refuses_flawed_tables(rt: HostRuntime) -> Result<(), Fail> {
    let alloc = rt.alloc();
    let long = zeros(alloc, 131_073)?;
    let mut short = super_empty(alloc, None)?;
    short.truncate(4743);
    let extent = Extent {
        sectors: 8,
        target: 640,
    };
    let filled = super_empty(alloc, Some(extent))?;
    let missing = Flaw::Meta(MetaError::ShortInput);
    let unsupported = Flaw::Meta(MetaError::Unsupported);
    assert!(rt; is_flawed(alloc, "super_empty.img", None, Flaw::Absent)?);
    assert!(rt; is_flawed(alloc, "super_empty.img", Some(&long), Flaw::TooLong)?);
    assert!(rt; is_flawed(alloc, "super_empty.img", Some(&short), missing)?);
    assert!(rt; is_flawed(alloc, "super_empty.img", Some(&filled), unsupported)?);
    Ok(())
}

#[test]
fn names_the_file_of_a_failed_call(rt: HostRuntime) -> Result<(), Fail> {
    let alloc = rt.alloc();
    let rows: [(u64, &str); 7] = [
        (2, "android-info.txt"),
        (3, "android-info.txt"),
        (4, "fastboot-info.txt"),
        (5, "fastboot-info.txt"),
        (6, "bootloader.img"),
        (7, "bootloader.img"),
        (8, "radio.img"),
    ];
    for (fails, name) in rows {
        let mut dir = falcon(alloc, "", None, &[fails])?;
        assert!(rt; refuses(alloc, &mut dir, name, None), "{fails}");
    }
    Ok(())
}

/// A sparse file of this many fills of a block of 4,096 bytes each.
fn fills(alloc: Global, count: u32) -> Result<Vec<u8>, AllocError> {
    let mut file = Vec::new(alloc);
    file.extend_from_slice(b"\x3a\xff\x26\xed\x01\0\0\0\x1c\0\x0c\0\0\x10\0\0")?;
    file.extend_from_slice(&count.to_le_bytes())?;
    file.extend_from_slice(&count.to_le_bytes())?;
    file.extend_from_slice(&[0; 4])?;
    for _ in 0..count {
        file.extend_from_slice(b"\xc2\xca\0\0\x01\0\0\0\x10\0\0\0\xaa\xbb\xcc\xdd")?;
    }
    Ok(file)
}

/// Four images of a million chunks each are as many as there may be; the fifth has one chunk.
#[test]
fn counts_the_chunks_of_all_images(rt: HostRuntime) -> Result<(), Fail> {
    let alloc = rt.alloc();
    let tasks = b"version 1\nflash a\nflash a\nflash a\nflash a\nflash b\n";
    let mut files = Vec::new(alloc);
    add(&mut files, alloc, "android-info.txt", Vec::new(alloc))?;
    add(&mut files, alloc, "fastboot-info.txt", tasks.to_vec(alloc)?)?;
    add(&mut files, alloc, "a.img", fills(alloc, 1_000_000)?)?;
    add(&mut files, alloc, "b.img", fills(alloc, 1)?)?;
    let mut dir = MemoryDir::new(alloc, "out", files, Vec::new(alloc))?;
    assert!(rt; refuses(alloc, &mut dir, "b.img", Some(&Flaw::TooManyChunks)));
    assert!(rt; dir.longest() <= 65_536, "{}", dir.longest());
    Ok(())
}

fn info(line: u32, kind: InfoKind) -> Flaw {
    Flaw::Info { line, kind }
}

fn image(kind: SparseKind, at: u64) -> Flaw {
    Flaw::Image(SparseError { kind, at })
}
