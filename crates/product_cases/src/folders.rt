ghost use Rattle.std.specs.Prelude.{◌≡◌, ◌≤◌, Some, IsTrue, IfOk};
ghost use Rattle.flash_plan.specs.Files.{HasSize, IsFile, IsFileName};

use fb_frame::items::Items;
use fb_frame::word::Word;
use flash_plan::dir::{DirFault, EnterError, ProductDir, is_file_name};
use flash_plan::dir_bytes::DirBytes;
use flash_plan::folder_dir::FolderDir;
use flash_plan::memory_dir::{DirFile, MemoryDir};
use flash_plan::read::{ReadError, read_file};
use sparse_image::index::check;
use std::alloc::{AllocError, Global};
use std::fs;
use std::test::Fail;

fn file(alloc: Global, name: &str, bytes: &[u8]) -> Result<DirFile, AllocError> {
    Ok(DirFile {
        name: name.to_string(alloc)?,
        bytes: bytes.to_vec(alloc)?,
    })
}

fn product(alloc: Global, fails: &[u64]) -> Result<MemoryDir, Fail> {
    let mut files = Vec::new(alloc);
    files.push(file(alloc, "boot.img", b"12345")?)?;
    files.push(file(alloc, "empty.img", b"")?)?;
    files.push(file(alloc, "boot.img", b"another")?)?;
    Ok(MemoryDir::new(alloc, "out", files, fails.to_vec(alloc)?)?)
}

/// The length of a whole file, or what was answered in its place.
fn outcome<D: ProductDir>(alloc: Global, dir: &mut D, path: &str, name: &str) -> Result<usize, u8> {
    match dir.enter(alloc, path) {
        Ok(true) => {}
        Ok(false) => return Err(b'n'),
        Err(EnterError::Dir) => return Err(b'e'),
        Err(EnterError::Memory) => return Err(b'm'),
    }
    if !is_file_name(name.as_bytes()) {
        return Err(b'?');
    }
    match read_file(alloc, dir, name.as_bytes(), 5) {
        Ok(bytes) => Ok(bytes.len()),
        Err(ReadError::Absent) => Err(b'a'),
        Err(ReadError::TooLong) => Err(b'l'),
        Err(ReadError::Dir) => Err(b'd'),
        Err(ReadError::Memory) => Err(b'm'),
    }
}

/// Checks an image of the folder through a source that borrows it, and then reads another file of it.
fn check_then_read<D: ProductDir>(
    alloc: Global,
    dir: &mut D,
    name: &Word,
    len: u64,
    other: &[u8],
) -> Result<Items<u8>, ReadError>
    requires entered { IsTrue (D.entered dir.old) }
    requires name { IsFileName name.now }
    requires size { HasSize (D.files dir.old) name.now (Some len) }
    requires other { IsFileName other.now }
    ensures file { IfOk result (λ file. IsFile (D.files dir.old) other.now (Some file)) }
    ensures entered { D.entered dir.new ≡ D.entered dir.old }
    ensures path { D.told_path dir.new ≡ D.told_path dir.old }
    ensures files { D.files dir.new ≡ D.files dir.old }
    ensures same { D.lent dir.new ≡ D.lent dir.old }
    ensures later { D.faults dir.old ≤ D.faults dir.new }
{
    let mut source = DirBytes::new(dir, name, len);
    match check(alloc, &mut source) {
        Ok(_) => {}
        Err(_) => return Err(ReadError::Dir),
    }
    let file = read_file(alloc, dir, other, 65536)?;
    Ok(file)
}

#[test]
fn reads_a_file_after_a_check(rt: HostRuntime) -> Result<(), Fail> {
    let alloc = rt.alloc();
    let mut files = Vec::new(alloc);
    files.push(file(alloc, "boot.img", [0; 4096].as_slice())?)?;
    files.push(file(alloc, "android-info.txt", b"board=falcon")?)?;
    let mut dir = MemoryDir::new(alloc, "out", files, Vec::new(alloc))?;
    assert!(rt; dir.enter(alloc, "out")?);
    let name = Word::read(b"boot.img").unwrap();
    assert!(rt; is_file_name(name.bytes()));
    let size = dir.size(name.bytes())?;
    assert!(rt; size.is_some());
    let len = size.unwrap();
    let text = check_then_read(alloc, &mut dir, &name, len, b"android-info.txt")?;
    assert_eq!(rt; text.as_slice(), b"board=falcon".as_slice());
    Ok(())
}

#[test]
fn reads_files_in_memory(rt: HostRuntime) -> Result<(), Fail> {
    let alloc = rt.alloc();
    let rows: [(&[u64], &str, &str, Result<usize, u8>); 8] = [
        (&[], "out", "boot.img", Ok(5)),
        (&[], "out", "empty.img", Ok(0)),
        (&[], "out", "radio.img", Err(b'a')),
        (&[], "other", "boot.img", Err(b'n')),
        (&[1], "out", "boot.img", Err(b'e')),
        (&[2], "out", "boot.img", Err(b'd')),
        (&[3], "out", "boot.img", Err(b'd')),
        (&[4], "out", "boot.img", Ok(5)),
    ];
    for (fails, path, name, want) in rows {
        let mut dir = product(alloc, fails)?;
        assert_eq!(rt;
            outcome(alloc, &mut &mut dir, path, name),
            want,
            "{path}/{name}"
        );
    }
    let mut dir = product(alloc, &[])?;
    assert!(rt; dir.enter(alloc, "out")?);
    let bytes = read_file(alloc, &mut dir, b"boot.img", 7)?;
    assert_eq!(rt; bytes.as_slice(), b"12345".as_slice());
    assert_eq!(rt; dir.longest(), 5);
    Ok(())
}

#[test]
fn reads_files_of_a_folder(rt: HostRuntime) -> Result<(), Fail> {
    let alloc = rt.alloc();
    fs::create_dir_all(&rt, "folder/sub")?;
    fs::write(&rt, "folder/boot.img", b"12345")?;
    fs::write(&rt, "folder/long.img", b"123456")?;
    let rows = [
        ("folder", "boot.img", Ok(5)),
        ("folder", "long.img", Err(b'l')),
        ("folder", "radio.img", Err(b'a')),
        ("folder", "sub", Err(b'd')),
        ("absent", "boot.img", Err(b'e')),
        ("folder/boot.img", "boot.img", Err(b'e')),
    ];
    for (path, name, want) in rows {
        let mut dir = FolderDir::new(&rt);
        assert_eq!(rt; outcome(alloc, &mut dir, path, name), want, "{path}/{name}");
    }
    let mut dir = FolderDir::new(&rt);
    assert!(rt; dir.enter(alloc, "folder")?);
    let mut buf = [0; 3];
    assert_eq!(rt; dir.read_at(b"boot.img", 1, &mut buf)?, 3);
    assert_eq!(rt; buf.as_slice(), b"234".as_slice());
    assert!(rt; matches!(dir.read_at(b"boot.img", 5, &mut buf), Err(DirFault)));
    fs::remove_dir_all(&rt, "folder")?;
    Ok(())
}
