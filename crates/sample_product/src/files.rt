//! The files of a sample's product.
ghost use Rattle.std.specs.Prelude.{◌≡◌, ◌++◌, [], ◌∷◌, ℕ, List, IfOk, OnOk, map, codes};
ghost use Rattle.flash_plan.specs.MemoryFiles.{file_of};
ghost use Rattle.sample_product.specs.Images.{IsLength, raw_image, after_raw, sparse_image};
ghost use Rattle.sample_product.specs.Products.{layout_text, requirements, tasks, entry, entry_of};
ghost use Rattle.sample_product.specs.Products.{given_files, drawn_files, IsSampleProduct};

use crate::draws::Draws;
use crate::metadata::super_image;
use crate::raw::{Length, raw_image};
use crate::sparse::sparse_image;
use flash_plan::memory_dir::DirFile;
use std::alloc::{AllocError, Global};

/// The layout of the device that a sample's product is for.
pub fn layout_text() -> &'static [u8]
    ensures { result.now ≡ layout_text }
{
    b"fbdevice 1
product falcon
serialno S3
slots 2
max-download 131072
var version-bootloader 1.25
partition bootloader_a 65536
partition bootloader_b 65536
partition radio_a 65536
partition radio_b 65536
partition boot_a 8388608
partition boot_b 8388608
partition vbmeta_a 65536
partition vbmeta_b 65536
partition userdata 131072
super super 67108864 65536 65536 2
"
}

fn requirements() -> &'static [u8]
    ensures { result.now ≡ requirements }
{
    b"require version-bootloader=1.2*|2.0\n"
}

fn tasks() -> &'static [u8]
    ensures { result.now ≡ tasks }
{
    b"# fastboot-info for falcon
version 1
flash bootloader
flash radio
reboot bootloader
flash boot
flash --apply-vbmeta vbmeta
reboot fastboot
update-super
flash system
flash vendor
flash product
flash --slot-other system system_other.img
if-wipe erase userdata
"
}

/// Adds a file.
fn add(
    alloc: Global,
    name: &str,
    bytes: Vec<u8>,
    files: &mut Vec<DirFile>,
) -> Result<(), AllocError>
    ensures { OnOk result
        (map entry_of files.new.items ≡ map entry_of files.old.items ++ entry name.now bytes.items ∷ []) }
{
    let name = name.to_string(alloc)?;
    files.push(DirFile { name, bytes })?;
    Ok(())
}

/// Adds the files that aren't drawn.
fn add_given(alloc: Global, files: &mut Vec<DirFile>) -> Result<(), AllocError>
    ensures { OnOk result (map entry_of files.new.items ≡ map entry_of files.old.items ++ given_files) }
{
    add(
        alloc,
        "android-info.txt",
        requirements().to_vec(alloc)?,
        files,
    )?;
    add(alloc, "fastboot-info.txt", tasks().to_vec(alloc)?, files)?;
    add(alloc, "super_empty.img", super_image(alloc)?, files)?;
    Ok(())
}

/// Draws a raw image, and adds its file.
fn add_raw(
    alloc: Global,
    name: &str,
    length: Length,
    draws: &mut Draws,
    files: &mut Vec<DirFile>,
) -> Result<(), AllocError>
    requires { IsLength length }
    ensures added { OnOk result (map entry_of files.new.items
        ≡ map entry_of files.old.items ++ entry name.now (raw_image length draws.old.state) ∷ []) }
    ensures after { OnOk result (draws.new.state ≡ after_raw length draws.old.state) }
{
    let bytes = raw_image(alloc, draws, length)?;
    add(alloc, name, bytes, files)?;
    Ok(())
}

/// Draws the images one after another, and adds their files.
fn add_drawn(alloc: Global, draws: &mut Draws, files: &mut Vec<DirFile>) -> Result<(), AllocError>
    ensures { OnOk result
        (map entry_of files.new.items ≡ map entry_of files.old.items ++ drawn_files draws.old.state) }
{
    add_raw(alloc, "bootloader.img", Length::Bytes(8192), draws, files)?;
    add_raw(alloc, "radio.img", Length::Bytes(4096), draws, files)?;
    add_raw(alloc, "boot.img", Length::Blocks(2048), draws, files)?;
    add_raw(alloc, "vbmeta.img", Length::Bytes(4096), draws, files)?;
    add_raw(alloc, "system.img", Length::Blocks(4096), draws, files)?;
    add_raw(alloc, "vendor.img", Length::Blocks(2048), draws, files)?;
    add_raw(
        alloc,
        "system_other.img",
        Length::Blocks(1024),
        draws,
        files,
    )?;
    add(alloc, "product.img", sparse_image(alloc, draws)?, files)?;
    Ok(())
}

/// The files of the product that is drawn by a number.
pub fn sample_files(alloc: Global, number: u32) -> Result<Vec<DirFile>, AllocError>
    ensures { IfOk result (λ files. IsSampleProduct number (file_of files.items)) }
{
    let mut files = Vec::new(alloc);
    add_given(alloc, &mut files)?;
    add_drawn(alloc, &mut Draws::new(number), &mut files)?;
    Ok(files)
}
