//! The text of a device.
ghost use Rattle.std.specs.Prelude.{◌≡◌, ◌++◌, ◌||◌, ◌==◌, ◌<◌, length, IsFalse, IfOk, IfErr, OnOk};
ghost use Rattle.std.specs.Prelude.{string_bytes};
ghost use Rattle.std.specs.List.{flat_map};
ghost use Rattle.fb_frame.specs.Causes.{Rose};
ghost use Rattle.dev_model.specs.Validity.{IsValid};
ghost use Rattle.dev_store.specs.Held.{image_of};
ghost use Rattle.device_jobs.specs.Printed.{product_line, locked_line, slot_lines, group_line};
ghost use Rattle.device_jobs.specs.Printed.{flags_text, minor_text, version_line, version_lines, group_text, head_text, show_text};
ghost use Rattle.device_jobs.specs.Working.{AddsText, IsShownText, IsReadOn, IsReadStop};

use crate::job::JobError;
use crate::parts::add_parts;
use dev_disk::disk::Disk;
use dev_store::store::Store;
use fb_message::line::Line;
use itoa::Buffer;
use std::alloc::{AllocError, Global};
use super_meta::table::Group;

/// How many bytes of a partition are read at once.
const WINDOW: usize = 65_536;

/// The product of the device.
fn product_of<K: Disk>(store: &Store<K>) -> Line
    ensures { result ≡ store.now.device.product }
{
    let mut product = Line::read(b"").unwrap();
    store.value(b"product", false, &mut product);
    product
}

/// Adds the line of the product.
fn add_product<K: Disk>(store: &Store<K>, text: &mut Vec<u8>) -> Result<(), AllocError>
    ensures { OnOk result (text.new.items ≡ text.old.items ++ product_line store.now.device.product) }
{
    let product = product_of(store);
    text.extend_from_slice(b"product ")?;
    text.extend_from_slice(product.bytes())?;
    text.extend_from_slice(b"\n")
}

/// Adds whether the device is locked.
fn add_locked<K: Disk>(store: &Store<K>, text: &mut Vec<u8>) -> Result<(), AllocError>
    ensures { OnOk result (text.new.items ≡ text.old.items ++ locked_line store.now.device.locked) }
{
    if store.state().locked {
        text.extend_from_slice(b"locked yes\n")
    } else {
        text.extend_from_slice(b"locked no\n")
    }
}

/// Adds the active slot, where there are slots.
fn add_slot<K: Disk>(store: &Store<K>, text: &mut Vec<u8>) -> Result<(), AllocError>
    ensures { OnOk result (text.new.items ≡ text.old.items ++ slot_lines store.now.device) }
{
    if store.slots() != 2 {
        return Ok(());
    }
    text.extend_from_slice(b"slot ")?;
    text.push(store.state().active.letter())?;
    text.extend_from_slice(b"\n")
}

/// Adds what stands before the partitions.
fn add_head<K: Disk>(store: &Store<K>, text: &mut Vec<u8>) -> Result<(), AllocError>
    ensures { OnOk result (text.new.items ≡ text.old.items ++ head_text store.now.device) }
{
    add_product(store, text)?;
    add_locked(store, text)?;
    add_slot(store, text)
}

/// Whether a table of this minor version has flags.
fn has_flags(minor: u16) -> bool
    ensures { result ≡ ((minor == 1) || (minor == 2)) }
{
    minor == 1 || minor == 2
}

/// Eight lower-case hexadecimal digits of a number.
#[tactic(auto, unfolding(crate::specs::Printed::flags_text))]
fn flags_text(alloc: Global, flags: u32) -> Result<String, AllocError>
    ensures { IfOk result (λ text. string_bytes text ≡ flags_text flags) }
{
    hex::encode(alloc, flags.to_be_bytes())
}

/// Adds the minor version of a table.
fn add_minor(minor: u16, text: &mut Vec<u8>) -> Result<(), AllocError>
    ensures { OnOk result (text.new.items ≡ text.old.items ++ minor_text minor) }
{
    let mut digits = Buffer::new();
    text.extend_from_slice(b"metadata 10.")?;
    text.extend_from_slice(digits.format(minor).as_bytes())?;
    text.extend_from_slice(b" ")
}

/// Adds minor version and flags of a table.
fn add_flags(alloc: Global, minor: u16, flags: u32, text: &mut Vec<u8>) -> Result<(), AllocError>
    ensures { OnOk result (text.new.items ≡ text.old.items ++ version_line minor flags) }
{
    add_minor(minor, text)?;
    let shown = flags_text(alloc, flags)?;
    text.extend_from_slice(shown.as_bytes())?;
    text.extend_from_slice(b"\n")
}

/// Adds minor version and flags of a table, where the minor is 1 or 2.
fn add_version(alloc: Global, minor: u16, flags: u32, text: &mut Vec<u8>) -> Result<(), AllocError>
    ensures { OnOk result (text.new.items ≡ text.old.items ++ version_lines minor flags) }
{
    if has_flags(minor) {
        add_flags(alloc, minor, flags, text)
    } else {
        Ok(())
    }
}

/// Adds the line of a group.
fn add_group(group: &Group, text: &mut Vec<u8>) -> Result<(), AllocError>
    ensures { OnOk result (text.new.items ≡ text.old.items ++ group_text group.now.name group.now.limit) }
{
    let mut digits = Buffer::new();
    text.extend_from_slice(b"group ")?;
    text.extend_from_slice(group.name.bytes())?;
    text.extend_from_slice(b" ")?;
    text.extend_from_slice(digits.format(group.limit).as_bytes())?;
    text.extend_from_slice(b"\n")
}

/// Adds the lines of all groups, in their order.
fn add_groups<K: Disk>(store: &Store<K>, text: &mut Vec<u8>) -> Result<(), AllocError>
    requires valid { IsValid store.now.device }
    ensures { OnOk result (text.new.items ≡ text.old.items ++ flat_map group_line store.now.device.groups) }
{
    let mut place = 0;
    while let Some(group) = store.group(place) {
        add_group(&group, text)?;
        place += 1;
    }
    Ok(())
}

/// Adds the text of the device.
fn add_device<K: Disk>(
    alloc: Global,
    store: &mut Store<K>,
    window: &mut [u8],
    text: &mut Vec<u8>,
) -> Result<(), JobError>
    requires usable { IsFalse store.old.broken }
    requires valid { IsValid store.old.device }
    requires room { 0 < length window.old }
    ensures added { OnOk result (AddsText (image_of K.told store.old) (show_text store.old.device)
        text.old.items text.new.items) }
    ensures stops { IfErr result
        (IsReadStop (Rose (K.told store.old.disk).faults (K.told store.new.disk).faults)) }
    ensures read { IsReadOn K.told K.lent store.old store.new }
{
    add_head(store, text)?;
    add_parts(alloc, store, false, window, text)?;
    let (minor, flags) = store.table_version();
    add_version(alloc, minor, flags, text)?;
    add_groups(store, text)?;
    add_parts(alloc, store, true, window, text)
}

/// The text of the device, read by windows of 65,536 bytes.
pub(crate) fn device_text<K: Disk>(alloc: Global, store: &mut Store<K>) -> Result<Vec<u8>, JobError>
    requires usable { IsFalse store.old.broken }
    requires valid { IsValid store.old.device }
    ensures shown { IfOk result
        (λ text. IsShownText (image_of K.told store.old) store.old.device text.items) }
    ensures stops { IfErr result
        (IsReadStop (Rose (K.told store.old.disk).faults (K.told store.new.disk).faults)) }
    ensures read { IsReadOn K.told K.lent store.old store.new }
{
    let mut window = vec![in alloc; 0; WINDOW]?;
    let mut text = Vec::new(alloc);
    add_device(alloc, store, &mut window, &mut text)?;
    Ok(text)
}
