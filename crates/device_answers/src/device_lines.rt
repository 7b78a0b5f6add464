use dev_model::copies::copy_bytes;
use dev_model::device::{BothFlags, Dev, Mode, Physical, SlotFlags, Variable};
use fb_frame::items::Items;
use fb_frame::name::Name;
use fb_frame::slot::Slot;
use fb_frame::tables::{TableGeometry, TableGroup};
use fb_frame::word::Word;
use std::alloc::Global;

const fn flags(retries: u8) -> SlotFlags {
    SlotFlags {
        successful: false,
        unbootable: false,
        retries,
    }
}

/// A device of which nothing is said yet: unlocked, in its bootloader, without slots, partitions or super.
pub fn no_device(alloc: Global) -> Dev {
    Dev {
        product: Items::new(alloc),
        serial: Items::new(alloc),
        vars: Items::new(alloc),
        slots: 0,
        active: Slot::A,
        flags: BothFlags {
            a: flags(0),
            b: flags(0),
        },
        locked: false,
        mode: Mode::Bootloader,
        max: 0,
        physical: Items::new(alloc),
        super_name: None,
        geometry: TableGeometry {
            max_size: 0,
            slots: 0,
        },
        groups: Items::new(alloc),
        logical: Items::new(alloc),
        unit: 0,
        units: 0,
        super_size: 0,
        table_minor: 0,
        table_flags: 0,
    }
}

/// What a device runs, by its name in a table.
pub fn mode_of(text: &str) -> Option<Mode> {
    match text {
        "bootloader" => Some(Mode::Bootloader),
        "userspace" => Some(Mode::Userspace),
        "system" => Some(Mode::System),
        "recovery" => Some(Mode::Recovery),
        _ => None,
    }
}

/// Takes a line of a device into it. False where it's none.
pub fn set_device(alloc: Global, dev: &mut Dev, word: &str, text: &str) -> anyhow::Result<bool> {
    let bytes = text.as_bytes();
    match word {
        "product" => dev.product = copy_bytes(alloc, bytes)?,
        "serial" => dev.serial = copy_bytes(alloc, bytes)?,
        "variable" => return add_variable(alloc, dev, text),
        "physical" => return add_physical(alloc, dev, text),
        "group" => return add_group(dev, text),
        "mode" => return Ok(set_mode(dev, text)),
        "super" => return Ok(set_super(dev, text)),
        "locked" if text.is_empty() => dev.locked = true,
        _ => return Ok(set_number(dev, word, text).is_some()),
    }
    Ok(true)
}

fn set_mode(dev: &mut Dev, text: &str) -> bool {
    match mode_of(text) {
        Some(mode) => {
            dev.mode = mode;
            true
        }
        None => false,
    }
}

fn set_super(dev: &mut Dev, text: &str) -> bool {
    dev.super_name = Name::read(text.as_bytes());
    dev.super_name.is_some()
}

fn set_number(dev: &mut Dev, word: &str, text: &str) -> Option<()> {
    match word {
        "max-download-size" => dev.max = text.parse().ok()?,
        "slots" => dev.slots = text.parse().ok()?,
        "retries" => set_retries(dev, text.parse().ok()?),
        "super-size" => dev.super_size = text.parse().ok()?,
        "unit" => dev.unit = text.parse().ok()?,
        "units" => dev.units = text.parse().ok()?,
        "table-size" => dev.geometry.max_size = text.parse().ok()?,
        "table-slots" => dev.geometry.slots = text.parse().ok()?,
        _ => return None,
    }
    Some(())
}

fn set_retries(dev: &mut Dev, retries: u8) {
    dev.flags = BothFlags {
        a: flags(retries),
        b: flags(retries),
    };
}

/// A name, and its text.
fn add_variable(alloc: Global, dev: &mut Dev, line: &str) -> anyhow::Result<bool> {
    let Some((name, text)) = line.split_once(" ") else {
        return Ok(false);
    };
    let Some(name) = Word::read(name.as_bytes()) else {
        return Ok(false);
    };
    let text = copy_bytes(alloc, text.as_bytes())?;
    dev.vars.push(Variable { name, text })?;
    Ok(true)
}

/// A name, and the number of its bytes, all of which are 0xEE.
fn add_physical(alloc: Global, dev: &mut Dev, line: &str) -> anyhow::Result<bool> {
    let Some((name, len)) = name_and_number(line) else {
        return Ok(false);
    };
    let Ok(len) = usize::try_from(len) else {
        return Ok(false);
    };
    let mut bytes = Vec::new(alloc);
    bytes.resize(len, 0xEE)?;
    let bytes = Items::from_vec(bytes);
    dev.physical.push(Physical { name, bytes })?;
    Ok(true)
}

/// A name, and the most bytes that the group's partitions may have, 0 where there is no such bound.
fn add_group(dev: &mut Dev, line: &str) -> anyhow::Result<bool> {
    let Some((name, limit)) = name_and_number(line) else {
        return Ok(false);
    };
    dev.groups.push(TableGroup { name, limit })?;
    Ok(true)
}

fn name_and_number(line: &str) -> Option<(Name, u64)> {
    let (name, number) = line.split_once(" ")?;
    let name = Name::read(name.as_bytes())?;
    let number = number.parse().ok()?;
    Some((name, number))
}
