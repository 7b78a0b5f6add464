use fb_frame::items::Items;
use fb_frame::name::Name;
use fb_frame::slot::Slot;
use flash_plan::answers::{Answers, Part};
use flash_plan::options::{Options, SlotChoice};
use flash_plan::plan::{Order, PlanError, plan};
use flash_plan::product::Product;
use product_info::tasks::read_tasks;
use sparse_image::index::{Index, check};
use sparse_image::source::MemoryBytes;
use std::alloc::Global;
use std::test::Fail;
use super_meta::geometry::{Geometry, write_geometry};
use super_meta::table::{BlockDevice, Group, Partition, Table};
use super_meta::writing::write_table;

/// The tasks of the falcon up to the first that is about a logical partition.
const PHYSICAL: &str = "version 1\n\nflash bootloader\nflash radio\nreboot bootloader\nflash boot\n\
    flash --apply-vbmeta vbmeta\n";

/// Its tasks from the update of super on.
const LOGICAL: &str = "update-super\nflash system\nflash vendor\nflash product\n\
    flash --slot-other system system_other.img\n";

/// What the falcon's steps are, up to the update of super and after it.
const FIRST: &str = "active A\nput bootloader_a 0\nput radio_a 1\nboot Bootloader\nput boot_a 2\n\
    put vbmeta_a 3\nboot Fastboot\n";

const LAST: &str = "resize system_a 0\nresize vendor_a 0\nresize product_a 0\nresize system_b 0\n\
    resize system_a 200704\nput system_a 4\nresize vendor_a 65536\nput vendor_a 5\n\
    resize product_a 16384\nput product_a 6\nresize system_b 8192\nput system_b 7\n";

fn name(text: &[u8]) -> Result<Name, Fail> {
    Ok(Name::read(text).ok_or("a name")?)
}

fn partition(text: &[u8], group: u32) -> Result<Partition, Fail> {
    Ok(Partition {
        name: name(text)?,
        attributes: 0,
        first: 0,
        count: 0,
        group,
    })
}

fn group(text: &[u8], limit: u64) -> Result<Group, Fail> {
    Ok(Group {
        name: name(text)?,
        limit,
    })
}

/// The falcon's table: three partitions of each slot.
fn table(alloc: Global) -> Result<Table, Fail> {
    let mut partitions = Vec::new(alloc);
    for text in [b"system_a", b"vendor_a"] {
        partitions.push(partition(text, 1)?)?;
    }
    partitions.push(partition(b"product_a", 1)?)?;
    for text in [b"system_b", b"vendor_b"] {
        partitions.push(partition(text, 2)?)?;
    }
    partitions.push(partition(b"product_b", 2)?)?;
    let mut groups = Vec::new(alloc);
    groups.push(group(b"default", 0)?)?;
    groups.push(group(b"main_a", 1_048_576)?)?;
    groups.push(group(b"main_b", 1_048_576)?)?;
    Ok(Table {
        minor: 0,
        flags: 0,
        partitions,
        extents: Vec::new(alloc),
        groups,
        device: BlockDevice {
            first_sector: 640,
            alignment: 65_536,
            offset: 0,
            size: 4_194_304,
            name: name(b"super")?,
        },
    })
}

/// The falcon's super_empty.img.
fn empty_super(alloc: Global) -> Result<Items<u8>, Fail> {
    let geometry = Geometry {
        max_size: 65_536,
        slots: 2,
        block_size: 4096,
    };
    let table = table(alloc)?;
    if !geometry.is_good() || !table.is_sound() {
        return Err("not a super")?;
    }
    let mut block = [0; 4096];
    write_geometry(&geometry, &mut block);
    let mut bytes = [0; 1024];
    let size = write_table(&table, &mut bytes).or(Err("a table"))?;
    let mut file = Vec::from_slice(alloc, &block)?;
    file.extend_from_slice(&bytes[..size])?;
    Ok(Items::from_vec(file))
}

/// Indexes of raw images of zeros, of the falcon's lengths.
fn images(alloc: Global) -> Result<Items<Index>, Fail> {
    let mut images = Items::new(alloc);
    for len in [8192, 4096, 163_840, 4096, 200_704, 65_536, 16_384, 4097] {
        let mut bytes = Vec::new(alloc);
        bytes.resize(len, 0)?;
        let index = check(alloc, &mut MemoryBytes::new(&bytes)).or(Err("an image"))?;
        images.push(index)?;
    }
    Ok(images)
}

/// Which device answers: with its slots, with its super, and with each partition that it has.
#[derive(Clone, Copy, PartialEq, Eq)]
enum Device {
    /// The falcon without logical partitions.
    Falcon,
    /// The same without super.
    Slots,
    /// A device without slots and without super, whose one partition is `boot`.
    Plain,
}

fn parts(alloc: Global, device: Device) -> Result<Items<Part>, Fail> {
    let slotted: [&[u8]; 9] = [
        b"bootloader_a",
        b"bootloader_b",
        b"radio_a",
        b"radio_b",
        b"boot_a",
        b"boot_b",
        b"vbmeta_a",
        b"vbmeta_b",
        b"userdata",
    ];
    let plain: [&[u8]; 1] = [b"boot"];
    let names: &[&[u8]] = if device == Device::Plain {
        &plain
    } else {
        &slotted
    };
    let mut parts = Items::new(alloc);
    for text in names {
        parts.push(Part {
            name: name(text)?,
            logical: false,
        })?;
    }
    Ok(parts)
}

fn answers(alloc: Global, device: Device) -> Result<Answers, Fail> {
    Ok(Answers {
        current: (device != Device::Plain).then_some(Slot::A),
        max: 131_072,
        super_name: if device == Device::Falcon {
            Some(name(b"super")?)
        } else {
            None
        },
        parts: parts(alloc, device)?,
    })
}

fn shown_name(name: &Name) -> Result<&str, Fail> {
    Ok(str::from_utf8(name.bytes())?)
}

fn shown(alloc: Global, order: &Order) -> Result<String, Fail> {
    Ok(match order {
        Order::Active(slot) => format!(in alloc; "active {slot:?}\n")?,
        Order::Resize(name, size) => format!(in alloc; "resize {} {size}\n", shown_name(name)?)?,
        Order::Put(name, place) => format!(in alloc; "put {} {place}\n", shown_name(name)?)?,
        Order::Wipe(name) => format!(in alloc; "wipe {}\n", shown_name(name)?)?,
        Order::Table(name, wipe) => format!(in alloc; "table {} {wipe}\n", shown_name(name)?)?,
        Order::Boot(what) => format!(in alloc; "boot {what:?}\n")?,
    })
}

/// The steps, or why there are none.
fn outcome(alloc: Global, tasks: &str, options: &Options, device: Device) -> Result<String, Fail> {
    let tasks = tasks.as_bytes();
    if tasks.len() > 65_536 {
        return Err("too long")?;
    }
    let product = Product {
        requirements: Items::new(alloc),
        tasks: read_tasks(alloc, tasks).or(Err("tasks"))?,
        images: images(alloc)?,
        empty: Some(empty_super(alloc)?),
    };
    let answers = answers(alloc, device)?;
    match plan(alloc, &product, options, &answers) {
        Ok(plan) => {
            let mut text = String::new(alloc);
            for order in plan.as_slice() {
                text.push_str(shown(alloc, order)?.as_str())?;
            }
            Ok(text)
        }
        Err(PlanError::Bad { line, kind }) => Ok(format!(in alloc; "line {line} {kind:?}")?),
        Err(PlanError::Memory) => Err("out of memory")?,
    }
}

const PLAIN: Options = Options {
    slot: SlotChoice::Current,
    wipe: false,
    skip_reboot: false,
    force: false,
    retries: 0,
};

#[test]
fn plans_the_falcon(rt: HostRuntime) -> Result<(), Fail> {
    let alloc = rt.alloc();
    let turned = format!(in alloc; "{PHYSICAL}reboot fastboot\n{LOGICAL}")?;
    let unturned = format!(in alloc; "{PHYSICAL}\n{LOGICAL}")?;
    let steps = format!(in alloc; "{FIRST}table super false\n{LAST}boot System\n")?;
    let got = outcome(alloc, turned.as_str(), &PLAIN, Device::Falcon)?;
    assert_eq!(rt; got.as_str(), steps.as_str());
    assert_eq!(rt; got.as_str().lines().count(), 21);
    let got = outcome(alloc, unturned.as_str(), &PLAIN, Device::Falcon)?;
    assert_eq!(rt; got.as_str(), steps.as_str());
    let wiping = Options {
        wipe: true,
        ..PLAIN
    };
    let turned = format!(in alloc; "{PHYSICAL}reboot fastboot\n{LOGICAL}if-wipe erase userdata\n")?;
    let steps = format!(in alloc; "{FIRST}table super true\n{LAST}wipe userdata\nboot System\n")?;
    let got = outcome(alloc, turned.as_str(), &wiping, Device::Falcon)?;
    assert_eq!(rt; got.as_str(), steps.as_str());
    assert_eq!(rt; got.as_str().lines().count(), 22);
    let again = format!(in alloc; "{PHYSICAL}\n{LOGICAL}\nupdate-super\n")?;
    let got = outcome(alloc, again.as_str(), &PLAIN, Device::Falcon)?;
    assert_eq!(rt; got.as_str(), "line 15 UpdateSuper");
    let got = outcome(alloc, unturned.as_str(), &PLAIN, Device::Slots)?;
    assert_eq!(rt; got.as_str(), "line 9 NoSuper");
    Ok(())
}

#[test]
fn plans_without_super(rt: HostRuntime) -> Result<(), Fail> {
    let alloc = rt.alloc();
    let b = Options {
        slot: SlotChoice::Is(Slot::B),
        ..PLAIN
    };
    let other = Options {
        slot: SlotChoice::Other,
        skip_reboot: true,
        ..PLAIN
    };
    let rows: [(&str, &Options, Device, &str); 8] = [
        (
            "version 1\nflash bootloader\nflash radio\nreboot bootloader\nflash boot\n",
            &PLAIN,
            Device::Slots,
            "active A\nput bootloader_a 0\nput radio_a 1\nboot Bootloader\nput boot_a 2\nboot System\n",
        ),
        (
            "version 1\nflash bootloader\nreboot bootloader\nerase userdata",
            &b,
            Device::Slots,
            "active B\nput bootloader_b 0\nboot Bootloader\nwipe userdata\nboot System\n",
        ),
        (
            "version 1\nflash --slot-other boot\nreboot recovery",
            &other,
            Device::Slots,
            "active B\nput boot_a 0\nboot Recovery\n",
        ),
        (
            "version 1\nflash boot",
            &PLAIN,
            Device::Plain,
            "put boot 0\nboot System\n",
        ),
        (
            "version 1\nreboot\nflash boot",
            &PLAIN,
            Device::Plain,
            "line 2 Reboot",
        ),
        (
            "version 1\nflash xyz",
            &PLAIN,
            Device::Plain,
            "line 2 NoPartition",
        ),
        ("version 1\nflash boot", &b, Device::Plain, "line 0 NoSlot"),
        (
            "version 1\nflash --slot-other boot",
            &PLAIN,
            Device::Plain,
            "line 2 NoSlot",
        ),
    ];
    for (tasks, options, device, want) in rows {
        let got = outcome(alloc, tasks, options, device)?;
        assert_eq!(rt; got.as_str(), want);
    }
    Ok(())
}
