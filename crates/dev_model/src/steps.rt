ghost use Rattle.std.specs.Prelude.{◌≡◌, IfOk, IsTrue};
ghost use Rattle.dev_model.specs.declared.step.Step.TheVariants.{Resize, Table};
ghost use Rattle.dev_model.specs.Images.{over, round_up};
ghost use Rattle.dev_model.specs.Partitions.{with_bytes, with_logical_bytes, with_mode};
ghost use Rattle.dev_model.specs.Refusals.{is_too_large};
ghost use Rattle.dev_model.specs.Steps.{can, meets, is_boot, apply, run, activated, with_fresh, wiped, cut_or_padded};
ghost use Rattle.dev_model.specs.Tables.{with_tables};

use crate::cells::Cell;
use crate::changes::{Change, changed_logical, changed_physical};
use crate::copies::copy_dev;
use crate::device::{BothFlags, Dev, Mode, SlotFlags};
use crate::merged::with_tables;
use crate::partitions::{bytes_of, has_slots, is_fastboot, is_logical, is_target, is_userspace};
use crate::sizes::{resized_groups_fit, resized_units_fit, round_up};
use crate::step::Step;
use crate::tables::table_refusal;
use fb_frame::memory::Memory;
use fb_frame::name::Name;
use fb_frame::slot::Slot;
use fb_frame::tables::Tables;
use std::alloc::Global;

/// The flags of a slot that was made active.
const FRESH: SlotFlags = SlotFlags {
    successful: false,
    unbootable: false,
    retries: 7,
};

fn with_fresh(slot: Slot, flags: BothFlags) -> BothFlags
    ensures { result ≡ with_fresh slot flags }
{
    match slot {
        Slot::A => BothFlags {
            a: FRESH,
            b: flags.b,
        },
        Slot::B => BothFlags {
            a: flags.a,
            b: FRESH,
        },
    }
}

/// The device with another active slot.
pub fn activated(alloc: Global, slot: Slot, dev: &Dev) -> Result<Dev, Memory>
    ensures { IfOk result (λ after. after ≡ activated slot dev.now) }
{
    let mut after = copy_dev(alloc, dev)?;
    after.active = slot;
    after.flags = with_fresh(slot, dev.flags);
    Ok(after)
}

/// The device with the image put over the partition of the name.
pub fn with_image(alloc: Global, name: &Name, cells: &[Cell], dev: &Dev) -> Result<Dev, Memory>
    ensures { IfOk result (λ after. after ≡ with_bytes name.now (over cells.now) dev.now) }
{
    let change = Change::Put(cells);
    let mut after = copy_dev(alloc, dev)?;
    after.physical = changed_physical(alloc, name.bytes(), &change, dev.physical.as_slice())?;
    after.logical = changed_logical(alloc, name.bytes(), &change, dev.logical.as_slice())?;
    Ok(after)
}

/// The device with each byte of the partition of the name 0xFF.
pub fn erased(alloc: Global, name: &Name, dev: &Dev) -> Result<Dev, Memory>
    ensures { IfOk result (λ after. after ≡ with_bytes name.now wiped dev.now) }
{
    let mut after = copy_dev(alloc, dev)?;
    after.physical = changed_physical(alloc, name.bytes(), &Change::Wipe, dev.physical.as_slice())?;
    after.logical = changed_logical(alloc, name.bytes(), &Change::Wipe, dev.logical.as_slice())?;
    Ok(after)
}

/// The device with the logical partition of the name of this size, rounded up to a block.
pub fn resized(alloc: Global, name: &Name, size: u64, dev: &Dev) -> Result<Dev, Memory>
    ensures { IfOk result (λ after. after ≡ with_logical_bytes name.now
        (cut_or_padded (round_up size)) dev.now) }
{
    let change = Change::Resize(round_up(size));
    let mut after = copy_dev(alloc, dev)?;
    after.logical = changed_logical(alloc, name.bytes(), &change, dev.logical.as_slice())?;
    Ok(after)
}

/// The device in another mode.
pub fn with_mode(alloc: Global, mode: Mode, dev: &Dev) -> Result<Dev, Memory>
    ensures { IfOk result (λ after. after ≡ with_mode mode dev.now) }
{
    let mut after = copy_dev(alloc, dev)?;
    after.mode = mode;
    Ok(after)
}

/// Whether an image is longer than the partition of the name.
pub fn is_too_large(cells: &[Cell], dev: &Dev, name: &[u8]) -> bool
    ensures { result ≡ is_too_large cells.now dev.now name.now }
{
    match bytes_of(dev, name) {
        None => !cells.is_empty(),
        Some(old) => old.len() < cells.len(),
    }
}

fn can_resize(dev: &Dev, name: &Name, size: u64) -> bool
    ensures { result ≡ meets (Resize name.now size) dev.now }
{
    is_userspace(dev.mode)
        && is_logical(dev, name.bytes())
        && resized_units_fit(dev, name.bytes(), round_up(size))
        && resized_groups_fit(dev, name.bytes(), round_up(size))
}

fn can_take(dev: &Dev, tables: &Tables, wipe: bool) -> bool
    ensures { result ≡ meets (Table tables.now wipe) dev.now }
{
    is_userspace(dev.mode) && dev.super_name.is_some() && table_refusal(tables, wipe, dev).is_none()
}

/// What the step needs of the device besides.
fn meets(step: &Step, dev: &Dev) -> bool
    ensures { result ≡ meets step.now dev.now }
{
    match step {
        Step::Active(_) => has_slots(dev),
        Step::Put(name, cells) => {
            is_target(dev, name.bytes()) && !is_too_large(cells.as_slice(), dev, name.bytes())
        }
        Step::Wipe(name) => is_target(dev, name.bytes()),
        Step::Resize(name, size) => can_resize(dev, name, *size),
        Step::Table(tables, wipe) => can_take(dev, tables, *wipe),
        Step::Boot(_) => true,
    }
}

fn is_boot(step: &Step) -> bool
    ensures { result ≡ is_boot step.now }
{
    match step {
        Step::Boot(_) => true,
        _ => false,
    }
}

/// Whether the device can take the step.
pub fn can(step: &Step, dev: &Dev) -> bool
    ensures { result ≡ can step.now dev.now }
{
    is_fastboot(dev.mode) && (is_boot(step) || !dev.locked) && meets(step, dev)
}

/// The device after a step that it can take.
pub fn apply(alloc: Global, step: &Step, dev: &Dev) -> Result<Dev, Memory>
    requires taken { IsTrue (can step.now dev.now) }
    ensures after { IfOk result (λ next. next ≡ apply step.now dev.now) }
{
    match step {
        Step::Active(slot) => activated(alloc, *slot, dev),
        Step::Put(name, cells) => with_image(alloc, name, cells.as_slice(), dev),
        Step::Wipe(name) => erased(alloc, name, dev),
        Step::Resize(name, size) => resized(alloc, name, *size, dev),
        Step::Table(tables, wipe) => with_tables(alloc, tables, *wipe, dev),
        Step::Boot(mode) => with_mode(alloc, *mode, dev),
    }
}

/// The device after all steps, None exactly where it can't take one of them.
pub fn run(alloc: Global, steps: &[Step], dev: &Dev) -> Result<Option<Dev>, Memory>
    ensures { IfOk result (λ after. after ≡ run steps.now dev.now) }
{
    let mut now = copy_dev(alloc, dev)?;
    for step in steps {
        if !can(step, &now) {
            return Ok(None);
        }
        now = apply(alloc, step, &now)?;
    }
    Ok(Some(now))
}
