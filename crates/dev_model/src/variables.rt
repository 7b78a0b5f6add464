ghost use Rattle.std.specs.Prelude.{◌≡◌, ◌++◌, ◌∷◌, [], false, true, not, ◌&&◌, ◌||◌, if◌then◌else◌, IfOk, OnOk, option_map, codes, decimal, map, flat_map, bytes_eq};
ghost use Rattle.std.specs.Map.{lookup};
ghost use Rattle.fb_frame.specs.Numbers.{size_text};
ghost use Rattle.fb_frame.specs.Slots.{letter, suffix};
ghost use Rattle.fb_frame.specs.declared.slot.Slot.TheVariants.{A, B};
ghost use Rattle.dev_model.specs.Partitions.{has_slots, is_partition, is_userspace};
ghost use Rattle.dev_model.specs.Variables.{yes_or_no, device_rows, super_row, slot_rows, partition_rows, plain_rows, with_slots_only, has_slot, slotted_name, value};

use crate::cells::ByteList;
use crate::copies::copy_bytes;
use crate::device::{Dev, Logical, Physical, SlotFlags, Variable};
use crate::partitions::{has_slots, is_partition, is_userspace};
use fb_frame::items::Items;
use fb_frame::memory::Memory;
use fb_frame::name::Name;
use fb_frame::slot::Slot;
use std::alloc::Global;

/// A variable's name and its text.
pub type Row = (ByteList, ByteList);

fn yes_or_no(answer: bool) -> &'static [u8]
    ensures { result.now ≡ yes_or_no answer }
{
    if answer {
        b"yes".as_slice()
    } else {
        b"no".as_slice()
    }
}

/// A size as a variable tells it: `0x` and upper-case hexadecimal digits.
fn size_text(alloc: Global, size: u64) -> Result<ByteList, Memory>
    ensures { IfOk result (λ text. text ≡ size_text size) }
{
    let text = format!(in alloc; "0x{size:X}").map_err(|_| Memory)?;
    Ok(Items::from_vec(text.into_bytes()))
}

fn decimal(alloc: Global, number: u8) -> Result<ByteList, Memory>
    ensures { IfOk result (λ text. text ≡ decimal number) }
{
    let text = format!(in alloc; "{number}").map_err(|_| Memory)?;
    Ok(Items::from_vec(text.into_bytes()))
}

fn push_row(alloc: Global, rows: &mut Items<Row>, name: &[u8], text: &[u8]) -> Result<(), Memory>
    ensures { OnOk result (rows.new ≡ rows.old ++ (name.now, text.now) ∷ []) }
{
    let name = copy_bytes(alloc, name)?;
    let text = copy_bytes(alloc, text)?;
    rows.push((name, text)).map_err(|_| Memory)?;
    Ok(())
}

/// Both lists, one after the other.
fn joined(alloc: Global, head: &[u8], tail: &[u8]) -> Result<ByteList, Memory>
    ensures { IfOk result (λ both. both ≡ head.now ++ tail.now) }
{
    let mut both = Vec::from_slice(alloc, head).map_err(|_| Memory)?;
    both.extend_from_slice(tail).map_err(|_| Memory)?;
    Ok(Items::from_vec(both))
}

/// Adds a row whose name has two parts.
pub(crate) fn push_row_of(
    alloc: Global,
    rows: &mut Items<Row>,
    head: &[u8],
    of: &[u8],
    text: &[u8],
) -> Result<(), Memory>
    ensures { OnOk result (rows.new ≡ rows.old ++ (head.now ++ of.now, text.now) ∷ []) }
{
    let name = joined(alloc, head, of)?;
    push_row(alloc, rows, name.as_slice(), text)?;
    Ok(())
}

fn push_labels(alloc: Global, rows: &mut Items<Row>, dev: &Dev) -> Result<(), Memory>
    ensures { OnOk result (rows.new ≡ rows.old ++ (codes "version", codes "0.4")
        ∷ (codes "product", dev.now.product) ∷ (codes "serialno", dev.now.serial)
        ∷ (codes "secure", yes_or_no dev.now.locked)
        ∷ (codes "unlocked", yes_or_no (not dev.now.locked)) ∷ []) }
{
    push_row(alloc, rows, b"version".as_slice(), b"0.4".as_slice())?;
    push_row(alloc, rows, b"product".as_slice(), dev.product.as_slice())?;
    push_row(alloc, rows, b"serialno".as_slice(), dev.serial.as_slice())?;
    push_row(alloc, rows, b"secure".as_slice(), yes_or_no(dev.locked))?;
    push_row(alloc, rows, b"unlocked".as_slice(), yes_or_no(!dev.locked))?;
    Ok(())
}

fn push_current_slot(alloc: Global, rows: &mut Items<Row>, dev: &Dev) -> Result<(), Memory>
    ensures { OnOk result (rows.new ≡ rows.old ++ with_slots_only dev.now
        ((codes "current-slot", letter dev.now.active ∷ []) ∷ [])) }
{
    if has_slots(dev) {
        push_row(
            alloc,
            rows,
            b"current-slot".as_slice(),
            [dev.active.letter()].as_slice(),
        )?;
    }
    Ok(())
}

fn slot_count(dev: &Dev) -> &'static [u8]
    ensures { result.now ≡ (if has_slots dev.now then codes "2" else codes "0") }
{
    if has_slots(dev) {
        b"2".as_slice()
    } else {
        b"0".as_slice()
    }
}

fn push_limits(alloc: Global, rows: &mut Items<Row>, dev: &Dev) -> Result<(), Memory>
    ensures { OnOk result (rows.new ≡ rows.old
        ++ (codes "slot-count", if has_slots dev.now then codes "2" else codes "0")
        ∷ (codes "max-download-size", size_text dev.now.max)
        ∷ (codes "is-userspace", yes_or_no (is_userspace dev.now.mode)) ∷ []) }
{
    let max = size_text(alloc, dev.max as u64)?;
    push_row(alloc, rows, b"slot-count".as_slice(), slot_count(dev))?;
    push_row(alloc, rows, b"max-download-size".as_slice(), max.as_slice())?;
    push_row(
        alloc,
        rows,
        b"is-userspace".as_slice(),
        yes_or_no(is_userspace(dev.mode)),
    )?;
    Ok(())
}

fn push_super(alloc: Global, rows: &mut Items<Row>, dev: &Dev) -> Result<(), Memory>
    ensures { OnOk result (rows.new ≡ rows.old ++ super_row dev.now.super_name) }
{
    if let Some(name) = &dev.super_name {
        push_row(
            alloc,
            rows,
            b"super-partition-name".as_slice(),
            name.bytes(),
        )?;
    }
    Ok(())
}

/// What the device tells of itself.
fn push_device(alloc: Global, rows: &mut Items<Row>, dev: &Dev) -> Result<(), Memory>
    ensures { OnOk result (rows.new ≡ rows.old ++ device_rows dev.now) }
{
    push_labels(alloc, rows, dev)?;
    push_current_slot(alloc, rows, dev)?;
    push_limits(alloc, rows, dev)?;
    push_super(alloc, rows, dev)?;
    Ok(())
}

fn push_variables(alloc: Global, rows: &mut Items<Row>, vars: &[Variable]) -> Result<(), Memory>
    ensures { OnOk result (rows.new ≡ rows.old ++ map (λ v. (v.name, v.text)) vars.now) }
{
    for var in vars {
        push_row(alloc, rows, var.name.bytes(), var.text.as_slice())?;
    }
    Ok(())
}

/// What the device tells of a slot.
fn push_slot(
    alloc: Global,
    rows: &mut Items<Row>,
    slot: Slot,
    flags: SlotFlags,
) -> Result<(), Memory>
    ensures { OnOk result (rows.new ≡ rows.old ++ slot_rows slot flags) }
{
    let letter = [slot.letter()];
    let retries = decimal(alloc, flags.retries)?;
    push_row_of(
        alloc,
        rows,
        b"slot-successful:".as_slice(),
        letter.as_slice(),
        yes_or_no(flags.successful),
    )?;
    push_row_of(
        alloc,
        rows,
        b"slot-unbootable:".as_slice(),
        letter.as_slice(),
        yes_or_no(flags.unbootable),
    )?;
    push_row_of(
        alloc,
        rows,
        b"slot-retry-count:".as_slice(),
        letter.as_slice(),
        retries.as_slice(),
    )?;
    Ok(())
}

fn push_slots(alloc: Global, rows: &mut Items<Row>, dev: &Dev) -> Result<(), Memory>
    ensures { OnOk result (rows.new ≡ rows.old ++ with_slots_only dev.now (slot_rows A dev.now.flags.a
        ++ slot_rows B dev.now.flags.b)) }
{
    if has_slots(dev) {
        push_slot(alloc, rows, Slot::A, dev.flags.a)?;
        push_slot(alloc, rows, Slot::B, dev.flags.b)?;
    }
    Ok(())
}

/// What the device tells of a partition.
fn push_partition(
    alloc: Global,
    rows: &mut Items<Row>,
    logical: bool,
    name: &[u8],
    bytes: &[u8],
) -> Result<(), Memory>
    ensures { OnOk result (rows.new ≡ rows.old ++ partition_rows logical name.now bytes.now) }
{
    let size = size_text(alloc, bytes.len() as u64)?;
    push_row_of(
        alloc,
        rows,
        b"partition-size:".as_slice(),
        name,
        size.as_slice(),
    )?;
    push_row_of(
        alloc,
        rows,
        b"partition-type:".as_slice(),
        name,
        b"raw".as_slice(),
    )?;
    push_row_of(
        alloc,
        rows,
        b"is-logical:".as_slice(),
        name,
        yes_or_no(logical),
    )?;
    Ok(())
}

#[tactic(auto, using(crate::proofs::RowLemmas::row_turns))]
fn push_physical(alloc: Global, rows: &mut Items<Row>, parts: &[Physical]) -> Result<(), Memory>
    ensures { OnOk result (rows.new ≡ rows.old
        ++ flat_map (λ p. partition_rows false p.name p.bytes) parts.now) }
{
    for part in parts {
        push_partition(alloc, rows, false, part.name.bytes(), part.bytes.as_slice())?;
    }
    Ok(())
}

#[tactic(auto, using(crate::proofs::RowLemmas::row_turns))]
fn push_logical(alloc: Global, rows: &mut Items<Row>, parts: &[Logical]) -> Result<(), Memory>
    ensures { OnOk result (rows.new ≡ rows.old
        ++ flat_map (λ p. partition_rows true p.name p.bytes) parts.now) }
{
    for part in parts {
        push_partition(alloc, rows, true, part.name.bytes(), part.bytes.as_slice())?;
    }
    Ok(())
}

/// All variables but `has-slot`, in the order in which `all` tells them.
pub(crate) fn plain_rows(alloc: Global, dev: &Dev) -> Result<Items<Row>, Memory>
    ensures { IfOk result (λ rows. rows ≡ plain_rows dev.now) }
{
    let mut rows = Items::new(alloc);
    push_device(alloc, &mut rows, dev)?;
    push_variables(alloc, &mut rows, dev.vars.as_slice())?;
    push_slots(alloc, &mut rows, dev)?;
    push_physical(alloc, &mut rows, dev.physical.as_slice())?;
    push_logical(alloc, &mut rows, dev.logical.as_slice())?;
    Ok(rows)
}

fn text_of<'a>(name: &[u8], rows: &'a [Row]) -> Option<&'a [u8]>
    ensures { option_map (λ text. text.now) result ≡ lookup (λ n. bytes_eq n name.now) rows.now }
{
    for row in rows {
        if row.0.as_slice() == name {
            return Some(row.1.as_slice());
        }
    }
    None
}

fn is_partition_of(alloc: Global, dev: &Dev, name: &[u8], slot: Slot) -> Result<bool, Memory>
    ensures { IfOk result (λ there. there ≡ is_partition dev.now (name.now ++ suffix slot)) }
{
    let whole = joined(alloc, name, [b'_', slot.letter()].as_slice())?;
    Ok(is_partition(dev, whole.as_slice()))
}

fn is_slotted(alloc: Global, dev: &Dev, name: &[u8]) -> Result<bool, Memory>
    ensures { IfOk result (λ slotted. slotted ≡ (has_slots dev.now
        && (is_partition dev.now (name.now ++ suffix A) || is_partition dev.now (name.now ++ suffix B)))) }
{
    let of_a = is_partition_of(alloc, dev, name, Slot::A)?;
    let of_b = is_partition_of(alloc, dev, name, Slot::B)?;
    Ok(has_slots(dev) && (of_a || of_b))
}

/// Whether a name has a partition for each slot, None where it has no partition at all.
fn has_slot(alloc: Global, dev: &Dev, name: &[u8]) -> Result<Option<bool>, Memory>
    ensures { IfOk result (λ answer. option_map yes_or_no answer ≡ has_slot dev.now name.now) }
{
    let slotted = is_slotted(alloc, dev, name)?;
    if slotted {
        Ok(Some(true))
    } else if is_partition(dev, name) {
        Ok(Some(false))
    } else {
        Ok(None)
    }
}

/// The partition name that follows `has-slot:` in a name that begins so.
fn slotted_name(name: &[u8]) -> Option<Name>
    ensures { result ≡ slotted_name name.now }
{
    if name.starts_with(b"has-slot:".as_slice()) {
        Name::read(&name[9..])
    } else {
        None
    }
}

/// What `has-slot` tells of a name, None where it has no partition.
pub(crate) fn has_slot_text(
    alloc: Global,
    dev: &Dev,
    name: &[u8],
) -> Result<Option<ByteList>, Memory>
    ensures { IfOk result (λ text. text ≡ has_slot dev.now name.now) }
{
    let answer = has_slot(alloc, dev, name)?;
    match answer {
        None => Ok(None),
        Some(slotted) => {
            let text = copy_bytes(alloc, yes_or_no(slotted))?;
            Ok(Some(text))
        }
    }
}

/// The text of a variable, None where there is no such variable.
#[tactic(auto, unfolding(crate::specs::Variables::value))]
pub fn value(alloc: Global, dev: &Dev, name: &[u8]) -> Result<Option<ByteList>, Memory>
    ensures { IfOk result (λ text. text ≡ value dev.now name.now) }
{
    let rows = plain_rows(alloc, dev)?;
    if let Some(text) = text_of(name, rows.as_slice()) {
        let text = copy_bytes(alloc, text)?;
        return Ok(Some(text));
    }
    match slotted_name(name) {
        None => Ok(None),
        Some(base) => has_slot_text(alloc, dev, base.bytes()),
    }
}
