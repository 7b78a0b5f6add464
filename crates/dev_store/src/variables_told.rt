ghost use Rattle.std.specs.Prelude.{◌≡◌, ◌++◌, ◌∷◌, [], ◌+◌, ◌<◌, ◌^◌, List, Some, None};
ghost use Rattle.std.specs.Prelude.{slice_get, ◌==◌, false, true, map, flat_map};
ghost use Rattle.std.specs.Prelude.{not, codes, if◌then◌else◌};
ghost use Rattle.fb_frame.specs.Numbers.{size_text};
ghost use Rattle.fb_frame.specs.Slots.{letter};
ghost use Rattle.fb_frame.specs.declared.slot.Slot.TheVariants.{A, B};
ghost use Rattle.dev_model.specs.Partitions.{has_slots, is_userspace};
ghost use Rattle.dev_model.specs.Variables.{Row as NamedText, yes_or_no, with_slots_only, device_rows};
ghost use Rattle.dev_model.specs.Variables.{super_row, slot_rows, partition_rows, plain_rows};
ghost use Rattle.dev_store.specs.ToldRows.{row_of, text_of, stepped, told_device, told_physical};
ghost use Rattle.dev_store.specs.ToldRows.{told_logical, part_extents, AreSummed};
ghost use Rattle.std.specs.List.{AllByRecursion};
ghost use Rattle.dev_store.specs.Supers.{bytes_in};

use crate::layout::PhysicalPart;
use crate::units::extents_of;
use crate::variables_row::{Extents, Facts, Row, Step, Text};
use dev_model::device::{SlotFlags, Variable};
use fb_frame::slot::Slot;
use super_meta::table::{Extent, Partition};

/// A row whose name is fixed.
fn named<'a>(name: &'a [u8], text: Text<'a>) -> Row<'a>
    ensures { row_of result ≡ (name.now, text_of text.entry) }
{
    Row {
        head: name,
        of: b"".as_slice(),
        text,
    }
}

pub fn yes_or_no(answer: bool) -> Text<'static>
    ensures { text_of result ≡ yes_or_no answer }
{
    if answer {
        Text::Bytes(b"yes".as_slice())
    } else {
        Text::Bytes(b"no".as_slice())
    }
}

/// The row at a place of a few, or how many places after them.
fn step<'a>(rows: &[Row<'a>], place: usize) -> Step<'a>
    ensures { (more : List NamedText) → slice_get (map row_of rows.now ++ more) place ≡ stepped result more }
{
    if place < rows.len() {
        Step::Found(rows[place])
    } else {
        Step::Later(place - rows.len())
    }
}

fn label_rows<'a>(facts: &Facts<'a>) -> [Row<'a>; 5]
    ensures { map row_of result ≡ (codes "version", codes "0.4")
        ∷ (codes "product", facts.now.product.now) ∷ (codes "serialno", facts.now.serial.now)
        ∷ (codes "secure", yes_or_no facts.now.locked)
        ∷ (codes "unlocked", yes_or_no (not facts.now.locked)) ∷ [] }
{
    [
        named(b"version".as_slice(), Text::Bytes(b"0.4".as_slice())),
        named(b"product".as_slice(), Text::Bytes(facts.product)),
        named(b"serialno".as_slice(), Text::Bytes(facts.serial)),
        named(b"secure".as_slice(), yes_or_no(facts.locked)),
        named(b"unlocked".as_slice(), yes_or_no(!facts.locked)),
    ]
}

fn slot_letter(slot: Slot) -> &'static [u8]
    ensures { result.now ≡ letter slot ∷ [] }
{
    match slot {
        Slot::A => b"a".as_slice(),
        Slot::B => b"b".as_slice(),
    }
}

fn current_slot_step<'a>(facts: &Facts<'a>, place: usize) -> Step<'a>
    ensures { (more : List NamedText) → slice_get (with_slots_only (told_device facts.now)
        ((codes "current-slot", letter facts.now.active ∷ []) ∷ []) ++ more) place ≡ stepped result more }
{
    if facts.slots == 2 {
        let letter = slot_letter(facts.active);
        step(
            &[named(b"current-slot".as_slice(), Text::Bytes(letter))],
            place,
        )
    } else {
        Step::Later(place)
    }
}

fn slot_count(slots: u8) -> Text<'static>
    ensures { text_of result ≡ (if slots == 2 then codes "2" else codes "0") }
{
    if slots == 2 {
        Text::Bytes(b"2".as_slice())
    } else {
        Text::Bytes(b"0".as_slice())
    }
}

fn limit_rows<'a>(facts: &Facts<'a>) -> [Row<'a>; 3]
    ensures { map row_of result
        ≡ (codes "slot-count", if has_slots (told_device facts.now) then codes "2" else codes "0")
        ∷ (codes "max-download-size", size_text facts.now.max)
        ∷ (codes "is-userspace", yes_or_no (is_userspace (told_device facts.now).mode)) ∷ [] }
{
    [
        named(b"slot-count".as_slice(), slot_count(facts.slots)),
        named(
            b"max-download-size".as_slice(),
            Text::Size(u64::from(facts.max)),
        ),
        named(b"is-userspace".as_slice(), yes_or_no(facts.userspace)),
    ]
}

fn super_step<'a>(facts: &'a Facts<'a>, place: usize) -> Step<'a>
    ensures { (more : List NamedText) → slice_get (super_row facts.now.super_name ++ more)
        place ≡ stepped result more }
{
    match &facts.super_name {
        None => Step::Later(place),
        Some(name) => step(
            &[named(
                b"super-partition-name".as_slice(),
                Text::Bytes(name.bytes()),
            )],
            place,
        ),
    }
}

fn labels_step<'a>(facts: &Facts<'a>, place: usize) -> Step<'a>
    ensures { (more : List NamedText) → slice_get (((codes "version", codes "0.4")
        ∷ (codes "product", facts.now.product.now) ∷ (codes "serialno", facts.now.serial.now)
        ∷ (codes "secure", yes_or_no facts.now.locked)
        ∷ (codes "unlocked", yes_or_no (not facts.now.locked)) ∷ []) ++ more) place ≡ stepped result more }
{
    step(&label_rows(facts), place)
}

fn limits_step<'a>(facts: &Facts<'a>, place: usize) -> Step<'a>
    ensures { (more : List NamedText) → slice_get (
        ((codes "slot-count", if has_slots (told_device facts.now) then codes "2" else codes "0")
        ∷ (codes "max-download-size", size_text facts.now.max)
        ∷ (codes "is-userspace", yes_or_no (is_userspace (told_device facts.now).mode)) ∷ []) ++ more)
        place ≡ stepped result more }
{
    step(&limit_rows(facts), place)
}

/// What a device tells of itself.
fn device_step<'a>(facts: &'a Facts<'a>, place: usize) -> Step<'a>
    ensures { (more : List NamedText) → slice_get (device_rows (told_device facts.now) ++ more)
        place ≡ stepped result more }
{
    let place = match labels_step(facts, place) {
        Step::Found(row) => return Step::Found(row),
        Step::Later(place) => place,
    };
    let place = match current_slot_step(facts, place) {
        Step::Found(row) => return Step::Found(row),
        Step::Later(place) => place,
    };
    let place = match limits_step(facts, place) {
        Step::Found(row) => return Step::Found(row),
        Step::Later(place) => place,
    };
    super_step(facts, place)
}

fn variable_step<'a>(vars: &'a [Variable], place: usize) -> Step<'a>
    ensures { (more : List NamedText) → slice_get (map (λ v. (v.name, v.text)) vars.now ++ more)
        place ≡ stepped result more }
{
    if place < vars.len() {
        let variable = &vars[place];
        let text = Text::Bytes(variable.text.as_slice());
        Step::Found(named(variable.name.bytes(), text))
    } else {
        Step::Later(place - vars.len())
    }
}

/// A row whose name ends in the name of a slot or a partition.
pub fn named_of<'a>(head: &'a [u8], of: &'a [u8], text: Text<'a>) -> Row<'a>
    ensures { row_of result ≡ (head.now ++ of.now, text_of text.entry) }
{
    Row { head, of, text }
}

/// What a device tells of a slot.
fn slot_rows<'a>(slot: Slot, flags: SlotFlags) -> [Row<'a>; 3]
    ensures { map row_of result ≡ slot_rows slot flags }
{
    let letter = slot_letter(slot);
    [
        named_of(
            b"slot-successful:".as_slice(),
            letter,
            yes_or_no(flags.successful),
        ),
        named_of(
            b"slot-unbootable:".as_slice(),
            letter,
            yes_or_no(flags.unbootable),
        ),
        named_of(
            b"slot-retry-count:".as_slice(),
            letter,
            Text::Count(flags.retries),
        ),
    ]
}

fn slot_step<'a>(slot: Slot, flags: SlotFlags, place: usize) -> Step<'a>
    ensures { (more : List NamedText) → slice_get (slot_rows slot flags ++ more) place ≡ stepped result more }
{
    step(&slot_rows(slot, flags), place)
}

fn both_slots_step<'a>(facts: &Facts<'a>, place: usize) -> Step<'a>
    ensures { (more : List NamedText) → slice_get ((slot_rows A (told_device facts.now).flags.a
        ++ slot_rows B (told_device facts.now).flags.b) ++ more) place ≡ stepped result more }
{
    let place = match slot_step(Slot::A, facts.flags.a, place) {
        Step::Found(row) => return Step::Found(row),
        Step::Later(place) => place,
    };
    slot_step(Slot::B, facts.flags.b, place)
}

fn slots_step<'a>(facts: &Facts<'a>, place: usize) -> Step<'a>
    ensures { (more : List NamedText) → slice_get (with_slots_only (told_device facts.now)
        (slot_rows A (told_device facts.now).flags.a ++ slot_rows B (told_device facts.now).flags.b)
        ++ more) place ≡ stepped result more }
{
    if facts.slots == 2 {
        both_slots_step(facts, place)
    } else {
        Step::Later(place)
    }
}

/// What a device tells of a partition.
fn part_rows<'a>(logical: bool, name: &'a [u8], size: Text<'a>) -> [Row<'a>; 3]
    ensures { map row_of result ≡ (codes "partition-size:" ++ name.now, text_of size.entry)
        ∷ (codes "partition-type:" ++ name.now, codes "raw")
        ∷ (codes "is-logical:" ++ name.now, yes_or_no logical) ∷ [] }
{
    [
        named_of(b"partition-size:".as_slice(), name, size),
        named_of(
            b"partition-type:".as_slice(),
            name,
            Text::Bytes(b"raw".as_slice()),
        ),
        named_of(b"is-logical:".as_slice(), name, yes_or_no(logical)),
    ]
}

fn part_row<'a>(logical: bool, name: &'a [u8], size: Text<'a>, place: usize) -> Row<'a>
    requires { place < 3 }
    ensures { (more : List NamedText) → slice_get (((codes "partition-size:" ++ name.now, text_of size.entry)
        ∷ (codes "partition-type:" ++ name.now, codes "raw")
        ∷ (codes "is-logical:" ++ name.now, yes_or_no logical) ∷ []) ++ more) place ≡ Some (row_of result) }
{
    part_rows(logical, name, size)[place]
}

fn physical_step<'a>(parts: &'a [PhysicalPart], place: usize) -> Step<'a>
    ensures { (more : List NamedText) → slice_get (flat_map (λ p. partition_rows false p.name p.bytes)
        (map told_physical parts.now) ++ more) place ≡ stepped result more }
{
    let at = place / 3;
    if at < parts.len() {
        let part = &parts[at];
        let size = Text::Size(part.size);
        Step::Found(part_row(false, part.name.bytes(), size, place % 3))
    } else {
        Step::Later(place - 3 * parts.len())
    }
}

fn counted<'a>(extents: &'a [Extent]) -> Text<'a>
    requires { bytes_in extents.now < 2 ^ 64 }
    ensures { text_of result ≡ size_text (bytes_in extents.now) }
{
    Text::Extents(Extents { list: extents })
}

fn logical_step<'a>(parts: &'a [Partition], extents: &'a [Extent], place: usize) -> Step<'a>
    requires summed { AllByRecursion (λ p. bytes_in (part_extents extents.now p) < 2 ^ 64) parts.now }
    ensures { (more : List NamedText) → slice_get (flat_map (λ p. partition_rows true p.name p.bytes)
        (map (told_logical extents.now) parts.now) ++ more) place ≡ stepped result more }
{
    let at = place / 3;
    if at < parts.len() {
        let part = &parts[at];
        let size = counted(extents_of(extents, part));
        Step::Found(part_row(true, part.name.bytes(), size, place % 3))
    } else {
        Step::Later(place - 3 * parts.len())
    }
}

/// The variable at a place of all but `has-slot`, or how many places after them.
pub fn plain_step<'a>(facts: &'a Facts<'a>, place: usize) -> Step<'a>
    requires summed { AreSummed facts.now }
    ensures { (more : List NamedText) → slice_get (plain_rows (told_device facts.now) ++ more)
        place ≡ stepped result more }
{
    let place = match device_step(facts, place) {
        Step::Found(row) => return Step::Found(row),
        Step::Later(place) => place,
    };
    let place = match variable_step(facts.vars, place) {
        Step::Found(row) => return Step::Found(row),
        Step::Later(place) => place,
    };
    let place = match slots_step(facts, place) {
        Step::Found(row) => return Step::Found(row),
        Step::Later(place) => place,
    };
    let place = match physical_step(facts.physical, place) {
        Step::Found(row) => return Step::Found(row),
        Step::Later(place) => place,
    };
    logical_step(facts.logical, facts.extents, place)
}
