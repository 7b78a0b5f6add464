ghost use Rattle.std.specs.Prelude.{◌≡◌, ◌==◌, ◌&&◌, ◌-◌, ◌^◌, ◌∷◌, option_map, bytes_eq, drop, length};
ghost use Rattle.std.specs.Prelude.{min, position, Some, None, IfOk, IsTrue, if◌then◌else◌, nat_eq, nat_le};
ghost use Rattle.std.specs.Prelude.{◌%◌};
ghost use Rattle.std.specs.List.{list_all, list_any, starts_with, slice_split};
ghost use Rattle.fb_frame.specs.NameText.{is_name_byte};
ghost use Rattle.fb_frame.specs.Numbers.{is_digit, digits_worth};
ghost use Rattle.dev_model.specs.Validity.{is_between, is_label, is_value, own_names};
ghost use Rattle.dev_store.specs.declared.entries.Entry.TheVariants.{ProductLine, SerialLine, SlotsLine};
ghost use Rattle.dev_store.specs.declared.entries.Entry.TheVariants.{DownloadLine};
ghost use Rattle.dev_store.specs.LayoutLines.{is_space, at_space, is_number, number_of, label_of};
ghost use Rattle.dev_store.specs.LayoutLines.{variable_of};
ghost use Rattle.dev_store.specs.LayoutLines.{partition_of, super_of, entry_of, is_size};
ghost use Rattle.dev_store.specs.LineReading.{IsRead, variable_name, sized_super};

use crate::entries::Entry;
use crate::layout::{PhysicalPart, SuperPart};
use dev_model::cells::ByteList;
use dev_model::device::Variable;
use fb_frame::items::Items;
use fb_frame::name::Name;
use fb_frame::number::read_dec;
use fb_frame::word::Word;
use std::alloc::{AllocError, Global};

/// Why a line isn't read.
#[derive(Debug, Drop)]
pub(crate) enum LineError {
    /// It has none of the forms.
    Form,
    /// A number of it is refused.
    Size,
    Memory,
}

fn is_digit(b: u8) -> bool
    ensures { result ≡ is_digit b }
{
    b.is_ascii_digit()
}

fn are_digits(word: &[u8]) -> bool
    ensures { result ≡ list_all is_digit word.now }
{
    word.iter().all(|b| is_digit(*b))
}

/// Decimal digits without a leading zero, however many.
fn is_number(word: &[u8]) -> bool
    ensures { result ≡ is_number word.now }
{
    match word {
        [] => false,
        [_] => are_digits(word),
        [first, ..] => are_digits(word) && *first > b'0',
    }
}

/// The number, or the greatest that fits 64 bits where it is above that.
#[tactic(auto, using(crate::proofs::NumberLemmas::numbers))]
fn number(word: &[u8]) -> u64
    requires { IsTrue (is_number word.now) }
    ensures { result ≡ min (digits_worth word.now) (2 ^ 64 - 1) }
{
    match read_dec(word) {
        Some(number) => number,
        None => u64::MAX,
    }
}

fn is_visible(b: u8) -> bool
    ensures { result ≡ is_between 0x21 0x7E b }
{
    (0x21..=0x7e).contains(&b)
}

fn are_visible(text: &[u8]) -> bool
    ensures { result ≡ list_all (is_between 0x21 0x7E) text.now }
{
    text.iter().all(|b| is_visible(*b))
}

/// 1 to 64 visible bytes.
fn is_label(text: &[u8]) -> bool
    ensures { result ≡ is_label text.now }
{
    !text.is_empty() && text.len() <= 64 && are_visible(text)
}

fn is_printable(b: u8) -> bool
    ensures { result ≡ is_between 0x20 0x7E b }
{
    (0x20..=0x7e).contains(&b)
}

fn are_printable(text: &[u8]) -> bool
    ensures { result ≡ list_all (is_between 0x20 0x7E) text.now }
{
    text.iter().all(|b| is_printable(*b))
}

/// A variable's text: 1 to 128 bytes without a space at either end.
fn is_value(text: &[u8]) -> bool
    ensures { result ≡ is_value text.now }
{
    !text.is_empty()
        && text.len() <= 128
        && are_printable(text)
        && text[0] != b' '
        && text[text.len() - 1] != b' '
}

fn is_name_byte(b: u8) -> bool
    ensures { result ≡ is_name_byte b }
{
    b.is_ascii_alphanumeric() || b == b'_' || b == b'.' || b == b'-'
}

fn are_name_bytes(text: &[u8]) -> bool
    ensures { result ≡ list_all is_name_byte text.now }
{
    text.iter().all(|b| is_name_byte(*b))
}

/// The name of a variable that the device has of itself, or `all`.
fn is_own_name(name: &[u8]) -> bool
    ensures { result ≡ list_any (λ own. bytes_eq own name.now) own_names }
{
    b"version".as_slice() == name
        || b"product".as_slice() == name
        || b"serialno".as_slice() == name
        || b"secure".as_slice() == name
        || b"unlocked".as_slice() == name
        || b"current-slot".as_slice() == name
        || b"slot-count".as_slice() == name
        || b"max-download-size".as_slice() == name
        || b"is-userspace".as_slice() == name
        || b"super-partition-name".as_slice() == name
        || b"all".as_slice() == name
}

/// A variable's name: a word that isn't the device's own.
fn variable_name(name: &[u8]) -> Option<Word>
    ensures { result ≡ variable_name name.now }
{
    if are_name_bytes(name) && !is_own_name(name) {
        Word::read(name)
    } else {
        None
    }
}

/// Where a byte stands first.
pub(crate) fn place_of(text: &[u8], byte: u8) -> Option<usize>
    ensures { result ≡ position (λ b. b == byte) text.now }
{
    text.iter().position(|b| *b == byte)
}

/// What stands before the first space, and what after it.
fn at_space(text: &[u8]) -> Option<(&[u8], &[u8])>
    ensures { option_map (λ sides. (sides.0.now, sides.1.now)) result ≡ at_space text.now }
{
    match place_of(text, b' ') {
        Some(place) => Some((&text[..place], &text[place + 1..])),
        None => None,
    }
}

/// The bytes, in memory of their own.
fn copied(alloc: Global, text: &[u8]) -> Result<ByteList, AllocError>
    ensures { IfOk result (λ list. list ≡ text.now) }
{
    Ok(Items::from_vec(Vec::from_slice(alloc, text)?))
}

fn read_product(alloc: Global, text: &[u8]) -> Result<Entry, LineError>
    ensures { IsRead (option_map ProductLine (label_of text.now)) result }
{
    if !is_label(text) {
        return Err(LineError::Form);
    }
    let Ok(text) = copied(alloc, text) else {
        return Err(LineError::Memory);
    };
    Ok(Entry::ProductLine(text))
}

fn read_serial(alloc: Global, text: &[u8]) -> Result<Entry, LineError>
    ensures { IsRead (option_map SerialLine (label_of text.now)) result }
{
    if !is_label(text) {
        return Err(LineError::Form);
    }
    let Ok(text) = copied(alloc, text) else {
        return Err(LineError::Memory);
    };
    Ok(Entry::SerialLine(text))
}

/// How many slots there are: 0 or 2.
fn read_slots(word: &[u8]) -> Result<Entry, LineError>
    ensures { IsRead (option_map SlotsLine (number_of word.now)) result }
{
    if !is_number(word) {
        return Err(LineError::Form);
    }
    match number(word) {
        0 => Ok(Entry::SlotsLine(0)),
        2 => Ok(Entry::SlotsLine(2)),
        _ => Err(LineError::Size),
    }
}

/// The most bytes of a download.
fn read_download(word: &[u8]) -> Result<Entry, LineError>
    ensures { IsRead (option_map DownloadLine (number_of word.now)) result }
{
    if !is_number(word) {
        return Err(LineError::Form);
    }
    let most = number(word);
    if (131072..=268435456).contains(&most) {
        Ok(Entry::DownloadLine(most as u32))
    } else {
        Err(LineError::Size)
    }
}

fn read_variable(alloc: Global, text: &[u8]) -> Result<Entry, LineError>
    ensures { IsRead (variable_of (at_space text.now)) result }
{
    let Some((name, text)) = at_space(text) else {
        return Err(LineError::Form);
    };
    let Some(name) = variable_name(name) else {
        return Err(LineError::Form);
    };
    if !is_value(text) {
        return Err(LineError::Form);
    }
    let Ok(text) = copied(alloc, text) else {
        return Err(LineError::Memory);
    };
    Ok(Entry::VariableLine(Variable { name, text }))
}

/// Whole blocks of 4,096 bytes, at least one, at most 2^44 bytes.
fn is_size(size: u64) -> bool
    ensures { result ≡ is_size size }
{
    size.is_multiple_of(4096) && size > 0 && size <= 1 << 44
}

/// A partition with a place of its own, by its name and size.
#[tactic(auto, using(crate::proofs::SizeLemmas::parts))]
fn partition_line(name: &[u8], size: &[u8]) -> Result<Entry, LineError>
    ensures { IsRead (partition_of (name.now ∷ slice_split is_space size.now)) result }
{
    let Some(name) = Name::read(name) else {
        return Err(LineError::Form);
    };
    if !is_number(size) {
        return Err(LineError::Form);
    }
    let size = number(size);
    if !is_size(size) {
        return Err(LineError::Size);
    }
    Ok(Entry::PartitionLine(PhysicalPart { name, size }))
}

fn read_partition(text: &[u8]) -> Result<Entry, LineError>
    ensures { IsRead (partition_of (slice_split is_space text.now)) result }
{
    let Some((name, size)) = at_space(text) else {
        return Err(LineError::Form);
    };
    partition_line(name, size)
}

/// Whole blocks of 4,096 bytes, at least one, at most 2^30 bytes.
fn is_unit(unit: u64) -> bool
    ensures { result ≡ (unit % 4096 == 0 && is_between 4096 (2 ^ 30) unit) }
{
    unit.is_multiple_of(4096) && (4096..=1 << 30).contains(&unit)
}

/// Whole sectors of 512 bytes, at most 126,976 bytes.
fn is_max_size(max_size: u64) -> bool
    ensures { result ≡ (max_size % 512 == 0 && nat_le max_size 126976) }
{
    max_size.is_multiple_of(512) && max_size <= 126976
}

/// 1 to 4 metadata slots.
fn is_slot_count(slots: u64) -> bool
    ensures { result ≡ is_between 1 4 slots }
{
    (1..=4).contains(&slots)
}

/// The numbers of super's line, where they keep their conditions.
fn super_part(name: Name, size: u64, unit: u64, max_size: u64, slots: u64) -> Option<SuperPart>
    ensures { result ≡ sized_super name size unit max_size slots }
{
    if is_size(size) && is_unit(unit) && is_max_size(max_size) && is_slot_count(slots) {
        Some(SuperPart {
            name,
            size,
            unit: unit as u32,
            max_size: max_size as u32,
            slots: slots as u32,
        })
    } else {
        None
    }
}

fn are_numbers(size: &[u8], unit: &[u8], max_size: &[u8], slots: &[u8]) -> bool
    ensures numbers { result
        ≡ (is_number size.now && is_number unit.now && is_number max_size.now && is_number slots.now) }
    ensures size { IsTrue result → IsTrue (is_number size.now) }
    ensures unit { IsTrue result → IsTrue (is_number unit.now) }
    ensures max_size { IsTrue result → IsTrue (is_number max_size.now) }
    ensures slots { IsTrue result → IsTrue (is_number slots.now) }
{
    is_number(size) && is_number(unit) && is_number(max_size) && is_number(slots)
}

/// A super by its name, its size, the size of a unit, the room for a table and its metadata slots.
#[tactic(auto, using(crate::proofs::SizeLemmas::supers))]
fn super_line(
    name: &[u8],
    size: &[u8],
    unit: &[u8],
    max_size: &[u8],
    slots: &[u8],
) -> Result<Entry, LineError>
    ensures { IsRead (super_of (name.now ∷ size.now ∷ unit.now ∷ max_size.now
        ∷ slice_split is_space slots.now)) result }
{
    let Some(name) = Name::read(name) else {
        return Err(LineError::Form);
    };
    if !are_numbers(size, unit, max_size, slots) {
        return Err(LineError::Form);
    }
    let (size, unit) = (number(size), number(unit));
    let (max_size, slots) = (number(max_size), number(slots));
    let Some(part) = super_part(name, size, unit, max_size, slots) else {
        return Err(LineError::Size);
    };
    Ok(Entry::SuperLine(part))
}

fn read_super(text: &[u8]) -> Result<Entry, LineError>
    ensures { IsRead (super_of (slice_split is_space text.now)) result }
{
    let Some((name, rest)) = at_space(text) else {
        return Err(LineError::Form);
    };
    let Some((size, rest)) = at_space(rest) else {
        return Err(LineError::Form);
    };
    let Some((unit, rest)) = at_space(rest) else {
        return Err(LineError::Form);
    };
    let Some((max_size, slots)) = at_space(rest) else {
        return Err(LineError::Form);
    };
    super_line(name, size, unit, max_size, slots)
}

/// What follows the word, where the line begins with it.
fn after<'a>(line: &'a [u8], word: &[u8]) -> Option<&'a [u8]>
    ensures { option_map (λ rest. rest.now) result
        ≡ (if starts_with nat_eq line.now word.now then Some (drop (length word.now) line.now) else None) }
{
    if line.starts_with(word) {
        Some(&line[word.len()..])
    } else {
        None
    }
}

/// What a line says by its form.
pub(crate) fn read_entry(alloc: Global, line: &[u8]) -> Result<Entry, LineError>
    ensures { IsRead (entry_of line.now) result }
{
    if let Some(text) = after(line, b"product ") {
        read_product(alloc, text)
    } else if let Some(text) = after(line, b"serialno ") {
        read_serial(alloc, text)
    } else if let Some(text) = after(line, b"slots ") {
        read_slots(text)
    } else if let Some(text) = after(line, b"max-download ") {
        read_download(text)
    } else if let Some(text) = after(line, b"var ") {
        read_variable(alloc, text)
    } else if let Some(text) = after(line, b"partition ") {
        read_partition(text)
    } else if let Some(text) = after(line, b"super ") {
        read_super(text)
    } else {
        Err(LineError::Form)
    }
}
