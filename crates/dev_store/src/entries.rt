ghost use Rattle.std.specs.Prelude.{◌≡◌, ◌++◌, length, filter_map, is_some, codes, IsTrue, bytes_eq};
ghost use Rattle.std.specs.List.{list_any};
ghost use Rattle.dev_store.specs.LayoutLines.{keys, is_taken, is_repeated, is_too_many, is_sized, has_room};
ghost use Rattle.dev_store.specs.LayoutLines.{entry_flaw};
ghost use Rattle.dev_store.specs.LayoutLines.{variable_in, partition_in};
ghost use Rattle.dev_store.specs.Layouts.{is_complete};

use crate::layout::{LayoutKind, PhysicalPart, SuperPart};
use dev_model::cells::ByteList;
use dev_model::device::Variable;
use fb_frame::name::Name;
use fb_frame::word::Word;

/// The most variables, and the most physical partitions.
const MOST: usize = 64;

/// What a line of a layout after the first says.
#[derive(Debug, Drop)]
pub(crate) enum Entry {
    ProductLine(ByteList),
    SerialLine(ByteList),
    SlotsLine(u8),
    DownloadLine(u32),
    VariableLine(Variable),
    PartitionLine(PhysicalPart),
    SuperLine(SuperPart),
}

impl Entry {
    fn is_product(&self) -> bool
        ensures { result ≡ list_any (λ own. bytes_eq own (codes "product")) (keys self.now) }
    {
        matches!(self, Entry::ProductLine(_))
    }

    fn is_serial(&self) -> bool
        ensures { result ≡ list_any (λ own. bytes_eq own (codes "serialno")) (keys self.now) }
    {
        matches!(self, Entry::SerialLine(_))
    }

    fn is_slots(&self) -> bool
        ensures { result ≡ list_any (λ own. bytes_eq own (codes "slots")) (keys self.now) }
    {
        matches!(self, Entry::SlotsLine(_))
    }

    fn is_download(&self) -> bool
        ensures { result ≡ list_any (λ own. bytes_eq own (codes "max-download")) (keys self.now) }
    {
        matches!(self, Entry::DownloadLine(_))
    }

    fn is_super(&self) -> bool
        ensures { result ≡ list_any (λ own. bytes_eq own (codes "super")) (keys self.now) }
    {
        matches!(self, Entry::SuperLine(_))
    }

    /// Whether this is the variable of that name.
    fn is_variable(&self, name: &Word) -> bool
        ensures { result ≡ list_any (λ own. bytes_eq own (codes "var " ++ name.now)) (keys self.now) }
    {
        match self {
            Entry::VariableLine(variable) => variable.name.bytes() == name.bytes(),
            _ => false,
        }
    }

    /// Whether this is the partition, or super, of that name.
    fn is_partition(&self, name: &Name) -> bool
        ensures { result
            ≡ list_any (λ own. bytes_eq own (codes "partition " ++ name.now)) (keys self.now) }
    {
        match self {
            Entry::PartitionLine(part) => part.name.bytes() == name.bytes(),
            Entry::SuperLine(part) => part.name.bytes() == name.bytes(),
            _ => false,
        }
    }

    fn is_any_variable(&self) -> bool
        ensures { result ≡ is_some (variable_in self.now) }
    {
        matches!(self, Entry::VariableLine(_))
    }

    fn is_any_partition(&self) -> bool
        ensures { result ≡ is_some (partition_in self.now) }
    {
        matches!(self, Entry::PartitionLine(_))
    }
}

fn has_product(before: &[Entry]) -> bool
    ensures { result ≡ is_taken before.now (codes "product") }
{
    before.iter().any(|entry| entry.is_product())
}

fn has_serial(before: &[Entry]) -> bool
    ensures { result ≡ is_taken before.now (codes "serialno") }
{
    before.iter().any(|entry| entry.is_serial())
}

fn has_slots(before: &[Entry]) -> bool
    ensures { result ≡ is_taken before.now (codes "slots") }
{
    before.iter().any(|entry| entry.is_slots())
}

fn has_download(before: &[Entry]) -> bool
    ensures { result ≡ is_taken before.now (codes "max-download") }
{
    before.iter().any(|entry| entry.is_download())
}

fn has_super(before: &[Entry]) -> bool
    ensures { result ≡ is_taken before.now (codes "super") }
{
    before.iter().any(|entry| entry.is_super())
}

fn has_variable(before: &[Entry], name: &Word) -> bool
    ensures { result ≡ is_taken before.now (codes "var " ++ name.now) }
{
    before.iter().any(|entry| entry.is_variable(name))
}

fn has_partition(before: &[Entry], name: &Name) -> bool
    ensures { result ≡ is_taken before.now (codes "partition " ++ name.now) }
{
    before.iter().any(|entry| entry.is_partition(name))
}

/// Whether a line takes what stands once and is there.
fn is_repeated(before: &[Entry], entry: &Entry) -> bool
    ensures { result ≡ is_repeated before.now entry.now }
{
    match entry {
        Entry::ProductLine(_) => has_product(before),
        Entry::SerialLine(_) => has_serial(before),
        Entry::SlotsLine(_) => has_slots(before),
        Entry::DownloadLine(_) => has_download(before),
        Entry::VariableLine(variable) => has_variable(before, &variable.name),
        Entry::PartitionLine(part) => has_partition(before, &part.name),
        Entry::SuperLine(part) => has_super(before) || has_partition(before, &part.name),
    }
}

fn variables(before: &[Entry]) -> usize
    ensures { result ≡ length (filter_map variable_in before.now) }
{
    before
        .iter()
        .filter(|entry| entry.is_any_variable())
        .count()
}

fn partitions(before: &[Entry]) -> usize
    ensures { result ≡ length (filter_map partition_in before.now) }
{
    before
        .iter()
        .filter(|entry| entry.is_any_partition())
        .count()
}

/// Whether as many variables, or as many physical partitions, stand before as there may be.
fn is_too_many(before: &[Entry], entry: &Entry) -> bool
    ensures { result ≡ is_too_many before.now entry.now }
{
    match entry {
        Entry::VariableLine(_) => variables(before) >= MOST,
        Entry::PartitionLine(_) => partitions(before) >= MOST,
        _ => false,
    }
}

/// Whether a super has a unit, and a table room for all of them.
fn has_room(entry: &Entry) -> bool
    requires { IsTrue (is_sized entry.now) }
    ensures { result ≡ has_room entry.now }
{
    match entry {
        Entry::SuperLine(part) => part.has_room(),
        _ => true,
    }
}

/// What is wrong with a line whose numbers keep their conditions, after these.
pub(crate) fn entry_flaw(before: &[Entry], entry: &Entry) -> Option<LayoutKind>
    requires { IsTrue (is_sized entry.now) }
    ensures { result ≡ entry_flaw before.now entry.now }
{
    if is_repeated(before, entry) {
        Some(LayoutKind::Duplicate)
    } else if is_too_many(before, entry) {
        Some(LayoutKind::TooMany)
    } else if !has_room(entry) {
        Some(LayoutKind::NoRoom)
    } else {
        None
    }
}

/// Whether each line is there that has to be.
pub(crate) fn is_complete(entries: &[Entry]) -> bool
    ensures { result ≡ is_complete entries.now }
{
    has_product(entries) && has_serial(entries) && has_slots(entries) && has_download(entries)
}
