//! Where a partition lies in the image.
ghost use Rattle.std.specs.Prelude.{◌≡◌, ℕ, ◌+◌, ◌*◌, ◌/◌, ◌%◌, ◌^◌, ◌<◌, ◌≤◌, length, option_map, IsTrue};
ghost use Rattle.std.specs.Prelude.{Some, None, IfSome, IfOk, OnOk, slice_index};
ghost use Rattle.std.specs.List.{list_all, flat_map};
ghost use Rattle.std.specs.Result.{IsErrOf};
ghost use Rattle.unit_alloc.specs.Owning.{units_of as units_owned};
ghost use Rattle.super_meta.specs.Contents.{content};
ghost use Rattle.dev_store.specs.LayoutLines.{is_size, unit_count};
ghost use Rattle.dev_store.specs.Supers.{units_of};
ghost use Rattle.dev_store.specs.Layouts.{image_size};
ghost use Rattle.dev_store.specs.Laid.{IsLaid};
ghost use Rattle.dev_store.specs.SuperBounds.{IsBounded};
ghost use Rattle.dev_store.specs.SuperReads.{IsMap};
ghost use Rattle.dev_store.specs.Reading.{IsWithinSound, table_within};
ghost use Rattle.dev_store.specs.PartWrites.{physical_place};
ghost use Rattle.dev_store.specs.PartPlaces.{part_size, logical_size, size_flaw, pair_of, AreUnitsOf};
ghost use Rattle.dev_store.specs.PartPlaces.{IsPartOf, HaveRoom, IsSafe, size_of, units_end, room_end};
ghost use Rattle.dev_store.specs.PartPlaces.{IsInRun, IsPiece, IsUnitBefore, IsBefore, EndsUnit};

use crate::errors::StoreError;
use crate::layout::{Layout, PhysicalPart, SuperPart};
use crate::named::place_of;
use crate::super_read::SuperRead;
use crate::units::{bytes_in, extents_of};
use fb_frame::name::Name;
use unit_alloc::Owners;

/// A physical partition: where it begins in the image, and its size in bytes.
#[derive(Clone, Copy)]
pub struct Span {
    pub start: u64,
    pub size: u64,
}

/// A logical partition: its part in the map of units, where the first unit of super lies in the image, the
/// size of a unit, and how many bytes the partition has.
#[derive(Clone, Copy)]
pub struct Units<'a> {
    pub owners: &'a Owners,
    pub part: u32,
    pub start: u64,
    pub unit: u32,
    pub size: u128,
}

/// Where a partition's bytes lie: one after another, or in units.
#[derive(Clone, Copy)]
pub enum Part<'a> {
    Whole(Span),
    InUnits(Units<'a>),
}

/// Bytes that lie one after another: from where in the image on, and how many. `last` is the last unit of
/// the run that they lie in.
#[derive(Clone, Copy)]
pub struct Piece {
    pub place: u64,
    pub count: u64,
    pub last: u32,
}

/// The physical partition of a name.
fn find_physical(parts: &[PhysicalPart], name: &Name) -> Option<Span>
    requires few { length parts.now ≤ 64 }
    requires sized { IsTrue (list_all (λ p. is_size p.size) parts.now) }
    ensures found { option_map pair_of result ≡ physical_place 12288 parts.now name.now }
    ensures bounded { IfSome result (λ span. span.start + span.size ≤ 2 ^ 50 + 12288) }
{
    let mut start = 12288;
    for part in parts {
        if part.name == *name {
            return Some(Span {
                start,
                size: part.size,
            });
        }
        start += part.size;
    }
    None
}

impl SuperPart {
    /// The logical partition of a name. Super begins at a place of the image.
    fn find_units<'a>(&self, begin: u64, within: &'a SuperRead, name: &Name) -> Option<Units<'a>>
        requires bounded { IsBounded self.now }
        requires far { begin ≤ 2 ^ 50 + 12288 }
        requires mapped { IsMap self.now within.now }
        requires few { length (flat_map (units_of self.now (content within.now.table))
            (content within.now.table).partitions) ≤ unit_count self.now }
        ensures size { option_map (λ u. u.size) result
            ≡ logical_size (Some (content within.now.table)) name.now }
        ensures units { IfSome result (AreUnitsOf begin self.now (content within.now.table) name.now) }
        ensures room { IfSome result (λ u. HaveRoom u.size u) }
        ensures inside { IfSome result (λ u. units_end u ≤ begin + self.now.size) }
    {
        let Some(place) = place_of(&within.table.partitions, name.bytes()) else {
            return None;
        };
        let partition = &within.table.partitions[place];
        Some(Units {
            owners: &within.owners,
            part: within.parts[place],
            start: begin + self.first_unit(),
            unit: self.unit,
            size: bytes_in(extents_of(&within.table.extents, partition)),
        })
    }
}

/// The logical partition of a name, where there is super.
fn find_logical<'a>(layout: &Layout, within: &'a Option<SuperRead>, name: &Name) -> Option<Part<'a>>
    requires laid { IsLaid layout.now }
    requires sound { IsWithinSound layout.now layout.now.super_part within.now }
    ensures size { option_map size_of result ≡ logical_size (table_within within.now) name.now }
    ensures place { IfSome result (IsPartOf layout.now (table_within within.now) name.now) }
    ensures safe { IfSome result IsSafe }
    ensures inside { IfSome result (λ part. room_end part ≤ image_size layout.now) }
{
    let Some(part) = layout.super_part() else {
        return None;
    };
    let Some(within) = within else {
        return None;
    };
    match part.find_units(layout.parts_end(), within, name) {
        None => None,
        Some(units) => Some(Part::InUnits(units)),
    }
}

/// The partition of a name.
fn find_part<'a>(layout: &Layout, within: &'a Option<SuperRead>, name: &Name) -> Option<Part<'a>>
    requires laid { IsLaid layout.now }
    requires sound { IsWithinSound layout.now layout.now.super_part within.now }
    ensures size { option_map size_of result ≡ part_size layout.now (table_within within.now) name.now }
    ensures place { IfSome result (IsPartOf layout.now (table_within within.now) name.now) }
    ensures safe { IfSome result IsSafe }
    ensures inside { IfSome result (λ part. room_end part ≤ image_size layout.now) }
{
    match find_physical(layout.physical(), name) {
        Some(span) => Some(Part::Whole(span)),
        None => find_logical(layout, within, name),
    }
}

/// The partition of a name, if so many bytes from a place on lie in it.
pub fn find_range<'a>(
    layout: &Layout,
    within: &'a Option<SuperRead>,
    name: &Name,
    at: u64,
    count: u64,
) -> Result<Part<'a>, StoreError>
    requires laid { IsLaid layout.now }
    requires sound { IsWithinSound layout.now layout.now.super_part within.now }
    ensures refused { (e : StoreError) → IsErrOf result e →
        size_flaw (part_size layout.now (table_within within.now) name.now) (at + count) ≡ Some e }
    ensures taken { OnOk result
        (size_flaw (part_size layout.now (table_within within.now) name.now) (at + count) ≡ None) }
    ensures place { IfOk result (IsPartOf layout.now (table_within within.now) name.now) }
    ensures fits { IfOk result (λ part. at + count ≤ size_of part) }
    ensures safe { IfOk result IsSafe }
    ensures inside { IfOk result (λ part. room_end part ≤ image_size layout.now) }
{
    let Some(part) = find_part(layout, within, name) else {
        return Err(StoreError::NoPartition);
    };
    if part.size() < u128::from(at) + u128::from(count) {
        return Err(StoreError::TooLarge);
    }
    Ok(part)
}

impl Units<'_> {
    /// The run of units at a place of the list, where `before` is the unit before it.
    fn run(&self, place: u32, before: Option<u32>) -> (u32, u32)
        requires place { place < length (units_owned self.now.owners.now self.now.part) }
        requires before { IsUnitBefore (units_owned self.now.owners.now self.now.part) place before }
        ensures there { result.0 + result.1 ≤ self.now.owners.now.units }
        ensures small { self.now.owners.now.units < 2 ^ 32 }
        ensures some { 0 < result.1 }
        ensures rest { place + result.1 ≤ length (units_owned self.now.owners.now self.now.part) }
        ensures each { (k : ℕ) → k < result.1 →
            slice_index (units_owned self.now.owners.now self.now.part) (place + k) ≡ result.0 + k }
    {
        match before {
            None => self.owners.run_at(self.part, place),
            Some(last) => self.owners.run_after(self.part, place, last),
        }
    }

    /// At most so many bytes from a place on, as many as lie in one run.
    fn piece(&self, at: u64, rest: u64, before: Option<u32>) -> Piece
        requires room { HaveRoom (at + rest) self.now }
        requires end { units_end self.now < 2 ^ 64 }
        requires some { 0 < rest }
        requires before { IsUnitBefore (units_owned self.now.owners.now self.now.part)
            (at / self.now.unit) before }
        ensures run { IsInRun self.now at result }
        ensures some { 0 < result.count }
        ensures most { result.count ≤ rest }
        ensures last { result.count < rest → IsUnitBefore (units_owned self.now.owners.now self.now.part)
            ((at + result.count) / self.now.unit) (Some result.last) }
        ensures whole { result.count < rest → (at + result.count) % self.now.unit ≡ 0 }
        ensures inside { result.place + result.count ≤ units_end self.now }
    {
        let unit = self.unit as u64;
        let (first, count) = self.run((at / unit) as u32, before);
        let within = at % unit;
        Piece {
            place: self.start + (first as u64 * unit + within),
            count: rest.min(count as u64 * unit - within),
            last: first + (count - 1),
        }
    }
}

impl Part<'_> {
    /// How many bytes it has.
    fn size(&self) -> u128
        ensures { result ≡ size_of self.now }
    {
        match self {
            Part::Whole(span) => u128::from(span.size),
            Part::InUnits(units) => units.size,
        }
    }

    /// At most so many bytes from a place of the partition on, as many as lie one after another. `before` is
    /// the last unit of the piece before.
    pub fn piece(&self, at: u64, rest: u64, before: Option<u32>) -> Piece
        requires safe { IsSafe self.now }
        requires some { 0 < rest }
        requires fits { at + rest ≤ size_of self.now }
        requires before { IsBefore self.now at before }
        ensures piece { IsPiece self.now at result }
        ensures some { 0 < result.count }
        ensures most { result.count ≤ rest }
        ensures last { result.count < rest → IsBefore self.now (at + result.count) (Some result.last) }
        ensures whole { result.count < rest → EndsUnit self.now (at + result.count) }
        ensures inside { result.place + result.count ≤ room_end self.now }
    {
        match self {
            Part::Whole(span) => Piece {
                place: span.start + at,
                count: rest,
                last: 0,
            },
            Part::InUnits(units) => units.piece(at, rest, before),
        }
    }
}
