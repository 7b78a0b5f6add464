ghost use Rattle.std.specs.Prelude.{◌≡◌, ◌<◌, ◌&&◌, ◌||◌, None};
ghost use Rattle.std.specs.Prelude.{Some, option_map, slice_get, map, take, filter_map};
ghost use Rattle.std.specs.Prelude.{if◌then◌else◌, bytes_eq};
ghost use Rattle.std.specs.List.{ends_with, list_any};
ghost use Rattle.dev_model.specs.Variables.{base_name, base_names, has_slot_row};
ghost use Rattle.dev_store.specs.StoreCalls.{names_of};
ghost use Rattle.dev_store.specs.ToldRows.{row_of, told_device};

use crate::variables_find::has_slot;
use crate::variables_row::{Facts, Row};
use crate::variables_told::{named_of, yes_or_no};
use fb_frame::name::Name;

/// The name of a partition by its place, the physical ones first.
pub fn name_at<'a>(facts: &Facts<'a>, place: usize) -> Option<&'a Name>
    ensures { option_map (λ name. name.now) result ≡ slice_get (names_of (told_device facts.now)) place }
{
    if place < facts.physical.len() {
        return Some(&facts.physical[place].name);
    }
    let place = place - facts.physical.len();
    if place < facts.logical.len() {
        return Some(&facts.logical[place].name);
    }
    None
}

/// The name without its slot's letter, where something is left.
fn base_name<'a>(facts: &Facts, name: &'a [u8]) -> &'a [u8]
    ensures { result.now ≡ base_name (told_device facts.now) name.now }
{
    if facts.slots == 2
        && 2 < name.len()
        && (name.ends_with(b"_a".as_slice()) || name.ends_with(b"_b".as_slice()))
    {
        &name[..name.len() - 2]
    } else {
        name
    }
}

/// Whether a partition before this place has the base name.
fn is_known(facts: &Facts, place: usize, base: &[u8]) -> bool
    ensures { result ≡ list_any (λ x. bytes_eq base.now x)
        (take place (map (base_name (told_device facts.now)) (names_of (told_device facts.now)))) }
{
    for earlier in 0..place {
        match name_at(facts, earlier) {
            None => return false,
            Some(name) => {
                if base == base_name(facts, name.bytes()) {
                    return true;
                }
            }
        }
    }
    false
}

/// The row of `has-slot` for a base name.
fn base_row<'a>(facts: &Facts, base: &'a [u8]) -> Option<Row<'a>>
    ensures { option_map row_of result ≡ has_slot_row (told_device facts.now) base.now }
{
    match has_slot(facts, base) {
        None => None,
        Some(slotted) => Some(named_of(b"has-slot:".as_slice(), base, yes_or_no(slotted))),
    }
}

/// The row of `has-slot` at a place of all of them.
pub fn base_row_at<'a>(facts: &Facts<'a>, place: usize) -> Option<Row<'a>>
    ensures { option_map row_of result
        ≡ slice_get (filter_map (has_slot_row (told_device facts.now))
        (base_names (told_device facts.now))) place }
{
    let mut left = place;
    let count = facts.physical.len() + facts.logical.len();
    for at in 0..count {
        let Some(name) = name_at(facts, at) else {
            return None;
        };
        let base = base_name(facts, name.bytes());
        if !is_known(facts, at, base) {
            if left == 0 {
                return base_row(facts, base);
            }
            left -= 1;
        }
    }
    None
}
