ghost use Rattle.std.specs.Prelude.{◌≡◌, ◌++◌, ◌+◌, ◌*◌, ◌<◌, ◌≤◌, ◌^◌, ◌&&◌, ◌||◌, false};
ghost use Rattle.std.specs.Prelude.{true, option_map, length, bytes_eq};
ghost use Rattle.std.specs.Map.{lookup};
ghost use Rattle.std.specs.List.{list_any};
ghost use Rattle.fb_frame.specs.Slots.{suffix};
ghost use Rattle.fb_frame.specs.declared.slot.Slot.TheVariants.{A, B};
ghost use Rattle.arrayvec.specs.ArrayVec.{array_vec_len};
ghost use Rattle.dev_model.specs.Partitions.{is_partition};
ghost use Rattle.dev_model.specs.Variables.{yes_or_no, plain_rows, has_slot};
ghost use Rattle.dev_store.specs.Supers.{bytes_in};
ghost use Rattle.dev_store.specs.ToldRows.{text_of, told_device, AreTellable};

use crate::layout::PhysicalPart;
use crate::variables_row::{Extents, Facts, Row, Step, Text};
use crate::variables_text::{Draft, add, add_decimal, add_size};
use crate::variables_told::plain_step;
use super_meta::table::{Extent, Partition};

/// Whether a name is these two parts, one after the other.
fn is_joined(head: &[u8], of: &[u8], name: &[u8]) -> bool
    ensures { result ≡ bytes_eq (head.now ++ of.now) name.now }
{
    if name.len() < head.len() {
        return false;
    }
    &name[..head.len()] == head && &name[head.len()..] == of
}

pub fn find_plain<'a>(facts: &'a Facts<'a>, name: &[u8]) -> Option<Row<'a>>
    requires { AreTellable facts.now }
    ensures { option_map (λ row. text_of row.text) result
        ≡ lookup (λ n. bytes_eq n name.now) (plain_rows (told_device facts.now)) }
{
    for place in 0..848 {
        match plain_step(facts, place) {
            Step::Later(_) => return None,
            Step::Found(row) => {
                if is_joined(row.head, row.of, name) {
                    return Some(row);
                }
            }
        }
    }
    None
}

fn has_physical(parts: &[PhysicalPart], head: &[u8], of: &[u8]) -> bool
    ensures { result ≡ list_any (λ p. bytes_eq (head.now ++ of.now) p.name) parts.now }
{
    parts.iter().any(|p| is_joined(head, of, p.name.bytes()))
}

/// Whether a logical partition's name is these two parts.
pub fn has_logical(parts: &[Partition], head: &[u8], of: &[u8]) -> bool
    ensures { result ≡ list_any (λ p. bytes_eq (head.now ++ of.now) p.name) parts.now }
{
    parts.iter().any(|p| is_joined(head, of, p.name.bytes()))
}

/// Whether there is a partition whose name is these two parts.
pub fn has_part(facts: &Facts, head: &[u8], of: &[u8]) -> bool
    ensures { result ≡ is_partition (told_device facts.now) (head.now ++ of.now) }
{
    has_physical(facts.physical, head, of) || has_logical(facts.logical, head, of)
}

fn is_slotted(facts: &Facts, base: &[u8]) -> bool
    ensures { result ≡ (is_partition (told_device facts.now) (base.now ++ suffix A)
        || is_partition (told_device facts.now) (base.now ++ suffix B)) }
{
    has_part(facts, base, b"_a") || has_part(facts, base, b"_b")
}

/// Whether a name has a partition for each slot, where it has any partition.
pub fn has_slot(facts: &Facts, base: &[u8]) -> Option<bool>
    ensures { option_map yes_or_no result ≡ has_slot (told_device facts.now) base.now }
{
    if facts.slots == 2 && is_slotted(facts, base) {
        Some(true)
    } else if has_part(facts, base, b"") {
        Some(false)
    } else {
        None
    }
}

/// How many bytes these extents hold.
pub fn size_of(extents: &[Extent]) -> u64
    requires { bytes_in extents.now < 2 ^ 64 }
    ensures { result ≡ bytes_in extents.now }
{
    let mut size = 0;
    for extent in extents {
        size += 512 * extent.sectors;
    }
    size
}

/// Appends a variable's text.
pub fn add_text(draft: &mut Draft, text: &Text)
    requires { array_vec_len draft.old + length (text_of text.now) ≤ 252 }
    ensures { draft.new.items ≡ draft.old.items ++ text_of text.now }
{
    match text {
        Text::Bytes(bytes) => add(draft, bytes),
        Text::Size(size) => add_size(draft, *size),
        Text::Extents(extents) => add_size(draft, size_of(extents.list)),
        Text::Count(count) => add_decimal(draft, *count),
    }
}
