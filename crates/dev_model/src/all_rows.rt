ghost use Rattle.std.specs.Prelude.{◌≡◌, ◌++◌, ◌∷◌, [], ◌&&◌, ◌||◌, nat_lt, nat_eq, length, map, filter, not, if◌then◌else◌, IfOk, OnOk, option_to_list, bytes_eq};
ghost use Rattle.std.specs.List.{ends_with, list_any};
ghost use Rattle.fb_frame.specs.Slots.{suffix};
ghost use Rattle.dev_model.specs.Variables.{base_name, base_names, first_ones, has_slot_row, all_rows};

use crate::cells::ByteList;
use crate::copies::copy_bytes;
use crate::device::{Dev, Logical, Physical};
use crate::partitions::has_slots;
use crate::variables::{Row, has_slot_text, plain_rows, push_row_of};
use fb_frame::items::Items;
use fb_frame::memory::Memory;
use std::alloc::Global;

/// The name without its slot's letter, where something is left.
fn base_name<'a>(dev: &Dev, name: &'a [u8]) -> &'a [u8]
    ensures { result.now ≡ base_name dev.now name.now }
{
    if has_slots(dev)
        && 2 < name.len()
        && (name.ends_with(b"_a".as_slice()) || name.ends_with(b"_b".as_slice()))
    {
        &name[..name.len() - 2]
    } else {
        name
    }
}

fn push_base(
    alloc: Global,
    bases: &mut Items<ByteList>,
    dev: &Dev,
    name: &[u8],
) -> Result<(), Memory>
    ensures { OnOk result (bases.new ≡ bases.old ++ base_name dev.now name.now ∷ []) }
{
    let base = copy_bytes(alloc, base_name(dev, name))?;
    bases.push(base).map_err(|_| Memory)?;
    Ok(())
}

fn push_physical(
    alloc: Global,
    bases: &mut Items<ByteList>,
    dev: &Dev,
    parts: &[Physical],
) -> Result<(), Memory>
    ensures { OnOk result (bases.new ≡ bases.old ++ map (base_name dev.now) (map (λ p. p.name) parts.now)) }
{
    for part in parts {
        push_base(alloc, bases, dev, part.name.bytes())?;
    }
    Ok(())
}

fn push_logical(
    alloc: Global,
    bases: &mut Items<ByteList>,
    dev: &Dev,
    parts: &[Logical],
) -> Result<(), Memory>
    ensures { OnOk result (bases.new ≡ bases.old ++ map (base_name dev.now) (map (λ p. p.name) parts.now)) }
{
    for part in parts {
        push_base(alloc, bases, dev, part.name.bytes())?;
    }
    Ok(())
}

fn contains(found: &[ByteList], text: &[u8]) -> bool
    ensures { result ≡ list_any (λ x. bytes_eq text.now x) found.now }
{
    found.iter().any(|x| text == x.as_slice())
}

/// Adds a text that doesn't stand in the list yet.
fn push_new(alloc: Global, found: &mut Items<ByteList>, text: &[u8]) -> Result<(), Memory>
    ensures { OnOk result (found.new ≡ found.old
        ++ (if list_any (λ x. bytes_eq text.now x) found.old then [] else text.now ∷ [])) }
{
    if contains(found.as_slice(), text) {
        return Ok(());
    }
    let copy = copy_bytes(alloc, text)?;
    found.push(copy).map_err(|_| Memory)?;
    Ok(())
}

/// Each text once, where it first stands.
#[tactic(auto, using(crate::proofs::FirstOnes::first_turns))]
fn first_ones(alloc: Global, texts: &[ByteList]) -> Result<Items<ByteList>, Memory>
    ensures { IfOk result (λ found. found ≡ first_ones texts.now) }
{
    let mut found = Items::new(alloc);
    for text in texts {
        push_new(alloc, &mut found, text.as_slice())?;
    }
    Ok(found)
}

/// The base names of all partitions, each once.
fn base_names(alloc: Global, dev: &Dev) -> Result<Items<ByteList>, Memory>
    ensures { IfOk result (λ bases. bases ≡ base_names dev.now) }
{
    let mut bases = Items::new(alloc);
    push_physical(alloc, &mut bases, dev, dev.physical.as_slice())?;
    push_logical(alloc, &mut bases, dev, dev.logical.as_slice())?;
    let found = first_ones(alloc, bases.as_slice())?;
    Ok(found)
}

fn push_has_slot(alloc: Global, rows: &mut Items<Row>, dev: &Dev, base: &[u8]) -> Result<(), Memory>
    ensures { OnOk result (rows.new ≡ rows.old ++ option_to_list (has_slot_row dev.now base.now)) }
{
    let Some(text) = has_slot_text(alloc, dev, base)? else {
        return Ok(());
    };
    push_row_of(alloc, rows, b"has-slot:".as_slice(), base, text.as_slice())?;
    Ok(())
}

/// Every variable in the order in which `all` tells them.
#[tactic(auto, unfolding(crate::specs::Variables::all_rows), using(crate::proofs::RowLemmas::row_turns))]
pub fn all_rows(alloc: Global, dev: &Dev) -> Result<Items<Row>, Memory>
    ensures { IfOk result (λ rows. rows ≡ all_rows dev.now) }
{
    let mut rows = plain_rows(alloc, dev)?;
    let bases = base_names(alloc, dev)?;
    for base in bases.as_slice() {
        push_has_slot(alloc, &mut rows, dev, base.as_slice())?;
    }
    Ok(rows)
}
