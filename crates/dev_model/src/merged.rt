ghost use Rattle.std.specs.Prelude.{◌≡◌, ◌++◌, ◌∷◌, [], if◌then◌else◌, IfOk, OnOk};
ghost use Rattle.dev_model.specs.Tables.{is_left_over, kept, kept_bytes, listed, left_over, merged, with_tables};

use crate::copies::{copy_bytes, copy_dev, copy_entry};
use crate::device::{Dev, Logical};
use crate::tables::{is_left_over, kept_bytes};
use fb_frame::items::Items;
use fb_frame::memory::Memory;
use fb_frame::tables::{TablePartition, Tables};
use std::alloc::Global;

/// A listed partition with the bytes that are kept of it.
fn listed_entry(
    alloc: Global,
    dev: &Dev,
    wipe: bool,
    part: &TablePartition,
) -> Result<Logical, Memory>
    ensures { IfOk result (λ entry.
        entry ≡ record {
          name = part.now.name;
          attributes = part.now.attributes;
          group = part.now.group;
          bytes = kept_bytes part.now.name (kept dev.now wipe);
        }) }
{
    let bytes = copy_bytes(alloc, kept_bytes(dev, wipe, part.name.bytes()))?;
    Ok(Logical {
        name: part.name,
        attributes: part.attributes,
        group: part.group,
        bytes,
    })
}

/// The partitions that the table lists, with the bytes that are kept.
fn listed(alloc: Global, tables: &Tables, wipe: bool, dev: &Dev) -> Result<Items<Logical>, Memory>
    ensures { IfOk result (λ entries. entries ≡ listed tables.now (kept dev.now wipe)) }
{
    let mut entries = Items::new(alloc);
    for part in tables.partitions.as_slice() {
        let entry = listed_entry(alloc, dev, wipe, part)?;
        entries.push(entry).map_err(|_| Memory)?;
    }
    Ok(entries)
}

/// Adds a partition, where it is left over.
fn push_left_over(
    alloc: Global,
    tables: &Tables,
    wipe: bool,
    dev: &Dev,
    part: &Logical,
    entries: &mut Items<Logical>,
) -> Result<(), Memory>
    ensures { OnOk result (entries.new ≡ entries.old
        ++ (if is_left_over tables.now wipe dev.now part.now then part.now ∷ [] else [])) }
{
    if is_left_over(tables, wipe, dev, part) {
        let entry = copy_entry(alloc, part)?;
        entries.push(entry).map_err(|_| Memory)?;
    }
    Ok(())
}

/// The new entries: those of the table in its order, and then the kept ones that it doesn't list.
#[tactic(auto, using(crate::proofs::MergedLemmas::merged_turns))]
fn merged(alloc: Global, tables: &Tables, wipe: bool, dev: &Dev) -> Result<Items<Logical>, Memory>
    ensures { IfOk result (λ entries. entries ≡ merged tables.now wipe dev.now) }
{
    let mut entries = listed(alloc, tables, wipe, dev)?;
    for part in dev.logical.as_slice() {
        push_left_over(alloc, tables, wipe, dev, part, &mut entries)?;
    }
    Ok(entries)
}

/// The device with a product's groups and flags and the new entries, in the greater of the two minor
/// versions.
pub fn with_tables(alloc: Global, tables: &Tables, wipe: bool, dev: &Dev) -> Result<Dev, Memory>
    ensures { IfOk result (λ after. after ≡ with_tables tables.now wipe dev.now) }
{
    let mut after = copy_dev(alloc, dev)?;
    after.groups = tables.groups.copy(alloc).map_err(|_| Memory)?;
    after.logical = merged(alloc, tables, wipe, dev)?;
    after.table_minor = dev.table_minor.max(tables.minor);
    after.table_flags = tables.flags;
    Ok(after)
}
