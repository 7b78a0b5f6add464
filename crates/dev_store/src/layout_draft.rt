ghost use Rattle.std.specs.Prelude.{◌≡◌, ◌++◌, [], ◌∷◌, List, Some, IfOk, OnOk};
ghost use Rattle.std.specs.Option.{option_or};
ghost use Rattle.dev_store.specs.declared.entries.Entry.{Entry};
ghost use Rattle.dev_store.specs.Drafts.{Gathers};

use crate::entries::Entry;
use crate::layout::{PhysicalPart, SuperPart};
use dev_model::cells::ByteList;
use dev_model::device::Variable;
use fb_frame::items::Items;
use std::alloc::{AllocError, Global};

/// What the lines of a layout say together.
#[derive(Drop)]
pub(crate) struct Draft {
    pub(crate) product: Option<ByteList>,
    pub(crate) serial: Option<ByteList>,
    pub(crate) vars: Items<Variable>,
    pub(crate) slots: Option<u8>,
    pub(crate) max: Option<u32>,
    pub(crate) physical: Items<PhysicalPart>,
    pub(crate) super_part: Option<SuperPart>,
}

/// Keeps the first value.
fn keep_first<T: Drop>(kept: &mut Option<T>, value: T)
    ensures { kept.new ≡ option_or kept.old (Some value) }
{
    if kept.is_none() {
        *kept = Some(value);
    }
}

impl Draft {
    fn new(alloc: Global) -> Draft
        ensures { Gathers result [] }
    {
        Draft {
            product: None,
            serial: None,
            vars: Items::new(alloc),
            slots: None,
            max: None,
            physical: Items::new(alloc),
            super_part: None,
        }
    }

    /// Adds what a line says.
    fn add(&mut self, entry: Entry) -> Result<(), AllocError>
        ensures { OnOk result ((before : List Entry) → Gathers self.old before →
            Gathers self.new (before ++ entry ∷ [])) }
    {
        match entry {
            Entry::ProductLine(text) => keep_first(&mut self.product, text),
            Entry::SerialLine(text) => keep_first(&mut self.serial, text),
            Entry::SlotsLine(slots) => keep_first(&mut self.slots, slots),
            Entry::DownloadLine(most) => keep_first(&mut self.max, most),
            Entry::VariableLine(variable) => self.vars.push(variable)?,
            Entry::PartitionLine(part) => self.physical.push(part)?,
            Entry::SuperLine(part) => keep_first(&mut self.super_part, part),
        }
        Ok(())
    }

    /// What these lines say.
    pub(crate) fn gathered(alloc: Global, entries: Items<Entry>) -> Result<Draft, AllocError>
        ensures { IfOk result (λ draft. Gathers draft entries) }
    {
        let mut draft = Draft::new(alloc);
        for entry in entries.into_vec() {
            draft.add(entry)?;
        }
        Ok(draft)
    }
}
