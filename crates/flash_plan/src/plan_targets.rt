ghost use Rattle.std.specs.Prelude.{◌≡◌};
ghost use Rattle.dev_model.specs.Repeats.{is_among};
ghost use Rattle.flash_plan.specs.Facts.{kind_in};
ghost use Rattle.flash_plan.specs.Targets.{candidates, found, target_in};
ghost use Rattle.flash_plan.specs.Planning.{names_of};

use crate::answers::{Part, kind_in};
use fb_frame::name::Name;
use fb_frame::slot::Slot;

/// The names that a task's name may stand for on a device, in the order in which they are tried.
#[derive(Clone, Copy, Debug)]
pub struct Candidates {
    pub first: Option<Name>,
    pub second: Option<Name>,
}

/// Whether the name is one of these.
pub fn is_among(names: &[Name], name: &Name) -> bool
    ensures { result ≡ is_among names.now name.now }
{
    names.iter().any(|other| *other == *name)
}

/// Whether a name is of a logical partition, where the device has it or the product's table lists it.
fn found(parts: &[Part], listed: &[Name], name: &Name) -> Option<bool>
    ensures { result ≡ found (kind_in parts.now) listed.now name.now }
{
    match kind_in(parts, name) {
        Some(logical) => Some(logical),
        None => is_among(listed, name).then_some(true),
    }
}

impl Candidates {
    /// The names that a task's name may stand for: with slots that of the slot and the name itself, for
    /// the other slot that of the other one alone. What is too long for a name is none.
    pub fn new(slot: Option<Slot>, other: bool, name: &Name) -> Candidates
        ensures { names_of result ≡ candidates slot other name.now }
    {
        let Some(slot) = slot else {
            return Candidates {
                first: None,
                second: if other { None } else { Some(*name) },
            };
        };
        if other {
            return Candidates {
                first: None,
                second: name.with_slot(slot.other()),
            };
        }
        Candidates {
            first: name.with_slot(slot),
            second: Some(*name),
        }
    }

    /// The first candidate that is found, and whether it is logical.
    pub(crate) fn target(&self, parts: &[Part], listed: &[Name]) -> Option<(Name, bool)>
        ensures { result ≡ target_in (kind_in parts.now) listed.now (names_of self.now) }
    {
        if let Some(name) = self.first
            && let Some(logical) = found(parts, listed, &name)
        {
            return Some((name, logical));
        }
        let name = self.second?;
        let logical = found(parts, listed, &name)?;
        Some((name, logical))
    }
}
