ghost use Rattle.std.specs.Prelude.{◌≡◌};
ghost use Rattle.flash_plan.specs.Targets.{chosen, slot_of, names_slot, is_slotless};

use fb_frame::slot::Slot;

/// Which slot an installation is for.
#[derive(Clone, Copy, Debug, PartialEq, Eq)]
pub enum SlotChoice {
    /// The one that is active.
    Current,
    /// This one.
    Is(Slot),
    /// The one that isn't active.
    Other,
}

impl SlotChoice {
    /// The slot that is meant, by the active one.
    fn chosen(self, active: Slot) -> Slot
        ensures { result ≡ chosen self active }
    {
        match self {
            SlotChoice::Current => active,
            SlotChoice::Is(slot) => slot,
            SlotChoice::Other => active.other(),
        }
    }

    /// The slot that is meant, where the device has slots.
    pub fn slot(self, active: Option<Slot>) -> Option<Slot>
        ensures { result ≡ slot_of self active }
    {
        match active {
            Some(active) => Some(self.chosen(active)),
            None => None,
        }
    }

    /// Whether a slot is named, or the other one asked for.
    fn names_slot(self) -> bool
        ensures { result ≡ names_slot self }
    {
        match self {
            SlotChoice::Current => false,
            SlotChoice::Is(_) => true,
            SlotChoice::Other => true,
        }
    }

    /// Whether a slot is named, or the other one asked for, of a device without slots.
    pub fn is_slotless(self, active: Option<Slot>) -> bool
        ensures { result ≡ is_slotless self active }
    {
        self.names_slot() && active.is_none()
    }
}

/// How an installation is done: for which slot, whether user data are wiped, whether the last reboot is
/// left out, whether requirements are passed over, and how often it is tried again.
#[derive(Clone, Copy, Debug)]
pub struct Options {
    pub slot: SlotChoice,
    pub wipe: bool,
    pub skip_reboot: bool,
    pub force: bool,
    pub retries: u8,
}
