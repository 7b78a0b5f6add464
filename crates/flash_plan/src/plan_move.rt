ghost use Rattle.std.specs.Prelude.{◌≡◌, ◌<◌, ◌^◌, ◌-◌, ◌++◌, ◌∷◌, [], List, Some, option_to_list, if◌then◌else◌};
ghost use Rattle.flash_plan.specs.Moves.{is_logical_move, is_flash, leaves};
ghost use Rattle.flash_plan.specs.Orders.{logical_target, is_logical_flash, is_turn, is_up, is_left};
ghost use Rattle.flash_plan.specs.Planning.{past_of};

use fb_frame::name::Name;
use fb_message::command::BootTarget;

/// A task on a device: the partition that is flashed, whether it is logical, and how many bytes its image
/// has; the one that is erased, and whether it is logical; the name of super; or the reboot.
#[derive(Clone, Copy, Debug)]
pub enum Move {
    Flashes {
        name: Name,
        logical: bool,
        size: u64,
    },
    Erases {
        name: Name,
        logical: bool,
    },
    Updates(Name),
    Boots(BootTarget),
}

/// Whether a device leaves fastboot by a reboot.
pub(crate) fn leaves(what: BootTarget) -> bool
    ensures { result ≡ leaves what }
{
    match what {
        BootTarget::System | BootTarget::Recovery => true,
        BootTarget::Bootloader | BootTarget::Fastboot => false,
    }
}

impl Move {
    /// Whether it is about a logical partition.
    pub(crate) fn is_logical(&self) -> bool
        ensures { result ≡ is_logical_move self.now }
    {
        match self {
            Move::Flashes { logical, .. } => *logical,
            Move::Erases { logical, .. } => *logical,
            Move::Updates(_) => true,
            Move::Boots(_) => false,
        }
    }

    /// Whether it brings an image.
    pub(crate) fn is_flash(&self) -> bool
        ensures { result ≡ is_flash self.now }
    {
        matches!(self, Move::Flashes { .. })
    }

    /// Whether it brings a logical partition's image.
    pub(crate) fn is_logical_flash(&self) -> bool
        ensures { result ≡ is_logical_flash self.now }
    {
        match self {
            Move::Flashes { logical, .. } => *logical,
            _ => false,
        }
    }

    /// The logical partition that is flashed.
    pub(crate) fn logical_target(&self) -> Option<Name>
        ensures { option_to_list result ≡ logical_target self.now }
    {
        match self {
            Move::Flashes {
                name,
                logical: true,
                ..
            } => Some(*name),
            _ => None,
        }
    }

    /// Whether the device leaves fastboot by it.
    pub(crate) fn is_left(&self) -> bool
        ensures { result ≡ is_left (Some self.now) }
    {
        match self {
            Move::Boots(what) => leaves(*what),
            _ => false,
        }
    }

    /// Whether userspace runs after it, where this is so before it.
    fn is_up_after(&self, up: bool) -> bool
        ensures { result ≡ (if is_turn self.now then is_up (Some self.now) else up) }
    {
        match self {
            Move::Boots(what) => *what == BootTarget::Fastboot,
            _ => up || self.is_logical(),
        }
    }
}

/// What tasks leave to the next ones: how many images there were, whether one was about a logical
/// partition, whether logical partitions were emptied, and whether userspace runs.
#[derive(Clone, Copy, Debug)]
pub struct Past {
    pub flashes: u32,
    pub logical: bool,
    pub emptied: bool,
    pub userspace: bool,
}

impl Past {
    /// No task.
    pub(crate) fn new() -> Past
        ensures { result ≡ past_of [] }
    {
        Past {
            flashes: 0,
            logical: false,
            emptied: false,
            userspace: false,
        }
    }

    /// One task more.
    pub(crate) fn after(&self, act: &Move) -> Past
        requires { self.now.flashes < 2 ^ 32 - 1 }
        ensures { (before : List Move) → self.now ≡ past_of before
            → result ≡ past_of (before ++ act.now ∷ []) }
    {
        Past {
            flashes: self.flashes + u32::from(act.is_flash()),
            logical: self.logical || act.is_logical(),
            emptied: self.emptied || act.is_logical_flash(),
            userspace: act.is_up_after(self.userspace),
        }
    }
}
