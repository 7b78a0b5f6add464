ghost use Rattle.std.specs.Prelude.{◌≡◌};
ghost use Rattle.flash_plan.specs.Facts.{kind_in};

use fb_frame::items::Items;
use fb_frame::name::Name;
use fb_frame::slot::Slot;

/// A partition that the device has, and whether it is logical.
#[derive(Clone, Copy, Debug)]
pub struct Part {
    pub name: Name,
    pub logical: bool,
}

/// The partitions that were asked for and that the device has.
pub type Parts = Items<Part>;

/// What a device answers to a host's questions: its active slot, where it has slots, the most bytes of
/// one download, the name of its super, where it has one, and the partitions.
#[derive(Debug, Drop)]
pub struct Answers {
    pub current: Option<Slot>,
    pub max: u32,
    pub super_name: Option<Name>,
    pub parts: Parts,
}

/// Whether the partition of the name is logical, where it is one of these.
pub fn kind_in(parts: &[Part], name: &Name) -> Option<bool>
    ensures { result ≡ kind_in parts.now name.now }
{
    for part in parts {
        if part.name == *name {
            return Some(part.logical);
        }
    }
    None
}
