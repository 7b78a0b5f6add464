use fb_frame::items::Items;
use fb_frame::name::Name;
use fb_frame::word::Word;
use fb_message::command::BootTarget;

/// The tasks of a product.
pub type Tasks = Items<Task>;

/// What a task does. `other` stands for the slot that isn't the current one.
#[derive(Clone, Copy, Debug)]
pub enum Action {
    Flash { name: Name, file: Word, other: bool },
    Reboot(BootTarget),
    UpdateSuper,
    Erase(Name),
}

/// A line of fastboot-info.txt. `line` counts from 1. A task with `if_wipe` is for a run that wipes.
#[derive(Clone, Copy, Debug)]
pub struct Task {
    pub line: u32,
    pub if_wipe: bool,
    pub action: Action,
}
