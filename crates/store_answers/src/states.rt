use dev_model::device::SlotFlags;
use dev_store::state::State;
use fb_frame::slot::Slot;
use std::alloc::{AllocError, Global};

/// The flags that three signs tell: `s` where the slot was successful, `u` where it is unbootable, and how
/// often it may be tried; `-` stands for a flag that isn't set.
fn flags_of(text: &str) -> Option<SlotFlags> {
    let [successful, unbootable, retries] = text.as_bytes() else {
        return None;
    };
    Some(SlotFlags {
        successful: is_set(*successful, b's')?,
        unbootable: is_set(*unbootable, b'u')?,
        retries: retries.checked_sub(b'0')?,
    })
}

fn is_set(sign: u8, set: u8) -> Option<bool> {
    if sign == set {
        Some(true)
    } else if sign == b'-' {
        Some(false)
    } else {
        None
    }
}

fn slot_of(text: &str) -> Option<Slot> {
    match text {
        "a" => Some(Slot::A),
        "b" => Some(Slot::B),
        _ => None,
    }
}

/// Whether a mode is userspace.
pub fn is_userspace(text: &str) -> Option<bool> {
    match text {
        "bootloader" => Some(false),
        "userspace" => Some(true),
        _ => None,
    }
}

/// The state that a text tells, as `locked a --7 --7 bootloader`.
pub fn state_of(text: &str) -> Option<State> {
    let (lock, rest) = text.split_once(" ")?;
    let (active, rest) = rest.split_once(" ")?;
    let (a, rest) = rest.split_once(" ")?;
    let (b, mode) = rest.split_once(" ")?;
    Some(State {
        locked: !crate::making::is_unlocked(lock)?,
        active: slot_of(active)?,
        flags: [flags_of(a)?, flags_of(b)?],
        userspace: is_userspace(mode)?,
    })
}

fn show_flags(alloc: Global, flags: &SlotFlags) -> Result<String, AllocError> {
    let successful = if flags.successful { "s" } else { "-" };
    let unbootable = if flags.unbootable { "u" } else { "-" };
    let retries = flags.retries;
    format!(in alloc; "{successful}{unbootable}{retries}")
}

/// The text of a state.
pub fn show_state(alloc: Global, state: &State) -> Result<String, AllocError> {
    let lock = if state.locked { "locked" } else { "unlocked" };
    let active = match state.active {
        Slot::A => "a",
        Slot::B => "b",
    };
    let a = show_flags(alloc, &state.flags[0])?;
    let b = show_flags(alloc, &state.flags[1])?;
    let mode = if state.userspace {
        "userspace"
    } else {
        "bootloader"
    };
    format!(in alloc; "{lock} {active} {a} {b} {mode}")
}
