ghost use Rattle.std.specs.Prelude.{◌≡◌, ◌∷◌, [], codes, true, None, Some, OnOk, OnErr};
ghost use Rattle.fb_message.specs.declared.reply.Reply.TheVariants.{Fail};
ghost use Rattle.fb_frame.specs.Causes.{Rose};
ghost use Rattle.fb_message.specs.CommandText.{command_value};
ghost use Rattle.dev_model.specs.Partitions.{is_userspace, with_mode};
ghost use Rattle.dev_model.specs.declared.device.Mode.TheVariants as mode;
ghost use Rattle.wire_model.specs.Says.{mode_of};
ghost use Rattle.dev_store.specs.Faults.{IsHonest};
ghost use Rattle.dev_store.specs.Held.{IsWhole, DiskKept, held_in, image_of};
ghost use Rattle.dev_store.specs.StoreCalls.{StandsAround};
ghost use Rattle.dev_store.specs.States.{start_mode};
ghost use Rattle.device_engine.specs.Replied.{none_framed, framed};
ghost use Rattle.device_engine.specs.Running.{held_of, order, answer, IsTyped, Ran, Follows};
ghost use Rattle.device_engine.specs.Kinds.{started, IsLive};

use crate::device::{Bootloader, Device, Gone, Halted, Loaded, Next, Userspace};
use crate::replies::Replies;
use crate::replying::{fail, line_of, reply_once};
use dev_disk::disk::Disk;
use dev_model::device::Mode;
use dev_store::errors::StoreError;
use dev_store::store::Store;
use fb_message::command::{BootTarget, Command};
use fb_message::reply::Reply;

/// The mode that a reboot starts.
pub(crate) fn mode_of(target: BootTarget) -> Mode
    ensures { result ≡ mode_of target }
{
    match target {
        BootTarget::System => Mode::System,
        BootTarget::Bootloader => Mode::Bootloader,
        BootTarget::Fastboot => Mode::Userspace,
        BootTarget::Recovery => Mode::Recovery,
    }
}

fn is_userspace(mode: Mode) -> bool
    ensures { result ≡ is_userspace mode }
{
    match mode {
        Mode::Userspace => true,
        _ => false,
    }
}

/// Stores in which mode the image opens.
fn store_start<K: Disk>(store: &mut Store<K>, userspace: bool) -> Result<(), StoreError>
    requires whole { IsWhole K.told store.old }
    ensures changed { OnOk result
        (store.new.device ≡ with_mode (start_mode userspace) store.old.device) }
    ensures whole { OnOk result (IsWhole K.told store.new) }
    ensures rose { OnErr result (Rose (K.told store.old.disk).faults (K.told store.new.disk).faults) }
    ensures around { OnErr result (IsHonest (K.told store.new.disk).torn → StandsAround
        (image_of K.told store.new) store.old.device
        (with_mode (start_mode userspace) store.old.device)) }
    ensures kept { DiskKept K.told K.lent store.old.disk store.new.disk }
{
    let mut state = store.state();
    state.userspace = userspace;
    store.set_state(&state)
}

/// The device of a store whose image opens in the mode, or in the bootloader where the device leaves fastboot.
fn in_mode<K: Disk>(store: Store<K>, mode: Mode) -> Device<K>
    requires whole { IsWhole K.told store }
    requires stored { store.device.mode ≡ start_mode (is_userspace mode) }
    requires live { IsLive mode }
    ensures held { held_of result ≡ held_in mode store }
    ensures typed { IsTyped result }
{
    match mode {
        Mode::Bootloader => Device::Bootloader(Bootloader { store }),
        Mode::Userspace => Device::Userspace(Userspace { store }),
        Mode::System => Device::Gone(Gone { store, mode }),
        Mode::Recovery => Device::Gone(Gone { store, mode }),
        Mode::Halted => unreachable!(),
    }
}

/// The device of a store whose disk failed.
fn halted<K: Disk>(store: Store<K>) -> Device<K>
    ensures held { held_of result ≡ held_in mode.Halted store }
    ensures typed { IsTyped result }
{
    Device::Halted(Halted { store })
}

/// Answers that the disk failed.
fn fail_disk(replies: &mut Replies)
    requires empty { replies.old ≡ none_framed }
    ensures { replies.new ≡ framed (Fail (codes "disk fault") ∷ []) }
{
    fail(replies, b"disk fault");
}

/// Stores the start mode, and then answers OKAY: the device in the mode, or one whose disk failed.
fn restarted<K: Disk>(
    store: Store<K>,
    mode: Mode,
    command: &Command<'_>,
    loaded: &Loaded<'_>,
    replies: &mut Replies,
) -> Device<K>
    requires starts { started (command_value command.now) ≡ Some mode }
    requires whole { IsWhole K.told store }
    requires empty { replies.old ≡ none_framed }
    ensures ran { Ran K.told store (held_of result) (order loaded.now (command_value command.now))
        (answer replies.new None true) }
    ensures follows { Follows K.told K.lent store result }
{
    let mut store = store;
    let Ok(()) = store_start(&mut store, is_userspace(mode)) else {
        fail_disk(replies);
        return halted(store);
    };
    reply_once(replies, &Reply::Okay(line_of(b"")));
    in_mode(store, mode)
}

/// Starts the device in the mode, and ends the connection.
pub(crate) fn start<K: Disk>(
    store: Store<K>,
    mode: Mode,
    command: &Command<'_>,
    loaded: &Loaded<'_>,
    replies: &mut Replies,
) -> Next<K>
    requires starts { started (command_value command.now) ≡ Some mode }
    requires whole { IsWhole K.told store }
    requires empty { replies.old ≡ none_framed }
    ensures ran { Ran K.told store (held_of result.device)
        (order loaded.now (command_value command.now))
        (answer replies.new result.due result.closes) }
    ensures follows { Follows K.told K.lent store result.device }
{
    Next {
        device: restarted(store, mode, command, loaded, replies),
        due: None,
        closes: true,
    }
}
