ghost use Rattle.std.specs.Prelude.{◌≡◌, IsTrue};
ghost use Rattle.fb_message.specs.CommandText.{command_value};
ghost use Rattle.dev_model.specs.Partitions.{is_fastboot};
ghost use Rattle.dev_store.specs.Held.{IsWhole, DiskKept};
ghost use Rattle.device_engine.specs.Kinds.{IsWork};
ghost use Rattle.device_engine.specs.Replied.{none_framed};
ghost use Rattle.device_engine.specs.Running.{held_of, order, answer, Ran, Follows, StaysLocked};
ghost use Rattle.device_engine.specs.Working.{Worked};

use crate::device::{Bootloader, Loaded, Next, Userspace};
use crate::part_commands::{erase, flash};
use crate::replies::Replies;
use crate::starting::{mode_of, start};
use crate::state_commands::{lock, set_active};
use crate::table_commands::{create, delete, resize, update_super};
use crate::told::stay;
use crate::working::{NotDone, settle};
use dev_disk::disk::Disk;
use dev_model::device::Mode;
use dev_store::store::Store;
use fb_message::command::Command;

/// Does a command that works on the store.
fn work<K: Disk>(
    store: &mut Store<K>,
    command: &Command<'_>,
    loaded: &Loaded<'_>,
) -> Result<(), NotDone>
    requires works { IsWork (command_value command.now) }
    requires whole { IsWhole K.told store.old }
    requires fastboot { IsTrue (is_fastboot store.old.device.mode) }
    ensures worked { Worked K.told store.old store.new (order loaded.now (command_value command.now)) result }
    ensures kept { DiskKept K.told K.lent store.old.disk store.new.disk }
{
    match command {
        Command::Flash(name) => flash(store, name, loaded),
        Command::Erase(name) => erase(store, name),
        Command::SetActive(slot) => set_active(store, *slot),
        Command::Lock => lock(store),
        Command::UpdateSuper(name, wipe) => update_super(store, name, *wipe, loaded),
        Command::Create(name, size) => create(store, name, *size),
        Command::Delete(name) => delete(store, name),
        Command::Resize(name, size) => resize(store, name, *size),
        _ => unreachable!(),
    }
}

/// Does a command that works on the store, and answers it.
fn change<K: Disk>(
    store: Store<K>,
    command: &Command<'_>,
    loaded: &Loaded<'_>,
    replies: &mut Replies,
) -> Next<K>
    requires works { IsWork (command_value command.now) }
    requires whole { IsWhole K.told store }
    requires fastboot { IsTrue (is_fastboot store.device.mode) }
    requires empty { replies.old ≡ none_framed }
    ensures ran { Ran K.told store (held_of result.device)
        (order loaded.now (command_value command.now))
        (answer replies.new result.due result.closes) }
    ensures follows { Follows K.told K.lent store result.device }
{
    let mut store = store;
    let done = work(&mut store, command, loaded);
    settle(store, done, replies)
}

/// Answers a command by its kind.
fn answer_to<K: Disk>(
    store: Store<K>,
    command: &Command<'_>,
    loaded: &Loaded<'_>,
    replies: &mut Replies,
) -> Next<K>
    requires whole { IsWhole K.told store }
    requires fastboot { IsTrue (is_fastboot store.device.mode) }
    requires empty { replies.old ≡ none_framed }
    ensures ran { Ran K.told store (held_of result.device)
        (order loaded.now (command_value command.now))
        (answer replies.new result.due result.closes) }
    ensures follows { Follows K.told K.lent store result.device }
{
    match command {
        Command::GetVar(_)
        | Command::Download(_)
        | Command::Unlock
        | Command::UnlockAbility
        | Command::Unknown => stay(store, command, loaded, replies),
        Command::Reboot(target) => start(store, mode_of(*target), command, loaded, replies),
        Command::Continue => start(store, Mode::System, command, loaded, replies),
        Command::Flash(_)
        | Command::Erase(_)
        | Command::SetActive(_)
        | Command::Lock
        | Command::UpdateSuper(_, _)
        | Command::Create(_, _)
        | Command::Delete(_)
        | Command::Resize(_, _) => change(store, command, loaded, replies),
    }
}

/// Runs a command in either mode.
fn run<K: Disk>(
    store: Store<K>,
    command: &Command<'_>,
    loaded: &Loaded<'_>,
    replies: &mut Replies,
) -> Next<K>
    requires whole { IsWhole K.told store }
    requires fastboot { IsTrue (is_fastboot store.device.mode) }
    requires empty { replies.old ≡ none_framed }
    ensures ran { Ran K.told store (held_of result.device)
        (order loaded.now (command_value command.now))
        (answer replies.new result.due result.closes) }
    ensures follows { Follows K.told K.lent store result.device }
    ensures locked { StaysLocked K.told store (held_of result.device) }
{
    answer_to(store, command, loaded, replies)
}

impl<K: Disk> Bootloader<K> {
    /// Runs a command. A device that left fastboot, or whose disk failed, ends the connection.
    pub fn run(self, command: &Command<'_>, loaded: &Loaded<'_>, replies: &mut Replies) -> Next<K>
        requires empty { replies.old ≡ none_framed }
        ensures ran { Ran K.told self (held_of result.device)
            (order loaded.now (command_value command.now))
            (answer replies.new result.due result.closes) }
        ensures follows { Follows K.told K.lent self result.device }
        ensures locked { StaysLocked K.told self (held_of result.device) }
    {
        run(self.store, command, loaded, replies)
    }
}

impl<K: Disk> Userspace<K> {
    /// Runs a command. A device that left fastboot, or whose disk failed, ends the connection.
    pub fn run(self, command: &Command<'_>, loaded: &Loaded<'_>, replies: &mut Replies) -> Next<K>
        requires empty { replies.old ≡ none_framed }
        ensures ran { Ran K.told self (held_of result.device)
            (order loaded.now (command_value command.now))
            (answer replies.new result.due result.closes) }
        ensures follows { Follows K.told K.lent self result.device }
        ensures locked { StaysLocked K.told self (held_of result.device) }
    {
        run(self.store, command, loaded, replies)
    }
}
