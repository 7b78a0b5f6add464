ghost use Rattle.std.specs.Prelude.{◌≡◌, IsTrue};
ghost use Rattle.fb_message.specs.CommandText.{command_value};
ghost use Rattle.dev_model.specs.Partitions.{is_fastboot};
ghost use Rattle.wire_model.specs.Answers.{due_of};
ghost use Rattle.wire_model.specs.Says.{awaits, says};
ghost use Rattle.dev_model.specs.Refusals.{download_refusal};
ghost use Rattle.dev_store.specs.Held.{IsWhole};
ghost use Rattle.device_engine.specs.Replied.{none_framed, framed};
ghost use Rattle.device_engine.specs.Running.{held_of, loaded_value, order, answer, Ran, Follows};
ghost use Rattle.device_engine.specs.Kinds.{IsTold};

use crate::device::{Device, Loaded, Next};
use crate::getvar::get_var;
use crate::replies::Replies;
use crate::replying::{fail, line_of, reply_once};
use dev_disk::disk::Disk;
use dev_store::store::Store;
use fb_message::command::Command;
use fb_message::reply::Reply;

/// Takes a download, or refuses one that is too large. Says how many bytes are due then.
fn download<K: Disk>(
    store: &Store<K>,
    count: u32,
    loaded: &Loaded<'_>,
    replies: &mut Replies,
) -> Option<u32>
    requires empty { replies.old ≡ none_framed }
    ensures replied { replies.new ≡ framed (awaits (download_refusal store.now.device count) count
        store.now.device (loaded_value loaded.now)).replies }
    ensures due { result ≡ due_of (awaits (download_refusal store.now.device count) count
        store.now.device (loaded_value loaded.now)).replies }
{
    if store.max_download() < count {
        fail(replies, b"download too large");
        None
    } else {
        reply_once(replies, &Reply::Load(count));
        Some(count)
    }
}

/// Answers a command that changes nothing. Says how many bytes of a download are due then.
#[tactic(auto, unfolding(wire_model::specs::Says::says))]
fn tell<K: Disk>(
    store: &Store<K>,
    command: &Command<'_>,
    loaded: &Loaded<'_>,
    replies: &mut Replies,
) -> Option<u32>
    requires told { IsTold (command_value command.now) }
    requires fastboot { IsTrue (is_fastboot store.now.device.mode) }
    requires empty { replies.old ≡ none_framed }
    ensures replied { replies.new ≡ framed (says store.now.device (loaded_value loaded.now)
        (command_value command.now)).replies }
    ensures due { result ≡ due_of (says store.now.device (loaded_value loaded.now)
        (command_value command.now)).replies }
{
    match command {
        Command::GetVar(name) => {
            get_var(store, name, replies);
            None
        }
        Command::Download(count) => download(store, *count, loaded, replies),
        Command::Unlock => {
            fail(replies, b"unlock locally");
            None
        }
        Command::UnlockAbility => {
            reply_once(replies, &Reply::Okay(line_of(b"0")));
            None
        }
        _ => {
            fail(replies, b"unknown command");
            None
        }
    }
}

/// Answers a command that changes nothing.
pub(crate) fn stay<K: Disk>(
    store: Store<K>,
    command: &Command<'_>,
    loaded: &Loaded<'_>,
    replies: &mut Replies,
) -> Next<K>
    requires told { IsTold (command_value command.now) }
    requires whole { IsWhole K.told store }
    requires fastboot { IsTrue (is_fastboot store.device.mode) }
    requires empty { replies.old ≡ none_framed }
    ensures ran { Ran K.told store (held_of result.device)
        (order loaded.now (command_value command.now))
        (answer replies.new result.due result.closes) }
    ensures follows { Follows K.told K.lent store result.device }
{
    let due = tell(&store, command, loaded, replies);
    Next {
        device: Device::new(store),
        due,
        closes: false,
    }
}
