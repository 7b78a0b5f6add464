//! How a command that works on a store ends: the one reply to it, and the device in its mode.
ghost use Rattle.std.specs.Prelude.{◌≡◌, ◌≤◌, length, option_map};
ghost use Rattle.dev_store.specs.Held.{Held, DiskKept};
ghost use Rattle.device_engine.specs.Replied.{none_framed};
ghost use Rattle.device_engine.specs.Running.{held_of, loaded_value, Order, answer, Ran, Follows};
ghost use Rattle.device_engine.specs.Working.{not_done, ended, reply_to, is_broken, Worked, IsReady};

use crate::device::{Device, Halted, Loaded, Next};
use crate::replies::Replies;
use dev_disk::disk::Disk;
use dev_model::refusal::Refusal;
use dev_store::errors::StoreError;
use dev_store::store::Store;
use fb_message::line::Line;
use fb_message::reply::Reply;
use thiserror::Error;

/// Why a command isn't done.
#[derive(Clone, Copy, Debug, PartialEq, Eq, Error)]
pub(crate) enum NotDone {
    #[error("the device refuses the command")]
    Refused(Refusal),
    #[error("the disk failed")]
    Disk,
}

/// Why a command isn't done whose call of the store isn't.
fn not_done(error: StoreError) -> NotDone
    ensures cause { result ≡ not_done error }
{
    match error {
        StoreError::NoPartition => NotDone::Refused(Refusal::NoSuchPartition),
        StoreError::TooLarge => NotDone::Refused(Refusal::ImageTooLarge),
        StoreError::NoSpace => NotDone::Refused(Refusal::NotEnoughSpace),
        StoreError::GroupFull => NotDone::Refused(Refusal::GroupFull),
        StoreError::NameTaken => NotDone::Refused(Refusal::NameTaken),
        StoreError::TooManyPartitions => NotDone::Refused(Refusal::TooManyPartitions),
        StoreError::NoGroup => NotDone::Refused(Refusal::NoSuchGroup),
        StoreError::BadTable => NotDone::Refused(Refusal::BadTable),
        StoreError::Disk => NotDone::Disk,
    }
}

/// A command that ends as its call of the store does.
pub(crate) fn ended(done: Result<(), StoreError>) -> Result<(), NotDone>
    ensures ended { result ≡ ended done }
{
    match done {
        Ok(()) => Ok(()),
        Err(error) => Err(not_done(error)),
    }
}

/// Whether the device is locked.
pub(crate) fn is_locked<K: Disk>(store: &Store<K>) -> bool
    ensures locked { result ≡ store.now.device.locked }
{
    store.state().locked
}

/// What was downloaded last, where anything was.
pub(crate) fn loaded_bytes<'a>(loaded: &Loaded<'a>) -> Option<&'a [u8]>
    ensures bytes { option_map (λ bytes. bytes.now) result ≡ loaded_value loaded.now }
{
    match loaded {
        Loaded::Nothing => None,
        Loaded::Bytes(bytes) => Some(bytes),
    }
}

/// A line of a short text.
pub(crate) fn line(text: &[u8]) -> Line
    requires short { length text.now ≤ 252 }
    ensures line { result ≡ text.now }
{
    let Some(line) = Line::read(text) else {
        unreachable!();
    };
    line
}

/// The reply to a command.
fn reply_to(done: Result<(), NotDone>) -> Reply
    ensures reply { result ≡ reply_to done }
{
    match done {
        Ok(()) => Reply::Okay(line(b"")),
        Err(NotDone::Refused(refusal)) => Reply::Fail(line(refusal.text())),
        Err(NotDone::Disk) => Reply::Fail(line(b"disk fault")),
    }
}

/// Whether the disk failed.
fn is_broken(done: Result<(), NotDone>) -> bool
    ensures broken { result ≡ is_broken done }
{
    match done {
        Ok(()) => false,
        Err(NotDone::Refused(_)) => false,
        Err(NotDone::Disk) => true,
    }
}

/// The device of a store after a command: in its mode with the one reply, or halted where the disk failed.
pub(crate) fn settle<K: Disk>(
    store: Store<K>,
    done: Result<(), NotDone>,
    replies: &mut Replies,
) -> Next<K>
    requires empty { replies.old ≡ none_framed }
    requires ready { IsReady K.told store done }
    ensures ran { (old : Held K) (order : Order) → Worked K.told old store order done →
        Ran K.told old (held_of result.device) order (answer replies.new result.due result.closes) }
    ensures follows { (old : Held K) (order : Order) → Worked K.told old store order done →
        DiskKept K.told K.lent old.disk store.disk → Follows K.told K.lent old result.device }
{
    replies.push(&reply_to(done));
    if is_broken(done) {
        return Next {
            device: Device::Halted(Halted { store }),
            due: None,
            closes: true,
        };
    }
    Next {
        device: Device::new(store),
        due: None,
        closes: false,
    }
}
