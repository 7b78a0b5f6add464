ghost use Rattle.std.specs.Prelude.{◌≡◌, ◌≤◌, ◌++◌, ◌∷◌, [], codes, length, map, option_map};
ghost use Rattle.std.specs.Prelude.{slice_get, bytes_eq, IsTrue, if◌then◌else◌};
ghost use Rattle.dev_model.specs.Partitions.{is_fastboot};
ghost use Rattle.dev_model.specs.Validity.{IsValid};
ghost use Rattle.dev_model.specs.Variables.{value, all_rows};
ghost use Rattle.wire_model.specs.Says.{tells, tells_all};
ghost use Rattle.dev_store.specs.StoreCalls.{info_text, started_in};
ghost use Rattle.device_engine.specs.Replied.{none_framed, framed};
ghost use Rattle.device_engine.specs.Kinds.{infos};

use crate::replies::Replies;
use crate::replying::{fail, line_of, reply_once};
use dev_disk::disk::Disk;
use dev_store::store::Store;
use fb_message::line::Line;
use fb_message::reply::Reply;

/// How many variables a device has at most.
const MOST: u32 = 848;

/// Answers with a variable's text.
fn tell<K: Disk>(store: &Store<K>, userspace: bool, name: &[u8], replies: &mut Replies)
    requires empty { replies.old ≡ none_framed }
    ensures { replies.new ≡ framed (tells (value (started_in userspace store.now.device) name.now)) }
{
    let mut line = line_of(b"");
    if store.value(name, userspace, &mut line) {
        reply_once(replies, &Reply::Okay(line));
    } else {
        fail(replies, b"unknown variable");
    }
}

/// The variable at a place of the order of `all`.
fn row_at<K: Disk>(store: &Store<K>, userspace: bool, place: u32) -> Option<Line>
    ensures { result ≡
        option_map info_text (slice_get (all_rows (started_in userspace store.now.device)) place) }
{
    let mut line = line_of(b"");
    if store.variable(place, userspace, &mut line) {
        Some(line)
    } else {
        None
    }
}

/// One INFO for each variable.
fn tell_rows<K: Disk>(store: &Store<K>, userspace: bool, replies: &mut Replies)
    requires empty { replies.old ≡ none_framed }
    requires few { length (all_rows (started_in userspace store.now.device)) ≤ 848 }
    ensures { replies.new ≡ framed (infos (all_rows (started_in userspace store.now.device))) }
{
    for place in 0..MOST {
        match row_at(store, userspace, place) {
            None => return,
            Some(line) => replies.push(&Reply::Info(line)),
        }
    }
}

/// One INFO for each variable, and OKAY.
#[tactic(auto, using(crate::proofs::ReplyLemmas::framing))]
fn tell_all<K: Disk>(store: &Store<K>, userspace: bool, replies: &mut Replies)
    requires empty { replies.old ≡ none_framed }
    requires few { length (all_rows (started_in userspace store.now.device)) ≤ 848 }
    ensures { replies.new ≡ framed (tells_all (started_in userspace store.now.device)) }
{
    tell_rows(store, userspace, replies);
    replies.push(&Reply::Okay(line_of(b"")));
}

/// Answers with a variable's text, or with all of them.
pub(crate) fn get_var<K: Disk>(store: &Store<K>, name: &[u8], replies: &mut Replies)
    requires fastboot { IsTrue (is_fastboot store.now.device.mode) }
    requires empty { replies.old ≡ none_framed }
    ensures { replies.new ≡ framed (if bytes_eq name.now (codes "all") then tells_all store.now.device
        else tells (value store.now.device name.now)) }
{
    let userspace = store.state().userspace;
    if name == b"all".as_slice() {
        tell_all(store, userspace, replies);
    } else {
        tell(store, userspace, name, replies);
    }
}
