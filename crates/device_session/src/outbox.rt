//! What a session has answered and didn't give on yet.
ghost use Rattle.std.specs.Prelude.{◌≡◌, ◌+◌, ◌≤◌, [], length, drop};
ghost use Rattle.fb_frame.specs.Greeting.{handshake};
ghost use Rattle.device_engine.specs.Replied.{none_framed, reply_frame};

use device_engine::replies::Replies;
use fb_message::reply::Reply;
use std::marker::Model;

/// The handshake that a device sends.
const GREETING: [u8; 4] = *b"FB01";

/// The handshake and then the replies to the last command, of which a front was given on. Contracts see what
/// is left. It takes no memory.
#[derive(Drop)]
pub struct Outbox {
    greeted: usize,
    replies: Replies,
    given: usize,
}

impl Model for Outbox {
    ghost use Rattle.std.specs.Prelude.{◌≡◌, ℕ, ◌<◌, ◌≤◌, List, [], ◌++◌, length, drop};
    ghost use Rattle.fb_frame.specs.Greeting.{handshake};

    ghost Value = { List ℕ };

    ghost view = { λ o. drop o.greeted (handshake 1) ++ drop o.given o.replies.frames };

    ghost invariant = { λ o. (o.greeted ≤ 4) × (o.given ≤ length o.replies.frames)
        × (o.greeted < 4 → o.replies.frames ≡ []) };
}

/// The place this many bytes further on, of so many bytes in all.
fn further(at: usize, count: usize, all: usize) -> usize
    requires within { at + count ≤ all }
    ensures further { result ≡ at + count }
{
    at + count
}

impl Outbox {
    /// The outbox of a connection that begins.
    pub fn greet(replies: Replies) -> Outbox
        ensures greets { result ≡ handshake 1 }
    {
        let mut replies = replies;
        replies.clear();
        Outbox {
            greeted: 0,
            replies,
            given: 0,
        }
    }

    /// An outbox with these replies.
    pub fn with_replies(replies: Replies) -> Outbox
        ensures frames { result ≡ replies.frames }
    {
        Outbox {
            greeted: GREETING.len(),
            replies,
            given: 0,
        }
    }

    /// The memory for replies again, with none in it.
    pub fn into_replies(self) -> Replies
        ensures none { result ≡ none_framed }
    {
        let mut replies = self.replies;
        replies.clear();
        replies
    }

    /// Says this, where nothing is left to give on.
    pub fn say(&mut self, reply: &Reply)
        requires empty { self.old ≡ [] }
        ensures said { self.new ≡ reply_frame reply.now }
    {
        self.greeted = GREETING.len();
        self.given = 0;
        self.replies.clear();
        self.replies.push(reply);
    }

    /// What is left to give on.
    pub fn bytes(&self) -> &[u8]
        ensures left { result.now ≡ self.now }
    {
        if self.greeted < GREETING.len() {
            &GREETING[self.greeted..]
        } else {
            &self.replies.bytes()[self.given..]
        }
    }

    /// Takes a front of it away.
    pub fn drain(&mut self, count: usize)
        requires there { count ≤ length self.old }
        ensures drained { self.new ≡ drop count self.old }
    {
        if self.greeted < GREETING.len() {
            self.greeted += count;
        } else {
            let all = self.replies.bytes().len();
            self.given = further(self.given, count, all);
        }
    }
}
