ghost use Rattle.std.specs.Prelude.{◌≡◌, ◌≤◌, ◌∷◌, [], length};
ghost use Rattle.fb_message.specs.declared.reply.Reply.TheVariants.{Fail};
ghost use Rattle.device_engine.specs.Replied.{none_framed, framed};

use crate::replies::Replies;
use fb_message::line::Line;
use fb_message::reply::Reply;

/// The line of a text that a reply has room for.
pub(crate) fn line_of(text: &[u8]) -> Line
    requires short { length text.now ≤ 252 }
    ensures { result ≡ text.now }
{
    match Line::read(text) {
        Some(line) => line,
        None => unreachable!(),
    }
}

/// Answers with this reply and no other.
#[tactic(auto, using(crate::proofs::ReplyLemmas::framing))]
pub(crate) fn reply_once(replies: &mut Replies, reply: &Reply)
    requires empty { replies.old ≡ none_framed }
    ensures { replies.new ≡ framed (reply.now ∷ []) }
{
    replies.push(reply);
}

/// Answers with FAIL and a text.
pub(crate) fn fail(replies: &mut Replies, text: &[u8])
    requires empty { replies.old ≡ none_framed }
    requires short { length text.now ≤ 252 }
    ensures { replies.new ≡ framed (Fail text.now ∷ []) }
{
    reply_once(replies, &Reply::Fail(line_of(text)));
}
