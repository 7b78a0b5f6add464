use crate::escaped::escaped;
use fb_link::link_error::LinkError;
use fb_message::line::Line;
use std::alloc::{AllocError, Global};

/// What came of a call.
#[derive(Drop)]
pub enum Came {
    Okay(Line),
    Fail(Line),
    /// A download began, of which so many bytes are left to send.
    Load(u32),
    /// Data was sent, and so many bytes are left.
    Left(u32),
    Broken(LinkError),
    /// All else, by its name.
    Is(&'static str),
}

/// A word, and bytes after it.
fn with(alloc: Global, word: &str, bytes: &[u8]) -> Result<String, AllocError> {
    let text = escaped(alloc, bytes)?;
    format!(in alloc; "{word} {text}")
}

/// An error and what it keeps.
fn broken(alloc: Global, error: &LinkError) -> Result<String, AllocError> {
    match error {
        LinkError::Link => String::from_str(alloc, "link"),
        LinkError::Ended => String::from_str(alloc, "ended"),
        LinkError::BadHandshake(four) => with(alloc, "bad handshake", four),
        LinkError::BadLength(n) => format!(in alloc; "bad length {n}"),
        LinkError::BadReply(reply) => with(alloc, "bad reply", reply.bytes()),
        LinkError::TooManyInfos => String::from_str(alloc, "too many lines"),
    }
}

impl Came {
    /// A line of what came.
    pub fn text(&self, alloc: Global) -> Result<String, AllocError> {
        match self {
            Came::Okay(line) => with(alloc, "okay", line.bytes()),
            Came::Fail(line) => with(alloc, "fail", line.bytes()),
            Came::Load(count) => format!(in alloc; "load {count}"),
            Came::Left(count) => format!(in alloc; "left {count}"),
            Came::Broken(error) => broken(alloc, error),
            Came::Is(name) => String::from_str(alloc, name),
        }
    }
}
