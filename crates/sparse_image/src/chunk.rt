/// What a chunk of an image holds.
#[derive(Clone, Copy, Debug, PartialEq, Eq)]
pub enum Content {
    /// The bytes of the source from this place on.
    Raw(u64),
    /// Four bytes, again and again.
    Fill([u8; 4]),
    /// Nothing: what was there stays.
    DontCare,
}

/// A part of an image, in whole blocks.
#[derive(Clone, Copy, Debug, PartialEq, Eq)]
pub struct Chunk {
    pub blocks: u32,
    pub content: Content,
}
