ghost use Rattle.std.specs.Prelude.{◌≡◌, ◌==◌, ◌-◌, option_map, length};

use fb_frame::items::Items;
use fb_frame::word::Word;

/// The values of a requirement.
pub type Words = Items<Word>;

/// The requirements of a product.
pub type Requirements = Items<Requirement>;

/// What a requirement wants of its values.
#[derive(Clone, Copy, Debug, PartialEq, Eq)]
pub enum ReqKind {
    /// Some value matches.
    Require,
    /// No value matches.
    Reject,
    /// The device has a partition of the name.
    Exists,
}

/// A line of android-info.txt. `line` counts from 1, and `product` is the one that it is for, where it
/// is for one alone. `name` is a variable's, or of kind `Exists` a partition's, which has no values.
#[derive(Debug, Drop)]
pub struct Requirement {
    pub line: u32,
    pub product: Option<Word>,
    pub kind: ReqKind,
    pub name: Word,
    pub values: Words,
}
