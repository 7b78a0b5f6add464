ghost use Rattle.std.specs.Prelude.{◌≡◌, ◌<◌, ◌≤◌, ◌++◌, [], ◌∷◌, length, OnOk};
ghost use Rattle.std.specs.Result.{IsErrOf};
ghost use Rattle.product_info.specs.Reading.{is_skipped};

use crate::info::{InfoError, InfoKind};
use fb_frame::items::Items;

/// The most requirements, and the most tasks.
const MOST: usize = 256;

/// Why a line, or a part of it, isn't read.
#[derive(Debug, Drop)]
pub(crate) enum LineError {
    Bad,
    Memory,
}

/// The error of a bad line.
pub(crate) fn bad(line: u32, kind: InfoKind) -> InfoError
    ensures { result ≡ InfoError.Bad line kind }
{
    InfoError::Bad { line, kind }
}

/// An empty line, or a comment.
pub(crate) fn is_skipped(text: &[u8]) -> bool
    ensures { result ≡ is_skipped text.now }
{
    match text {
        [] => true,
        [first, ..] => *first == b'#',
    }
}

/// Adds what a line says, unless there are as many items as there may be.
pub(crate) fn add<T: Drop>(items: &mut Items<T>, line: u32, item: T) -> Result<(), InfoError>
    ensures added { OnOk result (items.new ≡ items.old ++ item ∷ []) }
    ensures room { OnOk result (length items.old < 256) }
    ensures most { OnOk result (length items.new ≤ 256) }
    ensures full { (number : _) (kind : _) → IsErrOf result (InfoError.Bad number kind) →
        256 ≤ length items.old }
    ensures line { (number : _) (kind : _) → IsErrOf result (InfoError.Bad number kind) → number ≡ line }
    ensures kind { (number : _) (kind : _) → IsErrOf result (InfoError.Bad number kind) →
        kind ≡ InfoKind.TooMany }
{
    if items.len() >= MOST {
        return Err(bad(line, InfoKind::TooMany));
    }
    items.push(item).map_err(|_| InfoError::Memory)?;
    Ok(())
}
