ghost use Rattle.std.specs.Prelude.{◌≡◌, ◌≤◌, length, IfOk, OnOk};
ghost use Rattle.std.specs.Result.{IsErrOf};
ghost use Rattle.product_info.specs.Reading.{Lists, Fails, line_says, Added, IsBad};
ghost use Rattle.product_info.specs.RequirementText.{requirement_of, requirements};

use crate::blanks::{content, first_part, is_text};
use crate::info::{InfoError, InfoKind};
use crate::lines::{LineError, add, bad, is_skipped};
use crate::requirement::Requirements;
use crate::requirement_text::read_requirement;
use std::alloc::Global;

/// Adds what a line of android-info.txt says.
fn read_line(
    alloc: Global,
    number: u32,
    line: &[u8],
    list: &mut Requirements,
) -> Result<(), InfoError>
    ensures added { OnOk result (Added (line_says InfoKind.BadLine (requirement_of number) line.now) list.old
        list.new) }
    ensures most { length list.old ≤ 256 → OnOk result (length list.new ≤ 256) }
    ensures line { (n : _) (kind : _) → IsErrOf result (InfoError.Bad n kind) → n ≡ number }
    ensures bad { (n : _) (kind : _) → IsErrOf result (InfoError.Bad n kind) →
        IsBad (line_says InfoKind.BadLine (requirement_of number) line.now) list.old kind }
{
    let text = content(line);
    if is_skipped(text) {
        return Ok(());
    }
    if !is_text(text) {
        return Err(bad(number, InfoKind::NotText));
    }
    match read_requirement(alloc, number, text) {
        Ok(requirement) => add(list, number, requirement),
        Err(LineError::Bad) => Err(bad(number, InfoKind::BadLine)),
        Err(LineError::Memory) => Err(InfoError::Memory),
    }
}

/// The requirements of an android-info.txt, at most 256.
///
/// A line ends at a line feed or at the end of the file, with one carriage return dropped before its
/// end. Blanks at its ends are dropped. Empty lines and those that begin with `#` are skipped.
#[tactic(auto, using(crate::proofs::ReadingLemmas::lined), unfolding(crate::specs::RequirementText::requirements))]
pub fn read_requirements(alloc: Global, text: &[u8]) -> Result<Requirements, InfoError>
    requires short { length text.now ≤ 65536 }
    ensures list { IfOk result (λ list. requirements text.now ≡ Lists list) }
    ensures most { IfOk result (λ list. length list ≤ 256) }
    ensures bad { (line : _) (kind : _) → IsErrOf result (InfoError.Bad line kind) →
        requirements text.now ≡ Fails line kind }
{
    let mut list = Requirements::new(alloc);
    let mut number = 1;
    let mut rest = Some(text);
    while let Some(left) = rest {
        let (line, more) = first_part(left, b'\n');
        read_line(alloc, number, line, &mut list)?;
        number += 1;
        rest = more;
    }
    Ok(list)
}
