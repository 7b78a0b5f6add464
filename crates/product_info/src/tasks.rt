ghost use Rattle.std.specs.Prelude.{◌≡◌, ◌+◌, ◌≤◌, [], length, IfOk, OnOk};
ghost use Rattle.std.specs.Option.{option_map_or};
ghost use Rattle.std.specs.Result.{IsErrOf};
ghost use Rattle.product_info.specs.Blanks.{parts};
ghost use Rattle.product_info.specs.Reading.{Lists, Fails, line_says, read_lines, Added, IsBad};
ghost use Rattle.product_info.specs.TaskText.{version_of, task_of, tasks, IsFirst, IsBadFirst};

use crate::blanks::{content, first_part, is_text};
use crate::info::{InfoError, InfoKind};
use crate::lines::{add, bad, is_skipped};
use crate::task::{Task, Tasks};
use crate::task_text::{read_task, read_version};
use std::alloc::Global;

/// Whether a line tells a version that is read here. False for a line that is skipped.
fn read_first(number: u32, line: &[u8]) -> Result<bool, InfoError>
    ensures first { IfOk result (λ found. IsFirst (line_says InfoKind.NoVersion version_of line.now) found) }
    ensures line { (n : _) (kind : _) → IsErrOf result (InfoError.Bad n kind) → n ≡ number }
    ensures bad { (n : _) (kind : _) → IsErrOf result (InfoError.Bad n kind) →
        IsBadFirst (line_says InfoKind.NoVersion version_of line.now) kind }
{
    let text = content(line);
    if is_skipped(text) {
        return Ok(false);
    }
    if !is_text(text) {
        return Err(bad(number, InfoKind::NotText));
    }
    match read_version(text) {
        Some(version) if version <= 1 => Ok(true),
        Some(_) => Err(bad(number, InfoKind::BadVersion)),
        None => Err(bad(number, InfoKind::NoVersion)),
    }
}

/// The number of the line behind the version's, and the text from there on.
#[tactic(auto, using(crate::proofs::TaskLemmas::firsts), unfolding(crate::specs::TaskText::tasks))]
fn skip_version(text: &[u8]) -> Result<(u32, Option<&[u8]>), InfoError>
    requires short { length text.now ≤ 65536 }
    ensures rest { IfOk result (λ p. tasks text.now
        ≡ read_lines InfoKind.BadLine task_of p.0 256 (option_map_or (λ left. parts 10 left.now) p.1 [])) }
    ensures bounded { IfOk result (λ p. p.0 + option_map_or (λ left. length left.now + 1) p.1 0 ≤ 65538) }
    ensures bad { (line : _) (kind : _) → IsErrOf result (InfoError.Bad line kind) →
        tasks text.now ≡ Fails line kind }
{
    let mut number = 1;
    let mut rest = Some(text);
    while let Some(left) = rest {
        let (line, more) = first_part(left, b'\n');
        let found = read_first(number, line)?;
        number += 1;
        if found {
            return Ok((number, more));
        }
        rest = more;
    }
    Err(bad(1, InfoKind::NoVersion))
}

/// Adds what a line of fastboot-info.txt says.
#[tactic(auto, unfolding(crate::specs::TaskText::task_of))]
fn read_line(number: u32, line: &[u8], list: &mut Tasks) -> Result<(), InfoError>
    ensures added { OnOk result (Added (line_says InfoKind.BadLine (task_of number) line.now) list.old
        list.new) }
    ensures most { length list.old ≤ 256 → OnOk result (length list.new ≤ 256) }
    ensures line { (n : _) (kind : _) → IsErrOf result (InfoError.Bad n kind) → n ≡ number }
    ensures bad { (n : _) (kind : _) → IsErrOf result (InfoError.Bad n kind) →
        IsBad (line_says InfoKind.BadLine (task_of number) line.now) list.old kind }
{
    let text = content(line);
    if is_skipped(text) {
        return Ok(());
    }
    if !is_text(text) {
        return Err(bad(number, InfoKind::NotText));
    }
    let Some((if_wipe, action)) = read_task(text) else {
        return Err(bad(number, InfoKind::BadLine));
    };
    let task = Task {
        line: number,
        if_wipe,
        action,
    };
    add(list, number, task)
}

/// The tasks of a fastboot-info.txt, at most 256. Its first line that isn't skipped is `version 0` or
/// `version 1`.
///
/// A line ends at a line feed or at the end of the file, with one carriage return dropped before its
/// end. Blanks at its ends are dropped. Empty lines and those that begin with `#` are skipped.
#[tactic(auto, using(crate::proofs::ReadingLemmas::lined))]
pub fn read_tasks(alloc: Global, text: &[u8]) -> Result<Tasks, InfoError>
    requires short { length text.now ≤ 65536 }
    ensures list { IfOk result (λ list. tasks text.now ≡ Lists list) }
    ensures most { IfOk result (λ list. length list ≤ 256) }
    ensures bad { (line : _) (kind : _) → IsErrOf result (InfoError.Bad line kind) →
        tasks text.now ≡ Fails line kind }
{
    let (mut number, mut rest) = skip_version(text)?;
    let mut list = Tasks::new(alloc);
    while let Some(left) = rest {
        let (line, more) = first_part(left, b'\n');
        read_line(number, line, &mut list)?;
        number += 1;
        rest = more;
    }
    Ok(list)
}
