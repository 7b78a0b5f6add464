ghost use Rattle.std.specs.Prelude.{◌≡◌, ◌<◌, ◌≤◌, [], ◌∷◌, length, Some, None, Ok, Err, IfOk, IfSome};
ghost use Rattle.std.specs.Prelude.{OnOk, MatchOption, if◌then◌else◌, ◌==◌};
ghost use Rattle.std.specs.Result.{IsErrOf};
ghost use Rattle.dev_store.specs.declared.layout.LayoutError.{LayoutError};
ghost use Rattle.dev_store.specs.LayoutLines.{lines};
ghost use Rattle.dev_store.specs.Layouts.{read_lines};
ghost use Rattle.dev_store.specs.LineReading.{IsGoneOn, IsStopped};

use crate::entries::{Entry, entry_flaw, is_complete};
use crate::layout::{LayoutError, LayoutFail, LayoutKind};
use crate::layout_line::{LineError, place_of, read_entry};
use fb_frame::items::Items;
use std::alloc::Global;

/// The error of a bad line.
pub(crate) fn bad(line: u32, kind: LayoutKind) -> LayoutFail
    ensures { result ≡ LayoutFail.Bad (record { line = line; kind = kind }) }
{
    LayoutFail::Bad(LayoutError { line, kind })
}

/// The first line without its line feed, and what follows it. None where there is no line feed.
#[tactic(auto, using(crate::proofs::SplitLemmas::cut))]
pub(crate) fn cut_line(text: &[u8]) -> Option<(&[u8], &[u8])>
    ensures lines { MatchOption result (lines text.now ≡ (if length text.now == 0 then [] else None ∷ []))
        (λ sides. lines text.now ≡ Some sides.0.now ∷ lines sides.1.now) }
    ensures shorter { IfSome result (λ sides. length sides.1.now < length text.now) }
{
    match place_of(text, b'\n') {
        Some(place) => Some((&text[..place], &text[place + 1..])),
        None => None,
    }
}

/// Adds what a line says.
fn read_line(
    alloc: Global,
    number: u32,
    line: &[u8],
    entries: &mut Items<Entry>,
) -> Result<(), LayoutFail>
    ensures added { OnOk result (IsGoneOn number (Some line.now) entries.old entries.new) }
    ensures bad { (bad : LayoutError) → IsErrOf result (LayoutFail.Bad bad) →
        IsStopped number (Some line.now) entries.old bad }
{
    let entry = match read_entry(alloc, line) {
        Ok(entry) => entry,
        Err(LineError::Form) => return Err(bad(number, LayoutKind::BadLine)),
        Err(LineError::Size) => return Err(bad(number, LayoutKind::BadSize)),
        Err(LineError::Memory) => return Err(LayoutFail::Memory),
    };
    if let Some(kind) = entry_flaw(entries.as_slice(), &entry) {
        return Err(bad(number, kind));
    }
    match entries.push(entry) {
        Ok(()) => Ok(()),
        Err(_) => Err(LayoutFail::Memory),
    }
}

/// What the lines after the first one say.
#[tactic(auto, using(crate::proofs::ReadLemmas::ended))]
pub(crate) fn read_entries(alloc: Global, text: &[u8]) -> Result<Items<Entry>, LayoutFail>
    requires short { length text.now ≤ 4096 }
    ensures entries { IfOk result (λ entries. read_lines 2 [] (lines text.now) ≡ Ok entries) }
    ensures bad { (bad : LayoutError) → IsErrOf result (LayoutFail.Bad bad) →
        read_lines 2 [] (lines text.now) ≡ Err bad }
{
    let mut entries = Items::new(alloc);
    let mut number = 2;
    let mut rest = text;
    while !rest.is_empty() {
        let Some((line, more)) = cut_line(rest) else {
            return Err(bad(number, LayoutKind::BadLine));
        };
        read_line(alloc, number, line, &mut entries)?;
        number += 1;
        rest = more;
    }
    if !is_complete(entries.as_slice()) {
        return Err(bad(number, LayoutKind::Missing));
    }
    Ok(entries)
}
