//! The end of a call: its last line and its status.
ghost use Rattle.std.specs.Prelude.{◌≡◌, ◌≤◌, IsTrue, is_some, option_map};
ghost use Rattle.fb_frame.specs.Causes.{Rose};
ghost use Rattle.host_top.specs.Ending.{Shows, ShowsLast};
ghost use Rattle.host_top.specs.LineParts.{verdict_in};
ghost use Rattle.host_top.specs.Verdicts.{status_of};

use crate::last_line::put_last_line;
use crate::verdict::Verdict;
use fb_frame::sink::Sink;

/// The status that the program ends with.
fn status_of(verdict: Verdict<'_>) -> u8
    ensures { result ≡ status_of (verdict_in verdict.entry) }
{
    match verdict {
        Verdict::Done(_) | Verdict::Told(_) => 0,
        Verdict::Usage => 1,
        Verdict::NoMemory => 2,
        Verdict::NoFolder(_) => 3,
        Verdict::Flawed(_, _) => 4,
        Verdict::Unmet(_, _, _) => 5,
        Verdict::NoLink => 6,
        Verdict::Refusing(_) => 7,
        Verdict::NoPeer(_) | Verdict::TooManyLines => 8,
        Verdict::NoPlan(_, _) => 10,
        Verdict::NoDevice(_) => 11,
    }
}

/// Puts the last line, and answers its status: 9 where the output takes less than the line.
pub(crate) fn end<S: Sink>(verdict: Verdict<'_>, out: &mut S) -> u8
    ensures shows { Shows (verdict_in verdict.entry) (S.text out.old) (S.text out.new) result }
    ensures unput { result ≡ 9 → Rose (S.faults out.old) (S.faults out.new) }
    ensures later { S.faults out.old ≤ S.faults out.new }
{
    match put_last_line(verdict, out) {
        Ok(()) => status_of(verdict),
        Err(_) => 9,
    }
}

/// Puts the last line where one is left to put: there is none where the output failed before, and the status
/// is 9.
pub(crate) fn end_any<S: Sink>(verdict: Option<Verdict<'_>>, out: &mut S) -> u8
    ensures shows { ShowsLast (option_map verdict_in verdict.entry) (S.text out.old) (S.text out.new) result }
    ensures unput { IsTrue (is_some verdict.entry) → result ≡ 9 → Rose (S.faults out.old) (S.faults out.new) }
    ensures later { S.faults out.old ≤ S.faults out.new }
{
    match verdict {
        Some(verdict) => end(verdict, out),
        None => 9,
    }
}
