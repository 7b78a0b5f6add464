//! The lines of words that are refused and of a serving, and their statuses.
ghost use Rattle.std.specs.Prelude.{◌≡◌, ◌≤◌, OnOk, OnErr};
ghost use Rattle.fb_frame.specs.Causes.{HasCause};
ghost use Rattle.fb_frame.specs.Sinks.{Grew, GrewPart};
ghost use Rattle.device_jobs.specs.Working.{Ends, output};
ghost use Rattle.device_top.specs.Endings.{served_line};
ghost use Rattle.device_top.specs.Working.{words_status, words_line, ended_of, EndsServing};

use device_jobs::job::JobError;
use device_jobs::report::{end, stop};
use device_session::serving::ServeEnd;
use fb_frame::sink::{Sink, SinkFault};
use itoa::Buffer;
use std::alloc::Global;
use word_rules::error::WordsError;

/// Why a file isn't served any longer, but for the ends that serving has by itself.
#[derive(Debug, Drop)]
pub(crate) enum ServeStop {
    /// Its device wasn't opened.
    Unopened(JobError),
    /// The gate failed.
    Gate,
    /// The disk failed, and the device halted.
    Halted,
}

/// How a serving ends, with this many connections accepted.
pub(crate) fn ended_of(end: ServeEnd, count: u32) -> Result<u32, ServeStop>
    ensures { result ≡ ended_of end count }
{
    match end {
        ServeEnd::Left | ServeEnd::Limit | ServeEnd::NoMore => Ok(count),
        ServeEnd::Gate => Err(ServeStop::Gate),
        ServeEnd::Halted => Err(ServeStop::Halted),
    }
}

/// Puts how many connections were accepted.
#[tactic(auto, using(fb_frame::proofs::SinkLemmas::sink_lines))]
fn put_served<S: Sink>(count: u32, out: &mut S) -> Result<(), SinkFault>
    ensures put { OnOk result (Grew (S.text out.old) (S.text out.new) (served_line count)) }
    ensures part { OnErr result (GrewPart (S.text out.old) (S.text out.new) (served_line count)) }
    ensures cause { HasCause (S.faults out.old) (S.faults out.new) result }
{
    let mut digits = Buffer::new();
    out.put(b"served ")?;
    out.put(digits.format(count).as_bytes())?;
    out.put(b"\n")?;
    Ok(())
}

/// Puts how many connections were accepted, and answers the status.
fn end_served<S: Sink>(count: u32, out: &mut S) -> u8
    ensures ends { Ends 0 (served_line count) result (output (S.text out.old) (S.faults out.old))
        (output (S.text out.new) (S.faults out.new)) }
    ensures later { S.faults out.old ≤ S.faults out.new }
{
    match put_served(count, out) {
        Ok(()) => 0,
        Err(_) => 9,
    }
}

/// Puts the line of a serving, and answers its status. Where the device was opened no memory is taken.
pub(crate) fn report_serving<S: Sink>(
    alloc: Global,
    ended: &Result<u32, ServeStop>,
    out: &mut S,
) -> u8
    ensures ends { EndsServing ended.now result (output (S.text out.old) (S.faults out.old))
        (output (S.text out.new) (S.faults out.new)) }
    ensures later { S.faults out.old ≤ S.faults out.new }
{
    match ended {
        Ok(count) => end_served(*count, out),
        Err(ServeStop::Unopened(error)) => stop(alloc, out, error),
        Err(ServeStop::Gate) => end(out, b"error gate\n", 6),
        Err(ServeStop::Halted) => end(out, b"error disk\n", 3),
    }
}

/// Puts the line of words that ask for nothing, and answers the status: 1 where they are refused, 2 where
/// memory is wanting, 9 where the line isn't put.
pub fn refuse_words<S: Sink>(error: WordsError, out: &mut S) -> u8
    ensures ends { Ends (words_status error) (words_line error) result
        (output (S.text out.old) (S.faults out.old)) (output (S.text out.new) (S.faults out.new)) }
    ensures later { S.faults out.old ≤ S.faults out.new }
{
    match error {
        WordsError::Usage => end(out, b"error usage\n", 1),
        WordsError::Memory => end(out, b"error memory\n", 2),
    }
}
