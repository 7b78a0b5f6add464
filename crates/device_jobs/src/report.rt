//! The end of a job: its lines and its status.
ghost use Rattle.std.specs.Prelude.{◌≡◌, ◌≤◌, MatchResult};
ghost use Rattle.device_jobs.specs.Working.{Ends, EndsBy, output, stop_status, stop_line};

use crate::job::JobError;
use crate::lines::stop_line;
use fb_frame::sink::Sink;
use std::alloc::Global;

/// Puts the lines, and answers the status: 9 where they aren't put.
pub fn end<S: Sink>(out: &mut S, lines: &[u8], status: u8) -> u8
    ensures ends { Ends status lines.now result (output (S.text out.old) (S.faults out.old))
        (output (S.text out.new) (S.faults out.new)) }
    ensures later { S.faults out.old ≤ S.faults out.new }
{
    match out.put(lines) {
        Ok(()) => status,
        Err(_) => 9,
    }
}

fn stop_status(error: &JobError) -> u8
    ensures { result ≡ stop_status error.now }
{
    match error {
        JobError::Memory => 2,
        JobError::Disk => 3,
        JobError::NoFile => 3,
        JobError::Layout(_) => 5,
        JobError::Device(_) => 4,
    }
}

/// Puts the line of a job that stopped, and answers its status.
pub fn stop<S: Sink>(alloc: Global, out: &mut S, error: &JobError) -> u8
    ensures ends { EndsBy (stop_status error.now) (stop_line error.now) result
        (output (S.text out.old) (S.faults out.old)) (output (S.text out.new) (S.faults out.new)) }
    ensures later { S.faults out.old ≤ S.faults out.new }
{
    let status = stop_status(error);
    let Ok(line) = stop_line(alloc, error) else {
        let memory = end(out, b"error memory\n", 2);
        return memory;
    };
    let answer = end(out, line.as_slice(), status);
    answer
}

/// Puts the lines of a job, and answers its status.
pub(crate) fn report<S: Sink>(alloc: Global, out: &mut S, job: &Result<Vec<u8>, JobError>) -> u8
    ensures ends { MatchResult job.now
        (λ text. Ends 0 text.items result (output (S.text out.old) (S.faults out.old))
        (output (S.text out.new) (S.faults out.new)))
        (λ error. EndsBy (stop_status error) (stop_line error) result
        (output (S.text out.old) (S.faults out.old)) (output (S.text out.new) (S.faults out.new))) }
    ensures later { S.faults out.old ≤ S.faults out.new }
{
    match job {
        Ok(text) => end(out, text.as_slice(), 0),
        Err(error) => stop(alloc, out, error),
    }
}
