//! What the last line tells of how a call ended.
ghost use Rattle.std.specs.Prelude.{◌≡◌, Err, option_map};
ghost use Rattle.host_top.specs.LineParts.{verdict_in, aim_verdict};
ghost use Rattle.host_top.specs.Verdicts.{verdict_of};

use crate::verdict::Verdict;
use fb_link::port::AimError;
use fb_message::line::Line;
use host_driver::drive::{Done, DriveError};

fn value_of(value: &Option<Line>) -> Option<&[u8]>
    ensures { option_map (λ text. text.now) result ≡ value.now }
{
    match value {
        Some(text) => Some(text.bytes()),
        None => None,
    }
}

/// What is told of an installation, or a question, that broke off: nothing where the output failed.
pub(crate) fn stop_verdict(error: &DriveError) -> Option<Verdict<'_>>
    ensures { option_map verdict_in result ≡ verdict_of (Err error.now) }
{
    match error {
        DriveError::Output => None,
        DriveError::Memory => Some(Verdict::NoMemory),
        DriveError::Directory(file) => Some(Verdict::NoFolder(file.bytes())),
        DriveError::Link | DriveError::Ended => Some(Verdict::NoLink),
        DriveError::Refused(text) => Some(Verdict::Refusing(text.bytes())),
        DriveError::Peer(kept) => Some(Verdict::NoPeer(kept.bytes())),
        DriveError::TooManyInfos => Some(Verdict::TooManyLines),
        DriveError::Requirement { line, name, value } => {
            Some(Verdict::Unmet(*line, name.bytes(), value_of(value)))
        }
        DriveError::Plan { line, kind } => Some(Verdict::NoPlan(*line, *kind)),
    }
}

/// What is told of an installation: nothing where the output failed before its last line.
pub(crate) fn end_verdict(outcome: &Result<Done, DriveError>) -> Option<Verdict<'_>>
    ensures { option_map verdict_in result ≡ verdict_of outcome.now }
{
    match outcome {
        Ok(done) => Some(Verdict::Done(done.steps)),
        Err(error) => stop_verdict(error),
    }
}

/// What is told where the port isn't aimed.
pub(crate) fn aim_verdict(error: &AimError) -> Verdict<'_>
    ensures { verdict_in result ≡ aim_verdict error.now }
{
    match error {
        AimError::Memory => Verdict::NoMemory,
        AimError::BadDevice(kind) => Verdict::NoDevice(*kind),
        AimError::Link | AimError::NoTarget => Verdict::NoLink,
    }
}
