use fb_frame::word::Word;
use fb_link::states::Lost;
use fb_message::line::Line;
use fb_message::packet::Packet;
use flash_plan::plan::PlanKind;
use thiserror::Error;

/// How many steps of the plan were done, and by how many attempts.
#[derive(Clone, Copy, Debug)]
pub struct Done {
    pub steps: u32,
    pub attempts: u8,
}

/// Why an installation stopped.
#[derive(Debug, Drop, Error)]
pub enum DriveError {
    #[error("out of memory")]
    Memory,
    /// The folder failed at this file.
    #[error("a file of the product can't be read")]
    Directory(Word),
    /// The output took less than a line.
    #[error("the output failed")]
    Output,
    /// The link failed, or no connection could begin.
    #[error("the connection failed")]
    Link,
    /// The connection ended before a reply.
    #[error("the connection ended before a reply")]
    Ended,
    /// The last reply was FAIL with this text.
    #[error("the device refused a step")]
    Refused(Line),
    /// These bytes are what no device of this profile sends.
    #[error("what came is no reply that is due")]
    Peer(Packet),
    /// The device said more lines to one command than are heard.
    #[error("too many lines came before a reply's end")]
    TooManyInfos,
    /// The device doesn't meet this line of android-info.txt; the value is None where it has none.
    #[error("the device doesn't meet a requirement")]
    Requirement {
        line: u32,
        name: Word,
        value: Option<Line>,
    },
    /// No plan is made at this line of fastboot-info.txt; 0 stands before all lines.
    #[error("no plan is made for the device")]
    Plan {
        line: u32,
        kind: PlanKind,
    },
}

/// What became of an installation. `acknowledged` counts for each attempt the steps that were answered.
#[derive(Debug, Drop)]
pub struct Drive<P> {
    pub link: Lost<P>,
    pub acknowledged: [u32; 10],
    pub attempts: u8,
    pub outcome: Result<Done, DriveError>,
}
