use dev_model::bad_image::BadImage;
use flash_plan::plan::PlanKind;
use flash_plan::product::Flaw;

/// What the last line tells.
#[derive(Clone, Copy, Debug)]
pub enum Verdict<'a> {
    /// The words are refused.
    Usage,
    /// There was no memory.
    NoMemory,
    /// The folder of this path, or its file of this name, can't be read.
    NoFolder(&'a [u8]),
    /// The folder holds no product: this file is the first with a flaw.
    Flawed(&'a [u8], Flaw),
    /// The link failed or ended, or the target stands for nothing.
    NoLink,
    /// The image stands for no device.
    NoDevice(BadImage),
    /// The device doesn't meet this line of android-info.txt, which names this variable, by this value where
    /// it has one.
    Unmet(u32, &'a [u8], Option<&'a [u8]>),
    /// No plan is made at this line of fastboot-info.txt; 0 stands before all lines.
    NoPlan(u32, PlanKind),
    /// The last reply was FAIL with this text.
    Refusing(&'a [u8]),
    /// These bytes are what no device of this profile sends.
    NoPeer(&'a [u8]),
    /// More lines came to one command than are heard.
    TooManyLines,
    /// So many steps of the plan were taken, which are all.
    Done(u32),
    /// The variable that was asked for has this text.
    Told(&'a [u8]),
}
