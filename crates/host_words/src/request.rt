use crate::target::TargetText;
use flash_plan::options::Options;
use word_rules::text::Text;

/// What is done.
#[derive(Debug, Drop)]
pub enum HostAction {
    /// The product of a folder is installed.
    FlashAll(Text),
    /// A variable is asked for, whose name has at most 4,089 bytes.
    GetVar(Text),
    /// A sample of installations is drawn by this number.
    Sample(u32),
}

/// What the words of fbflash ask for. An installation and a question have a target, a sample has none.
/// Only an installation has options that the words name.
#[derive(Debug, Drop)]
pub struct HostWords {
    pub target: Option<TargetText>,
    pub action: HostAction,
    pub options: Options,
}
