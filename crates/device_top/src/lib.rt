//! The top call of fbdevice: images are made, shown, unlocked and served.
#![tactic(auto)]

pub mod device;
pub mod report;
pub mod serve;
