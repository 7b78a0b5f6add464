//! What fbdevice does with a file: an image that is made, shown or unlocked.
#![tactic(auto)]

mod device_text;
mod digests;
pub mod ended;
pub mod job;
mod lines;
pub mod make;
mod parts;
pub mod report;
pub mod show;
pub mod unlock;
mod unlocking;
