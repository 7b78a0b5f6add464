//! fbdevice: image files that stand for devices are made, shown, unlocked and served over TCP.
#![tactic(auto)]

use dev_disk::file::FileDisk;
use device_session::tcp_gate::TcpGate;
use device_top::device::device_main;
use device_top::report::refuse_words;
use fb_frame::write_sink::WriteSink;
use std::process::ExitCode;
use word_rules::arguments::words_of;

fn main(rt: HostRuntime) -> ExitCode {
    let mut out = WriteSink::new(rt.stdout());
    let words = match words_of(&rt) {
        Ok(words) => words,
        Err(error) => return ExitCode::from(refuse_words(error, &mut out)),
    };
    let mut disk = FileDisk::new(&rt);
    let mut gate = TcpGate::new(&rt);
    let status = device_main(rt.alloc(), words.as_slice(), &mut disk, &mut gate, &mut out);
    ExitCode::from(status)
}
