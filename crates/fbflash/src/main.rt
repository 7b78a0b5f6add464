//! fbflash: installs a product on a device, as fastboot's flashall does.
#![tactic(auto)]

use dev_disk::file::FileDisk;
use fb_frame::write_sink::WriteSink;
use fb_link::tcp_port::TcpPort;
use flash_plan::folder_dir::FolderDir;
use host_sample::host::fbflash_main;
use host_top::host::refuse_words;
use pair_port::any_port::AnyPort;
use pair_port::pair::PairPort;
use std::process::ExitCode;
use word_rules::arguments::words_of;

fn main(rt: HostRuntime) -> ExitCode {
    let alloc = rt.alloc();
    let mut out = WriteSink::new(rt.stdout());
    let words = match words_of(&rt) {
        Ok(words) => words,
        Err(error) => return ExitCode::from(refuse_words(error, &mut out)),
    };
    let mut dir = FolderDir::new(&rt);
    let images = PairPort::new(FileDisk::new(&rt), Vec::new(alloc), Vec::new(alloc));
    let mut port = AnyPort::new(TcpPort::new(&rt), images);
    let status = fbflash_main(alloc, words.as_slice(), &mut dir, &mut port, &mut out);
    let (_addresses, images) = port.into_ports();
    let _disk = images.into_disk();
    ExitCode::from(status)
}
