//! fbflash's top call over a folder and a device in memory.
ghost use Rattle.std.specs.Prelude.{◌≡◌, ◌+◌, ◌≤◌, All, Some, map, string_bytes};
ghost use Rattle.dev_disk.specs.Memory.{memory_faults, memory_files};
ghost use Rattle.flash_plan.specs.MemoryFiles.{file_of};
ghost use Rattle.host_driver.specs.Jobs.{folder, outside};
ghost use Rattle.host_words.specs.Requests.{target_of};
ghost use Rattle.host_words.specs.Words.{host_words};
ghost use Rattle.host_top.specs.Hosted.{Hosted};
ghost use Rattle.host_memory.specs.Rehearsals.{scene, counts, went, IsUndisturbed, OfFlash, OverPort};
ghost use Rattle.host_memory.specs.Rehearsals.{IsInstalled, LeavesImage, CompletesAt, KeepsImages};

use dev_disk::memory::MemoryDisk;
use fb_frame::sink::Sink;
use flash_plan::memory_dir::MemoryDir;
use host_top::host::host_main;
use pair_port::pair::PairPort;
use std::alloc::Global;

/// What a rehearsal came to: the status, how many calls met a break, and the disk with the device's image.
#[derive(Drop)]
pub struct Rehearsed {
    pub status: u8,
    pub broken: u64,
    pub disk: MemoryDisk,
}

/// Runs fbflash by its words, with the folder `dir` and the images of `disk`; an address is none of its
/// targets. `sizes` and `breaks` cut and break the connections as a `PairPort`'s do.
pub fn rehearse<S: Sink>(
    alloc: Global,
    words: &[String],
    dir: &mut MemoryDir,
    disk: MemoryDisk,
    sizes: Vec<u32>,
    breaks: Vec<Option<u64>>,
    out: &mut S,
) -> Rehearsed
    requires sizes { All (λ size. 1 ≤ size) sizes.items }
    ensures hosted { OverPort disk result.disk result.broken (λ before after.
        Hosted (host_words (map string_bytes words.now))
        (outside before (folder (Some dir.old.path) (Some (file_of dir.old.files))
        dir.old.entered dir.old.failing.faults) (S.text out.old) (S.faults out.old))
        (outside after (folder (Some dir.new.path) (Some (file_of dir.new.files))
        dir.new.entered dir.new.failing.faults) (S.text out.new) (S.faults out.new))
        result.status) }
    ensures installed { OfFlash (host_words (map string_bytes words.now)) (λ path place options.
        result.status ≡ 0 → IsInstalled path options
        (scene (file_of dir.old.files) (memory_files disk) (memory_files result.disk)
        (S.text out.old) (S.text out.new))) }
    ensures left { LeavesImage (host_words (map string_bytes words.now))
        (scene (file_of dir.old.files) (memory_files disk) (memory_files result.disk)
        (S.text out.old) (S.text out.new)) }
    ensures completed { OfFlash (host_words (map string_bytes words.now)) (λ path place options.
        place ≡ dir.old.path →
        IsUndisturbed (went
        (counts (memory_faults disk) dir.old.failing.faults (S.faults out.old))
        (counts (result.broken + memory_faults result.disk) dir.new.failing.faults (S.faults out.new))) →
        CompletesAt path options
        (scene (file_of dir.old.files) (memory_files disk) (memory_files result.disk)
        (S.text out.old) (S.text out.new)) result.status) }
    ensures beside { KeepsImages (target_of (host_words (map string_bytes words.now)))
        (memory_files disk) (memory_files result.disk) }
    ensures path { dir.new.path ≡ dir.old.path }
    ensures files { file_of dir.new.files ≡ file_of dir.old.files }
{
    let mut port = PairPort::new(disk, sizes, breaks);
    let status = host_main(alloc, words, dir, &mut port, out);
    let broken = port.broken();
    Rehearsed {
        status,
        broken,
        disk: port.into_disk(),
    }
}
