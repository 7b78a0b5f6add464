//! The top call.
ghost use Rattle.std.specs.Prelude.{◌≡◌, ◌⊎◌, ◌≤◌, map, None, Some, string_bytes};
ghost use Rattle.fb_frame.specs.Causes.{Rose};
ghost use Rattle.dev_store.specs.Faults.{IsHonest};
ghost use Rattle.device_jobs.specs.Working.{output};
ghost use Rattle.device_words.specs.Words.{device_words};
ghost use Rattle.device_top.specs.Reports.{call_of, IsDecided, IsDiskEnd, Prints};
ghost use Rattle.device_top.specs.Calls.{IsDone, Leaves, KeepsDisk, KeepsGate, IsGateEnd, Serves};
ghost use Rattle.device_top.specs.Working.{sides, IsCall};

use crate::report::refuse_words;
use crate::serve::serve_image;
use dev_disk::disk::Disk;
use device_jobs::make::make_image;
use device_jobs::show::show_image;
use device_jobs::unlock::unlock_image;
use device_session::gate::Gate;
use device_words::request::DeviceWords;
use device_words::words::device_words;
use fb_frame::sink::Sink;
use std::alloc::Global;

/// Does what was asked for.
fn do_asked<K: Disk, G: Gate, S: Sink>(
    alloc: Global,
    asked: &DeviceWords,
    disk: &mut K,
    gate: &mut G,
    out: &mut S,
) -> u8
    ensures call { IsCall (Some asked.now) result
        (sides (K.told disk.old) (G.told gate.old) (output (S.text out.old) (S.faults out.old)))
        (sides (K.told disk.new) (G.told gate.new) (output (S.text out.new) (S.faults out.new))) }
    ensures same { K.lent disk.new ≡ K.lent disk.old }
    ensures lent { G.lent gate.new ≡ G.lent gate.old }
{
    match asked {
        DeviceWords::Make {
            layout,
            file,
            unlocked,
        } => make_image(alloc, layout.as_str(), file.as_str(), *unlocked, disk, out),
        DeviceWords::Show(file) => show_image(alloc, file.as_str(), disk, out),
        DeviceWords::Unlock(file) => unlock_image(alloc, file.as_str(), disk, out),
        DeviceWords::Serve {
            file,
            port,
            connections,
        } => serve_image(alloc, file.as_str(), *port, *connections, disk, gate, out),
    }
}

/// Does what the words ask for.
fn run<K: Disk, G: Gate, S: Sink>(
    alloc: Global,
    words: &[String],
    disk: &mut K,
    gate: &mut G,
    out: &mut S,
) -> u8
    ensures call { IsCall (device_words (map string_bytes words.now)) result
        (sides (K.told disk.old) (G.told gate.old) (output (S.text out.old) (S.faults out.old)))
        (sides (K.told disk.new) (G.told gate.new) (output (S.text out.new) (S.faults out.new))) }
    ensures same { K.lent disk.new ≡ K.lent disk.old }
    ensures lent { G.lent gate.new ≡ G.lent gate.old }
{
    dev_store::laws();
    match device_words(alloc, words) {
        Ok(asked) => do_asked(alloc, &asked, disk, gate, out),
        Err(error) => refuse_words(error, out),
    }
}

/// Makes, shows, unlocks or serves a device image, as the words say, puts the lines of the call, and answers
/// its status. The words don't hold the program's name.
pub fn device_main<K: Disk, G: Gate, S: Sink>(
    alloc: Global,
    words: &[String],
    disk: &mut K,
    gate: &mut G,
    out: &mut S,
) -> u8
    ensures decided { IsDecided
        (call_of (device_words (map string_bytes words.now)) (K.told disk.old).files result) }
    ensures usage { result ≡ 1 → device_words (map string_bytes words.now) ≡ None }
    ensures refused { device_words (map string_bytes words.now) ≡ None →
        (result ≡ 1) ⊎ (result ≡ 2) ⊎ (result ≡ 9) }
    ensures disk { result ≡ 3 → IsDiskEnd
        (call_of (device_words (map string_bytes words.now)) (K.told disk.old).files result)
        (K.told disk.old).faults (K.told disk.new).faults }
    ensures gate { result ≡ 6 → IsGateEnd (device_words (map string_bytes words.now))
        (G.told gate.old) (G.told gate.new) }
    ensures output { result ≡ 9 → Rose (S.faults out.old) (S.faults out.new) }
    ensures reported { Prints
        (call_of (device_words (map string_bytes words.now)) (K.told disk.old).files result)
        (G.told gate.old) (G.told gate.new) (S.text out.old) (S.text out.new) }
    ensures done { IsDone
        (call_of (device_words (map string_bytes words.now)) (K.told disk.old).files result)
        (K.told disk.new).files }
    ensures leaves { IsHonest (K.told disk.new).torn → Leaves (device_words (map string_bytes words.now))
        (K.told disk.old).files (K.told disk.new).files }
    ensures others { KeepsDisk (device_words (map string_bytes words.now))
        (K.told disk.old) (K.told disk.new) }
    ensures untouched { (result ≡ 1) ⊎ (result ≡ 4) ⊎ (result ≡ 5) →
        (K.told disk.new).files ≡ (K.told disk.old).files }
    ensures served { Serves
        (call_of (device_words (map string_bytes words.now)) (K.told disk.old).files result)
        (K.told disk.old) (K.told disk.new) (G.told gate.old) (G.told gate.new) }
    ensures memory { result ≡ 2 → G.told gate.new ≡ G.told gate.old }
    ensures port { KeepsGate (device_words (map string_bytes words.now)) result (G.told gate.old)
        (G.told gate.new) }
    ensures same { K.lent disk.new ≡ K.lent disk.old }
    ensures gate_same { G.lent gate.new ≡ G.lent gate.old }
    ensures said { S.faults out.old ≤ S.faults out.new }
{
    run(alloc, words, disk, gate, out)
}
