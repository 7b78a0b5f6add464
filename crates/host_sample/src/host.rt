//! The call that the program makes.
ghost use Rattle.std.specs.Prelude.{◌≡◌, Some, IfSome, map, string_bytes};
ghost use Rattle.host_driver.specs.Jobs.{folder, outside};
ghost use Rattle.host_words.specs.Requests.{Sample};
ghost use Rattle.host_words.specs.Words.{host_words};
ghost use Rattle.host_sample.specs.Calls.{Comes};

use crate::sample::run_sample;
use fb_frame::sink::Sink;
use fb_link::port::Port;
use flash_plan::dir::ProductDir;
use host_top::host::host_main;
use host_words::request::HostAction;
use host_words::words::host_words;
use std::alloc::Global;

/// The number of the sample that the words ask for, None where they ask for none, or where memory for reading
/// them is wanting.
fn sample_number(alloc: Global, words: &[String]) -> Option<u32>
    ensures { IfSome result (λ number. host_words (map string_bytes words.now) ≡ Some (Sample number)) }
{
    let Ok(asked) = host_words(alloc, words) else {
        return None;
    };
    match asked.action {
        HostAction::Sample(number) => Some(number),
        HostAction::FlashAll(_) => None,
        HostAction::GetVar(_) => None,
    }
}

/// Runs fbflash, as `host_main` does, or a sample where the words ask for one: it uses neither folder nor
/// port.
pub fn fbflash_main<D: ProductDir, P: Port, S: Sink>(
    alloc: Global,
    words: &[String],
    dir: &mut D,
    port: &mut P,
    out: &mut S,
) -> u8
    ensures comes { Comes (host_words (map string_bytes words.now))
        (outside (P.told port.old)
        (folder (D.told_path dir.old) (D.files dir.old) (D.entered dir.old) (D.faults dir.old))
        (S.text out.old) (S.faults out.old))
        (outside (P.told port.new)
        (folder (D.told_path dir.new) (D.files dir.new) (D.entered dir.new) (D.faults dir.new))
        (S.text out.new) (S.faults out.new))
        result }
    ensures same { P.lent port.new ≡ P.lent port.old }
    ensures dir_same { D.lent dir.new ≡ D.lent dir.old }
{
    match sample_number(alloc, words) {
        Some(number) => run_sample(alloc, number, out),
        None => host_main(alloc, words, dir, port, out),
    }
}
