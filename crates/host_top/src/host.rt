//! The top call of fbflash.
ghost use Rattle.std.specs.Prelude.{◌≡◌, Some, map, string_bytes};
ghost use Rattle.fb_frame.specs.Causes.{Rose};
ghost use Rattle.host_driver.specs.Jobs.{folder, outside};
ghost use Rattle.host_words.specs.Requests.{Request, request_of};
ghost use Rattle.host_words.specs.Words.{host_words};
ghost use Rattle.host_top.specs.Acts.{Fits};
ghost use Rattle.host_top.specs.Ending.{Ends, Shows};
ghost use Rattle.host_top.specs.Hosted.{Hosted, Lasts};
ghost use Rattle.host_top.specs.LineParts.{verdict_in, words_verdict};

use crate::asking::get_var;
use crate::installing::flash_all;
use crate::report::end;
use crate::verdict::Verdict;
use fb_frame::sink::Sink;
use fb_link::port::Port;
use flash_plan::dir::ProductDir;
use host_words::request::{HostAction, HostWords};
use host_words::words::host_words;
use std::alloc::Global;
use word_rules::error::WordsError;

/// Does what the words ask for, and puts the last line. Answers the status.
fn run_words<D: ProductDir, P: Port, S: Sink>(
    alloc: Global,
    words: &HostWords,
    dir: &mut D,
    port: &mut P,
    out: &mut S,
) -> u8
    requires fit { (request : Request) → request_of words.now ≡ Some request → Fits request }
    ensures ends { (request : Request) → request_of words.now ≡ Some request → Ends (Some request)
        (outside (P.told port.old)
        (folder (D.told_path dir.old) (D.files dir.old) (D.entered dir.old) (D.faults dir.old))
        (S.text out.old) (S.faults out.old))
        (outside (P.told port.new)
        (folder (D.told_path dir.new) (D.files dir.new) (D.entered dir.new) (D.faults dir.new))
        (S.text out.new) (S.faults out.new))
        result }
    ensures lasts { Lasts
        (outside (P.told port.old)
        (folder (D.told_path dir.old) (D.files dir.old) (D.entered dir.old) (D.faults dir.old))
        (S.text out.old) (S.faults out.old))
        (outside (P.told port.new)
        (folder (D.told_path dir.new) (D.files dir.new) (D.entered dir.new) (D.faults dir.new))
        (S.text out.new) (S.faults out.new)) }
    ensures same { P.lent port.new ≡ P.lent port.old }
    ensures dir_same { D.lent dir.new ≡ D.lent dir.old }
{
    let Some(target) = &words.target else {
        return end(Verdict::Usage, out);
    };
    match &words.action {
        HostAction::FlashAll(path) => {
            let aim = target.target();
            flash_all(alloc, &aim, path.as_str(), &words.options, dir, port, out)
        }
        HostAction::GetVar(name) => {
            let aim = target.target();
            get_var(alloc, &aim, name.as_str().as_bytes(), port, out)
        }
        HostAction::Sample(_) => end(Verdict::Usage, out),
    }
}

/// What the last line tells where the words ask for nothing.
fn words_verdict<'a>(error: WordsError) -> Verdict<'a>
    ensures { verdict_in result ≡ words_verdict error }
{
    match error {
        WordsError::Usage => Verdict::Usage,
        WordsError::Memory => Verdict::NoMemory,
    }
}

/// Runs fbflash: `words` are those of its command line without the program's name. Answers the status that
/// the program ends with, and puts the lines that it prints into `out`.
pub fn host_main<D: ProductDir, P: Port, S: Sink>(
    alloc: Global,
    words: &[String],
    dir: &mut D,
    port: &mut P,
    out: &mut S,
) -> u8
    ensures hosted { Hosted (host_words (map string_bytes words.now))
        (outside (P.told port.old)
        (folder (D.told_path dir.old) (D.files dir.old) (D.entered dir.old) (D.faults dir.old))
        (S.text out.old) (S.faults out.old))
        (outside (P.told port.new)
        (folder (D.told_path dir.new) (D.files dir.new) (D.entered dir.new) (D.faults dir.new))
        (S.text out.new) (S.faults out.new))
        result }
    ensures same { P.lent port.new ≡ P.lent port.old }
    ensures dir_same { D.lent dir.new ≡ D.lent dir.old }
{
    match host_words(alloc, words) {
        Ok(words) => run_words(alloc, &words, dir, port, out),
        Err(error) => end(words_verdict(error), out),
    }
}

/// The status of a call whose words can't be given to `host_main`, as a word that isn't UTF-8, with its line.
pub fn refuse_words<S: Sink>(error: WordsError, out: &mut S) -> u8
    ensures shows { Shows (words_verdict error) (S.text out.old) (S.text out.new) result }
    ensures unput { result ≡ 9 → Rose (S.faults out.old) (S.faults out.new) }
{
    end(words_verdict(error), out)
}
