ghost use Rattle.std.specs.Prelude.{◌≡◌, option_map};
ghost use Rattle.clap.specs.Words.{found_of, rows_of};
ghost use Rattle.word_rules.specs.Rules.{number_or};
ghost use Rattle.host_words.specs.Words.{slot_by, options_of, usual_options, has_no_options};

use clap::ArgMatches;
use fb_frame::slot::Slot;
use flash_plan::options::{Options, SlotChoice};
use word_rules::found::{has_flag, lacks, number_in, value};

/// The slot, the current one where none is named.
fn read_slot(text: Option<&str>) -> Option<SlotChoice>
    ensures { result ≡ slot_by (option_map (λ text. text.now) text.entry) }
{
    match text {
        None => Some(SlotChoice::Current),
        Some("a") => Some(SlotChoice::Is(Slot::A)),
        Some("b") => Some(SlotChoice::Is(Slot::B)),
        Some("other") => Some(SlotChoice::Other),
        Some(_) => None,
    }
}

/// How many retries are allowed, none where no number stands.
fn read_retries(text: Option<&str>) -> Option<u8>
    ensures { result ≡ number_or 0 0 9 (option_map (λ text. text.now) text.entry) }
{
    let Some(text) = text else {
        return Some(0);
    };
    let n = number_in(0, 9, text)?;
    Some(n as u8)
}

/// The options of an installation.
pub fn read_options(found: &ArgMatches<'_>) -> Option<Options>
    ensures { result ≡ options_of (rows_of (found_of found.now)) }
{
    let slot = read_slot(value(found, "slot"))?;
    let retries = read_retries(value(found, "retries"))?;
    Some(Options {
        slot,
        wipe: has_flag(found, "wipe"),
        skip_reboot: has_flag(found, "skip-reboot"),
        force: has_flag(found, "force"),
        retries,
    })
}

/// The options of words that name none.
pub fn usual_options() -> Options
    ensures { result ≡ usual_options }
{
    Options {
        slot: SlotChoice::Current,
        wipe: false,
        skip_reboot: false,
        force: false,
        retries: 0,
    }
}

/// Whether no option stands that only an installation has.
pub fn has_no_options(found: &ArgMatches<'_>) -> bool
    ensures { result ≡ has_no_options (rows_of (found_of found.now)) }
{
    lacks(found, "slot")
        && lacks(found, "retries")
        && !(has_flag(found, "wipe") || has_flag(found, "skip-reboot") || has_flag(found, "force"))
}
