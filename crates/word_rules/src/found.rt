ghost use Rattle.std.specs.Prelude.{◌≡◌, ◌≤◌, IfSome, option_map};
ghost use Rattle.clap.specs.Words.{found_of, rows_of, first_of};
ghost use Rattle.word_rules.specs.Rules.{has_flag, lacks, number_in};

use clap::ArgMatches;
use fb_frame::number::read_dec;

/// The value of an option or a word, where it stands.
pub fn value<'a>(found: &ArgMatches<'a>, id: &str) -> Option<&'a str>
    ensures { option_map (λ text. text.now) result ≡ first_of id.now (rows_of (found_of found.now)) }
{
    found.get_str(id)
}

/// Whether the flag stands: then its text is `true`, and else `false`.
pub fn has_flag(found: &ArgMatches<'_>, id: &str) -> bool
    ensures { result ≡ has_flag id.now (rows_of (found_of found.now)) }
{
    match value(found, id) {
        Some(text) => text == "true",
        None => false,
    }
}

/// Whether the option or the word doesn't stand.
#[tactic(auto, using(crate::proofs::FoundLemmas::none_of))]
pub fn lacks(found: &ArgMatches<'_>, id: &str) -> bool
    ensures { result ≡ lacks id.now (rows_of (found_of found.now)) }
{
    value(found, id).is_none()
}

/// The number that the text spells, where it lies within both bounds.
pub fn number_in(least: u64, most: u64, text: &str) -> Option<u64>
    ensures number { result ≡ number_in least most text.now }
    ensures within { IfSome result (λ n. (least ≤ n) × (n ≤ most)) }
{
    let n = read_dec(text.as_bytes())?;
    if least <= n && n <= most {
        Some(n)
    } else {
        None
    }
}
