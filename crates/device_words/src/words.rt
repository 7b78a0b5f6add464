ghost use Rattle.std.specs.Prelude.{◌≡◌, Some, None, IfOk, option_map, map, codes, string_bytes};
ghost use Rattle.std.specs.Result.{IsErrOf};
ghost use Rattle.clap.specs.Words.{found_of, rows_of, first_of};
ghost use Rattle.word_rules.specs.Rules.{number_or};
ghost use Rattle.device_words.specs.Words.{device_words, serves_not, is_alone, make_of, single_of, serve_of};
ghost use Rattle.device_words.specs.Words.{action_of, request_of};

use crate::command::device_command;
use crate::request::DeviceWords;
use clap::ArgMatches;
use std::alloc::Global;
use word_rules::command::read;
use word_rules::error::WordsError;
use word_rules::found::{has_flag, lacks, number_in, value};
use word_rules::text::Text;

/// Whether no option stands that only `serve` has.
fn serves_not(found: &ArgMatches<'_>) -> bool
    ensures { result ≡ serves_not (rows_of (found_of found.now)) }
{
    lacks(found, "port") && lacks(found, "connections")
}

/// Whether one file stands alone, and not `--unlocked`.
fn is_alone(found: &ArgMatches<'_>, file: &str) -> bool
    ensures { result ≡ is_alone (rows_of (found_of found.now)) file.now }
{
    !file.is_empty() && lacks(found, "second") && !has_flag(found, "unlocked")
}

/// A number of 1 to 65535 that an option tells, and a usual one where the option doesn't stand.
fn number_or(usual: u16, text: Option<&str>) -> Option<u16>
    ensures { result ≡ number_or usual 1 65535 (option_map (λ text. text.now) text.entry) }
{
    let Some(text) = text else {
        return Some(usual);
    };
    let n = number_in(1, 65535, text)?;
    Some(n as u16)
}

/// An image from a layout.
fn make(alloc: Global, found: &ArgMatches<'_>, layout: &str) -> Result<DeviceWords, WordsError>
    ensures asked { IfOk result (λ asked. make_of (rows_of (found_of found.now)) layout.now
        (first_of (codes "second") (rows_of (found_of found.now))) ≡ Some asked) }
    ensures usage { IsErrOf result WordsError.Usage → make_of (rows_of (found_of found.now)) layout.now
        (first_of (codes "second") (rows_of (found_of found.now))) ≡ None }
{
    let Some(file) = value(found, "second") else {
        return Err(WordsError::Usage);
    };
    if layout.is_empty() || file.is_empty() || !serves_not(found) {
        return Err(WordsError::Usage);
    }
    Ok(DeviceWords::Make {
        layout: Text::new(alloc, layout)?,
        file: Text::new(alloc, file)?,
        unlocked: has_flag(found, "unlocked"),
    })
}

/// The one file of an action without options.
fn single(alloc: Global, found: &ArgMatches<'_>, file: &str) -> Result<Text, WordsError>
    ensures asked { IfOk result (λ name. single_of (rows_of (found_of found.now)) file.now ≡ Some name) }
    ensures usage { IsErrOf result WordsError.Usage →
        single_of (rows_of (found_of found.now)) file.now ≡ None }
{
    if is_alone(found, file) && serves_not(found) {
        Ok(Text::new(alloc, file)?)
    } else {
        Err(WordsError::Usage)
    }
}

/// A device that is served.
fn serve(alloc: Global, found: &ArgMatches<'_>, file: &str) -> Result<DeviceWords, WordsError>
    ensures asked { IfOk result (λ asked. serve_of (rows_of (found_of found.now)) file.now ≡ Some asked) }
    ensures usage { IsErrOf result WordsError.Usage →
        serve_of (rows_of (found_of found.now)) file.now ≡ None }
{
    if !is_alone(found, file) {
        return Err(WordsError::Usage);
    }
    let Some(port) = number_or(5554, value(found, "port")) else {
        return Err(WordsError::Usage);
    };
    let Some(connections) = number_or(16, value(found, "connections")) else {
        return Err(WordsError::Usage);
    };
    Ok(DeviceWords::Serve {
        file: Text::new(alloc, file)?,
        port,
        connections: u32::from(connections),
    })
}

/// What an action asks for, with its first file.
fn action(
    alloc: Global,
    found: &ArgMatches<'_>,
    action: &str,
    first: &str,
) -> Result<DeviceWords, WordsError>
    ensures asked { IfOk result (λ asked.
        action_of (rows_of (found_of found.now)) action.now first.now ≡ Some asked) }
    ensures usage { IsErrOf result WordsError.Usage →
        action_of (rows_of (found_of found.now)) action.now first.now ≡ None }
{
    match action {
        "make" => make(alloc, found, first),
        "show" => Ok(DeviceWords::Show(single(alloc, found, first)?)),
        "unlock" => Ok(DeviceWords::Unlock(single(alloc, found, first)?)),
        "serve" => serve(alloc, found, first),
        _ => Err(WordsError::Usage),
    }
}

/// What the matches of the command ask for.
fn request(alloc: Global, found: &ArgMatches<'_>) -> Result<DeviceWords, WordsError>
    ensures asked { IfOk result (λ asked. request_of (rows_of (found_of found.now)) ≡ Some asked) }
    ensures usage { IsErrOf result WordsError.Usage → request_of (rows_of (found_of found.now)) ≡ None }
{
    let Some(word) = value(found, "action") else {
        return Err(WordsError::Usage);
    };
    let Some(first) = value(found, "first") else {
        return Err(WordsError::Usage);
    };
    action(alloc, found, word, first)
}

/// What the words of fbdevice's command line ask for. They don't hold the program's name.
pub fn device_words(alloc: Global, words: &[String]) -> Result<DeviceWords, WordsError>
    ensures asked { IfOk result (λ asked. device_words (map string_bytes words.now) ≡ Some asked) }
    ensures usage { IsErrOf result WordsError.Usage → device_words (map string_bytes words.now) ≡ None }
{
    let command = device_command(alloc)?;
    let found = read(command, words)?;
    request(alloc, &found)
}
