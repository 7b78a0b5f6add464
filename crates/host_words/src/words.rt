ghost use Rattle.std.specs.Prelude.{◌≡◌, None, IfOk, map, string_bytes};
ghost use Rattle.std.specs.Result.{IsErrOf};
ghost use Rattle.clap.specs.Words.{found_of, rows_of};
ghost use Rattle.host_words.specs.Requests.{Asks};
ghost use Rattle.host_words.specs.Targets.{NamesPlace};
ghost use Rattle.host_words.specs.Words.{host_words, place_among, flash_of, options_of, question_of};
ghost use Rattle.host_words.specs.Words.{has_no_options, sample_of, action_of, request_among};

use crate::command::host_command;
use crate::options::{has_no_options, read_options, usual_options};
use crate::request::{HostAction, HostWords};
use crate::target::TargetText;
use clap::ArgMatches;
use std::alloc::Global;
use word_rules::command::read;
use word_rules::error::WordsError;
use word_rules::found::{lacks, number_in, value};
use word_rules::text::Text;

/// The target that the words name, Usage where there is none.
fn target(alloc: Global, found: &ArgMatches<'_>) -> Result<TargetText, WordsError>
    ensures place { IfOk result (λ t. NamesPlace t (place_among (rows_of (found_of found.now)))) }
    ensures usage { IsErrOf result WordsError.Usage → place_among (rows_of (found_of found.now)) ≡ None }
{
    match value(found, "target") {
        Some(text) => TargetText::read(alloc, text),
        None => Err(WordsError::Usage),
    }
}

/// An installation of a folder's product.
fn flash_all(alloc: Global, found: &ArgMatches<'_>, dir: &str) -> Result<HostWords, WordsError>
    ensures asked { IfOk result (λ words. Asks words (flash_of (place_among (rows_of (found_of found.now)))
        dir.now (options_of (rows_of (found_of found.now))))) }
    ensures usage { IsErrOf result WordsError.Usage →
        flash_of (place_among (rows_of (found_of found.now))) dir.now
        (options_of (rows_of (found_of found.now))) ≡ None }
{
    let target = target(alloc, found)?;
    let Some(options) = read_options(found) else {
        return Err(WordsError::Usage);
    };
    Ok(HostWords {
        target: Some(target),
        action: HostAction::FlashAll(Text::new(alloc, dir)?),
        options,
    })
}

/// A question for a variable.
fn get_var(alloc: Global, found: &ArgMatches<'_>, name: &str) -> Result<HostWords, WordsError>
    ensures asked { IfOk result (λ words. Asks words (question_of (place_among (rows_of (found_of found.now)))
        name.now (has_no_options (rows_of (found_of found.now))))) }
    ensures usage { IsErrOf result WordsError.Usage →
        question_of (place_among (rows_of (found_of found.now))) name.now
        (has_no_options (rows_of (found_of found.now))) ≡ None }
{
    let target = target(alloc, found)?;
    if has_no_options(found) && name.len() <= 4089 {
        Ok(HostWords {
            target: Some(target),
            action: HostAction::GetVar(Text::new(alloc, name)?),
            options: usual_options(),
        })
    } else {
        Err(WordsError::Usage)
    }
}

/// A sample, drawn by the number that a text spells; `bare` says that neither target nor option stands.
fn sample(text: &str, bare: bool) -> Result<HostWords, WordsError>
    ensures asked { IfOk result (λ words. Asks words (sample_of text.now bare)) }
    ensures usage { IsErrOf result WordsError.Usage → sample_of text.now bare ≡ None }
{
    if !bare {
        return Err(WordsError::Usage);
    }
    let Some(n) = number_in(0, 4_294_967_295, text) else {
        return Err(WordsError::Usage);
    };
    Ok(HostWords {
        target: None,
        action: HostAction::Sample(n as u32),
        options: usual_options(),
    })
}

/// What an action asks for, with its subject.
fn action(
    alloc: Global,
    found: &ArgMatches<'_>,
    action: &str,
    subject: &str,
) -> Result<HostWords, WordsError>
    ensures asked { IfOk result (λ words.
        Asks words (action_of (rows_of (found_of found.now)) action.now subject.now)) }
    ensures usage { IsErrOf result WordsError.Usage →
        action_of (rows_of (found_of found.now)) action.now subject.now ≡ None }
{
    match action {
        "flashall" => flash_all(alloc, found, subject),
        "getvar" => get_var(alloc, found, subject),
        "sample" => sample(subject, lacks(found, "target") && has_no_options(found)),
        _ => Err(WordsError::Usage),
    }
}

/// What the matches of the command ask for.
fn request(alloc: Global, found: &ArgMatches<'_>) -> Result<HostWords, WordsError>
    ensures asked { IfOk result (λ words. Asks words (request_among (rows_of (found_of found.now)))) }
    ensures usage { IsErrOf result WordsError.Usage → request_among (rows_of (found_of found.now)) ≡ None }
{
    let Some(word) = value(found, "action") else {
        return Err(WordsError::Usage);
    };
    let Some(subject) = value(found, "subject") else {
        return Err(WordsError::Usage);
    };
    action(alloc, found, word, subject)
}

/// What the words of fbflash's command line ask for. They don't hold the program's name.
pub fn host_words(alloc: Global, words: &[String]) -> Result<HostWords, WordsError>
    ensures asked { IfOk result (λ asked. Asks asked (host_words (map string_bytes words.now))) }
    ensures usage { IsErrOf result WordsError.Usage → host_words (map string_bytes words.now) ≡ None }
{
    let command = host_command(alloc)?;
    let found = read(command, words)?;
    request(alloc, &found)
}
