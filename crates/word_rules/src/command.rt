ghost use Rattle.std.specs.Prelude.{◌≡◌, ◌≢◌, [], map, string_bytes, true, false, IfOk};
ghost use Rattle.std.specs.Result.{IsErrOf};
ghost use Rattle.clap.specs.Words.{app_of, found_of, rows_of, rule_of, with_rule, matches_of, fault_of};
ghost use Rattle.clap.specs.Words.{is_simple_and_free};
ghost use Rattle.word_rules.specs.Rules.{letter_option, word_option, letter_flag, word_flag, due_word};
ghost use Rattle.word_rules.specs.Rules.{free_word, bare_command};

use crate::error::WordsError;
use clap::{Arg, ArgAction, ArgMatches, Command};
use std::alloc::{AllocError, Global};

/// An option with a value, by its letter.
pub fn letter_option<'a>(alloc: Global, id: &'a str, letter: char) -> Arg<'a>
    ensures rule { rule_of result ≡ letter_option id.now letter }
    ensures local { result.global ≡ false }
{
    Arg::new(alloc, id).short(letter).action(ArgAction::Set)
}

/// An option with a value, by its word.
pub fn word_option<'a>(alloc: Global, id: &'a str) -> Arg<'a>
    ensures rule { rule_of result ≡ word_option id.now }
    ensures local { result.global ≡ false }
{
    Arg::new(alloc, id).long(id).action(ArgAction::Set)
}

/// A flag, by its letter.
pub fn letter_flag<'a>(alloc: Global, id: &'a str, letter: char) -> Arg<'a>
    ensures rule { rule_of result ≡ letter_flag id.now letter }
    ensures local { result.global ≡ false }
{
    Arg::new(alloc, id).short(letter).action(ArgAction::SetTrue)
}

/// A flag, by its word.
pub fn word_flag<'a>(alloc: Global, id: &'a str) -> Arg<'a>
    ensures rule { rule_of result ≡ word_flag id.now }
    ensures local { result.global ≡ false }
{
    Arg::new(alloc, id).long(id).action(ArgAction::SetTrue)
}

/// A word that has to stand.
pub fn due_word<'a>(alloc: Global, id: &'a str) -> Arg<'a>
    ensures rule { rule_of result ≡ due_word id.now }
    ensures local { result.global ≡ false }
{
    Arg::new(alloc, id).action(ArgAction::Set).required(true)
}

/// A word that may stand.
pub fn free_word<'a>(alloc: Global, id: &'a str) -> Arg<'a>
    ensures rule { rule_of result ≡ free_word id.now }
    ensures local { result.global ≡ false }
{
    Arg::new(alloc, id).action(ArgAction::Set)
}

/// A command without arguments, whose words don't hold the program's name. It has no help and no version.
pub fn bare_command<'a>(alloc: Global, name: &'a str) -> Command<'a>
    ensures { app_of result ≡ bare_command name.now }
{
    Command::new(alloc, name)
        .no_binary_name(true)
        .disable_help_flag(true)
        .disable_version_flag(true)
}

/// The command with one argument more.
pub fn with_arg<'a>(command: Command<'a>, arg: Arg<'a>) -> Result<Command<'a>, AllocError>
    requires local { arg.global ≡ false }
    ensures { IfOk result (λ longer. app_of longer ≡ with_rule (app_of command.entry) (rule_of arg.entry)) }
{
    command.arg(arg)
}

/// The matches of a simple command on the words.
pub fn read<'a>(command: Command<'a>, words: &'a [String]) -> Result<ArgMatches<'a>, WordsError>
    requires simple { is_simple_and_free (app_of command) ≡ true }
    ensures taken { IfOk result (λ found.
        fault_of (app_of command.entry) (map string_bytes words.entry.now) ≡ []) }
    ensures rows { IfOk result (λ found.
        rows_of (found_of found) ≡ matches_of (app_of command.entry) (map string_bytes words.entry.now)) }
    ensures usage { IsErrOf result WordsError.Usage →
        fault_of (app_of command.entry) (map string_bytes words.entry.now) ≢ [] }
{
    Ok(command.try_get_matches_from(words)?)
}
