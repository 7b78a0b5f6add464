ghost use Rattle.std.specs.Prelude.{◌≡◌, IfOk};
ghost use Rattle.clap.specs.Words.{app_of};
ghost use Rattle.host_words.specs.Words.{host_command};

use clap::Command;
use std::alloc::{AllocError, Global};
use word_rules::command::{
    bare_command, due_word, letter_flag, letter_option, with_arg, word_flag, word_option,
};

/// The command of fbflash's words.
pub fn host_command<'a>(alloc: Global) -> Result<Command<'a>, AllocError>
    ensures { IfOk result (λ command. app_of command ≡ host_command) }
{
    let command = bare_command(alloc, "fbflash");
    let command = with_arg(command, letter_option(alloc, "target", 's'))?;
    let command = with_arg(command, word_option(alloc, "slot"))?;
    let command = with_arg(command, letter_flag(alloc, "wipe", 'w'))?;
    let command = with_arg(command, word_flag(alloc, "skip-reboot"))?;
    let command = with_arg(command, word_flag(alloc, "force"))?;
    let command = with_arg(command, word_option(alloc, "retries"))?;
    let command = with_arg(command, due_word(alloc, "action"))?;
    with_arg(command, due_word(alloc, "subject"))
}
